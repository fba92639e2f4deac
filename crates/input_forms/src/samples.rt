//! Values that show what an input wants.
ghost use Rattle.std.specs.Prelude.{◌≡◌, [], ◌∷◌, None, IfOk, option_map, slice_index_or};
ghost use Rattle.input_forms.specs.Samples as spec;

use crate::wanted::admits_null;
use cwl_types::{ArrayType, MemberType, PlainType};
use cwl_value::{DirVal, FileVal, Place, Value};
use plain_data::{Items, Text};
use std::alloc::{AllocError, Global};

/// The value of an input in a template.
pub fn filled(
    alloc: Global,
    types: Option<&Items<MemberType>>,
    default: Option<&Value>,
) -> Result<Value, AllocError>
    ensures { IfOk result (λ value. value
        ≡ spec.filled (option_map (λ types. types.now) types.entry)
        (option_map (λ default. default.now) default.entry)) }
{
    match default {
        Some(default) => shown(alloc, default),
        None => sample(alloc, types),
    }
}

// A default that can be shown, or null.
fn shown(alloc: Global, default: &Value) -> Result<Value, AllocError>
    ensures { IfOk result (λ value. value ≡ spec.shown default.now) }
{
    match default {
        Value::Bool(flag) => Ok(Value::Bool(*flag)),
        Value::Whole(number) => Ok(Value::Whole(*number)),
        Value::Text(text) => Ok(Value::Text(text.copied(alloc)?)),
        _ => Ok(Value::Null),
    }
}

fn sample(alloc: Global, types: Option<&Items<MemberType>>) -> Result<Value, AllocError>
    ensures { IfOk result (λ value. value
        ≡ spec.filled (option_map (λ types. types.now) types.entry) None) }
{
    if admits_null(types) {
        return Ok(Value::Null);
    }
    match types {
        None => a_file(alloc),
        Some(members) => type_sample(alloc, members),
    }
}

#[cycle(samples)]
fn type_sample(alloc: Global, members: &Items<MemberType>) -> Result<Value, AllocError>
    ensures { IfOk result (λ value. value ≡ spec.type_sample members.now) }
{
    match members.as_slice().first() {
        None => Ok(Value::Text(Text::from_text(alloc, "")?)),
        Some(member) => member_sample(alloc, member),
    }
}

#[cycle(samples)]
fn member_sample(alloc: Global, member: &MemberType) -> Result<Value, AllocError>
    ensures { IfOk result (λ value. value ≡ spec.member_sample member.now) }
{
    match member {
        MemberType::Plain(kind) => plain_sample(alloc, *kind),
        MemberType::Array(array) => array_sample(alloc, array),
        MemberType::Enum(symbols) => first_symbol(alloc, symbols.as_slice()),
    }
}

#[tactic(auto, using(crate::proofs::Arrays::sample_of_array))]
#[cycle(samples)]
fn array_sample(alloc: Global, array: &ArrayType) -> Result<Value, AllocError>
    ensures { IfOk result (λ value. value ≡ spec.array_sample array.now) }
{
    let item = type_sample(alloc, &array.items)?;
    list_of(alloc, item)
}

fn list_of(alloc: Global, item: Value) -> Result<Value, AllocError>
    ensures { IfOk result (λ value. value ≡ Value.List (item ∷ [])) }
{
    let mut items = Items::new(alloc);
    items.push(item)?;
    Ok(Value::of_items(items))
}

fn first_symbol(alloc: Global, symbols: &[Text]) -> Result<Value, AllocError>
    ensures { IfOk result (λ value. value ≡ Value.Text (slice_index_or symbols.now 0 [])) }
{
    match symbols.first() {
        None => Ok(Value::Text(Text::from_text(alloc, "")?)),
        Some(symbol) => Ok(Value::Text(symbol.copied(alloc)?)),
    }
}

fn plain_sample(alloc: Global, kind: PlainType) -> Result<Value, AllocError>
    ensures { IfOk result (λ value. value ≡ spec.plain_sample kind) }
{
    match kind {
        PlainType::Null => Ok(Value::Null),
        PlainType::Boolean => Ok(Value::Bool(false)),
        PlainType::Int | PlainType::Long => Ok(Value::Whole(0)),
        PlainType::Text | PlainType::Any => Ok(Value::Text(Text::from_text(alloc, "TEXT")?)),
        PlainType::File => a_file(alloc),
        PlainType::Directory => a_folder(alloc),
    }
}

fn a_file(alloc: Global) -> Result<Value, AllocError>
    ensures { IfOk result (λ value. value ≡ spec.a_file) }
{
    Ok(Value::FileVal(FileVal {
        place: Place::Url(Text::from_text(alloc, "FILE")?),
        basename: None,
        checksum: None,
        size: None,
        contents: None,
        secondary: Items::new(alloc),
    }))
}

fn a_folder(alloc: Global) -> Result<Value, AllocError>
    ensures { IfOk result (λ value. value ≡ spec.a_folder) }
{
    Ok(Value::DirVal(DirVal {
        place: Place::Url(Text::from_text(alloc, "FOLDER")?),
        basename: None,
        listing: None,
    }))
}

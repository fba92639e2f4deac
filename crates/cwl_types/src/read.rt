//! Reads types from the JSON of a document.
ghost use Rattle.std.specs.Prelude.{◌≡◌, [], ◌∷◌, ◌++◌, None, IfOk, OnOk};
ghost use Rattle.serde_json.specs.View.{view, items_view, members_view};
ghost use Rattle.cwl_types.specs.Named.{row_seen};
ghost use Rattle.cwl_types.specs.Types.{binding_in, items_in, is_array, member_named, object_type, symbols_in, text_type, texts_in, type_in, types_in};

use crate::named::{NamedType, named_type};
use crate::types::{ArrayType, ItemBinding, MemberType, PlainType};
use document_table::plain_id;
use plain_data::{Items, Text};
use serde_json::{Map, Value};
use std::alloc::{AllocError, Global};

/// The members of the type that a value stands for.
pub fn read_type(alloc: Global, value: &Value) -> Result<Items<MemberType>, AllocError>
    ensures { IfOk result (λ members. members ≡ type_in (view value.now)) }
{
    let mut members = Items::new(alloc);
    add_type(alloc, value, &mut members)?;
    Ok(members)
}

#[cycle(types)]
fn add_type(alloc: Global, value: &Value, to: &mut Items<MemberType>) -> Result<(), AllocError>
    ensures { OnOk result (to.new ≡ to.old ++ type_in (view value.now)) }
{
    match value {
        Value::String(text) => add_named(alloc, text.as_str(), to),
        Value::Array(items) => add_types(alloc, items, to),
        Value::Object(members) => {
            let items = read_items(alloc, members)?;
            to.push(read_object(alloc, value, items)?)
        }
        Value::Null | Value::Bool(_) | Value::Number(_) => Ok(()),
    }
}

#[cycle(types)]
fn add_types(
    alloc: Global,
    items: &Vec<Value>,
    to: &mut Items<MemberType>,
) -> Result<(), AllocError>
    ensures { OnOk result (to.new ≡ to.old ++ types_in (items_view items.now.items)) }
{
    for item in items {
        add_type(alloc, item, to)?;
    }
    Ok(())
}

/// The type of the field `items`.
#[cycle(types)]
fn read_items(alloc: Global, members: &Map<String, Value>) -> Result<Items<MemberType>, AllocError>
    ensures { IfOk result (λ items. items ≡ items_in (members_view members.now.entries)) }
{
    let mut items = Items::new(alloc);
    for (name, value) in members.iter() {
        if name.as_str() == "items" {
            add_type(alloc, value, &mut items)?;
            return Ok(items);
        }
    }
    Ok(items)
}

fn add_named(alloc: Global, text: &str, to: &mut Items<MemberType>) -> Result<(), AllocError>
    ensures { OnOk result (to.new ≡ to.old ++ text_type text.now) }
{
    let Some(named) = named_type(text) else {
        return Ok(());
    };
    if named.optional {
        to.push(MemberType::Plain(PlainType::Null))?;
    }
    to.push(member_named(alloc, named)?)
}

fn member_named(alloc: Global, named: NamedType) -> Result<MemberType, AllocError>
    ensures { IfOk result (λ member. member ≡ member_named (row_seen named)) }
{
    let plain = MemberType::Plain(named.plain);
    if !named.array {
        return Ok(plain);
    }
    let mut items = Items::new(alloc);
    items.push(plain)?;
    Ok(MemberType::Array(ArrayType {
        items,
        binding: None,
    }))
}

/// The one member of an object's type, where its field `items` has this type.
fn read_object(
    alloc: Global,
    object: &Value,
    items: Items<MemberType>,
) -> Result<MemberType, AllocError>
    ensures { IfOk result (λ member. member ≡ object_type (view object.now) items) }
{
    if is_array(object) {
        let binding = match object.get("inputBinding") {
            None => None,
            Some(binding) => Some(read_binding(alloc, binding)?),
        };
        return Ok(MemberType::Array(ArrayType { items, binding }));
    }
    match object.get("symbols") {
        None => Ok(MemberType::Enum(Items::new(alloc))),
        Some(symbols) => Ok(MemberType::Enum(read_symbols(alloc, symbols)?)),
    }
}

fn is_array(object: &Value) -> bool
    ensures { result ≡ is_array (view object.now) }
{
    match object.get("type") {
        None => false,
        Some(class) => match class.as_str() {
            None => false,
            Some(name) => name == "array",
        },
    }
}

fn read_binding(alloc: Global, value: &Value) -> Result<ItemBinding, AllocError>
    ensures { IfOk result (λ binding. binding ≡ binding_in (view value.now)) }
{
    let separate = match value.get("separate") {
        None => true,
        Some(separate) => separate.as_bool().unwrap_or(true),
    };
    let prefix = match value.get("prefix") {
        None => None,
        Some(prefix) => match prefix.as_str() {
            None => None,
            Some(prefix) => Some(Text::from_text(alloc, prefix)?),
        },
    };
    Ok(ItemBinding { prefix, separate })
}

fn read_symbols(alloc: Global, value: &Value) -> Result<Items<Text>, AllocError>
    ensures { IfOk result (λ symbols. symbols ≡ symbols_in (view value.now)) }
{
    match value {
        Value::Array(items) => read_texts(alloc, items),
        _ => Ok(Items::new(alloc)),
    }
}

fn read_texts(alloc: Global, items: &Vec<Value>) -> Result<Items<Text>, AllocError>
    ensures { IfOk result (λ texts. texts ≡ texts_in (items_view items.now.items)) }
{
    let mut texts = Items::new(alloc);
    for item in items {
        texts.push(Text::from_text(alloc, plain_id(item.as_str().unwrap_or("")))?)?;
    }
    Ok(texts)
}

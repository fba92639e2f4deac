//! From JSON to values.
ghost use Rattle.std.specs.Prelude.{◌≡◌, ◌≢◌, Ok, Err, IfOk, IfErr, codes, length};
ghost use Rattle.plain_data.specs.ByName.{value_at};
ghost use Rattle.serde_json.specs.Find.{as_i64, is_float};
ghost use Rattle.serde_json.specs.View.{view, number_view, items_view, members_view};
ghost use Rattle.cwl_value.specs.Reading.{reading, value_read, whole_read, all_read, items_read, members_read, fields_read, object_read, file_read, file_form, dir_read, list_read, list_form, class_in};
ghost use Rattle.cwl_value.specs.Texts.{ReadsAs};
ghost use Rattle.cwl_value.specs.declared.value.Value.{out-Value};
ghost use Rattle.cwl_value.specs.declared.refusal.ValueRefusal.TheVariants.{OutOfMemory};

use crate::beside::{listing_of, secondary_of};
use crate::depth::nests_within;
use crate::members::{class_of, place_in, placed_in, summed_in};
use crate::place::Place;
use crate::refusal::{FileField, ValueRefusal};
use crate::value::{DirVal, FileVal, Value};
use plain_data::{Items, Keyed, SharedItems, Text};
use serde_json::value::Map;
use serde_json::{Number, Value as Json};
use std::alloc::Global;

/// How deep arrays and objects may nest in the JSON of a value that is read.
pub const MOST_NESTING: usize = 100;

/// Reads a value from JSON text (CWL v1.2, "Data concepts", File and Directory).
///
/// Where an object repeats a key, its last value counts.
///
/// # Errors
///
/// Each of `ValueRefusal`; where several hold, one of them.
pub fn read_value(alloc: Global, bytes: &[u8]) -> Result<Value, ValueRefusal>
    ensures { result ≢ Err OutOfMemory → ReadsAs bytes.now result }
{
    match Json::from_slice(alloc, bytes) {
        Ok(json) => from_json(alloc, &json),
        Err(error) if error.is_memory() => Err(ValueRefusal::OutOfMemory),
        Err(_) => Err(ValueRefusal::NotJson),
    }
}

/// The value that JSON stands for.
pub fn from_json(alloc: Global, json: &Json) -> Result<Value, ValueRefusal>
    ensures ok { IfOk result (λ v. reading (view json.now) ≡ Ok v) }
    ensures err { IfErr result (λ e. e ≢ OutOfMemory → reading (view json.now) ≡ Err e) }
{
    if !nests_within(json, MOST_NESTING) {
        return Err(ValueRefusal::TooDeep);
    }
    read(alloc, json)
}

#[cycle(read)]
fn read(alloc: Global, json: &Json) -> Result<Value, ValueRefusal>
    ensures ok { IfOk result (λ v. value_read (view json.now) ≡ Ok v) }
    ensures err { IfErr result (λ e. e ≢ OutOfMemory → value_read (view json.now) ≡ Err e) }
{
    match json {
        Json::Null => Ok(Value::Null),
        Json::Bool(flag) => Ok(Value::Bool(*flag)),
        Json::Number(number) => whole(number),
        Json::String(text) => Ok(Value::Text(Text::from_text(alloc, text.as_str())?)),
        Json::Array(items) => Ok(Value::of_items(read_items(alloc, items)?)),
        Json::Object(members) => read_object(alloc, members),
    }
}

fn whole(number: &Number) -> Result<Value, ValueRefusal>
    ensures { result ≡ whole_read (number_view number.now) }
{
    match number.as_i64() {
        Some(whole) => Ok(Value::Whole(whole)),
        None if number.is_f64() => Err(ValueRefusal::NotWhole),
        None => Err(ValueRefusal::OutOfRange),
    }
}

#[cycle(read)]
fn read_items(alloc: Global, items: &Vec<Json>) -> Result<Items<Value>, ValueRefusal>
    ensures ok { IfOk result (λ vs. all_read (items_read (items_view items.now.items)) ≡ Ok vs) }
    ensures err { IfErr result (λ e. e ≢ OutOfMemory
        → all_read (items_read (items_view items.now.items)) ≡ Err e) }
{
    let mut found = Items::from_vec(Vec::with_capacity(alloc, items.len())?);
    for item in items {
        found.push(read(alloc, item)?)?;
    }
    Ok(found)
}

#[cycle(read)]
fn read_object(alloc: Global, members: &Map<String, Json>) -> Result<Value, ValueRefusal>
    ensures ok { IfOk result (λ v. object_read (members_view members.now.entries)
        (members_read (members_view members.now.entries)) ≡ Ok v) }
    ensures err { IfErr result (λ e. e ≢ OutOfMemory
        → object_read (members_view members.now.entries)
        (members_read (members_view members.now.entries)) ≡ Err e) }
{
    match class_of(members) {
        "File" => Ok(Value::FileVal(read_file(alloc, members)?)),
        "Directory" => Ok(Value::DirVal(read_dir(alloc, members)?)),
        _ => Ok(Value::Fields(read_fields(alloc, members)?)),
    }
}

#[cycle(read)]
fn read_fields(alloc: Global, members: &Map<String, Json>) -> Result<Keyed<Value>, ValueRefusal>
    ensures ok { IfOk result (λ es. fields_read (members_read (members_view members.now.entries))
        ≡ Ok es) }
    ensures err { IfErr result (λ e. e ≢ OutOfMemory
        → fields_read (members_read (members_view members.now.entries)) ≡ Err e) }
{
    let mut found = Vec::with_capacity(alloc, members.len())?;
    for (key, member) in members.iter() {
        let name = Text::from_text(alloc, key.as_str())?;
        found.push((name, read(alloc, member)?))?;
    }
    Ok(Keyed::from_sorted(found))
}

#[cycle(read)]
fn read_file(alloc: Global, members: &Map<String, Json>) -> Result<FileVal, ValueRefusal>
    requires { class_in (members_view members.now.entries) ≡ codes "File" }
    ensures ok { IfOk result (λ f. file_read (members_view members.now.entries)
        (members_read (members_view members.now.entries)) ≡ Ok f) }
    ensures err { IfErr result (λ e. e ≢ OutOfMemory
        → file_read (members_view members.now.entries)
        (members_read (members_view members.now.entries)) ≡ Err e) }
{
    if members.len() == 2 {
        return bare_file(alloc, members);
    }
    let placed = placed_in(alloc, members)?;
    let summed = summed_in(alloc, members)?;
    let listed = read_list(alloc, members, "secondaryFiles", FileField::SecondaryFiles)?;
    Ok(file_of(alloc, placed, summed, listed)?)
}

#[cycle(read)]
fn read_dir(alloc: Global, members: &Map<String, Json>) -> Result<DirVal, ValueRefusal>
    ensures ok { IfOk result (λ d. dir_read (members_view members.now.entries)
        (members_read (members_view members.now.entries)) ≡ Ok d) }
    ensures err { IfErr result (λ e. e ≢ OutOfMemory
        → dir_read (members_view members.now.entries)
        (members_read (members_view members.now.entries)) ≡ Err e) }
{
    let (place, basename) = placed_in(alloc, members)?;
    let listed = read_list(alloc, members, "listing", FileField::Listing)?;
    let listing = listing_of(alloc, listed)?;
    Ok(DirVal {
        place,
        basename,
        listing,
    })
}

// A File of two members: its class, and one that has to be its place. No other is looked for.
fn bare_file(alloc: Global, members: &Map<String, Json>) -> Result<FileVal, ValueRefusal>
    requires class { class_in (members_view members.now.entries) ≡ codes "File" }
    requires two { length members.now.entries ≡ 2 }
    ensures ok { IfOk result (λ f. file_read (members_view members.now.entries)
        (members_read (members_view members.now.entries)) ≡ Ok f) }
    ensures err { IfErr result (λ e. e ≢ OutOfMemory
        → file_read (members_view members.now.entries)
        (members_read (members_view members.now.entries)) ≡ Err e) }
{
    let place = place_in(alloc, members)?;
    file_of(alloc, (place, None), (None, None), None)
}

// The File of what was read, unless its secondary files don't fit beside it.
fn file_of(
    alloc: Global,
    placed: (Place, Option<Text>),
    summed: (Option<Text>, Option<u64>),
    listed: Option<SharedItems<Value>>,
) -> Result<FileVal, ValueRefusal>
    ensures ok { IfOk result (λ f. file_form placed summed listed ≡ Ok f) }
    ensures err { IfErr result (λ e. e ≢ OutOfMemory → file_form placed summed listed ≡ Err e) }
{
    let (place, basename) = placed;
    let (checksum, size) = summed;
    let secondary = secondary_of(alloc, &basename, listed)?;
    Ok(FileVal {
        place,
        basename,
        checksum,
        size,
        contents: None,
        secondary,
    })
}

#[cycle(read)]
fn read_list(
    alloc: Global,
    members: &Map<String, Json>,
    name: &str,
    field: FileField,
) -> Result<Option<SharedItems<Value>>, ValueRefusal>
    ensures ok { IfOk result
        (λ vs. list_read field (value_at name.now (members_read (members_view members.now.entries)))
        ≡ Ok vs) }
    ensures err { IfErr result (λ e. e ≢ OutOfMemory
        → list_read field (value_at name.now (members_read (members_view members.now.entries)))
        ≡ Err e) }
{
    match members.get(name) {
        None => Ok(None),
        Some(json) => listed_in(read(alloc, json)?, field),
    }
}

fn listed_in(value: Value, field: FileField) -> Result<Option<SharedItems<Value>>, ValueRefusal>
    ensures { result ≡ list_form field (out-Value value) }
{
    match value {
        Value::List(values) => Ok(Some(values)),
        other => {
            drop(other);
            Err(ValueRefusal::BadFile(field))
        }
    }
}

//! What is kept under texts.
use crate::values::{coded, value_in, value_of, written, written_last};
use cwl_value::{Value, copy_fields};
use plain_data::{Keyed, Text};
use serde_json::Value as Json;
use std::alloc::Global;
use test_rows::{Row, RowFault};

/// `from_entries` puts entries in order, `insert` puts a value under a name and answers with the value that was there,
/// and `get` looks a name up.
pub(crate) fn answer(alloc: Global, row: &Row) -> Result<String, RowFault> {
    match row.call() {
        "from_entries" => keyed(alloc, row.list("entries")?),
        "insert" => inserted(alloc, row),
        "get" => got(alloc, row),
        _ => Err(RowFault::UnknownCall),
    }
}

fn keyed(alloc: Global, entries: &[Json]) -> Result<String, RowFault> {
    let mut list = Vec::new(alloc);
    for entry in entries {
        list.push(entry_of(alloc, entry)?)?;
    }
    match Keyed::from_entries(list) {
        Ok(fields) => fields_text(alloc, fields),
        Err(refused) => Ok(format!(in alloc; "{refused}")?),
    }
}

fn fields_text(alloc: Global, fields: Keyed<Value>) -> Result<String, RowFault> {
    written_last(alloc, Value::Fields(fields))
}

// Each entry is a name and a value.
fn entry_of(alloc: Global, entry: &Json) -> Result<(Text, Value), RowFault> {
    let Some([name, value]) = entry.as_array().map(|parts| parts.as_slice()) else {
        return Err(RowFault::BadArgument);
    };
    let name = Text::from_text(alloc, name.as_str().ok_or(RowFault::BadArgument)?)?;
    Ok((name, value_in(alloc, value)?))
}

fn inserted(alloc: Global, row: &Row) -> Result<String, RowFault> {
    let given = value_of(alloc, row, "fields")?;
    let fields = fields_of(alloc, &given);
    drop(given);
    let mut fields = fields?;
    let before = put(alloc, &mut fields, row);
    let answer = pair_text(alloc, &before, fields);
    drop(before);
    answer
}

fn put(alloc: Global, fields: &mut Keyed<Value>, row: &Row) -> Result<Value, RowFault> {
    let name = Text::from_text(alloc, row.text("name")?)?;
    let before = fields.insert(name, value_of(alloc, row, "value")?)?;
    Ok(before.unwrap_or(Value::Null))
}

fn fields_of(alloc: Global, value: &Value) -> Result<Keyed<Value>, RowFault> {
    match value {
        Value::Fields(fields) => Ok(copy_fields(alloc, fields)?),
        _ => Err(RowFault::BadArgument),
    }
}

// The value that was there, and the fields.
fn pair_text(
    alloc: Global,
    before: &Result<Value, RowFault>,
    fields: Keyed<Value>,
) -> Result<String, RowFault> {
    let fields = fields_text(alloc, fields)?;
    match before {
        Ok(before) => beside(alloc, before, fields.as_str()),
        Err(_) => Err(RowFault::BadArgument),
    }
}

fn beside(alloc: Global, before: &Value, fields: &str) -> Result<String, RowFault> {
    let before = written(alloc, before)?;
    Ok(format!(in alloc; "[{before},{fields}]")?)
}

fn got(alloc: Global, row: &Row) -> Result<String, RowFault> {
    let name = row.text("name")?;
    let fields = value_of(alloc, row, "fields")?;
    let answer = found(alloc, &fields, name);
    drop(fields);
    answer
}

fn found(alloc: Global, value: &Value, name: &str) -> Result<String, RowFault> {
    let Value::Fields(fields) = value else {
        return Err(RowFault::BadArgument);
    };
    match fields.get(name) {
        Some(value) => written(alloc, value),
        None => coded(alloc, if fields.contains(name) { "?" } else { "absent" }),
    }
}

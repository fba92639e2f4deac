//! Rows of the record, from JSON and back.

use cwl_value::{Value, ValueRefusal, canonical_text, copy_fields, from_json};
use job_rows::Row;
use plain_data::{Items, Keyed, Text};
use serde_json::Value as Json;
use staging::Found;
use std::alloc::{AllocError, Global};
use std::mem;
use test_rows::{AnswerText, Row as Asked, RowFault};

// The members of a row's object.
#[derive(Clone, Copy)]
struct Wanted<'a> {
    key: &'a str,
    outputs: &'a Json,
    files: &'a [Json],
    cost: u64,
    archived: bool,
}

fn members_of(json: &Json) -> Option<Wanted<'_>> {
    Some(Wanted {
        key: text_of(json, "key")?,
        outputs: json.get("outputs")?,
        files: json.get("files")?.as_array()?.as_slice(),
        cost: json.get("cost")?.as_u64()?,
        archived: json.get("archived")?.as_bool()?,
    })
}

/// The text of this name in an object.
pub(crate) fn text_of<'a>(json: &'a Json, name: &str) -> Option<&'a str> {
    json.get(name)?.as_str()
}

/// How many bytes the archives of a record may have together, if the row of the test says it.
pub fn budget_of(row: &Asked) -> Result<Option<u64>, RowFault> {
    if row.find("budget").is_none() {
        return Ok(None);
    }
    Ok(Some(row.natural("budget")?))
}

/// The row that an object tells of, if it tells of one.
pub(crate) fn row_in(alloc: Global, json: &Json) -> Option<Row> {
    made(alloc, &members_of(json)?).ok()
}

fn made(alloc: Global, wanted: &Wanted<'_>) -> Result<Row, RowFault> {
    let key = Text::from_text(alloc, wanted.key)?;
    let files = files_of(alloc, wanted.files)?;
    Ok(Row {
        outputs: fields_of(from_json(alloc, wanted.outputs))?,
        key,
        files,
        cost: wanted.cost,
        archived: wanted.archived,
    })
}

/// The members of an object. Any other value is a bad argument.
pub(crate) fn fields_of(value: Result<Value, ValueRefusal>) -> Result<Keyed<Value>, RowFault> {
    match value {
        Ok(Value::Fields(fields)) => Ok(fields),
        other => {
            mem::drop(other);
            Err(RowFault::BadArgument)
        }
    }
}

fn files_of(alloc: Global, list: &[Json]) -> Result<Items<Found>, RowFault> {
    let mut files = Items::new(alloc);
    for entry in list {
        files.push(found_in(alloc, entry)?)?;
    }
    Ok(files)
}

fn found_in(alloc: Global, json: &Json) -> Result<Found, RowFault> {
    let name = text_in(alloc, json, "name")?;
    Ok(Found {
        sum: text_in(alloc, json, "sum")?,
        name,
        is_dir: json.get("is_dir").and_then(|flag| flag.as_bool()) == Some(true),
        size: json.get("size").and_then(|size| size.as_u64()).unwrap_or(0),
    })
}

fn text_in(alloc: Global, json: &Json, name: &str) -> Result<Text, RowFault> {
    match json.get(name) {
        Some(text) => Ok(Text::from_text(alloc, text.as_str().unwrap_or("?"))?),
        None => Err(RowFault::BadArgument),
    }
}

/// Writes the objects that tell of rows, as a list.
pub(crate) fn put_rows(alloc: Global, out: &mut AnswerText, rows: &[Row]) {
    out.put("[");
    for row in rows {
        out.put_comma();
        put_row(alloc, out, row);
    }
    out.put("]");
}

/// The object that tells of a row.
pub fn row_text(alloc: Global, row: &Row) -> Result<String, RowFault> {
    let mut out = AnswerText::new(alloc);
    put_row(alloc, &mut out, row);
    out.finish()
}

/// Writes the object that tells of a row.
pub(crate) fn put_row(alloc: Global, out: &mut AnswerText, row: &Row) {
    out.put("{\"archived\":");
    out.put_flag(row.archived);
    out.put(",\"cost\":");
    put_number(out, row.cost);
    out.put(",\"files\":");
    put_files(out, row.files.as_slice());
    out.put(",\"key\":");
    out.put_quoted(row.key.as_str());
    out.put(",\"outputs\":");
    match outputs_text(alloc, &row.outputs) {
        Ok(text) => out.put(text.as_str()),
        Err(_) => out.put("?"),
    }
    out.put("}");
}

fn put_number(out: &mut AnswerText, number: u64) {
    out.put_whole(i64::try_from(number).unwrap_or(i64::MAX));
}

fn outputs_text(alloc: Global, outputs: &Keyed<Value>) -> Result<Text, AllocError> {
    let value = Value::Fields(copy_fields(alloc, outputs)?);
    let text = canonical_text(alloc, &value);
    mem::drop(value);
    text
}

fn put_files(out: &mut AnswerText, files: &[Found]) {
    out.put("[");
    for found in files {
        out.put_comma();
        put_found(out, found);
    }
    out.put("]");
}

fn put_found(out: &mut AnswerText, found: &Found) {
    out.put("{\"is_dir\":");
    out.put_flag(found.is_dir);
    out.put(",\"name\":");
    out.put_quoted(found.name.as_str());
    out.put(",\"size\":");
    put_number(out, found.size);
    out.put(",\"sum\":");
    out.put_quoted(found.sum.as_str());
    out.put("}");
}

//! Writes values and places in short: a File is its name, with `+` and the files beside it; a Directory is its name, `/`, and its listing;
//! a place lacks the word `main`.
use cwl_value::{DirVal, FileVal, JobPlace, Value, canonical_text, place_text};
use plain_data::{Items, Keyed, Text};
use std::alloc::Global;
use test_rows::{AnswerText, RowFault};

pub(crate) fn put_short_place(alloc: Global, out: &mut AnswerText, place: &JobPlace) {
    match place_text(alloc, place) {
        Err(_refused) => out.fail(RowFault::OutOfMemory),
        Ok(text) => out.put(text.as_str().strip_prefix("main").unwrap_or("?")),
    }
}

/// Puts entries in braces.
pub(crate) fn put_entries(alloc: Global, out: &mut AnswerText, entries: &[(Text, Value)]) {
    out.put("{");
    for entry in entries {
        put_entry(alloc, out, &entry.0, &entry.1);
    }
    out.put("}");
}

#[cycle(short)]
fn put_fields(alloc: Global, out: &mut AnswerText, fields: &Keyed<Value>) {
    out.put("{");
    for entry in fields.as_slice() {
        put_entry(alloc, out, &entry.0, &entry.1);
    }
    out.put("}");
}

#[cycle(short)]
fn put_entry(alloc: Global, out: &mut AnswerText, name: &Text, value: &Value) {
    out.put_comma();
    out.put(name.as_str());
    out.put(":");
    put_short(alloc, out, value);
}

#[cycle(short)]
fn put_short(alloc: Global, out: &mut AnswerText, value: &Value) {
    match value {
        Value::FileVal(file) => put_file(alloc, out, file),
        Value::DirVal(dir) => put_dir(alloc, out, dir),
        Value::List(items) => put_list(alloc, out, items.as_items()),
        Value::Fields(fields) => put_fields(alloc, out, fields),
        Value::Null | Value::Bool(_) | Value::Whole(_) | Value::Text(_) => put_canonical(
            alloc, out, value,
        ),
    }
}

pub(crate) fn put_canonical(alloc: Global, out: &mut AnswerText, value: &Value) {
    match canonical_text(alloc, value) {
        Err(_refused) => out.fail(RowFault::OutOfMemory),
        Ok(text) => out.put(text.as_str()),
    }
}

#[cycle(short)]
fn put_file(alloc: Global, out: &mut AnswerText, file: &FileVal) {
    put_name(out, &file.basename);
    if !file.secondary.is_empty() {
        out.put("+");
        put_list(alloc, out, &file.secondary);
    }
}

#[cycle(short)]
fn put_dir(alloc: Global, out: &mut AnswerText, dir: &DirVal) {
    put_name(out, &dir.basename);
    out.put("/");
    if let Some(listing) = &dir.listing {
        put_list(alloc, out, listing);
    }
}

fn put_name(out: &mut AnswerText, name: &Option<Text>) {
    match name {
        Some(name) => out.put(name.as_str()),
        None => out.put("?"),
    }
}

#[cycle(short)]
fn put_list(alloc: Global, out: &mut AnswerText, values: &Items<Value>) {
    out.put("[");
    for value in values.as_slice() {
        out.put_comma();
        put_short(alloc, out, value);
    }
    out.put("]");
}

//! Writes defaults as JSON, with the paths of their Files and Directories.
use crate::process::put_key;
use crate::short::put_canonical;
use cwl_value::{DirVal, FileVal, Place, Value};
use plain_data::{Items, Text};
use std::alloc::Global;
use test_rows::AnswerText;

/// The key and the value, where there is one.
pub(crate) fn put_default(alloc: Global, out: &mut AnswerText, id: &Text, default: &Option<Value>) {
    if let Some(value) = default {
        put_key(out, id.as_str());
        put_value(alloc, out, value);
    }
}

#[cycle(values)]
fn put_value(alloc: Global, out: &mut AnswerText, value: &Value) {
    match value {
        Value::FileVal(file) => put_file(alloc, out, file),
        Value::DirVal(dir) => put_dir(alloc, out, dir),
        Value::List(items) => put_values(alloc, out, items.as_items()),
        Value::Null | Value::Bool(_) | Value::Whole(_) | Value::Text(_) | Value::Fields(_) =>
            put_canonical(alloc, out, value),
    }
}

#[cycle(values)]
fn put_file(alloc: Global, out: &mut AnswerText, file: &FileVal) {
    put_place(out, "{\"path\":", &file.place, &file.basename);
    if !file.secondary.is_empty() {
        out.put(",\"secondaryFiles\":");
        put_values(alloc, out, &file.secondary);
    }
    out.put("}");
}

#[cycle(values)]
fn put_dir(alloc: Global, out: &mut AnswerText, dir: &DirVal) {
    put_place(out, "{\"folder\":", &dir.place, &dir.basename);
    if let Some(listing) = &dir.listing {
        out.put(",\"listing\":");
        put_values(alloc, out, listing);
    }
    out.put("}");
}

#[cycle(values)]
fn put_values(alloc: Global, out: &mut AnswerText, values: &Items<Value>) {
    out.put("[");
    for value in values.as_slice() {
        out.put_comma();
        put_value(alloc, out, value);
    }
    out.put("]");
}

fn put_place(out: &mut AnswerText, key: &str, place: &Place, basename: &Option<Text>) {
    out.put(key);
    match place {
        Place::Path(path) => out.put_quoted(path.as_str()),
        Place::Nowhere | Place::Url(_) | Place::Made(_, _) => out.put("null"),
    }
    out.put(",\"basename\":");
    put_text_or_null(out, basename);
}

/// A text in its quotes, or `null`.
pub(crate) fn put_text_or_null(out: &mut AnswerText, text: &Option<Text>) {
    match text {
        Some(text) => out.put_quoted(text.as_str()),
        None => out.put("null"),
    }
}

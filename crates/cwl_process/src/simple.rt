//! Reads texts, numbers and booleans at fields, and lists of them.
ghost use Rattle.std.specs.Prelude.{◌≡◌, IfOk, map};
ghost use Rattle.serde_json.specs.Find.{as_str};
ghost use Rattle.serde_json.specs.View.{view, items_view};
ghost use Rattle.cwl_process.specs.Simple.{elements, flag_at, int_at, int_in, ints_at, list_at, name_in, names_at, one_or_more, text_at, texts_at, text_in, value_seen};

use document_table::plain_id;
use plain_data::{Items, Text};
use serde_json::Value;
use std::alloc::{AllocError, Global};

/// The text of a field.
pub(crate) fn text_at(alloc: Global, name: &str, value: &Value) -> Result<Option<Text>, AllocError>
    ensures { IfOk result (λ text. text ≡ text_at name.now (view value.now)) }
{
    match value.get(name) {
        None => Ok(None),
        Some(found) => read_text(alloc, found),
    }
}

/// The text that a value is.
pub(crate) fn read_text(alloc: Global, value: &Value) -> Result<Option<Text>, AllocError>
    ensures { IfOk result (λ text. text ≡ as_str (view value.now)) }
{
    match value.as_str() {
        None => Ok(None),
        Some(text) => Ok(Some(Text::from_text(alloc, text)?)),
    }
}

/// The text that a value is, and an empty one where it is none.
pub(crate) fn read_any_text(alloc: Global, value: &Value) -> Result<Text, AllocError>
    ensures { IfOk result (λ text. text ≡ text_in (view value.now)) }
{
    Text::from_text(alloc, value.as_str().unwrap_or(""))
}

/// The boolean of a field.
pub(crate) fn flag_at(name: &str, absent: bool, value: &Value) -> bool
    ensures { result ≡ flag_at name.now absent (view value.now) }
{
    match value.get(name) {
        None => absent,
        Some(found) => found.as_bool().unwrap_or(absent),
    }
}

/// The number of a field, and 0 where it is absent.
pub(crate) fn int_at(name: &str, value: &Value) -> i32
    ensures { result ≡ int_at name.now (view value.now) }
{
    match value.get(name) {
        None => 0,
        Some(found) => int_in(found),
    }
}

fn int_in(value: &Value) -> i32
    ensures { result ≡ int_in (view value.now) }
{
    match value.as_i64() {
        None => 0,
        Some(number) => {
            if -2147483648 <= number && number <= 2147483647 {
                number as i32
            } else {
                0
            }
        }
    }
}

/// The items of a field's list, or its one value.
pub(crate) fn list_at<'v>(
    alloc: Global,
    name: &str,
    value: &'v Value,
) -> Result<Vec<&'v Value>, AllocError>
    ensures { IfOk result
        (λ found. map value_seen found.items ≡ list_at name.now (view value.now)) }
{
    match value.get(name) {
        None => Ok(Vec::new(alloc)),
        Some(found) => one_or_more(alloc, found),
    }
}

/// The items of a list, or the one value.
pub(crate) fn one_or_more(alloc: Global, value: &Value) -> Result<Vec<&Value>, AllocError>
    ensures { IfOk result (λ found. map value_seen found.items ≡ one_or_more (view value.now)) }
{
    match value {
        Value::Array(items) => elements(alloc, items),
        _ => {
            let mut found = Vec::new(alloc);
            found.push(value)?;
            Ok(found)
        }
    }
}

fn elements(alloc: Global, items: &Vec<Value>) -> Result<Vec<&Value>, AllocError>
    ensures { IfOk result
        (λ found. map value_seen found.items ≡ elements (items_view items.now.items)) }
{
    let mut found = Vec::new(alloc);
    for item in items {
        found.push(item)?;
    }
    Ok(found)
}

/// The texts of a field.
pub(crate) fn texts_at(alloc: Global, name: &str, value: &Value) -> Result<Items<Text>, AllocError>
    ensures { IfOk result (λ texts. texts ≡ texts_at name.now (view value.now)) }
{
    let found = list_at(alloc, name, value)?;
    read_texts(alloc, found.as_slice())
}

fn read_texts(alloc: Global, found: &[&Value]) -> Result<Items<Text>, AllocError>
    ensures { IfOk result (λ texts. texts ≡ map text_in (map value_seen found.now)) }
{
    let mut texts = Items::new(alloc);
    for value in found {
        texts.push(read_any_text(alloc, value)?)?;
    }
    Ok(texts)
}

/// The names that a field lists.
pub(crate) fn names_at(alloc: Global, name: &str, value: &Value) -> Result<Items<Text>, AllocError>
    ensures { IfOk result (λ names. names ≡ names_at name.now (view value.now)) }
{
    let found = list_at(alloc, name, value)?;
    read_names(alloc, found.as_slice())
}

fn read_names(alloc: Global, found: &[&Value]) -> Result<Items<Text>, AllocError>
    ensures { IfOk result (λ names. names ≡ map name_in (map value_seen found.now)) }
{
    let mut names = Items::new(alloc);
    for value in found {
        names.push(read_name(alloc, value)?)?;
    }
    Ok(names)
}

/// What the name that a value is stands for, and an empty text where it is none.
pub(crate) fn read_name(alloc: Global, value: &Value) -> Result<Text, AllocError>
    ensures { IfOk result (λ name. name ≡ name_in (view value.now)) }
{
    Text::from_text(alloc, plain_id(value.as_str().unwrap_or("")))
}

/// The numbers of a field.
pub(crate) fn ints_at(alloc: Global, name: &str, value: &Value) -> Result<Items<i32>, AllocError>
    ensures { IfOk result (λ ints. ints ≡ ints_at name.now (view value.now)) }
{
    let found = list_at(alloc, name, value)?;
    read_ints(alloc, found.as_slice())
}

fn read_ints(alloc: Global, found: &[&Value]) -> Result<Items<i32>, AllocError>
    ensures { IfOk result (λ ints. ints ≡ map int_in (map value_seen found.now)) }
{
    let mut ints = Items::new(alloc);
    for value in found {
        ints.push(int_in(value))?;
    }
    Ok(ints)
}

//! What is said of an input object that is refused.

use cwl_value::ValueRefusal;
use end_words::value_words;
use serde_json::{Map, Value};
use std::alloc::{AllocError, Global};
use std::mem;

/// A number that no value of the input object may be: the names and indices that lead to it, with slashes between, and the number.
#[derive(Drop)]
struct BadNumber {
    place: String,
    number: String,
}

/// Returns a line on an input object in this file that is refused: why, and where.
pub fn refused_line(
    alloc: Global,
    refusal: ValueRefusal,
    bytes: &[u8],
    file: &str,
) -> Result<String, AllocError> {
    let words = value_words(alloc, refusal)?;
    let Some(found) = number_of(alloc, refusal, bytes)? else {
        return format!(in alloc; "{words} in {file}");
    };
    let (place, number) = (&found.place, &found.number);
    if place.is_empty() {
        return format!(in alloc; "{words} in {file}: it is {number}");
    }
    format!(in alloc; "{words} at {place} in {file}: it is {number}")
}

// The first number that is refused so.
fn number_of(
    alloc: Global,
    refusal: ValueRefusal,
    bytes: &[u8],
) -> Result<Option<BadNumber>, AllocError> {
    if !matches!(refusal, ValueRefusal::NotWhole | ValueRefusal::OutOfRange) {
        return Ok(None);
    }
    match Value::from_slice(alloc, bytes) {
        Ok(inputs) => {
            let found = number_in(alloc, refusal, &inputs);
            mem::drop(inputs);
            found
        }
        Err(_) => Ok(None),
    }
}

#[cycle(numbers)]
fn number_in(
    alloc: Global,
    refusal: ValueRefusal,
    value: &Value,
) -> Result<Option<BadNumber>, AllocError> {
    match value {
        Value::Array(items) => number_in_items(alloc, refusal, items),
        Value::Object(members) => number_in_members(alloc, refusal, members),
        Value::Number(_) => bad_number(alloc, refusal, value),
        Value::Null | Value::Bool(_) | Value::String(_) => Ok(None),
    }
}

#[cycle(numbers)]
fn number_in_items(
    alloc: Global,
    refusal: ValueRefusal,
    items: &Vec<Value>,
) -> Result<Option<BadNumber>, AllocError> {
    let mut index: usize = 0;
    for item in items {
        if let Some(found) = number_in(alloc, refusal, item)? {
            return Ok(Some(below_index(alloc, index, found)?));
        }
        index = index.saturating_add(1);
    }
    Ok(None)
}

#[cycle(numbers)]
fn number_in_members(
    alloc: Global,
    refusal: ValueRefusal,
    members: &Map<String, Value>,
) -> Result<Option<BadNumber>, AllocError> {
    for (name, value) in members.iter() {
        if let Some(found) = number_in(alloc, refusal, value)? {
            return Ok(Some(below(alloc, name.as_str(), found)?));
        }
    }
    Ok(None)
}

// The number itself, if it is refused so.
fn bad_number(
    alloc: Global,
    refusal: ValueRefusal,
    value: &Value,
) -> Result<Option<BadNumber>, AllocError> {
    let is_large = value.as_i64().is_none() && value.as_u64().is_some();
    let is_broken = value.as_i64().is_none() && value.as_u64().is_none();
    let is_meant = match refusal {
        ValueRefusal::OutOfRange => is_large,
        _ => is_broken,
    };
    if !is_meant {
        return Ok(None);
    }
    Ok(Some(BadNumber {
        place: String::new(alloc),
        number: value.to_string(alloc)?,
    }))
}

fn below_index(alloc: Global, index: usize, found: BadNumber) -> Result<BadNumber, AllocError> {
    let name = format!(in alloc; "{index}")?;
    below(alloc, name.as_str(), found)
}

fn below(alloc: Global, name: &str, found: BadNumber) -> Result<BadNumber, AllocError> {
    let BadNumber { place, number } = found;
    let place = if place.is_empty() {
        String::from_str(alloc, name)?
    } else {
        format!(in alloc; "{name}/{place}")?
    };
    Ok(BadNumber { place, number })
}

use crate::names::pair;
use cwl_value::{Value, ValueRefusal, canonical_text, erased, from_json, read_value, to_json};
use serde_json::Value as Json;
use std::alloc::{AllocError, Global};
use test_rows::{Row, RowFault};

/// `read_value` writes the value of a text, and the others the copy of such a value, what its JSON reads as, the value
/// without places, and how many owners its list has once it is shared.
pub(crate) fn answer(alloc: Global, row: &Row) -> Result<String, RowFault> {
    let text = row.text("text")?;
    let read = read_value(alloc, text.as_bytes());
    let answer = match &read {
        Ok(value) => written_after(alloc, row.call(), value),
        Err(refusal) => refused(alloc, refusal),
    };
    drop(read);
    answer
}

fn written_after(alloc: Global, call: &str, value: &Value) -> Result<String, RowFault> {
    match call {
        "read_value" => written(alloc, value),
        "clone_in" => written_last(alloc, value.clone_in(alloc)?),
        "from_json" => read_again(alloc, value),
        "erased" => written_last(alloc, erased(alloc, value)?),
        "shared" => shared(alloc, value),
        _ => Err(RowFault::UnknownCall),
    }
}

/// The canonical text of a value.
pub(crate) fn written(alloc: Global, value: &Value) -> Result<String, RowFault> {
    Ok(text_of(alloc, value)?)
}

fn text_of(alloc: Global, value: &Value) -> Result<String, AllocError> {
    Ok(canonical_text(alloc, value)?.into_string())
}

/// The canonical text of a value that ends here: what is handed to `drop` is dropped by one call, at one place.
pub(crate) fn written_last(alloc: Global, value: Value) -> Result<String, RowFault> {
    let text = text_of(alloc, &value);
    drop(value);
    Ok(text?)
}

// The owners of a list that is shared and copied, and then those of the copy alone.
fn shared(alloc: Global, value: &Value) -> Result<String, RowFault> {
    let whole = value.clone_in(alloc)?.shared(alloc)?;
    let copy = whole.clone_in(alloc);
    let first = owners(whole);
    pair(alloc, first, owners(copy?))
}

fn owners(value: Value) -> &'static str {
    match value {
        Value::List(items) => match items.into_items() {
            Ok(items) => {
                drop(items);
                "one"
            }
            Err(kept) => {
                drop(kept);
                "several"
            }
        },
        other => {
            drop(other);
            "none"
        }
    }
}

fn read_again(alloc: Global, value: &Value) -> Result<String, RowFault> {
    let json = to_json(alloc, value)?;
    let again = from_json(alloc, &json);
    drop(json);
    match again {
        Ok(value) => written_last(alloc, value),
        Err(refusal) => refused(alloc, &refusal),
    }
}

// The code, and the words.
fn refused(alloc: Global, refusal: &ValueRefusal) -> Result<String, RowFault> {
    let words = format!(in alloc; "{refusal}")?;
    pair(alloc, refusal.code(), words.as_str())
}

/// The value of an argument.
pub(crate) fn value_of(alloc: Global, row: &Row, argument: &str) -> Result<Value, RowFault> {
    value_in(alloc, row.json(argument)?)
}

/// The value of JSON.
pub(crate) fn value_in(alloc: Global, json: &Json) -> Result<Value, RowFault> {
    from_json(alloc, json).map_err(|_refusal| RowFault::BadArgument)
}

/// The values of a list of JSON.
pub(crate) fn values_in(alloc: Global, list: &[Json]) -> Result<Vec<Value>, RowFault> {
    let mut values = Vec::new(alloc);
    for json in list {
        values.push(value_in(alloc, json)?)?;
    }
    Ok(values)
}

/// A code as an answer.
pub(crate) fn coded(alloc: Global, code: &str) -> Result<String, RowFault> {
    Ok(String::from_str(alloc, code)?)
}

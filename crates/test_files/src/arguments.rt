//! The arguments of a row.
use cwl_value::{Value, from_json};
use plain_data::{Items, Keyed, Text};
use staging::{Found, Measure};
use std::alloc::{AllocError, Global};
use test_rows::{Row, RowFault};

/// The named values of an argument; none where it is absent.
pub(crate) fn fields_of(
    alloc: Global,
    row: &Row,
    argument: &str,
) -> Result<Keyed<Value>, RowFault> {
    let Ok(json) = row.json(argument) else {
        return Ok(Keyed::new(alloc));
    };
    match from_json(alloc, json).map_err(|_refusal| RowFault::BadArgument)? {
        Value::Fields(fields) => Ok(fields),
        _ => Err(RowFault::BadArgument),
    }
}

/// The files and folders that the row has found; none where it tells of none.
pub(crate) fn found_of(alloc: Global, row: &Row) -> Result<Items<Found>, RowFault> {
    let Ok(json) = row.json("found") else {
        return Ok(Items::new(alloc));
    };
    let value = from_json(alloc, json).map_err(|_refusal| RowFault::BadArgument)?;
    let found = match &value {
        Value::List(entries) => listing_in(alloc, entries.as_slice()),
        _ => Ok(Items::new(alloc)),
    };
    drop(value);
    found
}

/// What stands at each path.
pub(crate) fn measures_of(alloc: Global, row: &Row) -> Result<Keyed<Measure>, RowFault> {
    let mut measures = Keyed::new(alloc);
    let fields = fields_of(alloc, row, "measures")?;
    for field in fields.as_slice() {
        let path = field.0.copied(alloc)?;
        drop(measures.insert(path, measure_in(alloc, &field.1)?)?);
    }
    drop(fields);
    Ok(measures)
}

fn measure_in(alloc: Global, value: &Value) -> Result<Measure, RowFault> {
    let Value::Fields(fields) = value else {
        return Ok(Measure::Absent);
    };
    match (fields.get("file"), fields.get("folder")) {
        (Some(Value::List(parts)), None) => file_in(alloc, parts.as_slice()),
        (None, Some(Value::List(entries))) => {
            Ok(Measure::Folder(listing_in(alloc, entries.as_slice())?))
        }
        _ => Err(RowFault::BadArgument),
    }
}

fn file_in(alloc: Global, parts: &[Value]) -> Result<Measure, RowFault> {
    match parts {
        [Value::Whole(size), Value::Text(sum)] => {
            Ok(Measure::File {
                size: u64::try_from(*size).unwrap_or(0),
                sum: sum.copied(alloc)?,
            })
        }
        _ => Err(RowFault::BadArgument),
    }
}

fn listing_in(alloc: Global, entries: &[Value]) -> Result<Items<Found>, RowFault> {
    let mut listing = Items::new(alloc);
    for entry in entries {
        listing.push(found_in(alloc, entry)?)?;
    }
    Ok(listing)
}

fn found_in(alloc: Global, entry: &Value) -> Result<Found, RowFault> {
    let Value::List(parts) = entry else {
        return Err(RowFault::BadArgument);
    };
    match parts.as_slice() {
        [
            Value::Text(name),
            Value::Bool(is_dir),
            Value::Whole(size),
            Value::Text(sum),
        ] => {
            Ok(Found {
                name: name.copied(alloc)?,
                is_dir: *is_dir,
                size: u64::try_from(*size).unwrap_or(0),
                sum: sum.copied(alloc)?,
            })
        }
        _ => Err(RowFault::BadArgument),
    }
}

/// First bytes by path or name, each a text or a list of numbers.
pub(crate) fn heads_of(alloc: Global, row: &Row) -> Result<Keyed<Items<u8>>, RowFault> {
    let mut heads = Keyed::new(alloc);
    let fields = fields_of(alloc, row, "heads")?;
    for field in fields.as_slice() {
        let path = field.0.copied(alloc)?;
        drop(heads.insert(path, bytes_of(&field.1, Items::new(alloc))?)?);
    }
    drop(fields);
    Ok(heads)
}

fn bytes_of(value: &Value, mut bytes: Items<u8>) -> Result<Items<u8>, RowFault> {
    match value {
        Value::Text(text) => push_bytes(text, &mut bytes)?,
        Value::List(numbers) => {
            for number in numbers.as_slice() {
                if let Value::Whole(number) = number {
                    bytes.push(u8::try_from(*number).unwrap_or(0))?;
                }
            }
        }
        _ => return Err(RowFault::BadArgument),
    }
    Ok(bytes)
}

fn push_bytes(text: &Text, bytes: &mut Items<u8>) -> Result<(), AllocError> {
    for byte in text.as_str().as_bytes() {
        bytes.push(*byte)?;
    }
    Ok(())
}

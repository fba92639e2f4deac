//! Reads the values that rows have as JSON.
use cwl_value::{Value, from_json};
use plain_data::Keyed;
use serde_json::Value as Json;
use std::alloc::Global;
use test_rows::RowFault;

pub(crate) fn value_of(alloc: Global, json: &Json) -> Result<Value, RowFault> {
    from_json(alloc, json).map_err(|_refusal| RowFault::BadArgument)
}

/// The fields of an object.
pub(crate) fn fields_of(alloc: Global, json: &Json) -> Result<Keyed<Value>, RowFault> {
    match value_of(alloc, json)? {
        Value::Fields(fields) => Ok(fields),
        _ => Err(RowFault::BadArgument),
    }
}

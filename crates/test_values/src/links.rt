use crate::values::{coded, value_of, values_in, written_last};
use cwl_process::{Merge, Pick};
use link_values::{LinkError, merge, pick};
use std::alloc::Global;
use test_rows::{Row, RowFault};

/// `merge` makes one value of those of all links, and `pick` takes those that are not null. A method is the standard's
/// name, or `none`.
pub(crate) fn answer(alloc: Global, row: &Row) -> Result<String, RowFault> {
    match row.call() {
        "merge" => merged(alloc, row),
        "pick" => picked(alloc, row),
        _ => Err(RowFault::UnknownCall),
    }
}

fn merged(alloc: Global, row: &Row) -> Result<String, RowFault> {
    let method = merge_of(row.text("method")?)?;
    let values = values_in(alloc, row.list("values")?)?;
    written_last(alloc, merge(alloc, method, values)?)
}

fn merge_of(name: &str) -> Result<Option<Merge>, RowFault> {
    match name {
        "merge_nested" => Ok(Some(Merge::Nested)),
        "merge_flattened" => Ok(Some(Merge::Flattened)),
        "none" => Ok(None),
        _ => Err(RowFault::BadArgument),
    }
}

fn picked(alloc: Global, row: &Row) -> Result<String, RowFault> {
    let method = pick_of(row.text("method")?)?;
    let value = value_of(alloc, row, "value")?;
    match pick(alloc, method, value) {
        Ok(value) => written_last(alloc, value),
        Err(error) => coded(alloc, code_of(&error)),
    }
}

fn pick_of(name: &str) -> Result<Option<Pick>, RowFault> {
    match name {
        "first_non_null" => Ok(Some(Pick::FirstNonNull)),
        "the_only_non_null" => Ok(Some(Pick::TheOnlyNonNull)),
        "all_non_null" => Ok(Some(Pick::AllNonNull)),
        "none" => Ok(None),
        _ => Err(RowFault::BadArgument),
    }
}

fn code_of(error: &LinkError) -> &'static str {
    match error {
        LinkError::Refused(fault) => fault.code(),
        LinkError::OutOfMemory => "memory",
    }
}

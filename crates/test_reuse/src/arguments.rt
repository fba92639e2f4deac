//! The arguments of a row.
use cwl_process::{Process, read_unlinked};
use cwl_value::{Value, from_json};
use job_rows::Row as JobRow;
use plain_data::{Items, Keyed, Text};
use serde_json::Value as Json;
use staging::Found;
use std::alloc::Global;
use test_rows::{Row, RowFault, json_text};

/// The tool of the row's document.
pub(crate) fn process_of(alloc: Global, row: &Row) -> Result<Process, RowFault> {
    let text = json_text(alloc, row.json("tool")?)?;
    read_unlinked(alloc, text.as_bytes()).map_err(|_fault| RowFault::BadArgument)
}

/// The named values of an argument.
pub(crate) fn fields_of(alloc: Global, row: &Row, name: &str) -> Result<Keyed<Value>, RowFault> {
    match from_json(alloc, row.json(name)?).map_err(|_refusal| RowFault::BadArgument)? {
        Value::Fields(fields) => Ok(fields),
        _ => Err(RowFault::BadArgument),
    }
}

/// The files and folders of an argument, each as `[NAME,IS_DIR,SIZE,SUM]`.
pub(crate) fn files_of(alloc: Global, row: &Row, name: &str) -> Result<Items<Found>, RowFault> {
    let mut files = Items::new(alloc);
    for entry in row.list(name)? {
        files.push(found_in(alloc, entry)?)?;
    }
    Ok(files)
}

fn found_in(alloc: Global, entry: &Json) -> Result<Found, RowFault> {
    let name = text_at(alloc, entry, 0)?;
    Ok(Found {
        sum: text_at(alloc, entry, 3)?,
        name,
        is_dir: entry.get(1).and_then(|flag| flag.as_bool()) == Some(true),
        size: entry.get(2).and_then(|size| size.as_u64()).unwrap_or(0),
    })
}

fn text_at(alloc: Global, entry: &Json, at: usize) -> Result<Text, RowFault> {
    let text = entry.get(at).and_then(|text| text.as_str()).unwrap_or("");
    Ok(Text::from_text(alloc, text)?)
}

/// A row of a record with the row's `outputs` and `files`.
pub(crate) fn job_row(alloc: Global, row: &Row) -> Result<JobRow, RowFault> {
    let outputs = fields_of(alloc, row, "outputs")?;
    let files = files_of(alloc, row, "files")?;
    Ok(JobRow {
        key: Text::from_text(alloc, "k")?,
        outputs,
        files,
        cost: 1,
        archived: true,
    })
}

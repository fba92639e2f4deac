//! The key of a tool and its inputs.

use crate::rows::fields_of;
use cwl_process::{Process, Tool, read_unlinked};
use cwl_value::read_value;
use document_table::DocumentError;
use job_key::key_text;
use std::alloc::Global;
use std::mem;
use test_rows::{Row, RowFault, json_text};

/// The key of the row's document and inputs.
pub(crate) fn key(alloc: Global, row: &Row) -> Result<String, RowFault> {
    let document = json_text(alloc, row.json("document")?)?;
    let process = read_unlinked(alloc, document.as_bytes());
    mem::drop(document);
    let answer = answer_of(alloc, &process, row);
    mem::drop(process);
    answer
}

fn answer_of(
    alloc: Global,
    process: &Result<Process, DocumentError>,
    row: &Row,
) -> Result<String, RowFault> {
    match process {
        Ok(Process::Tool(tool)) => key_of(alloc, tool, row),
        Ok(Process::Workflow(_)) => Err(RowFault::BadArgument),
        Err(DocumentError::Refused(_)) => Err(RowFault::BadArgument),
        Err(DocumentError::OutOfMemory) => Err(RowFault::OutOfMemory),
    }
}

fn key_of(alloc: Global, tool: &Tool, row: &Row) -> Result<String, RowFault> {
    let text = json_text(alloc, row.json("inputs")?)?;
    let value = read_value(alloc, text.as_bytes());
    mem::drop(text);
    let inputs = fields_of(value)?;
    let key = key_text(alloc, tool, &inputs);
    mem::drop(inputs);
    Ok(key?.into_string())
}

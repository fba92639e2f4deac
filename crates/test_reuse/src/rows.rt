//! What is decided of a row of a record.
use crate::arguments::{fields_of, files_of, job_row, process_of};
use cwl_process::{Process, Tool};
use job_reuse::{differs, file_bytes, files_agree, row_is_sound, row_of};
use job_rows::Row as JobRow;
use plain_data::Text;
use std::alloc::Global;
use test_rows::{Row, RowFault};

/// Whether the row is one of the tool.
pub(crate) fn soundness(alloc: Global, row: &Row) -> Result<String, RowFault> {
    let process = process_of(alloc, row)?;
    let answer = match &process {
        Process::Tool(tool) => soundness_by(alloc, tool, row),
        Process::Workflow(_) => Err(RowFault::BadArgument),
    };
    drop(process);
    answer
}

fn soundness_by(alloc: Global, tool: &Tool, row: &Row) -> Result<String, RowFault> {
    let found = job_row(alloc, row)?;
    let sound = row_is_sound(alloc, tool, &found);
    drop(found);
    told(alloc, sound?)
}

/// Whether the `computed` outputs differ from the row's.
pub(crate) fn difference(alloc: Global, row: &Row) -> Result<String, RowFault> {
    let computed = fields_of(alloc, row, "computed")?;
    let found = job_row(alloc, row)?;
    told(alloc, differs(&found, &computed))
}

/// Whether what was `fetched` is the row's files.
pub(crate) fn agreement(alloc: Global, row: &Row) -> Result<String, RowFault> {
    let fetched = files_of(alloc, row, "fetched")?;
    let found = job_row(alloc, row)?;
    told(alloc, files_agree(&found, fetched.as_slice()))
}

/// What there is to load.
pub(crate) fn bytes(alloc: Global, row: &Row) -> Result<String, RowFault> {
    let found = job_row(alloc, row)?;
    let bytes = file_bytes(&found);
    drop(found);
    Ok(format!(in alloc; "{bytes}")?)
}

/// The cost of the row that is put, and whether it says that its files are archived.
pub(crate) fn made(alloc: Global, row: &Row) -> Result<String, RowFault> {
    let made = made_row(alloc, row)?;
    let cost = made.cost;
    let archived = made.archived;
    drop(made);
    Ok(format!(in alloc; "{cost} {archived}")?)
}

fn made_row(alloc: Global, row: &Row) -> Result<JobRow, RowFault> {
    let outputs = fields_of(alloc, row, "outputs")?;
    let files = files_of(alloc, row, "files")?;
    let key = Text::from_text(alloc, "k")?;
    Ok(row_of(
        key,
        outputs,
        files,
        row.natural("millis")?,
        row.flag("archived")?,
    ))
}

/// The word for a flag.
pub(crate) fn told(alloc: Global, flag: bool) -> Result<String, RowFault> {
    let word = if flag { "true" } else { "false" };
    Ok(String::from_str(alloc, word)?)
}

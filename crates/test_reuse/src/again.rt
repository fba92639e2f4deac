//! A job that is met again: its outputs are collected and put, the row is found, and the outputs are collected once more.
use crate::arguments::{fields_of, files_of, process_of};
use collected_outputs::{CollectError, LeftBehind, StreamNames, collect_outputs};
use cwl_process::{Process, Tool};
use cwl_value::{Value, canonical_text, copy_fields, read_value};
use job_reuse::{differs, row_is_sound, row_of};
use job_rows::Row as JobRow;
use plain_data::{Items, Keyed, Text};
use staging::Found;
use std::alloc::Global;
use test_rows::{Row, RowFault};

/// `same` where the row is read back, is one of its tool and doesn't differ; else what goes wrong first. A tool whose outputs
/// can't be collected has the code of their fault.
pub(crate) fn answer(alloc: Global, row: &Row) -> Result<String, RowFault> {
    let process = process_of(alloc, row)?;
    let answer = match &process {
        Process::Tool(tool) => by_tool(alloc, tool, row),
        Process::Workflow(_) => Err(RowFault::BadArgument),
    };
    drop(process);
    answer
}

fn by_tool(alloc: Global, tool: &Tool, row: &Row) -> Result<String, RowFault> {
    let inputs = fields_of(alloc, row, "inputs")?;
    let files = files_of(alloc, row, "files")?;
    let heads = heads_of(alloc, row)?;
    let streams = StreamNames {
        stdout: "out.txt",
        stderr: "",
    };
    let left = LeftBehind {
        inputs: &inputs,
        streams,
        found: files.as_slice(),
        heads: &heads,
    };
    match collect_outputs(alloc, tool, left) {
        Ok(outputs) => found_again(alloc, tool, outputs, files.as_slice()),
        Err(CollectError::Refused(refused)) => {
            Ok(String::from_str(alloc, refused.fault.code())?)
        }
        Err(CollectError::OutOfMemory) => Err(RowFault::OutOfMemory),
    }
}

// The first bytes of `cwl.output.json`, where the row has them.
fn heads_of(alloc: Global, row: &Row) -> Result<Keyed<Items<u8>>, RowFault> {
    let mut heads = Keyed::new(alloc);
    if let Ok(text) = row.text("object") {
        let mut bytes = Items::new(alloc);
        for byte in text.as_bytes() {
            bytes.push(*byte)?;
        }
        drop(heads.insert(Text::from_text(alloc, "cwl.output.json")?, bytes)?);
    }
    Ok(heads)
}

fn found_again(
    alloc: Global,
    tool: &Tool,
    outputs: Keyed<Value>,
    files: &[Found],
) -> Result<String, RowFault> {
    let put = put_row(alloc, copy_fields(alloc, &outputs)?, files)?;
    match read_back(alloc, &put)? {
        None => Ok(String::from_str(alloc, "unread")?),
        Some(found) => told_of(alloc, tool, &found, &outputs),
    }
}

fn put_row(alloc: Global, outputs: Keyed<Value>, files: &[Found]) -> Result<JobRow, RowFault> {
    let mut kept = Items::new(alloc);
    for found in files {
        kept.push(found.clone_in(alloc)?)?;
    }
    Ok(row_of(Text::from_text(alloc, "k")?, outputs, kept, 1000, false))
}

// The row as a record gives it back, which keeps the text of its outputs.
fn read_back(alloc: Global, put: &JobRow) -> Result<Option<JobRow>, RowFault> {
    let object = Value::Fields(copy_fields(alloc, &put.outputs)?);
    let text = canonical_text(alloc, &object)?;
    drop(object);
    match read_value(alloc, text.as_str().as_bytes()) {
        Ok(Value::Fields(outputs)) => {
            let row = put.clone_in(alloc)?;
            Ok(Some(JobRow { outputs, ..row }))
        }
        _ => Ok(None),
    }
}

fn told_of(
    alloc: Global,
    tool: &Tool,
    found: &JobRow,
    outputs: &Keyed<Value>,
) -> Result<String, RowFault> {
    let word = if !row_is_sound(alloc, tool, found)? {
        "contradicts"
    } else if differs(found, outputs) {
        "differs"
    } else {
        "same"
    };
    Ok(String::from_str(alloc, word)?)
}

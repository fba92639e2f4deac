//! What is collected from an output folder.
use crate::arguments::{fields_of, found_of, heads_of};
use collected_outputs::{
    CollectError, LeftBehind, OutputFault, StreamNames, collect_outputs, heads_wanted,
};
use cwl_process::{Process, Tool, read_unlinked};
use cwl_value::{Value, canonical_text};
use plain_data::{Items, Keyed, Text};
use staging::Found;
use std::alloc::Global;
use test_rows::{Row, RowFault, json_text};

/// The output object of the row's tool, as canonical text, or the code of the fault and the output that it is met at.
/// `found` lists the names below the output folder, each with whether it is a folder, its size and its sum; `heads` has
/// first bytes by name, as a text or a list of numbers.
pub(crate) fn answer(alloc: Global, row: &Row) -> Result<String, RowFault> {
    on_tool(alloc, row, Asked::Outputs)
}

/// The names of the files whose first bytes are wanted, as a list.
pub(crate) fn heads_answer(alloc: Global, row: &Row) -> Result<String, RowFault> {
    on_tool(alloc, row, Asked::Heads)
}

#[derive(Clone, Copy, Drop)]
enum Asked {
    Outputs,
    Heads,
}

fn on_tool(alloc: Global, row: &Row, asked: Asked) -> Result<String, RowFault> {
    let text = json_text(alloc, row.json("tool")?)?;
    let process = read_unlinked(alloc, text.as_bytes()).map_err(|_fault| RowFault::BadArgument)?;
    let answer = match &process {
        Process::Tool(tool) => on_inputs(alloc, row, tool, asked),
        Process::Workflow(_) => Err(RowFault::BadArgument),
    };
    drop(process);
    answer
}

fn on_inputs(alloc: Global, row: &Row, tool: &Tool, asked: Asked) -> Result<String, RowFault> {
    let inputs = fields_of(alloc, row, "inputs")?;
    let answer = on_found(alloc, row, tool, &inputs, asked);
    drop(inputs);
    answer
}

fn on_found(
    alloc: Global,
    row: &Row,
    tool: &Tool,
    inputs: &Keyed<Value>,
    asked: Asked,
) -> Result<String, RowFault> {
    let found = found_of(alloc, row)?;
    let answer = match asked {
        Asked::Outputs => on_heads(alloc, row, tool, inputs, found.as_slice()),
        Asked::Heads => wanted(alloc, tool, inputs, found.as_slice()),
    };
    drop(found);
    answer
}

fn on_heads(
    alloc: Global,
    row: &Row,
    tool: &Tool,
    inputs: &Keyed<Value>,
    found: &[Found],
) -> Result<String, RowFault> {
    let heads = heads_of(alloc, row)?;
    let answer = collected(alloc, row, tool, inputs, found, &heads);
    drop(heads);
    answer
}

fn collected(
    alloc: Global,
    row: &Row,
    tool: &Tool,
    inputs: &Keyed<Value>,
    found: &[Found],
    heads: &Keyed<Items<u8>>,
) -> Result<String, RowFault> {
    let streams = StreamNames {
        stdout: row.text("stdout").unwrap_or(""),
        stderr: row.text("stderr").unwrap_or(""),
    };
    let left = LeftBehind {
        inputs,
        streams,
        found,
        heads,
    };
    match collect_outputs(alloc, tool, left) {
        Ok(outputs) => Ok(canonical_text(alloc, &Value::Fields(outputs))?.into_string()),
        Err(CollectError::Refused(refused)) => refusal_text(alloc, &refused),
        Err(CollectError::OutOfMemory) => Err(RowFault::OutOfMemory),
    }
}

fn refusal_text(alloc: Global, refused: &OutputFault) -> Result<String, RowFault> {
    let output = refused.output.as_ref().map_or("", |output| output.as_str());
    fault_text(alloc, refused.fault.code(), output)
}

fn wanted(
    alloc: Global,
    tool: &Tool,
    inputs: &Keyed<Value>,
    found: &[Found],
) -> Result<String, RowFault> {
    match heads_wanted(alloc, tool, inputs, found) {
        Ok(names) => list_text(alloc, names),
        Err(_) => Err(RowFault::OutOfMemory),
    }
}

fn list_text(alloc: Global, names: Items<Text>) -> Result<String, RowFault> {
    let mut values = Items::new(alloc);
    for name in names.into_vec() {
        values.push(Value::Text(name))?;
    }
    Ok(canonical_text(alloc, &Value::of_items(values))?.into_string())
}

fn fault_text(alloc: Global, code: &str, output: &str) -> Result<String, RowFault> {
    if output.is_empty() {
        return Ok(String::from_str(alloc, code)?);
    }
    Ok(format!(in alloc; "{code} {output}")?)
}

//! What is measured, the inputs as they were measured, and their contents.
use crate::arguments::{fields_of, heads_of, measures_of};
use cwl_process::{Process, ToolInput, read_unlinked};
use cwl_value::{Value, canonical_text};
use input_files::{
    ContentsError, ContentsFault, InputError, InputFault, heads_wanted, input_paths, inputs_for,
    with_contents,
};
use plain_data::{Keyed, Text};
use std::alloc::Global;
use test_rows::{Row, RowFault, json_text, quoted};

/// The answer of the row's call for the inputs of its tool.
pub(crate) fn answer(alloc: Global, row: &Row) -> Result<String, RowFault> {
    let text = json_text(alloc, row.json("tool")?)?;
    let process = read_unlinked(alloc, text.as_bytes()).map_err(|_fault| RowFault::BadArgument)?;
    let answer = match &process {
        Process::Tool(tool) => answer_for(alloc, row, tool.inputs.as_slice()),
        Process::Workflow(_) => Err(RowFault::BadArgument),
    };
    drop(process);
    answer
}

fn answer_for(alloc: Global, row: &Row, inputs: &[(Text, ToolInput)]) -> Result<String, RowFault> {
    let given = fields_of(alloc, row, "given")?;
    match row.call() {
        "input_paths" => {
            let paths = input_paths(alloc, inputs, &given)?;
            paths_text(alloc, paths.as_slice())
        }
        "input_heads_wanted" => {
            let paths = heads_wanted(alloc, inputs, &given)?;
            paths_text(alloc, paths.as_slice())
        }
        "inputs_for" => measured(alloc, row, inputs, &given),
        "with_contents" => loaded(alloc, row, inputs, given),
        _ => Err(RowFault::UnknownCall),
    }
}

fn measured(
    alloc: Global,
    row: &Row,
    inputs: &[(Text, ToolInput)],
    given: &Keyed<Value>,
) -> Result<String, RowFault> {
    let measures = measures_of(alloc, row)?;
    match inputs_for(alloc, inputs, given, &measures) {
        Ok(named) => fields_text(alloc, named),
        Err(InputError::Refused(fault)) => input_fault_text(alloc, &fault),
        Err(InputError::OutOfMemory) => Err(RowFault::OutOfMemory),
    }
}

fn input_fault_text(alloc: Global, fault: &InputFault) -> Result<String, RowFault> {
    Ok(match fault {
        InputFault::Kind(input) => format!(in alloc; "Kind {input}")?,
        InputFault::Missing(input) => format!(in alloc; "Missing {input}")?,
        InputFault::Secondary(input) => format!(in alloc; "Secondary {input}")?,
    })
}

fn loaded(
    alloc: Global,
    row: &Row,
    inputs: &[(Text, ToolInput)],
    given: Keyed<Value>,
) -> Result<String, RowFault> {
    let heads = heads_of(alloc, row)?;
    match with_contents(alloc, inputs, given, &heads) {
        Ok(named) => fields_text(alloc, named),
        Err(ContentsError::Refused(fault)) => contents_fault_text(alloc, &fault),
        Err(ContentsError::OutOfMemory) => Err(RowFault::OutOfMemory),
    }
}

fn contents_fault_text(alloc: Global, fault: &ContentsFault) -> Result<String, RowFault> {
    Ok(match fault {
        ContentsFault::TooLong(input) => format!(in alloc; "TooLong {input}")?,
        ContentsFault::NotUtf8(input) => format!(in alloc; "NotUtf8 {input}")?,
    })
}

fn fields_text(alloc: Global, named: Keyed<Value>) -> Result<String, RowFault> {
    Ok(canonical_text(alloc, &Value::Fields(named))?.into_string())
}

fn paths_text(alloc: Global, paths: &[Text]) -> Result<String, RowFault> {
    let mut text = String::from_str(alloc, "[")?;
    for path in paths {
        if !text.as_str().ends_with('[') {
            text.push(',')?;
        }
        text.push_str(quoted(alloc, path.as_str())?.as_str())?;
    }
    text.push(']')?;
    Ok(text)
}

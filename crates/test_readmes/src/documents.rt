//! Samples on single documents: their form, types, processes.

use cwl_process::{Process, read_unlinked};
use cwl_types::{MemberType, read_type};
use cwl_value::Value;
use document_table::{DocumentError, Form, fault_in, read_document};
use plain_data::Items;
use serde_json::Value as Json;
use std::alloc::{AllocError, Global};
use type_check::{Levels, fits};

/// The sample of `document_table`.
pub fn checked_document(alloc: Global, bytes: &[u8]) -> Result<(), AllocError> {
    let answer = read_document(alloc, bytes); // Ok: JSON every field of which has its form
    if let Err(DocumentError::Refused(fault)) = &answer {
        let code = fault.code(); // C1 to C9
        let words = format!(in alloc; "{fault}")?; // "a field is missing at steps/a/run"
    }
    Ok(())
}

/// The sample of `cwl_types`.
pub fn type_at(alloc: Global, value: &Json) -> Result<(), AllocError> {
    if fault_in(alloc, Form::Type, value)?.is_none() {
        let members = read_type(alloc, value)?; // of "int[]?": Plain(Null), Array { items: [Plain(Int)], binding: None }
    }
    Ok(())
}

/// The sample of `type_check`.
pub fn types_compared(
    alloc: Global,
    json: &Json,
    others: &Items<MemberType>,
) -> Result<(), AllocError> {
    let types = read_type(alloc, json)?; // of "int[]?": null, or a list of int
    let is_taken = fits(&Value::Null, &types); // true
    let levels = Levels::of(alloc, &types)?; // a type that others are compared with
    let have_both = levels.first().overlaps(others); // of "long": false; of "long[]": true
    Ok(())
}

/// The sample of `cwl_process`.
pub fn unlinked_process(alloc: Global, bytes: &[u8]) -> Result<(), DocumentError> {
    let process = read_unlinked(alloc, bytes)?; // or what is wrong first, and where, as document_table says it
    let count = match &process {
        Process::Tool(tool) => tool.inputs.len(), // and tool.arguments, tool.asked.environment(), ..
        Process::Workflow(workflow) => workflow.steps.len(), // a step runs a process of its own, or names one of another document
    };
    Ok(())
}

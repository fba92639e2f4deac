//! Checks what fields of a document say together.
ghost use Rattle.std.specs.Prelude.{◌≡◌, IfOk, is_some, map, codes};
ghost use Rattle.serde_json.specs.Find.{get};
ghost use Rattle.serde_json.specs.View.{view};
ghost use Rattle.document_table.specs.Entries.{entry_seen};
ghost use Rattle.document_table.specs.Faults.{under};
ghost use Rattle.document_table.specs.declared.form.Kind.TheVariants as kind;
ghost use Rattle.cwl_process.specs.FirstFaults.{first_at, first_in};
ghost use Rattle.cwl_process.specs.Together.{default_fault, inputs_fault, is_of_type, is_stream, is_value, output_fault, output_source_fault, own_step_fault, process_fault, step_fault, stdin_fault, tool_fault, workflow_fault};
ghost use Rattle.cwl_process.specs.Workflows.{own_id};
ghost use Rattle.document_table.specs.Walk.{or_else};

use crate::fileless_defaults::have_fileless_defaults;
use crate::link_faults::{output_sources_fault, step_sources_fault};
use crate::read_workflow::{is_workflow, own_id};
use crate::template_faults::{asked_fault, at_field, step_text_fault, tool_text_fault};
use cwl_value::{ValueRefusal, from_json, stands_fileless};
use document_table::{Cause, DocumentFault, Kind, entries, here, main_field, under};
use serde_json::Value;
use std::alloc::{AllocError, Global};
use std::mem;

/// What is wrong first with a process that keeps to the table, with so many workflows inside one another
/// at most.
#[cycle(together)]
#[tactic(auto, using(crate::proofs::Levels::fault_at_nothing))]
pub(crate) fn process_fault(
    alloc: Global,
    levels: usize,
    value: &Value,
) -> Result<Option<DocumentFault>, AllocError>
    ensures { IfOk result (λ fault. fault ≡ process_fault levels (view value.now)) }
{
    if levels == 0 {
        return Ok(None);
    }
    if is_workflow(value) {
        return workflow_fault(alloc, levels - 1, value);
    }
    tool_fault(alloc, value)
}

#[cycle(together)]
fn workflow_fault(
    alloc: Global,
    levels: usize,
    value: &Value,
) -> Result<Option<DocumentFault>, AllocError>
    ensures { IfOk result
        (λ fault. fault ≡ workflow_fault (process_fault levels) (view value.now)) }
{
    if let Some(fault) = defaults_fault(alloc, Kind::WorkflowInput, "inputs", value)? {
        return Ok(Some(fault));
    }
    match asked_fault(alloc, value)? {
        Some(fault) => Ok(Some(fault)),
        None => links_fault(alloc, levels, value),
    }
}

/// What is wrong first with the links of a workflow's outputs, and then with its steps.
#[cycle(together)]
fn links_fault(
    alloc: Global,
    levels: usize,
    value: &Value,
) -> Result<Option<DocumentFault>, AllocError>
    ensures { IfOk result (λ fault. fault
        ≡ or_else (first_at kind.WorkflowOutput (output_source_fault (own_id (view value.now)))
        (codes "outputs") (view value.now))
        (first_at kind.Step (step_fault (process_fault levels) (own_id (view value.now)))
        (codes "steps") (view value.now))) }
{
    match output_sources_fault(alloc, own_id(value), value)? {
        Some(fault) => Ok(Some(fault)),
        None => steps_fault(alloc, levels, value),
    }
}

#[cycle(together)]
fn steps_fault(
    alloc: Global,
    levels: usize,
    value: &Value,
) -> Result<Option<DocumentFault>, AllocError>
    ensures { IfOk result (λ fault. fault
        ≡ first_at kind.Step (step_fault (process_fault levels) (own_id (view value.now)))
        (codes "steps") (view value.now)) }
{
    let Some(found) = value.get("steps") else {
        return Ok(None);
    };
    let all = entries(alloc, Kind::Step, found)?;
    let fault = first_step_fault(alloc, levels, own_id(value), all.as_slice())?;
    at_field(alloc, "steps", fault)
}

#[cycle(together)]
fn first_step_fault(
    alloc: Global,
    levels: usize,
    id: &str,
    all: &[(&str, &Value)],
) -> Result<Option<DocumentFault>, AllocError>
    ensures { IfOk result (λ fault. fault
        ≡ first_in (step_fault (process_fault levels) id.now) (map entry_seen all.now)) }
{
    for entry in all {
        if let Some(fault) = step_fault(alloc, levels, id, entry.1)? {
            return Ok(Some(under(alloc, entry.0, fault)?));
        }
    }
    Ok(None)
}

#[cycle(together)]
fn step_fault(
    alloc: Global,
    levels: usize,
    id: &str,
    value: &Value,
) -> Result<Option<DocumentFault>, AllocError>
    ensures { IfOk result
        (λ fault. fault ≡ step_fault (process_fault levels) id.now (view value.now)) }
{
    if let Some(fault) = own_step_fault(alloc, id, value)? {
        return Ok(Some(fault));
    }
    let Some(found) = value.get("run") else {
        return Ok(None);
    };
    if found.as_str().is_some() {
        return Ok(None);
    }
    let fault = process_fault(alloc, levels, found)?;
    at_field(alloc, "run", fault)
}

/// What is wrong first with a step of the workflow of that id, without the process that it runs.
fn own_step_fault(
    alloc: Global,
    id: &str,
    value: &Value,
) -> Result<Option<DocumentFault>, AllocError>
    ensures { IfOk result (λ fault. fault ≡ own_step_fault id.now (view value.now)) }
{
    if let Some(fault) = defaults_fault(alloc, Kind::StepInput, "in", value)? {
        return Ok(Some(fault));
    }
    match step_sources_fault(alloc, id, value)? {
        Some(fault) => Ok(Some(fault)),
        None => step_text_fault(alloc, value),
    }
}

fn tool_fault(alloc: Global, value: &Value) -> Result<Option<DocumentFault>, AllocError>
    ensures { IfOk result (λ fault. fault ≡ tool_fault (view value.now)) }
{
    if let Some(fault) = inputs_fault(alloc, value)? {
        return Ok(Some(fault));
    }
    if let Some(fault) = defaults_fault(alloc, Kind::ToolInput, "inputs", value)? {
        return Ok(Some(fault));
    }
    match outputs_fault(alloc, value)? {
        Some(fault) => Ok(Some(fault)),
        None => tool_text_fault(alloc, value),
    }
}

// ---- streams

fn inputs_fault(alloc: Global, value: &Value) -> Result<Option<DocumentFault>, AllocError>
    ensures { IfOk result (λ fault. fault ≡ inputs_fault (view value.now)) }
{
    let Some(found) = value.get("inputs") else {
        return Ok(None);
    };
    let all = entries(alloc, Kind::ToolInput, found)?;
    let fault = stdin_fault(alloc, value.get("stdin").is_some(), all.as_slice())?;
    at_field(alloc, "inputs", fault)
}

/// An input of the type `stdin` where the standard input is taken already.
fn stdin_fault(
    alloc: Global,
    taken: bool,
    all: &[(&str, &Value)],
) -> Result<Option<DocumentFault>, AllocError>
    ensures { IfOk result (λ fault. fault ≡ stdin_fault taken (map entry_seen all.now)) }
{
    let mut is_taken = taken;
    for entry in all {
        let is_stdin = is_of_type("stdin", entry.1);
        if is_stdin && is_taken {
            return Ok(Some(under(alloc, entry.0, here(alloc, Cause::WrongForm))?));
        }
        is_taken = is_taken || is_stdin;
    }
    Ok(None)
}

fn is_of_type(name: &str, value: &Value) -> bool
    ensures { result ≡ is_of_type name.now (view value.now) }
{
    match main_field("type", value) {
        None => false,
        Some(found) => match found.as_str() {
            None => false,
            Some(text) => text == name,
        },
    }
}

fn outputs_fault(alloc: Global, value: &Value) -> Result<Option<DocumentFault>, AllocError>
    ensures { IfOk result (λ fault. fault
        ≡ first_at kind.ToolOutput output_fault (codes "outputs") (view value.now)) }
{
    let Some(found) = value.get("outputs") else {
        return Ok(None);
    };
    let all = entries(alloc, Kind::ToolOutput, found)?;
    let fault = first_output_fault(alloc, all.as_slice())?;
    at_field(alloc, "outputs", fault)
}

fn first_output_fault(
    alloc: Global,
    all: &[(&str, &Value)],
) -> Result<Option<DocumentFault>, AllocError>
    ensures { IfOk result (λ fault. fault ≡ first_in output_fault (map entry_seen all.now)) }
{
    for entry in all {
        if let Some(fault) = output_fault(alloc, entry.1)? {
            return Ok(Some(under(alloc, entry.0, fault)?));
        }
    }
    Ok(None)
}

fn output_fault(alloc: Global, value: &Value) -> Result<Option<DocumentFault>, AllocError>
    ensures { IfOk result (λ fault. fault ≡ output_fault (view value.now)) }
{
    if is_stream(value) && value.get("outputBinding").is_some() {
        return Ok(Some(under(alloc, "outputBinding", here(alloc, Cause::WrongForm))?));
    }
    Ok(None)
}

fn is_stream(value: &Value) -> bool
    ensures { result ≡ is_stream (view value.now) }
{
    is_of_type("stdout", value) || is_of_type("stderr", value)
}

// ---- defaults

#[tactic(auto, using(crate::proofs::FilelessDefaults::no_default_fault))]
fn defaults_fault(
    alloc: Global,
    kind: Kind,
    name: &str,
    value: &Value,
) -> Result<Option<DocumentFault>, AllocError>
    ensures { IfOk result
        (λ fault. fault ≡ first_at kind default_fault name.now (view value.now)) }
{
    let Some(found) = value.get(name) else {
        return Ok(None);
    };
    if have_fileless_defaults(found) {
        return Ok(None);
    }
    let all = entries(alloc, kind, found)?;
    let fault = first_default_fault(alloc, all.as_slice())?;
    at_field(alloc, name, fault)
}

fn first_default_fault(
    alloc: Global,
    all: &[(&str, &Value)],
) -> Result<Option<DocumentFault>, AllocError>
    ensures { IfOk result (λ fault. fault ≡ first_in default_fault (map entry_seen all.now)) }
{
    for entry in all {
        if let Some(fault) = default_fault(alloc, entry.1)? {
            return Ok(Some(under(alloc, entry.0, fault)?));
        }
    }
    Ok(None)
}

fn default_fault(alloc: Global, value: &Value) -> Result<Option<DocumentFault>, AllocError>
    ensures { IfOk result (λ fault. fault ≡ default_fault (view value.now)) }
{
    let Some(found) = value.get("default") else {
        return Ok(None);
    };
    if is_value(alloc, found)? {
        return Ok(None);
    }
    Ok(Some(under(alloc, "default", here(alloc, Cause::WrongForm))?))
}

/// Whether the JSON represents a value.
#[tactic(auto, using(crate::proofs::FilelessDefaults::fileless_is_value))]
fn is_value(alloc: Global, json: &Value) -> Result<bool, AllocError>
    ensures { IfOk result (λ is. is ≡ is_value (view json.now)) }
{
    if stands_fileless(json) {
        return Ok(true);
    }
    match from_json(alloc, json) {
        Ok(value) => {
            mem::drop(value);
            Ok(true)
        }
        Err(ValueRefusal::OutOfMemory) => Err(AllocError),
        Err(_) => Ok(false),
    }
}

//! Finds the first source that leads nowhere.
ghost use Rattle.std.specs.Prelude.{◌≡◌, IfOk, map, codes};
ghost use Rattle.serde_json.specs.View.{view, items_view};
ghost use Rattle.document_table.specs.Entries.{entry_seen};
ghost use Rattle.document_table.specs.declared.form.Kind.TheVariants as kind;
ghost use Rattle.cwl_process.specs.FirstFaults.{field_fault, first_at, first_in, first_item, first_of_list};
ghost use Rattle.cwl_process.specs.Links.{source_fault};
ghost use Rattle.cwl_process.specs.Together.{output_source_fault, step_source_fault};

use crate::read_links::plain_source;
use crate::template_faults::at_field;
use document_table::{Cause, DocumentFault, Kind, at, entries, here, is_source, under};
use serde_json::Value;
use std::alloc::{AllocError, Global};

/// The first of the sources of a workflow's outputs, of the workflow of that id.
pub(crate) fn output_sources_fault(
    alloc: Global,
    id: &str,
    value: &Value,
) -> Result<Option<DocumentFault>, AllocError>
    ensures { IfOk result (λ fault. fault ≡ first_at kind.WorkflowOutput
        (output_source_fault id.now) (codes "outputs") (view value.now)) }
{
    let Some(found) = value.get("outputs") else {
        return Ok(None);
    };
    let all = entries(alloc, Kind::WorkflowOutput, found)?;
    let fault = first_output_source_fault(alloc, id, all.as_slice())?;
    at_field(alloc, "outputs", fault)
}

fn first_output_source_fault(
    alloc: Global,
    id: &str,
    all: &[(&str, &Value)],
) -> Result<Option<DocumentFault>, AllocError>
    ensures { IfOk result
        (λ fault. fault ≡ first_in (output_source_fault id.now) (map entry_seen all.now)) }
{
    for entry in all {
        if let Some(fault) = source_field_fault(alloc, id, "outputSource", entry.1)? {
            return Ok(Some(under(alloc, entry.0, fault)?));
        }
    }
    Ok(None)
}

/// The first of the sources of a step's inputs, in the workflow of that id.
pub(crate) fn step_sources_fault(
    alloc: Global,
    id: &str,
    value: &Value,
) -> Result<Option<DocumentFault>, AllocError>
    ensures { IfOk result (λ fault. fault ≡ first_at kind.StepInput
        (step_source_fault id.now) (codes "in") (view value.now)) }
{
    let Some(found) = value.get("in") else {
        return Ok(None);
    };
    let all = entries(alloc, Kind::StepInput, found)?;
    let fault = first_step_source_fault(alloc, id, all.as_slice())?;
    at_field(alloc, "in", fault)
}

fn first_step_source_fault(
    alloc: Global,
    id: &str,
    all: &[(&str, &Value)],
) -> Result<Option<DocumentFault>, AllocError>
    ensures { IfOk result
        (λ fault. fault ≡ first_in (step_source_fault id.now) (map entry_seen all.now)) }
{
    for entry in all {
        if let Some(fault) = step_source_fault(alloc, id, entry.1)? {
            return Ok(Some(under(alloc, entry.0, fault)?));
        }
    }
    Ok(None)
}

/// The sources may stand in place of the step's input.
fn step_source_fault(
    alloc: Global,
    id: &str,
    value: &Value,
) -> Result<Option<DocumentFault>, AllocError>
    ensures { IfOk result (λ fault. fault ≡ step_source_fault id.now (view value.now)) }
{
    match value {
        Value::Object(_) => source_field_fault(alloc, id, "source", value),
        Value::Array(items) => first_item(alloc, id, items),
        Value::String(_) => Ok(source_fault(alloc, id, value)),
        Value::Null | Value::Bool(_) | Value::Number(_) => Ok(None),
    }
}

fn source_field_fault(
    alloc: Global,
    id: &str,
    name: &str,
    value: &Value,
) -> Result<Option<DocumentFault>, AllocError>
    ensures { IfOk result (λ fault. fault
        ≡ field_fault (first_of_list (source_fault id.now)) name.now (view value.now)) }
{
    match value.get(name) {
        None => Ok(None),
        Some(found) => {
            let fault = first_of_list(alloc, id, found)?;
            at_field(alloc, name, fault)
        }
    }
}

fn first_of_list(
    alloc: Global,
    id: &str,
    value: &Value,
) -> Result<Option<DocumentFault>, AllocError>
    ensures { IfOk result
        (λ fault. fault ≡ first_of_list (source_fault id.now) (view value.now)) }
{
    match value {
        Value::Array(items) => first_item(alloc, id, items),
        _ => Ok(source_fault(alloc, id, value)),
    }
}

fn first_item(
    alloc: Global,
    id: &str,
    items: &Vec<Value>,
) -> Result<Option<DocumentFault>, AllocError>
    ensures { IfOk result
        (λ fault. fault ≡ first_item (source_fault id.now) 0 (items_view items.now.items)) }
{
    let mut index: usize = 0;
    for item in items {
        if let Some(fault) = source_fault(alloc, id, item) {
            return Ok(Some(at(index, fault)?));
        }
        index += 1;
    }
    Ok(None)
}

/// A text that leads nowhere.
fn source_fault(alloc: Global, id: &str, value: &Value) -> Option<DocumentFault>
    ensures { result ≡ source_fault id.now (view value.now) }
{
    match plain_source(id, value.as_str().unwrap_or("")) {
        None => Some(here(alloc, Cause::WrongForm)),
        Some(text) => {
            if is_source(text) {
                None
            } else {
                Some(here(alloc, Cause::WrongForm))
            }
        }
    }
}

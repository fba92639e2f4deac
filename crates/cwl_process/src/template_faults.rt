//! Finds the first text with references that is wrong.
ghost use Rattle.std.specs.Prelude.{◌≡◌, Option, IfOk, map};
ghost use Rattle.serde_json.specs.Data.{Data};
ghost use Rattle.serde_json.specs.Find.{get};
ghost use Rattle.serde_json.specs.View.{view, items_view};
ghost use Rattle.document_table.specs.Entries.{entry_seen};
ghost use Rattle.document_table.specs.declared.fault.DocumentFault.{DocumentFault};
ghost use Rattle.cwl_process.specs.FirstFaults.{at_field, field_fault, first_at, first_in, first_item, first_of_list};
ghost use Rattle.cwl_process.specs.TemplateFaults.{acting_fault, asked_fault, binding_fault, environment_fault, input_text_fault, main_text_fault, output_binding_fault, output_text_fault, step_input_text_fault, step_text_fault, streams_fault, tool_text_fault, variable_fault};
ghost use Rattle.cwl_process.specs.Templates.{text_fault};
ghost use Rattle.document_table.specs.declared.form.Kind.TheVariants as kind;

use crate::acting::requirement_at;
use crate::templates::text_fault;
use crate::tool::{Binding, OutputBinding, ToolInput, ToolOutput, Variable};
use crate::workflow::StepInput;
use document_table::{DocumentFault, Kind, at, entries, under};
use param_refs::Template;
use serde_json::Value;
use std::alloc::{AllocError, Global};

/// What has texts with references.
pub(crate) trait HasTexts {
    ghost text_fault: { Data → Option DocumentFault };

    /// The first of them that is wrong, in the JSON of such a value.
    fn text_fault(alloc: Global, value: &Value) -> Result<Option<DocumentFault>, AllocError>
        ensures { IfOk result (λ fault. fault ≡ text_fault (view value.now)) };
}

// ---- where a fault is looked for

/// What is wrong with a field, seen from its object.
pub(crate) fn at_field(
    alloc: Global,
    name: &str,
    fault: Option<DocumentFault>,
) -> Result<Option<DocumentFault>, AllocError>
    ensures { IfOk result (λ outer. outer ≡ at_field name.now fault) }
{
    match fault {
        None => Ok(None),
        Some(fault) => Ok(Some(under(alloc, name, fault)?)),
    }
}

/// What is wrong with the value of a field, if it is there.
fn field_fault<T: HasTexts>(
    alloc: Global,
    name: &str,
    value: &Value,
) -> Result<Option<DocumentFault>, AllocError>
    ensures { IfOk result (λ fault. fault ≡ field_fault T.text_fault name.now (view value.now)) }
{
    match value.get(name) {
        None => Ok(None),
        Some(found) => {
            let fault = T::text_fault(alloc, found)?;
            at_field(alloc, name, fault)
        }
    }
}

/// What is wrong first in a field's list or map of objects.
fn first_at<T: HasTexts>(
    alloc: Global,
    kind: Kind,
    name: &str,
    value: &Value,
) -> Result<Option<DocumentFault>, AllocError>
    ensures { IfOk result (λ fault. fault ≡ first_at kind T.text_fault name.now (view value.now)) }
{
    let Some(found) = value.get(name) else {
        return Ok(None);
    };
    let all = entries(alloc, kind, found)?;
    let fault = first_in::<T>(alloc, all.as_slice())?;
    at_field(alloc, name, fault)
}

fn first_in<T: HasTexts>(
    alloc: Global,
    all: &[(&str, &Value)],
) -> Result<Option<DocumentFault>, AllocError>
    ensures { IfOk result (λ fault. fault ≡ first_in T.text_fault (map entry_seen all.now)) }
{
    for entry in all {
        if let Some(fault) = T::text_fault(alloc, entry.1)? {
            return Ok(Some(under(alloc, entry.0, fault)?));
        }
    }
    Ok(None)
}

/// What is wrong first with a field's list, or with the one value in its place.
fn list_fault<T: HasTexts>(
    alloc: Global,
    name: &str,
    value: &Value,
) -> Result<Option<DocumentFault>, AllocError>
    ensures { IfOk result
        (λ fault. fault ≡ field_fault (first_of_list T.text_fault) name.now (view value.now)) }
{
    match value.get(name) {
        None => Ok(None),
        Some(found) => {
            let fault = first_of_list::<T>(alloc, found)?;
            at_field(alloc, name, fault)
        }
    }
}

fn first_of_list<T: HasTexts>(
    alloc: Global,
    value: &Value,
) -> Result<Option<DocumentFault>, AllocError>
    ensures { IfOk result (λ fault. fault ≡ first_of_list T.text_fault (view value.now)) }
{
    match value {
        Value::Array(items) => first_item::<T>(alloc, items),
        _ => T::text_fault(alloc, value),
    }
}

fn first_item<T: HasTexts>(
    alloc: Global,
    items: &Vec<Value>,
) -> Result<Option<DocumentFault>, AllocError>
    ensures { IfOk result
        (λ fault. fault ≡ first_item T.text_fault 0 (items_view items.now.items)) }
{
    let mut index: usize = 0;
    for item in items {
        if let Some(fault) = T::text_fault(alloc, item)? {
            return Ok(Some(at(index, fault)?));
        }
        index += 1;
    }
    Ok(None)
}

// ---- what has references

impl HasTexts for Template {
    ghost text_fault = { text_fault };

    fn text_fault(alloc: Global, value: &Value) -> Result<Option<DocumentFault>, AllocError> {
        text_fault(alloc, value)
    }
}

/// A text at a field, or in place of the object.
fn main_text_fault(
    alloc: Global,
    name: &str,
    value: &Value,
) -> Result<Option<DocumentFault>, AllocError>
    ensures { IfOk result (λ fault. fault ≡ main_text_fault name.now (view value.now)) }
{
    if value.as_str().is_some() {
        text_fault(alloc, value)
    } else {
        field_fault::<Template>(alloc, name, value)
    }
}

impl HasTexts for Binding {
    ghost text_fault = { binding_fault };

    fn text_fault(alloc: Global, value: &Value) -> Result<Option<DocumentFault>, AllocError> {
        main_text_fault(alloc, "valueFrom", value)
    }
}

impl HasTexts for Variable {
    ghost text_fault = { variable_fault };

    fn text_fault(alloc: Global, value: &Value) -> Result<Option<DocumentFault>, AllocError> {
        main_text_fault(alloc, "envValue", value)
    }
}

/// What is wrong with the requirements and the hints that act.
pub(crate) fn asked_fault(alloc: Global, value: &Value) -> Result<Option<DocumentFault>, AllocError>
    ensures { IfOk result (λ fault. fault ≡ asked_fault (view value.now)) }
{
    match acting_fault(alloc, "requirements", value)? {
        Some(fault) => Ok(Some(fault)),
        None => acting_fault(alloc, "hints", value),
    }
}

fn acting_fault(
    alloc: Global,
    field: &str,
    value: &Value,
) -> Result<Option<DocumentFault>, AllocError>
    ensures { IfOk result (λ fault. fault ≡ acting_fault field.now (view value.now)) }
{
    match requirement_at(alloc, field, "EnvVarRequirement", value)? {
        None => Ok(None),
        Some(found) => {
            let fault = environment_fault(alloc, found)?;
            at_field(alloc, field, fault)
        }
    }
}

fn environment_fault(alloc: Global, value: &Value) -> Result<Option<DocumentFault>, AllocError>
    ensures { IfOk result (λ fault. fault ≡ environment_fault (view value.now)) }
{
    let fault = first_at::<Variable>(alloc, Kind::Variable, "envDef", value)?;
    at_field(alloc, "EnvVarRequirement", fault)
}

// ---- tools

impl HasTexts for ToolInput {
    ghost text_fault = { input_text_fault };

    fn text_fault(alloc: Global, value: &Value) -> Result<Option<DocumentFault>, AllocError> {
        field_fault::<Binding>(alloc, "inputBinding", value)
    }
}

impl HasTexts for OutputBinding {
    ghost text_fault = { output_binding_fault };

    fn text_fault(alloc: Global, value: &Value) -> Result<Option<DocumentFault>, AllocError> {
        match list_fault::<Template>(alloc, "glob", value)? {
            Some(fault) => Ok(Some(fault)),
            None => field_fault::<Template>(alloc, "outputEval", value),
        }
    }
}

impl HasTexts for ToolOutput {
    ghost text_fault = { output_text_fault };

    fn text_fault(alloc: Global, value: &Value) -> Result<Option<DocumentFault>, AllocError> {
        field_fault::<OutputBinding>(alloc, "outputBinding", value)
    }
}

fn streams_fault(alloc: Global, value: &Value) -> Result<Option<DocumentFault>, AllocError>
    ensures { IfOk result (λ fault. fault ≡ streams_fault (view value.now)) }
{
    if let Some(fault) = field_fault::<Template>(alloc, "stdin", value)? {
        return Ok(Some(fault));
    }
    match field_fault::<Template>(alloc, "stdout", value)? {
        Some(fault) => Ok(Some(fault)),
        None => field_fault::<Template>(alloc, "stderr", value),
    }
}

/// The first text of a tool that is wrong.
pub(crate) fn tool_text_fault(
    alloc: Global,
    value: &Value,
) -> Result<Option<DocumentFault>, AllocError>
    ensures { IfOk result (λ fault. fault ≡ tool_text_fault (view value.now)) }
{
    if let Some(fault) = list_fault::<Binding>(alloc, "arguments", value)? {
        return Ok(Some(fault));
    }
    if let Some(fault) = first_at::<ToolInput>(alloc, Kind::ToolInput, "inputs", value)? {
        return Ok(Some(fault));
    }
    if let Some(fault) = first_at::<ToolOutput>(alloc, Kind::ToolOutput, "outputs", value)? {
        return Ok(Some(fault));
    }
    match streams_fault(alloc, value)? {
        Some(fault) => Ok(Some(fault)),
        None => asked_fault(alloc, value),
    }
}

// ---- steps

impl HasTexts for StepInput {
    ghost text_fault = { step_input_text_fault };

    fn text_fault(alloc: Global, value: &Value) -> Result<Option<DocumentFault>, AllocError> {
        field_fault::<Template>(alloc, "valueFrom", value)
    }
}

/// The first text of a step that is wrong, without the process that it runs.
pub(crate) fn step_text_fault(
    alloc: Global,
    value: &Value,
) -> Result<Option<DocumentFault>, AllocError>
    ensures { IfOk result (λ fault. fault ≡ step_text_fault (view value.now)) }
{
    if let Some(fault) = first_at::<StepInput>(alloc, Kind::StepInput, "in", value)? {
        return Ok(Some(fault));
    }
    match field_fault::<Template>(alloc, "when", value)? {
        Some(fault) => Ok(Some(fault)),
        None => asked_fault(alloc, value),
    }
}

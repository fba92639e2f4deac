//! Reads what tools and workflows take and give.
ghost use Rattle.std.specs.Prelude.{◌≡◌, [], IfOk, option_map, codes};
ghost use Rattle.std.specs.Option.{option_map_or};
ghost use Rattle.serde_json.specs.Find.{get};
ghost use Rattle.serde_json.specs.View.{view};
ghost use Rattle.document_table.specs.Entries.{main_field};
ghost use Rattle.cwl_process.specs.Bindings.{binding_in};
ghost use Rattle.cwl_process.specs.Parameters.{default_at, input_type_in, is_text, loads, output_binding_in, output_type_in, tool_input_in, tool_output_in, type_at, workflow_input_in, workflow_output_in};
ghost use Rattle.cwl_process.specs.Templates.{templates_at};
ghost use Rattle.cwl_process.specs.declared.tool.InputType.TheVariants as input;
ghost use Rattle.cwl_process.specs.declared.tool.OutputType.TheVariants as output;

use crate::bindings::{read_binding, secondaries_at};
use crate::from_entry::FromEntry;
use crate::read_links::read_links;
use crate::simple::flag_at;
use crate::templates::{template_at, templates_at};
use crate::tool::{Binding, InputType, OutputBinding, OutputType, ToolInput, ToolOutput};
use crate::workflow::{WorkflowInput, WorkflowOutput};
use cwl_types::{MemberType, read_type};
use cwl_value::{Value as CwlValue, ValueRefusal, from_json};
use document_table::main_field;
use param_refs::Template;
use plain_data::Items;
use serde_json::Value;
use std::alloc::{AllocError, Global};

impl FromEntry for ToolInput {
    ghost meaning = { λ id. tool_input_in };

    fn from_entry(alloc: Global, id: &str, value: &Value) -> Result<ToolInput, AllocError> {
        let _ = id;
        let kind = read_input_type(alloc, value)?;
        let secondary_files = secondaries_at(alloc, true, value)?;
        let binding = input_binding(alloc, value)?;
        let default = default_at(alloc, value)?;
        Ok(ToolInput {
            kind,
            default,
            binding,
            load_contents: loads(value),
            secondary_files,
        })
    }
}

fn read_input_type(alloc: Global, value: &Value) -> Result<InputType, AllocError>
    ensures { IfOk result (λ kind. kind ≡ option_map_or input_type_in
        (main_field (codes "type") (view value.now)) (input.Members [])) }
{
    match main_field("type", value) {
        None => Ok(InputType::Members(Items::new(alloc))),
        Some(found) => {
            if is_text("stdin", found) {
                Ok(InputType::Stdin)
            } else {
                Ok(InputType::Members(read_type(alloc, found)?))
            }
        }
    }
}

fn is_text(text: &str, value: &Value) -> bool
    ensures { result ≡ is_text text.now (view value.now) }
{
    match value.as_str() {
        None => false,
        Some(found) => found == text,
    }
}

fn input_binding(alloc: Global, value: &Value) -> Result<Option<Binding>, AllocError>
    ensures { IfOk result (λ binding. binding ≡ option_map binding_in
        (get (codes "inputBinding") (view value.now))) }
{
    match value.get("inputBinding") {
        None => Ok(None),
        Some(found) => Ok(Some(read_binding(alloc, found)?)),
    }
}

fn loads(value: &Value) -> bool
    ensures { result ≡ loads (view value.now) }
{
    flag_at("loadContents", false, value)
        || match value.get("inputBinding") {
            None => false,
            Some(binding) => flag_at("loadContents", false, binding),
        }
}

/// Reads the value of the field `default`, where it has one. Files and Directories in it have their places as written.
pub fn default_at(alloc: Global, value: &Value) -> Result<Option<CwlValue>, AllocError>
    ensures { IfOk result (λ default. default ≡ default_at (view value.now)) }
{
    match value.get("default") {
        None => Ok(None),
        Some(found) => match from_json(alloc, found) {
            Ok(default) => Ok(Some(default)),
            Err(ValueRefusal::OutOfMemory) => Err(AllocError),
            Err(_) => Ok(None),
        },
    }
}

impl FromEntry for ToolOutput {
    ghost meaning = { λ id. tool_output_in };

    fn from_entry(alloc: Global, id: &str, value: &Value) -> Result<ToolOutput, AllocError> {
        let _ = id;
        let kind = read_output_type(alloc, value)?;
        let secondary_files = secondaries_at(alloc, false, value)?;
        let binding = match value.get("outputBinding") {
            None => None,
            Some(found) => Some(read_output_binding(alloc, found)?),
        };
        Ok(ToolOutput {
            kind,
            binding,
            secondary_files,
        })
    }
}

fn read_output_type(alloc: Global, value: &Value) -> Result<OutputType, AllocError>
    ensures { IfOk result (λ kind. kind ≡ option_map_or output_type_in
        (main_field (codes "type") (view value.now)) (output.Members [])) }
{
    match main_field("type", value) {
        None => Ok(OutputType::Members(Items::new(alloc))),
        Some(found) => {
            if is_text("stdout", found) {
                Ok(OutputType::Stdout)
            } else if is_text("stderr", found) {
                Ok(OutputType::Stderr)
            } else {
                Ok(OutputType::Members(read_type(alloc, found)?))
            }
        }
    }
}

fn read_output_binding(alloc: Global, value: &Value) -> Result<OutputBinding, AllocError>
    ensures { IfOk result (λ binding. binding ≡ output_binding_in (view value.now)) }
{
    let glob = read_glob(alloc, value)?;
    let output_eval = template_at(alloc, "outputEval", value)?;
    Ok(OutputBinding {
        glob,
        load_contents: flag_at("loadContents", false, value),
        output_eval,
    })
}

fn read_glob(alloc: Global, value: &Value) -> Result<Option<Items<Template>>, AllocError>
    ensures { IfOk result (λ glob. glob
        ≡ option_map (λ _. templates_at (codes "glob") (view value.now))
        (get (codes "glob") (view value.now))) }
{
    match value.get("glob") {
        None => Ok(None),
        Some(_) => Ok(Some(templates_at(alloc, "glob", value)?)),
    }
}

fn type_at(alloc: Global, value: &Value) -> Result<Items<MemberType>, AllocError>
    ensures { IfOk result (λ kind. kind ≡ type_at (view value.now)) }
{
    match main_field("type", value) {
        None => Ok(Items::new(alloc)),
        Some(found) => read_type(alloc, found),
    }
}

impl FromEntry for WorkflowInput {
    ghost meaning = { λ id. workflow_input_in };

    fn from_entry(alloc: Global, id: &str, value: &Value) -> Result<WorkflowInput, AllocError> {
        let _ = id;
        let kind = type_at(alloc, value)?;
        let secondary_files = secondaries_at(alloc, true, value)?;
        let default = default_at(alloc, value)?;
        Ok(WorkflowInput {
            kind,
            default,
            secondary_files,
        })
    }
}

impl FromEntry for WorkflowOutput {
    ghost meaning = { workflow_output_in };

    fn from_entry(alloc: Global, id: &str, value: &Value) -> Result<WorkflowOutput, AllocError> {
        let kind = type_at(alloc, value)?;
        let links = read_links(alloc, id, value.get("outputSource"), value)?;
        Ok(WorkflowOutput { kind, links })
    }
}

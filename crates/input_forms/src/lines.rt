//! Lines on the inputs of a process.
ghost use Rattle.std.specs.Prelude.{◌≡◌, ◌++◌, IfOk, map, option_map, string_bytes};
ghost use Rattle.input_forms.specs.Lines as spec;

use crate::types::kind_words;
use crate::wanted::{admits_null, types_of};
use cwl_process::{ToolInput, WorkflowInput};
use cwl_types::MemberType;
use cwl_value::{Value, canonical_text};
use plain_data::{Items, Text};
use std::alloc::{AllocError, Global};

/// Returns a line for each input of a tool.
pub fn tool_lines(alloc: Global, inputs: &[(Text, ToolInput)]) -> Result<Vec<String>, AllocError>
    ensures { IfOk result (λ lines. map string_bytes lines.items ≡ map spec.tool_line inputs.now) }
{
    let mut lines = Vec::new(alloc);
    for (name, input) in inputs {
        lines.push(line_of(alloc, name, types_of(&input.kind), input.default.as_ref())?)?;
    }
    Ok(lines)
}

/// Returns a line for each input of a workflow.
pub fn workflow_lines(
    alloc: Global,
    inputs: &[(Text, WorkflowInput)],
) -> Result<Vec<String>, AllocError>
    ensures { IfOk result (λ lines. map string_bytes lines.items
        ≡ map spec.workflow_line inputs.now) }
{
    let mut lines = Vec::new(alloc);
    for (name, input) in inputs {
        lines.push(line_of(alloc, name, Some(&input.kind), input.default.as_ref())?)?;
    }
    Ok(lines)
}

fn line_of(
    alloc: Global,
    name: &Text,
    types: Option<&Items<MemberType>>,
    default: Option<&Value>,
) -> Result<String, AllocError>
    ensures { IfOk result (λ line. string_bytes line
        ≡ spec.input_line name.now (option_map (λ types. types.now) types.entry)
        (option_map (λ default. default.now) default.entry)) }
{
    let words = type_and_need(alloc, types, default)?;
    format!(in alloc; "input {name}: {words}")
}

fn type_and_need(
    alloc: Global,
    types: Option<&Items<MemberType>>,
    default: Option<&Value>,
) -> Result<String, AllocError>
    ensures { IfOk result (λ words. string_bytes words
        ≡ spec.kind_words (option_map (λ types. types.now) types.entry)
        ++ spec.need_words (option_map (λ types. types.now) types.entry)
        (option_map (λ default. default.now) default.entry)) }
{
    let kind = kind_words(alloc, types)?;
    let need = need_words(alloc, types, default)?;
    format!(in alloc; "{kind}{need}")
}

fn need_words(
    alloc: Global,
    types: Option<&Items<MemberType>>,
    default: Option<&Value>,
) -> Result<String, AllocError>
    ensures { IfOk result (λ words. string_bytes words
        ≡ spec.need_words (option_map (λ types. types.now) types.entry)
        (option_map (λ default. default.now) default.entry)) }
{
    match default {
        Some(default) => {
            let value = canonical_text(alloc, default)?;
            format!(in alloc; ", default {value}")
        }
        None if admits_null(types) => String::from_str(alloc, ", optional"),
        None => String::from_str(alloc, ", required"),
    }
}

//! Input objects that are to be filled in.
ghost use Rattle.std.specs.Prelude.{◌≡◌, IfOk, OnOk, map, option_map, string_bytes};
ghost use Rattle.serde_json.specs.Data.{string};
ghost use Rattle.serde_json.specs.Written.{compact_text};
ghost use Rattle.cwl_value.specs.Json.{json_of};
ghost use Rattle.input_forms.specs.Samples.{filled as filled_of};
ghost use Rattle.input_forms.specs.Templates as spec;

use crate::samples::filled;
use crate::wanted::types_of;
use cwl_process::{ToolInput, WorkflowInput};
use cwl_types::MemberType;
use cwl_value::{Value, canonical_text};
use plain_data::{Items, Text};
use std::alloc::{AllocError, Global};

#[tactic(auto, using(crate::proofs::Folds::fold_map_more))]
/// Returns JSON text of an input object for a tool.
pub fn tool_template(alloc: Global, inputs: &[(Text, ToolInput)]) -> Result<Text, AllocError>
    ensures { IfOk result (λ text. text ≡ spec.template (map spec.tool_entry inputs.now)) }
{
    let mut text = String::from_str(alloc, "{")?;
    for (name, input) in inputs {
        let entry = entry_of(alloc, name, types_of(&input.kind), input.default.as_ref())?;
        push_entry(&mut text, entry.as_str())?;
    }
    text.push_str("\n}")?;
    Ok(Text::from_string(text))
}

#[tactic(auto, using(crate::proofs::Folds::fold_map_more))]
/// Returns JSON text of an input object for a workflow.
pub fn workflow_template(
    alloc: Global,
    inputs: &[(Text, WorkflowInput)],
) -> Result<Text, AllocError>
    ensures { IfOk result (λ text. text ≡ spec.template (map spec.workflow_entry inputs.now)) }
{
    let mut text = String::from_str(alloc, "{")?;
    for (name, input) in inputs {
        let entry = entry_of(alloc, name, Some(&input.kind), input.default.as_ref())?;
        push_entry(&mut text, entry.as_str())?;
    }
    text.push_str("\n}")?;
    Ok(Text::from_string(text))
}

fn entry_of(
    alloc: Global,
    name: &Text,
    types: Option<&Items<MemberType>>,
    default: Option<&Value>,
) -> Result<String, AllocError>
    ensures { IfOk result (λ entry. string_bytes entry
        ≡ spec.input_entry name.now (option_map (λ types. types.now) types.entry)
        (option_map (λ default. default.now) default.entry)) }
{
    let name = name_text(alloc, name)?;
    let value = value_text(alloc, types, default)?;
    format!(in alloc; "{name}: {value}")
}

fn name_text(alloc: Global, name: &Text) -> Result<Text, AllocError>
    ensures { IfOk result (λ text. text ≡ compact_text (string name.now)) }
{
    canonical_text(alloc, &Value::Text(name.copied(alloc)?))
}

fn value_text(
    alloc: Global,
    types: Option<&Items<MemberType>>,
    default: Option<&Value>,
) -> Result<Text, AllocError>
    ensures { IfOk result (λ text. text
        ≡ compact_text (json_of (filled_of (option_map (λ types. types.now) types.entry)
        (option_map (λ default. default.now) default.entry)))) }
{
    let value = filled(alloc, types, default)?;
    canonical_text(alloc, &value)
}

fn push_entry(text: &mut String, entry: &str) -> Result<(), AllocError>
    ensures { OnOk result (string_bytes text.new
        ≡ spec.with_entry (string_bytes text.old) entry.now) }
{
    let before = separator(text.len());
    text.push_str(before)?;
    text.push_str(entry)
}

fn separator(size: usize) -> &'static str
    ensures { result.now ≡ spec.separator size }
{
    if size == 1 { "\n  " } else { ",\n  " }
}

//! Which inputs of a process have no value that fits, before anything is run.
ghost use Rattle.std.specs.Prelude.{◌≡◌, option_copied, option_map, unwrap_or};
ghost use Rattle.input_files.specs.Given.{fits_input, null, or_default, value_under};
ghost use Rattle.type_check.specs.Fits.{fits as fits_of};
ghost use Rattle.run_facts.specs.Misfits as spec;

use cwl_process::{InputType, ToolInput, WorkflowInput};
use cwl_types::MemberType;
use cwl_value::Value;
use document_links::Process;
use plain_data::{Items, Keyed, Text};
use type_check::fits;

/// The first input whose value is not of its type. The value is the one that is given, or the default in place of null.
pub fn first_misfit<'a>(process: &'a Process, given: &Keyed<Value>) -> Option<&'a Text>
    ensures { option_map (λ input. input.now) result ≡ spec.first_misfit process.now given.now }
{
    match process {
        Process::Tool(tool) => first_of_tool(tool.inputs.as_slice(), given),
        Process::Workflow(workflow) => first_of_workflow(workflow.inputs.as_slice(), given),
    }
}

fn first_of_tool<'a>(inputs: &'a [(Text, ToolInput)], given: &Keyed<Value>) -> Option<&'a Text>
    ensures { option_map (λ input. input.now) result ≡ spec.first_of_tool given.now inputs.now }
{
    for (id, input) in inputs {
        if !fits_tool(given, id, input) {
            return Some(id);
        }
    }
    None
}

fn first_of_workflow<'a>(
    inputs: &'a [(Text, WorkflowInput)],
    given: &Keyed<Value>,
) -> Option<&'a Text>
    ensures { option_map (λ input. input.now) result ≡ spec.first_of_workflow given.now inputs.now }
{
    for (id, input) in inputs {
        if !fits_workflow(given, id, input) {
            return Some(id);
        }
    }
    None
}

fn fits_tool(given: &Keyed<Value>, id: &Text, input: &ToolInput) -> bool
    ensures { result ≡ spec.fits_tool given.now (id.now, input.now) }
{
    fits_input(&input.kind, value_of(given, id, &input.default))
}

fn fits_workflow(given: &Keyed<Value>, id: &Text, input: &WorkflowInput) -> bool
    ensures { result ≡ spec.fits_workflow given.now (id.now, input.now) }
{
    fits_members(&input.kind, value_of(given, id, &input.default))
}

// The value of an input; none where there is neither one nor a default.
fn value_of<'a>(given: &'a Keyed<Value>, id: &Text, default: &'a Option<Value>) -> Option<&'a Value>
    ensures { unwrap_or (option_copied result) null
        ≡ or_default default.now (value_under id.now given.now) }
{
    match given.get(id.as_str()) {
        None | Some(Value::Null) => default.as_ref(),
        value => value,
    }
}

fn fits_input(kind: &InputType, value: Option<&Value>) -> bool
    ensures { result ≡ fits_input kind.now (unwrap_or (option_copied value.entry) null) }
{
    match kind {
        InputType::Stdin => matches!(value, Some(Value::FileVal(_))),
        InputType::Members(members) => fits_members(members, value),
    }
}

fn fits_members(members: &Items<MemberType>, value: Option<&Value>) -> bool
    ensures { result ≡ fits_of members.now (unwrap_or (option_copied value.entry) null) }
{
    match value {
        Some(value) => fits(value, members),
        None => fits(&Value::Null, members),
    }
}

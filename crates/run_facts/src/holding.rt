//! Which processes can leave files.
ghost use Rattle.std.specs.Prelude.{◌≡◌};
ghost use Rattle.run_facts.specs.Holding as spec;

use cwl_process::{OutputType, ToolOutput, WorkflowOutput};
use cwl_types::{MemberType, PlainType};
use document_links::Process;
use plain_data::{Items, Text};

/// Whether an output of the process can be or hold a File or Directory, by its type.
pub fn can_hold_files(process: &Process) -> bool
    ensures { result ≡ spec.can_hold_files process.now }
{
    match process {
        Process::Tool(tool) => tool_holds(tool.outputs.as_slice()),
        Process::Workflow(workflow) => workflow_holds(workflow.outputs.as_slice()),
    }
}

fn tool_holds(outputs: &[(Text, ToolOutput)]) -> bool
    ensures { result ≡ spec.tool_holds outputs.now }
{
    for (_, output) in outputs {
        if output_holds(&output.kind) {
            return true;
        }
    }
    false
}

fn workflow_holds(outputs: &[(Text, WorkflowOutput)]) -> bool
    ensures { result ≡ spec.workflow_holds outputs.now }
{
    for (_, output) in outputs {
        if some_hold(&output.kind) {
            return true;
        }
    }
    false
}

fn output_holds(kind: &OutputType) -> bool
    ensures { result ≡ spec.output_holds kind.now }
{
    match kind {
        OutputType::Stdout | OutputType::Stderr => true,
        OutputType::Members(members) => some_hold(members),
    }
}

#[cycle(holding)]
fn some_hold(members: &Items<MemberType>) -> bool
    ensures { result ≡ spec.some_hold members.now }
{
    for member in members.as_slice() {
        if holds(member) {
            return true;
        }
    }
    false
}

#[cycle(holding)]
fn holds(member: &MemberType) -> bool
    ensures { result ≡ spec.holds member.now }
{
    match member {
        MemberType::Plain(kind) => is_file(*kind),
        MemberType::Array(array) => some_hold(&array.items),
        MemberType::Enum(_) => false,
    }
}

// `Any` has all values but null.
fn is_file(kind: PlainType) -> bool
    ensures { result ≡ spec.is_file kind }
{
    matches!(
        kind,
        PlainType::File | PlainType::Directory | PlainType::Any
    )
}

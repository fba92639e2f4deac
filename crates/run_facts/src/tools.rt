//! The tool of a job.
ghost use Rattle.std.specs.Prelude.{◌≡◌, option_copied};
ghost use Rattle.run_facts.specs.ToolAt as spec;

use crate::value_words::find_in;
use cwl_process::Tool;
use cwl_value::Segment;
use document_links::Process;

/// The tool that is run for the job at a place of a process.
pub fn tool_at<'a>(process: &'a Process, place: &[Segment]) -> Option<&'a Tool>
    ensures { option_copied result ≡ spec.tool_at process.now place.now }
{
    match process_at(process, place) {
        Some(Process::Tool(tool)) => Some(tool),
        _ => None,
    }
}

/// The tool of a step of a workflow, if the step is one.
pub(crate) fn step_tool<'a>(process: &'a Process, step: &str) -> Option<&'a Tool>
    ensures { option_copied result ≡ spec.step_tool process.now step.now }
{
    match inner(process, step) {
        Some(Process::Tool(tool)) => Some(tool),
        _ => None,
    }
}

// The process at the end of these steps.
fn process_at<'a>(process: &'a Process, place: &[Segment]) -> Option<&'a Process>
    ensures { option_copied result ≡ spec.process_at process.now place.now }
{
    match place {
        [] => Some(process),
        [segment, rest @ ..] => match inner(process, segment.step.as_str()) {
            Some(inside) => process_at(inside, rest),
            None => None,
        },
    }
}

// The process of a step.
fn inner<'a>(process: &'a Process, step: &str) -> Option<&'a Process>
    ensures { option_copied result ≡ spec.inner process.now step.now }
{
    match process {
        Process::Tool(_) => None,
        Process::Workflow(workflow) => match find_in(workflow.steps.as_slice(), step) {
            Some(step) => Some(&step.process),
            None => None,
        },
    }
}

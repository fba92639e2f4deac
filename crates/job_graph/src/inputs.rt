//! The inputs of a process: what is handed to it, or its own defaults.
ghost use Rattle.std.specs.Prelude.{◌≡◌, IfOk};
ghost use Rattle.job_graph.specs.Inputs as spec;

use crate::cause::{Cause, of_input};
use cwl_process::{ToolInput, WorkflowInput};
use cwl_value::Value;
use document_links::Process;
use input_files::process_inputs;
use plain_data::{Keyed, Text};
use staging::Measure;
use std::alloc::{AllocError, Global};

/// The inputs of a tool's job, or why one of them is refused.
pub(crate) fn tool_inputs(
    alloc: Global,
    measures: &Keyed<Measure>,
    inputs: &[(Text, ToolInput)],
    given: &Keyed<Value>,
) -> Result<Result<Keyed<Value>, Cause>, AllocError>
    ensures { IfOk result (λ found. found
        ≡ spec.tool_inputs_for measures.now inputs.now given.now) }
{
    of_input(process_inputs(alloc, inputs, given, measures))
}

/// The inputs of a workflow, or why one of them is refused.
pub(crate) fn workflow_inputs(
    alloc: Global,
    measures: &Keyed<Measure>,
    inputs: &[(Text, WorkflowInput)],
    given: &Keyed<Value>,
) -> Result<Result<Keyed<Value>, Cause>, AllocError>
    ensures { IfOk result (λ found. found
        ≡ spec.workflow_inputs_for measures.now inputs.now given.now) }
{
    of_input(process_inputs(alloc, inputs, given, measures))
}

/// What is handed to the root process: the input object as it was measured, with the files that were found beside its Files.
pub(crate) fn root_fields(
    alloc: Global,
    process: &Process,
    given: &Keyed<Value>,
    measures: &Keyed<Measure>,
) -> Result<Keyed<Value>, AllocError>
    ensures { IfOk result (λ fields. fields ≡ spec.root_fields process.now given.now measures.now) }
{
    match process {
        Process::Tool(tool) => input_files::root_fields(
            alloc,
            tool.inputs.as_slice(),
            given,
            measures,
        ),
        Process::Workflow(workflow) => {
            input_files::root_fields(alloc, workflow.inputs.as_slice(), given, measures)
        }
    }
}

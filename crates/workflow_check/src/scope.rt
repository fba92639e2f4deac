//! What processes take and give, and what the sources of a workflow lead to.
ghost use Rattle.std.specs.Prelude.{◌≡◌, IfOk, option_map};
ghost use Rattle.std.specs.Option.{option_copied};
ghost use Rattle.plain_data.specs.ByName.{map_values, value_at};
ghost use Rattle.document_links.specs.declared.process.Step.{out-Step};
ghost use Rattle.workflow_check.specs.Scope.{arrays_of, file_type, gift, gives, has, is_there, output_kind, step_gift, takes, tool_asked, workflow_asked};
ghost use Rattle.workflow_check.specs.Types.{is_null};
ghost use Rattle.workflow_check.specs.inner.Ports.{given_under, taken_under};
ghost use Rattle.workflow_check.specs.inner.Seen.{asked, gift_seen};

use crate::index::Index;
use crate::steps::Steps;
use cwl_process::{
    InputType, OutputType, Source, ToolInput, ToolOutput, WorkflowInput, WorkflowOutput,
};
use cwl_types::{MemberType, PlainType};
use document_links::{Process, Step};
use plain_data::{Items, Text};
use scatter_shape::Method;
use std::alloc::{AllocError, Global};

/// What the sources of a workflow may name.
#[derive(Clone, Copy, Drop)]
pub(crate) struct Scope<'s, 'p> {
    pub inputs: &'s Index<'p, WorkflowInput>,
    pub steps: &'s Steps<'p>,
    /// The type File.
    pub file: &'p Items<MemberType>,
}

/// What a process takes, under ids.
#[derive(Drop)]
pub(crate) enum Inputs<'p> {
    Tool(Index<'p, ToolInput>),
    Workflow(Index<'p, WorkflowInput>),
}

/// What a process gives, under ids.
#[derive(Drop)]
pub(crate) enum Outputs<'p> {
    Tool(Index<'p, ToolOutput>),
    Workflow(Index<'p, WorkflowOutput>),
}

/// What an input of a process takes.
#[derive(Clone, Copy, Drop)]
pub(crate) struct Taken<'p> {
    pub kind: &'p Items<MemberType>,
    pub has_default: bool,
}

/// The type of what a source gives: in so many arrays one of the members, or null too.
#[derive(Clone, Copy, Drop)]
pub(crate) struct Given<'p> {
    pub members: &'p Items<MemberType>,
    pub or_null: bool,
    pub arrays: usize,
}

pub(crate) fn tool_taken<'p>(input: &'p ToolInput, file: &'p Items<MemberType>) -> Taken<'p>
    requires { file.now ≡ file_type }
    ensures { asked result ≡ tool_asked input.now }
{
    Taken {
        kind: match &input.kind {
            InputType::Stdin => file,
            InputType::Members(members) => members,
        },
        has_default: input.default.is_some(),
    }
}

pub(crate) fn workflow_taken(input: &WorkflowInput) -> Taken<'_>
    ensures { asked result ≡ workflow_asked input.now }
{
    Taken {
        kind: &input.kind,
        has_default: input.default.is_some(),
    }
}

/// Makes an index of what the process takes.
pub(crate) fn inputs_of(alloc: Global, process: &Process) -> Result<Inputs<'_>, AllocError>
    ensures { IfOk result (λ inputs. taken_under inputs ≡ takes process.now) }
{
    match process {
        Process::Tool(tool) => Ok(Inputs::Tool(Index::of(alloc, tool.inputs.as_slice())?)),
        Process::Workflow(workflow) => {
            Ok(Inputs::Workflow(Index::of(alloc, workflow.inputs.as_slice())?))
        }
    }
}

/// What is taken under an id.
pub(crate) fn input_at<'p>(
    inputs: &Inputs<'p>,
    id: &Text,
    file: &'p Items<MemberType>,
) -> Option<Taken<'p>>
    requires { file.now ≡ file_type }
    ensures { option_map asked result ≡ value_at id.now (taken_under inputs.now) }
{
    match inputs {
        Inputs::Tool(entries) => tool_input_at(entries, id, file),
        Inputs::Workflow(entries) => workflow_input_at(entries, id),
    }
}

fn tool_input_at<'p>(
    inputs: &Index<'p, ToolInput>,
    id: &Text,
    file: &'p Items<MemberType>,
) -> Option<Taken<'p>>
    requires { file.now ≡ file_type }
    ensures { option_map asked result ≡ value_at id.now (map_values tool_asked inputs.now) }
{
    match inputs.find(id) {
        Some(input) => Some(tool_taken(input, file)),
        None => None,
    }
}

fn workflow_input_at<'p>(inputs: &Index<'p, WorkflowInput>, id: &Text) -> Option<Taken<'p>>
    ensures { option_map asked result ≡ value_at id.now (map_values workflow_asked inputs.now) }
{
    match inputs.find(id) {
        Some(input) => Some(workflow_taken(input)),
        None => None,
    }
}

fn tool_given<'p>(output: &'p ToolOutput, file: &'p Items<MemberType>) -> &'p Items<MemberType>
    requires { file.now ≡ file_type }
    ensures { result.now ≡ output_kind output.now.kind }
{
    match &output.kind {
        OutputType::Stdout => file,
        OutputType::Stderr => file,
        OutputType::Members(members) => members,
    }
}

/// Makes an index of what the process gives.
pub(crate) fn outputs_of(alloc: Global, process: &Process) -> Result<Outputs<'_>, AllocError>
    ensures { IfOk result (λ outputs. given_under outputs ≡ gives process.now) }
{
    match process {
        Process::Tool(tool) => Ok(Outputs::Tool(Index::of(alloc, tool.outputs.as_slice())?)),
        Process::Workflow(workflow) => {
            Ok(Outputs::Workflow(Index::of(alloc, workflow.outputs.as_slice())?))
        }
    }
}

/// The type of what is given under an id.
fn output_at<'p>(
    outputs: &Outputs<'p>,
    id: &Text,
    file: &'p Items<MemberType>,
) -> Option<&'p Items<MemberType>>
    requires { file.now ≡ file_type }
    ensures { option_copied result ≡ value_at id.now (given_under outputs.now) }
{
    match outputs {
        Outputs::Tool(entries) => tool_output_at(entries, id, file),
        Outputs::Workflow(entries) => workflow_output_at(entries, id),
    }
}

fn tool_output_at<'p>(
    outputs: &Index<'p, ToolOutput>,
    id: &Text,
    file: &'p Items<MemberType>,
) -> Option<&'p Items<MemberType>>
    requires { file.now ≡ file_type }
    ensures { option_copied result
        ≡ value_at id.now (map_values (λ o. output_kind o.kind) outputs.now) }
{
    match outputs.find(id) {
        Some(output) => Some(tool_given(output, file)),
        None => None,
    }
}

fn workflow_output_at<'p>(
    outputs: &Index<'p, WorkflowOutput>,
    id: &Text,
) -> Option<&'p Items<MemberType>>
    ensures { option_copied result ≡ value_at id.now (map_values (λ o. o.kind) outputs.now) }
{
    match outputs.find(id) {
        Some(output) => Some(workflow_given(output)),
        None => None,
    }
}

fn workflow_given(output: &WorkflowOutput) -> &Items<MemberType>
    ensures { result.now ≡ output.now.kind }
{
    &output.kind
}

/// Whether something is given under an id.
pub(crate) fn gives(outputs: &Outputs<'_>, id: &Text) -> bool
    ensures { result ≡ has id.now (given_under outputs.now) }
{
    match outputs {
        Outputs::Tool(entries) => entries.has(id),
        Outputs::Workflow(entries) => entries.has(id),
    }
}

/// Whether the source leads to something that is there.
pub(crate) fn is_there(scope: Scope<'_, '_>, source: &Source) -> bool
    ensures { result ≡ is_there scope.entry.inputs.now scope.entry.steps.now source.now }
{
    match &source.step {
        None => scope.inputs.has(&source.name),
        Some(id) => match scope.steps.find(id) {
            None => false,
            Some(step) => step.lists(&source.name),
        },
    }
}

/// What the source gives, where it is there.
pub(crate) fn source_given<'p>(scope: Scope<'_, 'p>, source: &Source) -> Option<Given<'p>>
    requires { scope.file.now ≡ file_type }
    ensures { option_map gift_seen result
        ≡ gift scope.entry.inputs.now scope.entry.steps.now source.now }
{
    match &source.step {
        None => match scope.inputs.find(&source.name) {
            None => None,
            Some(input) => Some(Given {
                members: &input.kind,
                or_null: false,
                arrays: 0,
            }),
        },
        Some(id) => match scope.steps.find(id) {
            None => None,
            Some(step) => step.given(&source.name, scope.file),
        },
    }
}

/// What a step gives under a name, by an index of what its process gives.
pub(crate) fn step_given<'p>(
    step: &Step,
    outputs: &Outputs<'p>,
    name: &Text,
    file: &'p Items<MemberType>,
) -> Option<Given<'p>>
    requires file { file.now ≡ file_type }
    requires outputs { given_under outputs.now ≡ gives (out-Step step.now).process }
    ensures { option_map gift_seen result ≡ step_gift name.now step.now }
{
    match output_at(outputs, name, file) {
        None => None,
        Some(members) => Some(Given {
            members,
            or_null: step.when.is_some(),
            arrays: arrays(step.scatter.len(), step.method),
        }),
    }
}

/// In how many arrays the values of a scattered step are put.
fn arrays(scattered: usize, method: Option<Method>) -> usize
    ensures { result ≡ arrays_of scattered method }
{
    match method {
        Some(Method::NestedCrossproduct) => scattered,
        _ => { if scattered == 0 { 0 } else { 1 } }
    }
}

/// Whether a member is null alone.
pub(crate) fn is_null(member: &MemberType) -> bool
    ensures { result ≡ is_null member.now }
{
    matches!(member, MemberType::Plain(PlainType::Null))
}

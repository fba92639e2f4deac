//! The links of steps and of a workflow's outputs (K1, K3, K2).
ghost use Rattle.std.specs.Prelude.{◌≡◌, None, OnOk, IfErr, option_map};
ghost use Rattle.std.specs.List.{list_any};
ghost use Rattle.plain_data.specs.ByName.{map_values};
ghost use Rattle.document_links.specs.declared.process.Step.{out-Step};
ghost use Rattle.workflow_check.specs.Faults.{IsErrorOf, first_of};
ghost use Rattle.workflow_check.specs.Links.{asked_fault, entries_fault, entry_fault, has_to_be_given, other_fault, others_fault, output_fault, outputs_fault, source_fault, sources_fault, step_fault, steps_fault, type_fault, unlinked_fault};
ghost use Rattle.workflow_check.specs.Scope.{file_type, takes, tool_asked, workflow_asked};
ghost use Rattle.workflow_check.specs.Types.{is_null};
ghost use Rattle.workflow_check.specs.inner.Ports.{taken_under};
ghost use Rattle.workflow_check.specs.inner.Seen.{around, asked};

use crate::fault::{AcceptError, LinkRule, inside, refused};
use crate::index::Index;
use crate::overlapping::links_overlap;
use crate::scope::{
    Inputs, Scope, Taken, input_at, inputs_of, is_null, is_there, tool_taken, workflow_taken,
};
use crate::texts::Texts;
use cwl_process::{Entries, Links, Source, StepInput, ToolInput, WorkflowInput, WorkflowOutput};
use cwl_types::MemberType;
use document_links::{Process, Step};
use plain_data::{Items, Text};
use std::alloc::Global;

/// Looks at the links of each step in its order.
pub(crate) fn check_steps<'p>(alloc: Global, scope: Scope<'_, 'p>) -> Result<(), AcceptError>
    requires { scope.file.now ≡ file_type }
    ensures ok { OnOk result (steps_fault (around scope.entry) scope.entry.steps.now ≡ None) }
    ensures err { IfErr result
        (IsErrorOf (steps_fault (around scope.entry) scope.entry.steps.now)) }
{
    for entry in scope.steps.as_slice() {
        if let Err(error) = check_step(alloc, scope, &entry.1) {
            return Err(inside(alloc, &entry.0, error)?);
        }
    }
    Ok(())
}

fn check_step<'p>(alloc: Global, scope: Scope<'_, 'p>, step: &'p Step) -> Result<(), AcceptError>
    requires { scope.file.now ≡ file_type }
    ensures ok { OnOk result (step_fault (around scope.entry) step.now ≡ None) }
    ensures err { IfErr result (IsErrorOf (step_fault (around scope.entry) step.now)) }
{
    check_entries(alloc, scope, step)?;
    check_others(alloc, &step.process, &step.inputs, scope.file)
}

fn check_entries<'p>(alloc: Global, scope: Scope<'_, 'p>, step: &'p Step) -> Result<(), AcceptError>
    requires { scope.file.now ≡ file_type }
    ensures ok { OnOk result (entries_fault (around scope.entry) step.now ≡ None) }
    ensures err { IfErr result (IsErrorOf (entries_fault (around scope.entry) step.now)) }
{
    let taken = inputs_of(alloc, &step.process)?;
    let scatter = Texts::of(alloc, step.scatter.as_slice())?;
    let checked = check_each_entry(alloc, scope, step, &taken, &scatter);
    drop(scatter);
    drop(taken);
    checked
}

/// Looks at each entry of a step, by indexes of what its process takes and of what is scattered.
fn check_each_entry<'p>(
    alloc: Global,
    scope: Scope<'_, 'p>,
    step: &Step,
    taken: &Inputs<'p>,
    scatter: &Texts<'_>,
) -> Result<(), AcceptError>
    requires file { scope.file.now ≡ file_type }
    requires taken { taken_under taken.now ≡ takes (out-Step step.now).process }
    requires scatter { scatter.now ≡ (out-Step step.now).scatter }
    ensures ok { OnOk result (entries_fault (around scope.entry) step.now ≡ None) }
    ensures err { IfErr result (IsErrorOf (entries_fault (around scope.entry) step.now)) }
{
    for entry in step.inputs.as_slice() {
        let asked_of = input_at(taken, &entry.0, scope.file);
        let scattered = scatter.has(&entry.0);
        if let Err(error) = check_entry(alloc, scope, &entry.1, asked_of, scattered) {
            return Err(inside(alloc, &entry.0, error)?);
        }
    }
    Ok(())
}

fn check_entry(
    alloc: Global,
    scope: Scope<'_, '_>,
    input: &StepInput,
    asked_of: Option<Taken<'_>>,
    scattered: bool,
) -> Result<(), AcceptError>
    requires { scope.file.now ≡ file_type }
    ensures ok { OnOk result (entry_fault (around scope.entry) input.now scattered
        (option_map asked asked_of.entry) ≡ None) }
    ensures err { IfErr result
        (IsErrorOf (entry_fault (around scope.entry) input.now scattered
        (option_map asked asked_of.entry))) }
{
    check_sources(alloc, scope, &input.links)?;
    match asked_of {
        None => Ok(()),
        Some(asked_of) => check_asked(alloc, scope, input, asked_of, scattered),
    }
}

fn check_asked(
    alloc: Global,
    scope: Scope<'_, '_>,
    input: &StepInput,
    asked_of: Taken<'_>,
    scattered: bool,
) -> Result<(), AcceptError>
    requires { scope.file.now ≡ file_type }
    ensures ok { OnOk result (asked_fault (around scope.entry) input.now scattered
        (asked asked_of.entry) ≡ None) }
    ensures err { IfErr result
        (IsErrorOf (asked_fault (around scope.entry) input.now scattered (asked asked_of.entry))) }
{
    if input.default.is_some() || input.value_from.is_some() {
        return Ok(());
    }
    match &input.links.sources {
        None => check_unlinked(alloc, asked_of),
        Some(sources) => check_overlap(
            alloc,
            scope,
            &input.links,
            sources.as_slice(),
            scattered,
            asked_of.kind,
        ),
    }
}

fn check_unlinked(alloc: Global, asked_of: Taken<'_>) -> Result<(), AcceptError>
    ensures ok { OnOk result (unlinked_fault (asked asked_of.entry) ≡ None) }
    ensures err { IfErr result (IsErrorOf (unlinked_fault (asked asked_of.entry))) }
{
    if has_to_be_given(asked_of) {
        return Err(refused(alloc, LinkRule::Unconnected));
    }
    Ok(())
}

/// Whether nothing stands in for an absent value.
fn has_to_be_given(asked_of: Taken<'_>) -> bool
    ensures { result ≡ has_to_be_given (asked asked_of.entry) }
{
    !asked_of.has_default && !admits_null(asked_of.kind)
}

fn admits_null(kind: &Items<MemberType>) -> bool
    ensures { result ≡ list_any is_null kind.now }
{
    kind.as_slice().iter().any(|member| is_null(member))
}

fn check_overlap(
    alloc: Global,
    scope: Scope<'_, '_>,
    links: &Links,
    sources: &[Source],
    scattered: bool,
    kind: &Items<MemberType>,
) -> Result<(), AcceptError>
    requires { scope.file.now ≡ file_type }
    ensures ok { OnOk result (type_fault (around scope.entry) links.now sources.now scattered
        kind.now ≡ None) }
    ensures err { IfErr result
        (IsErrorOf (type_fault (around scope.entry) links.now sources.now scattered kind.now)) }
{
    if sources.is_empty() {
        return Ok(());
    }
    let overlap = links_overlap(alloc, scope, links, sources, scattered, kind)?;
    if overlap {
        return Ok(());
    }
    Err(refused(alloc, LinkRule::Disjoint))
}

fn check_sources(alloc: Global, scope: Scope<'_, '_>, links: &Links) -> Result<(), AcceptError>
    ensures ok { OnOk result (sources_fault (around scope.entry) links.now ≡ None) }
    ensures err { IfErr result (IsErrorOf (sources_fault (around scope.entry) links.now)) }
{
    match &links.sources {
        None => Ok(()),
        Some(sources) => check_each_source(alloc, scope, sources.as_slice()),
    }
}

fn check_each_source(
    alloc: Global,
    scope: Scope<'_, '_>,
    sources: &[Source],
) -> Result<(), AcceptError>
    ensures ok { OnOk result (first_of (source_fault (around scope.entry)) sources.now ≡ None) }
    ensures err { IfErr result
        (IsErrorOf (first_of (source_fault (around scope.entry)) sources.now)) }
{
    for source in sources {
        if !is_there(scope, source) {
            return Err(refused(alloc, LinkRule::NoSource));
        }
    }
    Ok(())
}

/// Looks at the inputs of a step's process that the step has no entry for.
fn check_others(
    alloc: Global,
    process: &Process,
    entries: &Entries<StepInput>,
    file: &Items<MemberType>,
) -> Result<(), AcceptError>
    requires { file.now ≡ file_type }
    ensures ok { OnOk result (others_fault process.now entries.now ≡ None) }
    ensures err { IfErr result (IsErrorOf (others_fault process.now entries.now)) }
{
    let entries = Index::of(alloc, entries.as_slice())?;
    match process {
        Process::Tool(tool) => check_tool_inputs(alloc, &tool.inputs, &entries, file),
        Process::Workflow(workflow) => check_workflow_inputs(alloc, &workflow.inputs, &entries),
    }
}

fn check_tool_inputs(
    alloc: Global,
    inputs: &Entries<ToolInput>,
    entries: &Index<'_, StepInput>,
    file: &Items<MemberType>,
) -> Result<(), AcceptError>
    requires { file.now ≡ file_type }
    ensures ok { OnOk result (first_of (other_fault entries.now) (map_values tool_asked inputs.now)
        ≡ None) }
    ensures err { IfErr result
        (IsErrorOf (first_of (other_fault entries.now) (map_values tool_asked inputs.now))) }
{
    for input in inputs.as_slice() {
        check_other(alloc, &input.0, tool_taken(&input.1, file), entries)?;
    }
    Ok(())
}

fn check_workflow_inputs(
    alloc: Global,
    inputs: &Entries<WorkflowInput>,
    entries: &Index<'_, StepInput>,
) -> Result<(), AcceptError>
    ensures ok { OnOk result
        (first_of (other_fault entries.now) (map_values workflow_asked inputs.now) ≡ None) }
    ensures err { IfErr result
        (IsErrorOf (first_of (other_fault entries.now) (map_values workflow_asked inputs.now))) }
{
    for input in inputs.as_slice() {
        check_other(alloc, &input.0, workflow_taken(&input.1), entries)?;
    }
    Ok(())
}

fn check_other(
    alloc: Global,
    id: &Text,
    asked_of: Taken<'_>,
    entries: &Index<'_, StepInput>,
) -> Result<(), AcceptError>
    ensures ok { OnOk result (other_fault entries.now (id.now, asked asked_of.entry) ≡ None) }
    ensures err { IfErr result
        (IsErrorOf (other_fault entries.now (id.now, asked asked_of.entry))) }
{
    if entries.has(id) {
        return Ok(());
    }
    match check_unlinked(alloc, asked_of) {
        Ok(()) => Ok(()),
        Err(error) => Err(inside(alloc, id, error)?),
    }
}

/// Looks at the links of the workflow's outputs.
pub(crate) fn check_outputs(
    alloc: Global,
    scope: Scope<'_, '_>,
    outputs: &Entries<WorkflowOutput>,
) -> Result<(), AcceptError>
    requires { scope.file.now ≡ file_type }
    ensures ok { OnOk result (outputs_fault (around scope.entry) outputs.now ≡ None) }
    ensures err { IfErr result (IsErrorOf (outputs_fault (around scope.entry) outputs.now)) }
{
    for entry in outputs.as_slice() {
        if let Err(error) = check_output(alloc, scope, &entry.1) {
            return Err(inside(alloc, &entry.0, error)?);
        }
    }
    Ok(())
}

fn check_output(
    alloc: Global,
    scope: Scope<'_, '_>,
    output: &WorkflowOutput,
) -> Result<(), AcceptError>
    requires { scope.file.now ≡ file_type }
    ensures ok { OnOk result (output_fault (around scope.entry) output.now ≡ None) }
    ensures err { IfErr result (IsErrorOf (output_fault (around scope.entry) output.now)) }
{
    check_sources(alloc, scope, &output.links)?;
    match &output.links.sources {
        None => Ok(()),
        Some(sources) => check_overlap(
            alloc,
            scope,
            &output.links,
            sources.as_slice(),
            false,
            &output.kind,
        ),
    }
}

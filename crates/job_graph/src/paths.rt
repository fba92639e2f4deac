//! The paths that are measured before a run.
ghost use Rattle.std.specs.Prelude.{◌≡◌, ◌++◌, IfOk, OnOk};
ghost use Rattle.std.specs.List.{flat_map};
ghost use Rattle.document_links.specs.declared.process.Process.{out-Process};
ghost use Rattle.job_graph.specs.Paths as spec;

use cwl_process::{Entries, StepInput};
use cwl_value::Value;
use document_links::{Process, Step, Workflow};
use input_files::{each_once, push_defaults, push_fields, push_root_inputs, push_value};
use plain_data::{Items, Keyed, Text};
use std::alloc::{AllocError, Global};

/// The paths to measure before a run: those of every File and Directory of what is given and of each default, also of the
/// processes inside, and those at which files are looked for that the process declares and a File lacks.
pub fn input_paths(
    alloc: Global,
    process: &Process,
    given: &Keyed<Value>,
) -> Result<Items<Text>, AllocError>
    ensures { IfOk result (λ paths. paths ≡ spec.input_paths process.now given.now) }
{
    let mut paths = Items::new(alloc);
    push_fields(alloc, given, &mut paths)?;
    push_root(alloc, process, given, &mut paths)?;
    each_once(alloc, paths.as_slice())
}

// Adds what the root process adds to the paths of what is given.
fn push_root(
    alloc: Global,
    process: &Process,
    given: &Keyed<Value>,
    paths: &mut Items<Text>,
) -> Result<(), AllocError>
    ensures { OnOk result (paths.new ≡ paths.old
        ++ spec.root_adds given.now (out-Process process.now)) }
{
    match process {
        Process::Tool(tool) => push_root_inputs(alloc, tool.inputs.as_slice(), given, paths),
        Process::Workflow(workflow) => {
            push_root_inputs(alloc, workflow.inputs.as_slice(), given, paths)?;
            push_steps(alloc, &workflow.steps, paths)
        }
    }
}

// Adds the paths of the defaults of a process inside another.
#[cycle(paths)]
fn push_process(alloc: Global, process: &Process, paths: &mut Items<Text>) -> Result<(), AllocError>
    ensures { OnOk result (paths.new ≡ paths.old ++ spec.paths_in process.now) }
{
    match process {
        Process::Tool(tool) => push_defaults(alloc, tool.inputs.as_slice(), paths),
        Process::Workflow(workflow) => push_workflow(alloc, workflow, paths),
    }
}

#[cycle(paths)]
fn push_workflow(
    alloc: Global,
    workflow: &Workflow,
    paths: &mut Items<Text>,
) -> Result<(), AllocError>
    ensures { OnOk result (paths.new ≡ paths.old ++ spec.paths_in_workflow workflow.now) }
{
    push_defaults(alloc, workflow.inputs.as_slice(), paths)?;
    push_steps(alloc, &workflow.steps, paths)
}

#[cycle(paths)]
fn push_steps(
    alloc: Global,
    steps: &Entries<Step>,
    paths: &mut Items<Text>,
) -> Result<(), AllocError>
    ensures { OnOk result (paths.new ≡ paths.old ++ spec.paths_in_steps steps.now) }
{
    for step in steps.as_slice() {
        push_step(alloc, &step.1, paths)?;
    }
    Ok(())
}

#[cycle(paths)]
fn push_step(alloc: Global, step: &Step, paths: &mut Items<Text>) -> Result<(), AllocError>
    ensures { OnOk result (paths.new ≡ paths.old ++ spec.paths_in_step step.now) }
{
    push_links(alloc, &step.inputs, paths)?;
    push_process(alloc, &step.process, paths)
}

// Adds the paths of the defaults of a step's inputs.
fn push_links(
    alloc: Global,
    inputs: &Entries<StepInput>,
    paths: &mut Items<Text>,
) -> Result<(), AllocError>
    ensures { OnOk result (paths.new ≡ paths.old ++ flat_map spec.link_paths inputs.now) }
{
    for input in inputs.as_slice() {
        if let Some(default) = &input.1.default {
            push_value(alloc, default, paths)?;
        }
    }
    Ok(())
}

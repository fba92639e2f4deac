//! Reads processes: tools, and workflows with the processes inside them.
ghost use Rattle.std.specs.Prelude.{◌≡◌, IfOk, map, option_and_then, codes};
ghost use Rattle.serde_json.specs.Find.{get};
ghost use Rattle.serde_json.specs.View.{view};
ghost use Rattle.document_table.specs.Entries.{HasForm, IsOf, IsProcess, entries};
ghost use Rattle.document_table.specs.declared.form.Form.TheVariants as form;
ghost use Rattle.document_table.specs.declared.form.Kind.TheVariants as kind;
ghost use Rattle.cwl_process.specs.Acting.{asked_in};
ghost use Rattle.cwl_process.specs.Processes.{is_workflow, process_in, run_at, step_in};
ghost use Rattle.cwl_process.specs.Simple.{list_at, text_at, value_seen};
ghost use Rattle.cwl_process.specs.Tools.{entries_at};
ghost use Rattle.cwl_process.specs.declared.process.Run as run;
ghost use Rattle.cwl_process.specs.Workflows.{method_named, own_id, step_input_in, step_output_in, workflow_of};

use crate::acting::read_asked;
use crate::entries::Entries;
use crate::from_entry::{FromEntry, entries_at};
use crate::parameters::default_at;
use crate::process::{Process, Run, RunName};
use crate::read_links::read_links;
use crate::simple::{list_at, names_at, read_name};
use crate::templates::template_at;
use crate::tool::Asked;
use crate::tool_reader::read_tool;
use crate::workflow::{Step, StepInput, Workflow};
use document_table::{Kind, entries, main_field};
use plain_data::{Items, Text};
use scatter_shape::Method;
use serde_json::Value;
use std::alloc::{AllocError, Global};
use std::mem;

/// The process that JSON represents, inside of what is asked around it. So many workflows at most are
/// inside one another.
#[cycle(process)]
#[tactic(auto, using(crate::proofs::Forms::tool_inputs, crate::proofs::Forms::tool_outputs, crate::proofs::Forms::tool_requirements, crate::proofs::Forms::tool_hints, crate::proofs::Forms::tool_is_whole, crate::proofs::Forms::is_a_workflow, crate::proofs::Forms::is_a_tool, crate::proofs::Levels::at_nothing))]
pub(crate) fn read_process(
    alloc: Global,
    levels: usize,
    around: &Asked,
    value: &Value,
) -> Result<Process, AllocError>
    requires { IsProcess (view value.now) }
    ensures { IfOk result (λ process. process ≡ process_in levels around.now (view value.now)) }
{
    if levels == 0 {
        return Ok(Process::Tool(read_tool(alloc, around, &Value::Null)?));
    }
    if is_workflow(value) {
        return Ok(Process::Workflow(read_workflow(alloc, levels - 1, around, value)?));
    }
    Ok(Process::Tool(read_tool(alloc, around, value)?))
}

/// Returns the id of a workflow, as it is written; an empty text where it has none.
pub fn own_id(value: &Value) -> &str
    ensures { result.now ≡ own_id (view value.now) }
{
    match value.get("id") {
        None => "",
        Some(id) => id.as_str().unwrap_or(""),
    }
}

/// Whether a process is a workflow.
pub fn is_workflow(value: &Value) -> bool
    ensures { result ≡ is_workflow (view value.now) }
{
    match value.get("class") {
        None => false,
        Some(class) => match class.as_str() {
            None => false,
            Some(class) => class == "Workflow",
        },
    }
}

#[cycle(process)]
#[tactic(auto, using(crate::proofs::Forms::workflow_inputs, crate::proofs::Forms::workflow_outputs))]
fn read_workflow(
    alloc: Global,
    levels: usize,
    around: &Asked,
    value: &Value,
) -> Result<Workflow, AllocError>
    requires { IsOf kind.Workflow (view value.now) }
    ensures { IfOk result (λ workflow. workflow ≡ workflow_of
        (step_in (process_in levels) (own_id (view value.now))
        (asked_in around.now (view value.now))) (view value.now)) }
{
    let inputs = entries_at(alloc, "", Kind::WorkflowInput, "inputs", value)?;
    let outputs = entries_at(alloc, own_id(value), Kind::WorkflowOutput, "outputs", value)?;
    let steps = steps_at(alloc, levels, around, value)?;
    Ok(Workflow {
        inputs,
        outputs,
        steps,
    })
}

#[cycle(process)]
#[tactic(auto, using(crate::proofs::Forms::workflow_steps, crate::proofs::Forms::workflow_requirements, crate::proofs::Forms::workflow_hints))]
fn steps_at(
    alloc: Global,
    levels: usize,
    around: &Asked,
    value: &Value,
) -> Result<Entries<Step>, AllocError>
    requires { IsOf kind.Workflow (view value.now) }
    ensures { IfOk result (λ steps. steps ≡ entries_at kind.Step
        (step_in (process_in levels) (own_id (view value.now))
        (asked_in around.now (view value.now)))
        (codes "steps") (view value.now)) }
{
    let asked = read_asked(alloc, around, value)?;
    match value.get("steps") {
        None => Ok(Entries::from_distinct(Vec::new(alloc))),
        Some(found) => read_steps(alloc, levels, own_id(value), &asked, found),
    }
}

#[cycle(process)]
fn read_steps(
    alloc: Global,
    levels: usize,
    id: &str,
    around: &Asked,
    value: &Value,
) -> Result<Entries<Step>, AllocError>
    requires { HasForm (form.Objects kind.Step) (view value.now) }
    ensures { IfOk result (λ steps. steps
        ≡ map (λ e. (e.0, step_in (process_in levels) id.now around.now e.1))
        (entries kind.Step (view value.now))) }
{
    let found = entries(alloc, Kind::Step, value)?;
    let mut made = Vec::new(alloc);
    for entry in found.as_slice() {
        let name = Text::from_text(alloc, entry.0)?;
        made.push((name, read_step(alloc, levels, id, around, entry.1)?))?;
    }
    Ok(Entries::from_distinct(made))
}

#[cycle(process)]
#[tactic(auto, using(crate::proofs::Forms::step_inputs))]
fn read_step(
    alloc: Global,
    levels: usize,
    id: &str,
    around: &Asked,
    value: &Value,
) -> Result<Step, AllocError>
    requires { IsOf kind.Step (view value.now) }
    ensures { IfOk result
        (λ step. step ≡ step_in (process_in levels) id.now around.now (view value.now)) }
{
    // What is dear to let go is read last.
    let outputs = step_outputs(alloc, value)?;
    let scatter = names_at(alloc, "scatter", value)?;
    let inputs = entries_at(alloc, id, Kind::StepInput, "in", value)?;
    let when = template_at(alloc, "when", value)?;
    let run = run_at(alloc, levels, around, value)?;
    Ok(Step {
        inputs,
        outputs,
        run,
        scatter,
        method: scatter_method(value),
        when,
    })
}

#[cycle(process)]
#[tactic(auto, using(crate::proofs::Forms::step_requirements, crate::proofs::Forms::step_hints, crate::proofs::Forms::runs_process))]
fn run_at(alloc: Global, levels: usize, around: &Asked, value: &Value) -> Result<Run, AllocError>
    requires { IsOf kind.Step (view value.now) }
    ensures { IfOk result (λ run. run
        ≡ run_at (process_in levels) (asked_in around.now (view value.now)) (view value.now)) }
{
    let asked = read_asked(alloc, around, value)?;
    let Some(found) = value.get("run") else {
        return named_run(alloc, "", asked);
    };
    match found.as_str() {
        Some(name) => named_run(alloc, name, asked),
        None => {
            let process = read_process(alloc, levels, &asked, found);
            mem::drop(asked);
            Ok(Run::Inline(process?))
        }
    }
}

/// The process of that name, of which this is asked.
fn named_run(alloc: Global, name: &str, asked: Asked) -> Result<Run, AllocError>
    ensures { IfOk result (λ named. named ≡ run.Named (record { name = name.now; asked = asked })) }
{
    let name = Text::from_text(alloc, name)?;
    Ok(Run::Named(RunName { name, asked }))
}

pub(crate) fn step_outputs(alloc: Global, value: &Value) -> Result<Items<Text>, AllocError>
    ensures { IfOk result (λ outputs. outputs
        ≡ map step_output_in (list_at (codes "out") (view value.now))) }
{
    let found = list_at(alloc, "out", value)?;
    read_step_outputs(alloc, found.as_slice())
}

fn read_step_outputs(alloc: Global, found: &[&Value]) -> Result<Items<Text>, AllocError>
    ensures { IfOk result (λ outputs. outputs ≡ map step_output_in (map value_seen found.now)) }
{
    let mut outputs = Items::new(alloc);
    for value in found {
        outputs.push(read_step_output(alloc, value)?)?;
    }
    Ok(outputs)
}

fn read_step_output(alloc: Global, value: &Value) -> Result<Text, AllocError>
    ensures { IfOk result (λ output. output ≡ step_output_in (view value.now)) }
{
    match main_field("id", value) {
        None => Text::from_text(alloc, ""),
        Some(found) => read_name(alloc, found),
    }
}

pub(crate) fn scatter_method(value: &Value) -> Option<Method>
    ensures { result
        ≡ option_and_then method_named (text_at (codes "scatterMethod") (view value.now)) }
{
    let text = value.get("scatterMethod")?.as_str()?;
    match text {
        "dotproduct" => Some(Method::Dotproduct),
        "nested_crossproduct" => Some(Method::NestedCrossproduct),
        "flat_crossproduct" => Some(Method::FlatCrossproduct),
        _ => None,
    }
}

impl FromEntry for StepInput {
    ghost meaning = { step_input_in };

    fn from_entry(alloc: Global, id: &str, value: &Value) -> Result<StepInput, AllocError> {
        let links = read_links(alloc, id, main_field("source", value), value)?;
        let value_from = template_at(alloc, "valueFrom", value)?;
        let default = default_at(alloc, value)?;
        Ok(StepInput {
            links,
            default,
            value_from,
        })
    }
}

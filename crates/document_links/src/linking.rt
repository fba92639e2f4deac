//! Builds the process of a document, with those that its steps name.
ghost use Rattle.std.specs.Prelude.{◌≡◌, IfOk, map, codes};
ghost use Rattle.serde_json.specs.View.{view};
ghost use Rattle.document_table.specs.Entries.{HasForm, IsOf, IsProcess, entries};
ghost use Rattle.document_table.specs.declared.form.Form.TheVariants as form;
ghost use Rattle.document_table.specs.declared.form.Kind.TheVariants as kind;
ghost use Rattle.cwl_process.specs.Acting.{asked_in};
ghost use Rattle.cwl_process.specs.Tools.{entries_at, tool_in};
ghost use Rattle.document_links.specs.Library.{finds_in};
ghost use Rattle.document_links.specs.Defaults.{tool_on};
ghost use Rattle.cwl_process.specs.Workflows.{own_id};
ghost use Rattle.document_table.specs.Packed.{item_named};
ghost use Rattle.document_links.specs.Homes.{home_seen};
ghost use Rattle.document_links.specs.Targets.{document_at, item_at};
ghost use Rattle.document_links.specs.Linked.{at_target, linked, nothing, run_at, run_in, step_in, step_of, workflow_in};
ghost use Rattle.document_links.specs.inner.Sound.{AllProcesses};

use crate::defaults::{each_on, tool_on};
use crate::home::Home;
use crate::library::Library;
use crate::process::{Process, Step, Workflow};
use crate::target::{document_at, item_at};
use crate::walk::WalkError;
use cwl_process::{
    Asked, Entries, StepParts, Tool, is_workflow, own_id, read_asked, read_step_parts, read_tool,
    read_workflow_inputs, read_workflow_outputs,
};
use document_table::{Kind, entries, has_hash};
use plain_data::Text;
use serde_json::Value;
use std::alloc::{AllocError, Global};
use std::mem;
use url::Url;

/// The process that a value in a document is. So many workflows at most are inside one another.
#[cycle(linking)]
#[tactic(auto, using(cwl_process::proofs::Forms::is_a_workflow, cwl_process::proofs::Forms::is_a_tool))]
pub(crate) fn linked(
    alloc: Global,
    library: &Library,
    levels: usize,
    home: Home<'_>,
    around: &Asked,
    value: &Value,
) -> Result<Process, AllocError>
    requires processes { AllProcesses library.now }
    requires process { IsProcess (view value.now) }
    ensures { IfOk result (λ process. process
        ≡ linked (finds_in library.now) levels (home_seen home.entry) around.now (view value.now)) }
{
    if is_workflow(value) {
        if levels == 0 {
            return nothing(alloc, around);
        }
        let workflow = linked_workflow(alloc, library, levels - 1, home, around, value)?;
        return Ok(Process::Workflow(workflow));
    }
    Ok(Process::Tool(own_tool(alloc, home.url, around, value)?))
}

#[tactic(auto, using(cwl_process::proofs::Forms::tool_inputs, cwl_process::proofs::Forms::tool_outputs, cwl_process::proofs::Forms::tool_requirements, cwl_process::proofs::Forms::tool_hints, cwl_process::proofs::Forms::tool_is_whole))]
fn own_tool(alloc: Global, base: &Url, around: &Asked, value: &Value) -> Result<Tool, AllocError>
    requires { IsOf kind.Tool (view value.now) }
    ensures { IfOk result
        (λ tool. tool ≡ tool_on base.now (tool_in around.now (view value.now))) }
{
    tool_on(alloc, base, read_tool(alloc, around, value)?)
}

/// What stands where there is no process.
fn nothing(alloc: Global, around: &Asked) -> Result<Process, AllocError>
    ensures { IfOk result (λ process. process ≡ nothing around.now) }
{
    Ok(Process::Tool(read_tool(alloc, around, &Value::Null)?))
}

#[cycle(linking)]
fn linked_workflow(
    alloc: Global,
    library: &Library,
    levels: usize,
    home: Home<'_>,
    around: &Asked,
    value: &Value,
) -> Result<Workflow, AllocError>
    requires processes { AllProcesses library.now }
    requires workflow { IsOf kind.Workflow (view value.now) }
    ensures { IfOk result (λ workflow. workflow ≡ workflow_in (linked (finds_in library.now) levels)
        (finds_in library.now) (home_seen home.entry) around.now (view value.now)) }
{
    let inputs = each_on(alloc, home.url, read_workflow_inputs(alloc, value)?)?;
    let outputs = read_workflow_outputs(alloc, value)?;
    let steps = steps_at(alloc, library, levels, home, around, value)?;
    Ok(Workflow {
        inputs,
        outputs,
        steps,
    })
}

#[cycle(linking)]
#[tactic(auto, using(cwl_process::proofs::Forms::workflow_steps, cwl_process::proofs::Forms::workflow_requirements, cwl_process::proofs::Forms::workflow_hints))]
fn steps_at(
    alloc: Global,
    library: &Library,
    levels: usize,
    home: Home<'_>,
    around: &Asked,
    value: &Value,
) -> Result<Entries<Step>, AllocError>
    requires processes { AllProcesses library.now }
    requires workflow { IsOf kind.Workflow (view value.now) }
    ensures { IfOk result (λ steps. steps ≡ entries_at kind.Step
        (step_in (linked (finds_in library.now) levels) (finds_in library.now)
        (home_seen home.entry) (own_id (view value.now)) (asked_in around.now (view value.now)))
        (codes "steps") (view value.now)) }
{
    let asked = read_asked(alloc, around, value)?;
    match value.get("steps") {
        None => Ok(Entries::from_distinct(Vec::new(alloc))),
        Some(found) => { linked_steps(alloc, library, levels, home, own_id(value), &asked, found) }
    }
}

#[cycle(linking)]
fn linked_steps(
    alloc: Global,
    library: &Library,
    levels: usize,
    home: Home<'_>,
    id: &str,
    around: &Asked,
    value: &Value,
) -> Result<Entries<Step>, AllocError>
    requires processes { AllProcesses library.now }
    requires steps { HasForm (form.Objects kind.Step) (view value.now) }
    ensures { IfOk result (λ steps. steps ≡ map (λ e. (
      e.0,
      step_in (linked (finds_in library.now) levels)
          (finds_in library.now) (home_seen home.entry) id.now around.now e.1,
    )) (entries kind.Step (view value.now))) }
{
    let found = entries(alloc, Kind::Step, value)?;
    let mut made = Vec::new(alloc);
    for entry in found.as_slice() {
        let name = Text::from_text(alloc, entry.0)?;
        made.push((
            name,
            linked_step(alloc, library, levels, home, id, around, entry.1)?,
        ))?;
    }
    Ok(Entries::from_distinct(made))
}

#[cycle(linking)]
fn linked_step(
    alloc: Global,
    library: &Library,
    levels: usize,
    home: Home<'_>,
    id: &str,
    around: &Asked,
    value: &Value,
) -> Result<Step, AllocError>
    requires processes { AllProcesses library.now }
    requires step { IsOf kind.Step (view value.now) }
    ensures { IfOk result (λ step. step ≡ step_in (linked (finds_in library.now) levels)
        (finds_in library.now) (home_seen home.entry) id.now around.now (view value.now)) }
{
    let parts = read_step_parts(alloc, id, value)?;
    match run_at(alloc, library, levels, home, around, value) {
        Ok(process) => Ok(step_of(alloc, home.url, process, parts)?),
        Err(error) => {
            mem::drop(parts);
            Err(error)
        }
    }
}

/// A step that runs this process.
fn step_of(
    alloc: Global,
    base: &Url,
    process: Process,
    parts: StepParts,
) -> Result<Step, AllocError>
    ensures { IfOk result (λ step. step ≡ step_of base.now process parts) }
{
    let StepParts {
        inputs,
        outputs,
        scatter,
        method,
        when,
    } = parts;
    let inputs = each_on(alloc, base, inputs)?;
    Ok(Step {
        inputs,
        outputs,
        process,
        scatter,
        method,
        when,
    })
}

#[cycle(linking)]
#[tactic(auto, using(cwl_process::proofs::Forms::step_requirements, cwl_process::proofs::Forms::step_hints))]
fn run_at(
    alloc: Global,
    library: &Library,
    levels: usize,
    home: Home<'_>,
    around: &Asked,
    value: &Value,
) -> Result<Process, AllocError>
    requires processes { AllProcesses library.now }
    requires step { IsOf kind.Step (view value.now) }
    ensures { IfOk result (λ process. process ≡ run_at (linked (finds_in library.now) levels)
        (finds_in library.now) (home_seen home.entry) (asked_in around.now (view value.now))
        (view value.now)) }
{
    let asked = read_asked(alloc, around, value)?;
    match value.get("run") {
        None => nothing(alloc, &asked),
        Some(found) => run_in(alloc, library, levels, home, &asked, found),
    }
}

#[cycle(linking)]
#[tactic(auto, using(cwl_process::proofs::Forms::no_text_is_process), unfolding(crate::specs::Targets::target))]
fn run_in(
    alloc: Global,
    library: &Library,
    levels: usize,
    home: Home<'_>,
    asked: &Asked,
    value: &Value,
) -> Result<Process, AllocError>
    requires processes { AllProcesses library.now }
    requires run { HasForm form.Run (view value.now) }
    ensures { IfOk result (λ process. process ≡ run_in (linked (finds_in library.now) levels)
        (finds_in library.now) (home_seen home.entry) asked.now (view value.now)) }
{
    let Some(name) = value.as_str() else {
        return linked(alloc, library, levels, home, asked, value);
    };
    if has_hash(name) {
        return item_in(alloc, library, levels, home, asked, name);
    }
    document_in(alloc, library, levels, home, asked, name)
}

/// The process of the item of that name.
#[cycle(linking)]
fn item_in(
    alloc: Global,
    library: &Library,
    levels: usize,
    home: Home<'_>,
    asked: &Asked,
    name: &str,
) -> Result<Process, AllocError>
    requires processes { AllProcesses library.now }
    ensures { IfOk result (λ process. process ≡ at_target (item_at (home_seen home.entry) name.now
        (item_named name.now (view home.entry.document.now.json)))
        (λ h other. linked (finds_in library.now) levels h asked.now other) (nothing asked.now)) }
{
    match item_at(alloc, home, name) {
        Ok(item) => linked(alloc, library, levels, home, asked, item.process),
        Err(WalkError::Refused(_)) => nothing(alloc, asked),
        Err(WalkError::OutOfMemory) => Err(AllocError),
    }
}

/// The process that the document of that name stands for.
#[cycle(linking)]
#[tactic(auto, using(cwl_process::proofs::Forms::placed_is_process))]
fn document_in(
    alloc: Global,
    library: &Library,
    levels: usize,
    home: Home<'_>,
    asked: &Asked,
    name: &str,
) -> Result<Process, AllocError>
    requires processes { AllProcesses library.now }
    ensures { IfOk result (λ process. process
        ≡ at_target (document_at (finds_in library.now) home.entry.url.now name.now)
        (λ h other. linked (finds_in library.now) levels h asked.now other) (nothing asked.now)) }
{
    match document_at(alloc, library, home.url, name) {
        Ok((url, document)) => {
            let root = document.root();
            let other = Home {
                url: &url,
                document,
            };
            linked(alloc, library, levels, other, asked, root.process)
        }
        Err(WalkError::Refused(_)) => nothing(alloc, asked),
        Err(WalkError::OutOfMemory) => Err(AllocError),
    }
}

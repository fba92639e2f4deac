//! What can be said of a process before it runs.

use crate::references::{Scope, Spoken, add_valueless};
use crate::tool_texts::{
    command_texts, output_texts, scope_of_command, scope_of_outputs, scope_of_step, step_texts,
};
use cwl_process::Tool;
use document_links::{Process, Step, Workflow};
use std::alloc::{AllocError, Global};

/// The most lines that are told.
const MOST_LINES: usize = 100;

// A process, the names of the steps that lead to it, and the last of these.
#[derive(Drop)]
struct Spot<'a> {
    place: String,
    step: Option<&'a Step>,
    process: &'a Process,
}

/// Adds a line on each reference of a process that has no value whatever its inputs are, behind the place: in what makes the command of a
/// tool, in its outputs, and in `valueFrom` and `when` of a step.
pub fn add_foreseen(
    alloc: Global,
    process: &Process,
    lines: &mut Vec<String>,
) -> Result<(), AllocError> {
    let mut spots = Vec::new(alloc);
    let place = String::from_str(alloc, "main")?;
    spots.push(Spot {
        place,
        step: None,
        process,
    })?;
    for _ in 0..u64::MAX {
        match spots.pop() {
            Some(spot) if lines.len() < MOST_LINES => add_of(alloc, &spot, &mut spots, lines)?,
            _ => return Ok(()),
        }
    }
    Ok(())
}

// Adds the lines of one process, and the processes of its steps to those that are to be looked at, the first one last.
fn add_of<'a>(
    alloc: Global,
    spot: &Spot<'a>,
    spots: &mut Vec<Spot<'a>>,
    lines: &mut Vec<String>,
) -> Result<(), AllocError> {
    let place = spot.place.as_str();
    if let Some(step) = spot.step {
        let scope = scope_of_step(alloc, step)?;
        add_placed(alloc, place, &scope, step_texts(alloc, step)?, lines)?;
    }
    match spot.process {
        Process::Tool(tool) => add_of_tool(alloc, place, tool, lines),
        Process::Workflow(workflow) => add_inner(alloc, place, workflow, spots),
    }
}

fn add_inner<'a>(
    alloc: Global,
    around: &str,
    workflow: &'a Workflow,
    spots: &mut Vec<Spot<'a>>,
) -> Result<(), AllocError> {
    for (id, step) in workflow.steps.as_slice().iter().rev() {
        let place = format!(in alloc; "{around}/{id}")?;
        spots.push(Spot {
            place,
            step: Some(step),
            process: &step.process,
        })?;
    }
    Ok(())
}

fn add_of_tool(
    alloc: Global,
    place: &str,
    tool: &Tool,
    lines: &mut Vec<String>,
) -> Result<(), AllocError> {
    let scope = scope_of_command(alloc, tool)?;
    add_placed(alloc, place, &scope, command_texts(alloc, tool)?, lines)?;
    let scope = scope_of_outputs(alloc, tool)?;
    for (_, output) in tool.outputs.as_slice() {
        add_placed(alloc, place, &scope, output_texts(alloc, output)?, lines)?;
    }
    Ok(())
}

fn add_placed(
    alloc: Global,
    place: &str,
    scope: &Scope<'_>,
    texts: Vec<Spoken<'_>>,
    lines: &mut Vec<String>,
) -> Result<(), AllocError> {
    let mut found = Vec::new(alloc);
    add_valueless(alloc, scope, texts.as_slice(), &mut found)?;
    for line in found {
        lines.push(format!(in alloc; "\"{place}\": {line}")?)?;
    }
    Ok(())
}

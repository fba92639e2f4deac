//! What is said of steps that wait for one another.

use crate::link_places::{names_of, sources_of, step_of};
use document_links::{Step, Workflow};
use plain_data::Text;
use run_facts::find_in;
use std::alloc::{AllocError, Global};

/// How many steps of a workflow are looked at for a circle.
const STEPS_LOOKED_AT: usize = 256;

pub(crate) fn add_circle(
    alloc: Global,
    workflow: Option<&Workflow>,
    lines: &mut Vec<String>,
) -> Result<(), AllocError> {
    match workflow {
        Some(workflow) if workflow.steps.len() <= STEPS_LOOKED_AT => {
            let steps = workflow.steps.as_slice();
            // in the end each of these waits for another one of them
            let mut open = names_of(alloc, steps)?;
            for _ in steps {
                open = waiting_steps(alloc, steps, open.as_slice())?;
            }
            add_way(alloc, steps, open.as_slice(), lines)
        }
        _ => Ok(()),
    }
}

// Those of these steps that wait for one of them.
fn waiting_steps<'a>(
    alloc: Global,
    steps: &'a [(Text, Step)],
    open: &[&str],
) -> Result<Vec<&'a str>, AllocError> {
    let mut waiting = Vec::new(alloc);
    for (id, step) in steps {
        if has(open, id.as_str()) && waits_for(step, open).is_some() {
            waiting.push(id.as_str())?;
        }
    }
    Ok(waiting)
}

fn has(names: &[&str], name: &str) -> bool {
    names.iter().any(|other| *other == name)
}

// The first of these steps whose outputs a step takes.
fn waits_for<'a>(step: &'a Step, open: &[&str]) -> Option<&'a str> {
    for (_, input) in step.inputs.as_slice() {
        for source in sources_of(Some(&input.links)) {
            let id = step_of(source);
            if has(open, id) {
                return Some(id);
            }
        }
    }
    None
}

// Goes from a step to the one that it waits for, until one comes again, and adds a line with the steps since then.
fn add_way(
    alloc: Global,
    steps: &[(Text, Step)],
    open: &[&str],
    lines: &mut Vec<String>,
) -> Result<(), AllocError> {
    let mut way: Vec<&str> = Vec::new(alloc);
    let Some(mut next) = open.first().copied() else {
        return Ok(());
    };
    for _ in 0..=STEPS_LOOKED_AT {
        if let Some(at) = way.iter().position(|id| *id == next) {
            return add_round(alloc, way.as_slice(), at, next, lines);
        }
        way.push(next)?;
        match find_in(steps, next) {
            Some(step) => next = waits_for(step, open).unwrap_or(next),
            None => return Ok(()),
        }
    }
    Ok(())
}

fn add_round(
    alloc: Global,
    way: &[&str],
    at: usize,
    last: &str,
    lines: &mut Vec<String>,
) -> Result<(), AllocError> {
    let mut words = String::from_str(alloc, "each of these steps waits for the next one:")?;
    for id in way.iter().skip(at) {
        words.push_str(format!(in alloc; " `{id}`")?.as_str())?;
    }
    words.push_str(format!(in alloc; " `{last}`")?.as_str())?;
    lines.push(words)?;
    Ok(())
}

//! What is said of a link that is wrong: what it names, and what there is.

use crate::link_places::{Site, has_input, names_of, outputs_of, site_at, workflow_at};
use crate::link_types::add_disjoint;
use crate::lost_sources::add_lost;
use crate::near_names::{choice_words, nearest};
use crate::step_circle::add_circle;
use document_links::Process;
use plain_data::Text;
use run_facts::{find_in, input_type};
use std::alloc::{AllocError, Global};
use workflow_check::{LinkCheckFault, LinkRule};

const METHODS: &str =
    "`scatterMethod` has to be `dotproduct` (the first items together, then the second ones, of lists of one length), `flat_crossproduct` (each item with each, in one list) or `nested_crossproduct` (the same, in lists of lists)";

/// Returns lines on a fault of the links of a process: what is named at its place, and what could be.
pub fn link_lines(
    alloc: Global,
    process: &Process,
    fault: &LinkCheckFault,
) -> Result<Vec<String>, AllocError> {
    let mut lines = Vec::new(alloc);
    let place = fault.place.as_slice();
    match fault.rule {
        LinkRule::NoSource => add_lost(alloc, process, place, &mut lines)?,
        LinkRule::Disjoint => add_disjoint(alloc, process, place, &mut lines)?,
        LinkRule::Cycle => add_circle(alloc, workflow_at(process, place), &mut lines)?,
        LinkRule::MethodMissing => lines.push(String::from_str(alloc, METHODS)?)?,
        LinkRule::Unconnected | LinkRule::ScatterNotInput | LinkRule::OutputUnknown => {
            add_at_step(alloc, process, fault, &mut lines)?;
        }
    }
    Ok(lines)
}

fn add_at_step(
    alloc: Global,
    process: &Process,
    fault: &LinkCheckFault,
    lines: &mut Vec<String>,
) -> Result<(), AllocError> {
    let Some((name, steps)) = fault.place.as_slice().split_last() else {
        return Ok(());
    };
    let Some(site) = site_at(process, steps) else {
        return Ok(());
    };
    match fault.rule {
        LinkRule::Unconnected => add_unlinked(alloc, site, name, lines),
        LinkRule::ScatterNotInput => {
            let entries = names_of(alloc, site.step.inputs.as_slice())?;
            let more = choice_words(alloc, name.as_str(), entries.as_slice())?;
            let id = site.id;
            lines.push(format!(in alloc; "`in` of step `{id}` has no `{name}`; {more}")?)?;
            Ok(())
        }
        _ => {
            let outputs = outputs_of(alloc, &site.step.process)?;
            let more = choice_words(alloc, name.as_str(), outputs.as_slice())?;
            let id = site.id;
            lines.push(format!(in alloc;
                "the process of step `{id}` has no output `{name}`; {more}"
            )?)?;
            Ok(())
        }
    }
}

fn add_unlinked(
    alloc: Global,
    site: Site<'_>,
    name: &Text,
    lines: &mut Vec<String>,
) -> Result<(), AllocError> {
    let Some(kind) = input_type(alloc, &site.step.process, name.as_str())? else {
        return Ok(());
    };
    let id = site.id;
    let has = match find_in(site.step.inputs.as_slice(), name.as_str()) {
        Some(_) => "has neither a source nor a default for it",
        None => "has no entry for it",
    };
    lines.push(format!(in alloc;
        "input `{name}` of the process of step `{id}` has to be {kind} and has no default, and `in` of the step {has}"
    )?)?;
    add_misnamed(alloc, site, name, lines)?;
    if find_in(site.workflow.inputs.as_slice(), name.as_str()).is_some() {
        lines.push(format!(in alloc;
            "`\"{name}\": \"{name}\"` in `in` would link it to that input of the workflow"
        )?)?;
    }
    Ok(())
}

// Adds a line on an entry of the step that its process has no input for, and that may be meant for this one.
fn add_misnamed(
    alloc: Global,
    site: Site<'_>,
    name: &Text,
    lines: &mut Vec<String>,
) -> Result<(), AllocError> {
    let mut others = Vec::new(alloc);
    for (entry, _) in site.step.inputs.as_slice() {
        if !has_input(&site.step.process, entry) {
            others.push(entry.as_str())?;
        }
    }
    if let Some(near) = nearest(alloc, name.as_str(), others.as_slice())? {
        lines.push(format!(in alloc;
            "`{near}` of `in` is no input of the process: is `{name}` meant?"
        )?)?;
    }
    Ok(())
}

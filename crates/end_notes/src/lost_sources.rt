//! What is said of a source that is not there.

use crate::link_places::{
    entry_links, names_of, output_links, outputs_of, site_at, sources_of, step_of, texts_of,
    workflow_at, written,
};
use crate::near_names::{choice_words, names_words};
use cwl_process::{Links, Source};
use document_links::{Process, Step, Workflow};
use plain_data::Text;
use run_facts::find_in;
use std::alloc::{AllocError, Global};

// A place is that of an output of a workflow, or of an input of a step.
pub(crate) fn add_lost(
    alloc: Global,
    process: &Process,
    place: &[Text],
    lines: &mut Vec<String>,
) -> Result<(), AllocError> {
    let Some((name, steps)) = place.split_last() else {
        return Ok(());
    };
    if let Some(workflow) = workflow_at(process, steps) {
        add_lost_of(alloc, workflow, output_links(workflow, name), lines)?;
    }
    if lines.is_empty() {
        if let Some(site) = site_at(process, steps) {
            return add_lost_of(alloc, site.workflow, entry_links(site.step, name), lines);
        }
    }
    Ok(())
}

// Adds a line on the first source that is not there.
fn add_lost_of(
    alloc: Global,
    workflow: &Workflow,
    links: Option<&Links>,
    lines: &mut Vec<String>,
) -> Result<(), AllocError> {
    for source in sources_of(links) {
        if let Some(words) = lost_words(alloc, workflow, source)? {
            lines.push(words)?;
            return Ok(());
        }
    }
    Ok(())
}

// What is wrong with a source, if it is not there.
fn lost_words(
    alloc: Global,
    workflow: &Workflow,
    source: &Source,
) -> Result<Option<String>, AllocError> {
    let name = source.name.as_str();
    match &source.step {
        None if find_in(workflow.inputs.as_slice(), name).is_some() => Ok(None),
        None => Ok(Some(lost_input_words(alloc, workflow, name)?)),
        Some(id) => match find_in(workflow.steps.as_slice(), id.as_str()) {
            None => Ok(Some(lost_step_words(alloc, workflow, source)?)),
            Some(step) if lists(step, name) => Ok(None),
            Some(step) => Ok(Some(lost_output_words(alloc, step, source)?)),
        },
    }
}

fn lists(step: &Step, name: &str) -> bool {
    step.outputs
        .as_slice()
        .iter()
        .any(|output| output.as_str() == name)
}

fn lost_input_words(alloc: Global, workflow: &Workflow, name: &str) -> Result<String, AllocError> {
    if let Some(step) = find_in(workflow.steps.as_slice(), name) {
        let outputs = texts_of(alloc, step.outputs.as_slice())?;
        let more = names_words(alloc, outputs.as_slice())?;
        return format!(in alloc;
            "the source `{name}` is a step, and has to be one of its outputs, as STEP/OUTPUT; {more}"
        );
    }
    let inputs = names_of(alloc, workflow.inputs.as_slice())?;
    let more = choice_words(alloc, name, inputs.as_slice())?;
    format!(in alloc; "the source `{name}` is no input of the workflow; {more}")
}

fn lost_step_words(
    alloc: Global,
    workflow: &Workflow,
    source: &Source,
) -> Result<String, AllocError> {
    let written = written(alloc, source)?;
    let id = step_of(source);
    let steps = names_of(alloc, workflow.steps.as_slice())?;
    let more = choice_words(alloc, id, steps.as_slice())?;
    format!(in alloc; "the source `{written}` names a step `{id}` that is not there; {more}")
}

fn lost_output_words(alloc: Global, step: &Step, source: &Source) -> Result<String, AllocError> {
    let written = written(alloc, source)?;
    let (id, name) = (step_of(source), source.name.as_str());
    let has = outputs_of(alloc, &step.process)?;
    if has.iter().any(|other| *other == name) {
        return format!(in alloc;
            "the source `{written}` is an output of the step's process, and `out` of step `{id}` has to list it too"
        );
    }
    let listed = texts_of(alloc, step.outputs.as_slice())?;
    let more = choice_words(alloc, name, listed.as_slice())?;
    format!(in alloc; "the source `{written}` names an output that step `{id}` has not; {more}")
}

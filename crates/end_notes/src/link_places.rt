//! Places of links: the step, the entry and the sources that a place names.

use crate::tool_texts::inner;
use cwl_process::{Links, Source};
use document_links::{Process, Step, Workflow};
use plain_data::Text;
use run_facts::find_in;
use std::alloc::{AllocError, Global};

/// A step with its id, and the workflow that it is in.
#[derive(Clone, Copy, Drop)]
pub(crate) struct Site<'a> {
    pub workflow: &'a Workflow,
    pub id: &'a Text,
    pub step: &'a Step,
}

// The workflow that these steps lead to.
pub(crate) fn workflow_at<'a>(process: &'a Process, steps: &[Text]) -> Option<&'a Workflow> {
    let mut inside = process;
    for id in steps {
        inside = &inner(inside, id.as_str())?.process;
    }
    match inside {
        Process::Tool(_) => None,
        Process::Workflow(workflow) => Some(workflow),
    }
}

// The last of these steps.
pub(crate) fn site_at<'a>(process: &'a Process, steps: &'a [Text]) -> Option<Site<'a>> {
    let (id, around) = steps.split_last()?;
    let workflow = workflow_at(process, around)?;
    let step = find_in(workflow.steps.as_slice(), id.as_str())?;
    Some(Site { workflow, id, step })
}

pub(crate) fn output_links<'a>(workflow: &'a Workflow, name: &Text) -> Option<&'a Links> {
    Some(&find_in(workflow.outputs.as_slice(), name.as_str())?.links)
}

pub(crate) fn entry_links<'a>(step: &'a Step, name: &Text) -> Option<&'a Links> {
    Some(&find_in(step.inputs.as_slice(), name.as_str())?.links)
}

pub(crate) fn sources_of(links: Option<&Links>) -> &[Source] {
    match links {
        Some(links) => match &links.sources {
            Some(sources) => sources.as_slice(),
            None => &[],
        },
        None => &[],
    }
}

pub(crate) fn step_of(source: &Source) -> &str {
    match &source.step {
        Some(id) => id.as_str(),
        None => "",
    }
}

pub(crate) fn written(alloc: Global, source: &Source) -> Result<String, AllocError> {
    let name = &source.name;
    match &source.step {
        Some(id) => format!(in alloc; "{id}/{name}"),
        None => String::from_str(alloc, name.as_str()),
    }
}

pub(crate) fn names_of<T>(alloc: Global, entries: &[(Text, T)]) -> Result<Vec<&str>, AllocError> {
    let mut names = Vec::new(alloc);
    for (name, _) in entries {
        names.push(name.as_str())?;
    }
    Ok(names)
}

pub(crate) fn texts_of(alloc: Global, texts: &[Text]) -> Result<Vec<&str>, AllocError> {
    let mut names = Vec::new(alloc);
    for text in texts {
        names.push(text.as_str())?;
    }
    Ok(names)
}

pub(crate) fn outputs_of(alloc: Global, process: &Process) -> Result<Vec<&str>, AllocError> {
    match process {
        Process::Tool(tool) => names_of(alloc, tool.outputs.as_slice()),
        Process::Workflow(workflow) => names_of(alloc, workflow.outputs.as_slice()),
    }
}

pub(crate) fn has_input(process: &Process, name: &Text) -> bool {
    match process {
        Process::Tool(tool) => find_in(tool.inputs.as_slice(), name.as_str()).is_some(),
        Process::Workflow(workflow) => {
            find_in(workflow.inputs.as_slice(), name.as_str()).is_some()
        }
    }
}

//! What is said of a link whose two sides have no value in common.

use crate::link_places::{
    Site, entry_links, output_links, site_at, sources_of, workflow_at, written,
};
use cwl_process::{Links, OutputType, Source};
use document_links::{Process, Step, Workflow};
use plain_data::Text;
use run_facts::{find_in, input_type, type_words};
use scatter_shape::Method;
use std::alloc::{AllocError, Global};

pub(crate) fn add_disjoint(
    alloc: Global,
    process: &Process,
    place: &[Text],
    lines: &mut Vec<String>,
) -> Result<(), AllocError> {
    let Some((name, steps)) = place.split_last() else {
        return Ok(());
    };
    let output = match workflow_at(process, steps) {
        Some(workflow) => output_links(workflow, name),
        None => None,
    };
    let site = match site_at(process, steps) {
        Some(site) if entry_links(site.step, name).is_some() => Some(site),
        _ => None,
    };
    match (output, site) {
        (Some(links), None) => match workflow_at(process, steps) {
            Some(workflow) => add_output_types(alloc, workflow, name, links, lines),
            None => Ok(()),
        },
        (None, Some(site)) => add_entry_types(alloc, site, name, lines),
        // an inner workflow has an output of the name of its step's input: which of them it is can't be told
        _ => Ok(()),
    }
}

fn add_output_types(
    alloc: Global,
    workflow: &Workflow,
    name: &Text,
    links: &Links,
    lines: &mut Vec<String>,
) -> Result<(), AllocError> {
    let Some(output) = find_in(workflow.outputs.as_slice(), name.as_str()) else {
        return Ok(());
    };
    add_given(alloc, workflow, sources_of(Some(links)), lines)?;
    let kind = type_words(alloc, &output.kind)?;
    lines.push(format!(in alloc; "output `{name}` of the workflow has the type {kind}")?)?;
    Ok(())
}

fn add_entry_types(
    alloc: Global,
    site: Site<'_>,
    name: &Text,
    lines: &mut Vec<String>,
) -> Result<(), AllocError> {
    let Some(kind) = input_type(alloc, &site.step.process, name.as_str())? else {
        return Ok(());
    };
    let sources = sources_of(entry_links(site.step, name));
    add_given(alloc, site.workflow, sources, lines)?;
    add_wanted(alloc, site, name, kind.as_str(), lines)?;
    if let [source] = sources {
        return add_remedy(alloc, site, name, source, kind.as_str(), lines);
    }
    Ok(())
}

fn add_wanted(
    alloc: Global,
    site: Site<'_>,
    name: &Text,
    kind: &str,
    lines: &mut Vec<String>,
) -> Result<(), AllocError> {
    let id = site.id;
    let words = if scatters(site.step, name) {
        format!(in alloc; "step `{id}` scatters over `{name}`, which has to be a list of {kind}")?
    } else {
        format!(in alloc; "`{name}` of step `{id}` has to be {kind}")?
    };
    lines.push(words)?;
    Ok(())
}

fn scatters(step: &Step, name: &Text) -> bool {
    step.scatter
        .as_slice()
        .iter()
        .any(|other| other.as_str() == name.as_str())
}

// Adds a line on what each source gives.
fn add_given(
    alloc: Global,
    workflow: &Workflow,
    sources: &[Source],
    lines: &mut Vec<String>,
) -> Result<(), AllocError> {
    for source in sources {
        if let Some(kind) = given_words(alloc, workflow, source)? {
            let written = written(alloc, source)?;
            lines.push(format!(in alloc; "the source `{written}` gives {kind}")?)?;
        }
    }
    Ok(())
}

// The type of what a source gives.
fn given_words(
    alloc: Global,
    workflow: &Workflow,
    source: &Source,
) -> Result<Option<String>, AllocError> {
    let name = source.name.as_str();
    match &source.step {
        None => match find_in(workflow.inputs.as_slice(), name) {
            Some(input) => Ok(Some(type_words(alloc, &input.kind)?)),
            None => Ok(None),
        },
        Some(id) => match find_in(workflow.steps.as_slice(), id.as_str()) {
            Some(step) => step_words(alloc, step, name),
            None => Ok(None),
        },
    }
}

fn step_words(alloc: Global, step: &Step, name: &str) -> Result<Option<String>, AllocError> {
    let Some(kind) = output_type(alloc, &step.process, name)? else {
        return Ok(None);
    };
    let lists = match step.method {
        Some(Method::NestedCrossproduct) => step.scatter.len(),
        _ if step.scatter.is_empty() => 0,
        _ => 1,
    };
    let mut words = String::new(alloc);
    for _ in 0..lists {
        words.push_str("a list of ")?;
    }
    words.push_str(kind.as_str())?;
    if step.when.is_some() {
        words.push_str(" or null")?;
    }
    Ok(Some(words))
}

fn output_type(alloc: Global, process: &Process, name: &str) -> Result<Option<String>, AllocError> {
    match process {
        Process::Tool(tool) => match find_in(tool.outputs.as_slice(), name) {
            Some(output) => Ok(Some(tool_output_words(alloc, &output.kind)?)),
            None => Ok(None),
        },
        Process::Workflow(workflow) => match find_in(workflow.outputs.as_slice(), name) {
            Some(output) => Ok(Some(type_words(alloc, &output.kind)?)),
            None => Ok(None),
        },
    }
}

fn tool_output_words(alloc: Global, kind: &OutputType) -> Result<String, AllocError> {
    match kind {
        OutputType::Members(members) => type_words(alloc, members),
        OutputType::Stdout | OutputType::Stderr => String::from_str(alloc, "File"),
    }
}

// Adds what would do if one side is a list of what the other one is.
fn add_remedy(
    alloc: Global,
    site: Site<'_>,
    name: &Text,
    source: &Source,
    kind: &str,
    lines: &mut Vec<String>,
) -> Result<(), AllocError> {
    let Some(given) = given_words(alloc, site.workflow, source)? else {
        return Ok(());
    };
    let (id, written) = (site.id, written(alloc, source)?);
    if scatters(site.step, name) {
        if has_member(kind, given.as_str()) {
            lines.push(format!(in alloc;
                "without `{name}` in `scatter` step `{id}` gets the one value"
            )?)?;
        }
    } else if is_list_of(given.as_str(), kind) {
        lines.push(format!(in alloc;
            "`\"scatter\": \"{name}\"` would run step `{id}` once for each item"
        )?)?;
    } else if is_list_of(kind, given.as_str()) {
        lines.push(format!(in alloc;
            "`\"{name}\": {{\"source\": \"{written}\", \"linkMerge\": \"merge_nested\"}}` would give a list of the one value"
        )?)?;
    }
    Ok(())
}

// Whether a type in words is a list whose items are of one of the members of another.
fn is_list_of(list: &str, items: &str) -> bool {
    match list.strip_prefix("a list of ") {
        Some(inside) => has_member(items, inside),
        None => false,
    }
}

fn has_member(members: &str, kind: &str) -> bool {
    members.split(" or ").any(|member| member == kind)
}

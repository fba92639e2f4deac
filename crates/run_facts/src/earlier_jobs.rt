//! What a record has of the tools of a workflow's steps.
ghost use Rattle.std.specs.Prelude.{◌≡◌, ◌++◌, ◌∷◌, [], IfOk, OnOk, zip};
ghost use Rattle.std.specs.List.{list_any};
ghost use Rattle.std.specs.Option.{option_to_list};
ghost use Rattle.run_facts.specs.EarlierJobs as spec;
ghost use Rattle.run_facts.specs.NearestJob as nearest;
ghost use Rattle.run_facts.specs.ToolAt.{step_tool};

use crate::key_parts::{KeyParts, fields_of};
use crate::nearest_job::{is_changed, is_gone};
use crate::tools::step_tool;
use cwl_process::Tool;
use document_links::Process;
use plain_data::{Keyed, Text};
use std::alloc::{AllocError, Global};

/// What a record has of the tool of a step.
#[derive(Drop)]
pub struct Earlier {
    pub step: Text,
    /// How many jobs of this tool there are.
    pub jobs: usize,
    /// What they took on average.
    pub mean: u64,
}

/// Of each of these steps what a record has of its tool, if that has jobs in it. Each job is looked at once for each step.
pub fn earlier_of(
    alloc: Global,
    process: &Process,
    steps: &[Text],
    jobs: &[KeyParts],
    costs: &[u64],
) -> Result<Vec<Earlier>, AllocError>
    ensures { IfOk result (λ found. spec.AreEarlier process.now (zip jobs.now costs.now) steps.now
        found.items) }
{
    let mut found = Vec::new(alloc);
    for step in steps {
        let own = of_step(alloc, process, step, jobs, costs)?;
        add_found(&mut found, own)?;
    }
    Ok(found)
}

fn add_found(found: &mut Vec<Earlier>, own: Option<Earlier>) -> Result<(), AllocError>
    ensures { OnOk result (found.new.items ≡ found.old.items ++ option_to_list own) }
{
    if let Some(own) = own {
        found.push(own)?;
    }
    Ok(())
}

fn of_step(
    alloc: Global,
    process: &Process,
    step: &Text,
    jobs: &[KeyParts],
    costs: &[u64],
) -> Result<Option<Earlier>, AllocError>
    ensures { IfOk result (spec.IsOf (zip jobs.now costs.now) step.now
        (step_tool process.now step.now)) }
{
    match step_tool(process, step.as_str()) {
        Some(tool) => of_tool(alloc, tool, step, jobs, costs),
        None => Ok(None),
    }
}

fn of_tool(
    alloc: Global,
    tool: &Tool,
    step: &Text,
    jobs: &[KeyParts],
    costs: &[u64],
) -> Result<Option<Earlier>, AllocError>
    ensures { IfOk result (spec.IsOfTool (zip jobs.now costs.now) step.now tool.now.written) }
{
    match fields_of(alloc, tool.written.as_str())? {
        Some(fields) => with_fields(alloc, &fields, step, jobs, costs),
        None => Ok(None),
    }
}

fn with_fields(
    alloc: Global,
    fields: &Keyed<Text>,
    step: &Text,
    jobs: &[KeyParts],
    costs: &[u64],
) -> Result<Option<Earlier>, AllocError>
    ensures { IfOk result (λ found. found ≡ spec.averaged step.now
        (spec.durations_of fields.now (zip jobs.now costs.now))) }
{
    let own = durations_of(alloc, fields, jobs, costs)?;
    averaged(alloc, step, own.as_slice())
}

// What each job of the tool with these fields took.
fn durations_of(
    alloc: Global,
    fields: &Keyed<Text>,
    jobs: &[KeyParts],
    costs: &[u64],
) -> Result<Vec<u64>, AllocError>
    ensures { IfOk result (λ own. own.items
        ≡ spec.durations_of fields.now (zip jobs.now costs.now)) }
{
    let mut own = Vec::new(alloc);
    for number in 0..jobs.len().min(costs.len()) {
        add_cost(&mut own, fields, &jobs[number], costs[number])?;
    }
    Ok(own)
}

fn add_cost(
    own: &mut Vec<u64>,
    fields: &Keyed<Text>,
    job: &KeyParts,
    cost: u64,
) -> Result<(), AllocError>
    ensures { OnOk result (own.new.items ≡ own.old.items
        ++ spec.durations_of fields.now ((job.now, cost) ∷ [])) }
{
    if !differ(fields, &job.tool) {
        own.push(cost)?;
    }
    Ok(())
}

// Whether two tools have not the same fields.
fn differ(fields: &Keyed<Text>, others: &Keyed<Text>) -> bool
    ensures { result ≡ spec.differ fields.now others.now }
{
    have_changed(fields.as_slice(), others) || are_gone(others.as_slice(), fields)
}

fn have_changed(entries: &[(Text, Text)], others: &Keyed<Text>) -> bool
    ensures { result ≡ list_any (nearest.is_changed others.now) entries.now }
{
    entries.iter().any(|entry| is_changed(entry, others))
}

fn are_gone(entries: &[(Text, Text)], fields: &Keyed<Text>) -> bool
    ensures { result ≡ list_any (nearest.is_gone fields.now) entries.now }
{
    entries.iter().any(|entry| is_gone(entry, fields))
}

// How many jobs took these costs, and what they took on average.
fn averaged(alloc: Global, step: &Text, costs: &[u64]) -> Result<Option<Earlier>, AllocError>
    ensures { IfOk result (λ found. found ≡ spec.averaged step.now costs.now) }
{
    match costs {
        [] => Ok(None),
        [_, ..] => {
            Ok(Some(Earlier {
                step: step.copied(alloc)?,
                jobs: costs.len(),
                mean: total(costs) / costs.len() as u64,
            }))
        }
    }
}

// What they took in all, held to the greatest number.
fn total(costs: &[u64]) -> u64
    ensures { result ≡ spec.total costs.now }
{
    let mut total: u64 = 0;
    for cost in costs {
        total = total.saturating_add(*cost);
    }
    total
}

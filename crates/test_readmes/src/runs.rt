//! Samples on runs: the host, the plan of a run, what can be said of it.
ghost use Rattle.std.specs.Prelude.{◌≡◌, All, length};
ghost use Rattle.job_graph.specs.PresentJobGraph.{AreWithin};

use command_line::Launch;
use cwl_types::MemberType;
use cwl_value::Value;
use document_links::Process;
use job_graph::{Costs, UnfoldError, Unfolding};
use job_rows::Row;
use param_refs::Segment;
use plain_data::{Items, Keyed, Text};
use proc_host::{Entry, Host, HostError};
use run_facts::{
    KeyParts, Known, can_hold_files, first_misfit, launch_with, listing_of, look_of, nearest,
    parts_of, reach_of, tool_at, trouble_of, type_words,
};
use run_plan::{Rates, Standing, costs_of, plan_for, plan_on};
use staging::StagePlan;
use std::alloc::{AllocError, Global};

/// A sample of `proc_host`.
pub fn child_of<H: Host>(
    host: &mut H,
    path: &Text,
    plan: &StagePlan,
    launch: &Launch,
) -> Result<(), HostError> {
    let measure = host.measure(path)?; // staging's Measure: nothing, a file or a folder
    host.stage(plan, 1)?; // plan: staging's StagePlan
    let ticket = host.start(launch)?; // launch: command_line's Launch
    let ended = host.collect(); // Ok: its ticket, code and millis
    host.close(ticket); // a Ticket has to be spent: it can't be dropped
    Ok(())
}

/// A sample of `proc_host`.
pub fn left_behind<H: Host>(
    host: &mut H,
    folder: &Text,
    path: &Text,
    key: &Text,
    plan: &StagePlan,
) -> Result<(), HostError> {
    let found = host.scan(folder)?;
    let bytes = host.head(path, 65_536)?; // at most so many
    host.store(key, folder, &found)?; // archives what was found in a folder, under a key
    let there = host.fetch(key, 1, &found)?; // those of them that are archived under the key, as they are there
    host.deliver(plan)?; // copies outputs to where they are wanted
    host.discard(key)?; // removes what is archived under a key
    Ok(())
}

/// A sample of `run_plan`.
pub fn costs_of_job(row: &Row) {
    let rates = Rates::new(1, 100_000);
    let standing = Standing {
        held: false,
        archived: true,
        row: Some(row),
    };
    let costs = costs_of(standing, &rates); // of a known job
}

/// A sample of `run_plan`.
pub fn planned_twice(
    alloc: Global,
    unfolding: &mut Unfolding<'_>,
    costs: &[Costs],
) -> Result<(), UnfoldError>
    requires each { length costs.now ≡ length unfolding.old.known }
    requires within { All AreWithin costs.now }
{
    let first = plan_for(alloc, unfolding, costs, None)?; // a first plan, from nothing: made() is its graph, plan, charges and cost
    let mut last = Some(first);
    let next = plan_on(alloc, unfolding, costs, &mut last)?; // the plan at the next planning point; the last one is taken
    Ok(())
}

/// A sample of `run_facts`.
pub fn facts_of_process(process: &Process, inputs: &Keyed<Value>, place: &[cwl_value::Segment]) {
    let can_hold = can_hold_files(process); // whether an output can be or hold a File or Directory, by its type
    let misfit = first_misfit(process, inputs); // the first input whose value is not of its type
    let tool = tool_at(process, place); // the tool of the job at a place
}

/// A sample of `run_facts`.
pub fn facts_of_log(log: &[Entry], ticket: u64, folder: &str) {
    let launch = launch_with(log, ticket); // the launch of the child that has a ticket; end_of: how it ended
    let listing = listing_of(log, folder); // what was in a folder when it was listed; measure_of: what is at a path
}

/// A sample of `run_facts`.
pub fn facts_of_texts(mark: &str, own: &str, stat: Option<&str>, bytes: &[u8]) {
    let trouble = trouble_of(mark, own, stat); // which run made a work folder, and whether it still goes on
    let look = look_of(bytes); // what bytes look like that are no JSON: YAML, a script, nothing ..
}

/// A sample of `run_facts`.
pub fn facts_of_keys(
    alloc: Global,
    key: &str,
    own: &KeyParts,
    rows: &[KeyParts],
) -> Result<(), AllocError> {
    let parts = parts_of(alloc, key)?; // the environment, the inputs and the tool of a key, as JSON texts
    let near = nearest(alloc, own, rows)?; // how a job differs from the nearest of these: Near::Inputs(changes), Near::Tool(changes) ..
    Ok(())
}

/// A sample of `run_facts`.
pub fn facts_of_types(
    alloc: Global,
    types: &Items<MemberType>,
    segments: &[Segment],
) -> Result<(), AllocError> {
    let reach = reach_of(Known::Types(types), segments, true); // whether a value of a type has what a reference leads to: always, never, or some have it
    let words = type_words(alloc, types)?; // a type as a document writes it; kind_of: what a value is
    Ok(())
}

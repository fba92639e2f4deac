//! Why a plan treats each job as it does, in words.
ghost use Rattle.std.specs.Prelude.{◌≡◌, ◌<◌, ◌++◌, length, IfOk, OnOk, string_bytes};
ghost use Rattle.plan_checker.specs.Graph.{vertex};
ghost use Rattle.plan_checker.specs.Plan.{mark};
ghost use Rattle.plan_words.specs.Reasons.{alternative, computed_words, costing, has_no_readers, job_start, known_of, loaded_words, pruned_words, readers_words, reason, reasons, rest_of, why_computed, why_not_loaded};

use crate::parts::{job_at, mark_at, place_at};
use crate::readers::readers_of;
use plain_data::Text;
use plan_checker::{Graph, Mark, Plan, Vertex};
use std::alloc::{AllocError, Global};

/// What a run knows of a job before it plans.
#[derive(Clone, Copy, Debug, PartialEq, Eq)]
pub enum Known {
    /// Its tool does not allow reuse.
    NotReusable,
    /// The record has no row of it.
    NotRecorded,
    /// The record has a row of it, and its files are not archived.
    NotArchived,
    /// The record has a row of it, which says that its files are archived.
    Archived,
}

/// Says of each job why it is loaded, computed or not needed: a line `NUMBER PLACE is ..` for each, with costs in milliseconds, and behind
/// that of a job that is computed the lines on what is near to it.
pub fn plan_reasons(
    alloc: Global,
    graph: &Graph,
    plan: &Plan,
    known: &[Known],
    near: &[Text],
    places: &[Text],
) -> Result<Text, AllocError>
    requires marks { length plan.now.marks ≡ length graph.now }
    requires known { length known.now ≡ length graph.now }
    requires near { length near.now ≡ length graph.now }
    requires places { length places.now ≡ length graph.now }
    ensures { IfOk result (λ text. text ≡ reasons graph.now plan.now.marks known.now near.now
        places.now) }
{
    let loaded = readers_of(alloc, graph, plan, Mark::Load)?;
    let pruned = readers_of(alloc, graph, plan, Mark::Prune)?;
    let (loaded, pruned) = (loaded.as_slice(), pruned.as_slice());
    let mut text = String::new(alloc);
    for number in 0..places.len() {
        push_start(&mut text, places, number)?;
        let why = known_at(known, number);
        let lines = place_at(near, number);
        push_reason(
            &mut text,
            graph,
            plan,
            number,
            why,
            lines,
            loaded[number],
            pruned[number],
        )?;
    }
    Ok(Text::from_string(text))
}

fn known_at(known: &[Known], number: usize) -> Known
    requires { number < length known.now }
    ensures { result ≡ known_of known.now number }
{
    known[number]
}

// What the line of a job begins with.
fn push_start(text: &mut String, places: &[Text], number: usize) -> Result<(), AllocError>
    requires { number < length places.now }
    ensures { OnOk result (string_bytes text.new ≡ string_bytes text.old
        ++ job_start places.now number) }
{
    let place = place_at(places, number);
    write!(text, "{number} {place} is ")
}

// The rest of the line, with how many of its readers are loaded, and how many are not needed.
fn push_reason(
    text: &mut String,
    graph: &Graph,
    plan: &Plan,
    number: usize,
    known: Known,
    near: &Text,
    loaded: usize,
    pruned: usize,
) -> Result<(), AllocError>
    requires job { number < length graph.now }
    requires mark { number < length plan.now.marks }
    ensures { OnOk result (string_bytes text.new ≡ string_bytes text.old
        ++ reason (vertex graph.now number) (mark plan.now.marks number) known near.now loaded
        pruned) }
{
    let job = job_at(graph, number);
    match mark_at(plan, number) {
        Mark::Load => push_loaded(text, job),
        Mark::Compute => push_computed(text, job, known, near),
        Mark::Prune => push_pruned(text, loaded, pruned),
    }
}

fn push_loaded(text: &mut String, job: &Vertex) -> Result<(), AllocError>
    ensures { OnOk result (string_bytes text.new ≡ string_bytes text.old ++ loaded_words job.now) }
{
    let fetch = job.load.unwrap_or(0);
    push_cost(text, "loaded", fetch)?;
    push_alternative(text, job.compute, job.compute < fetch)
}

fn push_computed(
    text: &mut String,
    job: &Vertex,
    known: Known,
    near: &Text,
) -> Result<(), AllocError>
    ensures { OnOk result (string_bytes text.new ≡ string_bytes text.old
        ++ computed_words job.now known near.now) }
{
    push_cost(text, "computed", job.compute)?;
    push_why(text, job.load, known)?;
    text.push_str(near.as_str())
}

// What is done with a job, and what it costs.
fn push_cost(text: &mut String, what: &str, cost: u64) -> Result<(), AllocError>
    ensures { OnOk result (string_bytes text.new ≡ string_bytes text.old ++ costing what.now cost) }
{
    write!(text, "{what} ({cost} ms): ")
}

// What it costs to compute a job that is loaded.
fn push_alternative(text: &mut String, compute: u64, is_less: bool) -> Result<(), AllocError>
    ensures { OnOk result (string_bytes text.new ≡ string_bytes text.old
        ++ alternative compute is_less) }
{
    let rest = rest_of(is_less);
    write!(text, "computing it takes {compute} ms{rest}")
}

fn rest_of(is_less: bool) -> &'static str
    ensures { result.now ≡ rest_of is_less }
{
    if is_less {
        ", and needs the files that it reads\n"
    } else {
        "\n"
    }
}

fn push_why(text: &mut String, load: Option<u64>, known: Known) -> Result<(), AllocError>
    ensures { OnOk result (string_bytes text.new ≡ string_bytes text.old
        ++ why_not_loaded load known) }
{
    match load {
        Some(fetch) => write!(text, "fetching its files takes {fetch} ms\n"),
        None => text.push_str(why_computed(known)),
    }
}

fn why_computed(known: Known) -> &'static str
    ensures { result.now ≡ why_computed known }
{
    match known {
        Known::NotReusable => "its tool does not allow reuse\n",
        Known::NotRecorded => "nothing is recorded of it\n",
        Known::NotArchived => "its files are not archived\n",
        Known::Archived => "its files are archived, but this run has no archive\n",
    }
}

fn push_pruned(text: &mut String, loaded: usize, pruned: usize) -> Result<(), AllocError>
    ensures { OnOk result (string_bytes text.new ≡ string_bytes text.old
        ++ pruned_words loaded pruned) }
{
    text.push_str("not needed: no output has its files, and ")?;
    push_readers(text, loaded, pruned, has_no_readers(loaded, pruned))
}

fn has_no_readers(loaded: usize, pruned: usize) -> bool
    ensures { result ≡ has_no_readers loaded pruned }
{
    loaded == 0 && pruned == 0
}

fn push_readers(
    text: &mut String,
    loaded: usize,
    pruned: usize,
    are_none: bool,
) -> Result<(), AllocError>
    ensures { OnOk result (string_bytes text.new ≡ string_bytes text.old
        ++ readers_words loaded pruned are_none) }
{
    if are_none {
        text.push_str("no job reads them\n")
    } else {
        write!(
            text,
            "each job that reads them is loaded ({loaded}) or not needed ({pruned})\n"
        )
    }
}

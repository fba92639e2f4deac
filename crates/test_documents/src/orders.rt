//! Unfolds a process as its jobs end, in one order after another.
ghost use Rattle.std.specs.Prelude.{◌≡◌, ◌≤◌, All, IfOk, length};
ghost use Rattle.std.specs.Option.{ForSome};
ghost use Rattle.job_graph.specs.PresentJobGraph.{AreWithin};

use crate::arguments::fields_of;
use crate::ends::{number_of, outputs_of, place_of};
use crate::short::{put_entries, put_short_place};
use crate::unfold::put_error;
use cwl_value::Value;
use document_links::Process;
use job_graph::{Costs, KnownJob, UnfoldError, Unfolding};
use plain_data::Keyed;
use plan_checker::{Graph, MOST_COST, Vertex};
use serde_json::Value as Json;
use std::alloc::{AllocError, Global};
use test_rows::{AnswerText, Row, RowFault};

/// Of each of the row's `orders` what is known at once, and what each end adds.
pub(crate) fn of_orders(alloc: Global, row: &Row, process: &Process) -> Result<String, RowFault> {
    let inputs = fields_of(alloc, row.json("inputs")?)?;
    let orders = row.list("orders")?;
    let mut out = AnswerText::new(alloc);
    out.put("[");
    for order in orders {
        out.put_comma();
        out.put("[[");
        put_order(alloc, &mut out, process, &inputs, order);
        out.put("]]");
    }
    out.put("]");
    out.finish()
}

fn put_order(
    alloc: Global,
    out: &mut AnswerText,
    process: &Process,
    inputs: &Keyed<Value>,
    order: &Json,
) {
    match order.as_array() {
        None => out.fail(RowFault::BadArgument),
        Some(ends) => match Unfolding::new(alloc, process, inputs, Keyed::new(alloc)) {
            Ok(mut unfolding) => learn_all(alloc, out, &mut unfolding, ends.as_slice()),
            Err(error) => put_error(alloc, out, &error),
        },
    }
}

fn learn_all(alloc: Global, out: &mut AnswerText, unfolding: &mut Unfolding<'_>, ends: &[Json]) {
    let mut needed = Vec::new(alloc);
    put_more(alloc, out, unfolding, &mut needed);
    for end in ends {
        out.put("],[");
        learn(alloc, out, unfolding, end);
        put_more(alloc, out, unfolding, &mut needed);
    }
}

/// Learns one end, and puts what is wrong with it.
fn learn(alloc: Global, out: &mut AnswerText, unfolding: &mut Unfolding<'_>, end: &Json) {
    match learned(alloc, unfolding, end) {
        Ok(Ok(())) => {}
        Ok(Err(error)) => put_error(alloc, out, &error),
        Err(fault) => out.fail(fault),
    }
}

fn learned(
    alloc: Global,
    unfolding: &mut Unfolding<'_>,
    end: &Json,
) -> Result<Result<(), UnfoldError>, RowFault> {
    let number = number_of(end)?;
    let place = place_of(alloc, unfolding, number)?;
    let outputs = outputs_of(alloc, end, number)?;
    Ok(unfolding.learn(place, outputs))
}

/// Puts the jobs that have become known, the jobs of the graph that have become needed or not, where a new job is, and the
/// result where there is one. Takes which jobs were needed, and gives which are.
fn put_more(
    alloc: Global,
    out: &mut AnswerText,
    unfolding: &Unfolding<'_>,
    needed: &mut Vec<bool>,
) {
    let known = unfolding.known();
    for number in needed.len()..known.len() {
        out.put_comma();
        put_job(alloc, out, &known[number]);
    }
    match graph_of(alloc, unfolding) {
        Ok(graph) => put_needed(alloc, out, graph.vertices(), known, needed),
        Err(error) => put_error(alloc, out, &error),
    }
    if let Some(outputs) = unfolding.result() {
        out.put_comma();
        put_entries(alloc, out, outputs);
    }
}

fn put_job(alloc: Global, out: &mut AnswerText, known: &KnownJob<'_>) {
    put_short_place(alloc, out, &known.job.place);
    put_entries(alloc, out, known.job.inputs.as_slice());
    for parent in known.parents.as_slice() {
        out.put("<");
        out.put_natural(*parent as u64);
    }
}

fn graph_of(alloc: Global, unfolding: &Unfolding<'_>) -> Result<Graph, UnfoldError> {
    let costs = costs_of(alloc, unfolding.known().len())?;
    unfolding.graph(costs.as_slice())
}

/// Costs for so many jobs, other ones for each.
fn costs_of(alloc: Global, count: usize) -> Result<Vec<Costs>, AllocError>
    ensures length { IfOk result (λ costs. length costs.items ≡ count) }
    ensures within { IfOk result (λ costs. All AreWithin costs.items) }
{
    let mut costs = Vec::with_capacity(alloc, count)?;
    for number in 0..count {
        costs.push(cost_of(number as u64))?;
    }
    Ok(costs)
}

/// What the job of a number costs: every other one can be loaded.
fn cost_of(number: u64) -> Costs
    ensures { AreWithin result }
{
    Costs {
        load: load_of(number),
        compute: within(number),
    }
}

fn load_of(number: u64) -> Option<u64>
    ensures { ForSome result (λ cost. cost ≤ MOST_COST) }
{
    if number % 2 == 0 {
        Some(within(number))
    } else {
        None
    }
}

fn within(number: u64) -> u64
    ensures { (1 ≤ result) × (result ≤ MOST_COST) }
{
    number.clamp(1, MOST_COST)
}

/// Puts which jobs have become needed or not, and which are not the known job with its costs. Takes which were needed, and
/// gives which are.
fn put_needed(
    alloc: Global,
    out: &mut AnswerText,
    vertices: &[Vertex],
    known: &[KnownJob<'_>],
    needed: &mut Vec<bool>,
) {
    for number in 0..vertices.len() {
        put_vertex(out, &vertices[number], number, known, needed.as_slice());
    }
    match flags_of(alloc, vertices) {
        Ok(flags) => *needed = flags,
        Err(_refused) => out.fail(RowFault::OutOfMemory),
    }
}

fn put_vertex(
    out: &mut AnswerText,
    vertex: &Vertex,
    number: usize,
    known: &[KnownJob<'_>],
    needed: &[bool],
) {
    if !is_of(vertex, number, known) {
        put_mark(out, "!", number);
    }
    match needed.get(number) {
        Some(true) | None if !vertex.needed => put_mark(out, "-", number),
        Some(false) if vertex.needed => put_mark(out, "+", number),
        _ => {}
    }
}

/// Which are needed.
fn flags_of(alloc: Global, vertices: &[Vertex]) -> Result<Vec<bool>, AllocError> {
    let mut flags = Vec::with_capacity(alloc, vertices.len())?;
    for vertex in vertices {
        flags.push(vertex.needed)?;
    }
    Ok(flags)
}

/// Whether the vertex has the parents and the costs of the known job of this number.
fn is_of(vertex: &Vertex, number: usize, known: &[KnownJob<'_>]) -> bool {
    let costs = cost_of(number as u64);
    match known.get(number) {
        None => false,
        Some(job) => {
            vertex.parents.as_slice() == job.parents.as_slice()
                && vertex.load == costs.load
                && vertex.compute == costs.compute
        }
    }
}

fn put_mark(out: &mut AnswerText, mark: &str, number: usize) {
    out.put_comma();
    out.put(mark);
    out.put_natural(number as u64);
}

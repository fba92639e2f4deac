//! The plan of a graph. The graph is that of a certificate, whose own plan and charges are ignored.

use crate::checks::answer_of;
use crate::reads::checked_text;
use crate::texts::{Given, bad_line, certificate_of};
use flow_planner::{Phases, plan, plan_again, plan_counted};
use plan_checker::{Charges, Graph, Mark, Plan, check};
use std::alloc::{AllocError, Global};
use test_rows::{Row, RowFault};

/// The certificate of a graph's plan.
pub(crate) fn certified(alloc: Global, row: &Row) -> Result<String, RowFault> {
    let graph = graph_of(alloc, row)?;
    let (plan, charges) = planned(alloc, &graph)?;
    checked_text(alloc, &graph, &plan, &charges)
}

/// The marks of a graph's plan.
pub(crate) fn marked(alloc: Global, row: &Row) -> Result<String, RowFault> {
    let graph = graph_of(alloc, row)?;
    let (plan, _) = planned(alloc, &graph)?;
    Ok(letters(alloc, plan.marks.as_slice())?)
}

/// What a graph's plan costs, as its charges show.
pub(crate) fn cost(alloc: Global, row: &Row) -> Result<String, RowFault> {
    let graph = graph_of(alloc, row)?;
    cost_of(alloc, &graph)
}

/// What the plan of a graph costs.
fn cost_of(alloc: Global, graph: &Graph) -> Result<String, RowFault> {
    let (plan, charges) = planned(alloc, graph)?;
    Ok(answer_of(alloc, check(graph, &plan, &charges))?)
}

/// How many level graphs were built for a graph's plan.
pub(crate) fn phases(alloc: Global, row: &Row) -> Result<String, RowFault> {
    let graph = graph_of(alloc, row)?;
    let mut phases = Phases::new();
    match plan_counted(alloc, &graph, &mut phases) {
        Ok(_) => {
            let count = phases.count();
            Ok(format!(in alloc; "{count}")?)
        }
        Err(_) => Err(RowFault::OutOfMemory),
    }
}

/// The certificate of a graph's plan that was found from the charges of the certificate that is given for it.
pub(crate) fn again(alloc: Global, row: &Row) -> Result<String, RowFault> {
    match certificate_of(alloc, row)? {
        Given::Certificate(graph, _, last) => found_again(alloc, &graph, &last),
        Given::BadLine(line) => bad_line(alloc, line),
    }
}

/// The certificate of a graph's plan that was found from these charges.
fn found_again(alloc: Global, graph: &Graph, last: &Charges) -> Result<String, RowFault> {
    match plan_again(alloc, graph, last) {
        Ok((plan, charges)) => checked_text(alloc, graph, &plan, &charges),
        Err(_) => Err(RowFault::OutOfMemory),
    }
}

/// The graph of a row.
fn graph_of(alloc: Global, row: &Row) -> Result<Graph, RowFault> {
    match certificate_of(alloc, row)? {
        Given::Certificate(graph, _, _) => Ok(graph),
        Given::BadLine(_) => Err(RowFault::BadArgument),
    }
}

/// Plans a graph.
fn planned(alloc: Global, graph: &Graph) -> Result<(Plan, Charges), RowFault> {
    match plan(alloc, graph) {
        Ok(made) => Ok(made),
        Err(_) => Err(RowFault::OutOfMemory),
    }
}

/// A letter for each mark.
fn letters(alloc: Global, marks: &[Mark]) -> Result<String, AllocError> {
    let mut text = String::new(alloc);
    for mark in marks {
        text.push_str(match mark {
            Mark::Load => "L",
            Mark::Compute => "C",
            Mark::Prune => "P",
        })?;
    }
    Ok(text)
}

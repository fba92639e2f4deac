//! The check of a certificate.

use crate::texts::{Given, bad_line, certificate_in, certificate_of};
use plan_checker::{Broken, Graph, Plan, check};
use std::alloc::{AllocError, Global};
use test_rows::{Row, RowFault};

/// What the check of a row's certificate says: the cost, or the first rule that is broken.
pub(crate) fn checked(alloc: Global, row: &Row) -> Result<String, RowFault> {
    match certificate_of(alloc, row)? {
        Given::Certificate(graph, plan, charges) => {
            Ok(answer_of(alloc, check(&graph, &plan, &charges))?)
        }
        Given::BadLine(line) => bad_line(alloc, line),
    }
}

/// What the check says of the graph of one text, the plan of another and the charges of a third.
pub(crate) fn checked_parts(alloc: Global, row: &Row) -> Result<String, RowFault> {
    match part(alloc, row, "graph")? {
        Given::Certificate(graph, _, _) => checked_with(alloc, row, &graph),
        Given::BadLine(line) => bad_line(alloc, line),
    }
}

/// The same, of this graph.
fn checked_with(alloc: Global, row: &Row, graph: &Graph) -> Result<String, RowFault> {
    match part(alloc, row, "plan")? {
        Given::Certificate(_, plan, _) => checked_by(alloc, row, graph, &plan),
        Given::BadLine(line) => bad_line(alloc, line),
    }
}

/// The same, of this graph and plan.
fn checked_by(alloc: Global, row: &Row, graph: &Graph, plan: &Plan) -> Result<String, RowFault> {
    match part(alloc, row, "charges")? {
        Given::Certificate(_, _, charges) => Ok(answer_of(alloc, check(graph, plan, &charges))?),
        Given::BadLine(line) => bad_line(alloc, line),
    }
}

/// Reads the certificate of one argument.
fn part(alloc: Global, row: &Row, argument: &str) -> Result<Given, RowFault> {
    certificate_in(alloc, row.text(argument)?.as_bytes())
}

/// What a check says.
pub(crate) fn answer_of(alloc: Global, checked: Result<u64, Broken>) -> Result<String, AllocError> {
    match checked {
        Ok(cost) => format!(in alloc; "{cost}"),
        Err(broken) => format!(in alloc; "{broken:?}"),
    }
}

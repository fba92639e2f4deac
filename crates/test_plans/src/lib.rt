//! Rows of plans and their certificates: each line of `stdin` is a call, and the same line of `stdout` has its answer.
//!
//! A certificate is given whole, as `text`; by the lines of its jobs, as `jobs`; or as `count` times the same `line`.
//! A text that is none is answered by `X1` and its first bad line, a graph that is none by `X2` and its first bad vertex.
#![tactic(auto)]

mod checks;
mod graphs;
mod plans;
mod reads;
mod texts;
mod words;

use std::alloc::Global;
use test_rows::{Row, RowFault};
use words::Wanted;

/// The answer of a row, or `UnknownCall` where its call is none of these.
pub fn answer(alloc: Global, row: &Row) -> Result<String, RowFault> {
    match row.call() {
        "check" => checks::checked(alloc, row),
        "check_parts" => checks::checked_parts(alloc, row),
        "read" => reads::read(alloc, row),
        "prefixes" => reads::prefixes(alloc, row),
        "write" => reads::written(alloc, row),
        "new_graph" => graphs::made(alloc, row),
        "plan" => plans::certified(alloc, row),
        "plan_marks" => plans::marked(alloc, row),
        "plan_cost" => plans::cost(alloc, row),
        "plan_phases" => plans::phases(alloc, row),
        "plan_again" => plans::again(alloc, row),
        "plan_lines" => words::said(alloc, row, Wanted::Lines),
        "plan_reasons" => words::said(alloc, row, Wanted::Reasons),
        "plan_picture" => words::said(alloc, row, Wanted::Picture),
        _ => Err(RowFault::UnknownCall),
    }
}

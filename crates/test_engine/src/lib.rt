//! Rows of runs: some are over a scripted host, and others over real children and real files. `test_hosts` says what a script is.
#![tactic(auto)]

mod alone;
mod came;
mod cheapest;
mod counted;
mod end;
mod failed_calls;
mod generated;
mod generator;
mod giving_up;
mod orders;
mod run;
mod runs;
mod stopped;
mod timed;
mod trial;

use crate::run::case_of;
use std::alloc::Global;
use std::mem;
use test_rows::{AnswerText, Row, RowFault};

/// The answer of a row of this crate's; that of another is no call of its.
pub fn answer(rt: &HostRuntime, row: &Row) -> Result<String, RowFault> {
    match row.call() {
        "timed" => timed::answer(rt, row),
        "fails_after" => failed_calls::answer(rt, row),
        _ => scripted(rt.alloc(), row),
    }
}

/// The same of a row over no real file.
fn scripted(alloc: Global, row: &Row) -> Result<String, RowFault> {
    let mut out = AnswerText::new(alloc);
    if let Err(fault) = put_scripted(alloc, row, &mut out) {
        out.fail(fault);
    }
    out.finish()
}

fn put_scripted(alloc: Global, row: &Row, out: &mut AnswerText) -> Result<(), RowFault> {
    match row.call() {
        "run" | "run_again" | "run_archiving" | "runs" => runs::put_answer(alloc, row, out),
        "run_stops" | "gives_up" | "orders" | "plan_counts" => put_of_case(alloc, row, out),
        "generated_runs" => generated::put_answer(alloc, row, out),
        _ => Err(RowFault::UnknownCall),
    }
}

/// Writes the answer of a call that runs the row's process in its own way.
fn put_of_case(alloc: Global, row: &Row, out: &mut AnswerText) -> Result<(), RowFault> {
    let case = case_of(alloc, row)?;
    let put = match row.call() {
        "run_stops" => stopped::put_answer(alloc, row, &case, out),
        "gives_up" => giving_up::put_answer(alloc, row, &case, out),
        "plan_counts" => counted::put_answer(alloc, row, &case, out),
        _ => orders::put_answer(alloc, row, &case, out),
    };
    mem::drop(case);
    put
}

//! How the plans of runs came to be: each was brought up to date or made anew.
use crate::alone::{Chance, take_answer};
use crate::generated::{Keeps, answer_with};
use crate::run::{Case, core_of};
use job_rows::MemoryRecord;
use run_core::{PlanCounts, Request, RunCore};
use std::alloc::Global;
use std::mem;
use test_rows::{AnswerText, Row, RowFault};

/// Runs the row's process so often (`runs`) over one record, which keeps each row and archive. Writes of each run how many plans were
/// brought up to date, and how many were made anew.
pub fn put_answer(
    alloc: Global,
    row: &Row,
    case: &Case,
    out: &mut AnswerText,
) -> Result<(), RowFault> {
    let runs = row.natural("runs")?;
    let mut rows = MemoryRecord::new(alloc, None);
    let put = put_runs(alloc, row, case, &mut rows, runs, out);
    mem::drop(rows);
    put
}

fn put_runs(
    alloc: Global,
    row: &Row,
    case: &Case,
    rows: &mut MemoryRecord,
    runs: u64,
    out: &mut AnswerText,
) -> Result<(), RowFault> {
    out.put("[");
    for _ in 0..runs {
        let counts = counts_of(alloc, row, case, rows)?;
        out.put_comma();
        out.put("{\"brought\":");
        out.put_natural(counts.brought);
        out.put(",\"anew\":");
        out.put_natural(counts.anew);
        out.put("}");
    }
    out.put("]");
    Ok(())
}

fn counts_of(
    alloc: Global,
    row: &Row,
    case: &Case,
    rows: &mut MemoryRecord,
) -> Result<PlanCounts, RowFault> {
    let mut core = core_of(alloc, row, case, true)?;
    let counts = counts_after(alloc, &mut core, rows);
    mem::drop(core);
    counts
}

/// Answers what a machine asks until it asks nothing more.
fn counts_after(
    alloc: Global,
    core: &mut RunCore<'_>,
    rows: &mut MemoryRecord,
) -> Result<PlanCounts, RowFault> {
    let mut chance = Chance::new(0);
    while !matches!(core.next(), Request::Finished) {
        let keeps = Keeps::All;
        let answer = answer_with(
            alloc,
            core.next(),
            core.in_flight(),
            &mut chance,
            rows,
            keeps,
        )?;
        if take_answer(core, answer).is_err() {
            return Err(RowFault::OutOfMemory);
        }
    }
    Ok(core.plan_counts())
}

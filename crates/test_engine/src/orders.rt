//! Runs of one process whose children end in many orders.

use crate::alone::{Chance, drive};
use crate::end::put_end;
use crate::run::{Case, core_of};
use std::alloc::Global;
use std::mem;
use test_rows::{AnswerText, Row, RowFault};

/// Writes how the run of a row ends in so many orders of ends: the one end that all have, or the first two that differ.
pub fn put_answer(
    alloc: Global,
    row: &Row,
    case: &Case,
    out: &mut AnswerText,
) -> Result<(), RowFault> {
    let orders = row.natural("orders")?;
    let first = end_in(alloc, row, case, 0)?;
    for order in 1..orders {
        let other = end_in(alloc, row, case, order)?;
        if other.as_str() != first.as_str() {
            out.put("{\"differ\":[");
            out.put(first.as_str());
            out.put(",");
            out.put(other.as_str());
            out.put("]}");
            return Ok(());
        }
    }
    out.put(first.as_str());
    Ok(())
}

fn end_in(alloc: Global, row: &Row, case: &Case, order: u64) -> Result<String, RowFault> {
    let mut core = core_of(alloc, row, case, false)?;
    match drive(alloc, &mut core, &mut Chance::new(order)) {
        Ok(()) => {
            let end = core.finish();
            let mut out = AnswerText::new(alloc);
            put_end(alloc, &mut out, &end);
            mem::drop(end);
            out.finish()
        }
        Err(fault) => {
            mem::drop(core);
            Err(fault)
        }
    }
}

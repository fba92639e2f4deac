//! Rows of hosts: some are over a scripted host, and others over real children and real files.
//!
//! A host's script is a list of the answers that it gives: `{"measured":MEASURE}` (null, `[SIZE,SUM]` or
//! `{"folder":[..]}`), `{"head":TEXT}`, `{"staged":true}`, `{"started":true}`,
//! `{"ended":[TICKET,CODE,MILLIS]}` (the code is null for a child that a signal ended),
//! `{"found":[[NAME,IS_DIR,SIZE,SUM]]}`, `{"fetched":[..]}` with such entries, `{"stored":true}`, `{"delivered":true}` and
//! `{"discarded":true}`. A call that the script does not answer next fails.
#![tactic(auto)]

pub mod answers;
mod copies;
pub mod failing;
mod hosts;
pub mod lost;
pub mod machine;
pub mod requests;
pub mod script;
mod words;

use std::alloc::Global;
use test_rows::{AnswerText, Row, RowFault};

/// The answer of a row of this crate's; that of another is no call of its.
pub fn answer(rt: &HostRuntime, row: &Row) -> Result<String, RowFault> {
    match row.call() {
        "archive" | "child" | "children" | "stage" | "deliver" => machine::told_of(rt, row),
        "measure" | "scan" | "head" | "remove" => machine::told_of(rt, row),
        _ => scripted(rt.alloc(), row),
    }
}

/// The same of a row over no real file.
fn scripted(alloc: Global, row: &Row) -> Result<String, RowFault> {
    let mut out = AnswerText::new(alloc);
    if let Err(fault) = put_scripted(alloc, row, &mut out) {
        out.fail(fault);
    }
    out.finish()
}

fn put_scripted(alloc: Global, row: &Row, out: &mut AnswerText) -> Result<(), RowFault> {
    match row.call() {
        "host" => hosts::put_answer(alloc, row, out),
        "classify" => words::put_class(alloc, row, out),
        "fault_code" => words::put_fault_code(row, out),
        "copy_listing" => copies::put_listing_copy(alloc, row, out),
        "copy_plan" => copies::put_plan_copy(alloc, row, out),
        _ => Err(RowFault::UnknownCall),
    }
}

pub(crate) mod archives;
pub mod child;
pub(crate) mod children;
mod copies;
pub mod listing;
pub mod paths;
pub mod place;
pub mod shell;

use crate::machine::place::{machine_of, made, prepared, removed};
use process_machine::{Machine, World};
use std::mem;
use std::process::Stdio;
use test_rows::{AnswerText, Row, RowFault};

/// What a call answers over real children and real files. It has a folder `row-work` of its own, which is made in the
/// folder that the program runs in and removed again.
pub fn told_of(rt: &HostRuntime, row: &Row) -> Result<String, RowFault> {
    let place = made(rt)?;
    let told = told_in(rt, row, place.as_str());
    removed(rt, place.as_str())?;
    told
}

fn told_in(rt: &HostRuntime, row: &Row, place: &str) -> Result<String, RowFault> {
    prepared(rt, row, place)?;
    let mut host = machine_of(rt, row, place)?;
    let mut out = AnswerText::new(rt.alloc());
    if let Err(fault) = put_told(rt, &mut host, row, place, &mut out) {
        out.fail(fault);
    }
    mem::drop(host);
    out.finish()
}

fn put_told<R: World>(
    rt: &HostRuntime,
    host: &mut Machine<R>,
    row: &Row,
    place: &str,
    out: &mut AnswerText,
) -> Result<(), RowFault>
where
    R::File: Into<Stdio>,
{
    match row.call() {
        "archive" => archives::put_told(rt, host, row, place, out),
        "child" => child::put_told(rt, host, row, place, out),
        "children" => {
            children::put_told(rt, host, row, place, out);
            Ok(())
        }
        "stage" | "deliver" => copies::put_told(rt, host, row, place, out),
        "measure" | "scan" | "head" => paths::put_told(rt.alloc(), host, row, place, out),
        "remove" => paths::put_removed(rt, host, row, place, out),
        _ => Err(RowFault::UnknownCall),
    }
}

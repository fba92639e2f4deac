//! The rows of all libraries, one program for all: each line of `stdin` is a call, and the same line of `stdout` has its answer.
//!
//! The calls of each crate have names of their own, so a call says whose row it is. A heading `# test_values` says it to a reader, and to
//! `scripts/rows`.
#![tactic(auto)]

use std::alloc::Global;
use std::io;
use std::process::ExitCode;
use test_rows::{Answers, Row, RowFault, answer_rows};

#[derive(Drop)]
struct Calls<'a>(&'a HostRuntime);

impl Answers for Calls<'_> {
    fn answer(&self, alloc: Global, row: &Row) -> Result<String, RowFault> {
        match of_values(alloc, row) {
            Err(RowFault::UnknownCall) => of_records(self.0, alloc, row),
            answer => answer,
        }
    }
}

fn of_values(alloc: Global, row: &Row) -> Result<String, RowFault> {
    match test_values::answer(alloc, row) {
        Err(RowFault::UnknownCall) => of_files(alloc, row),
        answer => answer,
    }
}

fn of_files(alloc: Global, row: &Row) -> Result<String, RowFault> {
    match test_files::answer(alloc, row) {
        Err(RowFault::UnknownCall) => of_documents(alloc, row),
        answer => answer,
    }
}

fn of_documents(alloc: Global, row: &Row) -> Result<String, RowFault> {
    match test_documents::answer(alloc, row) {
        Err(RowFault::UnknownCall) => test_plans::answer(alloc, row),
        answer => answer,
    }
}

fn of_records(rt: &HostRuntime, alloc: Global, row: &Row) -> Result<String, RowFault> {
    match test_reuse::answer(alloc, row) {
        Err(RowFault::UnknownCall) => test_records::answer(rt, row),
        answer => answer,
    }
}

fn main(rt: HostRuntime) -> io::Result<ExitCode> {
    answer_rows(&rt, &Calls(&rt))
}

//! Rows of hosts, runs and the program: each line of `stdin` is a call, and `stdout` has its answer. Those of hosts and runs are
//! `test_hosts`' and `test_engine`' to answer.
#![tactic(auto)]

mod words;

use std::alloc::Global;
use std::io;
use std::process::ExitCode;
use test_rows::{Answers, Row, RowFault, answer_rows};

#[derive(Drop)]
struct Calls<'a>(&'a HostRuntime);

impl Answers for Calls<'_> {
    fn answer(&self, _alloc: Global, row: &Row) -> Result<String, RowFault> {
        match row.call() {
            "main_run" => words::program(self.0, row),
            _ => match test_hosts::answer(self.0, row) {
                Err(RowFault::UnknownCall) => test_engine::answer(self.0, row),
                told => told,
            },
        }
    }
}

fn main(rt: HostRuntime) -> io::Result<ExitCode> {
    answer_rows(&rt, &Calls(&rt))
}

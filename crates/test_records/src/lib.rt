//! Rows of the record: each line of `stdin` is a call, and `stdout` has its answer. A command is an object with
//! one member: `{"put":ROW}`, `{"find":KEY}`, `{"touch":KEY}`, `{"drop_archive":KEY}`, `{"forget":KEY}`, `{"reopen":BUDGET}`, or
//! `"list"`, `"log"`. A refusal is answered by its code. What an answer lacks stands in it as `?`.
#![tactic(auto)]

mod any_disk;
mod asks;
pub mod bench;
mod commands;
mod file;
mod fill;
mod forgets;
mod keys;
mod memory;
mod opening;
pub mod rows;
mod stops;
pub mod store;

use test_rows::{Row, RowFault};

/// The answer of a row, or `UnknownCall` where its call is none of these.
pub fn answer(rt: &HostRuntime, row: &Row) -> Result<String, RowFault> {
    let alloc = rt.alloc();
    match row.call() {
        "key_text" => keys::key(alloc, row),
        "commands" => commands::answers(alloc, row),
        "in_memory" => memory::answers(alloc, row),
        "open" => opening::opened(alloc, row),
        "open_bytes" => opening::opened_bytes(alloc, row),
        "stops" => stops::stops(alloc, row),
        "forget_faults" => forgets::faults(alloc, row),
        "fill" => fill::filled(alloc, row),
        "record" => file::shown(rt, row),
        "measured" => bench::measured(rt, row),
        "measured_archives" => bench::measured_archives(rt, row),
        _ => Err(RowFault::UnknownCall),
    }
}

//! Rows of what a run decides by a record: each line of `stdin` is a call, and the same line of `stdout` has its answer.
#![tactic(auto)]

mod again;
mod arguments;
mod rows;

use std::alloc::Global;
use test_rows::{Row, RowFault};

/// The answer of a row, or `UnknownCall` where its call is none of these.
pub fn answer(alloc: Global, row: &Row) -> Result<String, RowFault> {
    match row.call() {
        "row_is_sound" => rows::soundness(alloc, row),
        "differs" => rows::difference(alloc, row),
        "files_agree" => rows::agreement(alloc, row),
        "row_of" => rows::made(alloc, row),
        "file_bytes" => rows::bytes(alloc, row),
        "second_run" => again::answer(alloc, row),
        _ => Err(RowFault::UnknownCall),
    }
}

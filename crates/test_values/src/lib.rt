//! Rows of the values, their files, scatters and references: each line of `stdin` is a call, and the same line of
//! `stdout` has its answer.
//!
//! A refusal is answered by its code, and a value by its canonical text.
#![tactic(auto)]

mod files;
mod keys;
mod links;
mod names;
mod places;
mod references;
mod scatters;
mod sums;
mod texts;
mod tree;
mod values;
mod words;

use std::alloc::Global;
use test_rows::{Row, RowFault};

/// The answer of a row, or `UnknownCall` where its call is none of these.
pub fn answer(alloc: Global, row: &Row) -> Result<String, RowFault> {
    match of_values(alloc, row) {
        Err(RowFault::UnknownCall) => of_files(alloc, row),
        answer => answer,
    }
}

fn of_values(alloc: Global, row: &Row) -> Result<String, RowFault> {
    match row.call() {
        "read_value" | "clone_in" | "from_json" | "erased" | "shared" => values::answer(alloc, row),
        "place_text" | "clone_place" => places::answer(alloc, row),
        "template_value" => references::answer(alloc, row),
        "merge" | "pick" => links::answer(alloc, row),
        _ => scatters::answer(alloc, row),
    }
}

fn of_files(alloc: Global, row: &Row) -> Result<String, RowFault> {
    match row.call() {
        "name_parts" | "secondary_name" => names::answer(alloc, row),
        "sum_of" => sums::answer(alloc, row),
        "from_entries" | "insert" | "get" => keys::answer(alloc, row),
        "order" | "texts" => texts::answer(alloc, row),
        "tree" => tree::answer(alloc, row),
        "processors_in" | "answer_to" => words::answer(alloc, row),
        _ => files::answer(alloc, row),
    }
}

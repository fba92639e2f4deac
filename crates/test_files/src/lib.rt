//! Rows of input and output files: each line of `stdin` is a call, and the same line of `stdout` has its answer.
//!
//! A refusal is answered by its code, and by the input or the output that it is met at, where there is one.
#![tactic(auto)]

mod arguments;
mod globs;
mod inputs;
mod outputs;
mod plans;

use std::alloc::Global;
use test_rows::{Row, RowFault};

/// The answer of a row, or `UnknownCall` where its call is none of these.
pub fn answer(alloc: Global, row: &Row) -> Result<String, RowFault> {
    match row.call() {
        "matches" => globs::answer(alloc, row),
        "collect_outputs" => outputs::answer(alloc, row),
        "heads_wanted" => outputs::heads_answer(alloc, row),
        "stage_plan" | "deliver_plan" => plans::answer(alloc, row),
        "input_paths" | "input_heads_wanted" | "inputs_for" | "with_contents" => {
            inputs::answer(alloc, row)
        }
        _ => Err(RowFault::UnknownCall),
    }
}

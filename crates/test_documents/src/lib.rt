//! Rows of documents: each line of `stdin` has a call and its arguments, and `stdout` its answer.
//!
//! A document is given as JSON, under `document`, or as a text of any bytes, under `text`. Where it is refused, the answer is the code
//! of the fault, with its cause in words and its place; of a tool whose command is asked for, the code alone.
#![tactic(auto)]

use std::alloc::Global;
use test_rows::{Row, RowFault};

mod accepted;
mod arguments;
mod costs;
mod documents;
mod ends;
mod launches;
mod linked;
mod orders;
mod process;
mod resources;
mod short;
mod step_inputs;
mod template;
mod tool;
mod types;
mod unfold;
mod values;

/// The answer of a row, or `UnknownCall` where its call is none of these.
pub fn answer(alloc: Global, row: &Row) -> Result<String, RowFault> {
    match of_documents(alloc, row) {
        Err(RowFault::UnknownCall) => of_processes(alloc, row),
        answer => answer,
    }
}

fn of_documents(alloc: Global, row: &Row) -> Result<String, RowFault> {
    match row.call() {
        "read_document" => documents::read(alloc, row),
        "read_nested_list" => documents::read_nested_list(alloc, row),
        "read_unlinked" => process::read(alloc, row),
        "read_process" => linked::read(alloc, row),
        "needed_docs" => linked::needed(alloc, row),
        "resources_of" => resources::asked(alloc, row),
        "variables_for" => resources::told(alloc, row),
        "read_written" => process::read_written(alloc, row),
        "read_type" => types::read(alloc, row),
        "fits" => types::fits_type(alloc, row),
        "prefixes_of_document" => documents::read_prefixes(alloc, row),
        _ => Err(RowFault::UnknownCall),
    }
}

fn of_processes(alloc: Global, row: &Row) -> Result<String, RowFault> {
    match row.call() {
        "build" => launches::answer(alloc, row, false),
        "copied_launch" => launches::answer(alloc, row, true),
        "accept" => accepted::answer(alloc, row),
        "unfold" | "unfold_orders" => unfold::answer(alloc, row),
        "load_cost" => costs::answer(alloc, row),
        "step_input" | "value_froms" | "when_value" => step_inputs::answer(alloc, row),
        _ => Err(RowFault::UnknownCall),
    }
}

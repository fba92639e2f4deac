//! Words of a command line, and the processors that the kernel lists.

use crate::values::coded;
use given_words::{answer_to, option_in, processors_in};
use std::alloc::Global;
use test_rows::{Row, RowFault};

/// `processors_in` counts the processors of a `status` that are `online`. `answer_to` answers the option of a word.
pub(crate) fn answer(alloc: Global, row: &Row) -> Result<String, RowFault> {
    match row.call() {
        "processors_in" => counted(alloc, row),
        "answer_to" => told(alloc, row),
        _ => Err(RowFault::UnknownCall),
    }
}

fn counted(alloc: Global, row: &Row) -> Result<String, RowFault> {
    let count = processors_in(row.text("status")?, row.text("online")?);
    Ok(format!(in alloc; "{count}")?)
}

fn told(alloc: Global, row: &Row) -> Result<String, RowFault> {
    let answer = answer_to(option_in(row.text("word")?));
    coded(alloc, answer.unwrap_or("null"))
}

//! Accepts the processes of rows, or says what is wrong with their links first.
use crate::linked::process_of;
use std::alloc::Global;
use test_rows::{Row, RowFault};
use workflow_check::{AcceptError, Accepted, accept};

/// `accepted`, or the code of the fault, what it is in words, and its place.
pub(crate) fn answer(alloc: Global, row: &Row) -> Result<String, RowFault> {
    let process = process_of(alloc, row)?;
    let answer = accept(alloc, process);
    let text = told(alloc, &answer);
    drop(answer);
    text
}

fn told(alloc: Global, answer: &Result<Accepted, AcceptError>) -> Result<String, RowFault> {
    match answer {
        Ok(_) => Ok(String::from_str(alloc, "accepted")?),
        Err(AcceptError::Refused(fault)) => Ok(format!(in alloc; "{} {fault}", fault.code())?),
        Err(AcceptError::OutOfMemory) => Err(RowFault::OutOfMemory),
    }
}

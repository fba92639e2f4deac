//! Commands on a record that is kept in memory, as a run asks it.

use crate::asks::{Ask, put_keys, put_log};
use crate::commands::ask_in;
use crate::rows::{budget_of, put_row, row_in};
use job_rows::{MemoryRecord, Record, RecordError, Row as RecordRow};
use plain_data::{Items, Text};
use serde_json::Value as Json;
use std::alloc::Global;
use std::mem;
use test_rows::{AnswerText, Row, RowFault};

/// What each of the row's commands is answered, on a new record in memory.
pub(crate) fn answers(alloc: Global, row: &Row) -> Result<String, RowFault> {
    let commands = row.list("commands")?;
    let mut record = MemoryRecord::new(alloc, budget_of(row)?);
    let mut out = AnswerText::new(alloc);
    out.put("[");
    for (at, command) in commands.iter().enumerate() {
        // A put of no row writes nothing, so the text doesn't tell whether a command came before.
        if at > 0 {
            out.put(",");
        }
        run(alloc, &mut record, command, &mut out);
    }
    mem::drop(record);
    out.put("]");
    out.finish()
}

fn run(alloc: Global, record: &mut MemoryRecord, command: &Json, out: &mut AnswerText) {
    if let Some(json) = command.get("put") {
        let row = row_in(alloc, json);
        if let Some(row) = &row {
            put_lost(out, record.put(row));
        }
        mem::drop(row);
        return;
    }
    match ask_in(command) {
        Some(Ask::Find(key)) => find(alloc, record, key, out),
        Some(Ask::Touch(key)) => touch(alloc, record, key, out),
        Some(Ask::DropArchive(key)) => drop_archive(alloc, record, key, out),
        Some(Ask::Log) => put_log(out, record.log()),
        _ => out.put("?"),
    }
}

fn find(alloc: Global, record: &mut MemoryRecord, key: &str, out: &mut AnswerText) {
    match Text::from_text(alloc, key) {
        Ok(key) => put_found(alloc, out, record.find(&key)),
        Err(_) => out.fail(RowFault::OutOfMemory),
    }
}

fn touch(alloc: Global, record: &mut MemoryRecord, key: &str, out: &mut AnswerText) {
    match Text::from_text(alloc, key) {
        Ok(key) => put_outcome(out, record.touch(&key)),
        Err(_) => out.fail(RowFault::OutOfMemory),
    }
}

fn drop_archive(alloc: Global, record: &mut MemoryRecord, key: &str, out: &mut AnswerText) {
    match Text::from_text(alloc, key) {
        Ok(key) => put_outcome(out, record.drop_archive(&key)),
        Err(_) => out.fail(RowFault::OutOfMemory),
    }
}

fn put_outcome(out: &mut AnswerText, done: Result<(), RecordError>) {
    match done {
        Ok(()) => out.put("\"done\""),
        Err(error) => put_error(out, error),
    }
}

fn put_lost(out: &mut AnswerText, lost: Result<Items<Text>, RecordError>) {
    match &lost {
        Ok(keys) => put_keys(out, keys.as_slice()),
        Err(error) => put_error(out, *error),
    }
    mem::drop(lost);
}

fn put_error(out: &mut AnswerText, error: RecordError) {
    match error {
        RecordError::Refused(refusal) => out.put_quoted(refusal.code()),
        RecordError::OutOfMemory => out.put("?"),
    }
}

fn put_found(alloc: Global, out: &mut AnswerText, found: Result<Option<RecordRow>, RecordError>) {
    match &found {
        Ok(Some(row)) => put_row(alloc, out, row),
        Ok(None) => out.put("null"),
        Err(error) => put_error(out, *error),
    }
    mem::drop(found);
}

//! Commands over any store, and what they are answered.
ghost use Rattle.std.specs.Prelude.{◌≡◌, ◌++◌, IfOk, IfSome};
ghost use Rattle.job_rows.specs.declared.log.Command.TheVariants as command;
ghost use Rattle.job_rows.specs.Log.{entries_of, told_of};

use crate::rows::{put_row, put_rows};
use job_record::{JobRecord, RecordFault};
use job_rows::{Command, Entry, Record, RecordError, Row as RecordRow};
use plain_data::{Items, Text};
use sqlite::{Alter, Connection, Error, Row as Columns};
use std::alloc::Global;
use std::mem;
use test_rows::AnswerText;

/// A command on a record, or the question for all its rows or for its log.
#[derive(Clone, Copy)]
pub(crate) enum Ask<'a> {
    Put(&'a RecordRow),
    Find(&'a str),
    Touch(&'a str),
    DropArchive(&'a str),
    Forget(&'a str),
    List,
    Log,
}

/// Writes what a command is answered.
pub(crate) fn asked<S: Alter>(
    alloc: Global,
    record: &mut JobRecord<S>,
    ask: Ask<'_>,
    out: &mut AnswerText,
) {
    match ask {
        Ask::Put(row) => put_lost(out, record.put(row)),
        Ask::Find(key) => put_found(alloc, out, record.find(key)),
        Ask::Touch(key) => put_outcome(out, record.touch(key)),
        Ask::DropArchive(key) => put_outcome(out, record.drop_archive(key)),
        Ask::Forget(key) => put_outcome(out, record.forget(key)),
        Ask::List => put_listed(alloc, out, record.list()),
        Ask::Log => put_log(out, record.log()),
    }
}

fn put_outcome(out: &mut AnswerText, done: Result<(), RecordFault>) {
    match done {
        Ok(()) => out.put("\"done\""),
        Err(fault) => put_fault(out, fault),
    }
}

fn put_lost(out: &mut AnswerText, lost: Result<Items<Text>, RecordFault>) {
    match &lost {
        Ok(keys) => put_keys(out, keys.as_slice()),
        Err(fault) => put_fault(out, *fault),
    }
    mem::drop(lost);
}

/// Writes the keys that are without their archive by a put.
pub(crate) fn put_keys(out: &mut AnswerText, keys: &[Text]) {
    out.put("[");
    for key in keys {
        out.put_comma();
        out.put_quoted(key.as_str());
    }
    out.put("]");
}

/// Writes the code of a refusal.
pub(crate) fn put_fault(out: &mut AnswerText, fault: RecordFault) {
    out.put_quoted(fault.code());
}

fn put_found(alloc: Global, out: &mut AnswerText, found: Result<Option<RecordRow>, RecordFault>) {
    match &found {
        Ok(Some(row)) => put_row(alloc, out, row),
        Ok(None) => out.put("null"),
        Err(fault) => put_fault(out, *fault),
    }
    mem::drop(found);
}

fn put_listed(alloc: Global, out: &mut AnswerText, listed: Result<Items<RecordRow>, RecordFault>) {
    match &listed {
        Ok(rows) => put_rows(alloc, out, rows.as_slice()),
        Err(fault) => put_fault(out, *fault),
    }
    mem::drop(listed);
}

/// Writes the lines of a log.
pub(crate) fn put_log(out: &mut AnswerText, entries: &[Entry]) {
    out.put("[");
    for entry in entries {
        out.put_comma();
        put_entry(out, entry);
    }
    out.put("]");
}

fn put_entry(out: &mut AnswerText, entry: &Entry) {
    out.put("[");
    out.put_quoted(command_name(entry.command));
    out.put(",");
    out.put_quoted(entry.key.as_str());
    out.put(",");
    match entry.answer {
        Ok(()) => out.put("\"done\""),
        Err(refusal) => out.put_quoted(refusal.code()),
    }
    out.put("]");
}

fn command_name(command: Command) -> &'static str {
    match command {
        Command::Find => "find",
        Command::Put => "put",
        Command::Touch => "touch",
        Command::DropArchive => "drop_archive",
        Command::Forget => "forget",
    }
}

/// Finds a row, as a run asks it.
pub(crate) fn found<S: Alter>(
    kept: &mut JobRecord<S>,
    key: &Text,
) -> Result<Option<RecordRow>, RecordError>
    ensures logged { kept.new.log.items ≡ kept.old.log.items
        ++ entries_of command.Find key.now (told_of result) }
    ensures keyed { IfOk result (λ found. IfSome found (λ row. row.key ≡ key.now)) }
{
    Record::find(kept, key)
}

/// Puts a row, as a run asks it.
pub(crate) fn put<S: Alter>(
    kept: &mut JobRecord<S>,
    row: &RecordRow,
) -> Result<Items<Text>, RecordError>
    ensures { kept.new.log.items ≡ kept.old.log.items
        ++ entries_of command.Put row.now.key (told_of result) }
{
    Record::put(kept, row)
}

/// Notes that an archive was used, as a run asks it.
pub(crate) fn touched<S: Alter>(kept: &mut JobRecord<S>, key: &Text) -> Result<(), RecordError>
    ensures { kept.new.log.items ≡ kept.old.log.items
        ++ entries_of command.Touch key.now (told_of result) }
{
    Record::touch(kept, key)
}

/// Notes that an archive is gone, as a run asks it.
pub(crate) fn dropped<S: Alter>(kept: &mut JobRecord<S>, key: &Text) -> Result<(), RecordError>
    ensures { kept.new.log.items ≡ kept.old.log.items
        ++ entries_of command.DropArchive key.now (told_of result) }
{
    Record::drop_archive(kept, key)
}

/// All rows, where they can be listed.
pub(crate) fn listed<S: Alter>(record: &mut JobRecord<S>) -> Option<Items<RecordRow>> {
    record.list().ok()
}

/// The record of a connection, or the connection again.
pub(crate) fn opened<S: Alter + Drop>(
    alloc: Global,
    conn: Connection<S>,
    budget: Option<u64>,
) -> Result<JobRecord<S>, (RecordFault, Connection<S>)> {
    if conn.is_autocommit() {
        JobRecord::open_record(alloc, conn, budget)
    } else {
        Err((RecordFault::NotARecord, conn))
    }
}

/// Runs statements, or writes the first column of each row that a query shows.
pub(crate) fn ran<S: Alter>(conn: &mut Connection<S>, sql: &str, out: &mut AnswerText) {
    if sql.starts_with("SELECT") {
        put_shown(out, conn.query_all(sql, &[]));
    } else if conn.execute_batch(sql).is_err() {
        out.put("?");
    }
}

fn put_shown(out: &mut AnswerText, shown: Result<Vec<Columns>, Error>) {
    match &shown {
        Ok(rows) => put_texts(out, rows.as_slice()),
        Err(_) => out.put("?"),
    }
    mem::drop(shown);
}

fn put_texts(out: &mut AnswerText, rows: &[Columns]) {
    out.put("[");
    for row in rows {
        out.put_comma();
        let text: Result<String, Error> = row.get(0);
        match text {
            Ok(text) => out.put_quoted(text.as_str()),
            Err(_) => out.put("?"),
        }
    }
    out.put("]");
}

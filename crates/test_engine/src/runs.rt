//! Runs over a script and a record in memory: how each ended, what was noted, and what it asked.
ghost use Rattle.std.specs.Prelude.{◌≡◌, []};

use crate::end::{put_end, put_place};
use crate::run::{Case, case_of, end_over, options_with};
use job_rows::{Command, Entry, MemoryRecord, Record, RecordError};
use plain_data::{Items, Text};
use proc_host::Scripted;
use run_core::{Note, NoteKind, PlanNote, Report};
use serde_json::Value as Json;
use std::alloc::{AllocError, Global};
use std::mem;
use test_hosts::answers::put_numbers;
use test_hosts::requests::put_requests;
use test_hosts::script::host_by;
use test_records::rows::budget_of;
use test_rows::{AnswerText, Row, RowFault, json_text};

/// What is written of a run beside its end.
#[derive(Clone, Copy)]
enum Told {
    /// Nothing.
    End,
    /// The requests in its log, and the tickets left.
    Requests,
    /// What was noted, and the requests. The run keeps an archive, as the next one does.
    Notes,
    /// The plans that it followed, what was noted, and the requests.
    Plans,
}

/// Writes what the calls `run`, `run_again`, `run_archiving` and `runs` answer: of one run or several over one record, which is
/// empty before, and has the row's budget.
pub fn put_answer(alloc: Global, row: &Row, out: &mut AnswerText) -> Result<(), RowFault> {
    let mut rows = MemoryRecord::new(alloc, budget_of(row)?);
    let put = put_over(alloc, row, &mut rows, out);
    mem::drop(rows);
    put
}

fn put_over(
    alloc: Global,
    row: &Row,
    rows: &mut MemoryRecord,
    out: &mut AnswerText,
) -> Result<(), RowFault> {
    match row.call() {
        "run" => put_case(alloc, row, Told::Requests, rows, out),
        "run_again" => put_case(alloc, row, Told::End, rows, out),
        "run_archiving" => put_case(alloc, row, Told::Notes, rows, out),
        _ => put_all(alloc, row, rows, out),
    }
}

/// Writes what each of a row's `runs` answers, a row by itself, and what their record was asked.
fn put_all(
    alloc: Global,
    row: &Row,
    rows: &mut MemoryRecord,
    out: &mut AnswerText,
) -> Result<(), RowFault> {
    out.put("{\"runs\":[");
    for item in row.list("runs")? {
        out.put_comma();
        put_item(alloc, item, rows, out)?;
    }
    out.put("],\"record\":");
    put_commands(out, rows.log());
    out.put("}");
    Ok(())
}

fn put_item(
    alloc: Global,
    item: &Json,
    rows: &mut MemoryRecord,
    out: &mut AnswerText,
) -> Result<(), RowFault> {
    let row = row_of(alloc, item)?;
    let put = put_case(alloc, &row, Told::Plans, rows, out);
    mem::drop(row);
    put
}

fn row_of(alloc: Global, item: &Json) -> Result<Row, RowFault> {
    let text = json_text(alloc, item)?;
    Row::read(alloc, text.as_str())
}

fn put_case(
    alloc: Global,
    row: &Row,
    told: Told,
    rows: &mut MemoryRecord,
    out: &mut AnswerText,
) -> Result<(), RowFault> {
    let case = case_of(alloc, row)?;
    let put = match told {
        Told::End => put_both(alloc, row, &case, rows, out),
        _ => put_one(alloc, row, told, &case, rows, out),
    };
    mem::drop(case);
    put
}

/// Writes how two runs end, by the row's scripts `script` and `again`, and what their record was asked.
fn put_both(
    alloc: Global,
    row: &Row,
    case: &Case,
    rows: &mut MemoryRecord,
    out: &mut AnswerText,
) -> Result<(), RowFault> {
    out.put("{\"first\":");
    put_run(alloc, row, "script", Told::End, case, rows, out)?;
    out.put(",\"second\":");
    put_run(alloc, row, "again", Told::End, case, rows, out)?;
    out.put(",\"record\":");
    put_commands(out, rows.log());
    out.put("}");
    Ok(())
}

fn put_one(
    alloc: Global,
    row: &Row,
    told: Told,
    case: &Case,
    rows: &mut MemoryRecord,
    out: &mut AnswerText,
) -> Result<(), RowFault> {
    out.put("{\"end\":");
    put_run(alloc, row, "script", told, case, rows, out)?;
    if matches!(told, Told::Notes) {
        out.put(",\"rows\":");
        put_kept(alloc, rows, out)?;
    }
    out.put("}");
    Ok(())
}

/// Writes a run by the row's script of this name.
fn put_run(
    alloc: Global,
    row: &Row,
    script: &str,
    told: Told,
    case: &Case,
    rows: &mut MemoryRecord,
    out: &mut AnswerText,
) -> Result<(), RowFault> {
    let mut host = host_by(alloc, row, script)?;
    let put = put_run_on(alloc, row, told, case, &mut host, rows, out);
    mem::drop(host);
    put
}

fn put_run_on(
    alloc: Global,
    row: &Row,
    told: Told,
    case: &Case,
    host: &mut Scripted,
    rows: &mut MemoryRecord,
    out: &mut AnswerText,
) -> Result<(), RowFault>
    requires { host.old.running ≡ [] }
{
    let options = options_with(alloc, row, matches!(told, Told::Notes | Told::Plans))?;
    let end = end_over(alloc, case, host, rows, options);
    put_end(alloc, out, &end);
    match &end {
        Ok(report) => put_report(alloc, out, report, told),
        Err(_) if matches!(told, Told::Notes) => out.put(",\"notes\":[]"),
        Err(_) => (),
    }
    mem::drop(end);
    put_asked(alloc, out, host, told);
    Ok(())
}

fn put_report(alloc: Global, out: &mut AnswerText, report: &Report, told: Told) {
    if matches!(told, Told::Plans) {
        put_plans(out, report.plans.as_slice());
    }
    if matches!(told, Told::Plans | Told::Notes) {
        put_notes(alloc, out, report.notes.as_slice());
    }
}

fn put_asked(alloc: Global, out: &mut AnswerText, host: &Scripted, told: Told) {
    if matches!(told, Told::End) {
        return;
    }
    out.put(",\"asked\":");
    put_requests(alloc, out, host.log());
    if matches!(told, Told::Requests) {
        out.put(",\"left\":");
        put_numbers(out, host.running());
    }
}

/// Writes of each plan after how many answers it was made, and what it cost.
fn put_plans(out: &mut AnswerText, plans: &[PlanNote]) {
    out.put(",\"plans\":[");
    for note in plans {
        out.put_comma();
        out.put("[");
        out.put_natural(note.after);
        out.put(",");
        out.put_natural(note.cost);
        out.put("]");
    }
    out.put("]");
}

/// Writes each note as the place of its job, the call that failed, and how.
fn put_notes(alloc: Global, out: &mut AnswerText, notes: &[Note]) {
    out.put(",\"notes\":[");
    for note in notes {
        let (call, code) = failure_of(&note.kind);
        out.put_comma();
        out.put("[");
        put_place(alloc, out, &note.place);
        out.put(",\"");
        out.put(call);
        out.put(" ");
        out.put(code);
        out.put("\"]");
    }
    out.put("]");
}

/// The call that failed, and the code of its fault.
pub fn failure_of(kind: &NoteKind) -> (&'static str, &'static str) {
    match kind {
        NoteKind::Put(refusal) => ("Put", refusal.code()),
        NoteKind::Touch(refusal) => ("Touch", refusal.code()),
        NoteKind::Drop(refusal) => ("Drop", refusal.code()),
        NoteKind::Store(fault) => ("Store", fault.code()),
        NoteKind::Discard(fault) => ("Discard", fault.code()),
        NoteKind::Late(fault) => ("Late", fault.code()),
    }
}

/// Writes the commands of a log, as a JSON list of their names, each refused one with its code.
fn put_commands(out: &mut AnswerText, log: &[Entry]) {
    out.put("[");
    for entry in log {
        out.put_comma();
        out.put("\"");
        out.put(name_of(entry.command));
        if let Err(refusal) = &entry.answer {
            out.put(" ");
            out.put(refusal.code());
        }
        out.put("\"");
    }
    out.put("]");
}

fn name_of(command: Command) -> &'static str {
    match command {
        Command::Find => "Find",
        Command::Put => "Put",
        Command::Touch => "Touch",
        Command::DropArchive => "DropArchive",
        Command::Forget => "Forget",
    }
}

/// Writes the key of each row that was put, and whether it says that the files were archived.
fn put_kept(alloc: Global, rows: &mut MemoryRecord, out: &mut AnswerText) -> Result<(), RowFault> {
    let keys = keys_put(alloc, rows.log())?;
    out.put("[");
    for key in keys.as_slice() {
        out.put_comma();
        put_key(rows, key, out);
    }
    out.put("]");
    Ok(())
}

/// The keys that were put, by this log.
pub fn keys_put(alloc: Global, log: &[Entry]) -> Result<Items<Text>, AllocError> {
    let mut keys = Items::new(alloc);
    for entry in log {
        if entry.command == Command::Put {
            keys.push(entry.key.copied(alloc)?)?;
        }
    }
    Ok(keys)
}

fn put_key(rows: &mut MemoryRecord, key: &Text, out: &mut AnswerText) {
    out.put("[");
    out.put_quoted(key.as_str());
    out.put(",");
    let found = rows.find(key);
    match &found {
        Ok(Some(row)) => out.put_flag(row.archived),
        Err(RecordError::OutOfMemory) => out.fail(RowFault::OutOfMemory),
        _ => out.fail(RowFault::BadArgument),
    }
    mem::drop(found);
    out.put("]");
}

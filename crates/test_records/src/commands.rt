//! Commands on a record.

use crate::asks::Ask;
use crate::rows::{budget_of, row_in, text_of};
use crate::store::{Disks, Store};
use serde_json::Value as Json;
use std::alloc::Global;
use std::mem;
use test_rows::{AnswerText, Row, RowFault};

/// What each of the row's commands is answered, on a new record.
pub(crate) fn answers(alloc: Global, row: &Row) -> Result<String, RowFault> {
    let commands = row.list("commands")?;
    let budget = budget_of(row)?;
    let mut out = AnswerText::new(alloc);
    out.put("[");
    mem::drop(run_all(alloc, commands, budget, &mut out));
    out.put("]");
    out.finish()
}

/// The files of a new record after these commands, which it writes the answers of.
pub(crate) fn run_all(
    alloc: Global,
    commands: &[Json],
    budget: Option<u64>,
    out: &mut AnswerText,
) -> Disks {
    match Disks::fresh(alloc).open(alloc, budget) {
        Ok(store) => run_on(alloc, store, commands, out),
        Err((_fault, disks)) => disks,
    }
}

/// The files of a record after the row's commands of this name, or of a database that the row's SQL made.
pub(crate) fn disks_of(alloc: Global, row: &Row, name: &str, budget: Option<u64>) -> Disks {
    let mut answers = AnswerText::new(alloc);
    let disks = match row.list(name) {
        Ok(commands) => run_all(alloc, commands, budget, &mut answers),
        Err(_) => Disks::fresh(alloc).run(alloc, row.text("sql").unwrap_or(""), &mut answers),
    };
    mem::drop(answers);
    disks
}

fn run_on(alloc: Global, store: Store, commands: &[Json], out: &mut AnswerText) -> Disks {
    let mut store = store;
    for command in commands {
        out.put_comma();
        if let Some(budget) = command.get("reopen") {
            match reopened(alloc, store, budget.as_u64(), out) {
                Ok(again) => store = again,
                Err(disks) => return disks,
            }
        } else {
            run(alloc, &mut store, command, out);
        }
    }
    store.close()
}

fn reopened(
    alloc: Global,
    store: Store,
    budget: Option<u64>,
    out: &mut AnswerText,
) -> Result<Store, Disks> {
    match store.close().open(alloc, budget) {
        Ok(again) => {
            out.put("\"opened\"");
            Ok(again)
        }
        Err((_fault, disks)) => {
            out.put("?");
            Err(disks)
        }
    }
}

/// Writes what a command is answered.
pub(crate) fn run(alloc: Global, store: &mut Store, command: &Json, out: &mut AnswerText) {
    if let Some(json) = command.get("put") {
        return put(alloc, store, json, out);
    }
    match ask_in(command) {
        Some(ask) => store.ask(alloc, ask, out),
        None => out.put("?"),
    }
}

/// Writes what a `put` of the row that an object tells of is answered.
pub(crate) fn put(alloc: Global, store: &mut Store, json: &Json, out: &mut AnswerText) {
    let row = row_in(alloc, json);
    match &row {
        Some(row) => store.ask(alloc, Ask::Put(row), out),
        None => out.put("?"),
    }
    mem::drop(row);
}

/// The command that an object or a word stands for, but `put`.
pub(crate) fn ask_in(command: &Json) -> Option<Ask<'_>> {
    match command.as_str() {
        Some("list") => Some(Ask::List),
        Some("log") => Some(Ask::Log),
        _ => keyed(command),
    }
}

fn keyed(command: &Json) -> Option<Ask<'_>> {
    if let Some(key) = text_of(command, "find") {
        return Some(Ask::Find(key));
    }
    if let Some(key) = text_of(command, "touch") {
        return Some(Ask::Touch(key));
    }
    if let Some(key) = text_of(command, "drop_archive") {
        return Some(Ask::DropArchive(key));
    }
    match text_of(command, "forget") {
        Some(key) => Some(Ask::Forget(key)),
        None => None,
    }
}

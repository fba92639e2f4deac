//! A stop at each call of a file, while a command runs.

use crate::asks::Ask;
use crate::commands::{disks_of, run};
use crate::rows::budget_of;
use crate::store::{Disks, NEVER, Stop, Store};
use serde_json::Value as Json;
use std::alloc::Global;
use std::mem;
use test_rows::{AnswerText, Row, RowFault};

// No command here calls a file so often.
const MOST_CALLS: u64 = 10_000;

// The archives, in the order of their uses.
const ARCHIVES: &str = "SELECT key || ' ' || bytes || ' ' || used FROM archive ORDER BY used";

/// What the records hold that were stopped at each call of one of their files.
#[derive(Clone, Copy)]
struct Seen {
    before: bool,
    after: bool,
    other: u64,
}

// What is tried: a command, if there is one, on files that hold something before and after.
struct Trial<'a> {
    alloc: Global,
    command: Option<&'a Json>,
    budget: Option<u64>,
    power_cut: bool,
    start: Disks,
    before: String,
    after: String,
}

impl Drop for Trial<'_> {
    fn drop(self) {
        let Trial {
            alloc: _,
            command: _,
            budget: _,
            power_cut: _,
            start: _,
            before: _,
            after: _,
        } = self;
    }
}

/// What a record holds after a command was stopped at each call of its files: what it held before, or what it holds
/// after. Without a command the record is only opened: from no file on, or from a store that SQL has made.
pub(crate) fn stops(alloc: Global, row: &Row) -> Result<String, RowFault> {
    let power_cut = row.flag("power_cut")?;
    let trial = trial_of(alloc, row, budget_of(row)?, power_cut)?;
    let seen = seen_by(&trial);
    mem::drop(trial);
    seen_text(alloc, seen)
}

fn seen_text(alloc: Global, seen: Seen) -> Result<String, RowFault> {
    let Seen {
        before,
        after,
        other,
    } = seen;
    Ok(format!(in alloc; "{{\"before\":{before},\"after\":{after},\"other\":{other}}}")?)
}

fn trial_of(
    alloc: Global,
    row: &Row,
    budget: Option<u64>,
    power_cut: bool,
) -> Result<Trial<'_>, RowFault> {
    let command = row.find("command");
    let start = disks_of(alloc, row, "before", budget);
    let before = held_after(alloc, &start, budget, None)?;
    let after = held_after(alloc, &start, budget, command)?;
    Ok(Trial {
        alloc,
        command,
        budget,
        power_cut,
        start,
        before,
        after,
    })
}

// What a record on a copy of the files holds after a command: its rows, and its archives.
fn held_after(
    alloc: Global,
    start: &Disks,
    budget: Option<u64>,
    command: Option<&Json>,
) -> Result<String, RowFault> {
    let mut held = AnswerText::new(alloc);
    match left(alloc, start, NEVER, budget, command) {
        Some(disks) => put_held(alloc, disks, budget, &mut held),
        None => held.put("?"),
    }
    held.finish()
}

fn put_held(alloc: Global, disks: Disks, budget: Option<u64>, out: &mut AnswerText) {
    match disks.open(alloc, budget) {
        Ok(mut store) => {
            store.ask(alloc, Ask::List, out);
            mem::drop(store.close().run(alloc, ARCHIVES, out));
        }
        Err((_fault, _disks)) => out.put("?"),
    }
}

// The files after the command has been run on a copy of them, as far as it came.
fn left(
    alloc: Global,
    start: &Disks,
    stop: Stop,
    budget: Option<u64>,
    command: Option<&Json>,
) -> Option<Disks> {
    match start.copied(alloc, stop)?.open(alloc, budget) {
        Ok(store) => Some(run_once(alloc, store, command)),
        Err((_fault, disks)) => Some(disks),
    }
}

fn run_once(alloc: Global, store: Store, command: Option<&Json>) -> Disks {
    let mut store = store;
    if let Some(command) = command {
        let mut answer = AnswerText::new(alloc);
        run(alloc, &mut store, command, &mut answer);
        mem::drop(answer);
    }
    store.stop()
}

fn seen_by(trial: &Trial<'_>) -> Seen {
    let nothing = Seen {
        before: false,
        after: false,
        other: 0,
    };
    let seen = seen_on(trial, nothing, true);
    seen_on(trial, seen, false)
}

// Stops the log, or the database, after each number of calls, up to the first that is not met.
fn seen_on(trial: &Trial<'_>, seen: Seen, stops_log: bool) -> Seen {
    let mut seen = seen;
    for calls in 0..MOST_CALLS {
        match held_then(trial, Stop::after(calls, stops_log)) {
            Some(text) => count(&mut seen, text.as_str(), trial),
            None => return seen,
        }
    }
    seen.other = seen.other.saturating_add(MOST_CALLS);
    seen
}

// What the record holds once it is opened again after a stop; none where the command did not meet it.
fn held_then(trial: &Trial<'_>, stop: Stop) -> Option<String> {
    let mut disks = left(trial.alloc, &trial.start, stop, trial.budget, trial.command)?;
    if !disks.is_blown() {
        return None;
    }
    if trial.power_cut {
        disks.restart();
    }
    held_after(trial.alloc, &disks, trial.budget, None).ok()
}

fn count(seen: &mut Seen, text: &str, trial: &Trial<'_>) {
    if text == trial.before.as_str() {
        seen.before = true;
    } else if text == trial.after.as_str() {
        seen.after = true;
    } else {
        seen.other = seen.other.saturating_add(1);
    }
}

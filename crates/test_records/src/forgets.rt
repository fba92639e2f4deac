//! A call of a file that fails while rows are forgotten for good, as `record --forget` does it.

use crate::commands::run_all;
use crate::store::{Disks, Stop, Store};
use std::alloc::Global;
use std::mem;
use test_rows::{AnswerText, Row, RowFault};

// No forgetting here calls a file so often.
const MOST_CALLS: u64 = 10_000;

/// How the command ended, if a call of one of its files failed.
#[derive(Clone, Copy)]
enum Ended {
    /// The record was not opened.
    Unopened,
    /// With a fault, as the forgetting without the close does.
    AsForgetting,
    /// With a fault, and the forgetting without the close ends with rows.
    AsClosing,
    /// With rows.
    WithRows,
}

/// How often the command ended with a fault of the forgetting, or of the close, and how often it ended with rows.
#[derive(Clone, Copy)]
struct Seen {
    forgetting: bool,
    closing: bool,
    rows: u64,
}

/// How a record ends in which the first, the second and each further call of its log, or else of its database, fails while the rows
/// whose key has this sum are forgotten for good.
pub(crate) fn faults(alloc: Global, row: &Row) -> Result<String, RowFault> {
    let sum = row.text("sum")?;
    let fails_log = row.flag("log")?;
    let mut answers = AnswerText::new(alloc);
    let start = run_all(alloc, row.list("before")?, None, &mut answers);
    mem::drop(answers);
    let seen = seen_on(alloc, &start, fails_log, sum);
    mem::drop(start);
    seen_text(alloc, seen)
}

fn seen_text(alloc: Global, seen: Seen) -> Result<String, RowFault> {
    let Seen {
        forgetting,
        closing,
        rows,
    } = seen;
    Ok(format!(in alloc; "{{\"forgetting\":{forgetting},\"closing\":{closing},\"rows\":{rows}}}")?)
}

// Up to the first number of calls of which none is left.
fn seen_on(alloc: Global, start: &Disks, fails_log: bool, sum: &str) -> Seen {
    let mut seen = Seen {
        forgetting: false,
        closing: false,
        rows: 0,
    };
    for calls in 0..MOST_CALLS {
        match end_of(alloc, start, Stop::after(calls, fails_log), sum) {
            Some(ended) => count(&mut seen, ended),
            None => return seen,
        }
    }
    seen.rows = seen.rows.saturating_add(MOST_CALLS);
    seen
}

fn count(seen: &mut Seen, ended: Ended) {
    match ended {
        Ended::Unopened => (),
        Ended::AsForgetting => seen.forgetting = true,
        Ended::AsClosing => seen.closing = true,
        Ended::WithRows => seen.rows = seen.rows.saturating_add(1),
    }
}

// None if the files have calls left, so that none failed.
fn end_of(alloc: Global, start: &Disks, stop: Stop, sum: &str) -> Option<Ended> {
    match start.copied(alloc, stop)?.open(alloc, None) {
        Ok(store) => end_in(alloc, start, stop, store, sum),
        Err((_fault, _disks)) => Some(Ended::Unopened),
    }
}

fn end_in(alloc: Global, start: &Disks, stop: Stop, store: Store, sum: &str) -> Option<Ended> {
    let (shows_rows, files) = store.forget_for_good(alloc, sum);
    if has_calls_left(files) {
        return None;
    }
    if shows_rows {
        Some(Ended::WithRows)
    } else if forgets_alone(alloc, start, stop, sum) {
        Some(Ended::AsClosing)
    } else {
        Some(Ended::AsForgetting)
    }
}

fn has_calls_left(files: Option<Disks>) -> bool {
    match files {
        Some(mut disks) => !disks.is_blown(),
        None => false,
    }
}

// Whether the same forgetting ends with rows if the record is let go and not closed.
fn forgets_alone(alloc: Global, start: &Disks, stop: Stop, sum: &str) -> bool {
    let Some(disks) = start.copied(alloc, stop) else {
        return false;
    };
    match disks.open(alloc, None) {
        Ok(store) => store.forgets(alloc, sum),
        Err((_fault, _disks)) => false,
    }
}

//! A run over a record in two files that are stopped: one of them after each number of calls, the log first and then the database.
ghost use Rattle.std.specs.Prelude.{◌≡◌, []};

use crate::came::{Came, UNASKED, came_of};
use crate::run::{Case, end_over, options_with};
use crate::runs::keys_put;
use job_rows::Row as Kept;
use plain_data::{Items, Text};
use proc_host::Scripted;
use std::alloc::Global;
use std::mem;
use test_hosts::script::host_by;
use test_records::rows::row_text;
use test_records::store::{Disks, NEVER, Stop, Store};
use test_rows::{AnswerText, Row, RowFault};

// No run here calls a file so often.
const MOST_CALLS: u64 = 10_000;

/// What the record holds after a run that nothing stops, and the keys that the run puts, in their order.
#[derive(Drop)]
struct Whole {
    rows: Items<Kept>,
    puts: Items<Text>,
}

/// A run, the files that it starts on, and what comes of it where nothing stops it.
#[derive(Clone, Copy)]
struct Trial<'a> {
    alloc: Global,
    row: &'a Row,
    case: &'a Case,
    power_cut: bool,
    start: &'a Disks,
    whole: &'a Whole,
}

/// Whether a record held less after a stop than it has to, and whether it held anything that it may not.
#[derive(Clone, Copy)]
struct Left {
    less: bool,
    more: bool,
}

/// What was seen of all stops.
#[derive(Clone, Copy)]
struct Seen {
    find: bool,
    put: bool,
    touch: bool,
    other: u64,
    less: u64,
    more: u64,
}

/// Writes what comes of a run of the row's document, by its script, that is stopped at each call of its record's log and of its record's
/// database. `find` says that there were stops at which a Find was refused, `put` and `touch` that there were some at which a Put, or a
/// Touch, was refused and the run succeeded. `other` counts the runs that did not end as the answers of their record say: a refused Find ends
/// a run by R4, each refused Put and Touch is a note, and no Put is done after one that was refused. `less` counts the records that lack, once they are opened again, a
/// row that was there before or whose Put was answered done; `more` those that hold a row beside these and that of the first refused Put.
/// With `power_cut` the machine goes down with the program. A script `before` is that of a run that comes before, and is not stopped.
pub fn put_answer(
    alloc: Global,
    row: &Row,
    case: &Case,
    out: &mut AnswerText,
) -> Result<(), RowFault> {
    let start = start_of(alloc, row, case)?;
    let seen = seen_from(alloc, row, case, &start);
    mem::drop(start);
    put_seen(out, seen?);
    Ok(())
}

fn seen_from(alloc: Global, row: &Row, case: &Case, start: &Disks) -> Result<Seen, RowFault> {
    let power_cut = row.flag("power_cut")?;
    let whole = whole_from(alloc, row, case, start)?;
    let seen = seen_by(&Trial {
        alloc,
        row,
        case,
        power_cut,
        start,
        whole: &whole,
    });
    mem::drop(whole);
    seen
}

fn put_seen(out: &mut AnswerText, seen: Seen) {
    out.put("{\"find\":");
    out.put_flag(seen.find);
    out.put(",\"put\":");
    out.put_flag(seen.put);
    out.put(",\"touch\":");
    out.put_flag(seen.touch);
    out.put(",\"other\":");
    out.put_natural(seen.other);
    out.put(",\"less\":");
    out.put_natural(seen.less);
    out.put(",\"more\":");
    out.put_natural(seen.more);
    out.put("}");
}

/// The files on which the run starts: those of a record after the run `before`, where there is one.
fn start_of(alloc: Global, row: &Row, case: &Case) -> Result<Disks, RowFault> {
    let mut store = opened(alloc, Disks::fresh(alloc))?;
    let before = match row.find("before") {
        None => Ok(()),
        Some(_) => whole_run(alloc, row, case, "before", &mut store),
    };
    let disks = store.close();
    match before {
        Ok(()) => Ok(disks),
        Err(fault) => {
            mem::drop(disks);
            Err(fault)
        }
    }
}

fn opened(alloc: Global, disks: Disks) -> Result<Store, RowFault> {
    match disks.open(alloc, None) {
        Ok(store) => Ok(store),
        Err((_fault, left)) => {
            mem::drop(left);
            Err(RowFault::BadArgument)
        }
    }
}

/// A run that nothing stops, and in which nothing is refused.
fn whole_run(
    alloc: Global,
    row: &Row,
    case: &Case,
    script: &str,
    store: &mut Store,
) -> Result<(), RowFault> {
    if came_by(alloc, row, case, script, store)?.is_whole() {
        Ok(())
    } else {
        Err(RowFault::BadArgument)
    }
}

/// What came of a run by the script of this name.
fn came_by(
    alloc: Global,
    row: &Row,
    case: &Case,
    script: &str,
    store: &mut Store,
) -> Result<Came, RowFault> {
    let mut host = host_by(alloc, row, script)?;
    let came = came_on(alloc, row, case, &mut host, store);
    mem::drop(host);
    came
}

fn came_on(
    alloc: Global,
    row: &Row,
    case: &Case,
    host: &mut Scripted,
    store: &mut Store,
) -> Result<Came, RowFault>
    requires { host.old.running ≡ [] }
{
    let options = options_with(alloc, row, true)?;
    let end = end_over(alloc, case, host, store, options);
    let came = came_of(store.log(), &end);
    mem::drop(end);
    Ok(came)
}

fn whole_from(alloc: Global, row: &Row, case: &Case, start: &Disks) -> Result<Whole, RowFault> {
    let mut store = opened(alloc, copied(alloc, start, NEVER)?)?;
    let whole = whole_in(alloc, row, case, &mut store);
    mem::drop(store);
    whole
}

fn copied(alloc: Global, disks: &Disks, stop: Stop) -> Result<Disks, RowFault> {
    match disks.copied(alloc, stop) {
        Some(copy) => Ok(copy),
        None => Err(RowFault::OutOfMemory),
    }
}

fn whole_in(alloc: Global, row: &Row, case: &Case, store: &mut Store) -> Result<Whole, RowFault> {
    whole_run(alloc, row, case, "script", store)?;
    let puts = keys_put(alloc, store.log())?;
    match store.rows() {
        Some(rows) => Ok(Whole { rows, puts }),
        None => {
            mem::drop(puts);
            Err(RowFault::BadArgument)
        }
    }
}

fn seen_by(trial: &Trial<'_>) -> Result<Seen, RowFault> {
    let nothing = Seen {
        find: false,
        put: false,
        touch: false,
        other: 0,
        less: 0,
        more: 0,
    };
    let seen = seen_on(trial, nothing, true)?;
    seen_on(trial, seen, false)
}

/// Stops the log, or the database, after each number of calls, up to the first that the run does not make.
fn seen_on(trial: &Trial<'_>, seen: Seen, stops_log: bool) -> Result<Seen, RowFault> {
    let mut seen = seen;
    for calls in 0..MOST_CALLS {
        match stopped(trial, Stop::after(calls, stops_log))? {
            Some((came, left)) => seen = seen_with(seen, came, left),
            None => return Ok(seen),
        }
    }
    Err(RowFault::BadArgument)
}

fn seen_with(seen: Seen, came: Came, left: Left) -> Seen {
    Seen {
        find: seen.find || came.refused_find,
        put: seen.put || came.has_refused_put_alone(),
        touch: seen.touch || came.has_refused_touch_alone(),
        other: seen.other.saturating_add(u64::from(!came.ends_as_told)),
        less: seen.less.saturating_add(u64::from(left.less)),
        more: seen.more.saturating_add(u64::from(left.more)),
    }
}

/// What came of a run that is stopped so, and what its record held then; none where it was not stopped.
fn stopped(trial: &Trial<'_>, stop: Stop) -> Result<Option<(Came, Left)>, RowFault> {
    let (came, mut disks) = run_on(trial, copied(trial.alloc, trial.start, stop)?);
    let is_stopped = disks.is_blown();
    if trial.power_cut {
        disks.restart();
    }
    let held = rows_in(trial.alloc, &disks);
    mem::drop(disks);
    if is_stopped {
        told(trial, came?, held)
    } else {
        mem::drop(held);
        Ok(None)
    }
}

/// Runs over the record in the files, where it opens, and gives them back.
fn run_on(trial: &Trial<'_>, disks: Disks) -> (Result<Came, RowFault>, Disks) {
    match disks.open(trial.alloc, None) {
        Ok(mut store) => {
            let came = came_by(trial.alloc, trial.row, trial.case, "script", &mut store);
            (came, store.stop())
        }
        Err((_fault, left)) => (Ok(UNASKED), left),
    }
}

/// The rows of the record in a copy of the files that nothing stops.
fn rows_in(alloc: Global, disks: &Disks) -> Result<Items<Kept>, RowFault> {
    let mut store = opened(alloc, copied(alloc, disks, NEVER)?)?;
    let rows = store.rows();
    mem::drop(store);
    match rows {
        Some(rows) => Ok(rows),
        None => Err(RowFault::BadArgument),
    }
}

fn told(
    trial: &Trial<'_>,
    came: Came,
    held: Result<Items<Kept>, RowFault>,
) -> Result<Option<(Came, Left)>, RowFault> {
    let held = held?;
    let left = left_of(trial, came, held.as_slice());
    mem::drop(held);
    Ok(Some((came, left?)))
}

/// Compares what a record holds with what it has to hold, and may hold, after such a run.
fn left_of(trial: &Trial<'_>, came: Came, held: &[Kept]) -> Result<Left, RowFault> {
    let mut less = false;
    let mut met: usize = 0;
    let mut more = false;
    for row in trial.whole.rows.as_slice() {
        let is_there = has(trial.alloc, held, row)?;
        let place = place_of(trial.whole.puts.as_slice(), &row.key);
        less = less || !is_there && came.has_to_hold(place);
        more = more || is_there && !came.may_hold(place);
        met = met.saturating_add(usize::from(is_there));
    }
    Ok(Left {
        less,
        more: more || held.len() != met,
    })
}

/// Whether a row is among others, with all that it says.
fn has(alloc: Global, all: &[Kept], row: &Kept) -> Result<bool, RowFault> {
    let text = row_text(alloc, row)?;
    for other in all {
        if row_text(alloc, other)?.as_str() == text.as_str() {
            return Ok(true);
        }
    }
    Ok(false)
}

/// Which of the run's Puts is that of a key, if one is.
fn place_of(puts: &[Text], key: &Text) -> Option<usize> {
    for (place, put) in puts.iter().enumerate() {
        if put.as_str() == key.as_str() {
            return Some(place);
        }
    }
    None
}

//! How long the record of a file takes to answer. `bench/record` asks it.

use crate::asks::opened;
use crate::fill::number_at;
use crate::rows::budget_of;
use job_record::{JobRecord, RecordFault};
use job_rows::Row as RecordRow;
use plain_data::{Items, Keyed, Text};
use sqlite::{Alter, Connection};
use staging::Found;
use std::alloc::Global;
use std::mem;
use std::time::Instant;
use test_rows::{Row, RowFault};

// How many rows the file has, and how often each command is run.
#[derive(Clone, Copy)]
struct Counts {
    rows: u64,
    times: u64,
}

// The microseconds that each of these takes.
#[derive(Clone, Copy)]
struct Times {
    connect: u128,
    open: u128,
    find: u128,
    absent: u128,
    put: u128,
}

/// The microseconds that the record of a file with so many rows takes: to open, of which `connect` to open the file as a database,
/// to find so many keys that are there and as many that are not, and to put as many rows. The file's keys have to be those that are
/// looked for.
pub(crate) fn measured(rt: &HostRuntime, row: &Row) -> Result<String, RowFault> {
    let file = row.text("file")?;
    let counts = counts_of(row)?;
    let start = now(rt)?;
    match Connection::open(rt, file) {
        Ok(conn) => on_connection(rt, conn, counts, start),
        Err(_) => Err(RowFault::BadArgument),
    }
}

fn counts_of(row: &Row) -> Result<Counts, RowFault> {
    Ok(Counts {
        rows: row.natural("rows")?,
        times: row.natural("times")?,
    })
}

fn on_connection<S: Alter + Drop>(
    rt: &HostRuntime,
    conn: Connection<S>,
    counts: Counts,
    start: Instant,
) -> Result<String, RowFault> {
    let connect = micros_since(rt, start);
    let mut record = record_of(rt.alloc(), conn, None)?;
    let times = times_of(rt, &mut record, counts, start, connect);
    mem::drop(record);
    times_text(rt.alloc(), times?)
}

fn record_of<S: Alter + Drop>(
    alloc: Global,
    conn: Connection<S>,
    budget: Option<u64>,
) -> Result<JobRecord<S>, RowFault> {
    match opened(alloc, conn, budget) {
        Ok(record) => Ok(record),
        Err((fault, conn)) => {
            mem::drop(conn);
            Err(row_fault(fault))
        }
    }
}

fn times_of<S: Alter>(
    rt: &HostRuntime,
    record: &mut JobRecord<S>,
    counts: Counts,
    start: Instant,
    connect: Result<u128, RowFault>,
) -> Result<Times, RowFault> {
    let open = micros_since(rt, start)?;
    Ok(Times {
        connect: connect?,
        open,
        find: find_all(rt, record, counts, "", counts.times)?,
        absent: find_all(rt, record, counts, "x", 0)?,
        put: put_all(rt, record, counts)?,
    })
}

fn times_text(alloc: Global, times: Times) -> Result<String, RowFault> {
    let Times {
        connect,
        open,
        find,
        absent,
        put,
    } = times;
    Ok(format!(in alloc;
        "{{\"connect\":{connect},\"open\":{open},\"find\":{find},\"absent\":{absent},\"put\":{put}}}"
    )?)
}

/// The time now. A clock that can't be read counts as a bad argument, as a file that can't be written does.
pub fn now(rt: &HostRuntime) -> Result<Instant, RowFault> {
    Instant::now(rt).map_err(|_unread| RowFault::BadArgument)
}

/// The microseconds that have passed since then.
pub fn micros_since(rt: &HostRuntime, start: Instant) -> Result<u128, RowFault> {
    match start.elapsed(rt) {
        Ok(time) => Ok(time.as_micros()),
        Err(_) => Err(RowFault::BadArgument),
    }
}

fn row_fault(fault: RecordFault) -> RowFault {
    match fault {
        RecordFault::OutOfMemory => RowFault::OutOfMemory,
        _ => RowFault::BadArgument,
    }
}

// The microseconds that looking for all the keys takes, of which so many have to be there.
fn find_all<S: Alter>(
    rt: &HostRuntime,
    record: &mut JobRecord<S>,
    counts: Counts,
    end: &str,
    wanted: u64,
) -> Result<u128, RowFault> {
    let start = now(rt)?;
    let mut found: u64 = 0;
    for at in 0..counts.times {
        if is_there(rt.alloc(), record, number_at(at, counts.rows), end)? {
            found = found.saturating_add(1);
        }
    }
    let micros = micros_since(rt, start)?;
    if found == wanted {
        Ok(micros)
    } else {
        Err(RowFault::BadArgument)
    }
}

fn is_there<S: Alter>(
    alloc: Global,
    record: &mut JobRecord<S>,
    at: u64,
    end: &str,
) -> Result<bool, RowFault> {
    let key = key_of(alloc, at, end)?;
    let found = record.find(key.as_str());
    let answer = match &found {
        Ok(row) => Ok(row.is_some()),
        Err(fault) => Err(row_fault(*fault)),
    };
    mem::drop(found);
    answer
}

// The microseconds that putting all the rows takes.
fn put_all<S: Alter>(
    rt: &HostRuntime,
    record: &mut JobRecord<S>,
    counts: Counts,
) -> Result<u128, RowFault> {
    let start = now(rt)?;
    for at in 0..counts.times {
        put(record, row_of(rt.alloc(), number_at(at, counts.rows))?)?;
    }
    micros_since(rt, start)
}

fn put<S: Alter>(record: &mut JobRecord<S>, row: RecordRow) -> Result<(), RowFault> {
    let lost = record.put(&row);
    mem::drop(row);
    match lost {
        Ok(keys) => {
            mem::drop(keys);
            Ok(())
        }
        Err(fault) => Err(row_fault(fault)),
    }
}

fn row_of(alloc: Global, at: u64) -> Result<RecordRow, RowFault> {
    let key = key_of(alloc, at, "")?;
    Ok(RecordRow {
        key: Text::from_string(key),
        outputs: Keyed::new(alloc),
        files: Items::new(alloc),
        // The file's row has a cost of one less: SQLite writes nothing where a row stays as it is.
        cost: at.saturating_add(2),
        archived: false,
    })
}

// A key of the length that keys have, whose first bytes many keys share.
fn key_of(alloc: Global, at: u64, end: &str) -> Result<String, RowFault> {
    Ok(format!(in alloc;
        "{{\"env\":[],\"inputs\":{{\"n\":{at:08}}},\"tool\":{{\"baseCommand\":\"sort\",\"class\":\"CommandLineTool\",\"inputs\":{{\"n\":\"int\"}},\"outputs\":{{\"out\":\"stdout\"}},\"stdout\":\"out.txt\"}}}}{end}"
    )?)
}

/// The microseconds that the record of a file with so many archived rows takes under the row's budget: to put a first new row, behind
/// which it knows the bytes of all archives, to put so many more, and to touch as many.
pub(crate) fn measured_archives(rt: &HostRuntime, row: &Row) -> Result<String, RowFault> {
    let file = row.text("file")?;
    let counts = counts_of(row)?;
    let budget = budget_of(row)?;
    match Connection::open(rt, file) {
        Ok(conn) => on_archives(rt, conn, counts, budget),
        Err(_) => Err(RowFault::BadArgument),
    }
}

fn on_archives<S: Alter + Drop>(
    rt: &HostRuntime,
    conn: Connection<S>,
    counts: Counts,
    budget: Option<u64>,
) -> Result<String, RowFault> {
    let mut record = record_of(rt.alloc(), conn, budget)?;
    let times = archive_times(rt, &mut record, counts);
    mem::drop(record);
    times
}

fn archive_times<S: Alter>(
    rt: &HostRuntime,
    record: &mut JobRecord<S>,
    counts: Counts,
) -> Result<String, RowFault> {
    let first = put_new(rt, record, counts.rows, 1)?;
    let put = put_new(rt, record, counts.rows.saturating_add(1), counts.times)?;
    let touch = touch_all(rt, record, counts.rows.saturating_add(1), counts.times)?;
    Ok(format!(in rt.alloc(); "{{\"first\":{first},\"put\":{put},\"touch\":{touch}}}")?)
}

// The microseconds that putting so many archived rows takes, whose numbers begin with this one.
fn put_new<S: Alter>(
    rt: &HostRuntime,
    record: &mut JobRecord<S>,
    first: u64,
    times: u64,
) -> Result<u128, RowFault> {
    let start = now(rt)?;
    for at in 0..times {
        put(record, archived_row(rt.alloc(), first.saturating_add(at))?)?;
    }
    micros_since(rt, start)
}

// The microseconds that touching these rows takes.
fn touch_all<S: Alter>(
    rt: &HostRuntime,
    record: &mut JobRecord<S>,
    first: u64,
    times: u64,
) -> Result<u128, RowFault> {
    let start = now(rt)?;
    for at in 0..times {
        touch(rt.alloc(), record, first.saturating_add(at))?;
    }
    micros_since(rt, start)
}

fn touch<S: Alter>(alloc: Global, record: &mut JobRecord<S>, at: u64) -> Result<(), RowFault> {
    let key = key_of(alloc, at, "")?;
    match record.touch(key.as_str()) {
        Ok(()) => Ok(()),
        Err(fault) => Err(row_fault(fault)),
    }
}

// A row whose archive has as many bytes as that of each row of the file.
fn archived_row(alloc: Global, at: u64) -> Result<RecordRow, RowFault> {
    let mut row = row_of(alloc, at)?;
    row.files.push(Found {
        name: Text::from_text(alloc, "out.txt")?,
        is_dir: false,
        size: 1000,
        sum: Text::from_text(alloc, "a9993e364706816aba3e25717850c26c9cd0d89d")?,
    })?;
    row.archived = true;
    Ok(row)
}

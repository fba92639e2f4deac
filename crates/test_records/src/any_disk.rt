//! Records over two files of any disk. A call of `sqlite` or `job_record` at a store that is named takes the check long, so they are
//! called here and in `asks.rt` over type parameters.

use crate::asks::{opened, ran};
use job_record::{JobRecord, RecordFault};
use record_program::{Ending, forgotten, forgotten_for_good};
use sqlite::{Connection, Error, ErrorCode, FileStore, Files, Options};
use sqlite_disk::Disk;
use std::alloc::Global;
use std::mem;
use test_rows::AnswerText;

/// The record in the files, or the refusal with the files again.
pub(crate) fn begun<D: Disk + Drop>(
    alloc: Global,
    files: Files<D>,
    budget: Option<u64>,
) -> Result<JobRecord<FileStore<D>>, (RecordFault, Files<D>)> {
    match connected(alloc, files) {
        Ok(conn) => match opened(alloc, conn, budget) {
            Ok(record) => Ok(record),
            Err((fault, conn)) => Err((fault, conn.into_store().close())),
        },
        Err((error, files)) => Err((RecordFault::Store(error), files)),
    }
}

fn connected<D: Disk + Drop>(
    alloc: Global,
    files: Files<D>,
) -> Result<Connection<FileStore<D>>, (Error, Files<D>)> {
    if !files.may_be_used() {
        return Err((Error::SqliteFailure(ErrorCode::SystemIoFailure), files));
    }
    match Connection::open_files(alloc, files, options()) {
        Ok(conn) => Ok(conn),
        Err((error, left)) => Err((error, left.into_files())),
    }
}

/// The files of a record that is let go.
pub(crate) fn stopped<D: Disk + Drop>(record: JobRecord<FileStore<D>>) -> Files<D> {
    record.into_connection().into_store().close()
}

/// The files of a record that is closed in good order.
pub(crate) fn closed<D: Disk + Drop>(record: JobRecord<FileStore<D>>) -> Files<D> {
    disconnected(record.into_connection())
}

fn disconnected<D: Disk + Drop>(conn: Connection<FileStore<D>>) -> Files<D> {
    match conn.close_files() {
        Ok(files) => files,
        Err((_error, store)) => store.close(),
    }
}

/// Forgets the rows with this sum for good. Says whether that ends with rows, and gives the files back if they were closed.
pub(crate) fn forgotten_in<D: Disk + Drop>(
    alloc: Global,
    record: JobRecord<FileStore<D>>,
    sum: &str,
) -> (bool, Option<Files<D>>) {
    let (ending, files) = forgotten_for_good(alloc, record, sum);
    (shows_rows(ending), files)
}

/// Forgets the rows with this sum, and lets the record go. Says whether that ends with rows.
pub(crate) fn forgets<D: Disk + Drop>(
    alloc: Global,
    mut record: JobRecord<FileStore<D>>,
    sum: &str,
) -> bool {
    let ending = forgotten(alloc, &mut record, sum);
    mem::drop(stopped(record));
    shows_rows(ending)
}

fn shows_rows(ending: Ending) -> bool {
    let shows = matches!(&ending, Ending::Rows(_));
    mem::drop(ending);
    shows
}

/// Runs statements on the files, or writes the first column of each row that a query shows, and gives the files back.
pub(crate) fn run_on<D: Disk + Drop>(
    alloc: Global,
    files: Files<D>,
    sql: &str,
    out: &mut AnswerText,
) -> Files<D> {
    match connected(alloc, files) {
        Ok(mut conn) => {
            ran(&mut conn, sql, out);
            disconnected(conn)
        }
        Err((_error, files)) => files,
    }
}

// The log is copied into the database often, since each commit copies the whole of a file in memory.
fn options() -> Options {
    let mut options = Options::new(7);
    options.checkpoint_frames = 64;
    options.cache_pages = 16;
    options.spill_pages = 64;
    options
}

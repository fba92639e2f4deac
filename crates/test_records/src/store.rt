//! Records over two files in memory, each behind a fuse that stops it at a call. Only here, and where `bench.rt` opens a
//! file, is anything called at a store that is named, since each such call takes the check long: once in a function.

use crate::any_disk::{begun, closed, forgets, forgotten_in, run_on, stopped};
use crate::asks::{Ask, asked, dropped, found, listed, put, touched};
use job_record::{JobRecord, RecordFault};
use job_rows::{Entry, Record, RecordError, Row as RecordRow};
use plain_data::{Items, Text};
use sqlite::{FileStore, Files};
use sqlite_disk::{Crash, Disk, Fuse, Memory};
use std::alloc::Global;
use test_rows::AnswerText;

type File = Fuse<Memory>;

/// The two files.
pub struct Disks {
    files: Files<File>,
}

/// A record.
pub struct Store {
    record: JobRecord<FileStore<File>>,
}

// They are written out, so that a caller does not prove again how each part is dropped.
impl Drop for Disks {
    fn drop(self) {
        let Disks { files: _ } = self;
    }
}

impl Drop for Store {
    fn drop(self) {
        let Store { record: _ } = self;
    }
}

/// How many calls each file still answers.
#[derive(Clone, Copy)]
pub struct Stop {
    log: u64,
    db: u64,
}

/// Neither file stops.
pub const NEVER: Stop = Stop {
    log: u64::MAX,
    db: u64::MAX,
};

impl Stop {
    /// The log, or else the database, stops after so many calls.
    pub fn after(calls: u64, stops_log: bool) -> Stop {
        if stops_log {
            Stop {
                log: calls,
                db: NEVER.db,
            }
        } else {
            Stop {
                log: NEVER.log,
                db: calls,
            }
        }
    }
}

impl Disks {
    /// Two empty files.
    pub fn fresh(alloc: Global) -> Disks {
        fused(Memory::new(alloc), Memory::new(alloc), NEVER)
    }

    /// An empty log, and a database file of these bytes.
    pub(crate) fn of_bytes(alloc: Global, bytes: &[u8]) -> Option<Disks> {
        let db = written(alloc, bytes)?;
        Some(fused(Memory::new(alloc), db, NEVER))
    }

    /// A copy of both, all of it on the disk, which stops after so many calls.
    pub fn copied(&self, alloc: Global, stop: Stop) -> Option<Disks> {
        let log = written(alloc, self.files.log.inner().bytes())?;
        let db = written(alloc, self.files.db.inner().bytes())?;
        Some(fused(log, db, stop))
    }

    /// The bytes of the database file.
    pub(crate) fn bytes(&self) -> &[u8] {
        self.files.db.inner().bytes()
    }

    /// Whether a file has stopped, or is about to.
    pub fn is_blown(&mut self) -> bool {
        has_stopped(&mut self.files.log) || has_stopped(&mut self.files.db)
    }

    /// The machine goes down and comes back.
    pub fn restart(&mut self) {
        self.files.log.crash();
        self.files.db.crash();
    }

    /// The record in the files, or the refusal with the files again.
    pub fn open(self, alloc: Global, budget: Option<u64>) -> Result<Store, (RecordFault, Disks)> {
        let Disks { files } = self;
        match begun(alloc, files, budget) {
            Ok(record) => Ok(Store { record }),
            Err((fault, files)) => Err((fault, Disks { files })),
        }
    }

    /// Runs statements, or shows the first column of each row of a query.
    pub(crate) fn run(self, alloc: Global, sql: &str, out: &mut AnswerText) -> Disks {
        let Disks { files } = self;
        Disks {
            files: run_on(alloc, files, sql, out),
        }
    }
}

impl Store {
    /// Writes what a command is answered.
    pub(crate) fn ask(&mut self, alloc: Global, ask: Ask<'_>, out: &mut AnswerText) {
        asked(alloc, &mut self.record, ask, out)
    }

    /// What the record was asked since it was opened, oldest first.
    pub fn log(&self) -> &[Entry] {
        self.record.log()
    }

    /// All rows, where they can be listed.
    pub fn rows(&mut self) -> Option<Items<RecordRow>> {
        listed(&mut self.record)
    }

    /// The files of a record that is closed in good order.
    pub fn close(self) -> Disks {
        let Store { record } = self;
        Disks {
            files: closed(record),
        }
    }

    /// Forgets the rows with this sum for good. Says whether that ends with rows, and gives the files back if they were closed.
    pub(crate) fn forget_for_good(self, alloc: Global, sum: &str) -> (bool, Option<Disks>) {
        let Store { record } = self;
        match forgotten_in(alloc, record, sum) {
            (shows_rows, Some(files)) => (shows_rows, Some(Disks { files })),
            (shows_rows, None) => (shows_rows, None),
        }
    }

    /// Forgets the rows with this sum, and lets the record go. Says whether that ends with rows.
    pub(crate) fn forgets(self, alloc: Global, sum: &str) -> bool {
        let Store { record } = self;
        forgets(alloc, record, sum)
    }

    /// The files of a record that is let go.
    pub fn stop(self) -> Disks {
        let Store { record } = self;
        Disks {
            files: stopped(record),
        }
    }
}

// A run asks it as any record. Of its map these clauses say nothing: `job_record` says it, of any store.
impl Record for Store {
    ghost log = { λ store. store.record.log.items };

    ghost is_sound = { λ store. ⊥ };

    ghost holds = { λ store map. ⊥ };

    fn find(&mut self, key: &Text) -> Result<Option<RecordRow>, RecordError> {
        found(&mut self.record, key)
    }

    fn put(&mut self, row: &RecordRow) -> Result<Items<Text>, RecordError> {
        put(&mut self.record, row)
    }

    fn touch(&mut self, key: &Text) -> Result<(), RecordError> {
        touched(&mut self.record, key)
    }

    fn drop_archive(&mut self, key: &Text) -> Result<(), RecordError> {
        dropped(&mut self.record, key)
    }
}

// These two files, each of which stops after so many calls.
fn fused(log: Memory, db: Memory, stop: Stop) -> Disks {
    Disks {
        files: Files {
            log: Fuse::new(log, stop.log),
            db: Fuse::new(db, stop.db),
        },
    }
}

// A file with these bytes, all of them on the disk.
fn written(alloc: Global, bytes: &[u8]) -> Option<Memory> {
    let mut file = Memory::new(alloc);
    if !bytes.is_empty() && (file.write_at(0, bytes).is_err() || file.sync().is_err()) {
        return None;
    }
    Some(file)
}

fn has_stopped(file: &mut File) -> bool {
    !file.may_be_used() || file.len().is_err()
}

//! The record of a file that is one already, held while its archives are looked at. None is made.
ghost use Rattle.std.specs.Prelude.{◌≡◌, None, IfOk, IfErr};
ghost use Rattle.record_program.specs.Closing.{TrimsForGood};
ghost use Rattle.record_program.specs.Endings.{IsEnding, ShowsNone};
ghost use Rattle.record_program.specs.Opened.{IsRecordOf, TrimsOn};

use crate::closing::trimmed_for_good;
use crate::databases::Databases;
use crate::ending::Ending;
use crate::file::{database_of, opened_in, unseen};
use crate::look::{Look, looked};
use job_record::{JobRecord, RecordFault};
use plain_data::{Items, Text};
use sqlite::FileStore;
use sqlite_disk::Disk;
use std::alloc::Global;
use std::rt::Files as Folder;
use std::{fs, mem};

/// Lets archives of a file's record go, those of the oldest last use first, until the others have at most so many bytes together.
pub fn trimmed_on<R: AllocGlobal + Folder + Databases>(
    rt: &R,
    file: &str,
    budget: u64,
) -> (Ending, Items<Text>)
    ensures ending { IsEnding result.0 }
    ensures whose { TrimsOn R.Medium.Disk (R.opens rt.now file.now) budget result.0 result.1 }
{
    match held_record(rt, file) {
        Ok(kept) => trimmed_in(rt.alloc(), kept, budget),
        Err(ending) => (ending, Items::new(rt.alloc())),
    }
}

fn trimmed_in<D: Disk + Drop>(
    alloc: Global,
    kept: JobRecord<FileStore<D>>,
    budget: u64,
) -> (Ending, Items<Text>)
    ensures ending { IsEnding result.0 }
    ensures closes { (files : _)
        × TrimsForGood D.Disk budget kept.space kept.conn result.0 result.1 files }
{
    let (ending, lost, files) = trimmed_for_good(alloc, kept, budget);
    mem::drop(files);
    (ending, lost)
}

/// Opens the record of a file, also one of version 1, which is made one of version 2. Gives the ending where the file holds none.
pub fn held_record<R: AllocGlobal + Folder + Databases>(
    rt: &R,
    file: &str,
) -> Result<JobRecord<FileStore<R::Medium>>, Ending>
    ensures space { IfOk result
        (λ kept. kept.space ≡ record { budget = None; counted = None }) }
    ensures whose { IfOk result (λ kept. IsRecordOf R.Medium.Disk (R.opens rt.now file.now)
        None kept.conn) }
    ensures err { IfErr result ShowsNone }
{
    match fs::metadata(rt, file) {
        Ok(found) if found.is_dir() => Err(Ending::Input),
        Ok(_) => held_in_file(rt, file),
        Err(error) => Err(unseen(&error)),
    }
}

fn held_in_file<R: AllocGlobal + Folder + Databases>(
    rt: &R,
    file: &str,
) -> Result<JobRecord<FileStore<R::Medium>>, Ending>
    ensures space { IfOk result
        (λ kept. kept.space ≡ record { budget = None; counted = None }) }
    ensures whose { IfOk result (λ kept. IsRecordOf R.Medium.Disk (R.opens rt.now file.now)
        None kept.conn) }
    ensures err { IfErr result ShowsNone }
{
    match looked(rt, file) {
        Ok(look) => held_in_look(rt, file, &look),
        Err(fault) => Err(Ending::Record(fault)),
    }
}

// A file that holds nothing is not opened, since the store would begin a record in it.
fn held_in_look<R: AllocGlobal + Folder + Databases>(
    rt: &R,
    file: &str,
    look: &Look,
) -> Result<JobRecord<FileStore<R::Medium>>, Ending>
    ensures space { IfOk result
        (λ kept. kept.space ≡ record { budget = None; counted = None }) }
    ensures whose { IfOk result (λ kept. IsRecordOf R.Medium.Disk (R.opens rt.now file.now)
        None kept.conn) }
    ensures err { IfErr result ShowsNone }
{
    if look.is_empty() {
        return Err(Ending::Record(RecordFault::NotARecord));
    }
    match opened_as_it_is(rt, file, look.new_log()) {
        Ok(kept) => Ok(kept),
        Err(fault) => Err(Ending::Record(fault)),
    }
}

// What a budget lets go leaves room and takes none, so the record is opened without one.
fn opened_as_it_is<R: AllocGlobal + Folder + Databases>(
    rt: &R,
    file: &str,
    new_log: Option<&str>,
) -> Result<JobRecord<FileStore<R::Medium>>, RecordFault>
    ensures space { IfOk result
        (λ kept. kept.space ≡ record { budget = None; counted = None }) }
    ensures whose { IfOk result (λ kept. IsRecordOf R.Medium.Disk (R.opens rt.now file.now)
        None kept.conn) }
{
    match database_of(rt, file, new_log) {
        Ok(conn) => opened_in(rt, conn, new_log, None, false),
        Err(fault) => Err(fault),
    }
}

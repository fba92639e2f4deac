//! The record of a file.
ghost use Rattle.std.specs.Prelude.{◌≡◌, ℕ, false, List, [], Option, None, IfOk, IfErr, option_map};
ghost use Rattle.sqlite.specs.Files.{file_state};
ghost use Rattle.record_program.specs.Closing.{ForgetsForGood, Leaves};
ghost use Rattle.record_program.specs.Endings.{IsEnding, ShowsNone, Says};
ghost use Rattle.record_program.specs.Listing.{ListsOn};
ghost use Rattle.record_program.specs.Opened.{IsOf, IsRecordOf, IsShown, IsForgotten, EndsWith, EndsOn, TrimsOn};
ghost use Rattle.record_program.specs.declared.ending.Ending.{Ending};
ghost use Rattle.record_program.specs.declared.listing.Listing.{Listing};

use crate::closing::{forgotten_for_good, left_of};
use crate::copying::may_be_copied;
use crate::databases::Databases;
use crate::ending::Ending;
use crate::held::trimmed_on;
use crate::kept::{FileLeft, FileRecord};
use crate::listing::{Listing, listed_on, seen_on};
use crate::look::{Look, looked, looked_if_there, remove_log};
use crate::store::shown_in;
use crate::tables::as_record;
use job_record::{JobRecord, RecordFault};
use job_rows::Record;
use plain_data::{Items, Text};
use sqlite::{Connection, File, FileStore};
use sqlite_disk::Disk;
use std::alloc::Global;
use std::io::Write;
use std::rt::Files as Folder;
use std::{fs, io, mem};

/// The status of a fault.
const FAULT: u8 = 3;

/// A runtime whose files may hold records.
pub trait Records {
    /// The record of a file, as a run asks it.
    type Kept: Record + Drop;

    /// What a record leaves where it is closed.
    type Left: Drop;

    /// The record was opened of the file of this name, with this budget: its rows are those that the file had.
    ghost opens: { Self → List ℕ → Option ℕ → Self.Kept → Type 0 };

    /// `record` may end so on the file of this name, where the rows whose key has this SHA-1 are forgotten first.
    ghost ends: { Self → List ℕ → Option (List ℕ) → Ending → Type 0 };

    /// `record` may end so on the file of this name, where archives go until the others have so many bytes, and these are the keys of those
    /// that went for good.
    ghost trims: { Self → List ℕ → ℕ → Ending → List (List ℕ) → Type 0 };

    /// The record of the file of this name has these rows and archives.
    ghost lists: { Self → List ℕ → Listing → Type 0 };

    /// A record of which this is left holds what it held, in its file or in its file and its log.
    ghost leaves: { Self.Kept → Self.Left → Type 0 };

    /// Forgets the rows of a file's record whose key has the SHA-1 `forget`, where one is given, and returns how that and the
    /// rows that are left end the command.
    fn record_ending(&self, file: &str, forget: Option<&str>) -> Ending
        ensures ending { IsEnding result }
        ensures whose { ends self.now file.now (option_map (λ sum. sum.now) forget.entry) result };

    /// Lets archives of a file's record go, those of the oldest last use first, until the others have at most so many bytes together. All
    /// rows stay. Returns how that and the rows end the command, and the keys of those that went for good.
    fn trim_record(&self, file: &str, budget: u64) -> (Ending, Items<Text>)
        ensures ending { IsEnding result.0 }
        ensures whose { trims self.now file.now budget result.0 result.1 };

    /// Lists the rows and the archives of a file's record. One of version 1 is made one of version 2, and else nothing is changed. If there is
    /// none, or not all of it reads, gives how that ends the command.
    fn list_record(&self, file: &str) -> Result<Listing, Ending>
        ensures whose { IfOk result (lists self.now file.now) }
        ensures err { IfErr result ShowsNone };

    /// The same, and if another holds the file or it may not be written, of a copy of it: nothing is changed then.
    fn see_rows(&self, file: &str) -> Result<Listing, Ending>
        ensures whose { IfOk result (lists self.now file.now) }
        ensures err { IfErr result ShowsNone };

    /// Opens the record of a file. The archives may have together at most as many bytes as the budget, if there is one. Makes a record
    /// where nothing is there, and in a database that has none of its tables, and one of version 2 of one of version 1. What is
    /// refused keeps every byte. No other process can open it until it is closed.
    fn open_record(&self, file: &str, budget: Option<u64>) -> Result<Self::Kept, RecordFault>
        ensures log { IfOk result (λ kept. Self.Kept.log kept ≡ []) }
        ensures whose { IfOk result (opens self.now file.now budget) };

    /// Opens the record of a file without a budget, to look at it: if another holds the file or it may not be written, a copy of it. What is
    /// changed in a copy goes with it.
    fn see_record(&self, file: &str) -> Result<Self::Kept, RecordFault>
        ensures log { IfOk result (λ kept. Self.Kept.log kept ≡ []) }
        ensures whose { IfOk result (opens self.now file.now None) };

    /// Closes a record in good order, so that the file alone holds it. Where that can't be done its log stays beside the file,
    /// and no row is lost.
    fn close_record(&self, kept: Self::Kept) -> Self::Left
        ensures { leaves kept result };
}

impl Records for HostRuntime {
    type Kept = FileRecord;

    type Left = FileLeft;

    ghost opens = { λ rt file budget kept. IsRecordOf ⟦<File as Disk>⟧ (⟦<HostRuntime as Databases>⟧.opens rt file) budget kept.rows.conn };

    ghost ends = { λ rt file forget ending. EndsOn ⟦<File as Disk>⟧ (⟦<HostRuntime as Databases>⟧.opens rt file) forget ending };

    ghost trims = { λ rt file budget ending lost. TrimsOn ⟦<File as Disk>⟧ (⟦<HostRuntime as Databases>⟧.opens rt file) budget ending lost };

    ghost lists = { λ rt file listing. ListsOn ⟦<File as Disk>⟧ (⟦<HostRuntime as Databases>⟧.opens rt file) listing };

    ghost leaves = { λ kept left. Leaves ⟦<File as Disk>⟧ kept.rows.conn left.left };

    fn record_ending(&self, file: &str, forget: Option<&str>) -> Ending {
        ending_of(self, file, forget)
    }

    fn trim_record(&self, file: &str, budget: u64) -> (Ending, Items<Text>) {
        trimmed_on(self, file, budget)
    }

    fn list_record(&self, file: &str) -> Result<Listing, Ending> {
        listed_on(self, file)
    }

    fn see_rows(&self, file: &str) -> Result<Listing, Ending> {
        seen_on(self, file)
    }

    fn open_record(&self, file: &str, budget: Option<u64>) -> Result<FileRecord, RecordFault> {
        match opened(self, file, budget) {
            Ok(rows) => Ok(FileRecord { rows }),
            Err(fault) => Err(fault),
        }
    }

    fn see_record(&self, file: &str) -> Result<FileRecord, RecordFault> {
        match seen(self, file) {
            Ok(rows) => Ok(FileRecord { rows }),
            Err(fault) => Err(fault),
        }
    }

    fn close_record(&self, kept: FileRecord) -> FileLeft {
        FileLeft {
            left: left_of(kept.into_connection()),
        }
    }
}

/// Runs `record` on a file: forgets the rows whose key has the SHA-1 `forget`, where one is given, and writes a line
/// for each row to `out`, or what went wrong to `err`.
///
/// Returns the exit status: 0, or 3 for a fault or a write that fails.
pub fn main_run<R: Records, O: Write, E: Write>(
    rt: &R,
    file: &str,
    forget: Option<&str>,
    out: &mut O,
    err: &mut E,
) -> u8
    ensures { Says (R.ends rt.now file.now (option_map (λ sum. sum.now) forget.entry))
        (O.contents out.old) (O.contents out.new) (E.contents err.old) (E.contents err.new) result }
{
    let ending = rt.record_ending(file, forget);
    match ending.print(out, err) {
        Ok(()) => ending.status(),
        Err(_) => FAULT,
    }
}

// A file that is absent, or has no byte, is made a record, and so is a database with none of the tables.
fn opened<R: AllocGlobal + Folder + Databases>(
    rt: &R,
    file: &str,
    budget: Option<u64>,
) -> Result<JobRecord<FileStore<R::Medium>>, RecordFault>
    ensures log { IfOk result (λ kept. kept.log.items ≡ []) }
    ensures whose { IfOk result (λ kept. IsRecordOf R.Medium.Disk (R.opens rt.now file.now)
        budget kept.conn) }
{
    match looked_if_there(rt, file) {
        Ok(Some(look)) => opened_at(rt, file, look.new_log(), budget),
        Ok(None) => opened_at(rt, file, None, budget),
        Err(fault) => Err(fault),
    }
}

fn seen<R: AllocGlobal + Folder + Databases>(
    rt: &R,
    file: &str,
) -> Result<JobRecord<FileStore<R::Medium>>, RecordFault>
    ensures log { IfOk result (λ kept. kept.log.items ≡ []) }
    ensures whose { IfOk result (λ kept. IsRecordOf R.Medium.Disk (R.opens rt.now file.now)
        None kept.conn) }
{
    match opened(rt, file, None) {
        Ok(kept) => Ok(kept),
        Err(fault) => seen_in_copy(rt, file, fault),
    }
}

/// The record in a copy of a file that could not be opened for this, if that may help.
pub fn seen_in_copy<R: AllocGlobal + Folder + Databases>(
    rt: &R,
    file: &str,
    fault: RecordFault,
) -> Result<JobRecord<FileStore<R::Medium>>, RecordFault>
    ensures log { IfOk result (λ kept. kept.log.items ≡ []) }
    ensures whose { IfOk result (λ kept. IsRecordOf R.Medium.Disk (R.opens rt.now file.now)
        None kept.conn) }
{
    match copy_of(rt, file, fault) {
        Ok(conn) => opened_in(rt, conn, None, None, false),
        Err(fault) => Err(fault),
    }
}

fn opened_at<R: AllocGlobal + Folder + Databases>(
    rt: &R,
    file: &str,
    new_log: Option<&str>,
    budget: Option<u64>,
) -> Result<JobRecord<FileStore<R::Medium>>, RecordFault>
    ensures log { IfOk result (λ kept. kept.log.items ≡ []) }
    ensures whose { IfOk result (λ kept. IsRecordOf R.Medium.Disk (R.opens rt.now file.now)
        budget kept.conn) }
{
    match database_of(rt, file, new_log) {
        Ok(conn) => opened_in(rt, conn, new_log, budget, true),
        Err(fault) => Err(fault),
    }
}

/// Where this is refused, the log that it made is removed again.
pub fn database_of<R: AllocGlobal + Folder + Databases>(
    rt: &R,
    file: &str,
    new_log: Option<&str>,
) -> Result<Connection<FileStore<R::Medium>>, RecordFault>
    ensures opened { IfOk result (λ conn. R.opens rt.now file.now (file_state conn)) }
    ensures settled { IfOk result (λ conn. conn.in_transaction ≡ false) }
{
    match rt.open_database(file) {
        Ok(conn) => Ok(conn),
        Err((error, None)) => Err(RecordFault::Store(error)),
        Err((error, Some(left))) => {
            remove_log(rt, new_log);
            mem::drop(left);
            Err(RecordFault::Store(error))
        }
    }
}

/// What is refused is let go and not closed: closing would write its log into it.
pub fn opened_in<F: AllocGlobal + Folder, D: Disk + Drop>(
    rt: &F,
    conn: Connection<FileStore<D>>,
    new_log: Option<&str>,
    budget: Option<u64>,
    makes: bool,
) -> Result<JobRecord<FileStore<D>>, RecordFault>
    requires { conn.in_transaction ≡ false }
    ensures log { IfOk result (λ kept. kept.log.items ≡ []) }
    ensures space { IfOk result
        (λ kept. kept.space ≡ record { budget = budget; counted = None }) }
    ensures of { IfOk result (λ kept. IsOf D.Disk budget conn kept.conn) }
{
    match as_record(rt.alloc(), conn, budget, makes) {
        Ok(record) => Ok(record),
        Err((fault, conn)) => {
            remove_log(rt, new_log);
            mem::drop(conn);
            Err(fault)
        }
    }
}

#[tactic(auto, using(crate::specs::Opened::unshown, crate::proofs::Unshown::is_ending))]
fn ending_of<R: AllocGlobal + Folder + Databases>(
    rt: &R,
    file: &str,
    forget: Option<&str>,
) -> Ending
    ensures ending { IsEnding result }
    ensures whose { EndsOn R.Medium.Disk (R.opens rt.now file.now)
        (option_map (λ sum. sum.now) forget.entry) result }
{
    match fs::metadata(rt, file) {
        Ok(found) if found.is_dir() => Ending::Input,
        Ok(_) => in_file(rt, file, forget),
        Err(error) => unseen(&error),
    }
}

/// Why a file can't be looked at.
pub fn unseen(error: &io::Error) -> Ending
    ensures { ShowsNone result }
{
    match error.kind() {
        io::ErrorKind::OutOfMemory => Ending::Record(RecordFault::OutOfMemory),
        _ => Ending::Input,
    }
}

#[tactic(auto, using(crate::specs::Opened::unshown, crate::proofs::Unshown::is_ending))]
fn in_file<R: AllocGlobal + Folder + Databases>(rt: &R, file: &str, forget: Option<&str>) -> Ending
    ensures ending { IsEnding result }
    ensures whose { EndsOn R.Medium.Disk (R.opens rt.now file.now)
        (option_map (λ sum. sum.now) forget.entry) result }
{
    match looked(rt, file) {
        Ok(look) => in_look(rt, file, &look, forget),
        Err(fault) => Ending::Record(fault),
    }
}

// A file that holds nothing is no record, and is not opened, since the store would begin one in it.
#[tactic(auto, using(crate::specs::Opened::unshown, crate::proofs::Unshown::is_ending))]
fn in_look<R: AllocGlobal + Folder + Databases>(
    rt: &R,
    file: &str,
    look: &Look,
    forget: Option<&str>,
) -> Ending
    ensures ending { IsEnding result }
    ensures whose { EndsOn R.Medium.Disk (R.opens rt.now file.now)
        (option_map (λ sum. sum.now) forget.entry) result }
{
    if look.is_empty() {
        return Ending::Record(RecordFault::NotARecord);
    }
    match database_of(rt, file, look.new_log()) {
        Ok(conn) => in_database(rt, conn, look.new_log(), forget),
        Err(fault) => in_copy(rt, file, fault, forget),
    }
}

// To forget rows takes the file itself. What is shown of a copy leaves no log beside the file.
#[tactic(auto, using(crate::specs::Opened::unshown, crate::proofs::Unshown::is_ending))]
fn in_copy<R: AllocGlobal + Folder + Databases>(
    rt: &R,
    file: &str,
    fault: RecordFault,
    forget: Option<&str>,
) -> Ending
    ensures ending { IsEnding result }
    ensures whose { EndsOn R.Medium.Disk (R.opens rt.now file.now)
        (option_map (λ sum. sum.now) forget.entry) result }
{
    if forget.is_some() {
        return Ending::Record(fault);
    }
    match copy_of(rt, file, fault) {
        Ok(conn) => in_database(rt, conn, None, forget),
        Err(fault) => Ending::Record(fault),
    }
}

/// A copy of a database that could not be opened for this, if that may help.
pub fn copy_of<R: Databases>(
    rt: &R,
    file: &str,
    fault: RecordFault,
) -> Result<Connection<FileStore<R::Medium>>, RecordFault>
    ensures opened { IfOk result (λ conn. R.opens rt.now file.now (file_state conn)) }
    ensures settled { IfOk result (λ conn. conn.in_transaction ≡ false) }
{
    if !may_be_copied(&fault) {
        return Err(fault);
    }
    match rt.open_copy(file) {
        Ok(conn) => Ok(conn),
        Err(_) => Err(fault),
    }
}

fn in_database<F: AllocGlobal + Folder, D: Disk + Drop>(
    rt: &F,
    conn: Connection<FileStore<D>>,
    new_log: Option<&str>,
    forget: Option<&str>,
) -> Ending
    requires { conn.in_transaction ≡ false }
    ensures ending { IsEnding result }
    ensures ends { EndsWith D.Disk conn (option_map (λ sum. sum.now) forget.entry) result }
{
    match forget {
        Some(sum) => without_rows(rt, conn, new_log, sum),
        None => only_shown(rt, conn, new_log),
    }
}

// The file is not written: it is let go and not closed, so its log stays beside it, and one that was made is removed.
fn only_shown<F: AllocGlobal + Folder, D: Disk + Drop>(
    rt: &F,
    mut conn: Connection<FileStore<D>>,
    new_log: Option<&str>,
) -> Ending
    ensures ending { IsEnding result }
    ensures shown { IsShown D.Disk conn result }
{
    let ending = shown_in(rt.alloc(), &mut conn);
    remove_log(rt, new_log);
    mem::drop(conn);
    ending
}

// What is forgotten leaves room and takes none, so the archives have no budget.
fn without_rows<F: AllocGlobal + Folder, D: Disk + Drop>(
    rt: &F,
    conn: Connection<FileStore<D>>,
    new_log: Option<&str>,
    sum: &str,
) -> Ending
    requires { conn.in_transaction ≡ false }
    ensures ending { IsEnding result }
    ensures forgotten { IsForgotten D.Disk sum.now conn result }
{
    match opened_in(rt, conn, new_log, None, false) {
        Ok(kept) => forgotten_in(rt.alloc(), kept, sum),
        Err(fault) => Ending::Record(fault),
    }
}

fn forgotten_in<D: Disk + Drop>(alloc: Global, kept: JobRecord<FileStore<D>>, sum: &str) -> Ending
    ensures ending { IsEnding result }
    ensures closes { (files : _) × ForgetsForGood D.Disk sum.now kept.space kept.conn result files }
{
    let (ending, files) = forgotten_for_good(alloc, kept, sum);
    mem::drop(files);
    ending
}

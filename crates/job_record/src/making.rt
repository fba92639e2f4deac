//! Opening a record, and making one if the store has none.

ghost use Rattle.std.specs.Prelude.{◌≡◌, ◌⊎◌, [], true, false, IsTrue, IfOk, IfErr};
ghost use Rattle.sqlite.specs.State.{HasCleanDisk, IsUnchanged, Survives, CommitsShowing};
ghost use Rattle.sqlite.specs.Held.{state};
ghost use Rattle.job_record.specs.declared.fault.RecordFault.TheVariants.{NotARecord, Store};
ghost use Rattle.job_record.specs.Statements.{version_text};
ghost use Rattle.job_record.specs.Opening.{HasTable, LacksColumn, VersionIn, ReadsVersion, CannotRead, IsUnready, Opens, make_texts};
ghost use Rattle.job_record.specs.OpenMap.{CrashesAs};
ghost use Rattle.job_record.specs.inner.Lacking.{lacking};
ghost use Rattle.job_record.specs.inner.Opened.{CommitsTables, CommitsFirst, HasThese, MakesOrFails, OpensFirst, OpensMap, ReadsAs, RunsThese, tables_of};

use crate::changes::ended;
use crate::fault::RecordFault;
use crate::migrating::{MAKE_ARCHIVE, migrate};
use crate::tables::{self, LIST, VERSION_TEXT, misread};
use sqlite::{Alter, Connection, Error, Row as Columns, Transaction};
use sqlite_resolve::CompileError;
use std::alloc::Global;

const FIRST_VERSION: i64 = 1;

const VERSION: i64 = 2;

const LOOK_FOR_ARCHIVES: &str = "SELECT key, bytes, used FROM archive";

const MAKE_META: &str = "CREATE TABLE meta (name TEXT PRIMARY KEY, value INTEGER NOT NULL) STRICT";

const MAKE_JOB: &str =
    "CREATE TABLE job (key TEXT PRIMARY KEY, outputs TEXT NOT NULL, files TEXT NOT NULL, cost INTEGER NOT NULL CHECK (cost BETWEEN 1 AND 1000000000000), archived INTEGER NOT NULL CHECK (archived IN (0, 1))) STRICT";

const NOTE_VERSION: &str = "INSERT INTO meta (name, value) VALUES ('version', 2)";

/// Which tables a store has: none, those of version 1, or all.
pub enum Tables {
    None,
    First,
    All,
}

/// Makes the tables if the store has none, and makes a record of version 1 one of version 2.
pub fn open_tables<S: Alter>(alloc: Global, conn: &mut Connection<S>) -> Result<(), RecordFault>
    requires { conn.old.in_transaction ≡ false }
    ensures opens { HasCleanDisk (state S.Store conn.new) → Opens S.Store conn.old conn.new result }
    ensures map { HasCleanDisk (state S.Store conn.new) → (budget : _)
        → OpensMap budget (state S.Store conn.old) (state S.Store conn.new) result }
    ensures crash { CrashesAs (state S.Store conn.old) (state S.Store conn.new) }
    ensures mode { conn.new.in_transaction ≡ false }
{
    match find_tables(conn)? {
        Tables::None => make_tables(conn),
        Tables::First => open_first(alloc, conn),
        Tables::All => open_current(conn),
    }
}

/// Of version 2 with all tables. One of version 1 is no record, and of another version it is R2.
pub fn open_current<S: Alter>(conn: &mut Connection<S>) -> Result<(), RecordFault>
    ensures reads { HasCleanDisk (state S.Store conn.new)
        → ReadsAs true (state S.Store conn.old) (state S.Store conn.new) 2 result }
    ensures survives { Survives (state S.Store conn.old) (state S.Store conn.new)
        (CommitsShowing version_text [] (state S.Store conn.old)) }
    ensures mode { conn.old.in_transaction ≡ false → conn.new.in_transaction ≡ false }
{
    match read_version(conn)? {
        VERSION => Ok(()),
        FIRST_VERSION => Err(RecordFault::NotARecord),
        _ => Err(RecordFault::WrongVersion),
    }
}

/// Of version 1 without the archives. One that says that it is of version 2 is no record.
pub fn is_first<S: Alter>(conn: &mut Connection<S>) -> Result<(), RecordFault>
    ensures reads { HasCleanDisk (state S.Store conn.new)
        → ReadsAs false (state S.Store conn.old) (state S.Store conn.new) 1 result }
    ensures survives { Survives (state S.Store conn.old) (state S.Store conn.new)
        (CommitsShowing version_text [] (state S.Store conn.old)) }
    ensures mode { conn.old.in_transaction ≡ false → conn.new.in_transaction ≡ false }
{
    match read_version(conn)? {
        FIRST_VERSION => Ok(()),
        VERSION => Err(RecordFault::NotARecord),
        _ => Err(RecordFault::WrongVersion),
    }
}

fn open_first<S: Alter>(alloc: Global, conn: &mut Connection<S>) -> Result<(), RecordFault>
    requires { conn.old.in_transaction ≡ false }
    ensures opens { HasCleanDisk (state S.Store conn.new)
        → OpensFirst S.Store conn.old conn.new result }
    ensures survives { Survives (state S.Store conn.old) (state S.Store conn.new)
        (CommitsFirst S.Store conn.old) }
    ensures mode { conn.new.in_transaction ≡ false }
{
    is_first(conn)?;
    migrate(alloc, conn)
}

/// None of the tables, those of version 1, or all.
pub fn find_tables<S: Alter>(conn: &mut Connection<S>) -> Result<Tables, RecordFault>
    ensures ok { HasCleanDisk (state S.Store conn.new)
        → IfOk result (λ tables. HasThese (state S.Store conn.old).now.schema tables
        × IsUnchanged (state S.Store conn.old) (state S.Store conn.new)) }
    ensures err { HasCleanDisk (state S.Store conn.new)
        → IfErr result (IsUnready S.Store conn.old conn.new) }
    ensures survives { Survives (state S.Store conn.old) (state S.Store conn.new) (λ _. ⊥) }
    ensures mode { conn.old.in_transaction ≡ false → conn.new.in_transaction ≡ false }
{
    let meta = has_table(conn, VERSION_TEXT)?;
    let job = has_table(conn, LIST)?;
    let archive = has_table(conn, LOOK_FOR_ARCHIVES)?;
    tables_of(meta, job, archive)
}

fn tables_of(meta: bool, job: bool, archive: bool) -> Result<Tables, RecordFault>
    ensures { result ≡ tables_of meta job archive }
{
    match (meta, job, archive) {
        (true, true, true) => Ok(Tables::All),
        (true, true, false) => Ok(Tables::First),
        (false, false, false) => Ok(Tables::None),
        _ => Err(RecordFault::NotARecord),
    }
}

// Whether there is the table that the query reads. One without a column is R1.
fn has_table<S: Alter>(conn: &mut Connection<S>, query: &str) -> Result<bool, RecordFault>
    ensures ok { HasCleanDisk (state S.Store conn.new)
        → IfOk result (λ there. HasTable (state S.Store conn.old).now.schema query.now there
        × IsUnchanged (state S.Store conn.old) (state S.Store conn.new)) }
    ensures err { HasCleanDisk (state S.Store conn.new)
        → IfErr result
        (λ fault. ((fault ≡ NotARecord) × LacksColumn (state S.Store conn.old).now.schema query.now
        × IsUnchanged (state S.Store conn.old) (state S.Store conn.new)) ⊎ ((e : _)
        × (fault ≡ Store e) × CannotRead S.Store query.now conn.old conn.new e)) }
    ensures survives { Survives (state S.Store conn.old) (state S.Store conn.new) (λ _. ⊥) }
    ensures mode { conn.old.in_transaction ≡ false → conn.new.in_transaction ≡ false }
{
    match conn.prepare(query) {
        Ok(_) => Ok(true),
        Err(error) => lacking(error),
    }
}

// What the refusal of a query says of its table.
fn lacking(error: Error) -> Result<bool, RecordFault>
    ensures { result ≡ lacking error }
{
    match error {
        Error::SqlInputError(CompileError::NoSuchTable) => Ok(false),
        Error::SqlInputError(CompileError::NoSuchColumn) => Err(RecordFault::NotARecord),
        _ => Err(RecordFault::Store(error)),
    }
}

// The tables and the version, in one transaction.
fn make_tables<S: Alter>(conn: &mut Connection<S>) -> Result<(), RecordFault>
    requires { conn.old.in_transaction ≡ false }
    ensures makes { HasCleanDisk (state S.Store conn.new)
        → MakesOrFails S.Store conn.old conn.new result }
    ensures survives { Survives (state S.Store conn.old) (state S.Store conn.new)
        (CommitsTables S.Store conn.old) }
    ensures mode { conn.new.in_transaction ≡ false }
{
    let mut making = conn.transaction();
    let answer = make_in(&mut making);
    ended(making, answer)
}

fn make_in<S: Alter>(making: &mut Transaction<'_, S>) -> Result<(), RecordFault>
    ensures same_reference { making.new.conn.ghost_name ≡ making.old.conn.ghost_name }
    ensures makes { HasCleanDisk (state S.Store making.new.conn.now)
        → IsTrue (state S.Store making.old.conn.now).in_transaction
        → RunsThese S.Store making.old.conn.now making.new.conn.now make_texts result }
    ensures survives { Survives (state S.Store making.old.conn.now)
        (state S.Store making.new.conn.now) (λ _. ⊥) }
{
    making.execute(MAKE_META, &[])?;
    making.execute(MAKE_JOB, &[])?;
    making.execute(MAKE_ARCHIVE, &[])?;
    making.execute(NOTE_VERSION, &[])?;
    Ok(())
}

// The version: R1 if there is none.
#[tactic(auto, using(crate::proofs::Opens::version_reads))]
fn read_version<S: Alter>(conn: &mut Connection<S>) -> Result<i64, RecordFault>
    ensures reads { HasCleanDisk (state S.Store conn.new)
        → ReadsVersion (state S.Store conn.old) (state S.Store conn.new) result }
    ensures survives { Survives (state S.Store conn.old) (state S.Store conn.new)
        (CommitsShowing version_text [] (state S.Store conn.old)) }
    ensures mode { conn.old.in_transaction ≡ false → conn.new.in_transaction ≡ false }
{
    match tables::version(conn) {
        Ok(Some(columns)) => version_in(&columns),
        Ok(None) => Err(RecordFault::NotARecord),
        Err(error) => Err(RecordFault::Store(error)),
    }
}

fn version_in(columns: &Columns) -> Result<i64, RecordFault>
    ensures { VersionIn columns.now result }
{
    match columns.get(0) {
        Ok(version) => Ok(version),
        Err(error) => Err(misread(error)),
    }
}

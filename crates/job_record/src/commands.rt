//! The commands, from rows to the statements of their tables.

ghost use Rattle.std.specs.Prelude.{◌≡◌, false, ◌+◌, ◌++◌, ◌≤◌, [], Any, IfOk, IfSome, IfErr, OnOk};
ghost use Rattle.std.specs.Vec.{vec_len, vec_capacity};
ghost use Rattle.sqlite.specs.State.{HasCleanDisk, Survives, CommitsShowing};
ghost use Rattle.sqlite.specs.Held.{state};
ghost use Rattle.job_rows.specs.Log.{entries_of};
ghost use Rattle.job_record.specs.Statements.{find_text, list_text, key_params};
ghost use Rattle.job_record.specs.Archives.{archives_text, AreArchivesIn, IsNoArchive};
ghost use Rattle.job_rows.specs.Storable.{IsKept};
ghost use Rattle.job_rows.specs.Map.{fits};
ghost use Rattle.job_record.specs.Texts.{ReadsBack};
ghost use Rattle.job_record.specs.Columns.{IsRowOf, IsUnread, AreRowsOf, AreKeysOf, HasNoKey, Misreads};
ghost use Rattle.job_record.specs.RecordMap.{Finds, Lists, ListsArchives, ListsKeys};
ghost use Rattle.job_record.specs.Map.{kept_as};
ghost use Rattle.job_record.specs.inner.Crash.{RunsOpen};
ghost use Rattle.job_record.specs.inner.Inside.{IsStorable, putting_of};

use crate::changes::Putting;
use crate::fault::RecordFault;
use crate::tables;
use crate::texts::{row_of, stored_of};
use job_rows::{Archive, Command, Entry, RecordRefusal, Row};
use plain_data::{Items, Text};
use sqlite::{Alter, Connection, Error, Row as Columns};
use std::alloc::{AllocError, Global};

/// A copy of the key, and room for an entry of the log.
pub fn room(alloc: Global, log: &mut Vec<Entry>, key: &str) -> Result<Text, AllocError>
    ensures key { IfOk result (λ copy. copy ≡ key.now) }
    ensures room { OnOk result (vec_len log.new + 1 ≤ vec_capacity log.new) }
    ensures same { log.new.items ≡ log.old.items }
{
    log.reserve(1)?;
    Text::from_text(alloc, key)
}

/// Notes in the log what a command was answered, if there is something to tell.
pub fn note(
    log: &mut Vec<Entry>,
    command: Command,
    key: Text,
    told: Option<Result<(), RecordRefusal>>,
)
    requires { vec_len log.old + 1 ≤ vec_capacity log.old }
    ensures { log.new.items ≡ log.old.items ++ entries_of command key told }
{
    if let Some(answer) = told {
        log.push_reserved(Entry {
            command,
            key,
            answer,
        });
    }
}

/// The row of a key, if there is one. A store that is damaged may show the row of another key, which is R1.
pub fn look_up<S: Alter>(
    alloc: Global,
    conn: &mut Connection<S>,
    key: &str,
) -> Result<Option<Row>, RecordFault>
    ensures finds { HasCleanDisk (state S.Store conn.new)
        → Finds S.Store conn.old conn.new key.now result }
    ensures keyed { IfOk result (λ found. IfSome found (λ row. row.key ≡ key.now)) }
    ensures survives { Survives (state S.Store conn.old) (state S.Store conn.new)
        (CommitsShowing find_text (key_params key.now) (state S.Store conn.old)) }
    ensures open { HasCleanDisk (state S.Store conn.new)
        → RunsOpen (state S.Store conn.old) (state S.Store conn.new) }
    ensures mode { conn.old.in_transaction ≡ false → conn.new.in_transaction ≡ false }
{
    match tables::find(conn, key) {
        Ok(Some(columns)) => match read_row(alloc, &columns) {
            Ok(row) if row.key.as_str() == key => Ok(Some(row)),
            Ok(_) => Err(RecordFault::NotARecord),
            Err(fault) => Err(fault),
        },
        Ok(None) => Ok(None),
        Err(error) => Err(RecordFault::Store(error)),
    }
}

/// The row as it is put: its texts say that it is archived if its archive alone is within the budget.
pub fn putting_of(alloc: Global, row: &Row, budget: Option<u64>) -> Result<Putting, AllocError>
    ensures is { IfOk result (λ putting. putting ≡ putting_of budget row.now) }
    ensures reads_back { IfOk result (λ _. IsKept row.now.outputs
        → ReadsBack (kept_as budget row.now)) }
    ensures storable { IfOk result IsStorable }
{
    let bytes = row.bytes();
    let archived = row.archived && fits(bytes, budget);
    Ok(Putting {
        stored: stored_of(alloc, row, archived)?,
        bytes,
        is_asked: row.archived,
    })
}

fn fits(bytes: u64, budget: Option<u64>) -> bool
    ensures { result ≡ fits bytes budget }
{
    match budget {
        Some(budget) => bytes <= budget,
        None => true,
    }
}

/// All rows, by key.
pub fn read_all<S: Alter>(
    alloc: Global,
    conn: &mut Connection<S>,
) -> Result<Items<Row>, RecordFault>
    ensures lists { HasCleanDisk (state S.Store conn.new) → Lists S.Store conn.old conn.new result }
    ensures survives { Survives (state S.Store conn.old) (state S.Store conn.new)
        (CommitsShowing list_text [] (state S.Store conn.old)) }
    ensures open { HasCleanDisk (state S.Store conn.new)
        → RunsOpen (state S.Store conn.old) (state S.Store conn.new) }
    ensures mode { conn.old.in_transaction ≡ false → conn.new.in_transaction ≡ false }
{
    match tables::list(conn) {
        Ok(columns) => read_rows(alloc, columns.as_slice()),
        Err(error) => Err(RecordFault::Store(error)),
    }
}

fn read_rows(alloc: Global, all: &[Columns]) -> Result<Items<Row>, RecordFault>
    ensures ok { IfOk result (AreRowsOf all.now) }
    ensures err { IfErr result (Misreads (Any IsUnread all.now)) }
{
    let mut rows = Vec::new(alloc);
    for columns in all {
        rows.push(read_row(alloc, columns)?)?;
    }
    Ok(Items::from_vec(rows))
}

fn read_row(alloc: Global, columns: &Columns) -> Result<Row, RecordFault>
    ensures ok { IfOk result (IsRowOf columns.now) }
    ensures err { IfErr result (Misreads (IsUnread columns.now)) }
{
    row_of(alloc, tables::stored_in(columns)?)
}

/// The keys of all rows, also of those that do not read.
pub fn all_keys<S: Alter>(
    alloc: Global,
    conn: &mut Connection<S>,
) -> Result<Items<Text>, RecordFault>
    ensures lists { HasCleanDisk (state S.Store conn.new)
        → ListsKeys S.Store conn.old conn.new result }
    ensures survives { Survives (state S.Store conn.old) (state S.Store conn.new)
        (CommitsShowing list_text [] (state S.Store conn.old)) }
    ensures open { HasCleanDisk (state S.Store conn.new)
        → RunsOpen (state S.Store conn.old) (state S.Store conn.new) }
    ensures mode { conn.old.in_transaction ≡ false → conn.new.in_transaction ≡ false }
{
    match tables::list(conn) {
        Ok(columns) => read_keys(alloc, columns.as_slice()),
        Err(error) => Err(RecordFault::Store(error)),
    }
}

fn read_keys(alloc: Global, all: &[Columns]) -> Result<Items<Text>, RecordFault>
    ensures ok { IfOk result (AreKeysOf all.now) }
    ensures err { IfErr result (Misreads (Any HasNoKey all.now)) }
{
    let mut keys = Vec::new(alloc);
    for columns in all {
        keys.push(tables::key_in(columns)?)?;
    }
    Ok(Items::from_vec(keys))
}

/// All archives, by their last use.
pub fn all_archives<S: Alter>(
    alloc: Global,
    conn: &mut Connection<S>,
) -> Result<Items<Archive>, RecordFault>
    ensures lists { HasCleanDisk (state S.Store conn.new)
        → ListsArchives S.Store conn.old conn.new result }
    ensures survives { Survives (state S.Store conn.old) (state S.Store conn.new)
        (CommitsShowing archives_text [] (state S.Store conn.old)) }
    ensures open { HasCleanDisk (state S.Store conn.new)
        → RunsOpen (state S.Store conn.old) (state S.Store conn.new) }
    ensures mode { conn.old.in_transaction ≡ false → conn.new.in_transaction ≡ false }
{
    match tables::archives(conn) {
        Ok(columns) => read_archives(alloc, columns.as_slice()),
        Err(error) => Err(RecordFault::Store(error)),
    }
}

fn read_archives(alloc: Global, all: &[Columns]) -> Result<Items<Archive>, RecordFault>
    ensures ok { IfOk result (AreArchivesIn all.now) }
    ensures err { IfErr result (Misreads (Any IsNoArchive all.now)) }
{
    let mut archives = Vec::new(alloc);
    for columns in all {
        archives.push(tables::archive_in(columns)?)?;
    }
    Ok(Items::from_vec(archives))
}

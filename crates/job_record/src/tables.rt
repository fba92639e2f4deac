//! The statements of the record. Each function here runs one statement of `sqlite`, which keeps a plan for each text.

ghost use Rattle.std.specs.Prelude.{◌≡◌, ◌≢◌, ◌<◌, ◌-◌, ◌^◌, ℕ, ℤ, pos, min, not, length, [], IfOk, IfErr, IsTrue, MatchOption, false};
ghost use Rattle.std.specs.Ordering.{int_eq};
ghost use Rattle.sqlite.specs.Order.{column};
ghost use Rattle.sqlite.specs.declared.types.Value.TheVariants.{Int};
ghost use Rattle.sqlite.specs.declared.error.Error.TheVariants.{QueryReturnedNoRows};
ghost use Rattle.sqlite.specs.State.{HasCleanDisk, Survives, QueriesRow, Shown, FailsToQuery, CommitsShowing};
ghost use Rattle.sqlite.specs.Held.{state};
ghost use Rattle.sqlite.specs.Values.{bound};
ghost use Rattle.sqlite_rules.specs.Lists.{Has};
ghost use Rattle.job_record.specs.Statements.{version_text, find_text, list_text, put_text, drop_archive_text, forget_text, key_params};
ghost use Rattle.job_record.specs.Archives.{archives_text, IsArchiveIn, IsNoArchive};
ghost use Rattle.job_record.specs.Texts.{AreUtf8};
ghost use Rattle.job_record.specs.Columns.{IsText, AreColumnsOf, HasNoKey, Misreads, misread_as};
ghost use Rattle.job_record.specs.Blame.{MeetsNone};
ghost use Rattle.job_record.specs.inner.Crash.{RunsOpen};
ghost use Rattle.job_record.specs.inner.Inside.{Always, Makes, Meets, Never, Steps, Traces, with_row, without_flag, without_row};

use crate::fault::RecordFault;
use crate::inside;
use crate::texts::Stored;
use job_rows::Archive;
use plain_data::Text;
use sqlite::types::ValueRef;
use sqlite::{Alter, Connection, Error, ErrorCode, Row as Columns, Transaction, params};

const FIND: &str = "SELECT key, outputs, files, cost, archived FROM job WHERE key = ?1";

pub const LIST: &str = "SELECT key, outputs, files, cost, archived FROM job ORDER BY key";

const ARCHIVES: &str = "SELECT key, bytes, used FROM archive ORDER BY used";

pub const VERSION_TEXT: &str = "SELECT value FROM meta WHERE name = 'version'";

/// The columns of the row with the version, if there is one.
pub fn version<S: Alter>(conn: &mut Connection<S>) -> Result<Option<Columns>, Error>
    ensures ok { HasCleanDisk (state S.Store conn.new) → IfOk result (λ o. MatchOption o
        (QueriesRow version_text [] (state S.Store conn.old) (state S.Store conn.new)
        (Err QueryReturnedNoRows))
        (λ c. QueriesRow version_text [] (state S.Store conn.old) (state S.Store conn.new)
        (Ok c))) }
    ensures err { HasCleanDisk (state S.Store conn.new)
        → IfErr result (λ e. (e ≢ QueryReturnedNoRows)
        × QueriesRow version_text [] (state S.Store conn.old) (state S.Store conn.new) (Err e)) }
    ensures survives { Survives (state S.Store conn.old) (state S.Store conn.new)
        (CommitsShowing version_text [] (state S.Store conn.old)) }
    ensures mode { conn.old.in_transaction ≡ false → conn.new.in_transaction ≡ false }
{
    match conn.query_row(VERSION_TEXT, &[]) {
        Ok(columns) => Ok(Some(columns)),
        Err(Error::QueryReturnedNoRows) => Ok(None),
        Err(error) => Err(error),
    }
}

/// The columns of the row with a key, if there is one.
pub fn find<S: Alter>(conn: &mut Connection<S>, key: &str) -> Result<Option<Columns>, Error>
    ensures ok { HasCleanDisk (state S.Store conn.new) → IfOk result (λ o. MatchOption o
        (QueriesRow find_text (key_params key.now) (state S.Store conn.old) (state S.Store conn.new)
        (Err QueryReturnedNoRows))
        (λ c. QueriesRow find_text (key_params key.now) (state S.Store conn.old)
        (state S.Store conn.new) (Ok c))) }
    ensures err { HasCleanDisk (state S.Store conn.new)
        → IfErr result (λ e. (e ≢ QueryReturnedNoRows)
        × QueriesRow find_text (key_params key.now) (state S.Store conn.old)
        (state S.Store conn.new) (Err e)) }
    ensures survives { Survives (state S.Store conn.old) (state S.Store conn.new)
        (CommitsShowing find_text (key_params key.now) (state S.Store conn.old)) }
    ensures open { HasCleanDisk (state S.Store conn.new)
        → RunsOpen (state S.Store conn.old) (state S.Store conn.new) }
    ensures mode { conn.old.in_transaction ≡ false → conn.new.in_transaction ≡ false }
{
    match first_row(conn, FIND, params![key]) {
        Ok(columns) => Ok(Some(columns)),
        Err(Error::QueryReturnedNoRows) => Ok(None),
        Err(error) => Err(error),
    }
}

/// Sets the row of a key.
pub fn put<S: Alter>(change: &mut Transaction<'_, S>, row: &Stored) -> Result<(), RecordFault>
    ensures same_reference { change.new.conn.ghost_name ≡ change.old.conn.ghost_name }
    ensures step { HasCleanDisk (state S.Store change.new.conn.now)
        → IsTrue (state S.Store change.old.conn.now).in_transaction
        → Makes (state S.Store change.old.conn.now) (state S.Store change.new.conn.now)
        (with_row row.now) result }
    ensures survives { Survives (state S.Store change.old.conn.now)
        (state S.Store change.new.conn.now) (λ _. ⊥) }
    ensures utf8 { AreUtf8 row.now }
    ensures cause { (texts : _) → Has texts put_text
        → HasCleanDisk (state S.Store change.new.conn.now)
        → IsTrue (state S.Store change.old.conn.now).in_transaction
        → Traces S.Store texts change.old.conn.now change.new.conn.now result }
{
    match inside::put(change, row) {
        Ok(_) => Ok(()),
        Err(error) => Err(RecordFault::Store(error)),
    }
}

/// A number as the store has it. The table's own limit refuses a cost that is past 10^12.
pub fn held(number: u64) -> i64
    ensures { result ≡ pos (min number (2 ^ 63 - 1)) }
{
    i64::try_from(number).unwrap_or(i64::MAX)
}

/// Notes in the row of a key that its archive is gone, and answers whether there is one.
pub fn drop_archive<S: Alter>(
    change: &mut Transaction<'_, S>,
    key: &str,
) -> Result<bool, RecordFault>
    ensures same_reference { change.new.conn.ghost_name ≡ change.old.conn.ghost_name }
    ensures step { HasCleanDisk (state S.Store change.new.conn.now)
        → IsTrue (state S.Store change.old.conn.now).in_transaction
        → Steps (state S.Store change.old.conn.now) (state S.Store change.new.conn.now) Always
        (Meets key.now (without_flag key.now)) Never result }
    ensures survives { Survives (state S.Store change.old.conn.now)
        (state S.Store change.new.conn.now) (λ _. ⊥) }
    ensures cause { (texts : _) → Has texts drop_archive_text
        → HasCleanDisk (state S.Store change.new.conn.now)
        → IsTrue (state S.Store change.old.conn.now).in_transaction
        → Traces S.Store texts change.old.conn.now change.new.conn.now result }
    ensures none { (texts : _) → Has texts drop_archive_text
        → HasCleanDisk (state S.Store change.new.conn.now)
        → IsTrue (state S.Store change.old.conn.now).in_transaction
        → IfOk result
        (λ met. met ≡ false → MeetsNone S.Store texts change.old.conn.now) }
{
    match inside::drop_archive(change, key) {
        Ok(met) => Ok(met > 0),
        Err(error) => Err(RecordFault::Store(error)),
    }
}

/// Takes the row of a key out, and answers whether there was one.
pub fn forget<S: Alter>(change: &mut Transaction<'_, S>, key: &str) -> Result<bool, RecordFault>
    ensures same_reference { change.new.conn.ghost_name ≡ change.old.conn.ghost_name }
    ensures step { HasCleanDisk (state S.Store change.new.conn.now)
        → IsTrue (state S.Store change.old.conn.now).in_transaction
        → Steps (state S.Store change.old.conn.now) (state S.Store change.new.conn.now) Always
        (Meets key.now (without_row key.now)) Never result }
    ensures survives { Survives (state S.Store change.old.conn.now)
        (state S.Store change.new.conn.now) (λ _. ⊥) }
    ensures cause { (texts : _) → Has texts forget_text
        → HasCleanDisk (state S.Store change.new.conn.now)
        → IsTrue (state S.Store change.old.conn.now).in_transaction
        → Traces S.Store texts change.old.conn.now change.new.conn.now result }
    ensures none { (texts : _) → Has texts forget_text
        → HasCleanDisk (state S.Store change.new.conn.now)
        → IsTrue (state S.Store change.old.conn.now).in_transaction
        → IfOk result
        (λ met. met ≡ false → MeetsNone S.Store texts change.old.conn.now) }
{
    match inside::forget(change, key) {
        Ok(met) => Ok(met > 0),
        Err(error) => Err(RecordFault::Store(error)),
    }
}

/// The columns of all rows, by key.
pub fn list<S: Alter>(conn: &mut Connection<S>) -> Result<Vec<Columns>, Error>
    ensures ok { HasCleanDisk (state S.Store conn.new)
        → IfOk result (λ rows. Shown list_text [] (state S.Store conn.old) (state S.Store conn.new)
        rows.items) }
    ensures err { HasCleanDisk (state S.Store conn.new)
        → IfErr result (FailsToQuery list_text [] (state S.Store conn.old)
        (state S.Store conn.new)) }
    ensures survives { Survives (state S.Store conn.old) (state S.Store conn.new)
        (CommitsShowing list_text [] (state S.Store conn.old)) }
    ensures open { HasCleanDisk (state S.Store conn.new)
        → RunsOpen (state S.Store conn.old) (state S.Store conn.new) }
    ensures mode { conn.old.in_transaction ≡ false → conn.new.in_transaction ≡ false }
{
    all_rows(conn, LIST, &[])
}

/// The columns of all archives, by their last use.
pub fn archives<S: Alter>(conn: &mut Connection<S>) -> Result<Vec<Columns>, Error>
    ensures ok { HasCleanDisk (state S.Store conn.new)
        → IfOk result (λ rows. Shown archives_text [] (state S.Store conn.old)
        (state S.Store conn.new) rows.items) }
    ensures err { HasCleanDisk (state S.Store conn.new)
        → IfErr result (FailsToQuery archives_text [] (state S.Store conn.old)
        (state S.Store conn.new)) }
    ensures survives { Survives (state S.Store conn.old) (state S.Store conn.new)
        (CommitsShowing archives_text [] (state S.Store conn.old)) }
    ensures open { HasCleanDisk (state S.Store conn.new)
        → RunsOpen (state S.Store conn.old) (state S.Store conn.new) }
    ensures mode { conn.old.in_transaction ≡ false → conn.new.in_transaction ≡ false }
{
    all_rows(conn, ARCHIVES, &[])
}

// A statement says what it does only of an open connection, and `prepare` refuses one that a failure has shut.
// The first row of a query, on an open connection.
fn first_row<S: Alter>(
    conn: &mut Connection<S>,
    text: &str,
    params: &[ValueRef<'_>],
) -> Result<Columns, Error>
    ensures row { HasCleanDisk (state S.Store conn.new)
        → QueriesRow text.now (bound params.now) (state S.Store conn.old) (state S.Store conn.new)
        result }
    ensures survives { Survives (state S.Store conn.old) (state S.Store conn.new)
        (CommitsShowing text.now (bound params.now) (state S.Store conn.old)) }
    ensures open { HasCleanDisk (state S.Store conn.new)
        → RunsOpen (state S.Store conn.old) (state S.Store conn.new) }
    ensures mode { conn.old.in_transaction ≡ false → conn.new.in_transaction ≡ false }
{
    let statement = conn.prepare(text)?;
    statement.query_row(conn, params)
}

// All rows of a query, on an open connection.
fn all_rows<S: Alter>(
    conn: &mut Connection<S>,
    text: &str,
    params: &[ValueRef<'_>],
) -> Result<Vec<Columns>, Error>
    ensures ok { HasCleanDisk (state S.Store conn.new)
        → IfOk result (λ rows. Shown text.now (bound params.now) (state S.Store conn.old)
        (state S.Store conn.new) rows.items) }
    ensures err { HasCleanDisk (state S.Store conn.new)
        → IfErr result (FailsToQuery text.now (bound params.now) (state S.Store conn.old)
        (state S.Store conn.new)) }
    ensures survives { Survives (state S.Store conn.old) (state S.Store conn.new)
        (CommitsShowing text.now (bound params.now) (state S.Store conn.old)) }
    ensures open { HasCleanDisk (state S.Store conn.new)
        → RunsOpen (state S.Store conn.old) (state S.Store conn.new) }
    ensures mode { conn.old.in_transaction ≡ false → conn.new.in_transaction ≡ false }
{
    let statement = conn.prepare(text)?;
    statement.query_all(conn, params)
}

/// The columns as texts and numbers.
pub fn stored_in(columns: &Columns) -> Result<Stored, RecordFault>
    ensures ok { IfOk result (AreColumnsOf columns.now) }
    ensures err { IfErr result (Misreads ((s : _) → ¬ AreColumnsOf columns.now s)) }
{
    Ok(Stored {
        key: text_at(columns, 0)?,
        outputs: text_at(columns, 1)?,
        files: text_at(columns, 2)?,
        cost: natural_at(columns, 3)?,
        archived: flag_at(columns, 4)?,
    })
}

/// The key that the columns begin with.
pub fn key_in(columns: &Columns) -> Result<Text, RecordFault>
    ensures ok { IfOk result (IsText (column columns.now 0)) }
    ensures err { IfErr result (Misreads (HasNoKey columns.now)) }
{
    text_at(columns, 0)
}

/// The archive that the columns are.
pub fn archive_in(columns: &Columns) -> Result<Archive, RecordFault>
    ensures ok { IfOk result (IsArchiveIn columns.now) }
    ensures err { IfErr result (Misreads (IsNoArchive columns.now)) }
{
    Ok(Archive {
        key: text_at(columns, 0)?,
        bytes: natural_at(columns, 1)?,
        used: natural_at(columns, 2)?,
    })
}

/// The text in a column.
pub fn text_at(columns: &Columns, at: usize) -> Result<Text, RecordFault>
    ensures ok { IfOk result (λ text. (at < length columns.now)
        × IsText (column columns.now at) text) }
    ensures err { IfErr result (Misreads (at < length columns.now → (text : _)
        → ¬ IsText (column columns.now at) text)) }
{
    match columns.get(at) {
        Ok(text) => Ok(Text::from_string(text)),
        Err(error) => Err(misread(error)),
    }
}

/// The natural number in a column.
pub fn natural_at(columns: &Columns, at: usize) -> Result<u64, RecordFault>
    ensures ok { IfOk result (λ n. (at < length columns.now)
        × (column columns.now at ≡ Int (pos n))) }
    ensures err { IfErr result (Misreads (at < length columns.now → (n : ℕ) → column columns.now at
        ≢ Int (pos n))) }
{
    match columns.get(at) {
        Ok(number) => Ok(number),
        Err(error) => Err(misread(error)),
    }
}

fn flag_at(columns: &Columns, at: usize) -> Result<bool, RecordFault>
    ensures ok { IfOk result (λ b. (at < length columns.now) × (n : ℤ)
        × (column columns.now at ≡ Int n) × (b ≡ not (int_eq n (pos 0)))) }
    ensures err { IfErr result (Misreads (at < length columns.now → (n : ℤ) → column columns.now at
        ≢ Int n)) }
{
    match columns.get(at) {
        Ok(flag) => Ok(flag),
        Err(error) => Err(misread(error)),
    }
}

/// A column of another kind is R1, and out of memory is the store's.
pub fn misread(error: Error) -> RecordFault
    ensures { result ≡ misread_as error }
{
    match error {
        Error::SqliteFailure(ErrorCode::OutOfMemory) => RecordFault::Store(error),
        _ => RecordFault::NotARecord,
    }
}

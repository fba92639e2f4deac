//! Whether a database has the tables of a record, before a row of theirs is read.
ghost use Rattle.std.specs.Prelude.{◌≡◌, ◌⊎◌, ℤ, pos, [], false, not, None, IfOk};
ghost use Rattle.std.specs.Ordering.{int_eq};
ghost use Rattle.sqlite.specs.Order.{column};
ghost use Rattle.sqlite.specs.declared.types.Value.TheVariants.{Int};
ghost use Rattle.sqlite.specs.State.{HasCleanDisk, IsUnchanged, QueriesRow};
ghost use Rattle.sqlite.specs.Held.{state};
ghost use Rattle.job_record.specs.Map.{IsRecord};
ghost use Rattle.job_record.specs.OpenMap.{IsBlank, IsFirst, OpensAs};
ghost use Rattle.job_record.specs.Rows.{OpensWithRows};
ghost use Rattle.record_program.specs.Views.{views_text};
ghost use Rattle.record_program.specs.inner.Looked.{Spares};

use job_record::{JobRecord, RecordFault, look};
use sqlite::{Alter, Connection, Error};
use sqlite_resolve::CompileError;
use std::alloc::Global;

const META: &str = "SELECT value FROM meta WHERE name = 'version'";

const VIEWS: &str =
    "SELECT count(*) FROM sqlite_schema WHERE type = 'view' AND lower(name) IN ('meta', 'job', 'archive')";

/// Opens the record that a database holds, with a budget. One with none of the tables is made a record only if `makes` says so.
pub fn as_record<S: Alter + Drop>(
    alloc: Global,
    mut conn: Connection<S>,
    budget: Option<u64>,
    makes: bool,
) -> Result<JobRecord<S>, (RecordFault, Connection<S>)>
    requires { conn.in_transaction ≡ false }
    ensures log { IfOk result (λ kept. kept.log.items ≡ []) }
    ensures space { IfOk result
        (λ kept. kept.space ≡ record { budget = budget; counted = None }) }
    ensures map { IfOk result (λ kept. HasCleanDisk (state S.Store kept.conn)
        → OpensAs budget (state S.Store conn) (state S.Store kept.conn)) }
    ensures rows { IfOk result (λ kept. HasCleanDisk (state S.Store kept.conn)
        → OpensWithRows budget (state S.Store conn) (state S.Store kept.conn)) }
{
    match refusal_in(&mut conn, makes) {
        Some(fault) => Err((fault, conn)),
        None => JobRecord::open_record(alloc, conn, budget),
    }
}

/// Why a database is not shown as a record, where it is none of a version that is known.
pub fn refusal_of_shown<S: Alter>(conn: &mut Connection<S>) -> Option<RecordFault>
    ensures clean { HasCleanDisk (state S.Store conn.new)
        → HasCleanDisk (state S.Store conn.old) }
    ensures same { result ≡ None → HasCleanDisk (state S.Store conn.new)
        → IsFirst (state S.Store conn.old) ⊎ IsRecord (state S.Store conn.old)
        → IsUnchanged (state S.Store conn.old) (state S.Store conn.new) }
    ensures some { result ≡ None → HasCleanDisk (state S.Store conn.new)
        → IsBlank (state S.Store conn.old) → ⊥ }
{
    match has_views(conn) {
        Ok(true) => Some(RecordFault::NotARecord),
        Ok(false) => refusal_of_look(conn),
        Err(error) => Some(RecordFault::Store(error)),
    }
}

fn refusal_of_look<S: Alter>(conn: &mut Connection<S>) -> Option<RecordFault>
    ensures clean { HasCleanDisk (state S.Store conn.new)
        → HasCleanDisk (state S.Store conn.old) }
    ensures same { result ≡ None → HasCleanDisk (state S.Store conn.new)
        → IsFirst (state S.Store conn.old) ⊎ IsRecord (state S.Store conn.old)
        → IsUnchanged (state S.Store conn.old) (state S.Store conn.new) }
    ensures some { result ≡ None → HasCleanDisk (state S.Store conn.new)
        → IsBlank (state S.Store conn.old) → ⊥ }
{
    match look(conn) {
        Ok(()) => None,
        Err(fault) => Some(fault),
    }
}

// A view in a table's place is no table, and reading it may have no end.
fn refusal_in<S: Alter>(conn: &mut Connection<S>, makes: bool) -> Option<RecordFault>
    ensures mode { conn.old.in_transaction ≡ false → conn.new.in_transaction ≡ false }
    ensures same { result ≡ None → Spares (state S.Store conn.old) (state S.Store conn.new) }
{
    match has_views(conn) {
        Ok(true) => Some(RecordFault::NotARecord),
        Ok(false) if makes => None,
        Ok(false) => refusal_of_version(conn),
        Err(error) => Some(RecordFault::Store(error)),
    }
}

// Whether the schema has such a view.
fn has_views<S: Alter>(conn: &mut Connection<S>) -> Result<bool, Error>
    ensures ok { HasCleanDisk (state S.Store conn.new) → IfOk result (λ found. (c : _)
        × QueriesRow views_text [] (state S.Store conn.old) (state S.Store conn.new) (Ok c)
        × (n : ℤ) × (column c 0 ≡ Int n) × (found ≡ not (int_eq n (pos 0)))) }
    ensures clean { HasCleanDisk (state S.Store conn.new)
        → HasCleanDisk (state S.Store conn.old) }
    ensures mode { conn.old.in_transaction ≡ false → conn.new.in_transaction ≡ false }
{
    let columns = conn.query_row(VIEWS, &[])?;
    columns.get(0)
}

// A store without the table of the version is no record. Opened as one it would be made one.
fn refusal_of_version<S: Alter>(conn: &mut Connection<S>) -> Option<RecordFault>
    ensures mode { conn.old.in_transaction ≡ false → conn.new.in_transaction ≡ false }
    ensures clean { HasCleanDisk (state S.Store conn.new)
        → HasCleanDisk (state S.Store conn.old) }
    ensures same { result ≡ None → HasCleanDisk (state S.Store conn.new)
        → IsUnchanged (state S.Store conn.old) (state S.Store conn.new) }
{
    match conn.prepare(META) {
        Ok(_) => None,
        Err(error) => Some(refusal_of(error)),
    }
}

// Why a store whose version can't be asked for is no record.
fn refusal_of(error: Error) -> RecordFault {
    match error {
        Error::SqlInputError(CompileError::NoSuchTable) => RecordFault::NotARecord,
        Error::SqlInputError(CompileError::NoSuchColumn) => RecordFault::NotARecord,
        _ => RecordFault::Store(error),
    }
}

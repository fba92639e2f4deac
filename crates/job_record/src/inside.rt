//! The statements that run inside a transaction: each function here is one, and says what it did by the words of `sqlite`.

ghost use Rattle.std.specs.Prelude.{◌≡◌, ◌≢◌, [], IsTrue, Ok, Err, IfOk, IfErr, MatchOption};
ghost use Rattle.sqlite.specs.declared.error.Error.TheVariants.{QueryReturnedNoRows};
ghost use Rattle.sqlite.specs.State.{HasCleanDisk, Survives, ExecutesInside, QueriesRow, FailsToQuery, Shown};
ghost use Rattle.sqlite.specs.Held.{state};
ghost use Rattle.sqlite.specs.Values.{bound};
ghost use Rattle.job_record.specs.Archives.{greatest_text, oldest_text, bytes_text, all_bytes_text, add_text, use_text, remove_text, archive_params, use_params};
ghost use Rattle.job_record.specs.Columns.{columns_of};
ghost use Rattle.job_record.specs.Statements.{put_text, drop_archive_text, forget_text, key_params};
ghost use Rattle.job_record.specs.Texts.{AreUtf8};

use crate::tables::held;
use crate::texts::Stored;
use sqlite::types::ValueRef;
use sqlite::{Alter, Error, Row as Columns, Transaction, params};

const PUT: &str =
    "INSERT INTO job (key, outputs, files, cost, archived) VALUES (?1, ?2, ?3, ?4, ?5) ON CONFLICT (key) DO UPDATE SET outputs = ?2, files = ?3, cost = ?4, archived = ?5";

const DROP_ARCHIVE: &str = "UPDATE job SET archived = 0 WHERE key = ?1";

const FORGET: &str = "DELETE FROM job WHERE key = ?1";

// The index of `used` gives the order, and the query stops at its first row.
const GREATEST: &str = "SELECT used FROM archive ORDER BY used DESC";

const OLDEST: &str = "SELECT key, bytes FROM archive ORDER BY used";

const BYTES: &str = "SELECT bytes FROM archive WHERE key = ?1";

const ALL_BYTES: &str = "SELECT bytes FROM archive";

const ADD: &str = "INSERT INTO archive (key, bytes, used) VALUES (?1, ?2, ?3)";

const USE: &str = "UPDATE archive SET used = ?2 WHERE key = ?1";

const REMOVE: &str = "DELETE FROM archive WHERE key = ?1";

/// The column with the greatest number of a use, if there is an archive.
pub fn greatest<S: Alter>(change: &mut Transaction<'_, S>) -> Result<Option<Columns>, Error>
    ensures same_reference { change.new.conn.ghost_name ≡ change.old.conn.ghost_name }
    ensures ok { HasCleanDisk (state S.Store change.new.conn.now)
        → IsTrue (state S.Store change.old.conn.now).in_transaction
        → IfOk result (λ o. MatchOption o
        (QueriesRow greatest_text [] (state S.Store change.old.conn.now)
        (state S.Store change.new.conn.now) (Err QueryReturnedNoRows))
        (λ c. QueriesRow greatest_text [] (state S.Store change.old.conn.now)
        (state S.Store change.new.conn.now) (Ok c))) }
    ensures err { HasCleanDisk (state S.Store change.new.conn.now)
        → IsTrue (state S.Store change.old.conn.now).in_transaction → IfErr result
        (λ e. (e ≢ QueryReturnedNoRows) × QueriesRow greatest_text []
        (state S.Store change.old.conn.now) (state S.Store change.new.conn.now) (Err e)) }
    ensures survives { Survives (state S.Store change.old.conn.now)
        (state S.Store change.new.conn.now) (λ _. ⊥) }
{
    match first_row(change, GREATEST, &[]) {
        Ok(columns) => Ok(Some(columns)),
        Err(Error::QueryReturnedNoRows) => Ok(None),
        Err(error) => Err(error),
    }
}

/// The columns of the key and the bytes of the archive whose use is the oldest, if there is one.
pub fn oldest<S: Alter>(change: &mut Transaction<'_, S>) -> Result<Option<Columns>, Error>
    ensures same_reference { change.new.conn.ghost_name ≡ change.old.conn.ghost_name }
    ensures ok { HasCleanDisk (state S.Store change.new.conn.now)
        → IsTrue (state S.Store change.old.conn.now).in_transaction
        → IfOk result (λ o. MatchOption o
        (QueriesRow oldest_text [] (state S.Store change.old.conn.now)
        (state S.Store change.new.conn.now) (Err QueryReturnedNoRows))
        (λ c. QueriesRow oldest_text [] (state S.Store change.old.conn.now)
        (state S.Store change.new.conn.now) (Ok c))) }
    ensures err { HasCleanDisk (state S.Store change.new.conn.now)
        → IsTrue (state S.Store change.old.conn.now).in_transaction → IfErr result
        (λ e. (e ≢ QueryReturnedNoRows) × QueriesRow oldest_text []
        (state S.Store change.old.conn.now) (state S.Store change.new.conn.now) (Err e)) }
    ensures survives { Survives (state S.Store change.old.conn.now)
        (state S.Store change.new.conn.now) (λ _. ⊥) }
{
    match first_row(change, OLDEST, &[]) {
        Ok(columns) => Ok(Some(columns)),
        Err(Error::QueryReturnedNoRows) => Ok(None),
        Err(error) => Err(error),
    }
}

/// The column with the bytes of the archive of a key, if it has one.
pub fn bytes_at<S: Alter>(
    change: &mut Transaction<'_, S>,
    key: &str,
) -> Result<Option<Columns>, Error>
    ensures same_reference { change.new.conn.ghost_name ≡ change.old.conn.ghost_name }
    ensures ok { HasCleanDisk (state S.Store change.new.conn.now)
        → IsTrue (state S.Store change.old.conn.now).in_transaction
        → IfOk result (λ o. MatchOption o
        (QueriesRow bytes_text (key_params key.now) (state S.Store change.old.conn.now)
        (state S.Store change.new.conn.now) (Err QueryReturnedNoRows))
        (λ c. QueriesRow bytes_text (key_params key.now) (state S.Store change.old.conn.now)
        (state S.Store change.new.conn.now) (Ok c))) }
    ensures err { HasCleanDisk (state S.Store change.new.conn.now)
        → IsTrue (state S.Store change.old.conn.now).in_transaction → IfErr result
        (λ e. (e ≢ QueryReturnedNoRows) × QueriesRow bytes_text (key_params key.now)
        (state S.Store change.old.conn.now) (state S.Store change.new.conn.now) (Err e)) }
    ensures survives { Survives (state S.Store change.old.conn.now)
        (state S.Store change.new.conn.now) (λ _. ⊥) }
{
    match first_row(change, BYTES, params![key]) {
        Ok(columns) => Ok(Some(columns)),
        Err(Error::QueryReturnedNoRows) => Ok(None),
        Err(error) => Err(error),
    }
}

/// The columns with the bytes of all archives.
pub fn all_bytes<S: Alter>(change: &mut Transaction<'_, S>) -> Result<Vec<Columns>, Error>
    ensures same_reference { change.new.conn.ghost_name ≡ change.old.conn.ghost_name }
    ensures ok { HasCleanDisk (state S.Store change.new.conn.now)
        → IfOk result (λ rows. Shown all_bytes_text [] (state S.Store change.old.conn.now)
        (state S.Store change.new.conn.now) rows.items) }
    ensures err { HasCleanDisk (state S.Store change.new.conn.now)
        → IsTrue (state S.Store change.old.conn.now).in_transaction
        → IfErr result (FailsToQuery all_bytes_text [] (state S.Store change.old.conn.now)
        (state S.Store change.new.conn.now)) }
    ensures survives { Survives (state S.Store change.old.conn.now)
        (state S.Store change.new.conn.now) (λ _. ⊥) }
{
    change.query_all(ALL_BYTES, &[])
}

/// Adds the archive of a key that has none.
pub fn add<S: Alter>(
    change: &mut Transaction<'_, S>,
    key: &str,
    bytes: u64,
    used: u64,
) -> Result<usize, Error>
    ensures same_reference { change.new.conn.ghost_name ≡ change.old.conn.ghost_name }
    ensures runs { HasCleanDisk (state S.Store change.new.conn.now)
        → IsTrue (state S.Store change.old.conn.now).in_transaction
        → ExecutesInside 0 add_text (archive_params key.now bytes used)
        (state S.Store change.old.conn.now) (state S.Store change.new.conn.now) result }
    ensures survives { Survives (state S.Store change.old.conn.now)
        (state S.Store change.new.conn.now) (λ _. ⊥) }
{
    let bytes = held(bytes);
    let used = held(used);
    change.execute(ADD, params![key, bytes, used])
}

/// Gives the archive of a key this number, and answers how many rows that met.
pub fn renumber<S: Alter>(
    change: &mut Transaction<'_, S>,
    key: &str,
    used: u64,
) -> Result<usize, Error>
    ensures same_reference { change.new.conn.ghost_name ≡ change.old.conn.ghost_name }
    ensures runs { HasCleanDisk (state S.Store change.new.conn.now)
        → IsTrue (state S.Store change.old.conn.now).in_transaction
        → ExecutesInside 0 use_text (use_params key.now used) (state S.Store change.old.conn.now)
        (state S.Store change.new.conn.now) result }
    ensures survives { Survives (state S.Store change.old.conn.now)
        (state S.Store change.new.conn.now) (λ _. ⊥) }
{
    let used = held(used);
    change.execute(USE, params![key, used])
}

/// Takes the archive of a key out, and answers how many rows that met.
pub fn remove<S: Alter>(change: &mut Transaction<'_, S>, key: &str) -> Result<usize, Error>
    ensures same_reference { change.new.conn.ghost_name ≡ change.old.conn.ghost_name }
    ensures runs { HasCleanDisk (state S.Store change.new.conn.now)
        → IsTrue (state S.Store change.old.conn.now).in_transaction
        → ExecutesInside 0 remove_text (key_params key.now) (state S.Store change.old.conn.now)
        (state S.Store change.new.conn.now) result }
    ensures survives { Survives (state S.Store change.old.conn.now)
        (state S.Store change.new.conn.now) (λ _. ⊥) }
{
    change.execute(REMOVE, params![key])
}

/// Sets the row of a key.
pub fn put<S: Alter>(change: &mut Transaction<'_, S>, row: &Stored) -> Result<usize, Error>
    ensures same_reference { change.new.conn.ghost_name ≡ change.old.conn.ghost_name }
    ensures runs { HasCleanDisk (state S.Store change.new.conn.now)
        → IsTrue (state S.Store change.old.conn.now).in_transaction
        → ExecutesInside 0 put_text (columns_of row.now) (state S.Store change.old.conn.now)
        (state S.Store change.new.conn.now) result }
    ensures survives { Survives (state S.Store change.old.conn.now)
        (state S.Store change.new.conn.now) (λ _. ⊥) }
    ensures utf8 { AreUtf8 row.now }
{
    let cost = held(row.cost);
    change.execute(
        PUT,
        params![
            row.key.as_str(),
            row.outputs.as_str(),
            row.files.as_str(),
            cost,
            row.archived
        ],
    )
}

/// Notes in the row of a key that its archive is gone, and answers how many rows that met.
pub fn drop_archive<S: Alter>(change: &mut Transaction<'_, S>, key: &str) -> Result<usize, Error>
    ensures same_reference { change.new.conn.ghost_name ≡ change.old.conn.ghost_name }
    ensures runs { HasCleanDisk (state S.Store change.new.conn.now)
        → IsTrue (state S.Store change.old.conn.now).in_transaction
        → ExecutesInside 0 drop_archive_text (key_params key.now)
        (state S.Store change.old.conn.now)
        (state S.Store change.new.conn.now) result }
    ensures survives { Survives (state S.Store change.old.conn.now)
        (state S.Store change.new.conn.now) (λ _. ⊥) }
{
    change.execute(DROP_ARCHIVE, params![key])
}

/// Takes the row of a key out, and answers how many rows that met.
pub fn forget<S: Alter>(change: &mut Transaction<'_, S>, key: &str) -> Result<usize, Error>
    ensures same_reference { change.new.conn.ghost_name ≡ change.old.conn.ghost_name }
    ensures runs { HasCleanDisk (state S.Store change.new.conn.now)
        → IsTrue (state S.Store change.old.conn.now).in_transaction
        → ExecutesInside 0 forget_text (key_params key.now) (state S.Store change.old.conn.now)
        (state S.Store change.new.conn.now) result }
    ensures survives { Survives (state S.Store change.old.conn.now)
        (state S.Store change.new.conn.now) (λ _. ⊥) }
{
    change.execute(FORGET, params![key])
}

// The first row of a query. A transaction that has not ended refuses none for being too late.
fn first_row<S: Alter>(
    change: &mut Transaction<'_, S>,
    text: &str,
    params: &[ValueRef<'_>],
) -> Result<Columns, Error>
    ensures same_reference { change.new.conn.ghost_name ≡ change.old.conn.ghost_name }
    ensures row { HasCleanDisk (state S.Store change.new.conn.now)
        → IsTrue (state S.Store change.old.conn.now).in_transaction
        → QueriesRow text.now (bound params.now) (state S.Store change.old.conn.now)
        (state S.Store change.new.conn.now) result }
    ensures survives { Survives (state S.Store change.old.conn.now)
        (state S.Store change.new.conn.now) (λ _. ⊥) }
{
    change.query_row(text, params)
}

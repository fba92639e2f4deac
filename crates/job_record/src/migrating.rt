//! A record of version 1 becomes one of version 2, in one transaction.

ghost use Rattle.std.specs.Prelude.{◌≡◌, false, IsTrue, IfOk, IfErr};
ghost use Rattle.sqlite.specs.State.{HasCleanDisk, Survives};
ghost use Rattle.sqlite.specs.Held.{state};
ghost use Rattle.job_record.specs.Opening.{HasBytes, HasNoBytes};
ghost use Rattle.job_record.specs.Columns.{Misreads};
ghost use Rattle.job_record.specs.inner.Opened.{AddsOrFails, CommitsMigrated, MigratesIn, MigratesOrFails};

use crate::changes::ended;
use crate::fault::RecordFault;
use crate::inside;
use crate::tables::text_at;
use crate::texts::bytes_in;
use plain_data::Text;
use sqlite::{Alter, Connection, Row as Columns, Transaction};
use std::alloc::Global;

pub const MAKE_ARCHIVE: &str =
    "CREATE TABLE archive (key TEXT PRIMARY KEY, bytes INTEGER NOT NULL CHECK (bytes >= 0), used INTEGER NOT NULL UNIQUE CHECK (used >= 1)) STRICT";

const ARCHIVED: &str = "SELECT key, files FROM job WHERE archived = 1 ORDER BY key";

const RENOTE_VERSION: &str = "UPDATE meta SET value = 2 WHERE name = 'version'";

/// Makes the table of the archives: each archived row has one, and their numbers count from 1 by the bytes of the keys. R1 if the
/// files of such a row do not read, and then the store is as it was.
pub fn migrate<S: Alter>(alloc: Global, conn: &mut Connection<S>) -> Result<(), RecordFault>
    requires { conn.old.in_transaction ≡ false }
    ensures migrates { HasCleanDisk (state S.Store conn.new)
        → MigratesOrFails S.Store conn.old conn.new result }
    ensures survives { Survives (state S.Store conn.old) (state S.Store conn.new)
        (CommitsMigrated S.Store conn.old) }
    ensures mode { conn.new.in_transaction ≡ false }
{
    let mut change = conn.transaction();
    let answer = migrate_in(alloc, &mut change);
    ended(change, answer)
}

fn migrate_in<S: Alter>(alloc: Global, change: &mut Transaction<'_, S>) -> Result<(), RecordFault>
    ensures same_reference { change.new.conn.ghost_name ≡ change.old.conn.ghost_name }
    ensures migrates { HasCleanDisk (state S.Store change.new.conn.now)
        → IsTrue (state S.Store change.old.conn.now).in_transaction
        → MigratesIn S.Store change.old.conn.now change.new.conn.now result }
    ensures survives { Survives (state S.Store change.old.conn.now)
        (state S.Store change.new.conn.now) (λ _. ⊥) }
{
    change.execute(MAKE_ARCHIVE, &[])?;
    let archived = change.query_all(ARCHIVED, &[])?;
    add_all(alloc, change, archived.as_slice())?;
    change.execute(RENOTE_VERSION, &[])?;
    Ok(())
}

fn add_all<S: Alter>(
    alloc: Global,
    change: &mut Transaction<'_, S>,
    archived: &[Columns],
) -> Result<(), RecordFault>
    ensures same_reference { change.new.conn.ghost_name ≡ change.old.conn.ghost_name }
    ensures adds { HasCleanDisk (state S.Store change.new.conn.now)
        → IsTrue (state S.Store change.old.conn.now).in_transaction
        → IsTrue (state S.Store change.old.conn.now).is_open
        → AddsOrFails S.Store change.old.conn.now change.new.conn.now archived.now result }
    ensures survives { Survives (state S.Store change.old.conn.now)
        (state S.Store change.new.conn.now) (λ _. ⊥) }
{
    let mut used: u64 = 0;
    for columns in archived {
        let (key, bytes) = row_bytes(alloc, columns)?;
        used = used.saturating_add(1);
        inside::add(change, key.as_str(), bytes, used)?;
    }
    Ok(())
}

// The key of an archived row, and the bytes of its files.
fn row_bytes(alloc: Global, columns: &Columns) -> Result<(Text, u64), RecordFault>
    ensures ok { IfOk result (λ found. HasBytes columns.now found.0 found.1) }
    ensures err { IfErr result (Misreads (HasNoBytes columns.now)) }
{
    let key = text_at(columns, 0)?;
    let bytes = bytes_in(alloc, &text_at(columns, 1)?)?;
    Ok((key, bytes))
}

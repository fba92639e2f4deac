//! The archives that are kept, step by step inside a transaction: what each step makes of the record's map.

ghost use Rattle.std.specs.Prelude.{◌≡◌, ◌≢◌, ◌<◌, ◌≤◌, ◌-◌, ◌^◌, ℕ, pos, min, ◌++◌, ◌∷◌, [], length, Ok, Some, None, Any, IsTrue, IfOk, IfErr};
ghost use Rattle.sqlite.specs.declared.types.Value.TheVariants.{Int};
ghost use Rattle.sqlite.specs.Order.{column};
ghost use Rattle.sqlite.specs.State.{HasCleanDisk, Survives};
ghost use Rattle.sqlite.specs.Held.{state};
ghost use Rattle.sqlite_rules.specs.Lists.{Has};
ghost use Rattle.job_rows.specs.Map.{greatest_number, greatest_used, total_bytes, touched, without_archive};
ghost use Rattle.job_record.specs.Archives.{greatest_text, oldest_text, bytes_text, all_bytes_text, add_text, use_text, remove_text};
ghost use Rattle.job_record.specs.Columns.{HasNoNumber, IsText, Misreads};
ghost use Rattle.job_record.specs.Blame.{IsSpent, MeetsNone, Misshows};
ghost use Rattle.job_record.specs.inner.Inside.{CanAdd, CanRenumber, Makes, Never, Reads, Steps, Traces, bytes_at, oldest_of, sum_in, with_archives};

use crate::fault::RecordFault;
use crate::inside;
use crate::tables::{natural_at, text_at};
use plain_data::Text;
use sqlite::{Alter, Row as Columns, Transaction};

/// The greatest number of a use, or 0.
pub fn greatest_used<S: Alter>(change: &mut Transaction<'_, S>) -> Result<u64, RecordFault>
    ensures same_reference { change.new.conn.ghost_name ≡ change.old.conn.ghost_name }
    ensures step { HasCleanDisk (state S.Store change.new.conn.now)
        → IsTrue (state S.Store change.old.conn.now).in_transaction
        → Reads (state S.Store change.old.conn.now) (state S.Store change.new.conn.now)
        (λ map used. used ≡ greatest_used map.archives) result }
    ensures survives { Survives (state S.Store change.old.conn.now)
        (state S.Store change.new.conn.now) (λ _. ⊥) }
    ensures cause { (texts : _) → Has texts greatest_text
        → HasCleanDisk (state S.Store change.new.conn.now)
        → IsTrue (state S.Store change.old.conn.now).in_transaction
        → Traces S.Store texts change.old.conn.now change.new.conn.now result }
    ensures spent { (texts : _) → Has texts greatest_text
        → HasCleanDisk (state S.Store change.new.conn.now)
        → IsTrue (state S.Store change.old.conn.now).in_transaction
        → IfOk result
        (λ n. greatest_number ≤ n → IsSpent S.Store texts change.old.conn.now) }
{
    match inside::greatest(change) {
        Ok(Some(columns)) => natural_at(&columns, 0),
        Ok(None) => Ok(0),
        Err(error) => Err(RecordFault::Store(error)),
    }
}

/// The key and the bytes of the archive whose use is the oldest, if there is one.
pub fn oldest<S: Alter>(change: &mut Transaction<'_, S>) -> Result<Option<(Text, u64)>, RecordFault>
    ensures same_reference { change.new.conn.ghost_name ≡ change.old.conn.ghost_name }
    ensures step { HasCleanDisk (state S.Store change.new.conn.now)
        → IsTrue (state S.Store change.old.conn.now).in_transaction
        → Reads (state S.Store change.old.conn.now) (state S.Store change.new.conn.now)
        (λ map first. first ≡ oldest_of map) result }
    ensures survives { Survives (state S.Store change.old.conn.now)
        (state S.Store change.new.conn.now) (λ _. ⊥) }
    ensures cause { (texts : _) → Has texts oldest_text
        → HasCleanDisk (state S.Store change.new.conn.now)
        → IsTrue (state S.Store change.old.conn.now).in_transaction
        → Traces S.Store texts change.old.conn.now change.new.conn.now result }
    ensures none { (texts : _) → Has texts oldest_text
        → HasCleanDisk (state S.Store change.new.conn.now)
        → IsTrue (state S.Store change.old.conn.now).in_transaction
        → result ≡ Ok None → Misshows S.Store texts change.old.conn.now }
{
    match inside::oldest(change) {
        Ok(Some(columns)) => key_and_bytes(&columns),
        Ok(None) => Ok(None),
        Err(error) => Err(RecordFault::Store(error)),
    }
}

fn key_and_bytes(columns: &Columns) -> Result<Option<(Text, u64)>, RecordFault>
    ensures ok { IfOk result (λ found. (key : _) × (bytes : _) × (found ≡ Some (key, bytes))
        × IsText (column columns.now 0) key × (column columns.now 1 ≡ Int (pos bytes))) }
    ensures err { IfErr result (Misreads (1 < length columns.now → (key : _) (bytes : ℕ)
        → IsText (column columns.now 0) key → column columns.now 1 ≢ Int (pos bytes))) }
{
    Ok(Some((text_at(columns, 0)?, natural_at(columns, 1)?)))
}

/// The bytes of the archive of a key, if it has one.
pub fn bytes_at<S: Alter>(
    change: &mut Transaction<'_, S>,
    key: &str,
) -> Result<Option<u64>, RecordFault>
    ensures same_reference { change.new.conn.ghost_name ≡ change.old.conn.ghost_name }
    ensures step { HasCleanDisk (state S.Store change.new.conn.now)
        → IsTrue (state S.Store change.old.conn.now).in_transaction
        → Reads (state S.Store change.old.conn.now) (state S.Store change.new.conn.now)
        (λ map bytes. bytes ≡ bytes_at key.now map) result }
    ensures survives { Survives (state S.Store change.old.conn.now)
        (state S.Store change.new.conn.now) (λ _. ⊥) }
    ensures cause { (texts : _) → Has texts bytes_text
        → HasCleanDisk (state S.Store change.new.conn.now)
        → IsTrue (state S.Store change.old.conn.now).in_transaction
        → Traces S.Store texts change.old.conn.now change.new.conn.now result }
    ensures none { (texts : _) → Has texts bytes_text
        → HasCleanDisk (state S.Store change.new.conn.now)
        → IsTrue (state S.Store change.old.conn.now).in_transaction
        → result ≡ Ok None → MeetsNone S.Store texts change.old.conn.now }
{
    match inside::bytes_at(change, key) {
        Ok(Some(columns)) => number_in(&columns),
        Ok(None) => Ok(None),
        Err(error) => Err(RecordFault::Store(error)),
    }
}

fn number_in(columns: &Columns) -> Result<Option<u64>, RecordFault>
    ensures ok { IfOk result (λ found. (n : ℕ) × (found ≡ Some n) × (0 < length columns.now)
        × (column columns.now 0 ≡ Int (pos n))) }
    ensures err { IfErr result (Misreads (0 < length columns.now → (n : ℕ) → column columns.now 0
        ≢ Int (pos n))) }
{
    Ok(Some(natural_at(columns, 0)?))
}

/// The bytes of all archives together.
pub fn total<S: Alter>(change: &mut Transaction<'_, S>) -> Result<u128, RecordFault>
    ensures same_reference { change.new.conn.ghost_name ≡ change.old.conn.ghost_name }
    ensures step { HasCleanDisk (state S.Store change.new.conn.now)
        → IsTrue (state S.Store change.old.conn.now).in_transaction
        → Reads (state S.Store change.old.conn.now) (state S.Store change.new.conn.now)
        (λ map bytes. bytes ≡ total_bytes map.archives) result }
    ensures survives { Survives (state S.Store change.old.conn.now)
        (state S.Store change.new.conn.now) (λ _. ⊥) }
    ensures cause { (texts : _) → Has texts all_bytes_text
        → HasCleanDisk (state S.Store change.new.conn.now)
        → IsTrue (state S.Store change.old.conn.now).in_transaction
        → Traces S.Store texts change.old.conn.now change.new.conn.now result }
{
    match inside::all_bytes(change) {
        Ok(all) => sum_of(all.as_slice()),
        Err(error) => Err(RecordFault::Store(error)),
    }
}

// They are fewer than 2^64, each of fewer than 2^63 bytes.
fn sum_of(all: &[Columns]) -> Result<u128, RecordFault>
    ensures ok { IfOk result (λ sum. sum ≡ min (sum_in all.now) (2 ^ 128 - 1)) }
    ensures err { IfErr result (Misreads (Any HasNoNumber all.now)) }
{
    let mut sum: u128 = 0;
    for columns in all {
        sum = sum.saturating_add(u128::from(natural_at(columns, 0)?));
    }
    Ok(sum)
}

/// Adds the archive of a key that has none.
pub fn add<S: Alter>(
    change: &mut Transaction<'_, S>,
    key: &str,
    bytes: u64,
    used: u64,
) -> Result<(), RecordFault>
    ensures same_reference { change.new.conn.ghost_name ≡ change.old.conn.ghost_name }
    ensures step { HasCleanDisk (state S.Store change.new.conn.now)
        → IsTrue (state S.Store change.old.conn.now).in_transaction
        → Steps (state S.Store change.old.conn.now) (state S.Store change.new.conn.now)
        (CanAdd key.now bytes used)
        (λ map done next. next ≡ with_archives
        (map.archives ++ record { key = key.now; bytes = bytes; used = used } ∷ []) map) Never
        result }
    ensures survives { Survives (state S.Store change.old.conn.now)
        (state S.Store change.new.conn.now) (λ _. ⊥) }
    ensures cause { (texts : _) → Has texts add_text
        → HasCleanDisk (state S.Store change.new.conn.now)
        → IsTrue (state S.Store change.old.conn.now).in_transaction
        → Traces S.Store texts change.old.conn.now change.new.conn.now result }
{
    match inside::add(change, key, bytes, used) {
        Ok(_) => Ok(()),
        Err(error) => Err(RecordFault::Store(error)),
    }
}

/// Gives the archive of a key the next number.
pub fn renumber<S: Alter>(
    change: &mut Transaction<'_, S>,
    key: &str,
    used: u64,
) -> Result<(), RecordFault>
    ensures same_reference { change.new.conn.ghost_name ≡ change.old.conn.ghost_name }
    ensures step { HasCleanDisk (state S.Store change.new.conn.now)
        → IsTrue (state S.Store change.old.conn.now).in_transaction
        → Steps (state S.Store change.old.conn.now) (state S.Store change.new.conn.now)
        (CanRenumber key.now used)
        (λ map done next. next ≡ with_archives (touched key.now map.archives) map) Never result }
    ensures survives { Survives (state S.Store change.old.conn.now)
        (state S.Store change.new.conn.now) (λ _. ⊥) }
    ensures cause { (texts : _) → Has texts use_text
        → HasCleanDisk (state S.Store change.new.conn.now)
        → IsTrue (state S.Store change.old.conn.now).in_transaction
        → Traces S.Store texts change.old.conn.now change.new.conn.now result }
{
    match inside::renumber(change, key, used) {
        Ok(_) => Ok(()),
        Err(error) => Err(RecordFault::Store(error)),
    }
}

/// Takes the archive of a key out, if it has one.
pub fn remove<S: Alter>(change: &mut Transaction<'_, S>, key: &str) -> Result<(), RecordFault>
    ensures same_reference { change.new.conn.ghost_name ≡ change.old.conn.ghost_name }
    ensures step { HasCleanDisk (state S.Store change.new.conn.now)
        → IsTrue (state S.Store change.old.conn.now).in_transaction
        → Makes (state S.Store change.old.conn.now) (state S.Store change.new.conn.now)
        (λ map. with_archives (without_archive key.now map.archives) map) result }
    ensures survives { Survives (state S.Store change.old.conn.now)
        (state S.Store change.new.conn.now) (λ _. ⊥) }
    ensures cause { (texts : _) → Has texts remove_text
        → HasCleanDisk (state S.Store change.new.conn.now)
        → IsTrue (state S.Store change.old.conn.now).in_transaction
        → Traces S.Store texts change.old.conn.now change.new.conn.now result }
{
    match inside::remove(change, key) {
        Ok(_) => Ok(()),
        Err(error) => Err(RecordFault::Store(error)),
    }
}

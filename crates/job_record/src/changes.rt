//! The commands that change the record, each in one transaction: refused on the way, nothing of it stands.

ghost use Rattle.std.specs.Prelude.{◌≡◌, ◌≤◌, false, not, ◌&&◌, ◌||◌, is_some, IsTrue, IsSome, IsOk, IfErr, Some};
ghost use Rattle.sqlite.specs.State.{HasCleanDisk, Survives};
ghost use Rattle.sqlite.specs.Held.{state};
ghost use Rattle.sqlite_rules.specs.Lists.{Has};
ghost use Rattle.job_rows.specs.Map.{AreSpent, greatest_number, total_bytes};
ghost use Rattle.job_record.specs.declared.fault.RecordFault.TheVariants.{UsesSpent};
ghost use Rattle.job_record.specs.Archives.{greatest_text};
ghost use Rattle.job_record.specs.Opening.{begun};
ghost use Rattle.job_record.specs.Blame.{Blames, put_texts, touch_texts, drop_texts, forget_texts};
ghost use Rattle.job_record.specs.Map.{forgets, unarchives};
ghost use Rattle.job_record.specs.inner.Inside.{Always, CanLose, CanPut, CannotPut, CannotTouch, Changes, CrashesBy, Ends, IsNext, IsStorable, Lacks, Loses, LosesFrom, LosesOldest, Never, Puts, SetsAlone, Spares, Takes, Touches, Traces, Walks, WalksOn, oldest_of, total_after};
ghost use Rattle.job_record.specs.inner.Opened.{FailsToEnd};

use crate::fault::RecordFault;
use crate::texts::Stored;
use crate::{archives, tables};
use plain_data::{Items, Text};
use sqlite::{Alter, Connection, Transaction};
use std::alloc::Global;

/// The greatest number of a use and of bytes.
pub const GREATEST_NUMBER: u64 = 9_223_372_036_854_775_807;

/// A row that is put: its texts, its bytes, and whether it was put as archived. The flag of the texts says whether it keeps one.
#[derive(Drop)]
pub struct Putting {
    pub stored: Stored,
    pub bytes: u64,
    pub is_asked: bool,
}

/// How many bytes the archives may have, and have as far as that is known.
#[derive(Clone, Copy)]
pub struct Space {
    pub budget: Option<u64>,
    pub counted: Option<u128>,
}

/// Sets the row of its key, and answers the keys that are without their archive by it, with the bytes of those that are left.
pub fn put<S: Alter>(
    alloc: Global,
    conn: &mut Connection<S>,
    space: Space,
    row: &Putting,
) -> Result<(Items<Text>, Option<u128>), RecordFault>
    requires { conn.old.in_transaction ≡ false }
    ensures whole { HasCleanDisk (state S.Store conn.new)
        → Changes (state S.Store conn.old) (state S.Store conn.new)
        (CanPut space.budget space.counted row.now) (Puts row.now) (CannotPut row.now) result }
    ensures crash { CrashesBy (state S.Store conn.old) (state S.Store conn.new)
        (CanPut space.budget space.counted row.now) (Puts row.now) }
    ensures spares { HasCleanDisk (state S.Store conn.new)
        → Spares (state S.Store conn.old) (state S.Store conn.new) result }
    ensures ended { conn.new.in_transaction ≡ false }
    ensures cause { HasCleanDisk (state S.Store conn.new)
        → IfErr result (Blames S.Store put_texts (begun S.Store conn.old)) }
{
    let mut change = conn.transaction();
    let answer = put_in(alloc, &mut change, space, row);
    ended(change, answer)
}

fn put_in<S: Alter>(
    alloc: Global,
    change: &mut Transaction<'_, S>,
    space: Space,
    row: &Putting,
) -> Result<(Items<Text>, Option<u128>), RecordFault>
    ensures same_reference { change.new.conn.ghost_name ≡ change.old.conn.ghost_name }
    ensures step { Walks (Unit {0}) (state S.Store change.old.conn.now)
        (state S.Store change.new.conn.now) (CanPut space.budget space.counted row.now)
        (Puts row.now) (CannotPut row.now) result }
    ensures cause { HasCleanDisk (state S.Store change.new.conn.now)
        → IsTrue (state S.Store change.old.conn.now).in_transaction
        → Traces S.Store put_texts change.old.conn.now change.new.conn.now result }
{
    let had = set_own(change, row)?;
    let (mut lost, left) = lose_for(alloc, change, space, row, had)?;
    if loses_own(row, had) {
        lost.push(row.stored.key.copied(alloc)?)?;
    }
    Ok((lost, left))
}

// Whether the row's own archive is lost, or refused.
#[tactic(auto, using(crate::proofs::Safe::changes_safely, crate::proofs::Asked::puts_in, crate::proofs::Walked::lose_goes, crate::proofs::WalkedPut::put_done, crate::proofs::Chain::changes_by))]
fn loses_own(row: &Putting, had: Option<u64>) -> bool
    ensures { result ≡ not row.now.stored.archived && (row.now.is_asked || is_some had) }
{
    !row.stored.archived && (row.is_asked || had.is_some())
}

// Sets the row, and its archive in place of the one that its key had. Answers the bytes of that one. R5 before anything is written.
fn set_own<S: Alter>(
    change: &mut Transaction<'_, S>,
    row: &Putting,
) -> Result<Option<u64>, RecordFault>
    ensures same_reference { change.new.conn.ghost_name ≡ change.old.conn.ghost_name }
    ensures step { Walks (Unit {0}) (state S.Store change.old.conn.now)
        (state S.Store change.new.conn.now) (λ map. IsStorable row.now) (SetsAlone row.now)
        (CannotPut row.now) result }
    ensures cause { HasCleanDisk (state S.Store change.new.conn.now)
        → IsTrue (state S.Store change.old.conn.now).in_transaction
        → Traces S.Store put_texts change.old.conn.now change.new.conn.now result }
{
    let key = row.stored.key.as_str();
    let had = archives::bytes_at(change, key)?;
    let used = next_for(change, row)?;
    tables::put(change, &row.stored)?;
    archives::remove(change, key)?;
    if row.stored.archived {
        archives::add(change, key, row.bytes, used)?;
    }
    Ok(had)
}

// The number of the row's own use, if it needs one. R5 if none is left.
fn next_for<S: Alter>(change: &mut Transaction<'_, S>, row: &Putting) -> Result<u64, RecordFault>
    ensures same_reference { change.new.conn.ghost_name ≡ change.old.conn.ghost_name }
    ensures step { WalksOn (state S.Store change.old.conn.now) (state S.Store change.new.conn.now)
        Always (λ map used next. (next ≡ map)
        × (IsTrue row.now.stored.archived → IsNext map used)) (CannotPut row.now) result }
    ensures cause { HasCleanDisk (state S.Store change.new.conn.now)
        → IsTrue (state S.Store change.old.conn.now).in_transaction
        → Traces S.Store put_texts change.old.conn.now change.new.conn.now result }
{
    if !row.stored.archived {
        return Ok(0);
    }
    next_used(change)
}

// The number of the next use. R5 if none is left.
fn next_used<S: Alter>(change: &mut Transaction<'_, S>) -> Result<u64, RecordFault>
    ensures same_reference { change.new.conn.ghost_name ≡ change.old.conn.ghost_name }
    ensures step { Walks (Unit {0}) (state S.Store change.old.conn.now)
        (state S.Store change.new.conn.now) Always (λ map used next. (next ≡ map)
        × IsNext map used) (λ map fault. (fault ≡ UsesSpent) × AreSpent map.archives) result }
    ensures cause { (texts : _) → Has texts greatest_text
        → HasCleanDisk (state S.Store change.new.conn.now)
        → IsTrue (state S.Store change.old.conn.now).in_transaction
        → Traces S.Store texts change.old.conn.now change.new.conn.now result }
{
    let greatest = archives::greatest_used(change)?;
    if greatest >= GREATEST_NUMBER {
        return Err(RecordFault::UsesSpent);
    }
    Ok(greatest + 1)
}

// Lets the archives go that have to, and answers their keys, with the bytes of those that are left, if there is a budget.
fn lose_for<S: Alter>(
    alloc: Global,
    change: &mut Transaction<'_, S>,
    space: Space,
    row: &Putting,
    had: Option<u64>,
) -> Result<(Items<Text>, Option<u128>), RecordFault>
    ensures same_reference { change.new.conn.ghost_name ≡ change.old.conn.ghost_name }
    ensures step { WalksOn (state S.Store change.old.conn.now) (state S.Store change.new.conn.now)
        (CanLose space.budget space.counted row.now had) Loses Never result }
    ensures cause { HasCleanDisk (state S.Store change.new.conn.now)
        → IsTrue (state S.Store change.old.conn.now).in_transaction
        → Traces S.Store put_texts change.old.conn.now change.new.conn.now result }
{
    let mut lost = Items::new(alloc);
    let Some(budget) = space.budget else {
        return Ok((lost, None));
    };
    let total = match space.counted {
        Some(before) => total_after(before, row, had),
        None => archives::total(change)?,
    };
    let left = lose(change, budget, total, &mut lost)?;
    Ok((lost, Some(left)))
}

// The bytes of all archives once the row is set, from those before.
fn total_after(before: u128, row: &Putting, had: Option<u64>) -> u128
    ensures { result ≡ total_after before row.now had }
{
    let gone = u128::from(had.unwrap_or(0));
    let own = if row.stored.archived { row.bytes } else { 0 };
    before.saturating_sub(gone).saturating_add(u128::from(own))
}

// Lets archives go, oldest use first, until the rest is within the budget, and answers how many bytes the rest has.
fn lose<S: Alter>(
    change: &mut Transaction<'_, S>,
    budget: u64,
    total: u128,
    lost: &mut Items<Text>,
) -> Result<u128, RecordFault>
    ensures same_reference { change.new.conn.ghost_name ≡ change.old.conn.ghost_name }
    ensures step { WalksOn (state S.Store change.old.conn.now) (state S.Store change.new.conn.now)
        (λ map. (map.budget ≡ Some budget)
        × (total ≡ total_bytes map.archives)) (LosesFrom lost.old lost.new) Never result }
    ensures cause { HasCleanDisk (state S.Store change.new.conn.now)
        → IsTrue (state S.Store change.old.conn.now).in_transaction
        → Traces S.Store put_texts change.old.conn.now change.new.conn.now result }
{
    let mut left = total;
    for _ in 0..u64::MAX {
        if left <= u128::from(budget) {
            break;
        }
        let (key, bytes) = lose_oldest(change)?;
        left = left.saturating_sub(u128::from(bytes));
        lost.push(key)?;
    }
    Ok(left)
}

// The archive whose use is the oldest goes. R1 if there is none, though so many bytes were counted.
fn lose_oldest<S: Alter>(change: &mut Transaction<'_, S>) -> Result<(Text, u64), RecordFault>
    ensures same_reference { change.new.conn.ghost_name ≡ change.old.conn.ghost_name }
    ensures step { Walks (Unit {0}) (state S.Store change.old.conn.now)
        (state S.Store change.new.conn.now) (λ map. IsSome (oldest_of map)) LosesOldest Never
        result }
    ensures cause { HasCleanDisk (state S.Store change.new.conn.now)
        → IsTrue (state S.Store change.old.conn.now).in_transaction
        → Traces S.Store put_texts change.old.conn.now change.new.conn.now result }
{
    let Some((key, bytes)) = archives::oldest(change)? else {
        return Err(RecordFault::NotARecord);
    };
    tables::drop_archive(change, key.as_str())?;
    archives::remove(change, key.as_str())?;
    Ok((key, bytes))
}

/// Notes that the archive of a key was used. R3 if it has none, R5 if no number is left.
pub fn touch<S: Alter>(conn: &mut Connection<S>, key: &str) -> Result<(), RecordFault>
    requires { conn.old.in_transaction ≡ false }
    ensures whole { HasCleanDisk (state S.Store conn.new)
        → Changes (state S.Store conn.old) (state S.Store conn.new) Always (Touches key.now)
        (CannotTouch key.now) result }
    ensures crash { CrashesBy (state S.Store conn.old) (state S.Store conn.new) Always
        (Touches key.now) }
    ensures spares { HasCleanDisk (state S.Store conn.new)
        → Spares (state S.Store conn.old) (state S.Store conn.new) result }
    ensures ended { conn.new.in_transaction ≡ false }
    ensures cause { HasCleanDisk (state S.Store conn.new)
        → IfErr result (Blames S.Store touch_texts (begun S.Store conn.old)) }
{
    let mut change = conn.transaction();
    let answer = touch_in(&mut change, key);
    ended(change, answer)
}

fn touch_in<S: Alter>(change: &mut Transaction<'_, S>, key: &str) -> Result<(), RecordFault>
    ensures same_reference { change.new.conn.ghost_name ≡ change.old.conn.ghost_name }
    ensures step { Walks (Unit {0}) (state S.Store change.old.conn.now)
        (state S.Store change.new.conn.now) Always (Touches key.now) (CannotTouch key.now) result }
    ensures cause { HasCleanDisk (state S.Store change.new.conn.now)
        → IsTrue (state S.Store change.old.conn.now).in_transaction
        → Traces S.Store touch_texts change.old.conn.now change.new.conn.now result }
{
    if archives::bytes_at(change, key)?.is_none() {
        return Err(RecordFault::NoRow);
    }
    let used = next_used(change)?;
    archives::renumber(change, key, used)
}

/// Notes that the archive of a key is gone, and answers its bytes, if it had one. R3 if no row has the key.
pub fn drop_archive<S: Alter>(
    conn: &mut Connection<S>,
    key: &str,
) -> Result<Option<u64>, RecordFault>
    requires { conn.old.in_transaction ≡ false }
    ensures whole { HasCleanDisk (state S.Store conn.new)
        → Changes (state S.Store conn.old) (state S.Store conn.new) Always
        (Takes (unarchives key.now) key.now) (Lacks key.now) result }
    ensures crash { CrashesBy (state S.Store conn.old) (state S.Store conn.new) Always
        (Takes (unarchives key.now) key.now) }
    ensures spares { HasCleanDisk (state S.Store conn.new)
        → Spares (state S.Store conn.old) (state S.Store conn.new) result }
    ensures ended { conn.new.in_transaction ≡ false }
    ensures cause { HasCleanDisk (state S.Store conn.new)
        → IfErr result (Blames S.Store drop_texts (begun S.Store conn.old)) }
{
    let mut change = conn.transaction();
    let answer = drop_in(&mut change, key);
    ended(change, answer)
}

fn drop_in<S: Alter>(change: &mut Transaction<'_, S>, key: &str) -> Result<Option<u64>, RecordFault>
    ensures same_reference { change.new.conn.ghost_name ≡ change.old.conn.ghost_name }
    ensures step { Walks (Unit {0}) (state S.Store change.old.conn.now)
        (state S.Store change.new.conn.now) Always (Takes (unarchives key.now) key.now)
        (Lacks key.now) result }
    ensures cause { HasCleanDisk (state S.Store change.new.conn.now)
        → IsTrue (state S.Store change.old.conn.now).in_transaction
        → Traces S.Store drop_texts change.old.conn.now change.new.conn.now result }
{
    let had = archives::bytes_at(change, key)?;
    if !tables::drop_archive(change, key)? {
        return Err(RecordFault::NoRow);
    }
    archives::remove(change, key)?;
    Ok(had)
}

/// Takes the row of a key out with its archive, and answers the bytes of that, if it had one. R3 if no row has the key.
pub fn forget<S: Alter>(conn: &mut Connection<S>, key: &str) -> Result<Option<u64>, RecordFault>
    requires { conn.old.in_transaction ≡ false }
    ensures whole { HasCleanDisk (state S.Store conn.new)
        → Changes (state S.Store conn.old) (state S.Store conn.new) Always
        (Takes (forgets key.now) key.now) (Lacks key.now) result }
    ensures crash { CrashesBy (state S.Store conn.old) (state S.Store conn.new) Always
        (Takes (forgets key.now) key.now) }
    ensures spares { HasCleanDisk (state S.Store conn.new)
        → Spares (state S.Store conn.old) (state S.Store conn.new) result }
    ensures ended { conn.new.in_transaction ≡ false }
    ensures cause { HasCleanDisk (state S.Store conn.new)
        → IfErr result (Blames S.Store forget_texts (begun S.Store conn.old)) }
{
    let mut change = conn.transaction();
    let answer = forget_in(&mut change, key);
    ended(change, answer)
}

fn forget_in<S: Alter>(
    change: &mut Transaction<'_, S>,
    key: &str,
) -> Result<Option<u64>, RecordFault>
    ensures same_reference { change.new.conn.ghost_name ≡ change.old.conn.ghost_name }
    ensures step { Walks (Unit {0}) (state S.Store change.old.conn.now)
        (state S.Store change.new.conn.now) Always (Takes (forgets key.now) key.now)
        (Lacks key.now) result }
    ensures cause { HasCleanDisk (state S.Store change.new.conn.now)
        → IsTrue (state S.Store change.old.conn.now).in_transaction
        → Traces S.Store forget_texts change.old.conn.now change.new.conn.now result }
{
    let had = archives::bytes_at(change, key)?;
    if !tables::forget(change, key)? {
        return Err(RecordFault::NoRow);
    }
    archives::remove(change, key)?;
    Ok(had)
}

/// Commits what was done, or takes it back if it was refused.
pub fn ended<S: Alter, T: Drop>(
    change: Transaction<'_, S>,
    answer: Result<T, RecordFault>,
) -> Result<T, RecordFault>
    ensures ends { HasCleanDisk (state S.Store change.exit.0.now)
        → Ends (state S.Store change.entry.conn.now) (state S.Store change.exit.0.now) answer
        result }
    ensures fails { HasCleanDisk (state S.Store change.exit.0.now)
        → FailsToEnd (state S.Store change.entry.conn.now) (state S.Store change.exit.0.now)
        answer result }
    ensures survives { Survives (state S.Store change.entry.conn.now)
        (state S.Store change.exit.0.now)
        (λ trees. IsOk answer × (trees ≡ (state S.Store change.entry.conn.now).now.trees)) }
    ensures ended { change.exit.0.now.in_transaction ≡ false }
{
    match answer {
        Ok(value) => match change.commit() {
            Ok(()) => Ok(value),
            Err(error) => Err(RecordFault::Store(error)),
        },
        Err(fault) => {
            change.rollback();
            Err(fault)
        }
    }
}

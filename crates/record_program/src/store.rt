//! What is shown of a record, over any store, and which rows are forgotten first.
ghost use Rattle.std.specs.Prelude.{◌≡◌, ◌⊎◌, ℕ, List, IfOk, IfErr, IsTrue, flat_map};
ghost use Rattle.sqlite.specs.State.{HasCleanDisk};
ghost use Rattle.sqlite.specs.Held.{state};
ghost use Rattle.sqlite_rules.specs.Lists.{Has};
ghost use Rattle.job_record.specs.declared.fault.RecordFault.TheVariants.{OutOfMemory};
ghost use Rattle.job_record.specs.Counted.{FitsSpace};
ghost use Rattle.job_record.specs.Map.{IsRecord, IsRecordOf};
ghost use Rattle.job_record.specs.OpenMap.{IsBlank};
ghost use Rattle.record_program.specs.Endings.{Ends, IsEnding, ShowsNone};
ghost use Rattle.record_program.specs.Forgetting.{Forgets, Shows, ShowsIn, ForgetsFirst};
ghost use Rattle.record_program.specs.inner.Steps.{Picks, PicksOf, HoldsKeys, ForgetsOne, ForgetsAll};
ghost use Rattle.record_program.specs.Lines.{has_sum, line_of};

use crate::ending::Ending;
use crate::keys::keys_with;
use crate::lines::rows_text;
use crate::tables::refusal_of_shown;
use job_record::{JobRecord, RecordFault, rows_of};
use job_rows::Row;
use plain_data::{Items, Text};
use sqlite::{Alter, Connection, Error};
use std::alloc::Global;

/// Shows the rows of a record.
#[tactic(auto, using(crate::proofs::EndsOfRows::ends_end))]
pub fn shown<S: Alter>(alloc: Global, kept: &mut JobRecord<S>) -> Ending
    ensures ending { IsEnding result }
    ensures clean { HasCleanDisk (state S.Store kept.new.conn)
        → HasCleanDisk (state S.Store kept.old.conn) }
    ensures shows { HasCleanDisk (state S.Store kept.new.conn)
        → IsRecord (state S.Store kept.old.conn)
        → Shows (state S.Store kept.old.conn) (state S.Store kept.new.conn) result }
{
    let rows = kept.list();
    ended(alloc, rows)
}

/// Shows the rows of the record that a database holds, also of one of version 1, and changes nothing.
#[tactic(auto, using(crate::proofs::Unshown::is_ending))]
pub fn shown_in<S: Alter>(alloc: Global, conn: &mut Connection<S>) -> Ending
    ensures ending { IsEnding result }
    ensures shows { ShowsNone result
        ⊎ (ShowsIn (state S.Store conn.old) (state S.Store conn.new) result
        × (HasCleanDisk (state S.Store conn.new) → IsBlank (state S.Store conn.old) → ⊥)) }
{
    match refusal_of_shown(conn) {
        Some(fault) => Ending::Record(fault),
        None => listed(alloc, conn),
    }
}

#[tactic(auto, using(crate::proofs::EndsOfRows::ends_end))]
fn listed<S: Alter>(alloc: Global, conn: &mut Connection<S>) -> Ending
    ensures ending { IsEnding result }
    ensures shows { ShowsIn (state S.Store conn.old) (state S.Store conn.new) result }
{
    let rows = rows_of(alloc, conn);
    ended(alloc, rows)
}

/// Forgets the rows whose key has this SHA-1, and shows those that are left. If no row has it, that is R3, and the
/// record is as it was.
#[tactic(auto, using(crate::specs::Endings::faulty))]
pub fn forgotten<S: Alter>(alloc: Global, kept: &mut JobRecord<S>, sum: &str) -> Ending
    ensures ending { IsEnding result }
    ensures clean { HasCleanDisk (state S.Store kept.new.conn)
        → HasCleanDisk (state S.Store kept.old.conn) }
    ensures forgets { HasCleanDisk (state S.Store kept.new.conn)
        → (map : _) → FitsSpace kept.old.space map → IsRecordOf (state S.Store kept.old.conn) map
        → ForgetsFirst S.Store map kept.new.conn sum.now result }
{
    match forget_rows(alloc, kept, sum) {
        Ok(()) => shown(alloc, kept),
        Err(fault) => Ending::Record(fault),
    }
}

/// Returns how the command ends for these rows.
pub fn ended(alloc: Global, rows: Result<Items<Row>, RecordFault>) -> Ending
    ensures { Ends rows result }
{
    match rows {
        Ok(rows) => rows_ended(alloc, rows),
        Err(fault) => Ending::Record(fault),
    }
}

fn rows_ended(alloc: Global, rows: Items<Row>) -> Ending
    ensures { Ends (Ok rows) result }
{
    match text_of(alloc, rows) {
        Ok(text) => Ending::Rows(text),
        Err(fault) => Ending::Record(fault),
    }
}

fn text_of(alloc: Global, rows: Items<Row>) -> Result<Text, RecordFault>
    ensures ok { IfOk result (λ text. text ≡ flat_map line_of rows) }
    ensures err { IfErr result (λ fault. fault ≡ OutOfMemory) }
{
    Ok(rows_text(alloc, rows.as_slice())?)
}

#[tactic(auto, using(crate::proofs::LeavesOthers::forgets_rows, crate::proofs::LeavesOthers::forgets_none))]
fn forget_rows<S: Alter>(
    alloc: Global,
    kept: &mut JobRecord<S>,
    sum: &str,
) -> Result<(), RecordFault>
    ensures clean { HasCleanDisk (state S.Store kept.new.conn)
        → HasCleanDisk (state S.Store kept.old.conn) }
    ensures forgets { HasCleanDisk (state S.Store kept.new.conn)
        → (map : _) → FitsSpace kept.old.space map → IsRecordOf (state S.Store kept.old.conn) map
        → Forgets sum.now map (state S.Store kept.new.conn) result }
{
    match keys_held(alloc, kept, sum) {
        Ok(keys) => forget_all(kept, keys.as_slice()),
        Err(fault) => Err(fault),
    }
}

// The keys of the record that have the sum: at least one, or R3.
#[tactic(auto, using(crate::proofs::LeavesOthers::keys_hold))]
fn keys_held<S: Alter>(
    alloc: Global,
    kept: &mut JobRecord<S>,
    sum: &str,
) -> Result<Items<Text>, RecordFault>
    ensures clean { HasCleanDisk (state S.Store kept.new.conn)
        → HasCleanDisk (state S.Store kept.old.conn) }
    ensures holds { HasCleanDisk (state S.Store kept.new.conn)
        → (map : _) → IsRecordOf (state S.Store kept.old.conn) map
        → HoldsKeys sum.now map (state S.Store kept.new.conn) result }
    ensures space { kept.new.space ≡ kept.old.space }
{
    let all = kept.keys();
    picked(alloc, all, sum)
}

fn picked(
    alloc: Global,
    all: Result<Items<Text>, RecordFault>,
    sum: &str,
) -> Result<Items<Text>, RecordFault>
    ensures { Picks sum.now all result }
{
    match all {
        Ok(all) => some_with(alloc, &all, sum),
        Err(fault) => Err(fault),
    }
}

fn some_with(alloc: Global, all: &Items<Text>, sum: &str) -> Result<Items<Text>, RecordFault>
    ensures { PicksOf sum.now all.now result }
{
    let keys = keys_with(alloc, all.as_slice(), sum)?;
    if keys.is_empty() {
        Err(RecordFault::NoRow)
    } else {
        Ok(keys)
    }
}

fn forget_all<S: Alter>(kept: &mut JobRecord<S>, keys: &[Text]) -> Result<(), RecordFault>
    ensures clean { HasCleanDisk (state S.Store kept.new.conn)
        → HasCleanDisk (state S.Store kept.old.conn) }
    ensures forgets { HasCleanDisk (state S.Store kept.new.conn)
        → (map : _) → FitsSpace kept.old.space map → IsRecordOf (state S.Store kept.old.conn) map
        → (sum : List ℕ) → ((key : List ℕ) → Has keys.now key → IsTrue (has_sum sum key))
        → ForgetsAll sum keys.now map (state S.Store kept.new.conn) result }
{
    for key in keys {
        forget_one(kept, key.as_str())?;
    }
    Ok(())
}

// The key was listed, so its row is there unless the store has failed.
fn forget_one<S: Alter>(kept: &mut JobRecord<S>, key: &str) -> Result<(), RecordFault>
    ensures clean { HasCleanDisk (state S.Store kept.new.conn)
        → HasCleanDisk (state S.Store kept.old.conn) }
    ensures forgets { HasCleanDisk (state S.Store kept.new.conn)
        → (map : _) → FitsSpace kept.old.space map → IsRecordOf (state S.Store kept.old.conn) map
        → ForgetsOne key.now map kept.new.space (state S.Store kept.new.conn) result }
{
    match kept.forget(key) {
        Err(RecordFault::NoRow) => Err(RecordFault::Store(Error::QueryReturnedNoRows)),
        answer => answer,
    }
}

//! The archives of a record that a budget has no room for, over any store: they go, the oldest last use first.
ghost use Rattle.std.specs.Prelude.{◌≡◌, ◌≤◌, ℕ, IfOk, IfErr, Some, length, take};
ghost use Rattle.sqlite.specs.State.{HasCleanDisk};
ghost use Rattle.sqlite.specs.Held.{state};
ghost use Rattle.job_rows.specs.Map.{keys_in};
ghost use Rattle.job_record.specs.declared.fault.RecordFault.TheVariants.{OutOfMemory};
ghost use Rattle.job_record.specs.Counted.{FitsSpace};
ghost use Rattle.job_record.specs.Map.{IsRecordOf};
ghost use Rattle.record_program.specs.Endings.{IsEnding};
ghost use Rattle.record_program.specs.Trimming.{Trims, TrimsFirst, lost_keys};
ghost use Rattle.record_program.specs.inner.Steps.{HoldsLost, LosesFirst, LosesOne};

use crate::ending::Ending;
use crate::store::shown;
use job_record::{JobRecord, RecordFault};
use job_rows::{Archive, lost_count};
use plain_data::{Items, Text};
use sqlite::{Alter, Error};
use std::alloc::{AllocError, Global};

/// Lets the archives of the oldest last use go until the others have at most so many bytes together, and shows the rows, which all
/// stay. Returns the keys whose archives went: none if that was refused on the way.
#[tactic(auto, using(crate::specs::Endings::faulty))]
pub fn trimmed<S: Alter>(
    alloc: Global,
    kept: &mut JobRecord<S>,
    budget: u64,
) -> (Ending, Items<Text>)
    ensures ending { IsEnding result.0 }
    ensures clean { HasCleanDisk (state S.Store kept.new.conn)
        → HasCleanDisk (state S.Store kept.old.conn) }
    ensures trims { HasCleanDisk (state S.Store kept.new.conn)
        → (map : _) → FitsSpace kept.old.space map → IsRecordOf (state S.Store kept.old.conn) map
        → TrimsFirst S.Store map kept.new.conn budget result.0 result.1 }
{
    match lose_oldest(alloc, kept, budget) {
        Ok(lost) => (shown(alloc, kept), lost),
        Err(fault) => (Ending::Record(fault), Items::new(alloc)),
    }
}

fn lose_oldest<S: Alter>(
    alloc: Global,
    kept: &mut JobRecord<S>,
    budget: u64,
) -> Result<Items<Text>, RecordFault>
    ensures clean { HasCleanDisk (state S.Store kept.new.conn)
        → HasCleanDisk (state S.Store kept.old.conn) }
    ensures trims { HasCleanDisk (state S.Store kept.new.conn)
        → (map : _) → FitsSpace kept.old.space map → IsRecordOf (state S.Store kept.old.conn) map
        → Trims budget map (state S.Store kept.new.conn) result }
{
    let keys = keys_to_lose(alloc, kept, budget)?;
    lose_all(kept, keys.as_slice())?;
    Ok(keys)
}

fn keys_to_lose<S: Alter>(
    alloc: Global,
    kept: &mut JobRecord<S>,
    budget: u64,
) -> Result<Items<Text>, RecordFault>
    ensures clean { HasCleanDisk (state S.Store kept.new.conn)
        → HasCleanDisk (state S.Store kept.old.conn) }
    ensures holds { HasCleanDisk (state S.Store kept.new.conn)
        → (map : _) → IsRecordOf (state S.Store kept.old.conn) map
        → HoldsLost budget map (state S.Store kept.new.conn) result }
    ensures space { kept.new.space ≡ kept.old.space }
{
    match kept.archives() {
        Ok(archives) => picked(alloc, &archives, budget),
        Err(fault) => Err(fault),
    }
}

fn picked(alloc: Global, archives: &Items<Archive>, budget: u64) -> Result<Items<Text>, RecordFault>
    ensures ok { IfOk result (λ keys. keys ≡ lost_keys budget archives.now) }
    ensures err { IfErr result (λ fault. fault ≡ OutOfMemory) }
{
    Ok(lost_keys(alloc, archives.as_slice(), budget)?)
}

/// Returns the keys of the archives that have to go, the first of these, until the rest has at most so many bytes.
pub fn lost_keys(
    alloc: Global,
    archives: &[Archive],
    budget: u64,
) -> Result<Items<Text>, AllocError>
    ensures { IfOk result (λ keys. keys ≡ lost_keys budget archives.now) }
{
    let count = lost_count(archives, Some(budget));
    keys_of(alloc, &archives[..count])
}

fn keys_of(alloc: Global, archives: &[Archive]) -> Result<Items<Text>, AllocError>
    ensures { IfOk result (λ keys. keys ≡ keys_in archives.now) }
{
    let mut keys = Items::new(alloc);
    for archive in archives {
        keys.push(archive.key.copied(alloc)?)?;
    }
    Ok(keys)
}

fn lose_all<S: Alter>(kept: &mut JobRecord<S>, keys: &[Text]) -> Result<(), RecordFault>
    ensures clean { HasCleanDisk (state S.Store kept.new.conn)
        → HasCleanDisk (state S.Store kept.old.conn) }
    ensures loses { HasCleanDisk (state S.Store kept.new.conn)
        → (map : _) → FitsSpace kept.old.space map → IsRecordOf (state S.Store kept.old.conn) map
        → (count : ℕ) → count ≤ length map.archives
        → keys.now ≡ keys_in (take count map.archives)
        → LosesFirst count map (state S.Store kept.new.conn) result }
{
    for key in keys {
        lose_one(kept, key.as_str())?;
    }
    Ok(())
}

// The key has an archive, so its row is there unless the store has failed.
fn lose_one<S: Alter>(kept: &mut JobRecord<S>, key: &str) -> Result<(), RecordFault>
    ensures clean { HasCleanDisk (state S.Store kept.new.conn)
        → HasCleanDisk (state S.Store kept.old.conn) }
    ensures loses { HasCleanDisk (state S.Store kept.new.conn)
        → (map : _) → FitsSpace kept.old.space map → IsRecordOf (state S.Store kept.old.conn) map
        → LosesOne key.now map kept.new.space (state S.Store kept.new.conn) result }
{
    match kept.drop_archive(key) {
        Err(RecordFault::NoRow) => Err(RecordFault::Store(Error::QueryReturnedNoRows)),
        answer => answer,
    }
}

//! A record that is looked at as it is, also one of version 1.

ghost use Rattle.std.specs.Prelude.{◌≡◌, ◌⊎◌, [], false, OnOk};
ghost use Rattle.sqlite.specs.State.{CommitsShowing, HasCleanDisk, IsUnchanged, Survives};
ghost use Rattle.sqlite.specs.Held.{state};
ghost use Rattle.job_record.specs.Archives.{archives_text};
ghost use Rattle.job_record.specs.Map.{ArchivesIn, HoldsMap, IsRecord, ListsIn};
ghost use Rattle.job_record.specs.OpenMap.{IsBlank, IsFirst};
ghost use Rattle.job_record.specs.RecordMap.{Lists, ListsArchives};
ghost use Rattle.job_record.specs.Seen.{SeesIn, SeesNone};
ghost use Rattle.job_record.specs.inner.Crash.{RunsOpen};

use crate::commands::{all_archives, read_all};
use crate::fault::RecordFault;
use crate::making::{Tables, find_tables, is_first, open_current};
use job_rows::{Archive, Row};
use plain_data::Items;
use sqlite::{Alter, Connection};
use std::alloc::Global;

/// Whether a store holds a record of a version that is known. Nothing is made or changed.
///
/// # Errors
///
/// R1 if the store lacks a table that its version has, or has one more, a table lacks a column, or there is no version; R2 if
/// the version is another one; R4.
#[tactic(auto, using(crate::proofs::Chain::was_clean))]
pub fn look<S: Alter>(conn: &mut Connection<S>) -> Result<(), RecordFault>
    ensures clean { HasCleanDisk (state S.Store conn.new)
        → HasCleanDisk (state S.Store conn.old) }
    ensures same { HasCleanDisk (state S.Store conn.new) → OnOk result
        (IsFirst (state S.Store conn.old) ⊎ IsRecord (state S.Store conn.old)
        → IsUnchanged (state S.Store conn.old) (state S.Store conn.new)) }
    ensures some { HasCleanDisk (state S.Store conn.new)
        → OnOk result (IsBlank (state S.Store conn.old) → ⊥) }
{
    match find_tables(conn)? {
        Tables::None => Err(RecordFault::NotARecord),
        Tables::First => is_first(conn),
        Tables::All => open_current(conn),
    }
}

/// All rows of a record, of either version, in the order of the bytes of their keys.
///
/// # Errors
///
/// R1 if a row does not read; R4; out of memory.
#[tactic(auto, using(crate::proofs::MapSteps::list_is_map, crate::proofs::Seen::list_sees))]
pub fn rows_of<S: Alter>(alloc: Global, conn: &mut Connection<S>) -> Result<Items<Row>, RecordFault>
    ensures clean { HasCleanDisk (state S.Store conn.new)
        → HasCleanDisk (state S.Store conn.old) }
    ensures lists { HasCleanDisk (state S.Store conn.new) → Lists S.Store conn.old conn.new result }
    ensures map { HasCleanDisk (state S.Store conn.new)
        → IsRecord (state S.Store conn.old)
        → ListsIn (state S.Store conn.old) (state S.Store conn.new) result }
    ensures first { HasCleanDisk (state S.Store conn.new)
        → IsFirst (state S.Store conn.old)
        → SeesIn (state S.Store conn.old) (state S.Store conn.new) result }
{
    read_all(alloc, conn)
}

/// All archives of a record of version 2, by their last use, the oldest first.
///
/// # Errors
///
/// R1 if a key is no text in UTF-8, or the bytes or the use are no number; R4, also of a record of version 1, which has no table
/// of archives; out of memory.
#[tactic(auto, using(crate::proofs::ArchivesHeld::archives_are_map, crate::proofs::ArchivesHeld::archives_see_none))]
pub fn archives_of<S: Alter>(
    alloc: Global,
    conn: &mut Connection<S>,
) -> Result<Items<Archive>, RecordFault>
    ensures clean { HasCleanDisk (state S.Store conn.new)
        → HasCleanDisk (state S.Store conn.old) }
    ensures lists { HasCleanDisk (state S.Store conn.new)
        → ListsArchives S.Store conn.old conn.new result }
    ensures map { HasCleanDisk (state S.Store conn.new)
        → IsRecord (state S.Store conn.old)
        → (map : _) → HoldsMap (state S.Store conn.old).now map
        → ArchivesIn map (state S.Store conn.old) (state S.Store conn.new) result }
    ensures first { HasCleanDisk (state S.Store conn.new)
        → IsFirst (state S.Store conn.old)
        → SeesNone (state S.Store conn.old) (state S.Store conn.new) result }
    ensures survives { Survives (state S.Store conn.old) (state S.Store conn.new)
        (CommitsShowing archives_text [] (state S.Store conn.old)) }
    ensures open { HasCleanDisk (state S.Store conn.new)
        → RunsOpen (state S.Store conn.old) (state S.Store conn.new) }
    ensures mode { conn.old.in_transaction ≡ false → conn.new.in_transaction ≡ false }
{
    all_archives(alloc, conn)
}

//! The rows of a record with the archives that it keeps.
ghost use Rattle.std.specs.Prelude.{◌≡◌, None, IfOk, IfErr};
ghost use Rattle.sqlite.specs.State.{HasCleanDisk};
ghost use Rattle.sqlite.specs.Held.{state};
ghost use Rattle.job_record.specs.Map.{IsRecordOf};
ghost use Rattle.record_program.specs.Endings.{ShowsNone};
ghost use Rattle.record_program.specs.Listing.{Lists, IsListing, ListsOn};

use crate::closing::left_of;
use crate::databases::Databases;
use crate::ending::Ending;
use crate::file::seen_in_copy;
use crate::held::held_record;
use job_record::{JobRecord, RecordFault};
use job_rows::{Archive, Row};
use plain_data::Items;
use sqlite::{Alter, FileStore};
use sqlite_disk::Disk;
use std::mem;
use std::rt::Files as Folder;

/// What a record holds.
#[derive(Drop)]
pub struct Listing {
    /// In the order of the bytes of their keys.
    pub rows: Items<Row>,
    /// The archives that are kept, the oldest last use first.
    pub archives: Items<Archive>,
}

/// Lists what the record of a file holds.
pub fn listed_on<R: AllocGlobal + Folder + Databases>(rt: &R, file: &str) -> Result<Listing, Ending>
    ensures whose { IfOk result (ListsOn R.Medium.Disk (R.opens rt.now file.now)) }
    ensures err { IfErr result ShowsNone }
{
    match held_record(rt, file) {
        Ok(kept) => listed_in(kept),
        Err(ending) => Err(ending),
    }
}

/// The same, and of a copy of the file if another holds it or it may not be written.
pub fn seen_on<R: AllocGlobal + Folder + Databases>(rt: &R, file: &str) -> Result<Listing, Ending>
    ensures whose { IfOk result (ListsOn R.Medium.Disk (R.opens rt.now file.now)) }
    ensures err { IfErr result ShowsNone }
{
    match held_record(rt, file) {
        Ok(kept) => listed_in(kept),
        Err(Ending::Record(fault)) => listed_in_copy(rt, file, fault),
        Err(ending) => Err(ending),
    }
}

fn listed_in_copy<R: AllocGlobal + Folder + Databases>(
    rt: &R,
    file: &str,
    fault: RecordFault,
) -> Result<Listing, Ending>
    ensures whose { IfOk result (ListsOn R.Medium.Disk (R.opens rt.now file.now)) }
    ensures err { IfErr result ShowsNone }
{
    match seen_in_copy(rt, file, fault) {
        Ok(kept) => listed_in(kept),
        Err(fault) => Err(Ending::Record(fault)),
    }
}

// Nothing was changed, so nothing is lost if the record can't be closed.
fn listed_in<D: Disk + Drop>(mut kept: JobRecord<FileStore<D>>) -> Result<Listing, Ending>
    ensures ok { IfOk result (IsListing D.Disk kept.conn) }
    ensures err { IfErr result ShowsNone }
{
    let listing = listed(&mut kept);
    let left = left_of(kept.into_connection());
    mem::drop(left);
    match listing {
        Ok(listing) => Ok(listing),
        Err(fault) => Err(Ending::Record(fault)),
    }
}

/// Lists the rows of a record, and then its archives.
pub fn listed<S: Alter>(kept: &mut JobRecord<S>) -> Result<Listing, RecordFault>
    ensures clean { HasCleanDisk (state S.Store kept.new.conn)
        → HasCleanDisk (state S.Store kept.old.conn) }
    ensures lists { HasCleanDisk (state S.Store kept.new.conn)
        → (map : _) → IsRecordOf (state S.Store kept.old.conn) map
        → Lists S.Store map kept.old.conn kept.new.conn result }
{
    match kept.list() {
        Ok(rows) => match kept.archives() {
            Ok(archives) => Ok(Listing { rows, archives }),
            Err(fault) => Err(fault),
        },
        Err(fault) => Err(fault),
    }
}

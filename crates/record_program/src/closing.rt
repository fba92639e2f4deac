//! A record in files that is closed, also once rows of it were forgotten or archives went, over any disk.
ghost use Rattle.record_program.specs.Endings.{IsEnding};
ghost use Rattle.record_program.specs.Closing.{ForgetsForGood, TrimsForGood, ClosesAs, Leaves};

use crate::ending::{Ending, unclosed};
use crate::store::forgotten;
use crate::trimming::trimmed;
use job_record::JobRecord;
use plain_data::{Items, Text};
use sqlite::{Connection, FileStore, Files};
use sqlite_disk::Disk;
use std::alloc::Global;
use std::mem;

/// Forgets the rows whose key has this SHA-1, and closes the record in good order, so that its file alone holds it. Gives the
/// files back if they were closed, and else ends with a fault.
pub fn forgotten_for_good<D: Disk + Drop>(
    alloc: Global,
    mut kept: JobRecord<FileStore<D>>,
    sum: &str,
) -> (Ending, Option<Files<D>>)
    ensures ending { IsEnding result.0 }
    ensures closes { ForgetsForGood D.Disk sum.now kept.space kept.conn result.0 result.1 }
{
    let ending = forgotten(alloc, &mut kept, sum);
    closed(kept.into_connection(), ending)
}

/// Lets the archives of the oldest last use go until the others have at most so many bytes together, and closes the record in good
/// order. Returns the keys whose archives went for good, none if the record could not be closed, and gives the files back if it was.
pub fn trimmed_for_good<D: Disk + Drop>(
    alloc: Global,
    mut kept: JobRecord<FileStore<D>>,
    budget: u64,
) -> (Ending, Items<Text>, Option<Files<D>>)
    ensures ending { IsEnding result.0 }
    ensures closes { TrimsForGood D.Disk budget kept.space kept.conn result.0 result.1 result.2 }
{
    let (ending, lost) = trimmed(alloc, &mut kept, budget);
    let (ending, files) = closed(kept.into_connection(), ending);
    match files {
        Some(files) => (ending, lost, Some(files)),
        None => (ending, Items::new(alloc), None),
    }
}

fn closed<D: Disk + Drop>(
    conn: Connection<FileStore<D>>,
    ending: Ending,
) -> (Ending, Option<Files<D>>)
    ensures ending { IsEnding ending → IsEnding result.0 }
    ensures closes { ClosesAs D.Disk conn ending result.0 result.1 }
{
    match conn.close_files() {
        Ok(files) => (ending, Some(files)),
        Err((error, store)) => {
            mem::drop(store);
            (unclosed(ending, error), None)
        }
    }
}

/// Closes a database in good order. Where that can't be done its log stays beside its file.
pub fn left_of<D: Disk + Drop>(conn: Connection<FileStore<D>>) -> Result<Files<D>, FileStore<D>>
    ensures { Leaves D.Disk conn result }
{
    match conn.close_files() {
        Ok(files) => Ok(files),
        Err((_, store)) => Err(store),
    }
}

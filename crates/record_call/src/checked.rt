//! `record --check`: in what a cache's files and its record differ.
ghost use Rattle.std.specs.Prelude.{IfErr, IfOk, OnOk};
ghost use Rattle.record_program.specs.Endings.{ShowsNone};
ghost use Rattle.record_call.specs.Checked.{IsCheckEnding, IsCheckOn, IsParted, IsTold, Parts};

use job_record::RecordFault;
use plain_data::{Items, Text};
use process_machine::{World, remove_folder};
use program_words::{CheckNames, check_lines};
use record_program::{Difference, Ending, Listing, Records, compared};
use run_given::{FILES, RECORD, within};
use std::alloc::{AllocError, Global};
use std::fs::{DirEntry, ReadDir};
use std::{fs, io};

/// Says in what the files of a cache and its record differ, and removes the folders that no row knows if that is asked for.
///
/// The folder is read before the record, and a run holds the record: so a folder that a run has begun meanwhile is not among those that go.
#[tactic(auto, using(crate::specs::Checked::unread))]
pub fn checked<R: World + Records>(rt: &R, cache: &str, remove: bool) -> Result<Ending, AllocError>
    ensures { IfOk result (IsCheckOn R.Records rt.now cache.now remove) }
{
    let files = within(rt.alloc(), cache, FILES)?;
    match folders_in(rt, files.as_str()) {
        Ok(names) => checked_names(rt, cache, files.as_str(), names.as_slice(), remove),
        Err(error) if error.kind() == io::ErrorKind::OutOfMemory => Err(AllocError),
        Err(_) => Ok(Ending::Input),
    }
}

#[tactic(auto, using(crate::specs::Checked::checks, crate::specs::Checked::unread))]
fn checked_names<R: World + Records>(
    rt: &R,
    cache: &str,
    files: &str,
    names: &[Text],
    remove: bool,
) -> Result<Ending, AllocError>
    ensures { IfOk result (IsCheckOn R.Records rt.now cache.now remove) }
{
    let record = within(rt.alloc(), cache, RECORD)?;
    match rows_of(rt, record.as_str(), remove) {
        Ok(listing) => check_ending(rt, files, names, &listing, remove),
        Err(ending) => Ok(ending),
    }
}

// If folders are to go, no run may hold the record.
fn rows_of<R: World + Records>(rt: &R, record: &str, remove: bool) -> Result<Listing, Ending>
    ensures whose { IfOk result (R.Records.lists rt.now record.now) }
    ensures err { IfErr result ShowsNone }
{
    if remove {
        rt.list_record(record)
    } else {
        rt.see_rows(record)
    }
}

#[tactic(auto, using(crate::specs::Checked::compares, crate::proofs::RecordLines::repeats_so))]
fn check_ending<R: World>(
    rt: &R,
    files: &str,
    names: &[Text],
    listing: &Listing,
    remove: bool,
) -> Result<Ending, AllocError>
    ensures { IfOk result (IsCheckEnding names.now listing.now.archives remove) }
{
    match compared(rt.alloc(), names, listing.archives.as_slice()) {
        Ok(found) => told(rt, files, &found, remove),
        Err(RecordFault::NotARecord) => Ok(Ending::Record(RecordFault::NotARecord)),
        // Nothing else goes wrong.
        Err(_) => Err(AllocError),
    }
}

#[tactic(auto, using(crate::proofs::RecordLines::told_so))]
fn told<R: World>(
    rt: &R,
    files: &str,
    found: &Difference,
    remove: bool,
) -> Result<Ending, AllocError>
    ensures { IfOk result (IsTold found.now.unknown found.now.missing remove) }
{
    let parted = cleared(rt, files, found.unknown.as_slice(), remove)?;
    let names = CheckNames {
        removed: parted.removed.as_slice(),
        unknown: parted.left.as_slice(),
        missing: found.missing.as_slice(),
    };
    Ok(Ending::Rows(check_lines(rt.alloc(), &names)?))
}

/// Folders that were removed, and those that are left.
#[derive(Drop)]
struct Parted {
    removed: Items<Text>,
    left: Items<Text>,
}

#[tactic(auto, using(crate::specs::Checked::none))]
fn cleared<R: World>(
    rt: &R,
    files: &str,
    unknown: &[Text],
    remove: bool,
) -> Result<Parted, AllocError>
    ensures { IfOk result (λ parted. IsParted remove parted.removed parted.left unknown.now) }
{
    let mut parted = Parted {
        removed: Items::new(rt.alloc()),
        left: Items::new(rt.alloc()),
    };
    for name in unknown {
        clear(rt, files, name, remove, &mut parted)?;
    }
    Ok(parted)
}

// What can't be removed is left.
#[tactic(auto, using(crate::proofs::RecordLines::goes_so, crate::proofs::RecordLines::stays_so))]
fn clear<R: World>(
    rt: &R,
    files: &str,
    name: &Text,
    remove: bool,
    parted: &mut Parted,
) -> Result<(), AllocError>
    ensures { OnOk result (Parts remove name.now parted.old.removed parted.old.left
        parted.new.removed parted.new.left) }
{
    let copy = name.copied(rt.alloc())?;
    if remove && is_removed(rt, files, name.as_str())? {
        parted.removed.push(copy)
    } else {
        parted.left.push(copy)
    }
}

fn is_removed<R: World>(rt: &R, files: &str, name: &str) -> Result<bool, AllocError> {
    let folder = within(rt.alloc(), files, name)?;
    Ok(remove_folder(rt, folder.as_str()).is_ok())
}

// The names of the folders in a folder, which may be absent. What a link leads to is not in it.
fn folders_in<R: World>(rt: &R, folder: &str) -> io::Result<Items<Text>> {
    match fs::read_dir(rt, folder) {
        Ok(entries) => names_of(rt.alloc(), entries),
        Err(error) if error.kind() == io::ErrorKind::NotFound => Ok(Items::new(rt.alloc())),
        Err(error) => Err(error),
    }
}

fn names_of<R: World>(alloc: Global, entries: ReadDir<R>) -> io::Result<Items<Text>> {
    let mut names = Items::new(alloc);
    for entry in entries {
        match entry {
            Ok(entry) if is_folder(&entry) => {
                names.push(Text::from_text(alloc, entry.file_name())?)?;
            }
            Ok(_) => {}
            // No folder of an archive has a name that is no UTF-8.
            Err(error) if error.kind() == io::ErrorKind::InvalidFilename => {}
            Err(error) => return Err(error),
        }
    }
    Ok(names)
}

fn is_folder<R: World>(entry: &DirEntry<R>) -> bool {
    match entry.metadata() {
        Ok(metadata) => metadata.is_dir(),
        Err(_) => false,
    }
}

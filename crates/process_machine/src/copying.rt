//! Copies of files and folders, which have to be as they were told.

use crate::identity::{id_of, names};
use crate::layout::{joined, make_way, way_of};
use crate::making::{
    give_rights_of, has_rights_of, keep_attributes, made_anew, make_folder_as, new_file_in,
    new_folder_in,
};
use crate::measuring::measure_of;
use crate::missed::note_changed;
use crate::past::{Known, Past, known_of, name_in};
use crate::summing::{copy_as_found, is_as_found};
use crate::tree::is_own_folder;
use crate::trouble::{Hindrance, Trouble, or_trouble};
use crate::trusting::{Sums, sum_at};
use crate::world::World;
use plain_data::Text;
use staging::Found;
use std::alloc::{AllocError, Global};
use std::fs::{File, Metadata};
use std::io::Read;
use std::{fs, mem};

// A folder that is filled.
#[derive(Clone, Copy, Debug, PartialEq, Eq)]
enum Folder {
    /// One of our own, which is empty.
    New,
    /// One that was there: what no file takes the place of stays in it.
    There,
}

/// What is copied is not as it was told.
const CHANGED: Trouble = Trouble::Hindered(Hindrance::Changed);

/// Copies a file, or a folder with all that is below it, to a path. A link is taken as what it points to.
///
/// What a call has told of has to be as it was told: a file has its size and its sum, and of a folder that is copied which was told. Else
/// it is trouble, and `changed` is the path of the first file or folder that is not. What no call told of is copied as it is.
///
/// The copy is made beside the path under a name of our own, and then takes its place, so what is at the path is whole at each moment.
/// Replaces a file or link that is at the path a file is copied to; what the link points to is left alone. A file with the same bytes
/// and permissions that is there stays. A folder that is there stays as it is, and so does a file or link where a folder is copied to: both are
/// trouble. Into a folder that is there, a folder that a call has told of is copied file by file; what else is there stays.
/// Where the copy of a file or of a new folder fails, nothing of it is left. A file that is copied to where it is stays as it is.
pub(crate) fn copy<R: World>(
    rt: &R,
    past: Past<'_>,
    source: &str,
    target: &str,
    changed: &mut Option<Text>,
) -> Result<(), Trouble> {
    let copied = match past.known_at(source) {
        Some(known) => copy_known(rt, known, source, target, changed),
        None => copy_untold(rt, source, target, changed),
    };
    note_changed(rt.alloc(), source, &copied, changed);
    copied
}

fn copy_untold<R: World>(
    rt: &R,
    source: &str,
    target: &str,
    changed: &mut Option<Text>,
) -> Result<(), Trouble> {
    let measure = measure_of(rt, source, &mut Sums::read())?;
    match known_of(&measure) {
        // Nobody has looked whether what is there may be replaced.
        Some(Known::Folder(_, _)) if is_own_folder(rt, target) => {
            Err(Trouble::Hindered(Hindrance::Taken))
        }
        Some(known) => copy_known(rt, known, source, target, changed),
        None => Err(Trouble::Failed),
    }
}

fn copy_known<R: World>(
    rt: &R,
    known: Known<'_>,
    source: &str,
    target: &str,
    changed: &mut Option<Text>,
) -> Result<(), Trouble> {
    match known {
        Known::File(size, sum) => {
            let file = file_of(rt.alloc(), size, sum)?;
            copy_file(rt, &file, source, target)
        }
        Known::Folder(found, name) => copy_folder(rt, found, name, source, target, changed),
        Known::Nothing => Err(CHANGED),
    }
}

// A file of this size and sum. Its name is told elsewhere.
fn file_of(alloc: Global, size: u64, sum: &Text) -> Result<Found, AllocError> {
    let sum = sum.copied(alloc)?;
    Ok(Found {
        name: Text::from_text(alloc, "")?,
        is_dir: false,
        size,
        sum,
    })
}

fn copy_file<R: World>(rt: &R, file: &Found, source: &str, target: &str) -> Result<(), Trouble> {
    let found = found_as(rt, source, false)?;
    if let Ok(there) = fs::symlink_metadata(rt, target) {
        if names(rt, source, id_of(&found), &there) {
            return check_sum(rt, file, source);
        }
        if is_copy(rt, file, &found, &there, target)? {
            return Ok(());
        }
    }
    let (path, mut writer) = new_file_in(rt, folder_of(target))?;
    let filled = fill(rt, file, source, &mut writer);
    mem::drop(writer);
    let put = put_in_place(rt, path.as_str(), target, filled);
    if put.is_err() {
        let _removed = fs::remove_file(rt, path.as_str());
    }
    put
}

fn check_sum<R: World>(rt: &R, file: &Found, path: &str) -> Result<(), Trouble> {
    let sum = sum_at(rt, path, file.size)?;
    if is_as_found(&sum, file) {
        Ok(())
    } else {
        Err(CHANGED)
    }
}

// Whether what is at a path is what a copy of this file, which was found so, would be. What can't be read is not.
fn is_copy<R: World>(
    rt: &R,
    file: &Found,
    found: &Metadata,
    there: &Metadata,
    path: &str,
) -> Result<bool, Trouble> {
    if !there.is_file() || there.len() != file.size || !has_rights_of(there, found) {
        return Ok(false);
    }
    match sum_at(rt, path, file.size) {
        Ok(sum) => Ok(is_as_found(&sum, file)),
        Err(Trouble::OutOfMemory) => Err(Trouble::OutOfMemory),
        Err(_) => Ok(false),
    }
}

fn put_in_place<R: World>(
    rt: &R,
    path: &str,
    target: &str,
    filled: Result<(), Trouble>,
) -> Result<(), Trouble> {
    filled?;
    or_trouble(fs::rename(rt, path, target))
}

fn copy_folder<R: World>(
    rt: &R,
    found: &[Found],
    name: &str,
    source: &str,
    target: &str,
    changed: &mut Option<Text>,
) -> Result<(), Trouble> {
    let _found = found_as(rt, source, true)?;
    match fs::symlink_metadata(rt, target) {
        Ok(there) if there.is_dir() => {
            fill_folder(rt, found, name, source, target, Folder::There, changed)
        }
        Ok(_) => Err(Trouble::Hindered(Hindrance::Taken)),
        Err(_) => copy_new_folder(rt, found, name, source, target, changed),
    }
}

fn copy_new_folder<R: World>(
    rt: &R,
    found: &[Found],
    name: &str,
    source: &str,
    target: &str,
    changed: &mut Option<Text>,
) -> Result<(), Trouble> {
    let path = new_folder_in(rt, folder_of(target))?;
    let filled = fill_new(rt, found, name, source, path.as_str(), changed);
    let put = put_in_place(rt, path.as_str(), target, filled);
    if put.is_err() {
        let _removed = fs::remove_dir_all(rt, path.as_str());
    }
    put
}

fn fill_new<R: World>(
    rt: &R,
    found: &[Found],
    name: &str,
    source: &str,
    folder: &str,
    changed: &mut Option<Text>,
) -> Result<(), Trouble> {
    fill_folder(rt, found, name, source, folder, Folder::New, changed)?;
    give_rights_of(rt, source, folder)
}

fn fill_folder<R: World>(
    rt: &R,
    found: &[Found],
    name: &str,
    source: &str,
    folder: &str,
    kind: Folder,
    changed: &mut Option<Text>,
) -> Result<(), Trouble> {
    let mut made = "";
    for entry in found {
        if let Some(name) = name_in(entry, name) {
            let from = joined(rt.alloc(), source, name)?;
            let copied = match kind {
                Folder::New => copy_entry(rt, entry, from.as_str(), folder, name),
                Folder::There => merge_entry(rt, entry, from.as_str(), folder, made, name),
            };
            note_changed(rt.alloc(), from.as_str(), &copied, changed);
            copied?;
            made = way_of(name);
        }
    }
    Ok(())
}

// Copies what has to be as it was found to this name below a folder that others may use. Nothing is followed out of that folder. The
// folders along the way that was made last are there.
fn merge_entry<R: World>(
    rt: &R,
    entry: &Found,
    from: &str,
    folder: &str,
    made: &str,
    name: &str,
) -> Result<(), Trouble> {
    make_way(rt, folder, made, way_of(name))?;
    let path = joined(rt.alloc(), folder, name)?;
    if !entry.is_dir {
        return copy_file(rt, entry, from, path.as_str());
    }
    let _found = found_as(rt, from, true)?;
    if is_own_folder(rt, path.as_str()) {
        return Ok(());
    }
    make_folder_as(rt, from, folder, name)
}

/// Copies what has to be as it was found, under this name below a folder. The folders between are made where they are absent, and the
/// folder is not.
pub(crate) fn copy_entry<R: World>(
    rt: &R,
    entry: &Found,
    from: &str,
    folder: &str,
    name: &str,
) -> Result<(), Trouble> {
    let _found = found_as(rt, from, entry.is_dir)?;
    if entry.is_dir {
        return make_folder_as(rt, from, folder, name);
    }
    let mut writer = made_anew(rt, folder, name)?;
    let filled = fill(rt, entry, from, &mut writer);
    mem::drop(writer);
    filled
}

// What was told of has to be there still, a folder or a file as it was. Returns what is there.
fn found_as<R: World>(rt: &R, path: &str, is_dir: bool) -> Result<Metadata, Trouble> {
    match or_trouble(fs::metadata(rt, path)) {
        Ok(found) if is_kind(&found, is_dir) => Ok(found),
        Ok(_) | Err(Trouble::Failed | Trouble::Hindered(Hindrance::Other)) => Err(CHANGED),
        Err(trouble) => Err(trouble),
    }
}

fn is_kind(found: &Metadata, is_dir: bool) -> bool {
    if is_dir {
        found.is_dir()
    } else {
        found.is_file()
    }
}

// Reads one byte more than there were at most.
fn fill<R: World>(rt: &R, file: &Found, source: &str, writer: &mut R::File) -> Result<(), Trouble> {
    let mut reader = File::open(rt, source)?.take(file.size.saturating_add(1));
    copy_as_found(rt.alloc(), file, &mut reader, writer)?;
    keep_attributes(reader.get_ref(), writer)
}

// The folder that has what is at a path.
fn folder_of(path: &str) -> &str {
    match path.rsplit_once('/') {
        Some((folder, _)) => folder,
        None => ".",
    }
}

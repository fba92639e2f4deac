//! The removal of folders that commands wrote.

use crate::layout::joined;
use crate::making::{OWNERS_RIGHTS, mode_of, new_folder_in};
use crate::tree::is_own_folder;
use crate::trouble::{Trouble, or_trouble};
use std::fs::{Permissions, ReadDir};
use std::os::unix::fs::PermissionsExt;
use std::rt::Files;
use std::{fs, io, mem};

/// Removes a folder with all that is below it. No link is followed.
///
/// The folders of its first two levels are emptied where they stand: as a rule there are no more. A command may have left a folder from which
/// its owner can't remove anything, so each one that stays is given its owner's rights to read, write and search. It may have left more
/// folders in one another than a path can name, so each folder that is met then is moved up into one of our own, and is emptied there: once,
/// by a short path. What can't be moved up so, as a folder whose name is no UTF-8, the system removes.
pub fn remove_folder<R: AllocGlobal + Files + Clone + Drop>(
    rt: &R,
    folder: &str,
) -> io::Result<()> {
    match fs::remove_dir(rt, folder) {
        Err(error) if error.kind() != io::ErrorKind::NotFound => remove_filled(rt, folder),
        outcome => outcome,
    }
}

fn remove_filled<R: AllocGlobal + Files + Clone + Drop>(rt: &R, folder: &str) -> io::Result<()> {
    // What a link leads to stays.
    if is_own_folder(rt, folder) && remove_in_place(rt, folder).is_ok() {
        return Ok(());
    }
    // Where this fails, so does the removal, or the system does it.
    let _emptied = empty(rt, folder);
    match fs::remove_dir(rt, folder) {
        Ok(()) => Ok(()),
        Err(_) => fs::remove_dir_all(rt, folder),
    }
}

// Removes a folder that is no link, where all that is in it are files, and folders that `remove_part` removes, as in a work folder.
fn remove_in_place<R: AllocGlobal + Files + Clone + Drop>(rt: &R, folder: &str) -> io::Result<()> {
    for entry in fs::read_dir(rt, folder)? {
        if let Ok(entry) = entry {
            if is_folder_left(rt, entry.path().as_str()) {
                let _removed = remove_part(rt, entry.path().as_str());
            }
        }
    }
    fs::remove_dir(rt, folder)
}

// The same where these are files, and folders of files. That of a fetch has only `out`, so it is not listed.
fn remove_part<R: AllocGlobal + Files + Clone + Drop>(rt: &R, folder: &str) -> io::Result<()> {
    let out = joined(rt.alloc(), folder, "out")?;
    if is_filled(rt, out.as_str()) {
        remove_flat(rt, out.as_str())?;
    }
    match fs::remove_dir(rt, folder) {
        Ok(()) => Ok(()),
        Err(_) => remove_shallow(rt, folder),
    }
}

// Removes an empty folder, and says whether there is one that is not empty. A link is no folder.
fn is_filled<R: Files>(rt: &R, path: &str) -> bool {
    match fs::remove_dir(rt, path) {
        Err(error) => error.kind() == io::ErrorKind::DirectoryNotEmpty,
        Ok(()) => false,
    }
}

fn remove_shallow<R: AllocGlobal + Files + Clone + Drop>(rt: &R, folder: &str) -> io::Result<()> {
    for entry in fs::read_dir(rt, folder)? {
        if let Ok(entry) = entry {
            if is_folder_left(rt, entry.path().as_str()) {
                let _removed = remove_flat(rt, entry.path().as_str());
            }
        }
    }
    fs::remove_dir(rt, folder)
}

fn remove_flat<R: AllocGlobal + Files + Clone + Drop>(rt: &R, folder: &str) -> io::Result<()> {
    for entry in fs::read_dir(rt, folder)? {
        if let Ok(entry) = entry {
            let _removed = fs::remove_file(rt, entry.path().as_str());
        }
    }
    fs::remove_dir(rt, folder)
}

// Removes what is at a path if it is no folder, and says whether it is one.
fn is_folder_left<R: Files>(rt: &R, path: &str) -> bool {
    match fs::remove_file(rt, path) {
        Err(error) => error.kind() == io::ErrorKind::IsADirectory,
        Ok(()) => false,
    }
}

fn empty<R: AllocGlobal + Files + Clone + Drop>(rt: &R, folder: &str) -> Result<(), Trouble> {
    give_rights(rt, folder)?;
    let lifted = new_folder_in(rt, folder)?;
    let emptied = empty_into(rt, folder, lifted.as_str());
    let _removed = fs::remove_dir(rt, lifted.as_str());
    mem::drop(lifted);
    emptied
}

// Empties a folder, and each that was moved up from it or from one of these. They have the numbers from 0 in the folder of our own.
fn empty_into<R: AllocGlobal + Files + Clone + Drop>(
    rt: &R,
    folder: &str,
    lifted: &str,
) -> Result<(), Trouble> {
    let mut count = lift_from(rt, folder, lifted, 0)?;
    for number in 0..u64::MAX {
        if number >= count {
            return Ok(());
        }
        let path = format!(in rt.alloc(); "{lifted}/{number}")?;
        count = lift_from(rt, path.as_str(), lifted, count)?;
        let _removed = fs::remove_dir(rt, path.as_str());
    }
    Ok(())
}

// Removes what is in a folder, and moves the folders in it up. Tells how many were moved up so far. What can't be read stays.
fn lift_from<R: AllocGlobal + Files + Clone + Drop>(
    rt: &R,
    folder: &str,
    lifted: &str,
    count: u64,
) -> Result<u64, Trouble> {
    match fs::read_dir(rt, folder) {
        Ok(entries) => lift_all(rt, entries, lifted, count),
        Err(_) => Ok(count),
    }
}

fn lift_all<R: AllocGlobal + Files + Clone + Drop>(
    rt: &R,
    entries: ReadDir<R>,
    lifted: &str,
    before: u64,
) -> Result<u64, Trouble> {
    let mut count = before;
    for entry in entries {
        if let Ok(entry) = entry {
            count = remove_or_lift(rt, entry.path().as_str(), lifted, count)?;
        }
    }
    Ok(count)
}

fn remove_or_lift<R: AllocGlobal + Files>(
    rt: &R,
    path: &str,
    lifted: &str,
    count: u64,
) -> Result<u64, Trouble> {
    match fs::remove_file(rt, path) {
        Err(error) if error.kind() == io::ErrorKind::IsADirectory && path != lifted => {
            lift(rt, path, lifted, count)
        }
        _ => Ok(count),
    }
}

fn lift<R: AllocGlobal + Files>(
    rt: &R,
    path: &str,
    lifted: &str,
    count: u64,
) -> Result<u64, Trouble> {
    let target = format!(in rt.alloc(); "{lifted}/{count}")?;
    // A folder that its owner may not write to can't be moved.
    let _given = give_rights(rt, path);
    match fs::rename(rt, path, target.as_str()) {
        Ok(()) => Ok(count.saturating_add(1)),
        Err(_) => Ok(count),
    }
}

// Gives a folder its owner's rights; what is none is trouble.
fn give_rights<R: Files>(rt: &R, path: &str) -> Result<(), Trouble> {
    let metadata = or_trouble(fs::symlink_metadata(rt, path))?;
    if !metadata.is_dir() {
        return Err(Trouble::Failed);
    }
    let mode = metadata.permissions().mode();
    if mode & OWNERS_RIGHTS == OWNERS_RIGHTS {
        return Ok(());
    }
    let rights = Permissions::from_mode(mode | OWNERS_RIGHTS);
    or_trouble(fs::set_permissions(rt, path, rights))
}

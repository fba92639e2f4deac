//! New files and folders, which are their owner's alone until they are whole.

use crate::layout::{joined, make_along, make_own};
use crate::trouble::{Hindrance, Trouble, or_trouble, where_present};
use std::alloc::{AllocError, Global};
use std::fs::{DirBuilder, File, FileTimes, Metadata, OpenFile, Permissions};
use std::os::unix::fs::{DirBuilderExt, OpenOptionsExt, PermissionsExt};
use std::rt::Files;
use std::{fs, io};

/// What the owner of a folder may do: read, write and search it. So it can be removed again.
pub(crate) const OWNERS_RIGHTS: u32 = 0o700;

/// The rights that a copy takes from its source. Those that would let others act as its owner are none of them.
const COPIED_RIGHTS: u32 = 0o777;

/// All of the rights in a mode.
const ALL_RIGHTS: u32 = 0o7777;

/// The rights of a file until it is whole, so that nobody else reads what is to be private.
const RIGHTS_OF_UNFINISHED: u32 = 0o600;

/// How many names of our own are tried in a folder.
const MOST_NAMES: u64 = 1_000;

/// Makes a folder that only its owner enters.
pub(crate) fn make_private<R: Files>(rt: &R, path: &str) -> io::Result<()> {
    DirBuilder::new().mode(OWNERS_RIGHTS).create(rt, path)
}

// Makes a file that only its owner reads and writes.
fn new_private<R: Files>(rt: &R, path: &str) -> io::Result<R::File> {
    File::options()
        .read(true)
        .write(true)
        .create_new(true)
        .mode(RIGHTS_OF_UNFINISHED)
        .open(rt, path)
}

/// Makes a folder in another, under a name of our own, which it tells as a path.
pub(crate) fn new_folder_in<R: AllocGlobal + Files>(
    rt: &R,
    folder: &str,
) -> Result<String, Trouble> {
    for number in 0..MOST_NAMES {
        let path = own_name(rt.alloc(), folder, number)?;
        if made(make_private(rt, path.as_str()))?.is_some() {
            return Ok(path);
        }
    }
    Err(Trouble::Hindered(Hindrance::Taken))
}

/// The same of a file, which is open.
pub(crate) fn new_file_in<R: AllocGlobal + Files>(
    rt: &R,
    folder: &str,
) -> Result<(String, R::File), Trouble> {
    for number in 0..MOST_NAMES {
        let path = own_name(rt.alloc(), folder, number)?;
        if let Some(file) = made(new_private(rt, path.as_str()))? {
            return Ok((path, file));
        }
    }
    Err(Trouble::Hindered(Hindrance::Taken))
}

fn own_name(alloc: Global, folder: &str, number: u64) -> Result<String, AllocError> {
    format!(in alloc; "{folder}/.deparohi-{number}")
}

// What was made; nothing where the name is taken.
fn made<T: Drop>(outcome: io::Result<T>) -> Result<Option<T>, Trouble> {
    match outcome {
        Ok(value) => Ok(Some(value)),
        Err(error) if error.kind() == io::ErrorKind::AlreadyExists => Ok(None),
        Err(error) => Err(Trouble::from(error)),
    }
}

/// A new file of this name below a folder, in the place of a file or link that is there. The folders between are made where they are
/// absent, and the folder is not.
pub(crate) fn made_anew<R: AllocGlobal + Files>(
    rt: &R,
    folder: &str,
    name: &str,
) -> Result<R::File, Trouble> {
    let path = joined(rt.alloc(), folder, name)?;
    // As a rule the folder is a new one of our own: nothing is in the way, and no folder is absent.
    match new_private(rt, path.as_str()) {
        Ok(file) => Ok(file),
        Err(error) => {
            make_room(rt, folder, name, path.as_str(), &error)?;
            or_trouble(new_private(rt, path.as_str()))
        }
    }
}

// Makes or removes what kept a file of this name, at this path, from being made. What else it was is trouble.
fn make_room<R: AllocGlobal + Files>(
    rt: &R,
    folder: &str,
    name: &str,
    path: &str,
    error: &io::Error,
) -> Result<(), Trouble> {
    match (error.kind(), name.rsplit_once('/')) {
        (io::ErrorKind::AlreadyExists, _) => where_present(fs::remove_file(rt, path)),
        (io::ErrorKind::NotFound, Some((way, _))) => make_along(rt, folder, way),
        _ => Err(Trouble::of(error)),
    }
}

/// Makes a folder of this name below another, where it is absent, with the permissions of a third one and its owner's rights. The
/// folders between are made where they are absent, and the folder that all are below is not.
pub(crate) fn make_folder_as<R: AllocGlobal + Files>(
    rt: &R,
    source: &str,
    folder: &str,
    name: &str,
) -> Result<(), Trouble> {
    let path = joined(rt.alloc(), folder, name)?;
    match make_own(rt, path.as_str()) {
        Ok(()) => {}
        Err(_) => make_along(rt, folder, name)?,
    }
    give_rights_of(rt, source, path.as_str())
}

/// Gives a folder the permissions of another, and its owner's rights.
pub(crate) fn give_rights_of<R: Files>(rt: &R, source: &str, folder: &str) -> Result<(), Trouble> {
    let mode = mode_of(fs::metadata(rt, source))?;
    let rights = Permissions::from_mode((mode & COPIED_RIGHTS) | OWNERS_RIGHTS);
    or_trouble(fs::set_permissions(rt, folder, rights))
}

/// Gives a copy the permissions of what it was read from, and the time at which that was changed, if the system keeps times.
pub(crate) fn keep_attributes<F: OpenFile>(reader: &F, writer: &F) -> Result<(), Trouble> {
    let metadata = or_trouble(reader.metadata())?;
    let rights = metadata.permissions().mode() & COPIED_RIGHTS;
    or_trouble(writer.set_permissions(Permissions::from_mode(rights)))?;
    if let Ok(time) = metadata.modified() {
        let _kept = writer.set_times(FileTimes::new().set_modified(time));
    }
    Ok(())
}

/// Whether a file has the permissions that a copy of another one has.
pub(crate) fn has_rights_of(file: &Metadata, source: &Metadata) -> bool {
    file.permissions().mode() & ALL_RIGHTS == source.permissions().mode() & COPIED_RIGHTS
}

/// The mode of what is at a path.
pub(crate) fn mode_of(found: io::Result<Metadata>) -> Result<u32, Trouble> {
    Ok(or_trouble(found)?.permissions().mode())
}

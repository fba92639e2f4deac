//! Which file a path names.

use std::fs::Metadata;
use std::os::unix::fs::MetadataExt;
use std::rt::Files;
use std::{fs, io};

/// A file, a folder or a link, told from all others: its device, and its number there.
#[derive(Clone, Copy, Debug, PartialEq, Eq, PartialOrd, Ord)]
pub(crate) struct FileId {
    device: u64,
    number: u64,
}

/// What is at a path, where anything is. A link is taken as itself.
pub(crate) fn file_at<R: Files>(rt: &R, path: &str) -> Option<FileId> {
    id_found(fs::symlink_metadata(rt, path))
}

/// What a path leads to, where it leads to anything.
pub(crate) fn file_behind<R: Files>(rt: &R, path: &str) -> Option<FileId> {
    id_found(fs::metadata(rt, path))
}

/// Whether a path, which leads to what is `behind`, or the link that is there, names what was met at another path.
pub(crate) fn names<R: Files>(rt: &R, path: &str, behind: Option<FileId>, met: &Metadata) -> bool {
    match id_of(met) {
        None => false,
        // Only a link is told apart from what its path leads to.
        Some(id) => is_id(behind, id) || (met.is_symlink() && is_id(file_at(rt, path), id)),
    }
}

fn id_found(outcome: io::Result<Metadata>) -> Option<FileId> {
    match outcome {
        Ok(metadata) => id_of(&metadata),
        Err(_) => None,
    }
}

/// Which file this is. A file system that gives no numbers tells no files apart.
pub(crate) fn id_of(metadata: &Metadata) -> Option<FileId> {
    if metadata.ino() == 0 {
        return None;
    }
    Some(FileId {
        device: metadata.dev(),
        number: metadata.ino(),
    })
}

/// Whether what was found is this.
pub(crate) fn is_id(found: Option<FileId>, id: FileId) -> bool {
    match found {
        Some(other) => other == id,
        None => false,
    }
}

//! How what is archived under a key is removed.

use crate::archive::key_folders;
use crate::cut_off::clear_stores;
use crate::removing::remove_folder;
use crate::trouble::{Trouble, where_present};
use crate::world::World;
use std::mem;

/// Removes what is archived under a key, with all that stores which were cut off left of it. If nothing is there, there is nothing to do.
///
/// Trouble is, besides what the system refuses: no archive.
pub(crate) fn discard_all<R: World>(
    rt: &R,
    archive: Option<&str>,
    key: &str,
) -> Result<(), Trouble> {
    let Some(archive) = archive else {
        return Err(Trouble::Failed);
    };
    let folders = key_folders(rt.alloc(), archive, key)?;
    // What such a store had moved aside is put back, so that it goes too.
    clear_stores(rt, &folders)?;
    let removed = where_present(remove_folder(rt, folders.own.as_str()));
    mem::drop(folders);
    removed
}

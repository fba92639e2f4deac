//! What stores that were cut off left in an archive.

use crate::archive::KeyFolders;
use crate::layout::joined;
use crate::tree::is_own_folder;
use crate::world::World;
use std::alloc::AllocError;
use std::{fs, io};

/// Puts back under a key what a store had moved aside and did not replace, and removes what stores that were cut off left of that key.
///
/// What can't be moved or removed stays. A store that goes on is cut off: its folder is renamed before it is removed, so it fails, and
/// archives nothing.
pub(crate) fn clear_stores<R: World>(rt: &R, folders: &KeyFolders) -> Result<(), AllocError> {
    let stores = folders.stores.as_str();
    if !is_own_folder(rt, stores) {
        return Ok(());
    }
    clear_each(rt, stores, folders.own.as_str())?;
    let _removed = fs::remove_dir(rt, stores);
    Ok(())
}

fn clear_each<R: World>(rt: &R, stores: &str, target: &str) -> Result<(), AllocError> {
    let Ok(entries) = fs::read_dir(rt, stores) else {
        return Ok(());
    };
    for entry in entries {
        if let Ok(entry) = entry {
            clear_store(rt, entry.path().as_str(), target)?;
        }
    }
    Ok(())
}

fn clear_store<R: World>(rt: &R, store: &str, target: &str) -> Result<(), AllocError> {
    put_back(rt, store, target)?;
    let gone = format!(in rt.alloc(); "{store}-")?;
    if fs::rename(rt, store, gone.as_str()).is_ok() {
        let _removed = fs::remove_dir_all(rt, gone.as_str());
    }
    Ok(())
}

// What a store moved aside is put back, where nothing is in its place.
fn put_back<R: World>(rt: &R, store: &str, target: &str) -> Result<(), AllocError> {
    let old = joined(rt.alloc(), store, "old")?;
    match fs::symlink_metadata(rt, target) {
        Err(error) if error.kind() == io::ErrorKind::NotFound => {
            let _back = fs::rename(rt, old.as_str(), target);
        }
        _ => {}
    }
    Ok(())
}

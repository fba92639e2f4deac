//! How jobs' files are archived.
ghost use Rattle.std.specs.Prelude.{None};

use crate::archive::{KeyFolders, beside_folder, key_folders, leads_below};
use crate::copying::copy_entry;
use crate::cut_off::clear_stores;
use crate::entries::{Sink, put_all};
use crate::layout::{joined, make_own};
use crate::making::make_private;
use crate::trouble::{Trouble, where_present};
use crate::world::World;
use staging::Found;
use std::{fs, mem};

// A new folder of an archive, and the folder that its files are copied from.
#[derive(Drop)]
struct New<'a, R: World> {
    rt: &'a R,
    source: &'a str,
    folder: &'a str,
}

/// Archives these files and folders of a folder under a key, in the place of what was archived under it before: all of them, or
/// nothing. A link is taken as what it points to.
///
/// Trouble is, besides what the system refuses: no archive; a name that does not lead below the folder; what is of another kind than
/// it was found, and a file of another size or sum.
pub(crate) fn store_all<R: World>(
    rt: &R,
    archive: Option<&str>,
    key: &str,
    folder: &str,
    files: &[Found],
) -> Result<(), Trouble> {
    let Some(archive) = archive else {
        return Err(Trouble::Failed);
    };
    fs::create_dir_all(rt, archive)?;
    let folders = key_folders(rt.alloc(), archive, key)?;
    clear_stores(rt, &folders)?;
    let stored = store_among(rt, &folders, archive, key, folder, files);
    // Another store may go on there.
    let _removed = fs::remove_dir(rt, folders.stores.as_str());
    mem::drop(folders);
    stored
}

fn store_among<R: World>(
    rt: &R,
    folders: &KeyFolders,
    archive: &str,
    key: &str,
    folder: &str,
    files: &[Found],
) -> Result<(), Trouble> {
    make_own(rt, folders.stores.as_str())?;
    let beside = beside_folder(rt.alloc(), archive, key, folder)?;
    let stored = store_beside(rt, beside.as_str(), folders.own.as_str(), folder, files);
    mem::drop(beside);
    stored
}

// Fills a folder beside the key's, which then takes its place.
fn store_beside<R: World>(
    rt: &R,
    beside: &str,
    target: &str,
    folder: &str,
    files: &[Found],
) -> Result<(), Trouble> {
    make_private(rt, beside)?;
    let stored = match fill_new(rt, beside, folder, files) {
        Ok(()) => put_in_place(rt, beside, target),
        Err(trouble) => Err(trouble),
    };
    let _removed = fs::remove_dir_all(rt, beside);
    stored
}

fn fill_new<R: World>(rt: &R, beside: &str, folder: &str, files: &[Found]) -> Result<(), Trouble> {
    let new = joined(rt.alloc(), beside, "new")?;
    let filled = fill_folder(rt, folder, files, new.as_str());
    mem::drop(new);
    filled
}

fn fill_folder<R: World>(
    rt: &R,
    source: &str,
    files: &[Found],
    folder: &str,
) -> Result<(), Trouble> {
    fs::create_dir(rt, folder)?;
    let mut sink = New { rt, source, folder };
    put_all(&mut sink, files)
}

fn put_in_place<R: World>(rt: &R, beside: &str, path: &str) -> Result<(), Trouble> {
    let new = joined(rt.alloc(), beside, "new")?;
    let old = joined(rt.alloc(), beside, "old")?;
    replace(rt, new.as_str(), path, old.as_str())
}

// Puts what is new at a path, and aside what was there. Where the new can't be put there, the old is put back.
fn replace<R: World>(rt: &R, new: &str, path: &str, old: &str) -> Result<(), Trouble> {
    where_present(fs::rename(rt, path, old))?;
    let put = fs::rename(rt, new, path);
    if put.is_err() {
        let _back = fs::rename(rt, old, path);
    }
    Ok(put?)
}

impl<R: World> Sink for New<'_, R> {
    ghost holds = { λ _. None };

    fn put(&mut self, file: &Found) -> Result<(), Trouble> {
        let name = file.name.as_str();
        if !leads_below(name) {
            return Err(Trouble::Failed);
        }
        let from = joined(self.rt.alloc(), self.source, name)?;
        copy_entry(self.rt, file, from.as_str(), self.folder, name)
    }
}

//! Values at the new paths of their files.
ghost use Rattle.std.specs.Prelude.{◌≡◌, IfOk, map, string_bytes, option_map};
ghost use Rattle.cwl_value.specs.declared.place.Place.TheVariants.{Path};
ghost use Rattle.cwl_value.specs.declared.value.FileVal.{out-FileVal, roll-FileVal};
ghost use Rattle.cwl_value.specs.declared.value.DirVal.{out-DirVal};
ghost use Rattle.staging.specs.Groups.{path_in as path_at, name_of as name_in, copied, copied_file, copied_dir, items_moved, fields_moved};
ghost use Rattle.staging.specs.inner.Ways.{folder_by, group_at, dir_group_at, file_as};

use crate::group::Member;
use crate::groups::{dir_group, file_group, name_of};
use crate::index::FolderIndex;
use crate::targets::{Folders, folder_path, path_in};
use cwl_value::{DirVal, FileVal, Place, Value, holds_files};
use plain_data::{Items, Keyed, Text, copied_if_any};
use std::alloc::{AllocError, Global};

/// Where the groups of a value stand.
#[derive(Clone, Copy, Drop)]
pub(crate) enum Way<'a> {
    /// Each in the folder that it was put into.
    Placed(&'a FolderIndex, Folders<'a>),
    /// All in one folder.
    Inside(&'a str),
}

/// The values in the folders of their groups. A copy of them shares their lists. A list without files is the given value's own if that
/// is shared.
#[cycle(moving)]
pub(crate) fn moved_fields(
    alloc: Global,
    fields: &Keyed<Value>,
    way: Way<'_>,
) -> Result<Keyed<Value>, AllocError>
    ensures { IfOk result (λ found. found ≡ fields_moved (folder_by way.entry) fields.now) }
{
    let mut found = Vec::with_capacity(alloc, fields.len())?;
    for field in fields.as_slice() {
        let name = field.0.copied(alloc)?;
        found.push((name, moved(alloc, &field.1, way)?))?;
    }
    Ok(Keyed::from_sorted(found))
}

#[cycle(moving)]
fn moved(alloc: Global, value: &Value, way: Way<'_>) -> Result<Value, AllocError>
    ensures { IfOk result (λ found. found ≡ (copied value.now).moved (folder_by way.entry)) }
{
    match value {
        Value::FileVal(file) => Ok(Value::FileVal(moved_file(alloc, file, way)?)),
        Value::DirVal(dir) => Ok(Value::DirVal(moved_dir(alloc, dir, way)?)),
        Value::List(_) if !holds_files(value) => value.clone_in(alloc)?.shared(alloc),
        Value::List(items) => {
            Value::of_items(moved_items(alloc, items.as_items(), way)?).shared(alloc)
        }
        Value::Fields(fields) => Ok(Value::Fields(moved_fields(alloc, fields, way)?)),
        _ => value.clone_in(alloc),
    }
}

#[cycle(moving)]
fn moved_items(
    alloc: Global,
    items: &Items<Value>,
    way: Way<'_>,
) -> Result<Items<Value>, AllocError>
    ensures { IfOk result (λ found. found ≡ items_moved (folder_by way.entry) items.now) }
{
    let mut found = Items::from_vec(Vec::with_capacity(alloc, items.len())?);
    for item in items.as_slice() {
        found.push(moved(alloc, item, way)?)?;
    }
    Ok(found)
}

#[cycle(moving)]
fn moved_file(alloc: Global, file: &FileVal, way: Way<'_>) -> Result<FileVal, AllocError>
    ensures { IfOk result (λ found. found ≡ (copied_file file.now).moved (folder_by way.entry)) }
{
    let folder = folder_of_file(alloc, file, way)?;
    let secondary = moved_items(alloc, &file.secondary, Way::Inside(folder.as_str()))?;
    file_in(alloc, file, folder.as_str(), secondary)
}

#[cycle(moving)]
fn moved_dir(alloc: Global, dir: &DirVal, way: Way<'_>) -> Result<DirVal, AllocError>
    ensures { IfOk result (λ found. found ≡ (copied_dir dir.now).moved (folder_by way.entry)) }
{
    let path = path_of_dir(alloc, dir, way)?;
    let basename = copied_if_any(alloc, &dir.basename)?;
    match &dir.listing {
        None => Ok(DirVal {
            place: Place::Path(path),
            basename,
            listing: None,
        }),
        Some(entries) => {
            let listing = moved_items(alloc, entries, Way::Inside(path.as_str()))?;
            Ok(DirVal {
                place: Place::Path(path),
                basename,
                listing: Some(listing),
            })
        }
    }
}

fn folder_of_file(alloc: Global, file: &FileVal, way: Way<'_>) -> Result<String, AllocError>
    ensures { IfOk result (λ folder. string_bytes folder
        ≡ folder_by way.entry (group_at file.now)) }
{
    match way {
        Way::Inside(folder) => String::from_str(alloc, folder),
        Way::Placed(index, folders) => {
            let group = file_group(alloc, file)?;
            folder_of_group(alloc, group.as_slice(), index, folders)
        }
    }
}

fn path_of_dir(alloc: Global, dir: &DirVal, way: Way<'_>) -> Result<Text, AllocError>
    ensures { IfOk result (λ path. path
        ≡ path_at (folder_by way.entry (dir_group_at dir.now))
        (name_in (out-DirVal dir.now).basename)) }
{
    let folder = folder_of_dir(alloc, dir, way)?;
    path_in(alloc, folder.as_str(), name_of(&dir.basename))
}

fn folder_of_dir(alloc: Global, dir: &DirVal, way: Way<'_>) -> Result<String, AllocError>
    ensures { IfOk result (λ folder. string_bytes folder
        ≡ folder_by way.entry (dir_group_at dir.now)) }
{
    match way {
        Way::Inside(folder) => String::from_str(alloc, folder),
        Way::Placed(index, folders) => {
            let group = dir_group(alloc, dir)?;
            folder_of_group(alloc, group.as_slice(), index, folders)
        }
    }
}

// The folder that a group was put into.
fn folder_of_group(
    alloc: Global,
    group: &[Member],
    index: &FolderIndex,
    folders: Folders<'_>,
) -> Result<String, AllocError>
    ensures { IfOk result (λ folder. string_bytes folder
        ≡ folder_by (Way.Placed index.entry folders.entry) group.now) }
{
    let found = index.folder_of(alloc, group)?;
    folder_path(alloc, folders, found.unwrap_or(0))
}

// The File in a folder, beside these files.
fn file_in(
    alloc: Global,
    file: &FileVal,
    folder: &str,
    secondary: Items<Value>,
) -> Result<FileVal, AllocError>
    ensures { IfOk result (λ found. found ≡ file_as folder.now secondary file.now) }
{
    let path = path_in(alloc, folder, name_of(&file.basename))?;
    let basename = copied_if_any(alloc, &file.basename)?;
    let checksum = copied_if_any(alloc, &file.checksum)?;
    let contents = copied_if_any(alloc, &file.contents)?;
    Ok(FileVal {
        place: Place::Path(path),
        basename,
        checksum,
        size: file.size,
        contents,
        secondary,
    })
}

//! The keys of Files and Directories.
ghost use Rattle.std.specs.Prelude.{◌≡◌, IfOk, option_map, option_and_then};
ghost use Rattle.std.specs.Option.{option_copied};
ghost use Rattle.cwl_value.specs.NameParts.{nameroot, nameext};
ghost use Rattle.cwl_value.specs.declared.value.FileVal.{out-FileVal};
ghost use Rattle.cwl_value.specs.declared.value.DirVal.{out-DirVal};
ghost use Rattle.param_refs.specs.Keys.{text_of, whole_of, path_of, dirname, file_keys, dir_keys, at_key, unless_empty};
ghost use Rattle.param_refs.specs.Locations.{location_of};

use crate::listing::in_order;
use crate::location::location_of;
use cwl_value::{DirVal, FileVal, Place, Value, copy_items, name_parts};
use plain_data::{Items, Text};
use std::alloc::{AllocError, Global};

/// The value under a key of a File. Its path shows where `with_places` says so.
pub(crate) fn file_value(
    alloc: Global,
    file: &FileVal,
    key: &str,
    with_places: bool,
) -> Result<Option<Value>, AllocError>
    ensures { IfOk result (λ v. v ≡ at_key key.now (file_keys with_places (out-FileVal file.now))) }
{
    match key {
        "basename" => text_value(alloc, &file.basename),
        "checksum" => text_value(alloc, &file.checksum),
        "class" => Ok(Some(Value::Text(Text::from_text(alloc, "File")?))),
        "contents" => text_value(alloc, &file.contents),
        "dirname" => dirname_value(alloc, path_of(&file.place, with_places)),
        "location" => location_value(alloc, path_of(&file.place, with_places)),
        "nameext" => nameext_value(alloc, &file.basename),
        "nameroot" => nameroot_value(alloc, &file.basename),
        "path" => path_value(alloc, path_of(&file.place, with_places)),
        "secondaryFiles" => secondary_value(alloc, &file.secondary),
        "size" => Ok(size_value(file.size)),
        _ => Ok(None),
    }
}

/// The value under a key of a Directory.
pub(crate) fn dir_value(
    alloc: Global,
    dir: &DirVal,
    key: &str,
    with_places: bool,
) -> Result<Option<Value>, AllocError>
    ensures { IfOk result (λ v. v ≡ at_key key.now (dir_keys with_places (out-DirVal dir.now))) }
{
    match key {
        "basename" => text_value(alloc, &dir.basename),
        "class" => Ok(Some(Value::Text(Text::from_text(alloc, "Directory")?))),
        "listing" => match &dir.listing {
            None => Ok(None),
            Some(listing) => Ok(Some(Value::of_items(in_order(alloc, listing)?))),
        },
        "location" => location_value(alloc, path_of(&dir.place, with_places)),
        "path" => path_value(alloc, path_of(&dir.place, with_places)),
        _ => Ok(None),
    }
}

fn path_of(place: &Place, with_places: bool) -> Option<&str>
    ensures { option_copied result ≡ path_of with_places place.now }
{
    match place {
        Place::Path(path) if with_places => Some(path.as_str()),
        _ => None,
    }
}

fn text_value(alloc: Global, text: &Option<Text>) -> Result<Option<Value>, AllocError>
    ensures { IfOk result (λ v. v ≡ text_of text.now) }
{
    match text {
        None => Ok(None),
        Some(text) => Ok(Some(Value::Text(text.copied(alloc)?))),
    }
}

fn nameroot_value(alloc: Global, basename: &Option<Text>) -> Result<Option<Value>, AllocError>
    ensures { IfOk result (λ v. v ≡ text_of (option_map nameroot basename.now)) }
{
    match basename {
        None => Ok(None),
        Some(basename) => {
            let (root, _extension) = name_parts(basename.as_str());
            Ok(Some(Value::Text(Text::from_text(alloc, root)?)))
        }
    }
}

fn nameext_value(alloc: Global, basename: &Option<Text>) -> Result<Option<Value>, AllocError>
    ensures { IfOk result (λ v. v ≡ text_of (option_map nameext basename.now)) }
{
    match basename {
        None => Ok(None),
        Some(basename) => {
            let (_root, extension) = name_parts(basename.as_str());
            Ok(Some(Value::Text(Text::from_text(alloc, extension)?)))
        }
    }
}

fn path_value(alloc: Global, path: Option<&str>) -> Result<Option<Value>, AllocError>
    ensures { IfOk result (λ v. v ≡ text_of (option_copied path.entry)) }
{
    match path {
        None => Ok(None),
        Some(path) => Ok(Some(Value::Text(Text::from_text(alloc, path)?))),
    }
}

fn dirname_value(alloc: Global, path: Option<&str>) -> Result<Option<Value>, AllocError>
    ensures { IfOk result (λ v. v ≡ text_of (option_map dirname (option_copied path.entry))) }
{
    match path {
        None => Ok(None),
        Some(path) => Ok(Some(Value::Text(Text::from_text(alloc, folder_of(path))?))),
    }
}

fn location_value(alloc: Global, path: Option<&str>) -> Result<Option<Value>, AllocError>
    ensures { IfOk result (λ v. v ≡ text_of (option_map location_of (option_copied path.entry))) }
{
    match path {
        None => Ok(None),
        Some(path) => Ok(Some(Value::Text(location_of(alloc, path)?))),
    }
}

// What comes before the last `/` of a path.
fn folder_of(path: &str) -> &str
    ensures { result.now ≡ dirname path.now }
{
    match path.rfind('/') {
        None => "",
        Some(at) => path.split_at(at).0,
    }
}

fn secondary_value(alloc: Global, secondary: &Items<Value>) -> Result<Option<Value>, AllocError>
    ensures { IfOk result (λ v. v ≡ unless_empty secondary.now) }
{
    if secondary.is_empty() {
        return Ok(None);
    }
    Ok(Some(Value::of_items(copy_items(alloc, secondary)?)))
}

fn size_value(size: Option<u64>) -> Option<Value>
    ensures { result ≡ option_and_then whole_of size }
{
    match i64::try_from(size?) {
        Ok(bytes) => Some(Value::Whole(bytes)),
        Err(_) => None,
    }
}

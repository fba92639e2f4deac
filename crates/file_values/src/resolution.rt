//! Files and Directories at paths, with names.
ghost use Rattle.std.specs.Prelude.{◌≡◌, ◌==◌, false, Ok, IfOk, IfErr, map};
ghost use Rattle.std.specs.List.{list_any};
ghost use Rattle.plain_data.specs.ByName.{map_values};
ghost use Rattle.cwl_value.specs.Fileless.{some_true};
ghost use Rattle.cwl_value.specs.Reading.{is_name};
ghost use Rattle.cwl_value.specs.declared.value.FileVal.{out-FileVal};
ghost use Rattle.file_values.specs.Location.{Refuses};
ghost use Rattle.file_values.specs.Resolved as spec;

use crate::distinct::{distinct_beside, distinct_inside};
use crate::location::{location_to_path, path_on};
use crate::names::last_component;
use crate::refusal::{FileError, FileFault};
use cwl_value::{DirVal, FileVal, Place, Value};
use plain_data::{Items, Keyed, Text, copied_if_any};
use std::alloc::{AllocError, Global};
use url::Url;

/// The value with each location in it replaced by the path that it names, each path joined to the base's folder, and
/// each absent basename filled in (CWL v1.2, File and Directory).
///
/// # Errors
///
/// `NotAFileUrl` and `NotUtf8` as of `location_to_path`; `NotAFileUrl` too where a path gives no name, or names that
/// have to differ don't: those of a File and its secondary files, and those of a listing; `OutOfMemory`.
pub fn resolve(alloc: Global, value: Value, base: &Url) -> Result<Value, FileError>
    ensures ok { IfOk result (λ v. spec.resolved base.now value ≡ Ok v) }
    ensures err { IfErr result
        (Refuses (spec.resolved base.now value) (spec.has_long base.now value)) }
{
    resolved(alloc, &value, base)
}

#[cycle(resolve)]
fn resolved(alloc: Global, value: &Value, base: &Url) -> Result<Value, FileError>
    ensures ok { IfOk result (λ v. spec.resolved base.now value.now ≡ Ok v) }
    ensures err { IfErr result
        (Refuses (spec.resolved base.now value.now) (spec.has_long base.now value.now)) }
{
    match value {
        Value::Null => Ok(Value::Null),
        Value::Bool(flag) => Ok(Value::Bool(*flag)),
        Value::Whole(number) => Ok(Value::Whole(*number)),
        Value::Text(text) => Ok(Value::Text(text.copied(alloc)?)),
        Value::FileVal(file) => Ok(Value::FileVal(resolved_file(alloc, file, base)?)),
        Value::DirVal(dir) => Ok(Value::DirVal(resolved_dir(alloc, dir, base)?)),
        Value::List(items) => Ok(Value::of_items(resolved_items(alloc, items.as_items(), base)?)),
        Value::Fields(fields) => Ok(Value::Fields(resolved_fields(alloc, fields, base)?)),
    }
}

#[cycle(resolve)]
fn resolved_file(alloc: Global, file: &FileVal, base: &Url) -> Result<FileVal, FileError>
    ensures ok { IfOk result (λ f. spec.file_resolved base.now file.now ≡ Ok f) }
    ensures err { IfErr result (Refuses (spec.file_resolved base.now file.now)
        (spec.file_has_long base.now file.now)) }
{
    let place = resolved_place(alloc, &file.place, base)?;
    let name = named(alloc, &file.basename, &place)?;
    let found = resolved_items(alloc, &file.secondary, base)?;
    Ok(file_at(alloc, file, place, name, found)?)
}

#[cycle(resolve)]
fn resolved_dir(alloc: Global, dir: &DirVal, base: &Url) -> Result<DirVal, FileError>
    ensures ok { IfOk result (λ d. spec.dir_resolved base.now dir.now ≡ Ok d) }
    ensures err { IfErr result (Refuses (spec.dir_resolved base.now dir.now)
        (spec.dir_has_long base.now dir.now)) }
{
    let place = resolved_place(alloc, &dir.place, base)?;
    let name = named(alloc, &dir.basename, &place)?;
    match &dir.listing {
        None => Ok(DirVal {
            place,
            basename: Some(name),
            listing: None,
        }),
        Some(items) => {
            let found = resolved_items(alloc, items, base)?;
            let listing = distinct_inside(alloc, found)?;
            Ok(DirVal {
                place,
                basename: Some(name),
                listing: Some(listing),
            })
        }
    }
}

#[cycle(resolve)]
fn resolved_items(
    alloc: Global,
    items: &Items<Value>,
    base: &Url,
) -> Result<Items<Value>, FileError>
    ensures ok { IfOk result (λ vs. spec.all_found (map (spec.resolved base.now) items.now)
        ≡ Ok vs) }
    ensures err { IfErr result (Refuses (spec.all_found (map (spec.resolved base.now) items.now))
        (some_true (map (spec.has_long base.now) items.now))) }
{
    let mut found = Items::new(alloc);
    for item in items.as_slice() {
        found.push(resolved(alloc, item, base)?)?;
    }
    Ok(found)
}

#[cycle(resolve)]
fn resolved_fields(
    alloc: Global,
    fields: &Keyed<Value>,
    base: &Url,
) -> Result<Keyed<Value>, FileError>
    ensures ok { IfOk result
        (λ es. spec.fields_found (map_values (spec.resolved base.now) fields.now) ≡ Ok es) }
    ensures err { IfErr result
        (Refuses (spec.fields_found (map_values (spec.resolved base.now) fields.now))
        (some_true (map (λ e. e.1) (map_values (spec.has_long base.now) fields.now)))) }
{
    let mut found = Vec::new(alloc);
    for field in fields.as_slice() {
        let name = field.0.copied(alloc)?;
        found.push((name, resolved(alloc, &field.1, base)?))?;
    }
    Ok(Keyed::from_sorted(found))
}

// The File at this place and with this name, unless the names of its secondary files don't differ.
fn file_at(
    alloc: Global,
    file: &FileVal,
    place: Place,
    name: Text,
    found: Items<Value>,
) -> Result<FileVal, FileError>
    ensures ok { IfOk result (λ f. spec.file_at (out-FileVal file.now).checksum
        (out-FileVal file.now).size (out-FileVal file.now).contents place name found ≡ Ok f) }
    ensures err { IfErr result
        (Refuses (spec.file_at (out-FileVal file.now).checksum (out-FileVal file.now).size
        (out-FileVal file.now).contents place name found) false) }
{
    let secondary = distinct_beside(alloc, &name, found)?;
    let (checksum, contents) = texts_of(alloc, file)?;
    Ok(FileVal {
        place,
        basename: Some(name),
        checksum,
        size: file.size,
        contents,
        secondary,
    })
}

// The checksum and the contents.
fn texts_of(alloc: Global, file: &FileVal) -> Result<(Option<Text>, Option<Text>), AllocError>
    ensures { IfOk result (λ texts. texts
        ≡ ((out-FileVal file.now).checksum, (out-FileVal file.now).contents)) }
{
    let checksum = copied_if_any(alloc, &file.checksum)?;
    Ok((checksum, copied_if_any(alloc, &file.contents)?))
}

// A location as the path that it names, and a path joined to the base's folder.
fn resolved_place(alloc: Global, place: &Place, base: &Url) -> Result<Place, FileError>
    ensures ok { IfOk result (λ p. spec.place_resolved base.now place.now ≡ Ok p) }
    ensures err { IfErr result (Refuses (spec.place_resolved base.now place.now)
        (spec.is_long_place base.now place.now)) }
{
    match place {
        Place::Nowhere => Ok(Place::Nowhere),
        Place::Url(location) => {
            let path = location_to_path(alloc, location.as_str(), base)?;
            Ok(Place::Path(Text::from_string(path)))
        }
        Place::Path(path) => {
            let path = path_on(alloc, path.as_str(), base)?;
            Ok(Place::Path(Text::from_string(path)))
        }
        Place::Made(_, _) => Ok(place.clone_in(alloc)?),
    }
}

// The basename, or the last component of the place's path.
fn named(alloc: Global, basename: &Option<Text>, place: &Place) -> Result<Text, FileError>
    ensures ok { IfOk result (λ name. spec.named basename.now place.now ≡ Ok name) }
    ensures err { IfErr result (Refuses (spec.named basename.now place.now) false) }
{
    match basename {
        Some(name) => Ok(name.copied(alloc)?),
        None => name_in(alloc, path_at(place)),
    }
}

fn path_at(place: &Place) -> &str
    ensures { result.now ≡ spec.path_at place.now }
{
    match place {
        Place::Nowhere => "",
        Place::Url(path) | Place::Path(path) | Place::Made(_, path) => path.as_str(),
    }
}

fn name_in(alloc: Global, path: &str) -> Result<Text, FileError>
    ensures ok { IfOk result (λ name. spec.name_in path.now ≡ Ok name) }
    ensures err { IfErr result (Refuses (spec.name_in path.now) false) }
{
    let name = last_component(path);
    if may_name(name) {
        Ok(Text::from_text(alloc, name)?)
    } else {
        Err(FileError::Refused(FileFault::NotAFileUrl))
    }
}

// A name is not empty, neither `.` nor `..`, and has no slash.
fn may_name(name: &str) -> bool
    ensures { result ≡ is_name name.now }
{
    !(name.is_empty() || name == "." || name == ".." || has_slash(name))
}

fn has_slash(name: &str) -> bool
    ensures { result ≡ list_any (λ c. c == 47) name.now }
{
    name.as_bytes().iter().any(|byte| *byte == b'/')
}

//! The members of a File or Directory in JSON that hold no other values.
ghost use Rattle.std.specs.Prelude.{◌≡◌, ◌≢◌, Ok, Err, IfOk, IfErr, codes, option_map, ◌==◌};
ghost use Rattle.std.specs.List.{list_any};
ghost use Rattle.serde_json.specs.View.{view, members_view};
ghost use Rattle.cwl_value.specs.Reading.{text_read, text_form, place_read, basename_read, is_name, size_read, placed_read, summed_read, field as member, class_in};
ghost use Rattle.cwl_value.specs.declared.refusal.ValueRefusal.TheVariants.{OutOfMemory};

use crate::place::Place;
use crate::refusal::{FileField, ValueRefusal};
use plain_data::Text;
use serde_json::Value as Json;
use serde_json::value::Map;
use std::alloc::Global;

pub(crate) fn find<'m>(members: &'m Map<String, Json>, name: &str) -> Option<&'m Json>
    ensures { option_map (λ json. view json.now) result
        ≡ member name.now (members_view members.now.entries) }
{
    members.get(name)
}

/// The text of the member `class`, or none.
pub(crate) fn class_of(members: &Map<String, Json>) -> &str
    ensures { result.now ≡ class_in (members_view members.now.entries) }
{
    match find(members, "class") {
        Some(Json::String(class)) => class.as_str(),
        _ => "",
    }
}

/// The place and the basename.
pub(crate) fn placed_in(
    alloc: Global,
    members: &Map<String, Json>,
) -> Result<(Place, Option<Text>), ValueRefusal>
    ensures ok { IfOk result (λ found. placed_read (members_view members.now.entries) ≡ Ok found) }
    ensures err { IfErr result (λ e. e ≢ OutOfMemory
        → placed_read (members_view members.now.entries) ≡ Err e) }
{
    let place = place_in(alloc, members)?;
    let basename = basename_in(alloc, members)?;
    Ok((place, basename))
}

/// The checksum and the size.
pub(crate) fn summed_in(
    alloc: Global,
    members: &Map<String, Json>,
) -> Result<(Option<Text>, Option<u64>), ValueRefusal>
    ensures ok { IfOk result (λ found. summed_read (members_view members.now.entries) ≡ Ok found) }
    ensures err { IfErr result (λ e. e ≢ OutOfMemory
        → summed_read (members_view members.now.entries) ≡ Err e) }
{
    let checksum = text_in(alloc, members, "checksum", FileField::Checksum)?;
    let size = size_in(members)?;
    Ok((checksum, size))
}

/// The location, or else the path.
pub(crate) fn place_in(alloc: Global, members: &Map<String, Json>) -> Result<Place, ValueRefusal>
    ensures ok { IfOk result
        (λ place. place_read (member (codes "location") (members_view members.now.entries))
        (member (codes "path") (members_view members.now.entries)) ≡ Ok place) }
    ensures err { IfErr result (λ e. e ≢ OutOfMemory
        → place_read (member (codes "location") (members_view members.now.entries))
        (member (codes "path") (members_view members.now.entries)) ≡ Err e) }
{
    if let Some(location) = find(members, "location") {
        return Ok(Place::Url(text(alloc, location, FileField::Location)?));
    }
    match find(members, "path") {
        Some(path) => Ok(Place::Path(text(alloc, path, FileField::Path)?)),
        None => Err(ValueRefusal::BadFile(FileField::Location)),
    }
}

fn basename_in(alloc: Global, members: &Map<String, Json>) -> Result<Option<Text>, ValueRefusal>
    ensures ok { IfOk result (λ name. basename_read
        (member (codes "basename") (members_view members.now.entries)) ≡ Ok name) }
    ensures err { IfErr result (λ e. e ≢ OutOfMemory → basename_read
        (member (codes "basename") (members_view members.now.entries)) ≡ Err e) }
{
    match text_in(alloc, members, "basename", FileField::Basename)? {
        None => Ok(None),
        Some(name) if may_name(name.as_str()) => Ok(Some(name)),
        Some(_) => Err(ValueRefusal::BadFile(FileField::Basename)),
    }
}

// Whether the text may be the name of a file in a folder.
fn may_name(name: &str) -> bool
    ensures { result ≡ is_name name.now }
{
    !(name.is_empty() || name == "." || name == ".." || has_slash(name))
}

fn has_slash(name: &str) -> bool
    ensures { result ≡ list_any (λ c. c == 47) name.now }
{
    name.as_bytes().iter().any(|byte| *byte == b'/')
}

fn text_in(
    alloc: Global,
    members: &Map<String, Json>,
    name: &str,
    field: FileField,
) -> Result<Option<Text>, ValueRefusal>
    ensures ok { IfOk result
        (λ found. text_read field (member name.now (members_view members.now.entries)) ≡ Ok found) }
    ensures err { IfErr result (λ e. e ≢ OutOfMemory
        → text_read field (member name.now (members_view members.now.entries)) ≡ Err e) }
{
    match find(members, name) {
        None => Ok(None),
        Some(json) => Ok(Some(text(alloc, json, field)?)),
    }
}

fn text(alloc: Global, json: &Json, field: FileField) -> Result<Text, ValueRefusal>
    ensures ok { IfOk result (λ found. text_form field (view json.now) ≡ Ok found) }
    ensures err { IfErr result (λ e. e ≢ OutOfMemory → text_form field (view json.now) ≡ Err e) }
{
    match json.as_str() {
        None => Err(ValueRefusal::BadFile(field)),
        Some(found) => Ok(Text::from_text(alloc, found)?),
    }
}

fn size_in(members: &Map<String, Json>) -> Result<Option<u64>, ValueRefusal>
    ensures { result ≡ size_read (member (codes "size") (members_view members.now.entries)) }
{
    match find(members, "size") {
        None => Ok(None),
        Some(json) => match json.as_u64() {
            None => Err(ValueRefusal::BadFile(FileField::Size)),
            Some(bytes) => Ok(Some(bytes)),
        },
    }
}

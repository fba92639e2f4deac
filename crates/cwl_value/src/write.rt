//! The JSON of values.
ghost use Rattle.std.specs.Prelude.{◌≡◌, Some, IfOk, OnOk, option_map, map, codes};
ghost use Rattle.serde_json.specs.Data.{array, string};
ghost use Rattle.serde_json.specs.View.{view, items_of, members_view};
ghost use Rattle.serde_json.specs.Written.{compact_text};
ghost use Rattle.cwl_value.specs.NameParts.{nameroot, nameext};
ghost use Rattle.cwl_value.specs.Json.{json_of, file_data, dir_data, items_json, fields_json, with_member, by_name, name_in, text_json, location_json, size_json, unless_empty};

use crate::names::name_parts;
use crate::place::Place;
use crate::value::{DirVal, FileVal, Value};
use plain_data::{Items, Keyed, Text};
use serde_json::Value as Json;
use serde_json::value::Map;
use std::alloc::{AllocError, Global};

/// The JSON of a value (CWL v1.2, "Data concepts", File and Directory).
///
/// A File or Directory has its `basename`, `checksum`, `size`, `contents`, `secondaryFiles` and `listing` where they
/// are there, its `location` where its place is a `Url`, and `nameroot` and `nameext` where it has a basename.
#[cycle(write)]
pub fn to_json(alloc: Global, value: &Value) -> Result<Json, AllocError>
    ensures { IfOk result (λ json. view json ≡ json_of value.now) }
{
    match value {
        Value::Null => Ok(Json::Null),
        Value::Bool(flag) => Ok(Json::Bool(*flag)),
        Value::Whole(number) => Ok(Json::from(*number)),
        Value::Text(text) => Json::try_from_str(alloc, text.as_str()),
        Value::FileVal(file) => file_to_json(alloc, file),
        Value::DirVal(dir) => dir_to_json(alloc, dir),
        Value::List(items) => Ok(Json::Array(items_to_json(alloc, items.as_items())?)),
        Value::Fields(fields) => Ok(Json::Object(fields_to_json(alloc, fields)?)),
    }
}

#[cycle(write)]
fn file_to_json(alloc: Global, file: &FileVal) -> Result<Json, AllocError>
    ensures { IfOk result (λ json. view json ≡ file_data file.now) }
{
    let secondary = items_to_json(alloc, &file.secondary)?;
    let mut members = Map::new(alloc);
    put_own(
        &mut members,
        alloc,
        &file.basename,
        &file.checksum,
        &file.contents,
        &file.place,
    )?;
    put(&mut members, alloc, "secondaryFiles", some_array(secondary))?;
    put(&mut members, alloc, "size", size(file.size))?;
    Ok(Json::Object(members))
}

#[cycle(write)]
fn dir_to_json(alloc: Global, dir: &DirVal) -> Result<Json, AllocError>
    ensures { IfOk result (λ json. view json ≡ dir_data dir.now) }
{
    let listing = match &dir.listing {
        None => None,
        Some(items) => Some(sorted_array(items_to_json(alloc, items)?)?),
    };
    let mut members = Map::new(alloc);
    put_text(&mut members, alloc, "basename", &dir.basename)?;
    put_class(&mut members, alloc, "Directory")?;
    put(&mut members, alloc, "listing", listing)?;
    put_location(&mut members, alloc, &dir.place)?;
    Ok(Json::Object(members))
}

#[cycle(write)]
fn items_to_json(alloc: Global, items: &Items<Value>) -> Result<Vec<Json>, AllocError>
    ensures { IfOk result (λ found. map view found.items ≡ items_json items.now) }
{
    let mut found = Vec::new(alloc);
    for item in items.as_slice() {
        found.push(to_json(alloc, item)?)?;
    }
    Ok(found)
}

#[cycle(write)]
fn fields_to_json(alloc: Global, fields: &Keyed<Value>) -> Result<Map<String, Json>, AllocError>
    ensures { IfOk result (λ members. members_view members.entries ≡ fields_json fields.now) }
{
    let mut members = Map::new(alloc);
    for field in fields.as_slice() {
        let json = to_json(alloc, &field.1)?;
        put(&mut members, alloc, field.0.as_str(), Some(json))?;
    }
    Ok(members)
}

// Adds a member, if there is one.
fn put(
    members: &mut Map<String, Json>,
    alloc: Global,
    name: &str,
    json: Option<Json>,
) -> Result<(), AllocError>
    ensures { OnOk result (members_view members.new.entries
        ≡ with_member name.now (option_map view json) (members_view members.old.entries)) }
{
    match json {
        None => Ok(()),
        Some(json) => serde_json::put(members, alloc, name, json),
    }
}

fn put_text(
    members: &mut Map<String, Json>,
    alloc: Global,
    name: &str,
    text: &Option<Text>,
) -> Result<(), AllocError>
    ensures { OnOk result (members_view members.new.entries
        ≡ with_member name.now (text_json text.now) (members_view members.old.entries)) }
{
    match text {
        None => Ok(()),
        Some(text) => {
            let json = Json::try_from_str(alloc, text.as_str())?;
            serde_json::put(members, alloc, name, json)
        }
    }
}

// The members of a File that hold no other values, and are texts.
fn put_own(
    members: &mut Map<String, Json>,
    alloc: Global,
    basename: &Option<Text>,
    checksum: &Option<Text>,
    contents: &Option<Text>,
    place: &Place,
) -> Result<(), AllocError>
    ensures { OnOk result (members_view members.new.entries
        ≡ with_member (codes "nameroot") (text_json (option_map nameroot basename.now))
        (with_member (codes "nameext") (text_json (option_map nameext basename.now))
        (with_member (codes "location") (location_json place.now)
        (with_member (codes "contents") (text_json contents.now)
        (with_member (codes "class") (Some (string (codes "File")))
        (with_member (codes "checksum") (text_json checksum.now)
        (with_member (codes "basename") (text_json basename.now)
        (members_view members.old.entries)))))))) }
{
    put_text(members, alloc, "basename", basename)?;
    put_text(members, alloc, "checksum", checksum)?;
    put_class(members, alloc, "File")?;
    put_text(members, alloc, "contents", contents)?;
    put_location(members, alloc, place)?;
    put_parts(members, alloc, basename)
}

fn put_class(members: &mut Map<String, Json>, alloc: Global, class: &str) -> Result<(), AllocError>
    ensures { OnOk result (members_view members.new.entries
        ≡ with_member (codes "class") (Some (string class.now))
        (members_view members.old.entries)) }
{
    serde_json::put(members, alloc, "class", Json::try_from_str(alloc, class)?)
}

fn put_location(
    members: &mut Map<String, Json>,
    alloc: Global,
    place: &Place,
) -> Result<(), AllocError>
    ensures { OnOk result (members_view members.new.entries
        ≡ with_member (codes "location") (location_json place.now)
        (members_view members.old.entries)) }
{
    match place {
        Place::Url(location) => serde_json::put(
            members,
            alloc,
            "location",
            Json::try_from_str(alloc, location.as_str())?,
        ),
        Place::Nowhere | Place::Path(_) | Place::Made(_, _) => Ok(()),
    }
}

fn put_parts(
    members: &mut Map<String, Json>,
    alloc: Global,
    basename: &Option<Text>,
) -> Result<(), AllocError>
    ensures { OnOk result (members_view members.new.entries
        ≡ with_member (codes "nameroot") (text_json (option_map nameroot basename.now))
        (with_member (codes "nameext") (text_json (option_map nameext basename.now))
        (members_view members.old.entries))) }
{
    match basename {
        None => Ok(()),
        Some(basename) => {
            let (root, extension) = name_parts(basename.as_str());
            serde_json::put(
                members,
                alloc,
                "nameext",
                Json::try_from_str(alloc, extension)?,
            )?;
            serde_json::put(members, alloc, "nameroot", Json::try_from_str(alloc, root)?)
        }
    }
}

fn size(bytes: Option<u64>) -> Option<Json>
    ensures { option_map view result ≡ size_json bytes }
{
    match bytes {
        None => None,
        Some(bytes) => Some(Json::from(bytes)),
    }
}

fn some_array(items: Vec<Json>) -> Option<Json>
    ensures { option_map view result ≡ unless_empty (map view items.items) }
{
    if items.is_empty() {
        None
    } else {
        Some(Json::Array(items))
    }
}

// An array in the order of the basenames.
fn sorted_array(listing: Vec<Json>) -> Result<Json, AllocError>
    ensures { IfOk result (λ json. view json
        ≡ array (items_of (by_name (map view listing.items)))) }
{
    Ok(Json::Array(sorted(listing)?))
}

// In the order of the basenames.
fn sorted(listing: Vec<Json>) -> Result<Vec<Json>, AllocError>
    ensures { IfOk result (λ found. map view found.items ≡ by_name (map view listing.items)) }
{
    let mut found = listing;
    found.sort_by(|one, other| name_of(one).cmp(name_of(other)))?;
    Ok(found)
}

fn name_of(entry: &Json) -> &str
    ensures { result.now ≡ name_in (view entry.now) }
{
    match entry.get("basename") {
        Some(Json::String(name)) => name.as_str(),
        _ => "",
    }
}

#[tactic(auto, using(crate::proofs::NoFloat::exact))]
/// The JSON of a value as text: with no space, and each object's keys in the order of their bytes.
pub fn canonical_text(alloc: Global, value: &Value) -> Result<Text, AllocError>
    ensures { IfOk result (λ text. text ≡ compact_text (json_of value.now)) }
{
    Ok(Text::from_string(to_json(alloc, value)?.to_string(alloc)?))
}

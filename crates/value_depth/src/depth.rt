//! How deep the JSON of values nests, without that JSON.
ghost use Rattle.std.specs.Prelude.{◌≡◌, nat_le};
ghost use Rattle.serde_json.specs.Data.{depth, items_depth, members_depth};
ghost use Rattle.serde_json.specs.View.{items_of};
ghost use Rattle.cwl_value.specs.Json.{json_of, file_data, dir_data, items_json, fields_json};

use cwl_value::{DirVal, FileVal, Value};
use plain_data::{Items, Keyed};

/// Checks that arrays and objects nest at most this many levels deep in the value's JSON.
#[cycle(within)]
pub(crate) fn nests_within(value: &Value, levels: usize) -> bool
    ensures { result ≡ nat_le (depth (json_of value.now)) levels }
{
    match value {
        Value::FileVal(file) => file_within(file, levels),
        Value::DirVal(dir) => dir_within(dir, levels),
        Value::List(items) => levels > 0 && items_within(items.as_items(), levels - 1),
        Value::Fields(fields) => levels > 0 && fields_within(fields, levels - 1),
        _ => true,
    }
}

#[cycle(within)]
fn file_within(file: &FileVal, levels: usize) -> bool
    ensures { result ≡ nat_le (depth (file_data file.now)) levels }
{
    if file.secondary.is_empty() {
        return levels > 0;
    }
    levels > 1 && items_within(&file.secondary, levels - 2)
}

#[cycle(within)]
fn dir_within(dir: &DirVal, levels: usize) -> bool
    ensures { result ≡ nat_le (depth (dir_data dir.now)) levels }
{
    match &dir.listing {
        None => levels > 0,
        Some(entries) => levels > 1 && items_within(entries, levels - 2),
    }
}

#[cycle(within)]
fn items_within(items: &Items<Value>, levels: usize) -> bool
    ensures { result ≡ nat_le (items_depth (items_of (items_json items.now))) levels }
{
    for item in items.as_slice() {
        if !nests_within(item, levels) {
            return false;
        }
    }
    true
}

/// Checks the same of each of the values under names.
#[cycle(within)]
pub(crate) fn fields_within(fields: &Keyed<Value>, levels: usize) -> bool
    ensures { result ≡ nat_le (members_depth (fields_json fields.now)) levels }
{
    for field in fields.as_slice() {
        if !nests_within(&field.1, levels) {
            return false;
        }
    }
    true
}

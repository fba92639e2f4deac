//! Values without Files and Directories, in which no place has to be looked at.
ghost use Rattle.std.specs.Prelude.{◌≡◌, map};
ghost use Rattle.plain_data.specs.ByName.{map_values};
ghost use Rattle.serde_json.specs.View.{view, items_view, members_view};
ghost use Rattle.cwl_value.specs.Fileless.{holds_files, is_class_of_files, is_fileless, items_are_fileless, members_are_fileless, some_true, stands_fileless};

use crate::depth::nests_within;
use crate::members::class_of;
use crate::read::MOST_NESTING;
use crate::value::Value;
use plain_data::{Items, Keyed};
use serde_json::Value as Json;
use serde_json::value::Map;

/// Whether JSON is seen to stand for a value without Files and Directories, without making it.
pub fn stands_fileless(json: &Json) -> bool
    ensures { result ≡ stands_fileless (view json.now) }
{
    is_fileless(json) && nests_within(json, MOST_NESTING)
}

#[cycle(fileless)]
fn is_fileless(json: &Json) -> bool
    ensures { result ≡ is_fileless (view json.now) }
{
    match json {
        Json::Null | Json::Bool(_) | Json::String(_) => true,
        Json::Number(number) => number.as_i64().is_some(),
        Json::Array(items) => items_are_fileless(items),
        Json::Object(members) => {
            !is_class_of_files(class_of(members)) && members_are_fileless(members)
        }
    }
}

#[cycle(fileless)]
fn items_are_fileless(items: &Vec<Json>) -> bool
    ensures { result ≡ items_are_fileless (items_view items.now.items) }
{
    for item in items {
        if !is_fileless(item) {
            return false;
        }
    }
    true
}

#[cycle(fileless)]
fn members_are_fileless(members: &Map<String, Json>) -> bool
    ensures { result ≡ members_are_fileless (members_view members.now.entries) }
{
    for (_, member) in members.iter() {
        if !is_fileless(member) {
            return false;
        }
    }
    true
}

fn is_class_of_files(class: &str) -> bool
    ensures { result ≡ is_class_of_files class.now }
{
    class == "File" || class == "Directory"
}

/// Whether a value is a File or Directory, or holds one at any depth.
#[cycle(holding)]
pub fn holds_files(value: &Value) -> bool
    ensures { result ≡ holds_files value.now }
{
    match value {
        Value::FileVal(_) | Value::DirVal(_) => true,
        Value::List(items) => items_hold_files(items.as_items()),
        Value::Fields(fields) => fields_hold_files(fields),
        Value::Null | Value::Bool(_) | Value::Whole(_) | Value::Text(_) => false,
    }
}

#[cycle(holding)]
fn items_hold_files(items: &Items<Value>) -> bool
    ensures { result ≡ some_true (map holds_files items.now) }
{
    for item in items.as_slice() {
        if holds_files(item) {
            return true;
        }
    }
    false
}

#[cycle(holding)]
fn fields_hold_files(fields: &Keyed<Value>) -> bool
    ensures { result ≡ some_true (map (λ e. e.1) (map_values holds_files fields.now)) }
{
    for field in fields.as_slice() {
        if holds_files(&field.1) {
            return true;
        }
    }
    false
}

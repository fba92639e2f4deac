//! Defaults without Files and Directories, which need not be read to be found right.
ghost use Rattle.std.specs.Prelude.{◌≡◌};
ghost use Rattle.serde_json.specs.View.{view, items_view, members_view};
ghost use Rattle.cwl_process.specs.FilelessDefaults.{has_fileless_default, have_fileless_defaults, items_have_fileless_defaults, members_have_fileless_defaults};

use cwl_value::stands_fileless;
use serde_json::{Map, Value};

/// Whether each default of the objects in a list or a map is seen to stand for a value without Files and Directories.
pub fn have_fileless_defaults(value: &Value) -> bool
    ensures { result ≡ have_fileless_defaults (view value.now) }
{
    match value {
        Value::Array(items) => items_have_fileless_defaults(items),
        Value::Object(members) => members_have_fileless_defaults(members),
        Value::Null | Value::Bool(_) | Value::Number(_) | Value::String(_) => true,
    }
}

fn items_have_fileless_defaults(items: &Vec<Value>) -> bool
    ensures { result ≡ items_have_fileless_defaults (items_view items.now.items) }
{
    for item in items {
        if !has_fileless_default(item) {
            return false;
        }
    }
    true
}

fn members_have_fileless_defaults(members: &Map<String, Value>) -> bool
    ensures { result ≡ members_have_fileless_defaults (members_view members.now.entries) }
{
    for (_, member) in members.iter() {
        if !has_fileless_default(member) {
            return false;
        }
    }
    true
}

fn has_fileless_default(value: &Value) -> bool
    ensures { result ≡ has_fileless_default (view value.now) }
{
    match value.get("default") {
        None => true,
        Some(found) => stands_fileless(found),
    }
}

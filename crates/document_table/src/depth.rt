ghost use Rattle.std.specs.Prelude.{◌≡◌, ◌≤◌, ◌↔◌, IsTrue};
ghost use Rattle.serde_json.specs.Data.{depth, items_depth, members_depth};
ghost use Rattle.serde_json.specs.View.{view, items_view, members_view};

use serde_json::{Map, Value};

/// Whether arrays and objects nest at most so deep.
#[cycle(nesting)]
pub fn nests_within(value: &Value, limit: usize) -> bool
    ensures { IsTrue result ↔ (depth (view value.now) ≤ limit) }
{
    match value {
        Value::Array(items) => limit > 0 && items_nest_within(items, limit - 1),
        Value::Object(members) => limit > 0 && members_nest_within(members, limit - 1),
        Value::Null | Value::Bool(_) | Value::Number(_) | Value::String(_) => true,
    }
}

#[cycle(nesting)]
fn items_nest_within(items: &Vec<Value>, limit: usize) -> bool
    ensures { IsTrue result ↔ (items_depth (items_view items.now.items) ≤ limit) }
{
    for item in items {
        if !nests_within(item, limit) {
            return false;
        }
    }
    true
}

#[cycle(nesting)]
fn members_nest_within(members: &Map<String, Value>, limit: usize) -> bool
    ensures { IsTrue result ↔ (members_depth (members_view members.now.entries) ≤ limit) }
{
    for (name, value) in members.iter() {
        let _ = name;
        if !nests_within(value, limit) {
            return false;
        }
    }
    true
}

//! How deep JSON nests.
ghost use Rattle.std.specs.Prelude.{◌≡◌, nat_le};
ghost use Rattle.serde_json.specs.Data.{depth, items_depth, members_depth};
ghost use Rattle.serde_json.specs.View.{view, items_view, members_view};

use serde_json::Value as Json;
use serde_json::value::Map;

/// Whether arrays and objects nest at most this many levels deep.
#[cycle(within)]
pub(crate) fn nests_within(json: &Json, levels: usize) -> bool
    ensures { result ≡ nat_le (depth (view json.now)) levels }
{
    match json {
        Json::Array(items) => levels > 0 && items_nest_within(items, levels - 1),
        Json::Object(members) => levels > 0 && members_nest_within(members, levels - 1),
        _ => true,
    }
}

#[cycle(within)]
fn items_nest_within(items: &Vec<Json>, levels: usize) -> bool
    ensures { result ≡ nat_le (items_depth (items_view items.now.items)) levels }
{
    for item in items {
        if !nests_within(item, levels) {
            return false;
        }
    }
    true
}

#[cycle(within)]
fn members_nest_within(members: &Map<String, Json>, levels: usize) -> bool
    ensures { result ≡ nat_le (members_depth (members_view members.now.entries)) levels }
{
    for (_, member) in members.iter() {
        if !nests_within(member, levels) {
            return false;
        }
    }
    true
}

//! What is in lists and maps of objects.
ghost use Rattle.std.specs.Prelude.{◌≡◌, None, IfOk, OnOk, map, option_map, bytes_eq};
ghost use Rattle.std.specs.List.{IsDistinct};
ghost use Rattle.std.specs.Map.{keys_of};
ghost use Rattle.serde_json.specs.Data.{array, object};
ghost use Rattle.serde_json.specs.View.{view, items_view, members_view};
ghost use Rattle.document_table.specs.Entries.{HasForm, entries, entry_seen, listed_entries, main_field, mapped_entries};
ghost use Rattle.document_table.specs.Repeats.{names_in, repeat_after};
ghost use Rattle.document_table.specs.declared.form.Form.TheVariants.{Objects};

use crate::form::Kind;
use crate::repeats::{name_in, subject_name};
use serde_json::{Map, Value};
use std::alloc::{AllocError, Global};

/// The value of the one field that may stand for its object: that of the object, or the value in its
/// place.
pub fn main_field<'v>(name: &str, value: &'v Value) -> Option<&'v Value>
    ensures { option_map (λ v. view v.now) result ≡ main_field name.now (view value.now) }
{
    if value.is_object() {
        value.get(name)
    } else {
        Some(value)
    }
}

/// What is in a list or a map of objects, each beside what its subject stands for: in the order of
/// the list, or of the bytes of the map's keys.
pub fn entries<'v>(
    alloc: Global,
    kind: Kind,
    value: &'v Value,
) -> Result<Vec<(&'v str, &'v Value)>, AllocError>
    ensures value { IfOk result
        (λ found. map entry_seen found.items ≡ entries kind (view value.now)) }
    ensures ids { OnOk result (HasForm (Objects kind) (view value.now)
        → IsDistinct bytes_eq (keys_of (entries kind (view value.now)))) }
{
    match value {
        Value::Array(items) => listed_entries(alloc, kind, items),
        Value::Object(members) => mapped_entries(alloc, kind, members),
        _ => Ok(Vec::new(alloc)),
    }
}

#[tactic(auto, using(crate::proofs::Ids::list_ids_differ))]
fn listed_entries<'v>(
    alloc: Global,
    kind: Kind,
    items: &'v Vec<Value>,
) -> Result<Vec<(&'v str, &'v Value)>, AllocError>
    ensures value { IfOk result
        (λ found. map entry_seen found.items ≡ listed_entries kind (items_view items.now.items)) }
    ensures ids { OnOk result (HasForm (Objects kind) (array (items_view items.now.items))
        → IsDistinct bytes_eq (keys_of (listed_entries kind (items_view items.now.items)))) }
{
    let mut found = Vec::with_capacity(alloc, items.len())?;
    for item in items {
        if let Some(name) = name_in(kind, item) {
            found.push((name, item))?;
        }
    }
    Ok(found)
}

#[tactic(auto, using(crate::proofs::Ids::map_ids_differ))]
fn mapped_entries(
    alloc: Global,
    kind: Kind,
    members: &Map<String, Value>,
) -> Result<Vec<(&str, &Value)>, AllocError>
    ensures value { IfOk result (λ found. map entry_seen found.items
        ≡ mapped_entries kind (members_view members.now.entries)) }
    ensures ids { OnOk result (HasForm (Objects kind) (object (members_view members.now.entries))
        → IsDistinct bytes_eq
        (keys_of (mapped_entries kind (members_view members.now.entries)))) }
{
    let mut found = Vec::with_capacity(alloc, members.len())?;
    for (name, value) in members.iter() {
        found.push((subject_name(kind, name.as_str()), value))?;
    }
    Ok(found)
}

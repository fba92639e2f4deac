//! Packed documents whose items are found by their ids without going down the list.
ghost use Rattle.std.specs.Prelude.{◌≡◌, ℕ, List, Some, None, cond, IfOk, OnOk, option_map, bytes_eq};
ghost use Rattle.std.specs.BTreeMap.{get_by_text};
ghost use Rattle.std.specs.Option.{option_or};
ghost use Rattle.serde_json.specs.Find.{get_item};
ghost use Rattle.serde_json.specs.View.{items_view, view};
ghost use Rattle.document_table.specs.Packed.{graph_in, item_at, item_named, only_item, placed_seen, root_item, root_of};
ghost use Rattle.document_table.specs.inner.Places.{HasPlaces};

use crate::packed::{Placed, id_in, only_item};
use serde_json::Value;
use std::alloc::{AllocError, Global};
use std::collections::BTreeMap;

/// A document, and the index of each of its items under its id.
#[derive(Drop)]
pub struct Indexed {
    pub json: Value,
    places: BTreeMap<String, usize>,
    ghost placed: { HasPlaces places (graph_in (view json)) },
}

impl Indexed {
    pub fn of(alloc: Global, json: Value) -> Result<Indexed, AllocError>
        ensures { IfOk result (λ document. document.json ≡ json) }
    {
        let places = places_of(alloc, &json)?;
        Ok(Indexed { json, places })
    }

    /// Returns the item of that id, of a packed document.
    #[tactic(auto, using(crate::proofs::Places::no_place, crate::proofs::Places::one_place))]
    pub fn item(&self, id: &str) -> Option<Placed<'_>>
        ensures { option_map placed_seen result ≡ item_named id.now (view self.now.json) }
    {
        match self.places.get(id) {
            None => None,
            Some(index) => item_of(&self.json, *index),
        }
    }

    /// Returns the process that the document stands for: its root, or all of it.
    pub fn root(&self) -> Placed<'_>
        ensures { placed_seen result ≡ root_of (view self.now.json) }
    {
        match self.root_item() {
            Some(root) => root,
            None => Placed {
                process: &self.json,
                index: None,
            },
        }
    }

    fn root_item(&self) -> Option<Placed<'_>>
        ensures { option_map placed_seen result ≡ root_item (graph_in (view self.now.json)) }
    {
        match only_item_of(&self.json) {
            Some(root) => Some(root),
            None => match self.item("#main") {
                Some(root) => Some(root),
                None => self.item("main"),
            },
        }
    }
}

fn item_of(document: &Value, index: usize) -> Option<Placed<'_>>
    ensures { option_map placed_seen result
        ≡ option_map (item_at index) (get_item index (graph_in (view document.now))) }
{
    match document.get("$graph") {
        Some(Value::Array(items)) => item_in(items, index),
        _ => None,
    }
}

#[tactic(auto, using(crate::proofs::Places::none_past, crate::proofs::Places::some_within))]
fn item_in(items: &Vec<Value>, index: usize) -> Option<Placed<'_>>
    ensures { option_map placed_seen result
        ≡ option_map (item_at index) (get_item index (items_view items.now.items)) }
{
    match items.get(index) {
        None => None,
        Some(process) => Some(Placed {
            process,
            index: Some(index),
        }),
    }
}

fn only_item_of(document: &Value) -> Option<Placed<'_>>
    ensures { option_map placed_seen result ≡ only_item (graph_in (view document.now)) }
{
    match document.get("$graph") {
        Some(Value::Array(items)) => only_item(items),
        _ => None,
    }
}

fn places_of(alloc: Global, document: &Value) -> Result<BTreeMap<String, usize>, AllocError>
    ensures { IfOk result (λ places. HasPlaces places (graph_in (view document.now))) }
{
    match document.get("$graph") {
        Some(Value::Array(items)) => places_in(alloc, items),
        _ => Ok(BTreeMap::new(alloc)),
    }
}

fn places_in(alloc: Global, items: &Vec<Value>) -> Result<BTreeMap<String, usize>, AllocError>
    ensures { IfOk result (λ places. HasPlaces places (items_view items.now.items)) }
{
    let mut places = BTreeMap::new(alloc);
    let mut index = 0usize;
    for item in items {
        if let Some(id) = id_in(item) {
            put_first(alloc, &mut places, id, index)?;
        }
        index += 1;
    }
    Ok(places)
}

/// Puts an index under an id that has none.
#[tactic(auto, using(std::proofs::lemmas::Map::Text::text_keys))]
fn put_first(
    alloc: Global,
    places: &mut BTreeMap<String, usize>,
    id: &str,
    index: usize,
) -> Result<(), AllocError>
    ensures { OnOk result ((other : List ℕ) → get_by_text places.new other
        ≡ option_or (get_by_text places.old other)
        (cond (bytes_eq other id.now) (Some index) None)) }
{
    match places.insert(String::from_str(alloc, id)?, index)? {
        None => Ok(()),
        Some(first) => {
            let _index = places.insert(String::from_str(alloc, id)?, first)?;
            Ok(())
        }
    }
}

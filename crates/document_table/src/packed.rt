//! Packed documents: a list of processes under `$graph`, of which one is the root.
ghost use Rattle.std.specs.Prelude.{◌≡◌, [], IfOk, map, option_map, codes};
ghost use Rattle.serde_json.specs.View.{items_view, view};
ghost use Rattle.document_table.specs.Packed.{graph_fault, graph_in, has_id, id_in, ids_in, in_item, is_packed, item_from, items_fault, only_item, packed_fault, placed_fault, placed_seen, root_item, root_of, rootless, shape_fault, shapes_fault};
ghost use Rattle.document_table.specs.Faults.{here, under};
ghost use Rattle.document_table.specs.Repeats.{repeat_after};
ghost use Rattle.document_table.specs.declared.fault.Cause.TheVariants.{RepeatedId};

use crate::fault::{Cause, DocumentFault, at, here, under};
use crate::form::Form;
use crate::repeats::first_repeat;
use crate::walk::fault_in;
use serde_json::Value;
use std::alloc::{AllocError, Global};

/// A process of a document.
#[derive(Clone, Copy, Drop)]
pub struct Placed<'v> {
    pub process: &'v Value,
    /// The index of its item, where the document is packed.
    pub index: Option<usize>,
}

/// Whether a document is a list of processes.
pub(crate) fn is_packed(document: &Value) -> bool
    ensures { result ≡ is_packed (view document.now) }
{
    document.get("$graph").is_some()
}

/// Returns the process that a document stands for: its root, or all of it.
pub fn root_of(document: &Value) -> Placed<'_>
    ensures { placed_seen result ≡ root_of (view document.now) }
{
    let whole = Placed {
        process: document,
        index: None,
    };
    match document.get("$graph") {
        None => whole,
        Some(Value::Array(items)) => root_item(items).unwrap_or(whole),
        Some(_) => whole,
    }
}

/// A single item, whatever its id; else the item `#main`, and where there is none, `main`.
fn root_item(items: &Vec<Value>) -> Option<Placed<'_>>
    ensures { option_map placed_seen result ≡ root_item (items_view items.now.items) }
{
    match only_item(items) {
        Some(root) => Some(root),
        None => match item_from("#main", items) {
            Some(root) => Some(root),
            None => item_from("main", items),
        },
    }
}

#[tactic(auto, using(crate::proofs::Alone::no_item, crate::proofs::Alone::alone, crate::proofs::Alone::not_alone))]
pub(crate) fn only_item(items: &Vec<Value>) -> Option<Placed<'_>>
    ensures { option_map placed_seen result ≡ only_item (items_view items.now.items) }
{
    match items.as_slice().split_first() {
        None => None,
        Some((item, others)) => {
            if !others.is_empty() {
                return None;
            }
            Some(Placed {
                process: item,
                index: Some(0),
            })
        }
    }
}

fn item_from<'v>(id: &str, items: &'v Vec<Value>) -> Option<Placed<'v>>
    ensures { option_map placed_seen result ≡ item_from id.now 0 (items_view items.now.items) }
{
    let mut index = 0usize;
    for item in items {
        if has_id(id, item) {
            return Some(Placed {
                process: item,
                index: Some(index),
            });
        }
        index += 1;
    }
    None
}

/// The id of a process, which is any text.
pub(crate) fn id_in(process: &Value) -> Option<&str>
    ensures { option_map (λ id. id.now) result ≡ id_in (view process.now) }
{
    process.get("id")?.as_str()
}

fn has_id(id: &str, process: &Value) -> bool
    ensures { result ≡ has_id id.now (view process.now) }
{
    match id_in(process) {
        None => false,
        Some(found) => id == found,
    }
}

// ---- what is wrong

/// Returns the fault of an item, seen from the document.
pub fn in_item(
    alloc: Global,
    index: Option<usize>,
    fault: DocumentFault,
) -> Result<DocumentFault, AllocError>
    ensures { IfOk result (λ outer. outer ≡ in_item index fault) }
{
    match index {
        None => Ok(fault),
        Some(index) => under(alloc, "$graph", at(index, fault)?),
    }
}

/// The first fault of a packed document. Of the items that the root doesn't reach nothing is asked but their ids.
pub(crate) fn packed_fault(
    alloc: Global,
    document: &Value,
) -> Result<Option<DocumentFault>, AllocError>
    ensures { IfOk result (λ found. found ≡ packed_fault (view document.now)) }
{
    if let Some(fault) = fault_in(alloc, Form::Packed, document)? {
        return Ok(Some(fault));
    }
    if let Some(fault) = named_graph_fault(alloc, document)? {
        return Ok(Some(fault));
    }
    placed_fault(alloc, root_of(document))
}

/// Returns what the table says of a process in its place.
pub fn placed_fault(alloc: Global, placed: Placed<'_>) -> Result<Option<DocumentFault>, AllocError>
    ensures { IfOk result (λ found. found ≡ placed_fault (placed_seen placed.entry)) }
{
    match fault_in(alloc, Form::Process, placed.process)? {
        None => Ok(None),
        Some(fault) => Ok(Some(in_item(alloc, placed.index, fault)?)),
    }
}

fn named_graph_fault(alloc: Global, document: &Value) -> Result<Option<DocumentFault>, AllocError>
    ensures { IfOk result (λ found. found
        ≡ option_map (under (codes "$graph")) (graph_fault (graph_in (view document.now)))) }
{
    let found = match document.get("$graph") {
        Some(Value::Array(items)) => graph_fault(alloc, items)?,
        _ => Some(here(alloc, Cause::WrongForm)),
    };
    match found {
        None => Ok(None),
        Some(fault) => Ok(Some(under(alloc, "$graph", fault)?)),
    }
}

/// The first fault of the list of items: there is one at least.
#[tactic(auto, using(crate::proofs::Alone::no_list, crate::proofs::Alone::a_list))]
fn graph_fault(alloc: Global, items: &Vec<Value>) -> Result<Option<DocumentFault>, AllocError>
    ensures { IfOk result (λ found. found ≡ graph_fault (items_view items.now.items)) }
{
    match items.as_slice().split_first() {
        None => Ok(Some(here(alloc, Cause::WrongForm))),
        Some(_) => items_fault(alloc, items),
    }
}

/// The first fault of the items: each has its shape, no two have one id, and one is the root.
fn items_fault(alloc: Global, items: &Vec<Value>) -> Result<Option<DocumentFault>, AllocError>
    ensures { IfOk result (λ found. found ≡ items_fault (items_view items.now.items)) }
{
    if let Some(fault) = shapes_fault(alloc, only_item(items).is_some(), items)? {
        return Ok(Some(fault));
    }
    if let Some(fault) = repeat_fault(alloc, items)? {
        return Ok(Some(fault));
    }
    rootless(alloc, items)
}

/// A list in which no item is the root.
fn rootless(alloc: Global, items: &Vec<Value>) -> Result<Option<DocumentFault>, AllocError>
    ensures { IfOk result (λ found. found ≡ rootless (items_view items.now.items)) }
{
    match root_item(items) {
        Some(_) => Ok(None),
        None => Ok(Some(under(alloc, "#main", here(alloc, Cause::MissingField))?)),
    }
}

fn shapes_fault(
    alloc: Global,
    alone: bool,
    items: &Vec<Value>,
) -> Result<Option<DocumentFault>, AllocError>
    ensures { IfOk result
        (λ found. found ≡ shapes_fault alone 0 (items_view items.now.items)) }
{
    let mut index = 0usize;
    for item in items {
        if let Some(fault) = shape_fault(alloc, alone, item)? {
            return Ok(Some(at(index, fault)?));
        }
        index += 1;
    }
    Ok(None)
}

/// An item is an object; it says its id, which a single one may leave out.
fn shape_fault(
    alloc: Global,
    alone: bool,
    item: &Value,
) -> Result<Option<DocumentFault>, AllocError>
    ensures { IfOk result (λ found. found ≡ shape_fault alone (view item.now)) }
{
    if !item.is_object() {
        return Ok(Some(here(alloc, Cause::WrongForm)));
    }
    match item.get("id") {
        None => {
            if alone {
                return Ok(None);
            }
            Ok(Some(under(alloc, "id", here(alloc, Cause::MissingField))?))
        }
        Some(id) => {
            if id.as_str().is_some() {
                return Ok(None);
            }
            Ok(Some(under(alloc, "id", here(alloc, Cause::WrongForm))?))
        }
    }
}

/// Two items of one id.
fn repeat_fault(alloc: Global, items: &Vec<Value>) -> Result<Option<DocumentFault>, AllocError>
    ensures { IfOk result (λ found. found
        ≡ option_map (λ id. under id (here RepeatedId))
        (repeat_after [] (ids_in (items_view items.now.items)))) }
{
    let ids = ids_in(alloc, items)?;
    match first_repeat(alloc, ids.as_slice())? {
        None => Ok(None),
        Some(id) => Ok(Some(under(alloc, id, here(alloc, Cause::RepeatedId))?)),
    }
}

fn ids_in(alloc: Global, items: &Vec<Value>) -> Result<Vec<&str>, AllocError>
    ensures { IfOk result (λ ids. map (λ id. id.now) ids.items
        ≡ ids_in (items_view items.now.items)) }
{
    let mut ids = Vec::new(alloc);
    for item in items {
        if let Some(id) = id_in(item) {
            ids.push(id)?;
        }
    }
    Ok(ids)
}

//! The walk over a document: each value beside the form that the table asks of it.
ghost use Rattle.std.specs.Prelude.{◌≡◌, IfOk};
ghost use Rattle.serde_json.specs.View.{view, items_view, members_view};
ghost use Rattle.document_table.specs.Walk.{fault_in, fault_in_items, fault_in_members, key_fault, leaf_fault, or_else, own_fault, repeat_fault};

use crate::fault::{Cause, DocumentFault, at, here, under};
use crate::form::Form;
use crate::layout::{Layout, layout_of, member_form, missing_field};
use crate::leaf::{item_form, short_form, takes_leaf, wrong, wrong_leaf};
use crate::repeats::{repeated_key, repeated_name};
use serde_json::{Map, Value};
use std::alloc::{AllocError, Global};

/// The first fault of a value, in the order of the document with the names of objects sorted; none
/// where it has the form.
#[cycle(walk)]
pub fn fault_in(
    alloc: Global,
    form: Form,
    value: &Value,
) -> Result<Option<DocumentFault>, AllocError>
    ensures { IfOk result (λ found. found ≡ fault_in form (view value.now)) }
{
    match value {
        Value::Array(items) => match item_form(short_form(form)) {
            None => Ok(Some(here(alloc, wrong(form)))),
            Some(each) => match fault_in_items(alloc, each, items)? {
                Some(fault) => Ok(Some(fault)),
                None => repeat_fault(alloc, short_form(form), items),
            },
        },
        Value::Object(members) => {
            let layout = layout_of(form, value);
            match fault_in_members(alloc, layout, members)? {
                Some(fault) => Ok(Some(fault)),
                None => object_fault(alloc, layout, members, value),
            }
        }
        Value::Null | Value::Bool(_) | Value::Number(_) | Value::String(_) => {
            Ok(leaf_fault(alloc, short_form(form), value))
        }
    }
}

fn leaf_fault(alloc: Global, form: Form, value: &Value) -> Option<DocumentFault>
    ensures { result ≡ leaf_fault form (view value.now) }
{
    if takes_leaf(form, value) {
        None
    } else {
        Some(here(alloc, wrong_leaf(form, value)))
    }
}

/// The fault of a list itself, where its items have none: two of one name.
fn repeat_fault(
    alloc: Global,
    form: Form,
    items: &Vec<Value>,
) -> Result<Option<DocumentFault>, AllocError>
    ensures { IfOk result (λ found. found ≡ repeat_fault form (items_view items.now.items)) }
{
    match repeated_name(alloc, form, items)? {
        None => Ok(None),
        Some(name) => Ok(Some(under(alloc, name, here(alloc, Cause::RepeatedId))?)),
    }
}

/// The fault of an object itself, where its members have none.
fn object_fault(
    alloc: Global,
    layout: Layout,
    members: &Map<String, Value>,
    object: &Value,
) -> Result<Option<DocumentFault>, AllocError>
    ensures { IfOk result (λ found. found ≡ or_else (own_fault layout (view object.now))
        (key_fault layout (members_view members.now.entries))) }
{
    match own_fault(alloc, layout, object)? {
        Some(fault) => Ok(Some(fault)),
        None => key_fault(alloc, layout, members),
    }
}

/// The fault of a map in which two keys stand for one name.
fn key_fault(
    alloc: Global,
    layout: Layout,
    members: &Map<String, Value>,
) -> Result<Option<DocumentFault>, AllocError>
    ensures { IfOk result
        (λ found. found ≡ key_fault layout (members_view members.now.entries)) }
{
    match repeated_key(alloc, layout, members)? {
        None => Ok(None),
        Some(name) => Ok(Some(under(alloc, name, here(alloc, Cause::RepeatedId))?)),
    }
}

/// An object that is refused itself, or that lacks a field.
fn own_fault(
    alloc: Global,
    layout: Layout,
    object: &Value,
) -> Result<Option<DocumentFault>, AllocError>
    ensures { IfOk result (λ found. found ≡ own_fault layout (view object.now)) }
{
    if let Layout::Refused(cause) = layout {
        return Ok(Some(here(alloc, cause)));
    }
    match missing_field(layout, object) {
        None => Ok(None),
        Some(name) => Ok(Some(under(alloc, name, here(alloc, Cause::MissingField))?)),
    }
}

/// The first fault of the items.
#[cycle(walk)]
fn fault_in_items(
    alloc: Global,
    form: Form,
    items: &Vec<Value>,
) -> Result<Option<DocumentFault>, AllocError>
    ensures { IfOk result (λ found. found ≡ fault_in_items form 0 (items_view items.now.items)) }
{
    let mut index = 0usize;
    for item in items {
        if let Some(fault) = fault_in(alloc, form, item)? {
            return Ok(Some(at(index, fault)?));
        }
        index += 1;
    }
    Ok(None)
}

/// The first fault of the members.
#[cycle(walk)]
fn fault_in_members(
    alloc: Global,
    layout: Layout,
    members: &Map<String, Value>,
) -> Result<Option<DocumentFault>, AllocError>
    ensures { IfOk result
        (λ found. found ≡ fault_in_members layout (members_view members.now.entries)) }
{
    for (name, value) in members.iter() {
        match member_form(layout, name.as_str()) {
            Err(cause) => return Ok(Some(under(alloc, name.as_str(), here(alloc, cause))?)),
            Ok(form) => {
                if let Some(fault) = fault_in(alloc, form, value)? {
                    return Ok(Some(under(alloc, name.as_str(), fault)?));
                }
            }
        }
    }
    Ok(None)
}

//! Names that stand twice in a list or a map.
ghost use Rattle.std.specs.Prelude.{◌≡◌, [], IfOk, map, option_map};
ghost use Rattle.serde_json.specs.View.{items_view, members_view, view};
ghost use Rattle.document_table.specs.Repeats.{key_names, name_in, named_kind, names_in, repeat_after, repeated_key, repeated_name, subject_name};
ghost use Rattle.document_table.specs.inner.Climbs.{climb, climb_from};

use crate::form::{Form, Kind};
use crate::layout::{Layout, subject_of};
use crate::texts::plain_id;
use serde_json::{Map, Value};
use std::alloc::{AllocError, Global};
use std::cmp::Ordering;
use std::collections::BTreeSet;

/// The first name of an item that stands before it too.
pub(crate) fn repeated_name(
    alloc: Global,
    form: Form,
    items: &Vec<Value>,
) -> Result<Option<&str>, AllocError>
    ensures { IfOk result (λ found. option_map (λ name. name.now) found
        ≡ repeated_name form (items_view items.now.items)) }
{
    match named_kind(form) {
        None => Ok(None),
        Some(kind) => {
            let names = names_in(alloc, kind, items)?;
            first_repeat(alloc, names.as_slice())
        }
    }
}

fn named_kind(form: Form) -> Option<Kind>
    ensures { result ≡ named_kind form }
{
    match form {
        Form::Objects(kind) => Some(kind),
        Form::StepOutputs => Some(Kind::StepOutput),
        Form::Names => Some(Kind::StepOutput),
        _ => None,
    }
}

fn names_in(alloc: Global, kind: Kind, items: &Vec<Value>) -> Result<Vec<&str>, AllocError>
    ensures { IfOk result (λ names. map (λ name. name.now) names.items
        ≡ names_in kind (items_view items.now.items)) }
{
    let mut names = Vec::with_capacity(alloc, items.len())?;
    for item in items {
        if let Some(name) = name_in(kind, item) {
            names.push(name)?;
        }
    }
    Ok(names)
}

pub(crate) fn name_in(kind: Kind, item: &Value) -> Option<&str>
    ensures { option_map (λ name. name.now) result ≡ name_in kind (view item.now) }
{
    match item {
        Value::String(text) => Some(subject_name(kind, text.as_str())),
        Value::Object(_) => Some(subject_name(kind, item.get(subject_of(kind))?.as_str()?)),
        _ => None,
    }
}

/// What a subject stands for: an id may begin with `#`; a class or a variable's name is itself.
pub(crate) fn subject_name(kind: Kind, text: &str) -> &str
    ensures { result.now ≡ subject_name kind text.now }
{
    match kind {
        Kind::Variable => text,
        Kind::PlainRequirement => text,
        Kind::EnvVarRequirement => text,
        Kind::WorkReuse => text,
        _ => plain_id(text),
    }
}

/// The first name that a key stands for and one before it too.
pub(crate) fn repeated_key(
    alloc: Global,
    layout: Layout,
    members: &Map<String, Value>,
) -> Result<Option<&str>, AllocError>
    ensures { IfOk result (λ found. option_map (λ name. name.now) found
        ≡ repeated_key layout (members_view members.now.entries)) }
{
    match layout {
        Layout::ByKey(kind) => {
            let names = key_names(alloc, kind, members)?;
            first_repeat(alloc, names.as_slice())
        }
        _ => Ok(None),
    }
}

fn key_names(
    alloc: Global,
    kind: Kind,
    members: &Map<String, Value>,
) -> Result<Vec<&str>, AllocError>
    ensures { IfOk result (λ names. map (λ name. name.now) names.items
        ≡ key_names kind (members_view members.now.entries)) }
{
    let mut names = Vec::with_capacity(alloc, members.len())?;
    for (key, value) in members.iter() {
        let _ = value;
        names.push(subject_name(kind, key.as_str()))?;
    }
    Ok(names)
}

/// The first of the names that stands before it too. Where the names climb, as the keys of a map do, no set of them is made.
#[tactic(auto, using(crate::proofs::Climbing::no_repeat))]
pub(crate) fn first_repeat<'n>(
    alloc: Global,
    names: &[&'n str],
) -> Result<Option<&'n str>, AllocError>
    ensures { IfOk result (λ found. option_map (λ name. name.now) found
        ≡ repeat_after [] (map (λ name. name.now) names.now)) }
{
    if climb(names) {
        return Ok(None);
    }
    let mut seen = BTreeSet::new(alloc);
    for name in names {
        if !seen.insert(*name)? {
            return Ok(Some(*name));
        }
    }
    Ok(None)
}

/// Whether each of the names is above the one before it.
fn climb(names: &[&str]) -> bool
    ensures { result ≡ climb (map (λ name. name.now) names.now) }
{
    match names.split_first() {
        None => true,
        Some((first, others)) => climb_from(*first, others),
    }
}

fn climb_from(first: &str, others: &[&str]) -> bool
    ensures { result ≡ climb_from first.now (map (λ name. name.now) others.now) }
{
    let mut last = first;
    for name in others {
        match last.cmp(*name) {
            Ordering::Less => last = *name,
            _ => return false,
        }
    }
    true
}

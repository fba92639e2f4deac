//! Of the jobs that a record has, the one that is nearest to a job that it does not have.

ghost use Rattle.std.specs.Prelude.{◌≡◌, ◌↔◌, ◌++◌, ℕ, IfNone, IfOk, IfSome, IsTrue, OnOk, filter, map, nat_lt, if◌then◌else◌};
ghost use Rattle.run_facts.specs.NearestJob as spec;

use crate::key_parts::KeyParts;
use plain_data::{Items, Keyed, Text};
use std::alloc::{AllocError, Global};

/// What is under a name now, and what was under it, as JSON texts.
#[derive(Drop)]
pub struct Change {
    pub name: Text,
    pub now: Option<Text>,
    pub was: Option<Text>,
}

/// How a job differs from the nearest one that is recorded.
#[derive(Drop)]
pub enum Near {
    /// Its tool and environment are the same, and these inputs differ.
    Inputs(Items<Change>),
    /// Its inputs are the same, and these fields of its tool differ.
    Tool(Items<Change>),
    /// Only its environment differs.
    Environment,
    /// No job with its tool and environment, and none with its inputs, is recorded.
    Nothing,
}

/// What two jobs have alike.
#[derive(Clone, Copy)]
enum Alike {
    ToolAndEnvironment,
    Inputs,
}

/// The number of a row, and how many differences it has.
#[derive(Clone, Copy)]
struct Best {
    index: usize,
    count: usize,
}

/// How a job differs from the nearest of these. One with the same tool and environment is nearer than one with the same inputs, and then the
/// one with the fewest differences is nearest, the first of those with as many.
pub fn nearest(alloc: Global, own: &KeyParts, rows: &[KeyParts]) -> Result<Near, AllocError>
    ensures { IfOk result (spec.IsNear own.now rows.now) }
{
    match nearest_of(Alike::ToolAndEnvironment, own, rows) {
        Some(row) => Ok(Near::Inputs(changes(alloc, &own.inputs, &row.inputs)?)),
        None => nearest_with_inputs(alloc, own, rows),
    }
}

fn nearest_with_inputs(alloc: Global, own: &KeyParts, rows: &[KeyParts]) -> Result<Near, AllocError>
    requires { spec.IsNoneAlike Alike.ToolAndEnvironment own.now rows.now }
    ensures { IfOk result (spec.IsNear own.now rows.now) }
{
    match nearest_of(Alike::Inputs, own, rows) {
        Some(row) => Ok(near_tool(changes(alloc, &own.tool, &row.tool)?)),
        None => Ok(Near::Nothing),
    }
}

fn near_tool(fields: Items<Change>) -> Near
    ensures { result ≡ spec.near_tool fields }
{
    if fields.is_empty() {
        Near::Environment
    } else {
        Near::Tool(fields)
    }
}

fn nearest_of<'r>(alike: Alike, own: &KeyParts, rows: &'r [KeyParts]) -> Option<&'r KeyParts>
    ensures some { IfSome result (λ row. spec.IsNearest alike own.now rows.now row.now) }
    ensures none { IfNone result (spec.IsNoneAlike alike own.now rows.now) }
{
    let mut best = None;
    for index in 0..rows.len() {
        best = nearer(best, index, distance(alike, own, &rows[index]));
    }
    match best {
        Some(best) => rows.get(best.index),
        None => None,
    }
}

// The better one of the best so far and another row, with its differences if it is alike.
fn nearer(best: Option<Best>, index: usize, count: Option<usize>) -> Option<Best>
    ensures { result ≡ spec.nearer best index count }
{
    match (best, count) {
        (best, None) => best,
        (None, Some(count)) => Some(Best { index, count }),
        (Some(best), Some(count)) => Some(fewer(best, Best { index, count })),
    }
}

fn fewer(best: Best, other: Best) -> Best
    ensures { result ≡ (if nat_lt other.count best.count then other else best) }
{
    if other.count < best.count {
        other
    } else {
        best
    }
}

// How many differences there are beside what is alike, if that is.
fn distance(alike: Alike, own: &KeyParts, row: &KeyParts) -> Option<usize>
    ensures some { IfSome result (spec.Differ alike own.now row.now) }
    ensures none { IfNone result ((n : ℕ) → spec.Differ alike own.now row.now n → ⊥) }
{
    match alike {
        Alike::ToolAndEnvironment => inputs_distance(own, row),
        Alike::Inputs => tool_distance(own, row),
    }
}

fn inputs_distance(own: &KeyParts, row: &KeyParts) -> Option<usize>
    ensures some { IfSome result (spec.InputsDiffer own.now row.now) }
    ensures none { IfNone result ((n : ℕ) → spec.InputsDiffer own.now row.now n → ⊥) }
{
    if own.env == row.env && are_same(&own.tool, &row.tool) {
        Some(count(&own.inputs, &row.inputs))
    } else {
        None
    }
}

fn tool_distance(own: &KeyParts, row: &KeyParts) -> Option<usize>
    ensures some { IfSome result (spec.FieldsDiffer own.now row.now) }
    ensures none { IfNone result ((n : ℕ) → spec.FieldsDiffer own.now row.now n → ⊥) }
{
    if are_same(&own.inputs, &row.inputs) {
        Some(count(&own.tool, &row.tool))
    } else {
        None
    }
}

fn are_same(own: &Keyed<Text>, other: &Keyed<Text>) -> bool
    ensures { IsTrue result ↔ (own.now ≡ other.now) }
{
    own.as_slice() == other.as_slice()
}

fn count(own: &Keyed<Text>, other: &Keyed<Text>) -> usize
    ensures { result ≡ spec.count own.now other.now }
{
    let own_entries = own.as_slice();
    let other_entries = other.as_slice();
    let changed = own_entries
        .iter()
        .filter(|entry| is_changed(entry, other))
        .count();
    let gone = other_entries
        .iter()
        .filter(|entry| is_gone(entry, own))
        .count();
    changed + gone
}

// Whether what is under a name is not what was under it.
pub(crate) fn is_changed(entry: &(Text, Text), other: &Keyed<Text>) -> bool
    ensures { result ≡ spec.is_changed other.now entry.now }
{
    match other.get(entry.0.as_str()) {
        Some(was) => *was != entry.1,
        None => true,
    }
}

pub(crate) fn is_gone(entry: &(Text, Text), own: &Keyed<Text>) -> bool
    ensures { result ≡ spec.is_gone own.now entry.now }
{
    !own.contains(entry.0.as_str())
}

fn changes(
    alloc: Global,
    own: &Keyed<Text>,
    other: &Keyed<Text>,
) -> Result<Items<Change>, AllocError>
    ensures { IfOk result (λ changes. changes ≡ spec.changes own.now other.now) }
{
    let mut changes = Items::new(alloc);
    add_changed(alloc, &mut changes, own.as_slice(), other)?;
    add_gone(alloc, &mut changes, other.as_slice(), own)?;
    Ok(changes)
}

fn add_changed(
    alloc: Global,
    changes: &mut Items<Change>,
    entries: &[(Text, Text)],
    other: &Keyed<Text>,
) -> Result<(), AllocError>
    ensures { OnOk result (changes.new ≡ changes.old
        ++ map (spec.change_of other.now) (filter (spec.is_changed other.now) entries.now)) }
{
    for entry in entries {
        if is_changed(entry, other) {
            changes.push(change_of(alloc, entry, other)?)?;
        }
    }
    Ok(())
}

fn change_of(alloc: Global, entry: &(Text, Text), other: &Keyed<Text>) -> Result<Change, AllocError>
    ensures { IfOk result (λ change. change ≡ spec.change_of other.now entry.now) }
{
    let was = match other.get(entry.0.as_str()) {
        Some(was) => Some(was.copied(alloc)?),
        None => None,
    };
    Ok(Change {
        name: entry.0.copied(alloc)?,
        now: Some(entry.1.copied(alloc)?),
        was,
    })
}

fn add_gone(
    alloc: Global,
    changes: &mut Items<Change>,
    entries: &[(Text, Text)],
    own: &Keyed<Text>,
) -> Result<(), AllocError>
    ensures { OnOk result (changes.new ≡ changes.old
        ++ map spec.gone_of (filter (spec.is_gone own.now) entries.now)) }
{
    for entry in entries {
        if is_gone(entry, own) {
            changes.push(gone_of(alloc, entry)?)?;
        }
    }
    Ok(())
}

fn gone_of(alloc: Global, entry: &(Text, Text)) -> Result<Change, AllocError>
    ensures { IfOk result (λ change. change ≡ spec.gone_of entry.now) }
{
    Ok(Change {
        name: entry.0.copied(alloc)?,
        now: None,
        was: Some(entry.1.copied(alloc)?),
    })
}

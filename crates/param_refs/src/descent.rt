//! From a value along the segments of a reference.
ghost use Rattle.std.specs.Prelude.{◌≡◌, Ok, Err, Bool, IfOk, IfErr, length, pos, slice_get};
ghost use Rattle.std.specs.Option.{option_copied};
ghost use Rattle.cwl_value.specs.declared.value.Value as value;
ghost use Rattle.cwl_value.specs.declared.value.Value.{out-Value};
ghost use Rattle.param_refs.specs.inner.Reached.{reached};
ghost use Rattle.param_refs.specs.Descent.{step, by_key, by_index, number_of, descent, has_outdir};
ghost use Rattle.param_refs.specs.Refused.{IsError};
ghost use Rattle.param_refs.specs.declared.fault.RefError.TheVariants.{OutOfMemory};

use crate::fault::{RefError, RefFault};
use crate::index::{character, index_of};
use crate::keys::{dir_value, file_value};
use crate::template::Segment;
use cwl_value::{Value, copy_fields};
use plain_data::{Items, Keyed, Text};
use std::alloc::Global;

/// The value that one reaches from a value along segments. Paths show where `with_places` says so.
#[tactic(auto, using(crate::proofs::Descents::descended, crate::proofs::Descents::stopped, crate::proofs::Descents::no_segments))]
pub(crate) fn descend(
    alloc: Global,
    value: &Value,
    segments: &[Segment],
    with_places: bool,
) -> Result<Value, RefError>
    ensures ok { IfOk result (λ found. descent with_places segments.now value.now ≡ Ok found) }
    ensures err { IfErr result (IsError (descent with_places segments.now value.now)) }
{
    if let Value::Text(text) = value {
        return descend_text(alloc, text, segments, with_places);
    }
    let Some((segment, rest)) = segments.split_first() else {
        return Ok(value.clone_in(alloc)?);
    };
    match step(alloc, value, segment, rest.is_empty(), with_places)? {
        Reached::Inside(inner) => descend(alloc, inner, rest, with_places),
        Reached::Made(inner) => {
            let found = descend(alloc, &inner, rest, with_places);
            drop(inner);
            found
        }
    }
}

/// The same from an object's fields on, which are lent without the value that they are.
#[tactic(auto, using(crate::proofs::Descents::descended, crate::proofs::Descents::stopped, crate::proofs::Descents::no_segments))]
pub(crate) fn descend_fields(
    alloc: Global,
    fields: &Keyed<Value>,
    segments: &[Segment],
    with_places: bool,
) -> Result<Value, RefError>
    ensures ok { IfOk result (λ found. descent with_places segments.now (value.Fields fields.now)
        ≡ Ok found) }
    ensures err { IfErr result
        (IsError (descent with_places segments.now (value.Fields fields.now))) }
{
    let Some((segment, rest)) = segments.split_first() else {
        return Ok(Value::Fields(copy_fields(alloc, fields)?));
    };
    match field(fields, segment) {
        Ok(inner) => descend(alloc, inner, rest, with_places),
        Err(fault) => Err(RefError::Refused(fault)),
    }
}

// The field that a segment leads to.
fn field<'v>(fields: &'v Keyed<Value>, segment: &Segment) -> Result<&'v Value, RefFault>
    ensures ok { IfOk result (λ found. (with_places is_last : Bool)
        → step with_places is_last segment.now (value.Fields fields.now) ≡ Ok found.now) }
    ensures err { IfErr result (λ fault. (with_places is_last : Bool)
        → step with_places is_last segment.now (value.Fields fields.now) ≡ Err fault) }
{
    let Segment::Key(key) = segment else {
        return Err(RefFault::WrongKind);
    };
    match fields.get(key.as_str()) {
        None => Err(RefFault::NoField),
        Some(inner) => Ok(inner),
    }
}

/// A value that a segment leads to: one inside the value that it leads from, or one of its own.
#[derive(Drop)]
pub(crate) enum Reached<'v> {
    Inside(&'v Value),
    Made(Value),
}

fn step<'v>(
    alloc: Global,
    value: &'v Value,
    segment: &Segment,
    is_last: bool,
    with_places: bool,
) -> Result<Reached<'v>, RefError>
    ensures ok { IfOk result (λ found. step with_places is_last segment.now value.now
        ≡ Ok (reached found)) }
    ensures err { IfErr result (IsError (step with_places is_last segment.now value.now)) }
{
    match segment {
        Segment::Key(key) => by_key(alloc, value, key.as_str(), is_last, with_places),
        Segment::Index(digits) => by_index(alloc, value, digits.as_str()),
    }
}

fn by_key<'v>(
    alloc: Global,
    value: &'v Value,
    key: &str,
    is_last: bool,
    with_places: bool,
) -> Result<Reached<'v>, RefError>
    ensures ok { IfOk result (λ found. by_key with_places is_last key.now (out-Value value.now)
        ≡ Ok (reached found)) }
    ensures err { IfErr result
        (IsError (by_key with_places is_last key.now (out-Value value.now))) }
{
    match value {
        Value::Fields(fields) => match fields.get(key) {
            None => Err(RefError::Refused(RefFault::NoField)),
            Some(inner) => Ok(Reached::Inside(inner)),
        },
        Value::FileVal(file) => match file_value(alloc, file, key, with_places)? {
            None => Err(RefError::Refused(RefFault::NoField)),
            Some(inner) => Ok(Reached::Made(inner)),
        },
        Value::DirVal(dir) => match dir_value(alloc, dir, key, with_places)? {
            None => Err(RefError::Refused(RefFault::NoField)),
            Some(inner) => Ok(Reached::Made(inner)),
        },
        Value::List(items) if is_last && key == "length" => {
            Ok(Reached::Made(length_of(items.as_items())?))
        }
        _ => Err(RefError::Refused(RefFault::WrongKind)),
    }
}

// No list is so long that its length is past an i64's greatest: that one would have no memory.
fn length_of(items: &Items<Value>) -> Result<Value, RefError>
    ensures ok { IfOk result (λ found. found ≡ value.Whole (pos (length items.now))) }
    ensures err { IfErr result (λ e. e ≡ OutOfMemory) }
{
    match i64::try_from(items.len()) {
        Ok(length) => Ok(Value::Whole(length)),
        Err(_) => Err(RefError::OutOfMemory),
    }
}

fn by_index<'v>(alloc: Global, value: &'v Value, digits: &str) -> Result<Reached<'v>, RefError>
    ensures ok { IfOk result (λ found. by_index (number_of digits.now) (out-Value value.now)
        ≡ Ok (reached found)) }
    ensures err { IfErr result (IsError (by_index (number_of digits.now) (out-Value value.now))) }
{
    match value {
        Value::List(items) => match item(items.as_items(), digits) {
            None => Err(RefError::Refused(RefFault::IndexOut)),
            Some(item) => Ok(Reached::Inside(item)),
        },
        Value::Text(text) => match character(alloc, text, digits)? {
            None => Err(RefError::Refused(RefFault::IndexOut)),
            Some(character) => Ok(Reached::Made(Value::Text(character))),
        },
        _ => Err(RefError::Refused(RefFault::WrongKind)),
    }
}

fn item<'v>(items: &'v Items<Value>, digits: &str) -> Option<&'v Value>
    ensures { option_copied result ≡ slice_get items.now (number_of digits.now) }
{
    let index = index_of(digits);
    if index < items.len() {
        items.get(index)
    } else {
        None
    }
}

// The same from a text on. A text has indexes alone, and each gives a text.
#[tactic(auto, using(crate::proofs::Descents::text_more, crate::proofs::Descents::text_key_stop, crate::proofs::Descents::text_past_stop))]
fn descend_text(
    alloc: Global,
    text: &Text,
    segments: &[Segment],
    with_places: bool,
) -> Result<Value, RefError>
    ensures ok { IfOk result (λ found. descent with_places segments.now (value.Text text.now)
        ≡ Ok found) }
    ensures err { IfErr result (IsError (descent with_places segments.now (value.Text text.now))) }
{
    let mut found = text.copied(alloc)?;
    for segment in segments {
        match segment {
            Segment::Key(_) => return Err(RefError::Refused(RefFault::WrongKind)),
            Segment::Index(digits) => match character(alloc, &found, digits.as_str())? {
                None => return Err(RefError::Refused(RefFault::IndexOut)),
                Some(character) => found = character,
            },
        }
    }
    Ok(Value::Text(found))
}

/// Whether references may see paths: where `runtime` has an `outdir`.
pub(crate) fn has_outdir(runtime: Option<&Value>) -> bool
    ensures { result ≡ has_outdir (option_copied runtime.entry) }
{
    match runtime {
        Some(Value::Fields(fields)) => fields.contains("outdir"),
        _ => false,
    }
}

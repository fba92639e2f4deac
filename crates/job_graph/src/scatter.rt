//! The tuples of a scattered step, and the inputs of each.
ghost use Rattle.std.specs.Prelude.{◌≡◌, ◌≢◌, [], Some, IfOk, OnOk, length, unwrap_or};
ghost use Rattle.std.specs.Option.{option_copied};
ghost use Rattle.plain_data.specs.ByName.{with_value};
ghost use Rattle.link_values.specs.StepInputs.{null};
ghost use Rattle.scatter_shape.specs.Tuples.{IsTaken};
ghost use Rattle.job_graph.specs.Scatter.{at_tuple, index_for, item_at, lengths_under, tuples_for};

use crate::cause::Cause;
use cwl_value::Value;
use plain_data::{Items, Keyed, Text};
use scatter_shape::{Method, ScatterError, ScatterFault, jobs_of};
use std::alloc::{AllocError, Global};

/// The lengths of the scattered inputs, each of which has to be a list.
pub(crate) fn lengths_under(
    alloc: Global,
    names: &[Text],
    fields: &Keyed<Value>,
) -> Result<Result<Items<usize>, Cause>, AllocError>
    ensures value { IfOk result (λ found. found ≡ lengths_under names.now fields.now) }
    ensures one_each { IfOk result (λ found. IfOk found (λ lengths. length lengths
        ≡ length names.now)) }
{
    let mut lengths = Items::new(alloc);
    for name in names {
        match fields.get(name.as_str()) {
            Some(Value::List(items)) => lengths.push(items.len())?,
            _ => return Ok(Err(Cause::Scatter(ScatterFault::NotAList))),
        }
    }
    Ok(Ok(lengths))
}

/// The tuples, or why there are none.
#[tactic(auto, using(crate::proofs::Tuples::taken_tuples, crate::proofs::Tuples::refused_tuples))]
pub(crate) fn tuples_for(
    alloc: Global,
    method: Method,
    lengths: &[usize],
) -> Result<Result<Items<Items<usize>>, Cause>, AllocError>
    requires { lengths.now ≢ [] }
    ensures value { IfOk result (λ found. found ≡ tuples_for method lengths.now) }
    ensures taken { IfOk result (λ found. OnOk found (IsTaken method lengths.now)) }
{
    match jobs_of(alloc, method, lengths) {
        Ok(tuples) => Ok(Ok(tuples)),
        Err(ScatterError::Refused(fault)) => Ok(Err(Cause::Scatter(fault))),
        Err(ScatterError::OutOfMemory) => Err(AllocError),
    }
}

/// The index that a tuple has for a name.
fn index_for(name: &str, names: &[Text], tuple: &[usize]) -> Option<usize>
    ensures { result ≡ index_for name.now names.now tuple.now }
{
    match names {
        [] => None,
        [scattered, others @ ..] => match tuple {
            [] => None,
            [index, rest @ ..] => {
                if name == scattered.as_str() {
                    return Some(*index);
                }
                index_for(name, others, rest)
            }
        },
    }
}

/// An item of a list.
fn item_in(value: &Value, index: usize) -> Option<&Value>
    ensures { unwrap_or (option_copied result) null ≡ item_at (Some index) value.now }
{
    match value {
        Value::List(items) => items.get(index),
        _ => None,
    }
}

/// An item of a list, or the whole value.
fn item_at(alloc: Global, index: Option<usize>, value: &Value) -> Result<Value, AllocError>
    ensures { IfOk result (λ found. found ≡ item_at index value.now) }
{
    let found = match index {
        None => Some(value),
        Some(index) => item_in(value, index),
    };
    match found {
        None => Ok(Value::Null),
        Some(found) => found.clone_in(alloc),
    }
}

/// The inputs at a tuple: each scattered one is its item there.
pub(crate) fn at_tuple(
    alloc: Global,
    names: &[Text],
    tuple: &[usize],
    fields: &Keyed<Value>,
) -> Result<Keyed<Value>, AllocError>
    ensures { IfOk result (λ found. found ≡ at_tuple names.now tuple.now fields.now) }
{
    let mut found = Keyed::new(alloc);
    for field in fields.as_slice() {
        let index = index_for(field.0.as_str(), names, tuple);
        let value = item_at(alloc, index, &field.1)?;
        put(alloc, &mut found, &field.0, value)?;
    }
    Ok(found)
}

/// Puts a value under a copy of a name.
fn put(alloc: Global, found: &mut Keyed<Value>, name: &Text, value: Value) -> Result<(), AllocError>
    ensures { OnOk result (found.new ≡ with_value name.now value found.old) }
{
    let name = name.copied(alloc)?;
    drop(found.insert(name, value)?);
    Ok(())
}

//! The values that are not null.

ghost use Rattle.std.specs.Prelude.{◌≡◌, Ok, IfOk, IfErr};
ghost use Rattle.std.specs.List.{filter};
ghost use Rattle.link_values.specs.Merged.{items_or_one};
ghost use Rattle.link_values.specs.Picked.{is_something, picked, the_first, the_only};
ghost use Rattle.link_values.specs.Refused.{IsError};

use crate::fault::{LinkError, LinkFault};
use cwl_process::Pick;
use cwl_value::{Value, items_by_value};
use plain_data::Items;
use std::alloc::{AllocError, Global};

/// What a pick takes of a value (CWL v1.2, Workflow, `pickValue`). A value that is no list counts as a list of one.
pub fn pick(alloc: Global, method: Option<Pick>, value: Value) -> Result<Value, LinkError>
    ensures value { IfOk result (λ found. picked method value ≡ Ok found) }
    ensures err { IfErr result (IsError (picked method value)) }
{
    let Some(method) = method else {
        return Ok(value);
    };
    let values = not_null(values_of(alloc, value)?);
    match method {
        Pick::AllNonNull => Ok(Value::of_items(Items::from_vec(values))),
        Pick::FirstNonNull => first(values),
        Pick::TheOnlyNonNull => only(values),
    }
}

fn not_null(values: Vec<Value>) -> Vec<Value>
    ensures { result.items ≡ filter is_something values.items }
{
    let mut values = values;
    values.retain(|value| !matches!(value, Value::Null));
    values
}

// The items of a list, or a value that is no list alone.
fn values_of(alloc: Global, value: Value) -> Result<Vec<Value>, AllocError>
    ensures { IfOk result (λ values. values.items ≡ items_or_one value) }
{
    match value {
        Value::List(items) => Ok(items_by_value(alloc, items)?.into_vec()),
        other => Ok(vec![in alloc; other]?),
    }
}

fn first(values: Vec<Value>) -> Result<Value, LinkError>
    ensures value { IfOk result (λ found. the_first values.items ≡ Ok found) }
    ensures err { IfErr result (IsError (the_first values.items)) }
{
    values
        .into_iter()
        .next()
        .ok_or(LinkError::Refused(LinkFault::NoneNonNull))
}

fn only(values: Vec<Value>) -> Result<Value, LinkError>
    ensures value { IfOk result (λ found. the_only values.items ≡ Ok found) }
    ensures err { IfErr result (IsError (the_only values.items)) }
{
    if values.len() > 1 {
        return Err(LinkError::Refused(LinkFault::SeveralNonNull));
    }
    first(values)
}

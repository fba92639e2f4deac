//! How many items each scattered input has.

ghost use Rattle.std.specs.Prelude.{◌≡◌, Some, map, IfOk, IfErr};
ghost use Rattle.scatter_shape.specs.Lengths.{list_length, IsNoLengths};

use crate::refusal::{ScatterError, ScatterFault};
use cwl_value::Value;
use plain_data::Items;
use std::alloc::Global;

/// The length of each value, all of which have to be lists (S2).
pub fn lengths_of(alloc: Global, values: &[Value]) -> Result<Items<usize>, ScatterError>
    ensures ok { IfOk result (λ lengths. map Some lengths ≡ map list_length values.now) }
    ensures err { IfErr result (IsNoLengths values.now) }
{
    let mut lengths = Items::new(alloc);
    for value in values {
        match value {
            Value::List(items) => lengths.push(items.len())?,
            _ => return Err(ScatterError::Refused(ScatterFault::NotAList)),
        }
    }
    Ok(lengths)
}

//! The limit of nesting.
ghost use Rattle.std.specs.Prelude.{◌≡◌};
ghost use Rattle.value_depth.specs.Limit as spec;

use crate::depth::{fields_within, nests_within};
use cwl_value::{MOST_NESTING, Value};
use plain_data::Keyed;

/// Checks that the JSON of a value nests no deeper than the limit.
pub fn is_within_limit(value: &Value) -> bool
    ensures { result ≡ spec.is_within_limit value.now }
{
    nests_within(value, MOST_NESTING)
}

/// Checks that the JSON of an object, values under their names, nests no deeper than the limit.
pub fn is_object_within_limit(fields: &Keyed<Value>) -> bool
    ensures { result ≡ spec.is_object_within_limit fields.now }
{
    fields_within(fields, MOST_NESTING - 1)
}

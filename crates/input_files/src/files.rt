//! The Files for which an input may ask for more.
ghost use Rattle.std.specs.Prelude.{◌≡◌};
ghost use Rattle.input_files.specs.Given as spec;

use cwl_value::Value;
use std::slice;

/// The values of a list, or the value itself.
pub(crate) fn items_of(value: &Value) -> &[Value]
    ensures { result.now ≡ spec.items_of value.now }
{
    match value {
        Value::List(items) => items.as_slice(),
        _ => slice::from_ref(value),
    }
}

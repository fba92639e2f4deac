//! The values of a tool's inputs, before anything is measured.
ghost use Rattle.std.specs.Prelude.{◌≡◌, unwrap_or};
ghost use Rattle.std.specs.Option.{option_copied};
ghost use Rattle.input_files.specs.Given as spec;

use cwl_process::{InputType, ToolInput};
use cwl_value::Value;
use plain_data::{Keyed, Text};
use type_check::fits;

/// The value of an input: the one that is given, or the default in place of null; none where neither is there.
pub(crate) fn input_value<'a>(
    given: &'a Keyed<Value>,
    input: &'a (Text, ToolInput),
) -> Option<&'a Value>
    ensures { unwrap_or (option_copied result) spec.null ≡ spec.input_value given.now input.now }
{
    match given.get(input.0.as_str()) {
        None | Some(Value::Null) => input.1.default.as_ref(),
        value => value,
    }
}

/// Whether a value is of an input's type.
pub(crate) fn fits_input(kind: &InputType, value: &Value) -> bool
    ensures { result ≡ spec.fits_input kind.now value.now }
{
    match kind {
        InputType::Stdin => matches!(value, Value::FileVal(_)),
        InputType::Members(members) => fits(value, members),
    }
}

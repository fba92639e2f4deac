//! Whether values hold files.
ghost use Rattle.std.specs.Prelude.{◌≡◌, map};
ghost use Rattle.run_rules.specs.Delivered.{has_file};
ghost use Rattle.cwl_value.specs.Fileless.{some_true};

use cwl_value::Value;
use plain_data::{Items, Keyed};

/// Whether a value is a File or Directory, or holds one at any depth.
#[cycle(holding)]
pub(crate) fn has_file(value: &Value) -> bool
    ensures { result ≡ has_file value.now }
{
    match value {
        Value::FileVal(_) | Value::DirVal(_) => true,
        Value::List(items) => items_have_file(items.as_items()),
        Value::Fields(fields) => fields_have_file(fields),
        _ => false,
    }
}

#[cycle(holding)]
fn items_have_file(values: &Items<Value>) -> bool
    ensures { result ≡ some_true (map has_file values.now) }
{
    for value in values.as_slice() {
        if has_file(value) {
            return true;
        }
    }
    false
}

#[cycle(holding)]
fn fields_have_file(fields: &Keyed<Value>) -> bool
    ensures { result ≡ some_true (map (λ field. has_file field.1) fields.now) }
{
    for field in fields.as_slice() {
        if has_file(&field.1) {
            return true;
        }
    }
    false
}

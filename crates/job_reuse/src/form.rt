//! What the types of values say of them.
ghost use Rattle.std.specs.Prelude.{[], unwrap_or};
ghost use Rattle.cwl_value.specs.Plain.{FitsWhole};
ghost use Rattle.job_reuse.specs.Form.{IsInForm, AreAllInForm, AreInForm};

use cwl_value::{DirVal, FileVal, Value};
use plain_data::{Items, Keyed};

/// Says of values by name what their types say, at any depth: each whole number has 64 bits, and fields are in the order of their
/// names, each once. It looks at each value and changes nothing. Contracts of who calls it know then that the values are in form,
/// as the law that outputs are kept asks (`collected_outputs_are_kept`).
#[cycle(form)]
pub fn in_form(fields: &Keyed<Value>)
    ensures { AreInForm fields.now }
{
    for field in fields.as_slice() {
        value_in_form(&field.1);
    }
}

#[cycle(form)]
fn value_in_form(value: &Value)
    ensures { IsInForm value.now }
{
    match value {
        Value::Null => {}
        Value::Bool(_flag) => {}
        Value::Whole(number) => whole_in_form(number),
        Value::Text(_text) => {}
        Value::FileVal(file) => file_in_form(file),
        Value::DirVal(dir) => dir_in_form(dir),
        Value::List(items) => items_in_form(items.as_items()),
        Value::Fields(fields) => in_form(fields),
    }
}

#[cycle(form)]
fn file_in_form(file: &FileVal)
    ensures { AreAllInForm file.now.secondary }
{
    items_in_form(&file.secondary);
}

#[cycle(form)]
fn dir_in_form(dir: &DirVal)
    ensures { AreAllInForm (unwrap_or dir.now.listing []) }
{
    match &dir.listing {
        None => {}
        Some(entries) => items_in_form(entries),
    }
}

#[cycle(form)]
fn items_in_form(items: &Items<Value>)
    ensures { AreAllInForm items.now }
{
    for item in items.as_slice() {
        value_in_form(item);
    }
}

fn whole_in_form(number: &i64)
    ensures { FitsWhole number.now }
{
    let _number = *number;
}

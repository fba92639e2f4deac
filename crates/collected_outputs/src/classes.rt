//! Fields that would be read back as Files or Directories.
ghost use Rattle.std.specs.Prelude.{◌≡◌, map};
ghost use Rattle.std.specs.List.{list_any};
ghost use Rattle.plain_data.specs.ByName.{map_values};
ghost use Rattle.cwl_value.specs.declared.value.Value as value;
ghost use Rattle.collected_outputs.specs.Readable as spec;

use cwl_value::{DirVal, FileVal, Value};
use plain_data::{Items, Keyed};

// Whether fields somewhere in the value have the class of a File or Directory.
#[cycle(classes)]
fn has_class(value: &Value) -> bool
    ensures { result ≡ spec.has_class value.now }
{
    match value {
        Value::FileVal(file) => file_has_class(file),
        Value::DirVal(dir) => dir_has_class(dir),
        Value::List(items) => items_have_class(items.as_items()),
        Value::Fields(fields) => object_has_class(fields),
        _ => false,
    }
}

#[cycle(classes)]
fn file_has_class(file: &FileVal) -> bool
    ensures { result ≡ spec.file_class file.now }
{
    items_have_class(&file.secondary)
}

#[cycle(classes)]
fn dir_has_class(dir: &DirVal) -> bool
    ensures { result ≡ spec.dir_class dir.now }
{
    match &dir.listing {
        None => false,
        Some(entries) => items_have_class(entries),
    }
}

#[cycle(classes)]
fn items_have_class(items: &Items<Value>) -> bool
    ensures { result ≡ spec.any_seen (map spec.seen items.now) }
{
    for item in items.as_slice() {
        if has_class(item) {
            return true;
        }
    }
    false
}

/// Checks whether the fields, or fields somewhere in them, have the class of a File or Directory.
#[cycle(classes)]
pub(crate) fn object_has_class(fields: &Keyed<Value>) -> bool
    ensures { result ≡ spec.has_class (value.Fields fields.now) }
{
    is_classed(fields) || fields_have_class(fields)
}

#[cycle(classes)]
fn fields_have_class(fields: &Keyed<Value>) -> bool
    ensures { result ≡ list_any (λ e. e.1.1) (map_values spec.seen fields.now) }
{
    for field in fields.as_slice() {
        if has_class(&field.1) {
            return true;
        }
    }
    false
}

fn is_classed(fields: &Keyed<Value>) -> bool
    ensures { result ≡ spec.is_classed (map_values spec.seen fields.now) }
{
    match fields.get("class") {
        None => false,
        Some(value) => is_class(value),
    }
}

fn is_class(value: &Value) -> bool
    ensures { result ≡ (spec.seen value.now).0 }
{
    match value {
        Value::Text(class) => class.as_str() == "File" || class.as_str() == "Directory",
        _ => false,
    }
}

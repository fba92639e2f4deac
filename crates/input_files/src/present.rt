//! Whether all Files and Directories of a measured value are there.
ghost use Rattle.std.specs.Prelude.{◌≡◌, map};
ghost use Rattle.plain_data.specs.ByName.{map_values};
ghost use Rattle.input_files.specs.Present as spec;

use cwl_value::{DirVal, FileVal, Place, Value};
use plain_data::{Items, Keyed};

/// Whether each File and Directory of a value as it was measured is there, at any depth.
#[cycle(present)]
pub(crate) fn is_present(value: &Value) -> bool
    ensures { result ≡ spec.is_present value.now }
{
    match value {
        Value::FileVal(file) => is_file_present(file),
        Value::DirVal(dir) => is_dir_present(dir),
        Value::List(items) => are_present(items.as_items()),
        Value::Fields(fields) => are_fields_present(fields),
        _ => true,
    }
}

#[cycle(present)]
fn is_file_present(file: &FileVal) -> bool
    ensures { result ≡ spec.is_file_present file.now }
{
    (is_made(&file.place) || file.checksum.is_some()) && are_present(&file.secondary)
}

fn is_dir_present(dir: &DirVal) -> bool
    ensures { result ≡ spec.is_dir_present dir.now }
{
    is_made(&dir.place) || dir.listing.is_some()
}

/// Whether all is there in each of the values.
#[cycle(present)]
pub(crate) fn are_present(items: &Items<Value>) -> bool
    ensures { result ≡ spec.all_true (map spec.is_present items.now) }
{
    for item in items.as_slice() {
        if !is_present(item) {
            return false;
        }
    }
    true
}

#[cycle(present)]
fn are_fields_present(fields: &Keyed<Value>) -> bool
    ensures { result ≡ spec.all_true (map (λ e. e.1) (map_values spec.is_present fields.now)) }
{
    for field in fields.as_slice() {
        if !is_present(&field.1) {
            return false;
        }
    }
    true
}

fn is_made(place: &Place) -> bool
    ensures { result ≡ spec.is_made place.now }
{
    matches!(place, Place::Made(_, _))
}

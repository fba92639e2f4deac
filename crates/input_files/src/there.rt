//! Whether all Files and Directories of a value are there.
ghost use Rattle.std.specs.Prelude.{◌≡◌, map};
ghost use Rattle.std.specs.Option.{option_copied};
ghost use Rattle.plain_data.specs.ByName.{map_values};
ghost use Rattle.input_files.specs.Measured as spec;
ghost use Rattle.input_files.specs.Present.{all_true};

use cwl_value::{DirVal, FileVal, Place, Value};
use plain_data::{Items, Keyed};
use staging::Measure;

/// Whether a file stands where each File of the value is, and a folder where each Directory is, at any depth.
#[cycle(there)]
pub(crate) fn is_there(measures: &Keyed<Measure>, value: &Value) -> bool
    ensures { result ≡ spec.is_there measures.now value.now }
{
    match value {
        Value::FileVal(file) => is_file_there(measures, file),
        Value::DirVal(dir) => is_dir_there(measures, dir),
        Value::List(items) => are_there(measures, items.as_items()),
        Value::Fields(fields) => are_fields_there(measures, fields),
        _ => true,
    }
}

#[cycle(there)]
fn is_file_there(measures: &Keyed<Measure>, file: &FileVal) -> bool
    ensures { result ≡ spec.is_file_there measures.now file.now }
{
    matches!(
        measure_at(measures, &file.place),
        Some(Measure::File { .. })
    ) && are_there(measures, &file.secondary)
}

#[cycle(there)]
fn is_dir_there(measures: &Keyed<Measure>, dir: &DirVal) -> bool
    ensures { result ≡ spec.is_dir_there measures.now dir.now }
{
    if !matches!(measure_at(measures, &dir.place), Some(Measure::Folder(_))) {
        return false;
    }
    match &dir.listing {
        None => true,
        Some(items) => are_there(measures, items),
    }
}

#[cycle(there)]
fn are_there(measures: &Keyed<Measure>, items: &Items<Value>) -> bool
    ensures { result ≡ all_true (map (spec.is_there measures.now) items.now) }
{
    for item in items.as_slice() {
        if !is_there(measures, item) {
            return false;
        }
    }
    true
}

#[cycle(there)]
fn are_fields_there(measures: &Keyed<Measure>, fields: &Keyed<Value>) -> bool
    ensures { result
        ≡ all_true (map (λ e. e.1) (map_values (spec.is_there measures.now) fields.now)) }
{
    for field in fields.as_slice() {
        if !is_there(measures, &field.1) {
            return false;
        }
    }
    true
}

/// What stands at a place; only paths are measured.
pub(crate) fn measure_at<'m>(measures: &'m Keyed<Measure>, place: &Place) -> Option<&'m Measure>
    ensures { option_copied result ≡ spec.measure_at measures.now place.now }
{
    match place {
        Place::Path(path) => measures.get(path.as_str()),
        _ => None,
    }
}

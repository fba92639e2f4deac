//! Whether values name files that are there.
ghost use Rattle.std.specs.Prelude.{◌≡◌, ◌&&◌, ◌==◌, false, map, is_some, bytes_eq};
ghost use Rattle.std.specs.Option.{option_map_or};
ghost use Rattle.plain_data.specs.ByName.{map_values};
ghost use Rattle.collected_outputs.specs.Checked.{every};
ghost use Rattle.collected_outputs.specs.Values.{checksum_of};
ghost use Rattle.job_reuse.specs.inner.Stands as spec;

use cwl_value::{DirVal, FileVal, Place, Value};
use plain_data::{Items, Keyed, Text};
use staging::Found;

#[cycle(stands)]
fn value_stands(index: &Keyed<Found>, value: &Value) -> bool
    ensures { result ≡ spec.all_stand_by index.now value.now }
{
    match value {
        Value::FileVal(file) => file_stands(index, file),
        Value::DirVal(dir) => dir_stands(index, dir),
        Value::List(items) => items_stand(index, items.as_items()),
        Value::Fields(fields) => fields_stand(index, fields),
        _ => true,
    }
}

#[cycle(stands)]
fn file_stands(index: &Keyed<Found>, file: &FileVal) -> bool
    ensures { result ≡ spec.file_stands index.now file.now }
{
    is_file(index, file) && items_stand(index, &file.secondary)
}

#[cycle(stands)]
fn dir_stands(index: &Keyed<Found>, dir: &DirVal) -> bool
    ensures { result ≡ spec.dir_stands index.now dir.now }
{
    if !is_dir(index, dir) {
        return false;
    }
    match &dir.listing {
        None => true,
        Some(entries) => items_stand(index, entries),
    }
}

#[cycle(stands)]
fn items_stand(index: &Keyed<Found>, items: &Items<Value>) -> bool
    ensures { result ≡ every (map (spec.all_stand_by index.now) items.now) }
{
    for item in items.as_slice() {
        if !value_stands(index, item) {
            return false;
        }
    }
    true
}

/// Checks that each File and Directory of the values has a basename and is one of the files, a File in size and sum too.
#[cycle(stands)]
pub(crate) fn fields_stand(index: &Keyed<Found>, fields: &Keyed<Value>) -> bool
    ensures { result
        ≡ every (map (λ e. e.1) (map_values (spec.all_stand_by index.now) fields.now)) }
{
    for field in fields.as_slice() {
        if !value_stands(index, &field.1) {
            return false;
        }
    }
    true
}

fn is_file(index: &Keyed<Found>, file: &FileVal) -> bool
    ensures { result ≡ (is_some file.now.basename
        && spec.file_at index.now file.now.size file.now.checksum file.now.place) }
{
    file.basename.is_some() && file_at(index, file)
}

fn file_at(index: &Keyed<Found>, file: &FileVal) -> bool
    ensures { result
        ≡ spec.file_at index.now file.now.size file.now.checksum file.now.place }
{
    match &file.place {
        Place::Url(name) => match index.get(name.as_str()) {
            None => false,
            Some(found) => has_sum(found, file),
        },
        _ => false,
    }
}

fn has_sum(found: &Found, file: &FileVal) -> bool
    ensures { result ≡ spec.has_sum file.now.size file.now.checksum found.now }
{
    !found.is_dir && is_size(file.size, found.size) && is_checksum(&file.checksum, &found.sum)
}

fn is_size(size: Option<u64>, bytes: u64) -> bool
    ensures { result ≡ option_map_or (λ n. n == bytes) size false }
{
    match size {
        None => false,
        Some(size) => size == bytes,
    }
}

fn is_checksum(checksum: &Option<Text>, sum: &Text) -> bool
    ensures { result ≡ option_map_or (bytes_eq (checksum_of sum.now)) checksum.now false }
{
    match checksum {
        None => false,
        Some(text) => match text.as_str().strip_prefix("sha1$") {
            None => false,
            Some(rest) => rest == sum.as_str(),
        },
    }
}

fn is_dir(index: &Keyed<Found>, dir: &DirVal) -> bool
    ensures { result ≡ (is_some dir.now.basename && spec.folder_at index.now dir.now.place) }
{
    dir.basename.is_some() && folder_at(index, &dir.place)
}

fn folder_at(index: &Keyed<Found>, place: &Place) -> bool
    ensures { result ≡ spec.folder_at index.now place.now }
{
    match place {
        Place::Url(name) => folder_named(index, name.as_str()),
        _ => false,
    }
}

// `.` is the output folder itself.
fn folder_named(index: &Keyed<Found>, name: &str) -> bool
    ensures { result ≡ spec.folder_named index.now name.now }
{
    if name == "." {
        return true;
    }
    match index.get(name) {
        None => false,
        Some(found) => found.is_dir,
    }
}

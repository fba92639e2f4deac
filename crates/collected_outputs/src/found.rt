//! Whether values hold only what was found.
ghost use Rattle.std.specs.Prelude.{◌≡◌, map};
ghost use Rattle.std.specs.List.{list_all};
ghost use Rattle.plain_data.specs.ByName.{map_values};
ghost use Rattle.collected_outputs.specs.Checked as spec;

use crate::listing::Entry;
use cwl_value::{DirVal, FileVal, Place, Value};
use plain_data::{Items, Keyed};

/// Checks that each File and Directory of a value is one of the output folder's.
#[cycle(found)]
pub(crate) fn all_found(listing: &Keyed<Entry>, value: &Value) -> bool
    ensures { result ≡ spec.all_found listing.now value.now }
{
    match value {
        Value::FileVal(file) => file_found(listing, file),
        Value::DirVal(dir) => dir_found(listing, dir),
        Value::List(items) => items_found(listing, items.as_items()),
        Value::Fields(fields) => fields_found(listing, fields),
        _ => true,
    }
}

#[cycle(found)]
fn file_found(listing: &Keyed<Entry>, file: &FileVal) -> bool
    ensures { result ≡ spec.file_found listing.now file.now }
{
    is_found(listing, &file.place, false) && items_found(listing, &file.secondary)
}

#[cycle(found)]
fn dir_found(listing: &Keyed<Entry>, dir: &DirVal) -> bool
    ensures { result ≡ spec.dir_found listing.now dir.now }
{
    if !is_found(listing, &dir.place, true) {
        return false;
    }
    match &dir.listing {
        None => true,
        Some(entries) => items_found(listing, entries),
    }
}

#[cycle(found)]
fn items_found(listing: &Keyed<Entry>, items: &Items<Value>) -> bool
    ensures { result ≡ spec.every (map (spec.all_found listing.now) items.now) }
{
    for item in items.as_slice() {
        if !all_found(listing, item) {
            return false;
        }
    }
    true
}

#[cycle(found)]
fn fields_found(listing: &Keyed<Entry>, fields: &Keyed<Value>) -> bool
    ensures { result
        ≡ spec.every (map (λ e. e.1) (map_values (spec.all_found listing.now) fields.now)) }
{
    for field in fields.as_slice() {
        if !all_found(listing, &field.1) {
            return false;
        }
    }
    true
}

// Whether something of this kind stands at the place. `.` is the folder itself.
fn is_found(listing: &Keyed<Entry>, place: &Place, is_dir: bool) -> bool
    ensures { result ≡ spec.is_found listing.now place.now is_dir }
{
    match place {
        Place::Url(name) => is_named(listing, name.as_str(), is_dir),
        _ => false,
    }
}

fn is_named(listing: &Keyed<Entry>, name: &str, is_dir: bool) -> bool
    ensures { result ≡ spec.is_named listing.now name.now is_dir }
{
    if name == "." {
        return is_dir;
    }
    match listing.get(name) {
        None => false,
        Some(entry) => { if is_dir { entry.is_dir } else { !entry.is_dir } }
    }
}

//! Where a place is too long for `url`.
ghost use Rattle.std.specs.Prelude.{◌≡◌, map};
ghost use Rattle.plain_data.specs.ByName.{map_values};
ghost use Rattle.cwl_value.specs.Fileless.{some_true};
ghost use Rattle.file_values.specs.Location as location;
ghost use Rattle.file_values.specs.Resolved as spec;

use crate::joining::is_long;
use cwl_value::{DirVal, FileVal, Place, Value};
use plain_data::{Items, Keyed};
use url::Url;

/// Whether some place in the value is too long.
#[cycle(places)]
pub(crate) fn has_long(base: &Url, value: &Value) -> bool
    ensures { result ≡ spec.has_long base.now value.now }
{
    match value {
        Value::FileVal(file) => file_has_long(base, file),
        Value::DirVal(dir) => dir_has_long(base, dir),
        Value::List(items) => items_have_long(base, items.as_items()),
        Value::Fields(fields) => fields_have_long(base, fields),
        Value::Null | Value::Bool(_) | Value::Whole(_) | Value::Text(_) => false,
    }
}

#[cycle(places)]
fn file_has_long(base: &Url, file: &FileVal) -> bool
    ensures { result ≡ spec.file_has_long base.now file.now }
{
    is_long_place(base, &file.place) || items_have_long(base, &file.secondary)
}

#[cycle(places)]
fn dir_has_long(base: &Url, dir: &DirVal) -> bool
    ensures { result ≡ spec.dir_has_long base.now dir.now }
{
    is_long_place(base, &dir.place)
        || match &dir.listing {
            None => false,
            Some(items) => items_have_long(base, items),
        }
}

#[cycle(places)]
fn items_have_long(base: &Url, items: &Items<Value>) -> bool
    ensures { result ≡ some_true (map (spec.has_long base.now) items.now) }
{
    for item in items.as_slice() {
        if has_long(base, item) {
            return true;
        }
    }
    false
}

#[cycle(places)]
fn fields_have_long(base: &Url, fields: &Keyed<Value>) -> bool
    ensures { result
        ≡ some_true (map (λ e. e.1) (map_values (spec.has_long base.now) fields.now)) }
{
    for field in fields.as_slice() {
        if has_long(base, &field.1) {
            return true;
        }
    }
    false
}

fn is_long_place(base: &Url, place: &Place) -> bool
    ensures { result ≡ spec.is_long_place base.now place.now }
{
    match place {
        Place::Url(location) => is_long_text(base, location.as_str()),
        Place::Path(_) => is_long_text(base, "."),
        Place::Nowhere | Place::Made(_, _) => false,
    }
}

#[tactic(auto, unfolding(crate::specs::Urls::url_text))]
fn is_long_text(base: &Url, text: &str) -> bool
    ensures { result ≡ location.is_long base.now text.now }
{
    is_long(base, text)
}

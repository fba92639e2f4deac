//! Whether values are the same.
ghost use Rattle.std.specs.Prelude.{◌≡◌, ◌≢◌, ◌↔◌, IsTrue};

use cwl_value::{DirVal, FileVal, JobPlace, Place, Segment, Value};
use job_rows::Row;
use plain_data::{Items, Keyed, Text};

/// Checks whether a job's outputs differ from those of its row: in names or values, or in the places of Files and Directories,
/// which are their names below the job's folder.
pub fn differs(row: &Row, outputs: &Keyed<Value>) -> bool
    ensures { IsTrue result ↔ (row.now.outputs ≢ outputs.now) }
{
    !same_fields(&row.outputs, outputs)
}

#[cycle(same)]
fn same_value(one: &Value, other: &Value) -> bool
    ensures { IsTrue result ↔ (one.now ≡ other.now) }
{
    match one {
        Value::Null => matches!(other, Value::Null),
        Value::Bool(flag) => match other {
            Value::Bool(that) => *flag == *that,
            _ => false,
        },
        Value::Whole(number) => match other {
            Value::Whole(that) => *number == *that,
            _ => false,
        },
        Value::Text(text) => match other {
            Value::Text(that) => text.equals(that),
            _ => false,
        },
        Value::FileVal(file) => match other {
            Value::FileVal(that) => same_file(file, that),
            _ => false,
        },
        Value::DirVal(dir) => match other {
            Value::DirVal(that) => same_dir(dir, that),
            _ => false,
        },
        Value::List(items) => match other {
            Value::List(those) => same_items(items.as_items(), those.as_items()),
            _ => false,
        },
        Value::Fields(fields) => match other {
            Value::Fields(those) => same_fields(fields, those),
            _ => false,
        },
    }
}

#[cycle(same)]
fn same_file(one: &FileVal, other: &FileVal) -> bool
    ensures { IsTrue result ↔ (one.now ≡ other.now) }
{
    same_place(&one.place, &other.place)
        && same_text(&one.basename, &other.basename)
        && same_text(&one.checksum, &other.checksum)
        && one.size == other.size
        && same_text(&one.contents, &other.contents)
        && same_items(&one.secondary, &other.secondary)
}

#[cycle(same)]
fn same_dir(one: &DirVal, other: &DirVal) -> bool
    ensures { IsTrue result ↔ (one.now ≡ other.now) }
{
    if !same_place(&one.place, &other.place) || !same_text(&one.basename, &other.basename) {
        return false;
    }
    match &one.listing {
        None => other.listing.is_none(),
        Some(items) => match &other.listing {
            None => false,
            Some(those) => same_items(items, those),
        },
    }
}

#[cycle(same)]
fn same_items(one: &Items<Value>, other: &Items<Value>) -> bool
    ensures { IsTrue result ↔ (one.now ≡ other.now) }
{
    let those = other.as_slice();
    for (index, item) in one.as_slice().iter().enumerate() {
        match those.get(index) {
            None => return false,
            Some(that) => {
                if !same_value(item, that) {
                    return false;
                }
            }
        }
    }
    one.len() == other.len()
}

#[cycle(same)]
fn same_fields(one: &Keyed<Value>, other: &Keyed<Value>) -> bool
    ensures { IsTrue result ↔ (one.now ≡ other.now) }
{
    let those = other.as_slice();
    for (index, field) in one.as_slice().iter().enumerate() {
        match those.get(index) {
            None => return false,
            Some(that) => {
                if !field.0.equals(&that.0) || !same_value(&field.1, &that.1) {
                    return false;
                }
            }
        }
    }
    one.len() == other.len()
}

fn same_text(one: &Option<Text>, other: &Option<Text>) -> bool
    ensures { IsTrue result ↔ (one.now ≡ other.now) }
{
    match one {
        None => other.is_none(),
        Some(text) => match other {
            None => false,
            Some(that) => text.equals(that),
        },
    }
}

fn same_place(one: &Place, other: &Place) -> bool
    ensures { IsTrue result ↔ (one.now ≡ other.now) }
{
    match one {
        Place::Nowhere => matches!(other, Place::Nowhere),
        Place::Url(location) => match other {
            Place::Url(that) => location.equals(that),
            _ => false,
        },
        Place::Path(path) => match other {
            Place::Path(that) => path.equals(that),
            _ => false,
        },
        Place::Made(job, name) => match other {
            Place::Made(that, other_name) => same_job(job, that) && name.equals(other_name),
            _ => false,
        },
    }
}

fn same_job(one: &JobPlace, other: &JobPlace) -> bool
    ensures { IsTrue result ↔ (one.now ≡ other.now) }
{
    let those = other.as_slice();
    for (index, segment) in one.as_slice().iter().enumerate() {
        match those.get(index) {
            None => return false,
            Some(that) => {
                if !same_segment(segment, that) {
                    return false;
                }
            }
        }
    }
    one.len() == other.len()
}

fn same_segment(one: &Segment, other: &Segment) -> bool
    ensures { IsTrue result ↔ (one.now ≡ other.now) }
{
    one.step.equals(&other.step) && one.index == other.index
}

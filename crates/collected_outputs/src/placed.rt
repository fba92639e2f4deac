//! The values of `cwl.output.json`, with each File and Directory as it was found.
ghost use Rattle.std.specs.Prelude.{◌≡◌, ◌&&◌, Ok, Some, IfOk, IfErr, OnOk, None, map, true};
ghost use Rattle.plain_data.specs.ByName.{map_values};
ghost use Rattle.cwl_value.specs.Secondary.{is_new, are_distinct};
ghost use Rattle.collected_outputs.specs.Gives.{Refuses, all_given};
ghost use Rattle.collected_outputs.specs.Object as spec;
ghost use Rattle.collected_outputs.specs.Values.{value_under};
ghost use Rattle.staging.specs.Reading.{body};

use crate::fault::{CollectFault, Stop};
use crate::listing::Entry;
use crate::values::{basename_of, push_value};
use cwl_value::{DirVal, FileVal, Place, Value, is_taken, names_differ};
use plain_data::{Items, Keyed, Text};
use std::alloc::{AllocError, Global};

/// A value of the object, with each File and Directory as it was found.
#[cycle(placed)]
pub(crate) fn placed(alloc: Global, listing: &Keyed<Entry>, value: &Value) -> Result<Value, Stop>
    ensures ok { IfOk result (λ v. spec.placed listing.now value.now ≡ Ok v) }
    ensures err { IfErr result (Refuses (spec.placed listing.now value.now)) }
{
    match value {
        Value::FileVal(file) => Ok(Value::FileVal(placed_file(alloc, listing, file)?)),
        Value::DirVal(dir) => Ok(Value::DirVal(placed_dir(alloc, listing, dir)?)),
        Value::List(items) => Ok(Value::of_items(placed_items(alloc, listing, items.as_items())?)),
        Value::Fields(fields) => Ok(Value::Fields(placed_fields(alloc, listing, fields)?)),
        other => Ok(other.clone_in(alloc)?),
    }
}

#[cycle(placed)]
fn placed_items(
    alloc: Global,
    listing: &Keyed<Entry>,
    items: &Items<Value>,
) -> Result<Items<Value>, Stop>
    ensures ok { IfOk result (λ vs. all_given (map (spec.placed listing.now) items.now) ≡ Ok vs) }
    ensures err { IfErr result (Refuses (all_given (map (spec.placed listing.now) items.now))) }
{
    let mut found = Items::new(alloc);
    for item in items.as_slice() {
        found.push(placed(alloc, listing, item)?)?;
    }
    Ok(found)
}

#[cycle(placed)]
fn placed_fields(
    alloc: Global,
    listing: &Keyed<Entry>,
    fields: &Keyed<Value>,
) -> Result<Keyed<Value>, Stop>
    ensures ok { IfOk result (λ es. spec.all_named (map_values (spec.placed listing.now) fields.now)
        ≡ Ok es) }
    ensures err { IfErr result
        (Refuses (spec.all_named (map_values (spec.placed listing.now) fields.now))) }
{
    let mut found = Vec::new(alloc);
    for field in fields.as_slice() {
        let name = field.0.copied(alloc)?;
        found.push((name, placed(alloc, listing, &field.1)?))?;
    }
    Ok(Keyed::from_sorted(found))
}

#[cycle(placed)]
fn placed_file(alloc: Global, listing: &Keyed<Entry>, file: &FileVal) -> Result<FileVal, Stop>
    ensures ok { IfOk result (λ f. spec.file_placed listing.now file.now ≡ Ok f) }
    ensures err { IfErr result (Refuses (spec.file_placed listing.now file.now)) }
{
    let name = relative_name(&file.place)?;
    let beside = placed_items(alloc, listing, &file.secondary)?;
    let basename = named(alloc, &file.basename, name)?;
    file_apart(alloc, listing, name, basename, beside)
}

// The File, where the names of those beside it differ.
fn file_apart(
    alloc: Global,
    listing: &Keyed<Entry>,
    name: &str,
    basename: Text,
    beside: Items<Value>,
) -> Result<FileVal, Stop>
    ensures ok { IfOk result (λ f. spec.file_apart listing.now name.now basename beside ≡ Ok f) }
    ensures err { IfErr result (Refuses (spec.file_apart listing.now name.now basename beside)) }
{
    if !are_apart(alloc, &basename, beside.as_slice())? {
        return Err(Stop::Refused(CollectFault::BadOutputObject));
    }
    let mut file = file_under(alloc, listing, name)?;
    file.basename = Some(basename);
    file.secondary = beside;
    Ok(file)
}

fn are_apart(alloc: Global, basename: &Text, beside: &[Value]) -> Result<bool, AllocError>
    ensures { IfOk result (λ apart. apart
        ≡ (is_new (Some basename.now) beside.now && are_distinct beside.now)) }
{
    if is_taken(basename, beside) {
        return Ok(false);
    }
    names_differ(alloc, beside)
}

#[cycle(placed)]
fn placed_dir(alloc: Global, listing: &Keyed<Entry>, dir: &DirVal) -> Result<DirVal, Stop>
    ensures ok { IfOk result (λ d. spec.dir_placed listing.now dir.now ≡ Ok d) }
    ensures err { IfErr result (Refuses (spec.dir_placed listing.now dir.now)) }
{
    let name = relative_name(&dir.place)?;
    if let Some(entries) = &dir.listing {
        let read = placed_items(alloc, listing, entries)?;
        check_apart(alloc, read)?;
    }
    dir_named(alloc, listing, name, &dir.basename)
}

// The Directory that was found under the name, with the basename that is written.
fn dir_named(
    alloc: Global,
    listing: &Keyed<Entry>,
    name: &str,
    basename: &Option<Text>,
) -> Result<DirVal, Stop>
    ensures ok { IfOk result (λ d. spec.dir_of (spec.named basename.now name.now)
        (value_under listing.now name.now) ≡ Ok d) }
    ensures err { IfErr result
        (Refuses (spec.dir_of (spec.named basename.now name.now)
        (value_under listing.now name.now))) }
{
    let basename = named(alloc, basename, name)?;
    let mut dir = dir_under(alloc, listing, name)?;
    dir.basename = Some(basename);
    Ok(dir)
}

// What is written as in a Directory has names that differ.
fn check_apart(alloc: Global, values: Items<Value>) -> Result<(), Stop>
    ensures ok { OnOk result (are_distinct values ≡ true) }
    ensures err { IfErr result (Refuses (spec.apart values)) }
{
    let apart = names_differ(alloc, values.as_slice());
    drop(values);
    if apart? {
        Ok(())
    } else {
        Err(Stop::Refused(CollectFault::BadOutputObject))
    }
}

fn file_under(alloc: Global, listing: &Keyed<Entry>, name: &str) -> Result<FileVal, Stop>
    ensures ok { IfOk result (λ f. spec.file_in (value_under listing.now name.now) ≡ Ok f) }
    ensures err { IfErr result (Refuses (spec.file_in (value_under listing.now name.now))) }
{
    match value_at(alloc, listing, name)? {
        Some(Value::FileVal(file)) => Ok(file),
        other => {
            drop(other);
            Err(Stop::Refused(CollectFault::NameOutside))
        }
    }
}

fn dir_under(alloc: Global, listing: &Keyed<Entry>, name: &str) -> Result<DirVal, Stop>
    ensures ok { IfOk result (λ d. spec.dir_in (value_under listing.now name.now) ≡ Ok d) }
    ensures err { IfErr result (Refuses (spec.dir_in (value_under listing.now name.now))) }
{
    match value_at(alloc, listing, name)? {
        Some(Value::DirVal(dir)) => Ok(dir),
        other => {
            drop(other);
            Err(Stop::Refused(CollectFault::NameOutside))
        }
    }
}

fn value_at(alloc: Global, listing: &Keyed<Entry>, name: &str) -> Result<Option<Value>, AllocError>
    ensures { IfOk result (λ v. v ≡ value_under listing.now name.now) }
{
    let mut found = Items::new(alloc);
    push_value(alloc, listing, name, &mut found)?;
    Ok(found.pop())
}

// The basename as it is written, or that of the name.
fn named(alloc: Global, basename: &Option<Text>, name: &str) -> Result<Text, AllocError>
    ensures { IfOk result (λ text. text ≡ spec.named basename.now name.now) }
{
    match basename {
        Some(basename) => basename.copied(alloc),
        None => named_by(alloc, name),
    }
}

fn named_by(alloc: Global, name: &str) -> Result<Text, AllocError>
    ensures { IfOk result (λ text. text ≡ spec.named None name.now) }
{
    if name == "." {
        Text::from_text(alloc, "out")
    } else {
        Text::from_text(alloc, basename_of(name))
    }
}

// The name below the output folder, without `./` before it and a slash behind it.
fn relative_name(place: &Place) -> Result<&str, Stop>
    ensures ok { IfOk result (λ name. spec.relative_name place.now ≡ Ok name.now) }
    ensures err { IfErr result (Refuses (spec.relative_name place.now)) }
{
    match place {
        Place::Url(location) => Ok(trimmed(location.as_str())),
        Place::Path(path) => Ok(trimmed(path.as_str())),
        _ => Err(Stop::Refused(CollectFault::NameOutside)),
    }
}

fn trimmed(written: &str) -> &str
    ensures { result.now ≡ spec.without_last_slash (body written.now) }
{
    let name = without_front(written);
    match name.strip_suffix('/') {
        Some(rest) => rest,
        None => name,
    }
}

fn without_front(written: &str) -> &str
    ensures { result.now ≡ body written.now }
{
    match written.strip_prefix("./") {
        Some(rest) if !rest.is_empty() => rest,
        _ => written,
    }
}

//! The Files and Directories of an output folder, as values.
ghost use Rattle.std.specs.Prelude.{◌≡◌, ◌++◌, Some, codes, IfOk, OnOk};
ghost use Rattle.std.specs.Option.{option_to_list};
ghost use Rattle.cwl_value.specs.declared.value.Value as value;
ghost use Rattle.collected_outputs.specs.Values as spec;

use crate::listing::Entry;
use cwl_value::{DirVal, FileVal, Place, Value};
use plain_data::{Items, Keyed, Text};
use std::alloc::{AllocError, Global};

/// The values of the names, in their order.
pub(crate) fn values_of(
    alloc: Global,
    listing: &Keyed<Entry>,
    names: &[Text],
) -> Result<Items<Value>, AllocError>
    ensures { IfOk result (λ values. values ≡ spec.values_of listing.now names.now) }
{
    let mut values = Items::new(alloc);
    for name in names {
        push_value(alloc, listing, name.as_str(), &mut values)?;
    }
    Ok(values)
}

/// Adds the value of what stands under the name, and nothing where nothing does.
pub(crate) fn push_value(
    alloc: Global,
    listing: &Keyed<Entry>,
    name: &str,
    values: &mut Items<Value>,
) -> Result<(), AllocError>
    ensures { OnOk result (values.new ≡ values.old
        ++ option_to_list (spec.value_under listing.now name.now)) }
{
    if name == "." {
        return values.push(folder_value(alloc, listing)?);
    }
    match listing.get(name) {
        None => Ok(()),
        Some(entry) => values.push(entry_value(alloc, listing, listing.len(), name, entry)?),
    }
}

// The output folder itself.
fn folder_value(alloc: Global, listing: &Keyed<Entry>) -> Result<Value, AllocError>
    ensures { IfOk result (λ v. Some v ≡ spec.value_under listing.now (codes ".")) }
{
    let inside = values_in(alloc, listing, listing.len(), "")?;
    Ok(Value::DirVal(DirVal {
        place: Place::Url(Text::from_text(alloc, ".")?),
        basename: Some(Text::from_text(alloc, "out")?),
        listing: Some(inside),
    }))
}

// A File, or a Directory with all that stands in it to this depth.
#[cycle(values)]
fn entry_value(
    alloc: Global,
    listing: &Keyed<Entry>,
    depth: usize,
    name: &str,
    entry: &Entry,
) -> Result<Value, AllocError>
    ensures { IfOk result (λ v. v ≡ spec.entry_value (spec.values_in listing.now depth) name.now
        entry.now) }
{
    if entry.is_dir {
        let inside = values_in(alloc, listing, depth, name)?;
        Ok(Value::DirVal(dir_value(alloc, name, inside)?))
    } else {
        Ok(Value::FileVal(file_value(alloc, name, entry)?))
    }
}

#[cycle(values)]
fn values_in(
    alloc: Global,
    listing: &Keyed<Entry>,
    depth: usize,
    folder: &str,
) -> Result<Items<Value>, AllocError>
    ensures { IfOk result (λ values. values ≡ spec.values_in listing.now depth folder.now) }
{
    let mut values = Items::new(alloc);
    if depth == 0 {
        return Ok(values);
    }
    for entry in listing.as_slice() {
        if stands_in(folder, entry.0.as_str()) {
            values.push(entry_value(alloc, listing, depth - 1, entry.0.as_str(), &entry.1)?)?;
        }
    }
    Ok(values)
}

fn dir_value(alloc: Global, name: &str, inside: Items<Value>) -> Result<DirVal, AllocError>
    ensures { IfOk result (λ d. d ≡ spec.dir_at name.now (spec.basename_of name.now) inside) }
{
    let basename = Text::from_text(alloc, basename_of(name))?;
    Ok(DirVal {
        place: Place::Url(Text::from_text(alloc, name)?),
        basename: Some(basename),
        listing: Some(inside),
    })
}

// The File of a name.
fn file_value(alloc: Global, name: &str, entry: &Entry) -> Result<FileVal, AllocError>
    ensures { IfOk result (λ f. f ≡ spec.file_at name.now entry.now) }
{
    let basename = Text::from_text(alloc, basename_of(name))?;
    let checksum = checksum_of(alloc, &entry.sum)?;
    Ok(FileVal {
        place: Place::Url(Text::from_text(alloc, name)?),
        basename: Some(basename),
        checksum: Some(checksum),
        size: Some(entry.size),
        contents: None,
        secondary: Items::new(alloc),
    })
}

fn checksum_of(alloc: Global, sum: &Text) -> Result<Text, AllocError>
    ensures { IfOk result (λ text. text ≡ spec.checksum_of sum.now) }
{
    let sum = sum.as_str();
    Ok(Text::from_string(format!(in alloc; "sha1${sum}")?))
}

/// The last component of a name.
pub(crate) fn basename_of(name: &str) -> &str
    ensures { result.now ≡ spec.basename_of name.now }
{
    match name.rfind('/') {
        Some(at) => &name[at + 1..],
        None => name,
    }
}

// Whether a name stands in a folder, and not deeper.
fn stands_in(folder: &str, name: &str) -> bool
    ensures { result ≡ spec.stands_in folder.now name.now }
{
    match name.rfind('/') {
        Some(at) => &name[..at] == folder,
        None => folder.is_empty(),
    }
}

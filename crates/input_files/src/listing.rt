//! What stands below a measured folder, as values.
ghost use Rattle.std.specs.Prelude.{◌≡◌, ◌++◌, ◌∷◌, [], IfOk, OnOk};
ghost use Rattle.input_files.specs.Listing as spec;
ghost use Rattle.input_files.specs.inner.Folders.{IsByFolder};

use crate::grouped::Grouped;
use crate::names::{front_of, last_of, path_below};
use cwl_value::{DirVal, FileVal, Place, Value};
use plain_data::{Items, Text};
use staging::Found;
use std::alloc::{AllocError, Global};

/// The Directory at a path, with what stands in it.
pub(crate) fn measured_dir(
    alloc: Global,
    path: &str,
    name: &str,
    listing: Items<Value>,
) -> Result<Value, AllocError>
    ensures { IfOk result (λ v. v ≡ spec.measured_dir path.now name.now listing) }
{
    let basename = Text::from_text(alloc, name)?;
    Ok(Value::DirVal(DirVal {
        place: Place::Path(Text::from_text(alloc, path)?),
        basename: Some(basename),
        listing: Some(listing),
    }))
}

/// The File at a path, of this size and sum.
pub(crate) fn measured_file(
    alloc: Global,
    path: &str,
    name: &str,
    size: u64,
    sum: &Text,
) -> Result<Value, AllocError>
    ensures { IfOk result (λ v. v ≡ spec.measured_file path.now name.now size sum.now) }
{
    let basename = Text::from_text(alloc, name)?;
    let checksum = checksum_of(alloc, sum)?;
    Ok(Value::FileVal(FileVal {
        place: Place::Path(Text::from_text(alloc, path)?),
        basename: Some(basename),
        checksum: Some(checksum),
        size: Some(size),
        contents: None,
        secondary: Items::new(alloc),
    }))
}

/// The text of a sum in a value.
pub(crate) fn checksum_of(alloc: Global, sum: &Text) -> Result<Text, AllocError>
    ensures { IfOk result (λ text. text ≡ spec.checksum_of sum.now) }
{
    let sum = sum.as_str();
    Ok(Text::from_string(format!(in alloc; "sha1${sum}")?))
}

/// What stands in a measured folder, and in the folders of it.
pub(crate) fn values_below(
    alloc: Global,
    root: &str,
    listing: &Items<Found>,
) -> Result<Items<Value>, AllocError>
    ensures { IfOk result (λ values. values ≡ spec.values_below root.now listing.now) }
{
    let by_folder = by_folder(alloc, listing.as_slice())?;
    let values = values_in(
        alloc,
        root,
        listing.as_slice(),
        &by_folder,
        listing.len(),
        "",
    );
    drop(by_folder);
    values
}

// The entries by the folder that each stands in.
fn by_folder<'l>(alloc: Global, listing: &'l [Found]) -> Result<Grouped<'l, &'l Found>, AllocError>
    ensures { IfOk result (λ grouped. IsByFolder grouped listing.now) }
{
    let mut grouped = Grouped::new(alloc);
    for found in listing {
        grouped.add(alloc, front_of(found.name.as_str()), found)?;
    }
    Ok(grouped)
}

// What stands in a folder, to this depth.
#[cycle(values)]
fn values_in(
    alloc: Global,
    root: &str,
    listing: &[Found],
    by_folder: &Grouped<'_, &Found>,
    depth: usize,
    folder: &str,
) -> Result<Items<Value>, AllocError>
    requires { IsByFolder by_folder.now listing.now }
    ensures { IfOk result (λ values. values
        ≡ spec.values_in root.now listing.now depth folder.now) }
{
    let mut values = Items::new(alloc);
    if depth == 0 {
        return Ok(values);
    }
    for found in by_folder.under(folder) {
        values.push(found_value(alloc, root, listing, by_folder, depth - 1, found)?)?;
    }
    Ok(values)
}

// A File, or a Directory with all that stands in it to this depth.
#[cycle(values)]
fn found_value(
    alloc: Global,
    root: &str,
    listing: &[Found],
    by_folder: &Grouped<'_, &Found>,
    depth: usize,
    found: &Found,
) -> Result<Value, AllocError>
    requires { IsByFolder by_folder.now listing.now }
    ensures { IfOk result (λ v. v
        ≡ spec.found_value root.now (spec.values_in root.now listing.now depth) found.now) }
{
    let path = path_below(alloc, root, found.name.as_str())?;
    let name = last_of(found.name.as_str());
    if found.is_dir {
        let inside = values_in(alloc, root, listing, by_folder, depth, found.name.as_str())?;
        measured_dir(alloc, path.as_str(), name, inside)
    } else {
        measured_file(alloc, path.as_str(), name, found.size, &found.sum)
    }
}

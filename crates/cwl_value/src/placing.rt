//! Copies of values whose files are elsewhere.
ghost use Rattle.std.specs.Prelude.{◌≡◌, IfOk, map};
ghost use Rattle.cwl_value.specs.Placed.{dir_value_moved, fields_moved, file_value_moved, value_moved};

use crate::copy::copy_texts;
use crate::fileless::holds_files;
use crate::place::Place;
use crate::value::{DirVal, FileVal, Value};
use plain_data::{Items, Keyed, copied_if_any};
use std::alloc::{AllocError, Global};

/// Where what is at a place goes.
pub trait Placing {
    ghost use Rattle.std.specs.Prelude.{◌≡◌, IfOk};
    ghost use Rattle.cwl_value.specs.declared.place.Place.{Place as PlaceOf};

    ghost goes: { Self → PlaceOf → PlaceOf };

    /// The place that is in this one's stead.
    fn place(&self, alloc: Global, place: &Place) -> Result<Place, AllocError>
        ensures { IfOk result (λ found. found ≡ goes self.now place.now) };
}

/// The value with each File and Directory in it, at any depth, at the place where it goes. A list without any is shared as `clone_in` shares it.
#[cycle(placing)]
pub fn placed<P: Placing>(alloc: Global, placing: &P, value: &Value) -> Result<Value, AllocError>
    ensures { IfOk result (λ found. found ≡ value_moved (P.goes placing.now) value.now) }
{
    match value {
        Value::FileVal(file) => Ok(Value::FileVal(placed_file(alloc, placing, file)?)),
        Value::DirVal(dir) => Ok(Value::DirVal(placed_dir(alloc, placing, dir)?)),
        Value::List(_) if !holds_files(value) => value.clone_in(alloc),
        Value::List(items) => {
            Ok(Value::of_items(placed_items(alloc, placing, items.as_items())?))
        }
        Value::Fields(fields) => Ok(Value::Fields(placed_fields(alloc, placing, fields)?)),
        _ => value.clone_in(alloc),
    }
}

#[cycle(placing)]
fn placed_file<P: Placing>(
    alloc: Global,
    placing: &P,
    file: &FileVal,
) -> Result<FileVal, AllocError>
    ensures { IfOk result (λ found. found ≡ file_value_moved (P.goes placing.now) file.now) }
{
    let secondary = placed_items(alloc, placing, &file.secondary)?;
    let place = placing.place(alloc, &file.place)?;
    let (basename, checksum, contents) = copy_texts(
        alloc,
        &file.basename,
        &file.checksum,
        &file.contents,
    )?;
    Ok(FileVal {
        place,
        basename,
        checksum,
        size: file.size,
        contents,
        secondary,
    })
}

#[cycle(placing)]
fn placed_dir<P: Placing>(alloc: Global, placing: &P, dir: &DirVal) -> Result<DirVal, AllocError>
    ensures { IfOk result (λ found. found ≡ dir_value_moved (P.goes placing.now) dir.now) }
{
    let basename = copied_if_any(alloc, &dir.basename)?;
    let place = placing.place(alloc, &dir.place)?;
    let listing = match &dir.listing {
        None => None,
        Some(items) => Some(placed_items(alloc, placing, items)?),
    };
    Ok(DirVal {
        place,
        basename,
        listing,
    })
}

#[cycle(placing)]
fn placed_items<P: Placing>(
    alloc: Global,
    placing: &P,
    items: &Items<Value>,
) -> Result<Items<Value>, AllocError>
    ensures { IfOk result (λ found. found ≡ map (value_moved (P.goes placing.now)) items.now) }
{
    let mut found = Items::from_vec(Vec::with_capacity(alloc, items.len())?);
    for item in items.as_slice() {
        found.push(placed(alloc, placing, item)?)?;
    }
    Ok(found)
}

/// The fields with each File and Directory in them at the place where it goes.
#[cycle(placing)]
pub fn placed_fields<P: Placing>(
    alloc: Global,
    placing: &P,
    fields: &Keyed<Value>,
) -> Result<Keyed<Value>, AllocError>
    ensures { IfOk result (λ found. found ≡ fields_moved (P.goes placing.now) fields.now) }
{
    let mut found = Vec::with_capacity(alloc, fields.len())?;
    for field in fields.as_slice() {
        let name = field.0.copied(alloc)?;
        found.push((name, placed(alloc, placing, &field.1)?))?;
    }
    Ok(Keyed::from_sorted(found))
}

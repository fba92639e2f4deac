//! Values without the contents of their Files.
ghost use Rattle.std.specs.Prelude.{◌≡◌, None, IfOk, map};
ghost use Rattle.plain_data.specs.ByName.{map_values};
ghost use Rattle.cwl_value.specs.declared.value.FileVal.{out-FileVal, roll-FileVal};
ghost use Rattle.collected_outputs.specs.Checked as spec;

use cwl_value::{DirVal, FileVal, Value};
use plain_data::{Items, Keyed, Text, copied_if_any};
use std::alloc::{AllocError, Global};

/// The value, with no contents in it.
#[cycle(bare)]
pub(crate) fn bare(alloc: Global, value: &Value) -> Result<Value, AllocError>
    ensures { IfOk result (λ found. found ≡ spec.bare value.now) }
{
    match value {
        Value::FileVal(file) => Ok(Value::FileVal(bare_file(alloc, file)?)),
        Value::DirVal(dir) => Ok(Value::DirVal(bare_dir(alloc, dir)?)),
        Value::List(items) => Ok(Value::of_items(bare_items(alloc, items.as_items())?)),
        Value::Fields(fields) => Ok(Value::Fields(bare_fields(alloc, fields)?)),
        other => other.clone_in(alloc),
    }
}

#[cycle(bare)]
fn bare_items(alloc: Global, items: &Items<Value>) -> Result<Items<Value>, AllocError>
    ensures { IfOk result (λ found. found ≡ map spec.bare items.now) }
{
    let mut found = Items::new(alloc);
    for item in items.as_slice() {
        found.push(bare(alloc, item)?)?;
    }
    Ok(found)
}

#[cycle(bare)]
fn bare_fields(alloc: Global, fields: &Keyed<Value>) -> Result<Keyed<Value>, AllocError>
    ensures { IfOk result (λ found. found ≡ map_values spec.bare fields.now) }
{
    let mut found = Vec::new(alloc);
    for field in fields.as_slice() {
        let name = field.0.copied(alloc)?;
        found.push((name, bare(alloc, &field.1)?))?;
    }
    Ok(Keyed::from_sorted(found))
}

#[cycle(bare)]
fn bare_file(alloc: Global, file: &FileVal) -> Result<FileVal, AllocError>
    ensures { IfOk result (λ found. found ≡ spec.file_bare file.now) }
{
    let secondary = bare_items(alloc, &file.secondary)?;
    file_with(alloc, file, secondary)
}

// The File without contents, beside these.
fn file_with(alloc: Global, file: &FileVal, secondary: Items<Value>) -> Result<FileVal, AllocError>
    ensures { IfOk result (λ found. found
        ≡ roll-FileVal (record (out-FileVal file.now) { contents = None; secondary = secondary })) }
{
    let place = file.place.clone_in(alloc)?;
    let basename = copied_if_any(alloc, &file.basename)?;
    let checksum = copied_if_any(alloc, &file.checksum)?;
    Ok(FileVal {
        place,
        basename,
        checksum,
        size: file.size,
        contents: None,
        secondary,
    })
}

#[cycle(bare)]
fn bare_dir(alloc: Global, dir: &DirVal) -> Result<DirVal, AllocError>
    ensures { IfOk result (λ found. found ≡ spec.dir_bare dir.now) }
{
    let place = dir.place.clone_in(alloc)?;
    let basename = copied_if_any(alloc, &dir.basename)?;
    match &dir.listing {
        None => Ok(DirVal {
            place,
            basename,
            listing: None,
        }),
        Some(entries) => {
            let listing = bare_items(alloc, entries)?;
            Ok(DirVal {
                place,
                basename,
                listing: Some(listing),
            })
        }
    }
}

//! The files that a File has to carry.
ghost use Rattle.std.specs.Prelude.{◌≡◌, IfOk};
ghost use Rattle.std.specs.List.{list_any};
ghost use Rattle.input_files.specs.Carried as spec;

use crate::beside::{carries, name_beside};
use crate::files::items_of;
use cwl_process::SecondaryFile;
use cwl_value::{FileVal, Place, Value};
use std::alloc::{AllocError, Global};

/// Whether a File of the value does not carry a file that it has to.
pub(crate) fn lacks_carried(
    alloc: Global,
    declared: &[SecondaryFile],
    value: &Value,
) -> Result<bool, AllocError>
    ensures { IfOk result (λ lacks. lacks ≡ spec.lacks_carried declared.now value.now) }
{
    for item in items_of(value) {
        if let Value::FileVal(file) = item {
            if file_lacks(alloc, declared, file)? {
                return Ok(true);
            }
        }
    }
    Ok(false)
}

fn file_lacks(alloc: Global, declared: &[SecondaryFile], file: &FileVal) -> Result<bool, AllocError>
    ensures { IfOk result (λ lacks. lacks ≡ list_any (spec.is_uncarried file.now) declared.now) }
{
    for one in declared {
        if is_uncarried(alloc, file, one)? {
            return Ok(true);
        }
    }
    Ok(false)
}

fn is_uncarried(alloc: Global, file: &FileVal, declared: &SecondaryFile) -> Result<bool, AllocError>
    ensures { IfOk result (λ lacks. lacks ≡ spec.is_uncarried file.now declared.now) }
{
    if !declared.required {
        return Ok(false);
    }
    let name = name_beside(alloc, file, place_text(&file.place), declared)?;
    Ok(!carries(file, &name))
}

// The text that ends with a file's name.
fn place_text(place: &Place) -> &str
    ensures { result.now ≡ spec.place_text place.now }
{
    match place {
        Place::Nowhere => "",
        Place::Url(text) | Place::Path(text) | Place::Made(_, text) => text.as_str(),
    }
}

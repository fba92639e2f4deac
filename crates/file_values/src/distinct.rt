//! Whether names differ, of values whose names are filled in.
ghost use Rattle.std.specs.Prelude.{◌≡◌, false, Ok, IfOk, IfErr};
ghost use Rattle.file_values.specs.Location.{Refuses};
ghost use Rattle.file_values.specs.Resolved as spec;

use crate::refusal::{FileError, FileFault};
use cwl_value::{Value, is_taken, names_differ};
use plain_data::{Items, Text};
use std::alloc::{AllocError, Global};

/// The values, where their names differ from this one and from each other.
pub(crate) fn distinct_beside(
    alloc: Global,
    name: &Text,
    values: Items<Value>,
) -> Result<Items<Value>, FileError>
    ensures ok { IfOk result (λ vs. spec.distinct_beside name.now values ≡ Ok vs) }
    ensures err { IfErr result (Refuses (spec.distinct_beside name.now values) false) }
{
    if differ_beside(alloc, name, values.as_slice())? {
        Ok(values)
    } else {
        drop(values);
        Err(FileError::Refused(FileFault::NotAFileUrl))
    }
}

/// The values, where their names differ.
pub(crate) fn distinct_inside(
    alloc: Global,
    values: Items<Value>,
) -> Result<Items<Value>, FileError>
    ensures ok { IfOk result (λ vs. spec.distinct_inside values ≡ Ok vs) }
    ensures err { IfErr result (Refuses (spec.distinct_inside values) false) }
{
    if names_differ(alloc, values.as_slice())? {
        Ok(values)
    } else {
        drop(values);
        Err(FileError::Refused(FileFault::NotAFileUrl))
    }
}

fn differ_beside(alloc: Global, name: &Text, values: &[Value]) -> Result<bool, AllocError>
    ensures { IfOk result (λ differ. differ ≡ spec.differ_beside name.now values.now) }
{
    Ok(!is_taken(name, values) && names_differ(alloc, values)?)
}

//! Whether names differ, of Files and Directories.
ghost use Rattle.std.specs.Prelude.{◌≡◌, IfOk};
ghost use Rattle.std.specs.List.{list_any};
ghost use Rattle.std.specs.Option.{option_copied};
ghost use Rattle.cwl_value.specs.Secondary.{name_of, has_name, are_distinct};

use crate::value::Value;
use plain_data::Text;
use std::alloc::{AllocError, Global};
use std::collections::BTreeSet;

/// Whether the names of the values differ. A value without a name differs from each.
pub fn names_differ(alloc: Global, values: &[Value]) -> Result<bool, AllocError>
    ensures { IfOk result (λ differ. differ ≡ are_distinct values.now) }
{
    let mut seen = BTreeSet::new(alloc);
    // From the end on: names differ where the first is new to those after it, and these differ.
    let mut at = values.len();
    while at > 0 {
        at -= 1;
        if let Some(name) = name_of(&values[at]) {
            if !seen.insert(name.as_str())? {
                return Ok(false);
            }
        }
    }
    Ok(true)
}

/// Whether one of the values has this name.
pub fn is_taken(name: &Text, values: &[Value]) -> bool
    ensures { result ≡ list_any (has_name name.now) values.now }
{
    values.iter().any(|value| is_named(name, value))
}

fn is_named(name: &Text, value: &Value) -> bool
    ensures { result ≡ has_name name.now value.now }
{
    match name_of(value) {
        None => false,
        Some(found) => name.equals(found),
    }
}

fn name_of(value: &Value) -> Option<&Text>
    ensures { option_copied result ≡ name_of value.now }
{
    match value {
        Value::FileVal(file) => file.basename.as_ref(),
        Value::DirVal(dir) => dir.basename.as_ref(),
        _ => None,
    }
}

//! Which hint counts at a process or step.
ghost use Rattle.std.specs.Prelude.{◌≡◌, None, IfOk, map, option_map};
ghost use Rattle.cwl_process.specs.Acting.{last_of};
ghost use Rattle.cwl_process.specs.Simple.{value_seen};
ghost use Rattle.document_table.specs.Entries.{entry_seen};
ghost use Rattle.resource_hints.specs.Hints.{asked_in, own_hint};
ghost use Rattle.serde_json.specs.View.{view};

use crate::amounts::{Resources, resources_in};
use document_table::{Kind, entries};
use serde_json::Value;
use std::alloc::{AllocError, Global};

/// Returns what is asked for in a process or step: by its own hint, or else around it.
pub(crate) fn asked_in(
    alloc: Global,
    around: Option<Resources>,
    value: &Value,
) -> Result<Option<Resources>, AllocError>
    ensures { IfOk result (λ asked. asked ≡ asked_in around (view value.now)) }
{
    match own_hint(alloc, value)? {
        Some(own) => Ok(Some(own)),
        None => Ok(around),
    }
}

fn own_hint(alloc: Global, value: &Value) -> Result<Option<Resources>, AllocError>
    ensures { IfOk result (λ own. own ≡ own_hint (view value.now)) }
{
    let Some(hints) = value.get("hints") else {
        return Ok(None);
    };
    let all = entries(alloc, Kind::PlainRequirement, hints)?;
    match last_of("ResourceRequirement", all.as_slice()) {
        None => Ok(None),
        Some(hint) => Ok(Some(resources_in(hint))),
    }
}

// Of several of one class the last counts, as of those that act on jobs.
fn last_of<'v>(class: &str, all: &[(&'v str, &'v Value)]) -> Option<&'v Value>
    ensures { option_map value_seen result ≡ last_of class.now None (map entry_seen all.now) }
{
    let mut last = None;
    for entry in all {
        if entry.0 == class {
            last = Some(entry.1);
        }
    }
    last
}

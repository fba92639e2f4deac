//! Which values are outputs.
ghost use Rattle.std.specs.Prelude.{◌≡◌, Ok, IfOk, IfErr};
ghost use Rattle.cwl_value.specs.declared.value.Value.{out-Value};
ghost use Rattle.collected_outputs.specs.Checked.{is_file_level, is_typed};
ghost use Rattle.collected_outputs.specs.Gives.{Refuses};
ghost use Rattle.collected_outputs.specs.Outputs as spec;

use crate::bare::bare;
use crate::fault::{CollectFault, Stop};
use crate::found::all_found;
use crate::listing::Entry;
use cwl_process::OutputType;
use cwl_value::Value;
use plain_data::Keyed;
use std::alloc::Global;
use type_check::fits;

/// The value without contents, where it fits the type and holds only what was found.
pub(crate) fn checked(
    alloc: Global,
    listing: &Keyed<Entry>,
    kind: &OutputType,
    value: &Value,
) -> Result<Value, Stop>
    ensures ok { IfOk result (λ v. spec.checked listing.now kind.now value.now ≡ Ok v) }
    ensures err { IfErr result (Refuses (spec.checked listing.now kind.now value.now)) }
{
    if !is_typed(value, kind) {
        return Err(Stop::Refused(CollectFault::NotTyped));
    }
    if !all_found(listing, value) {
        return Err(Stop::Refused(CollectFault::NameOutside));
    }
    Ok(bare(alloc, value)?)
}

fn is_typed(value: &Value, kind: &OutputType) -> bool
    ensures { result ≡ is_typed kind.now value.now }
{
    match kind {
        OutputType::Members(members) => fits(value, members),
        _ => is_file(value),
    }
}

fn is_file(value: &Value) -> bool
    ensures { result ≡ is_file_level (out-Value value.now) }
{
    matches!(value, Value::FileVal(_))
}

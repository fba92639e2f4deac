//! The outputs that `cwl.output.json` gives.
ghost use Rattle.std.specs.Prelude.{◌≡◌, [], Ok, IfOk, IfErr, OnOk};
ghost use Rattle.plain_data.specs.ByName.{value_at, with_value};
ghost use Rattle.collected_outputs.specs.Collected as spec;
ghost use Rattle.collected_outputs.specs.Gives.{Refuses};
ghost use Rattle.collected_outputs.specs.Object as by_file;
ghost use Rattle.collected_outputs.specs.inner.Steps.{error_at};
ghost use Rattle.collected_outputs.specs.inner.Written.{Faults, error_of};

use crate::checked::checked;
use crate::fault::{CollectError, OutputFault, Stop};
use crate::listing::Entry;
use crate::object::object_of;
use crate::placed::placed;
use cwl_process::{Tool, ToolOutput};
use cwl_value::Value;
use plain_data::{Items, Keyed, Text};
use std::alloc::{AllocError, Global};

/// The outputs, by the file that has them all.
pub(crate) fn from_object(
    alloc: Global,
    tool: &Tool,
    listing: &Keyed<Entry>,
    heads: &Keyed<Items<u8>>,
    entry: &Entry,
) -> Result<Keyed<Value>, CollectError>
    ensures ok { IfOk result (λ values. spec.by_object listing.now tool.now.outputs
        (by_file.object_of entry.now heads.now) ≡ Ok values) }
    ensures err { IfErr result
        (Faults
        (spec.by_object listing.now tool.now.outputs (by_file.object_of entry.now heads.now))) }
{
    match object_of(alloc, entry, heads) {
        Err(stop) => Err(whole(stop)),
        Ok(object) => {
            let values = written_values(alloc, tool.outputs.as_slice(), listing, &object);
            drop(object);
            values
        }
    }
}

fn written_values(
    alloc: Global,
    outputs: &[(Text, ToolOutput)],
    listing: &Keyed<Entry>,
    object: &Keyed<Value>,
) -> Result<Keyed<Value>, CollectError>
    ensures ok { IfOk result (λ values. spec.written_after listing.now object.now [] outputs.now
        ≡ Ok values) }
    ensures err { IfErr result (Faults (spec.written_after listing.now object.now [] outputs.now)) }
{
    let mut values = Keyed::new(alloc);
    for output in outputs {
        put_written(alloc, output, listing, object, &mut values)?;
    }
    Ok(values)
}

fn put_written(
    alloc: Global,
    output: &(Text, ToolOutput),
    listing: &Keyed<Entry>,
    object: &Keyed<Value>,
    values: &mut Keyed<Value>,
) -> Result<(), CollectError>
    ensures ok { OnOk result
        (spec.with_output output.now.0 (spec.written_value listing.now object.now output.now)
        values.old ≡ Ok values.new) }
    ensures err { IfErr result
        (Faults
        (spec.with_output output.now.0 (spec.written_value listing.now object.now output.now)
        values.old)) }
{
    match written_value(alloc, output, listing, object) {
        Ok(value) => Ok(put_output(alloc, &output.0, value, values)?),
        Err(stop) => Err(at_output(alloc, &output.0, stop)?),
    }
}

/// Puts the value of an output under its name.
pub(crate) fn put_output(
    alloc: Global,
    id: &Text,
    value: Value,
    outputs: &mut Keyed<Value>,
) -> Result<(), AllocError>
    ensures { OnOk result (outputs.new ≡ with_value id.now value outputs.old) }
{
    let before = outputs.insert(id.copied(alloc)?, value)?;
    drop(before);
    Ok(())
}

// The value that the object has for an output, or null.
fn written_value(
    alloc: Global,
    output: &(Text, ToolOutput),
    listing: &Keyed<Entry>,
    object: &Keyed<Value>,
) -> Result<Value, Stop>
    ensures ok { IfOk result (λ v. spec.written_value listing.now object.now output.now ≡ Ok v) }
    ensures err { IfErr result (Refuses (spec.written_value listing.now object.now output.now)) }
{
    let value = written(alloc, listing, object, output.0.as_str())?;
    let checked = checked(alloc, listing, &output.1.kind, &value);
    drop(value);
    checked
}

fn written(
    alloc: Global,
    listing: &Keyed<Entry>,
    object: &Keyed<Value>,
    id: &str,
) -> Result<Value, Stop>
    ensures ok { IfOk result (λ v. by_file.written listing.now (value_at id.now object.now)
        ≡ Ok v) }
    ensures err { IfErr result
        (Refuses (by_file.written listing.now (value_at id.now object.now))) }
{
    match object.get(id) {
        None => Ok(Value::Null),
        Some(value) => placed(alloc, listing, value),
    }
}

/// The fault, with the output that it is met at.
pub(crate) fn at_output(alloc: Global, id: &Text, stop: Stop) -> Result<CollectError, AllocError>
    ensures { IfOk result (λ e. e ≡ error_at id.now stop) }
{
    match stop {
        Stop::Refused(fault) => Ok(CollectError::Refused(OutputFault {
            output: Some(id.copied(alloc)?),
            fault,
        })),
        Stop::OutOfMemory => Ok(CollectError::OutOfMemory),
    }
}

/// The fault, of the output object as a whole.
pub(crate) fn whole(stop: Stop) -> CollectError
    ensures { result ≡ error_of stop }
{
    match stop {
        Stop::Refused(fault) => CollectError::Refused(OutputFault {
            output: None,
            fault,
        }),
        Stop::OutOfMemory => CollectError::OutOfMemory,
    }
}

//! `cwl.output.json`: the output object, as the command wrote it (CWL v1.2, "Output binding").
ghost use Rattle.std.specs.Prelude.{◌≡◌, Ok, Some, IfOk, IfErr};
ghost use Rattle.cwl_value.specs.declared.value.Value.{out-Value};
ghost use Rattle.collected_outputs.specs.Gives.{Refuses};
ghost use Rattle.collected_outputs.specs.Object as spec;
ghost use Rattle.collected_outputs.specs.inner.Written.{stop_of};

use crate::fault::{CollectFault, Stop};
use crate::listing::Entry;
use cwl_value::{Value, ValueRefusal, read_value};
use plain_data::{Items, Keyed};
use std::alloc::Global;

/// The name of the file that is the whole output object where it is found.
pub const OUTPUT_OBJECT: &str = "cwl.output.json";

/// The most bytes that it has.
pub const MOST_OBJECT: u64 = 1_048_576;

/// The values that the file has, by name.
pub(crate) fn object_of(
    alloc: Global,
    entry: &Entry,
    heads: &Keyed<Items<u8>>,
) -> Result<Keyed<Value>, Stop>
    ensures ok { IfOk result (λ fields. spec.object_of entry.now heads.now ≡ Ok fields) }
    ensures err { IfErr result (Refuses (spec.object_of entry.now heads.now)) }
{
    if entry.size > MOST_OBJECT {
        return Err(Stop::Refused(CollectFault::BadOutputObject));
    }
    match heads.get(OUTPUT_OBJECT) {
        None => Err(Stop::Refused(CollectFault::BadOutputObject)),
        Some(bytes) => read_fields(alloc, bytes.as_slice()),
    }
}

fn read_fields(alloc: Global, bytes: &[u8]) -> Result<Keyed<Value>, Stop>
    ensures ok { IfOk result (λ fields. spec.fields_of (Some bytes.now) ≡ Ok fields) }
    ensures err { IfErr result (Refuses (spec.fields_of (Some bytes.now))) }
{
    match read_value(alloc, bytes) {
        Ok(value) => fields_in(value),
        Err(refusal) => Err(stop_of(refusal)),
    }
}

fn stop_of(refusal: ValueRefusal) -> Stop
    ensures { result ≡ stop_of refusal }
{
    match refusal {
        ValueRefusal::OutOfMemory => Stop::OutOfMemory,
        _ => Stop::Refused(CollectFault::BadOutputObject),
    }
}

fn fields_in(value: Value) -> Result<Keyed<Value>, Stop>
    ensures ok { IfOk result (λ fields. spec.fields_level (out-Value value) ≡ Ok fields) }
    ensures err { IfErr result (Refuses (spec.fields_level (out-Value value))) }
{
    match value {
        Value::Fields(fields) => Ok(fields),
        other => {
            drop(other);
            Err(Stop::Refused(CollectFault::BadOutputObject))
        }
    }
}

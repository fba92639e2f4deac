//! The input object of a run.
ghost use Rattle.std.specs.Prelude.{◌≡◌, ◌≢◌, ℕ, List, IfOk, IfErr, OnErr, Ok, Err};
ghost use Rattle.cwl_value.specs.Texts.{ReadsAs};
ghost use Rattle.cwl_value.specs.declared.refusal.ValueRefusal.TheVariants.{OutOfMemory};
ghost use Rattle.run_given.specs.Sources.{IsInputs, IsInputsStop};
ghost use Rattle.run_given.specs.Stops.{IsStop};

use crate::stop::Stop;
use cwl_value::{Value, ValueRefusal, read_value};
use end_words::{Exit, Fault, Refusal};
use file_values::{FileError, resolve};
use plain_data::Keyed;
use std::alloc::Global;
use std::mem;
use url::Url;

/// The input object that the bytes of a file at a URL have, each of its files at a path.
pub fn inputs_at(alloc: Global, bytes: &[u8], base: &Url) -> Result<Keyed<Value>, Stop>
    ensures ok { IfOk result (IsInputs bytes.now base.now) }
    ensures err { IfErr result (IsStop (IsInputsStop bytes.now base.now)) }
{
    match read_value(alloc, bytes) {
        Ok(value) => located(alloc, bytes, value, base),
        Err(refusal) => Err(refused(bytes, base, refusal)),
    }
}

fn refused(_bytes: &[u8], _base: &Url, refusal: ValueRefusal) -> Stop
    requires { refusal ≢ OutOfMemory → ReadsAs _bytes.now (Err refusal) }
    ensures { IsStop (IsInputsStop _bytes.now _base.now) result }
{
    match refusal {
        ValueRefusal::OutOfMemory => Stop::OutOfMemory,
        refusal => Stop::Early(Exit::Refused(Refusal::Inputs(refusal))),
    }
}

fn located(alloc: Global, _bytes: &[u8], value: Value, base: &Url) -> Result<Keyed<Value>, Stop>
    requires { ReadsAs _bytes.now (Ok value) }
    ensures ok { IfOk result (IsInputs _bytes.now base.now) }
    ensures err { IfErr result (IsStop (IsInputsStop _bytes.now base.now)) }
{
    match resolve(alloc, value, base) {
        Ok(value) => object_in(value),
        Err(FileError::Refused(fault)) => Err(Stop::Early(Exit::Refused(Refusal::Location(fault)))),
        Err(FileError::OutOfMemory) => Err(Stop::OutOfMemory),
    }
}

fn object_in(value: Value) -> Result<Keyed<Value>, Stop>
    ensures ok { IfOk result (λ inputs. value ≡ Value.Fields inputs) }
    ensures err { IfErr result (λ stop. stop ≡ Stop.Early (Exit.Fault Fault.NoObject)) }
    ensures other { OnErr result ((inputs : List (List ℕ × Value)) → value ≢ Value.Fields inputs) }
{
    match value {
        Value::Fields(inputs) => Ok(inputs),
        other => {
            mem::drop(other);
            Err(Stop::Early(Exit::Fault(Fault::NoObject)))
        }
    }
}

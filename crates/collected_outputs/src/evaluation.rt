//! The values of references in an output's binding.
ghost use Rattle.std.specs.Prelude.{◌≡◌, Ok, IfOk, IfErr};
ghost use Rattle.collected_outputs.specs.Gives.{Refuses};
ghost use Rattle.collected_outputs.specs.Patterns as spec;

use crate::fault::{CollectFault, Stop};
use cwl_value::Value;
use param_refs::{Context, RefError, Template};
use plain_data::{Keyed, Text};
use std::alloc::{AllocError, Global};

/// What the references of outputs speak of, but for `self`.
#[derive(Clone, Copy, Drop)]
pub(crate) struct Speaks<'a> {
    pub(crate) inputs: &'a Keyed<Value>,
    pub(crate) runtime: &'a Value,
}

/// `runtime` without the folders, whose paths no output sees.
pub(crate) fn runtime_of(alloc: Global) -> Result<Value, AllocError>
    ensures { IfOk result (λ v. v ≡ spec.runtime) }
{
    let mut runtime = Keyed::new(alloc);
    drop(runtime.insert(Text::from_text(alloc, "cores")?, Value::Whole(1))?);
    Ok(Value::Fields(runtime))
}

/// The value of a text, where `self` is this.
pub(crate) fn value_in(template: &Template, speaks: Speaks<'_>, own: &Value) -> Result<Value, Stop>
    ensures ok { IfOk result (λ v. spec.value_in speaks.entry.inputs.now speaks.entry.runtime.now
        own.now template.now ≡ Ok v) }
    ensures err { IfErr result
        (Refuses (spec.value_in speaks.entry.inputs.now speaks.entry.runtime.now own.now
        template.now)) }
{
    let context = Context {
        inputs: speaks.inputs,
        runtime: Some(speaks.runtime),
        own,
    };
    match template.value(&context) {
        Ok(value) => Ok(value),
        Err(RefError::Refused(fault)) => Err(Stop::Refused(CollectFault::Reference(fault))),
        Err(RefError::OutOfMemory) => Err(Stop::OutOfMemory),
    }
}

//! What a process takes of the values that are handed to it.
ghost use Rattle.std.specs.Prelude.{◌≡◌, IfOk, IfErr, OnOk, Ok, None};
ghost use Rattle.plain_data.specs.ByName.{with_value};
ghost use Rattle.input_files.specs.Refusals.{RefusesInput, RefusesInputs};
ghost use Rattle.input_files.specs.Taken as spec;

use crate::beside::all_beside;
use crate::carried::lacks_carried;
use crate::fault::{InputError, InputFault};
use crate::inputs::{put, room_for, with_measures};
use crate::measured::as_measured;
use crate::parameter::Parameter;
use crate::present::is_present;
use cwl_value::Value;
use plain_data::{Keyed, Text};
use staging::Measure;
use std::alloc::{AllocError, Global};
use std::mem;
use value_depth::is_within_limit;

/// What is handed to the root of a run, under the ids of its inputs: what is given, or the default in place of null, each
/// File and Directory as it was measured, with the files that were found beside each File. What is absent has no sum and
/// no listing.
pub fn root_fields<P: Parameter>(
    alloc: Global,
    inputs: &[(Text, P)],
    given: &Keyed<Value>,
    measures: &Keyed<Measure>,
) -> Result<Keyed<Value>, AllocError>
    ensures { IfOk result (λ fields. fields
        ≡ spec.root_fields P.of inputs.now given.now measures.now) }
{
    let mut fields = room_for(alloc, inputs.len())?;
    for input in inputs {
        let value = root_value(alloc, given, measures, input)?;
        put(alloc, &mut fields, &input.0, value)?;
    }
    Ok(fields)
}

fn root_value<P: Parameter>(
    alloc: Global,
    given: &Keyed<Value>,
    measures: &Keyed<Measure>,
    input: &(Text, P),
) -> Result<Value, AllocError>
    ensures { IfOk result (λ value. value ≡ spec.root_value P.of measures.now given.now input.now) }
{
    let declared = input.1.secondary_files();
    match given.get(input.0.as_str()) {
        None | Some(Value::Null) => match input.1.default() {
            None => with_measures(alloc, measures, declared, &Value::Null),
            Some(value) => with_measures(alloc, measures, declared, value),
        },
        Some(value) => with_measures(alloc, measures, declared, value),
    }
}

/// The inputs of a process under their ids, at the root or in a step: what is handed to it, as it was measured or made by
/// jobs, or the process's own default in place of null.
///
/// # Errors
///
/// The first fault in the order of the inputs, and of one input the first of `Kind` (also where the value's JSON nests
/// over 100 deep), `Missing` (for a tool) and `Secondary`; `OutOfMemory`.
pub fn process_inputs<P: Parameter>(
    alloc: Global,
    inputs: &[(Text, P)],
    fields: &Keyed<Value>,
    measures: &Keyed<Measure>,
) -> Result<Keyed<Value>, InputError>
    ensures ok { IfOk result (λ taken. spec.process_inputs P.of inputs.now fields.now measures.now
        ≡ Ok taken) }
    ensures err { IfErr result
        (RefusesInputs (spec.process_inputs P.of inputs.now fields.now measures.now)) }
{
    let mut taken = room_for(alloc, inputs.len())?;
    for input in inputs {
        take_input(alloc, fields, measures, input, &mut taken)?;
    }
    Ok(taken)
}

// Puts the value of an input that has no fault. Where it is a list, each step that takes it whole shares it.
fn take_input<P: Parameter>(
    alloc: Global,
    fields: &Keyed<Value>,
    measures: &Keyed<Measure>,
    input: &(Text, P),
    taken: &mut Keyed<Value>,
) -> Result<(), InputError>
    ensures put { OnOk result (taken.new
        ≡ with_value input.now.0 (spec.taken_value P.of measures.now fields.now input.now)
        taken.old) }
    ensures sound { IfOk result
        (λ _. spec.fault_with P.of input.now (spec.taken_value P.of measures.now fields.now
        input.now) ≡ None) }
    ensures err { IfErr result
        (RefusesInput
        (spec.fault_with P.of input.now (spec.taken_value P.of measures.now fields.now
        input.now))) }
{
    let value = without_fault(alloc, input, taken_value(alloc, fields, measures, input)?)?;
    Ok(put(alloc, taken, &input.0, value.shared(alloc)?)?)
}

// The value, where nothing is wrong with it.
fn without_fault<P: Parameter>(
    alloc: Global,
    input: &(Text, P),
    value: Value,
) -> Result<Value, InputError>
    ensures sound { IfOk result (λ v. spec.fault_with P.of input.now value ≡ None) }
    ensures same { IfOk result (λ v. v ≡ value) }
    ensures err { IfErr result (RefusesInput (spec.fault_with P.of input.now value)) }
{
    match fault_with(alloc, input, &value) {
        Ok(None) => Ok(value),
        Ok(Some(fault)) => {
            mem::drop(value);
            Err(InputError::Refused(fault))
        }
        Err(error) => {
            mem::drop(value);
            Err(InputError::from(error))
        }
    }
}

fn taken_value<P: Parameter>(
    alloc: Global,
    fields: &Keyed<Value>,
    measures: &Keyed<Measure>,
    input: &(Text, P),
) -> Result<Value, AllocError>
    ensures { IfOk result (λ value. value
        ≡ spec.taken_value P.of measures.now fields.now input.now) }
{
    match fields.get(input.0.as_str()) {
        None | Some(Value::Null) => match input.1.default() {
            None => Ok(Value::Null),
            Some(value) => as_measured(alloc, measures, value),
        },
        Some(value) => value.clone_in(alloc),
    }
}

// What is wrong with an input of this value first.
fn fault_with<P: Parameter>(
    alloc: Global,
    input: &(Text, P),
    value: &Value,
) -> Result<Option<InputFault>, AllocError>
    ensures { IfOk result (λ fault. fault ≡ spec.fault_with P.of input.now value.now) }
{
    if !input.1.takes(value) || !is_within_limit(value) {
        return Ok(Some(InputFault::Kind(input.0.copied(alloc)?)));
    }
    if input.1.uses_files() && !is_present(value) {
        return Ok(Some(InputFault::Missing(input.0.copied(alloc)?)));
    }
    if lacks_carried(alloc, input.1.secondary_files(), value)? {
        return Ok(Some(InputFault::Secondary(input.0.copied(alloc)?)));
    }
    Ok(None)
}

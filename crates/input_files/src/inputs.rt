//! A job's inputs, as they were measured.
ghost use Rattle.std.specs.Prelude.{◌≡◌, [], IfOk, IfErr, OnOk, Ok};
ghost use Rattle.plain_data.specs.ByName.{with_value};
ghost use Rattle.input_files.specs.Inputs as spec;
ghost use Rattle.input_files.specs.Refusals.{RefusesInputs};
ghost use Rattle.value_depth.specs.Limit.{is_within_limit};

use crate::beside::{all_beside, lacks_required};
use crate::fault::{InputError, InputFault};
use crate::given::{fits_input, input_value};
use crate::measured::as_measured;
use crate::there::is_there;
use cwl_process::{SecondaryFile, ToolInput};
use cwl_value::Value;
use plain_data::{Keyed, Text};
use staging::Measure;
use std::alloc::{AllocError, Global};
use std::mem;
use value_depth::is_within_limit;

/// The value of each input of a tool under the input's id: what is given, or the default in place of null, each File
/// and Directory as it was measured, with the files that were found beside each File.
///
/// # Errors
///
/// The first fault in the order of the tool's inputs, and of one input the first of `Kind` (also where the value's JSON,
/// as it was measured, nests over 100 deep), `Missing` and `Secondary`; `OutOfMemory`.
pub fn inputs_for(
    alloc: Global,
    inputs: &[(Text, ToolInput)],
    given: &Keyed<Value>,
    measures: &Keyed<Measure>,
) -> Result<Keyed<Value>, InputError>
    ensures ok { IfOk result (λ named. spec.inputs_for inputs.now given.now measures.now
        ≡ Ok named) }
    ensures err { IfErr result (RefusesInputs (spec.inputs_for inputs.now given.now measures.now)) }
{
    match first_fault(alloc, inputs, given, measures)? {
        Some(fault) => Err(InputError::Refused(fault)),
        None => Ok(measured_inputs(alloc, inputs, given, measures)?),
    }
}

fn first_fault(
    alloc: Global,
    inputs: &[(Text, ToolInput)],
    given: &Keyed<Value>,
    measures: &Keyed<Measure>,
) -> Result<Option<InputFault>, AllocError>
    ensures { IfOk result (λ fault. fault ≡ spec.first_fault measures.now given.now inputs.now) }
{
    for input in inputs {
        let fault = fault_of(alloc, given, measures, input)?;
        if fault.is_some() {
            return Ok(fault);
        }
    }
    Ok(None)
}

// What is wrong with an input first.
fn fault_of(
    alloc: Global,
    given: &Keyed<Value>,
    measures: &Keyed<Measure>,
    input: &(Text, ToolInput),
) -> Result<Option<InputFault>, AllocError>
    ensures { IfOk result (λ fault. fault ≡ spec.fault_of measures.now given.now input.now) }
{
    match input_value(given, input) {
        None => fault_in(alloc, measures, input, &Value::Null),
        Some(value) => fault_in(alloc, measures, input, value),
    }
}

fn fault_in(
    alloc: Global,
    measures: &Keyed<Measure>,
    input: &(Text, ToolInput),
    value: &Value,
) -> Result<Option<InputFault>, AllocError>
    ensures { IfOk result (λ fault. fault ≡ spec.fault_in measures.now input.now value.now) }
{
    if !fits_input(&input.1.kind, value) || !nests_within_limit(alloc, measures, input, value)? {
        return Ok(Some(InputFault::Kind(input.0.copied(alloc)?)));
    }
    if !is_there(measures, value) {
        return Ok(Some(InputFault::Missing(input.0.copied(alloc)?)));
    }
    if lacks_required(alloc, measures, input.1.secondary_files.as_slice(), value)? {
        return Ok(Some(InputFault::Secondary(input.0.copied(alloc)?)));
    }
    Ok(None)
}

// Whether the JSON of the value, as it was measured, nests within the limit.
fn nests_within_limit(
    alloc: Global,
    measures: &Keyed<Measure>,
    input: &(Text, ToolInput),
    value: &Value,
) -> Result<bool, AllocError>
    ensures { IfOk result (λ within. within
        ≡ is_within_limit (spec.with_measures measures.now input.now.1.secondary_files value.now)) }
{
    let measured = with_measures(alloc, measures, input.1.secondary_files.as_slice(), value)?;
    let is_within = is_within_limit(&measured);
    mem::drop(measured);
    Ok(is_within)
}

fn measured_inputs(
    alloc: Global,
    inputs: &[(Text, ToolInput)],
    given: &Keyed<Value>,
    measures: &Keyed<Measure>,
) -> Result<Keyed<Value>, AllocError>
    ensures { IfOk result (λ named. named
        ≡ spec.measured_inputs measures.now inputs.now given.now) }
{
    let mut named = room_for(alloc, inputs.len())?;
    for input in inputs {
        let value = measured_value(alloc, given, measures, input)?;
        put(alloc, &mut named, &input.0, value)?;
    }
    Ok(named)
}

// The value of an input as it was measured.
fn measured_value(
    alloc: Global,
    given: &Keyed<Value>,
    measures: &Keyed<Measure>,
    input: &(Text, ToolInput),
) -> Result<Value, AllocError>
    ensures { IfOk result (λ value. value ≡ spec.measured_value measures.now given.now input.now) }
{
    let declared = input.1.secondary_files.as_slice();
    match input_value(given, input) {
        None => with_measures(alloc, measures, declared, &Value::Null),
        Some(value) => with_measures(alloc, measures, declared, value),
    }
}

/// A value as it was measured, with the files beside its Files.
pub(crate) fn with_measures(
    alloc: Global,
    measures: &Keyed<Measure>,
    declared: &[SecondaryFile],
    value: &Value,
) -> Result<Value, AllocError>
    ensures { IfOk result (λ v. v ≡ spec.with_measures measures.now declared.now value.now) }
{
    let measured = as_measured(alloc, measures, value)?;
    all_beside(alloc, measures, declared, measured)
}

/// No values yet, and room for this many.
pub(crate) fn room_for(alloc: Global, count: usize) -> Result<Keyed<Value>, AllocError>
    ensures { IfOk result (λ named. named ≡ []) }
{
    Ok(Keyed::from_sorted(Vec::with_capacity(alloc, count)?))
}

/// Puts a value under a copy of a name.
pub(crate) fn put(
    alloc: Global,
    named: &mut Keyed<Value>,
    name: &Text,
    value: Value,
) -> Result<(), AllocError>
    ensures { OnOk result (named.new ≡ with_value name.now value named.old) }
{
    let name = name.copied(alloc)?;
    mem::drop(named.insert(name, value)?);
    Ok(())
}

//! The values of a step's inputs.

ghost use Rattle.std.specs.Prelude.{◌≡◌, Ok, None, IfOk, IfErr, OnOk, unwrap_or};
ghost use Rattle.std.specs.Option.{option_copied};
ghost use Rattle.param_refs.specs.Evaluation.{template_value};
ghost use Rattle.link_values.specs.Refused.{IsError, and_map};
ghost use Rattle.link_values.specs.StepInputs.{by_reference, null, or_default, own_value, step_input, truth_of, value_from, value_froms, value_under, when_value};
ghost use Rattle.plain_data.specs.ByName.{with_value};

use crate::fault::{LinkError, LinkFault};
use crate::picking::pick;
use cwl_process::StepInput;
use cwl_value::Value;
use param_refs::{Context, Template};
use plain_data::{Keyed, Text};
use std::alloc::{AllocError, Global};

/// The value of a step's input whose links give this together: picked, and then the default where the input has no source, and
/// in place of null (CWL v1.2, Workflow, "WorkflowStepInput").
pub fn step_input(alloc: Global, input: &StepInput, linked: Value) -> Result<Value, LinkError>
    ensures ok { IfOk result (λ value. step_input input.now linked ≡ Ok value) }
    ensures err { IfErr result (IsError (step_input input.now linked)) }
{
    let value = pick(alloc, input.links.pick, linked)?;
    Ok(or_default(alloc, input, value)?)
}

fn or_default(alloc: Global, input: &StepInput, value: Value) -> Result<Value, AllocError>
    ensures { IfOk result (λ found. found ≡ or_default input.now value) }
{
    if input.links.sources.is_some() && !matches!(&value, Value::Null) {
        return Ok(value);
    }
    match &input.default {
        Some(default) => default.clone_in(alloc),
        None => Ok(value),
    }
}

/// The inputs of a step, each after its `valueFrom`, which sees the values of all of them (CWL v1.2, Workflow,
/// "WorkflowStepInput"). What is given is not changed.
pub fn value_froms(
    alloc: Global,
    inputs: &[(Text, StepInput)],
    given: &Keyed<Value>,
) -> Result<Keyed<Value>, LinkError>
    ensures ok { IfOk result (λ values. value_froms inputs.now given.now ≡ Ok values) }
    ensures err { IfErr result (IsError (value_froms inputs.now given.now)) }
{
    let mut values = Keyed::new(alloc);
    for input in inputs {
        put_value(alloc, &mut values, input, given)?;
    }
    Ok(values)
}

// Puts the value of an input under its name.
fn put_value(
    alloc: Global,
    values: &mut Keyed<Value>,
    input: &(Text, StepInput),
    given: &Keyed<Value>,
) -> Result<(), LinkError>
    ensures ok { OnOk result (and_map (λ value. with_value input.now.0 value values.old)
        (value_from given.now input.now) ≡ Ok values.new) }
    ensures err { IfErr result (IsError (value_from given.now input.now)) }
{
    let value = value_from(alloc, input, given)?;
    let name = input.0.copied(alloc)?;
    drop(values.insert(name, value)?);
    Ok(())
}

fn value_from(
    alloc: Global,
    input: &(Text, StepInput),
    given: &Keyed<Value>,
) -> Result<Value, LinkError>
    ensures ok { IfOk result (λ value. value_from given.now input.now ≡ Ok value) }
    ensures err { IfErr result (IsError (value_from given.now input.now)) }
{
    match &input.1.value_from {
        None => Ok(value_under(alloc, given, input.0.as_str())?),
        Some(template) => template_value(template, given, own_value(input, given)),
    }
}

fn value_under(alloc: Global, given: &Keyed<Value>, name: &str) -> Result<Value, AllocError>
    ensures { IfOk result (λ value. value ≡ value_under name.now given.now) }
{
    match given.get(name) {
        Some(value) => value.clone_in(alloc),
        None => Ok(Value::Null),
    }
}

// The value where `self` is this one, or null.
fn template_value<'a>(
    template: &Template,
    inputs: &'a Keyed<Value>,
    own: Option<&'a Value>,
) -> Result<Value, LinkError>
    ensures ok { IfOk result
        (λ value.
        by_reference (template_value inputs.now None (unwrap_or (option_copied own.entry) null)
        template.now) ≡ Ok value) }
    ensures err { IfErr result
        (IsError
        (by_reference (template_value inputs.now None (unwrap_or (option_copied own.entry) null)
        template.now))) }
{
    let null = Value::Null;
    let context = Context {
        inputs,
        runtime: None,
        own: own.unwrap_or(&null),
    };
    Ok(template.value(&context)?)
}

// What `self` stands for; none for null.
fn own_value<'a>(input: &(Text, StepInput), given: &'a Keyed<Value>) -> Option<&'a Value>
    ensures { unwrap_or (option_copied result) null ≡ own_value input.now given.now }
{
    if input.1.links.sources.is_some() {
        given.get(input.0.as_str())
    } else {
        None
    }
}

/// Whether a step with these inputs is not skipped (CWL v1.2, Workflow, "WorkflowStep": `when`).
pub fn when_value(when: &Template, inputs: &Keyed<Value>) -> Result<bool, LinkError>
    ensures ok { IfOk result (λ flag. when_value when.now inputs.now ≡ Ok flag) }
    ensures err { IfErr result (IsError (when_value when.now inputs.now)) }
{
    let value = template_value(when, inputs, None)?;
    truth_of(&value)
}

fn truth_of(value: &Value) -> Result<bool, LinkError>
    ensures ok { IfOk result (λ flag. truth_of value.now ≡ Ok flag) }
    ensures err { IfErr result (IsError (truth_of value.now)) }
{
    match value {
        Value::Bool(flag) => Ok(*flag),
        _ => Err(LinkError::Refused(LinkFault::NotABoolean)),
    }
}

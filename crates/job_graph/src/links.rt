//! The values of a step's inputs and of a workflow's outputs.
ghost use Rattle.std.specs.Prelude.{◌≡◌, Some, Ok, IfOk, IfErr, [], option_map, unwrap_or};
ghost use Rattle.std.specs.Option.{option_copied};
ghost use Rattle.plain_data.specs.ByName.{value_at};
ghost use Rattle.link_values.specs.Refused.{IsError};
ghost use Rattle.link_values.specs.StepInputs.{or_default, step_input, value_under};
ghost use Rattle.job_graph.specs.Links.{entry_value, linked_values, measured, out_under, output_value, partly, source_value};

use crate::cause::{Cause, of_link};
use crate::partly::Partly;
use crate::walk::Out;
use cwl_process::{Links, Source, StepInput, WorkflowOutput};
use cwl_value::Value;
use input_files::as_measured;
use link_values::{LinkError, merge, pick};
use plain_data::{Items, Keyed};
use staging::Measure;
use std::alloc::{AllocError, Global};

/// The outputs of each step, by the steps' ids.
pub(crate) type Env = Keyed<Items<Out>>;

/// The value of an output; none where it is not known.
pub(crate) fn out_under<'a>(outs: &'a [Out], name: &str) -> Option<&'a Value>
    ensures { option_copied result ≡ out_under name.now (Some outs.now) }
{
    for out in outs {
        if name == out.0.as_str() {
            return out.1.as_ref();
        }
    }
    None
}

/// The value of a source, where it is known.
fn source_value(
    alloc: Global,
    inputs: &Keyed<Value>,
    env: &Env,
    source: &Source,
) -> Result<Option<Value>, AllocError>
    ensures { IfOk result (λ found. found ≡ source_value inputs.now env.now source.now) }
{
    match &source.step {
        None => Ok(Some(value_under(alloc, inputs, source.name.as_str())?)),
        Some(step) => {
            let found = step_value(env, step.as_str(), source.name.as_str());
            Ok(copied(alloc, found)?)
        }
    }
}

/// The value under a name, or null.
fn value_under(alloc: Global, fields: &Keyed<Value>, name: &str) -> Result<Value, AllocError>
    ensures { IfOk result (λ value. value ≡ value_under name.now fields.now) }
{
    match fields.get(name) {
        Some(value) => value.clone_in(alloc),
        None => Ok(Value::Null),
    }
}

/// The value of a step's output, where it is known.
pub(crate) fn step_value<'a>(env: &'a Env, step: &str, name: &str) -> Option<&'a Value>
    ensures { option_copied result ≡ out_under name.now (value_at step.now env.now) }
{
    match env.get(step) {
        None => None,
        Some(outs) => out_under(outs.as_slice(), name),
    }
}

fn copied(alloc: Global, found: Option<&Value>) -> Result<Option<Value>, AllocError>
    ensures { IfOk result (λ copy. copy ≡ option_copied found.entry) }
{
    match found {
        None => Ok(None),
        Some(value) => Ok(Some(value.clone_in(alloc)?)),
    }
}

/// The values of all sources, where each is known.
#[tactic(auto, using(crate::proofs::Loops::before_none, crate::proofs::Loops::before_one))]
fn linked_values(
    alloc: Global,
    inputs: &Keyed<Value>,
    env: &Env,
    sources: &[Source],
) -> Result<Option<Vec<Value>>, AllocError>
    ensures { IfOk result (λ found. option_map (λ values. values.items) found
        ≡ linked_values inputs.now env.now sources.now) }
{
    let mut values = Vec::new(alloc);
    for source in sources {
        match source_value(alloc, inputs, env, source)? {
            None => return Ok(None),
            Some(value) => values.push(value)?,
        }
    }
    Ok(Some(values))
}

pub(crate) fn sources_of(links: &Links) -> &[Source]
    ensures { result.now ≡ unwrap_or links.now.sources [] }
{
    match &links.sources {
        None => &[],
        Some(sources) => sources.as_slice(),
    }
}

/// The value of a step's input.
pub(crate) fn entry_value(
    alloc: Global,
    measures: &Keyed<Measure>,
    inputs: &Keyed<Value>,
    env: &Env,
    input: &StepInput,
) -> Result<Partly, AllocError>
    ensures { IfOk result (λ found. found ≡ entry_value measures.now inputs.now env.now input.now) }
{
    let sources = sources_of(&input.links);
    let Some(values) = linked_values(alloc, inputs, env, sources)? else {
        return Ok(Partly::Waits);
    };
    let linked = merge(alloc, input.links.merge, values)?;
    Ok(partly(of_link(step_input(alloc, measures, input, linked))?))
}

/// The value of a step's input whose links give this together.
fn step_input(
    alloc: Global,
    measures: &Keyed<Measure>,
    input: &StepInput,
    linked: Value,
) -> Result<Value, LinkError>
    ensures ok { IfOk result (λ value. step_input (measured measures.now input.now) linked
        ≡ Ok value) }
    ensures err { IfErr result (IsError (step_input (measured measures.now input.now) linked)) }
{
    let value = pick(alloc, input.links.pick, linked)?;
    Ok(or_default(alloc, measures, input, value)?)
}

/// The default where the input has no source, and in place of null.
fn or_default(
    alloc: Global,
    measures: &Keyed<Measure>,
    input: &StepInput,
    value: Value,
) -> Result<Value, AllocError>
    ensures { IfOk result (λ found. found ≡ or_default (measured measures.now input.now) value) }
{
    if input.links.sources.is_some() && !matches!(&value, Value::Null) {
        return Ok(value);
    }
    match &input.default {
        Some(default) => as_measured(alloc, measures, default),
        None => Ok(value),
    }
}

/// The value of a workflow's output.
pub(crate) fn output_value(
    alloc: Global,
    inputs: &Keyed<Value>,
    env: &Env,
    links: &Links,
) -> Result<Partly, AllocError>
    ensures { IfOk result (λ found. found ≡ output_value inputs.now env.now links.now) }
{
    let Some(sources) = &links.sources else {
        return Ok(Partly::Gives(Value::Null));
    };
    let Some(values) = linked_values(alloc, inputs, env, sources.as_slice())? else {
        return Ok(Partly::Waits);
    };
    let linked = merge(alloc, links.merge, values)?;
    Ok(partly(of_link(pick(alloc, links.pick, linked))?))
}

fn partly(found: Result<Value, Cause>) -> Partly
    ensures { result ≡ partly found }
{
    match found {
        Ok(value) => Partly::Gives(value),
        Err(cause) => Partly::Fails(cause),
    }
}

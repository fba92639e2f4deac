//! What a walk meets and gives.
ghost use Rattle.std.specs.Prelude.{◌≡◌, ◌++◌, ◌∷◌, [], Ok, map, IfOk, OnOk};
ghost use Rattle.std.specs.Map.{keys_of};
ghost use Rattle.job_graph.specs.Inputs.{tool_inputs_for};
ghost use Rattle.job_graph.specs.Jobs.{failed, met_fault, tool_walk, unknown};
ghost use Rattle.job_graph.specs.Equations.{skipped};
ghost use Rattle.job_graph.specs.inner.Views.{made_from, met_of, walk_of};

use crate::cause::Cause;
use crate::inputs::tool_inputs;
use crate::made::{Facts, job_outs};
use cwl_process::{Entries, Tool};
use cwl_value::{JobPlace, Value, copy_job};
use plain_data::{Items, Keyed, Text};
use std::alloc::{AllocError, Global};

/// A tool at a place, with its inputs.
#[derive(Drop)]
pub struct Job<'a> {
    pub place: JobPlace,
    pub tool: &'a Tool,
    pub inputs: Keyed<Value>,
}

/// What a walk through a process meets.
#[derive(Drop)]
pub(crate) enum Met<'a> {
    Job(Job<'a>),
    Fault(JobPlace, Cause),
}

/// An output, with its value where it is known.
pub(crate) type Out = (Text, Option<Value>);

/// All that is met, in the order of the walk, and each output where it is known.
#[derive(Drop)]
pub(crate) struct Walk<'a> {
    pub met: Items<Met<'a>>,
    pub outs: Items<Out>,
}

/// Each name with no value.
pub(crate) fn unknown(alloc: Global, names: &[Text]) -> Result<Items<Out>, AllocError>
    ensures { IfOk result (λ outs. outs ≡ unknown names.now) }
{
    let mut outs = Items::new(alloc);
    for name in names {
        outs.push((name.copied(alloc)?, None))?;
    }
    Ok(outs)
}

/// Each id with no value.
fn unknown_ids<T>(alloc: Global, entries: &Entries<T>) -> Result<Items<Out>, AllocError>
    ensures { IfOk result (λ outs. outs ≡ unknown (keys_of entries.now)) }
{
    let mut outs = Items::new(alloc);
    for entry in entries.as_slice() {
        outs.push((entry.0.copied(alloc)?, None))?;
    }
    Ok(outs)
}

/// Each name with null.
pub(crate) fn nulls(alloc: Global, names: &[Text]) -> Result<Items<Out>, AllocError>
    ensures { IfOk result (λ outs. outs ≡ (skipped names.now).outs) }
{
    let mut outs = Items::new(alloc);
    for name in names {
        outs.push((name.copied(alloc)?, Some(Value::Null)))?;
    }
    Ok(outs)
}

/// Adds what fails, met at a place.
pub(crate) fn push_fault(
    alloc: Global,
    met: &mut Items<Met<'_>>,
    place: &JobPlace,
    cause: Cause,
) -> Result<(), AllocError>
    ensures { OnOk result (map met_of met.new ≡ map met_of met.old
        ++ met_fault place.now cause ∷ []) }
{
    let place = copy_job(alloc, place)?;
    met.push(Met::Fault(place, cause))
}

/// What fails, met at a place.
fn one_fault<'a>(
    alloc: Global,
    place: &JobPlace,
    cause: Cause,
) -> Result<Items<Met<'a>>, AllocError>
    ensures { IfOk result (λ met. map met_of met ≡ met_fault place.now cause ∷ []) }
{
    let mut met = Items::new(alloc);
    push_fault(alloc, &mut met, place, cause)?;
    Ok(met)
}

/// A step whose equation fails.
pub(crate) fn failed<'a>(
    alloc: Global,
    place: &JobPlace,
    cause: Cause,
    names: &[Text],
) -> Result<Walk<'a>, AllocError>
    ensures { IfOk result (λ walk. walk_of walk ≡ failed place.now cause names.now) }
{
    let met = one_fault(alloc, place, cause)?;
    let outs = unknown(alloc, names)?;
    Ok(Walk { met, outs })
}

/// A process whose equation fails.
pub(crate) fn failed_process<'a, T>(
    alloc: Global,
    place: &JobPlace,
    cause: Cause,
    outputs: &Entries<T>,
) -> Result<Walk<'a>, AllocError>
    ensures { IfOk result (λ walk. walk_of walk ≡ failed place.now cause (keys_of outputs.now)) }
{
    let met = one_fault(alloc, place, cause)?;
    let outs = unknown_ids(alloc, outputs)?;
    Ok(Walk { met, outs })
}

/// The walk through a tool: one job.
pub(crate) fn walk_tool<'a>(
    alloc: Global,
    facts: &Facts,
    tool: &'a Tool,
    place: &JobPlace,
    given: &Keyed<Value>,
) -> Result<Walk<'a>, AllocError>
    ensures { IfOk result (λ walk. walk_of walk
        ≡ tool_walk tool.now place.now (tool_inputs_for facts.now.measures tool.now.inputs
        given.now) (made_from facts.now)) }
{
    match tool_inputs(alloc, &facts.measures, tool.inputs.as_slice(), given)? {
        Ok(inputs) => job_walk(alloc, facts, tool, place, inputs),
        Err(cause) => failed_process(alloc, place, cause, &tool.outputs),
    }
}

fn job_walk<'a>(
    alloc: Global,
    facts: &Facts,
    tool: &'a Tool,
    place: &JobPlace,
    inputs: Keyed<Value>,
) -> Result<Walk<'a>, AllocError>
    ensures { IfOk result (λ walk. walk_of walk
        ≡ tool_walk tool.now place.now (Ok inputs) (made_from facts.now)) }
{
    let place = copy_job(alloc, place)?;
    let outs = job_outs(
        alloc,
        facts.learned.outputs_at(&place),
        &tool.outputs,
        &place,
    )?;
    let mut met = Items::from_vec(Vec::with_capacity(alloc, 1)?);
    met.push(Met::Job(Job {
        place,
        tool,
        inputs,
    }))?;
    Ok(Walk { met, outs })
}

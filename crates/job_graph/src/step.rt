//! Steps, and what all that recurs is: the walk through a process.
ghost use Rattle.std.specs.Prelude.{◌≡◌, ◌≢◌, ◌++◌, [], Ok, length, map, IfOk, OnOk};
ghost use Rattle.document_links.specs.declared.process.Step.{out-Step};
ghost use Rattle.job_graph.specs.Equations.{fault_at, goes_on, instance, instance_from, meaning_of, over_lengths, scattered, step_meaning_of, step_place};
ghost use Rattle.job_graph.specs.Links.{entry_value, with_entry};
ghost use Rattle.job_graph.specs.Scatter.{at_tuple};
ghost use Rattle.job_graph.specs.declared.partly.Partly.TheVariants.{Gives};
ghost use Rattle.job_graph.specs.inner.Entered.{HasEntered};
ghost use Rattle.job_graph.specs.inner.Levels.{step_of};
ghost use Rattle.job_graph.specs.inner.Views.{made_from, met_of, walk_of};

use crate::cause::{Cause, of_link};
use crate::gather::all_instances;
use crate::links::{Env, entry_value};
use crate::made::Facts;
use crate::partly::Partly;
use crate::place::step_place;
use crate::scatter::{at_tuple, lengths_under, tuples_for};
use crate::walk::{Met, Walk, failed, nulls, push_fault, unknown, walk_tool};
use crate::workflow::walk_workflow;
use cwl_value::{JobPlace, Value};
use document_links::{Process, Step};
use link_values::{value_froms, when_value};
use param_refs::Template;
use plain_data::{Items, Keyed, Text};
use scatter_shape::{Method, Shape};
use staging::Measure;
use std::alloc::{AllocError, Global};
use std::mem;

/// The walk through a process at a place.
#[cycle(walk)]
pub(crate) fn walk_process<'a>(
    alloc: Global,
    facts: &Facts,
    process: &'a Process,
    place: &JobPlace,
    given: &Keyed<Value>,
) -> Result<Walk<'a>, AllocError>
    ensures { IfOk result (λ walk. walk_of walk
        ≡ meaning_of facts.now.measures (made_from facts.now) process.now place.now given.now) }
{
    match process {
        Process::Tool(tool) => walk_tool(alloc, facts, tool, place, given),
        Process::Workflow(workflow) => walk_workflow(alloc, facts, workflow, place, given),
    }
}

/// The inputs of a step: those that fail, and all together once each is known.
#[derive(Drop)]
pub(crate) struct Entered<'a> {
    pub faults: Items<Met<'a>>,
    pub values: Option<Keyed<Value>>,
}

/// The walk through a step of a workflow with these inputs, whose steps have these outputs.
#[cycle(walk)]
pub(crate) fn walk_step<'a>(
    alloc: Global,
    facts: &Facts,
    id: &Text,
    step: &'a Step,
    place: &JobPlace,
    inputs: &Keyed<Value>,
    env: &Env,
) -> Result<Walk<'a>, AllocError>
    ensures { IfOk result (λ walk. walk_of walk
        ≡ step_meaning_of facts.now.measures (made_from facts.now) step.now id.now place.now
        inputs.now env.now) }
{
    let entered = enter(alloc, &facts.measures, id, step, place, inputs, env)?;
    let Entered { faults, values } = entered;
    match values {
        Some(values) => {
            drop(faults);
            let walk = scattered(alloc, facts, id, step, place, &values);
            drop(values);
            walk
        }
        None => {
            let outs = unknown(alloc, step.outputs.as_slice())?;
            Ok(Walk { met: faults, outs })
        }
    }
}

pub(crate) fn enter<'a>(
    alloc: Global,
    measures: &Keyed<Measure>,
    id: &Text,
    step: &Step,
    place: &JobPlace,
    inputs: &Keyed<Value>,
    env: &Env,
) -> Result<Entered<'a>, AllocError>
    ensures { IfOk result
        (HasEntered (step_place place.now id.now [])
        (map (λ i. (i.0, entry_value measures.now inputs.now env.now i.1))
        (out-Step step.now).inputs)) }
{
    let own = step_place(alloc, place, id, &Items::new(alloc))?;
    let mut entered = Entered {
        faults: Items::new(alloc),
        values: Some(Keyed::new(alloc)),
    };
    for input in step.inputs.as_slice() {
        let name = input.0.copied(alloc)?;
        let value = entry_value(alloc, measures, inputs, env, &input.1)?;
        put_entry(alloc, &mut entered, &own, name, value)?;
    }
    Ok(entered)
}

fn put_entry(
    alloc: Global,
    entered: &mut Entered<'_>,
    place: &JobPlace,
    name: Text,
    value: Partly,
) -> Result<(), AllocError>
    ensures faults { OnOk result (map met_of entered.new.faults ≡ map met_of entered.old.faults
        ++ fault_at place.now value) }
    ensures values { OnOk result (entered.new.values
        ≡ with_entry entered.old.values (name, value)) }
{
    match value {
        Partly::Waits => {
            drop(mem::replace(&mut entered.values, None));
            Ok(())
        }
        Partly::Gives(value) => put_value(alloc, entered, name, value),
        Partly::Fails(cause) => {
            drop(mem::replace(&mut entered.values, None));
            push_fault(alloc, &mut entered.faults, place, cause)
        }
    }
}

/// Puts a value that is known. Where it is a list, the tuples of a scatter share it.
fn put_value(
    alloc: Global,
    entered: &mut Entered<'_>,
    name: Text,
    value: Value,
) -> Result<(), AllocError>
    ensures faults { OnOk result (entered.new.faults ≡ entered.old.faults) }
    ensures values { OnOk result (entered.new.values
        ≡ with_entry entered.old.values (name, Gives value)) }
{
    match &mut entered.values {
        None => Ok(()),
        Some(values) => {
            drop(values.insert(name, value.shared(alloc)?)?);
            Ok(())
        }
    }
}

/// A step whose inputs are all known.
#[cycle(walk)]
#[tactic(auto, using(crate::proofs::Loops::as_many_as_some))]
fn scattered<'a>(
    alloc: Global,
    facts: &Facts,
    id: &Text,
    step: &'a Step,
    place: &JobPlace,
    values: &Keyed<Value>,
) -> Result<Walk<'a>, AllocError>
    ensures { IfOk result (λ walk. walk_of walk
        ≡ scattered (step_of facts.now step.now) id.now place.now values.now
        (step_of facts.now step.now).scatter) }
{
    let own = step_place(alloc, place, id, &Items::new(alloc))?;
    if step.scatter.is_empty() {
        return instance(alloc, facts, step, &own, values);
    }
    match lengths_under(alloc, step.scatter.as_slice(), values)? {
        Ok(lengths) => over_lengths(alloc, facts, id, step, place, values, lengths),
        Err(cause) => failed(alloc, &own, cause, step.outputs.as_slice()),
    }
}

#[cycle(walk)]
fn over_lengths<'a>(
    alloc: Global,
    facts: &Facts,
    id: &Text,
    step: &'a Step,
    place: &JobPlace,
    values: &Keyed<Value>,
    lengths: Items<usize>,
) -> Result<Walk<'a>, AllocError>
    requires { lengths ≢ [] }
    ensures { IfOk result (λ walk. walk_of walk
        ≡ over_lengths (step_of facts.now step.now) id.now place.now values.now (Ok lengths)) }
{
    let method = step.method.unwrap_or(Method::Dotproduct);
    match tuples_for(alloc, method, lengths.as_slice())? {
        Ok(tuples) => {
            let walks = instances(alloc, facts, id, step, place, values, tuples.as_slice())?;
            let shape = Shape { method, lengths };
            all_instances(alloc, &shape, walks, step.outputs.as_slice())
        }
        Err(cause) => {
            let own = step_place(alloc, place, id, &Items::new(alloc))?;
            failed(alloc, &own, cause, step.outputs.as_slice())
        }
    }
}

#[cycle(walk)]
fn instances<'a>(
    alloc: Global,
    facts: &Facts,
    id: &Text,
    step: &'a Step,
    place: &JobPlace,
    values: &Keyed<Value>,
    tuples: &[Items<usize>],
) -> Result<Vec<Walk<'a>>, AllocError>
    ensures one_each { IfOk result (λ walks. length walks.items ≡ length tuples.now) }
    ensures walks { IfOk result (λ walks. map walk_of walks.items
        ≡ map (λ tuple. instance (step_of facts.now step.now)
        (step_place place.now id.now tuple) (at_tuple (step_of facts.now step.now).scatter tuple
        values.now)) tuples.now) }
{
    let mut walks = Vec::new(alloc);
    for tuple in tuples {
        walks.push(instance_at(alloc, facts, id, step, place, values, tuple)?)?;
    }
    Ok(walks)
}

#[cycle(walk)]
pub(crate) fn instance_at<'a>(
    alloc: Global,
    facts: &Facts,
    id: &Text,
    step: &'a Step,
    place: &JobPlace,
    values: &Keyed<Value>,
    tuple: &Items<usize>,
) -> Result<Walk<'a>, AllocError>
    ensures { IfOk result (λ walk. walk_of walk
        ≡ instance (step_of facts.now step.now) (step_place place.now id.now tuple.now)
        (at_tuple (step_of facts.now step.now).scatter tuple.now values.now)) }
{
    let own = step_place(alloc, place, id, tuple)?;
    let fields = at_tuple(alloc, step.scatter.as_slice(), tuple.as_slice(), values)?;
    instance(alloc, facts, step, &own, &fields)
}

/// One value of a step: `valueFrom`, then `when`, then its process.
#[cycle(walk)]
fn instance<'a>(
    alloc: Global,
    facts: &Facts,
    step: &'a Step,
    place: &JobPlace,
    values: &Keyed<Value>,
) -> Result<Walk<'a>, AllocError>
    ensures { IfOk result (λ walk. walk_of walk
        ≡ instance (step_of facts.now step.now) place.now values.now) }
{
    match of_link(value_froms(alloc, step.inputs.as_slice(), values))? {
        Ok(fields) => {
            let walk = run_where(alloc, facts, step, place, &fields);
            drop(fields);
            walk
        }
        Err(cause) => failed(alloc, place, cause, step.outputs.as_slice()),
    }
}

#[cycle(walk)]
fn run_where<'a>(
    alloc: Global,
    facts: &Facts,
    step: &'a Step,
    place: &JobPlace,
    fields: &Keyed<Value>,
) -> Result<Walk<'a>, AllocError>
    ensures { IfOk result (λ walk. walk_of walk
        ≡ instance_from (step_of facts.now step.now) place.now (Ok fields.now)) }
{
    match goes_on(&step.when, fields)? {
        Ok(true) => walk_process(alloc, facts, &step.process, place, fields),
        Ok(false) => Ok(Walk {
            met: Items::new(alloc),
            outs: nulls(alloc, step.outputs.as_slice())?,
        }),
        Err(cause) => failed(alloc, place, cause, step.outputs.as_slice()),
    }
}

/// Whether a step is not skipped.
pub(crate) fn goes_on(
    when: &Option<Template>,
    fields: &Keyed<Value>,
) -> Result<Result<bool, Cause>, AllocError>
    ensures { IfOk result (λ found. found ≡ goes_on when.now fields.now) }
{
    match when {
        None => Ok(Ok(true)),
        Some(template) => of_link(when_value(template, fields)),
    }
}

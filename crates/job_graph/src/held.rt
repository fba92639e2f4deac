//! Whether the outputs of a step stay, where a job inside the workflow of one of its tuples has ended: nothing more is known of that workflow's
//! outputs, or another tuple holds the outputs of the step back.
ghost use Rattle.std.specs.Prelude.{◌≡◌, ◌≢◌, ◌≤◌, [], Ok, IfOk, bytes_eq, is_some, true};
ghost use Rattle.plain_data.specs.ByName.{value_at};
ghost use Rattle.document_links.specs.declared.process.Step.{out-Step};
ghost use Rattle.job_graph.specs.Equations.{over_lengths, scattered};
ghost use Rattle.job_graph.specs.inner.Going.{facts_before};
ghost use Rattle.job_graph.specs.inner.Levels.{step_of};
ghost use Rattle.job_graph.specs.inner.OneTuple.{HoldsBack, HoldsByOne, OutsStay, StaysWith, count_known, lacks, lacks_one, one_if, walk_for};
ghost use Rattle.job_graph.specs.inner.Rounds.{walk_at};

use crate::links::{Env, out_under};
use crate::made::Facts;
use crate::scatter::{lengths_under, tuples_for};
use crate::step::{Entered, enter, instance_at};
use crate::tuple::has_tuple;
use crate::walk::Out;
use cwl_value::{JobPlace, Value};
use document_links::Step;
use plain_data::{Items, Keyed, Text};
use scatter_shape::Method;
use std::alloc::{AllocError, Global};

/// Whether the outputs of a step stay, where the process of this tuple gives these outputs now.
#[tactic(auto, using(crate::proofs::Loops::never))]
pub(crate) fn outs_stay(
    alloc: Global,
    facts: &Facts,
    step: &(Text, Step),
    place: &JobPlace,
    inputs: &Keyed<Value>,
    env: &Env,
    others: &[Out],
    tuple: &[usize],
) -> Result<bool, AllocError>
    ensures { IfOk result (λ stays. stays ≡ true → StaysWith facts.now place.now inputs.now
        env.now step.now others.now (value_at step.now.0 env.now)) }
{
    let Some(outs) = env.get(step.0.as_str()) else {
        return Ok(false);
    };
    let outs = outs.as_slice();
    if step.1.scatter.is_empty() {
        return Ok(known_count(outs) == known_count(others));
    }
    if lacks(step.1.outputs.as_slice(), outs, others) {
        return Ok(true);
    }
    is_held(alloc, facts, step, place, inputs, env, outs, tuple)
}

/// How many of the outputs are known.
fn known_count(outs: &[Out]) -> usize
    ensures { result ≡ count_known outs.now }
{
    let mut count: usize = 0;
    for out in outs {
        count += one_if(out.1.is_some());
    }
    count
}

fn one_if(found: bool) -> usize
    ensures value { result ≡ one_if found }
    ensures small { result ≤ 1 }
{
    if found { 1 } else { 0 }
}

/// Whether another tuple of a scattered step holds the outputs of the step back.
#[tactic(auto, using(crate::proofs::Loops::never))]
fn is_held(
    alloc: Global,
    facts: &Facts,
    step: &(Text, Step),
    place: &JobPlace,
    inputs: &Keyed<Value>,
    env: &Env,
    outs: &[Out],
    tuple: &[usize],
) -> Result<bool, AllocError>
    ensures { IfOk result (λ held. held ≡ true → OutsStay outs.now
        (walk_at (facts_before facts.now) place.now inputs.now env.now step.now)
        (walk_at facts.now place.now inputs.now env.now step.now)) }
{
    let entered = enter(alloc, &facts.measures, &step.0, &step.1, place, inputs, env)?;
    let Entered { faults, values } = entered;
    drop(faults);
    match values {
        None => Ok(false),
        Some(values) => {
            let held = is_held_by(alloc, facts, &step.0, &step.1, place, &values, outs, tuple);
            drop(values);
            held
        }
    }
}

/// The same where these are the values of the step's inputs.
#[tactic(auto, using(crate::proofs::Loops::as_many_as_some, crate::proofs::Loops::never))]
fn is_held_by(
    alloc: Global,
    facts: &Facts,
    id: &Text,
    step: &Step,
    place: &JobPlace,
    values: &Keyed<Value>,
    outs: &[Out],
    tuple: &[usize],
) -> Result<bool, AllocError>
    ensures { IfOk result (λ held. held ≡ true → OutsStay outs.now
        (scattered (step_of (facts_before facts.now) step.now) id.now place.now values.now
        (out-Step step.now).scatter)
        (scattered (step_of facts.now step.now) id.now place.now values.now
        (out-Step step.now).scatter)) }
{
    if step.scatter.is_empty() {
        return Ok(false);
    }
    match lengths_under(alloc, step.scatter.as_slice(), values)? {
        Ok(lengths) => is_held_over(alloc, facts, id, step, place, values, outs, tuple, lengths),
        Err(_cause) => Ok(false),
    }
}

#[tactic(auto, using(crate::proofs::Loops::never))]
fn is_held_over(
    alloc: Global,
    facts: &Facts,
    id: &Text,
    step: &Step,
    place: &JobPlace,
    values: &Keyed<Value>,
    outs: &[Out],
    tuple: &[usize],
    lengths: Items<usize>,
) -> Result<bool, AllocError>
    requires some { lengths ≢ [] }
    ensures { IfOk result (λ held. held ≡ true → OutsStay outs.now
        (over_lengths (step_of (facts_before facts.now) step.now) id.now place.now values.now
        (Ok lengths))
        (over_lengths (step_of facts.now step.now) id.now place.now values.now (Ok lengths))) }
{
    let method = step.method.unwrap_or(Method::Dotproduct);
    if is_held_by_last(
        alloc,
        facts,
        id,
        step,
        place,
        values,
        outs,
        tuple,
        lengths.as_slice(),
    )? {
        return Ok(true);
    }
    match tuples_for(alloc, method, lengths.as_slice())? {
        Ok(tuples) => {
            let these = tuples.as_slice();
            let held = is_held_back(alloc, facts, id, step, place, values, outs, these, tuple);
            drop(tuples);
            held
        }
        Err(_cause) => Ok(false),
    }
}

/// Whether the last tuple holds the outputs back. Jobs end in nearly the order in which they became known, so as a rule it does, and no other
/// tuple has to be made.
fn is_held_by_last(
    alloc: Global,
    facts: &Facts,
    id: &Text,
    step: &Step,
    place: &JobPlace,
    values: &Keyed<Value>,
    outs: &[Out],
    tuple: &[usize],
    lengths: &[usize],
) -> Result<bool, AllocError>
    ensures { IfOk result (λ held. held ≡ true → HoldsByOne facts.now step.now id.now place.now
        values.now outs.now lengths.now) }
{
    let last = last_tuple(alloc, lengths)?;
    let method = step.method.unwrap_or(Method::Dotproduct);
    if !has_tuple(method, lengths, last.as_slice()) {
        drop(last);
        return Ok(false);
    }
    let held = holds_back(alloc, facts, id, step, place, values, outs, &last, tuple);
    drop(last);
    held
}

fn last_tuple(alloc: Global, lengths: &[usize]) -> Result<Items<usize>, AllocError> {
    let mut last = Items::new(alloc);
    for length in lengths {
        last.push(length.saturating_sub(1))?;
    }
    Ok(last)
}

pub(crate) fn is_same_tuple(one: &[usize], other: &[usize]) -> bool
    ensures { result ≡ bytes_eq one.now other.now }
{
    one == other
}

/// Whether a tuple other than this one has no value for each output that the step has none for. The search begins with the last one.
fn is_held_back(
    alloc: Global,
    facts: &Facts,
    id: &Text,
    step: &Step,
    place: &JobPlace,
    values: &Keyed<Value>,
    outs: &[Out],
    tuples: &[Items<usize>],
    tuple: &[usize],
) -> Result<bool, AllocError>
    ensures { IfOk result (λ held. held ≡ true → HoldsBack facts.now step.now id.now place.now
        values.now outs.now tuples.now) }
{
    for back in 0..tuples.len() {
        let number = tuples.len() - 1 - back;
        let one = &tuples[number];
        if holds_back(alloc, facts, id, step, place, values, outs, one, tuple)? {
            return Ok(true);
        }
    }
    Ok(false)
}

fn holds_back(
    alloc: Global,
    facts: &Facts,
    id: &Text,
    step: &Step,
    place: &JobPlace,
    values: &Keyed<Value>,
    outs: &[Out],
    one: &Items<usize>,
    tuple: &[usize],
) -> Result<bool, AllocError>
    ensures { IfOk result (λ held. held ≡ true → lacks (out-Step step.now).outputs outs.now
        (walk_for facts.now step.now id.now place.now values.now one.now).outs ≡ true) }
{
    if is_same_tuple(one.as_slice(), tuple) {
        return Ok(false);
    }
    let walk = instance_at(alloc, facts, id, step, place, values, one)?;
    let is_lacking = lacks(step.outputs.as_slice(), outs, walk.outs.as_slice());
    drop(walk);
    Ok(is_lacking)
}

/// Whether each of the names that have no value in the first have none in the second.
fn lacks(names: &[Text], outs: &[Out], others: &[Out]) -> bool
    ensures { result ≡ lacks names.now outs.now others.now }
{
    for name in names {
        if !lacks_one(name.as_str(), outs, others) {
            return false;
        }
    }
    true
}

fn lacks_one(name: &str, outs: &[Out], others: &[Out]) -> bool
    ensures { result ≡ lacks_one outs.now others.now name.now }
{
    out_under(outs, name).is_some() || out_under(others, name).is_none()
}

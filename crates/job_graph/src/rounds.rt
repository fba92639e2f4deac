//! The steps of a workflow: each is walked once, when none of its inputs waits any more.
ghost use Rattle.std.specs.Prelude.{◌≡◌, IfOk, None, OnOk, is_some, map, replicate};
ghost use Rattle.document_links.specs.declared.process.Step.{out-Step};
ghost use Rattle.plain_data.specs.ByName.{value_at, with_value};
ghost use Rattle.job_graph.specs.Links.{out_under};
ghost use Rattle.job_graph.specs.inner.Rounds.{AllMeet, Holds, IsSettled, SettlesMore, are_known, is_known, is_ready, is_stuck, walk_at};
ghost use Rattle.job_graph.specs.inner.Views.{met_of};

use crate::links::{Env, sources_of, step_value};
use crate::made::Facts;
use crate::step::walk_step;
use crate::walk::{Met, Walk};
use cwl_process::{Entries, Source};
use cwl_value::{JobPlace, Value};
use document_links::Step;
use plain_data::{Items, Keyed, Text};
use std::alloc::{AllocError, Global};

/// What the steps of a workflow give and meet, where all is known that can be.
#[derive(Drop)]
pub(crate) struct Settled<'a> {
    /// The outputs of the steps that were walked, by their ids.
    pub outs: Env,
    /// What each step met that was walked, in the order of the document.
    pub met: Vec<Option<Items<Met<'a>>>>,
}

/// Walks each step once none of its inputs waits, until no other step can be walked.
#[cycle(walk)]
pub(crate) fn settle_steps<'a>(
    alloc: Global,
    facts: &Facts,
    steps: &'a Entries<Step>,
    place: &JobPlace,
    inputs: &Keyed<Value>,
) -> Result<Settled<'a>, AllocError>
    ensures outs { IfOk result
        (λ settled. IsSettled facts.now place.now inputs.now steps.now settled.outs) }
    ensures met { IfOk result (λ settled. AllMeet facts.now place.now inputs.now settled.outs
        steps.now settled.met.items) }
{
    let met = none_met(alloc, steps.len())?;
    let mut settled = Settled {
        outs: Keyed::new(alloc),
        met,
    };
    while settle_more(alloc, facts, steps, place, inputs, &mut settled)? {}
    Ok(settled)
}

/// A place for what each step meets, with nothing there yet.
fn none_met<'a>(alloc: Global, count: usize) -> Result<Vec<Option<Items<Met<'a>>>>, AllocError>
    ensures { IfOk result (λ met. met.items ≡ replicate count None) }
{
    let mut met = Vec::with_capacity(alloc, count)?;
    for _ in 0..count {
        met.push(None)?;
    }
    Ok(met)
}

/// Looks once at each step, and says whether one was walked. One look is enough where each step stands after those that it reads.
#[cycle(walk)]
fn settle_more<'a>(
    alloc: Global,
    facts: &Facts,
    steps: &'a Entries<Step>,
    place: &JobPlace,
    inputs: &Keyed<Value>,
    settled: &mut Settled<'a>,
) -> Result<bool, AllocError>
    requires { Holds facts.now place.now inputs.now steps.now settled.old.outs
        settled.old.met.items }
    ensures { IfOk result (λ more. SettlesMore facts.now place.now inputs.now steps.now
        settled.old.outs more settled.new.outs settled.new.met.items) }
{
    let entries = steps.as_slice();
    let mut more = false;
    for number in 0..entries.len() {
        let step = &entries[number];
        if !is_stuck(&settled.outs, step) {
            let env = &mut settled.outs;
            let met = settle(alloc, facts, &step.0, &step.1, place, inputs, env)?;
            settled.met[number] = Some(met);
            more = true;
        }
    }
    Ok(more)
}

/// Walks a step, keeps its outputs and returns what it met.
#[cycle(walk)]
fn settle<'a>(
    alloc: Global,
    facts: &Facts,
    id: &Text,
    step: &'a Step,
    place: &JobPlace,
    inputs: &Keyed<Value>,
    env: &mut Env,
) -> Result<Items<Met<'a>>, AllocError>
    ensures met { IfOk result (λ met. map met_of met
        ≡ (walk_at facts.now place.now inputs.now env.old (id.now, step.now)).met) }
    ensures outs { OnOk result (env.new
        ≡ with_value id.now (walk_at facts.now place.now inputs.now env.old (id.now, step.now)).outs
        env.old) }
{
    let name = id.copied(alloc)?;
    let Walk { met, outs } = walk_step(alloc, facts, id, step, place, inputs, env)?;
    drop(env.insert(name, outs)?);
    Ok(met)
}

/// Whether a step has its outputs there already, or one of its inputs waits.
fn is_stuck(env: &Env, step: &(Text, Step)) -> bool
    ensures { result ≡ is_stuck env.now step.now }
{
    is_walked(env, step.0.as_str()) || !is_ready(env, &step.1)
}

pub(crate) fn is_walked(env: &Env, step: &str) -> bool
    ensures { result ≡ is_some (value_at step.now env.now) }
{
    env.get(step).is_some()
}

/// Whether none of a step's inputs waits.
fn is_ready(env: &Env, step: &Step) -> bool
    ensures { result ≡ is_ready env.now step.now }
{
    for input in step.inputs.as_slice() {
        if !are_known(env, sources_of(&input.1.links)) {
            return false;
        }
    }
    true
}

/// Whether the value of each source is known.
fn are_known(env: &Env, sources: &[Source]) -> bool
    ensures { result ≡ are_known env.now sources.now }
{
    for source in sources {
        if !is_known(env, source) {
            return false;
        }
    }
    true
}

/// Whether the value of a source is known.
pub(crate) fn is_known(env: &Env, source: &Source) -> bool
    ensures { result ≡ is_known env.now source.now }
{
    match &source.step {
        None => true,
        Some(step) => has_output(env, step.as_str(), source.name.as_str()),
    }
}

fn has_output(env: &Env, step: &str, name: &str) -> bool
    ensures { result ≡ is_some (out_under name.now (value_at step.now env.now)) }
{
    step_value(env, step, name).is_some()
}

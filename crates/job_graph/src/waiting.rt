//! How the steps of a workflow go on, where a job below one of them has ended: that step is walked anew, and then those that waited for it. Of each
//! step the number of the values is kept that it still waits for, and those are walked whose number comes to none. No other step is looked at.
ghost use Rattle.std.specs.Prelude.{◌≡◌, ◌<◌, ◌==◌, ◌||◌, [], IfOk, List, OnOk, get_or, is_some, length, map, not, true, unwrap_or};
ghost use Rattle.document_links.specs.declared.process.Step.{Step};
ghost use Rattle.job_graph.specs.Words.{Name};
ghost use Rattle.std.specs.List.{flat_map, list_all};
ghost use Rattle.std.specs.BTreeMap.{IsOrdered};
ghost use Rattle.std.specs.Ordering.{nat_cmp};
ghost use Rattle.job_graph.specs.Apart.{step_ids_differ};
ghost use Rattle.plain_data.specs.ByName.{value_at};
ghost use Rattle.job_graph.specs.inner.Counts.{CanLower, IsCounted};
ghost use Rattle.job_graph.specs.inner.Elements.{stands_in};
ghost use Rattle.job_graph.specs.inner.Going.{AreNumbers, AreRight, EndedBelow, HasGone, Hears, HearsOne, IsAbove, LeavesOut, WalksOne, facts_before, reads_one};
ghost use Rattle.job_graph.specs.inner.Levels.{steps_of, steps_walk};
ghost use Rattle.job_graph.specs.inner.Readers.{IsTableOf};
ghost use Rattle.job_graph.specs.inner.Rounds.{EnvGrows, IsSettled};
ghost use Rattle.job_graph.specs.inner.Views.{met_of};

use crate::counts::{Waits, count_unknown, lower};
use crate::gather::push_met;
use crate::links::Env;
use crate::made::Facts;
use crate::readers::Readers;
use crate::rounds::is_walked;
use crate::step::walk_step;
use crate::walk::{Met, Out, Walk};
use crate::workflow::{Walked, step_met, with_outputs};
use cwl_process::{Entries, WorkflowOutput};
use cwl_value::{JobPlace, Segment, Value};
use document_links::Step;
use plain_data::{Items, Keyed, Text};
use std::alloc::{AllocError, Global};
use std::collections::BTreeMap;

/// The steps of a workflow, while they go on.
#[derive(Drop)]
struct Going<'a> {
    /// The outputs of the steps that were walked, by their ids.
    env: Env,
    /// What each step met that was walked anew, by its number.
    met: BTreeMap<usize, Items<Met<'a>>>,
    /// The ids of the steps that were walked.
    changed: Items<Text>,
    /// How many values each step still waits for, and which are to be walked next.
    waits: Waits,
}

/// The walk through a workflow's steps and outputs, the outputs of those steps that were walked, and how many values each step still waits for.
#[derive(Drop)]
pub(crate) struct Counted<'a> {
    pub walk: Walk<'a>,
    pub env: Env,
    pub counts: Vec<usize>,
}

/// A walk from the beginning, with its counts.
pub(crate) fn with_counts<'a>(
    alloc: Global,
    walked: Walked<'a>,
    steps: &Entries<Step>,
) -> Result<Counted<'a>, AllocError>
    ensures walk { IfOk result (λ counted. counted.walk ≡ walked.entry.walk) }
    ensures env { IfOk result (λ counted. counted.env ≡ walked.entry.env) }
    ensures counts { IfOk result
        (λ counted. IsCounted counted.env steps.now counted.counts.items) }
{
    let Walked { walk, env } = walked;
    let counts = count_unknown(alloc, &env, steps)?;
    Ok(Counted { walk, env, counts })
}

/// The walk through a workflow's steps and outputs, where a job came to be known at a place below the workflow. What was met before may be
/// left out.
pub(crate) fn walk_on<'a>(
    alloc: Global,
    facts: &Facts,
    steps: &'a Entries<Step>,
    readers: &Readers,
    outputs: &[(Text, WorkflowOutput)],
    place: &JobPlace,
    inputs: &Keyed<Value>,
    env: Env,
    counts: Vec<usize>,
    ended: &[Segment],
) -> Result<Counted<'a>, AllocError>
    requires before { IsSettled (facts_before facts.now) place.now inputs.now steps.now env }
    requires table { IsTableOf readers.now steps.now }
    requires counted { IsCounted env steps.now counts.items }
    requires ended { EndedBelow facts.now place.now ended.now }
    requires apart { list_all (λ s. step_ids_differ s.1) steps.now ≡ true }
    ensures met { IfOk result (λ walked. LeavesOut
        (steps_walk outputs.now (steps_of (facts_before facts.now) steps.now) place.now
        inputs.now).met (map met_of walked.walk.met)
        (steps_walk outputs.now (steps_of facts.now steps.now) place.now inputs.now).met) }
    ensures outs { IfOk result (λ walked. walked.walk.outs
        ≡ (steps_walk outputs.now (steps_of facts.now steps.now) place.now inputs.now).outs) }
    ensures env { IfOk result
        (λ walked. IsSettled facts.now place.now inputs.now steps.now walked.env) }
    ensures counted { IfOk result (λ walked. IsCounted walked.env steps.now walked.counts.items) }
    ensures grown { IfOk result (λ walked. EnvGrows env walked.env) }
{
    let going = go_on(
        alloc, facts, steps, readers, place, inputs, env, counts, ended,
    )?;
    let Going {
        env,
        met,
        changed,
        waits,
    } = going;
    let mut met = met;
    let ids = changed.as_slice();
    hear_waiting(
        alloc, facts, steps, readers, place, inputs, &env, ids, &mut met,
    )?;
    let met = in_order(alloc, met)?;
    let walk = with_outputs(alloc, met, outputs, place, inputs, &env)?;
    let Waits { counts, pending } = waits;
    drop(pending);
    Ok(Counted { walk, env, counts })
}

/// Walks anew the step above a place, and those that waited for it, until no other step can be walked.
fn go_on<'a>(
    alloc: Global,
    facts: &Facts,
    steps: &'a Entries<Step>,
    readers: &Readers,
    place: &JobPlace,
    inputs: &Keyed<Value>,
    env: Env,
    counts: Vec<usize>,
    ended: &[Segment],
) -> Result<Going<'a>, AllocError>
    requires before { IsSettled (facts_before facts.now) place.now inputs.now steps.now env }
    requires table { IsTableOf readers.now steps.now }
    requires counted { IsCounted env steps.now counts.items }
    requires ended { EndedBelow facts.now place.now ended.now }
    requires apart { list_all (λ s. step_ids_differ s.1) steps.now ≡ true }
    ensures { IfOk result (HasGone facts.now place.now inputs.now steps.now ended.now env) }
{
    let entries = steps.as_slice();
    let above = step_above(readers, &env, ended);
    let pending = Items::new(alloc);
    let mut going = Going {
        env,
        met: BTreeMap::new(alloc),
        changed: Items::new(alloc),
        waits: Waits { counts, pending },
    };
    let Some(number) = above else {
        return Ok(going);
    };
    let step = &entries[number];
    walk_one(
        alloc, facts, readers, place, inputs, number, step, &mut going,
    )?;
    while let Some(number) = going.waits.pending.pop() {
        let step = &entries[number];
        if !is_stuck(&going, number, step) {
            walk_one(
                alloc, facts, readers, place, inputs, number, step, &mut going,
            )?;
        }
    }
    Ok(going)
}

/// The number of the step that was walked and that a place goes through.
pub(crate) fn step_above(readers: &Readers, env: &Env, ended: &[Segment]) -> Option<usize>
    ensures { (steps : List (Name × Step)) → IsTableOf readers.now steps →
        IsAbove ended.now env.now steps result }
{
    match ended {
        [] => None,
        [segment, ..] => {
            if !is_walked(env, segment.step.as_str()) {
                return None;
            }
            readers.number_of(segment.step.as_str())
        }
    }
}

/// Whether a step has its outputs there already, or waits for a value, by its count.
fn is_stuck(going: &Going<'_>, number: usize, step: &(Text, Step)) -> bool
    requires { number < length going.now.waits.counts.items }
    ensures { result ≡ (is_some (value_at step.now.0 going.now.env)
        || not (get_or going.now.waits.counts.items number 0 == 0)) }
{
    let counts = going.waits.counts.as_slice();
    is_walked(&going.env, step.0.as_str()) || counts[number] != 0
}

/// Walks a step of this number, and keeps its outputs and what it met. What waited for nothing but these outputs is to be walked next.
fn walk_one<'a>(
    alloc: Global,
    facts: &Facts,
    readers: &Readers,
    place: &JobPlace,
    inputs: &Keyed<Value>,
    number: usize,
    step: &'a (Text, Step),
    going: &mut Going<'a>,
) -> Result<(), AllocError>
    requires { CanLower readers.now step.now.0 going.old.env going.old.waits.counts.items }
    ensures { OnOk result (WalksOne facts.now place.now inputs.now readers.now step.now number
        going.old going.new) }
{
    let env = &going.env;
    let walk = walk_step(alloc, facts, &step.0, &step.1, place, inputs, env)?;
    let Walk { met, outs } = walk;
    drop(going.met.insert(number, met)?);
    going.changed.push(step.0.copied(alloc)?)?;
    let outputs = readers.awaited(step.0.as_str());
    let before = outs_of(&going.env, step.0.as_str());
    lower(outputs, before, outs.as_slice(), &mut going.waits)?;
    drop(going.env.insert(step.0.copied(alloc)?, outs)?);
    Ok(())
}

/// The outputs of a step that are there.
fn outs_of<'a>(env: &'a Env, id: &str) -> &'a [Out]
    ensures { result.now ≡ unwrap_or (value_at id.now env.now) [] }
{
    match env.get(id) {
        None => &[],
        Some(outs) => outs.as_slice(),
    }
}

/// Adds what those steps meet that read one of these and still wait. All others that were not walked meet nothing new.
fn hear_waiting<'a>(
    alloc: Global,
    facts: &Facts,
    steps: &'a Entries<Step>,
    readers: &Readers,
    place: &JobPlace,
    inputs: &Keyed<Value>,
    env: &Env,
    changed: &[Text],
    met: &mut BTreeMap<usize, Items<Met<'a>>>,
) -> Result<(), AllocError>
    requires table { IsTableOf readers.now steps.now }
    requires right { AreRight facts.now place.now inputs.now steps.now env.now met.old }
    ensures { OnOk result (Hears facts.now place.now inputs.now steps.now env.now
        (λ n s. reads_one changed.now s.1) met.old met.new) }
{
    for id in changed {
        let row = readers.reading(id.as_str());
        hear_some(alloc, facts, steps, place, inputs, env, row, met)?;
    }
    Ok(())
}

/// Adds what those of these steps meet that still wait.
fn hear_some<'a>(
    alloc: Global,
    facts: &Facts,
    steps: &'a Entries<Step>,
    place: &JobPlace,
    inputs: &Keyed<Value>,
    env: &Env,
    row: &[usize],
    met: &mut BTreeMap<usize, Items<Met<'a>>>,
) -> Result<(), AllocError>
    requires row { AreNumbers steps.now row.now }
    requires right { AreRight facts.now place.now inputs.now steps.now env.now met.old }
    ensures { OnOk result (Hears facts.now place.now inputs.now steps.now env.now
        (λ n s. stands_in n row.now) met.old met.new) }
{
    let entries = steps.as_slice();
    for number in row {
        let step = &entries[*number];
        hear(alloc, facts, place, inputs, env, *number, step, met)?;
    }
    Ok(())
}

/// Adds what a step of this number meets, if it still waits and is not there yet.
fn hear<'a>(
    alloc: Global,
    facts: &Facts,
    place: &JobPlace,
    inputs: &Keyed<Value>,
    env: &Env,
    number: usize,
    step: &'a (Text, Step),
    met: &mut BTreeMap<usize, Items<Met<'a>>>,
) -> Result<(), AllocError>
    ensures { OnOk result (HearsOne facts.now place.now inputs.now env.now number step.now met.old
        met.new) }
{
    if is_walked(env, step.0.as_str()) || met.contains_key(&number) {
        return Ok(());
    }
    let more = step_met(alloc, facts, &step.0, &step.1, place, inputs, env)?;
    drop(met.insert(number, more)?);
    Ok(())
}

/// All that is met, in the order of the document.
fn in_order<'a>(
    alloc: Global,
    met: BTreeMap<usize, Items<Met<'a>>>,
) -> Result<Items<Met<'a>>, AllocError>
    ensures met { IfOk result (λ all. map met_of all
        ≡ flat_map (λ e. map met_of e.1) met.entry.entries) }
    ensures order { IsOrdered nat_cmp met.entry }
{
    let mut all = Items::new(alloc);
    for (_, more) in met {
        push_met(&mut all, more)?;
    }
    Ok(all)
}

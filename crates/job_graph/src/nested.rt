//! What is kept of the workflows inside steps, one inside another along the place that was learned last, and how the walk through a workflow goes
//! on by it, where a job inside a step has ended and the outputs of the step stay: that inner workflow goes on, and all else stays.
ghost use Rattle.std.specs.Prelude.{◌≡◌, ◌∷◌, IfOk, IfSome, reverse, true};
ghost use Rattle.std.specs.List.{list_all};
ghost use Rattle.document_links.specs.declared.process.Process.{out-Process};
ghost use Rattle.job_graph.specs.Apart.{ids_differ, step_ids_differ};
ghost use Rattle.job_graph.specs.Equations.{step_place};
ghost use Rattle.job_graph.specs.inner.Counts.{IsCounted};
ghost use Rattle.job_graph.specs.inner.Going.{EndedBelow, facts_before};
ghost use Rattle.job_graph.specs.inner.Nested.{BeginsAs, GoesDeeper, GoesOnIn, HasBegun, HasInner, IsFound, KeepsAlong, MayKeep, NestedMeet, SettledIn};
ghost use Rattle.job_graph.specs.inner.Readers.{IsTableOf};
ghost use Rattle.job_graph.specs.inner.Rounds.{IsSettled};

use crate::handed::handed;
use crate::held::{is_same_tuple, outs_stay};
use crate::inputs::workflow_inputs;
use crate::links::Env;
use crate::made::Facts;
use crate::place::{after_first, step_place};
use crate::readers::Readers;
use crate::waiting::{Counted, step_above, walk_on, with_counts};
use crate::walk::Walk;
use crate::workflow::{walk_keeping, with_outputs};
use cwl_process::{Entries, WorkflowOutput};
use cwl_value::{JobPlace, Segment, Value};
use document_links::{Process, Step, Workflow};
use plain_data::{Items, Keyed, Text};
use std::alloc::{AllocError, Global};

/// What is kept of the workflow inside a step: of that of one tuple, where the step is scattered.
#[derive(Drop)]
pub(crate) struct Nested {
    /// The number of the step.
    pub number: usize,
    /// The tuple; empty where the step is not scattered.
    pub tuple: Items<usize>,
    /// The inputs of the inner workflow, the readers of each of its steps, and the outputs of those that were walked.
    pub inputs: Keyed<Value>,
    pub readers: Readers,
    pub env: Env,
    /// How many values each step of it still waits for.
    pub counts: Vec<usize>,
}

/// The walk through an inner workflow, and what is kept of it and inside it, the outermost last.
#[derive(Drop)]
pub(crate) struct Inner<'a> {
    pub walk: Walk<'a>,
    pub nested: Items<Nested>,
}

/// The walk through the workflow inside a step, and whether the outputs of the step stay.
#[derive(Drop)]
struct Found<'a> {
    inner: Inner<'a>,
    stays: bool,
}

/// The walk through a workflow, the outputs of its steps, how many values each of them still waits for, and what is kept inside one of them, the
/// outermost last.
#[derive(Drop)]
pub(crate) struct Deeper<'a> {
    pub walk: Walk<'a>,
    pub env: Env,
    pub counts: Vec<usize>,
    pub nested: Items<Nested>,
}

/// The walk through a workflow's steps and outputs, where a job came to be known at a place below the workflow. What was met before may be
/// left out.
#[cycle(nested)]
pub(crate) fn walk_deeper<'a>(
    alloc: Global,
    facts: &Facts,
    steps: &'a Entries<Step>,
    readers: &Readers,
    outputs: &[(Text, WorkflowOutput)],
    place: &JobPlace,
    inputs: &Keyed<Value>,
    env: Env,
    counts: Vec<usize>,
    nested: Items<Nested>,
    ended: &[Segment],
) -> Result<Deeper<'a>, AllocError>
    requires before { IsSettled (facts_before facts.now) place.now inputs.now steps.now env }
    requires along { KeepsAlong (facts_before facts.now) place.now inputs.now steps.now env
        (reverse nested) }
    requires table { IsTableOf readers.now steps.now }
    requires counted { IsCounted env steps.now counts.items }
    requires ended { EndedBelow facts.now place.now ended.now }
    requires apart { list_all (λ s. step_ids_differ s.1) steps.now ≡ true }
    ensures { IfOk result (GoesDeeper facts.now place.now inputs.now outputs.now steps.now) }
{
    let found = met_deeper(
        alloc, facts, steps, readers, place, inputs, &env, nested, ended,
    )?;
    walk_by(
        alloc, facts, steps, readers, outputs, place, inputs, env, counts, found, ended,
    )
}

/// The walk, by what was found inside one of the steps.
fn walk_by<'a>(
    alloc: Global,
    facts: &Facts,
    steps: &'a Entries<Step>,
    readers: &Readers,
    outputs: &[(Text, WorkflowOutput)],
    place: &JobPlace,
    inputs: &Keyed<Value>,
    env: Env,
    counts: Vec<usize>,
    found: Option<Found<'a>>,
    ended: &[Segment],
) -> Result<Deeper<'a>, AllocError>
    requires before { IsSettled (facts_before facts.now) place.now inputs.now steps.now env }
    requires found { IfSome found (NestedMeet facts.now place.now inputs.now steps.now env) }
    requires table { IsTableOf readers.now steps.now }
    requires counted { IsCounted env steps.now counts.items }
    requires ended { EndedBelow facts.now place.now ended.now }
    requires apart { list_all (λ s. step_ids_differ s.1) steps.now ≡ true }
    ensures { IfOk result (GoesDeeper facts.now place.now inputs.now outputs.now steps.now) }
{
    match found {
        None => {
            let walked = walk_on(
                alloc, facts, steps, readers, outputs, place, inputs, env, counts, ended,
            )?;
            Ok(with_nested(walked, Items::new(alloc)))
        }
        Some(found) => walk_found(
            alloc, facts, steps, readers, outputs, place, inputs, env, counts, found, ended,
        ),
    }
}

fn walk_found<'a>(
    alloc: Global,
    facts: &Facts,
    steps: &'a Entries<Step>,
    readers: &Readers,
    outputs: &[(Text, WorkflowOutput)],
    place: &JobPlace,
    inputs: &Keyed<Value>,
    env: Env,
    counts: Vec<usize>,
    found: Found<'a>,
    ended: &[Segment],
) -> Result<Deeper<'a>, AllocError>
    requires before { IsSettled (facts_before facts.now) place.now inputs.now steps.now env }
    requires found { NestedMeet facts.now place.now inputs.now steps.now env found }
    requires table { IsTableOf readers.now steps.now }
    requires counted { IsCounted env steps.now counts.items }
    requires ended { EndedBelow facts.now place.now ended.now }
    requires apart { list_all (λ s. step_ids_differ s.1) steps.now ≡ true }
    ensures { IfOk result (GoesDeeper facts.now place.now inputs.now outputs.now steps.now) }
{
    let Found { inner, stays } = found;
    let Inner { walk, nested } = inner;
    let Walk { met, outs } = walk;
    drop(outs);
    if stays {
        let walk = with_outputs(alloc, met, outputs, place, inputs, &env)?;
        return Ok(with_nested(Counted { walk, env, counts }, nested));
    }
    drop(met);
    let walked = walk_on(
        alloc, facts, steps, readers, outputs, place, inputs, env, counts, ended,
    )?;
    Ok(with_nested(walked, nested))
}

pub(crate) fn with_nested<'a>(walked: Counted<'a>, nested: Items<Nested>) -> Deeper<'a>
    ensures { result ≡ record {
      walk = walked.entry.walk;
      env = walked.entry.env;
      counts = walked.entry.counts;
      nested = nested;
    } }
{
    let Counted { walk, env, counts } = walked;
    Deeper {
        walk,
        env,
        counts,
        nested,
    }
}

/// The walk through the workflow inside the step that the place goes through, if there is one. Where the outputs of the step stay, it meets what all
/// steps meet, but for what was met before.
#[cycle(nested)]
fn met_deeper<'a>(
    alloc: Global,
    facts: &Facts,
    steps: &'a Entries<Step>,
    readers: &Readers,
    place: &JobPlace,
    inputs: &Keyed<Value>,
    env: &Env,
    nested: Items<Nested>,
    ended: &[Segment],
) -> Result<Option<Found<'a>>, AllocError>
    requires before { IsSettled (facts_before facts.now) place.now inputs.now steps.now env.now }
    requires along { KeepsAlong (facts_before facts.now) place.now inputs.now steps.now env.now
        (reverse nested) }
    requires table { IsTableOf readers.now steps.now }
    requires ended { EndedBelow facts.now place.now ended.now }
    requires apart { list_all (λ s. step_ids_differ s.1) steps.now ≡ true }
    ensures { IfOk result (λ found. IfSome found
        (NestedMeet facts.now place.now inputs.now steps.now env.now)) }
{
    if ended.len() < 2 {
        // The place is that of a step's own job, and no workflow is inside it.
        return Ok(None);
    }
    let entries = steps.as_slice();
    let Some(number) = step_above(readers, env, ended) else {
        return Ok(None);
    };
    let step = &entries[number];
    match ended {
        [] => Ok(None),
        [segment, ..] => {
            let tuple = segment.index.as_slice();
            let rest = after_first(ended);
            let inner = inner_at(
                alloc, facts, number, step, place, inputs, env, nested, tuple, rest,
            )?;
            with_stay(alloc, facts, step, place, inputs, env, tuple, inner)
        }
    }
}

/// The inner walk at a tuple of a step: it goes on from what is kept of it, if that is of this tuple.
#[cycle(nested)]
fn inner_at<'a>(
    alloc: Global,
    facts: &Facts,
    number: usize,
    step: &'a (Text, Step),
    place: &JobPlace,
    inputs: &Keyed<Value>,
    env: &Env,
    nested: Items<Nested>,
    tuple: &[usize],
    rest: &[Segment],
) -> Result<Option<Inner<'a>>, AllocError>
    requires along { MayKeep (facts_before facts.now) place.now inputs.now env.now step.now number
        (reverse nested) }
    requires ended { EndedBelow facts.now (step_place place.now step.now.0 tuple.now) rest.now }
    requires apart { step_ids_differ step.now.1 ≡ true }
    ensures { IfOk result (λ found. IfSome found
        (HasInner facts.now place.now inputs.now env.now step.now number tuple.now)) }
{
    let mut nested = nested;
    match nested.pop() {
        None => begin(alloc, facts, number, step, place, inputs, env, tuple),
        Some(one) => {
            if !is_of(&one, number, tuple) {
                drop(one);
                drop(nested);
                return begin(alloc, facts, number, step, place, inputs, env, tuple);
            }
            go_on(
                alloc,
                facts,
                &step.0,
                &step.1.process,
                place,
                one,
                nested,
                rest,
            )
        }
    }
}

/// Whether this is kept of the workflow inside the step of this number, at this tuple.
fn is_of(one: &Nested, number: usize, tuple: &[usize]) -> bool
    ensures { result ≡ true → (one.now.number ≡ number) × (one.now.tuple ≡ tuple.now) }
{
    one.number == number && is_same_tuple(one.tuple.as_slice(), tuple)
}

/// The walk through the inner workflow, by what is kept of it and inside it.
#[cycle(nested)]
fn go_on<'a>(
    alloc: Global,
    facts: &Facts,
    id: &Text,
    process: &'a Process,
    place: &JobPlace,
    one: Nested,
    nested: Items<Nested>,
    rest: &[Segment],
) -> Result<Option<Inner<'a>>, AllocError>
    requires settled { SettledIn (facts_before facts.now) (step_place place.now id.now one.tuple)
        (out-Process process.now) one (reverse nested) }
    requires ended { EndedBelow facts.now (step_place place.now id.now one.tuple) rest.now }
    requires apart { ids_differ process.now ≡ true }
    ensures { IfOk result (λ found. IfSome found (GoesOnIn facts.now
        (step_place place.now id.now one.tuple) (out-Process process.now) one)) }
{
    match process {
        Process::Tool(_tool) => {
            drop(one);
            drop(nested);
            Ok(None)
        }
        Process::Workflow(workflow) => {
            let own = step_place(alloc, place, id, &one.tuple)?;
            let Nested {
                number,
                tuple,
                inputs,
                readers,
                env,
                counts,
            } = one;
            let steps = &workflow.steps;
            let outputs = workflow.outputs.as_slice();
            let deeper = walk_deeper(
                alloc, facts, steps, &readers, outputs, &own, &inputs, env, counts, nested, rest,
            )?;
            Ok(Some(with_inner(number, tuple, inputs, readers, deeper)?))
        }
    }
}

/// The walk through the inner workflow at a tuple of a step, from its beginning.
fn begin<'a>(
    alloc: Global,
    facts: &Facts,
    number: usize,
    step: &'a (Text, Step),
    place: &JobPlace,
    inputs: &Keyed<Value>,
    env: &Env,
    tuple: &[usize],
) -> Result<Option<Inner<'a>>, AllocError>
    ensures { IfOk result (λ found. IfSome found
        (HasInner facts.now place.now inputs.now env.now step.now number tuple.now)) }
{
    let Some(given) = handed(alloc, facts, step, place, inputs, env, tuple)? else {
        return Ok(None);
    };
    let tuple = Items::from_vec(Vec::from_slice(alloc, tuple)?);
    let own = step_place(alloc, place, &step.0, &tuple)?;
    let inner = begin_process(alloc, facts, number, &step.1.process, &own, tuple, &given);
    drop(given);
    inner
}

fn begin_process<'a>(
    alloc: Global,
    facts: &Facts,
    number: usize,
    process: &'a Process,
    own: &JobPlace,
    tuple: Items<usize>,
    given: &Keyed<Value>,
) -> Result<Option<Inner<'a>>, AllocError>
    ensures { IfOk result (λ found. IfSome found
        (HasBegun facts.now own.now (out-Process process.now) given.now number tuple)) }
{
    match process {
        Process::Tool(_tool) => {
            drop(tuple);
            Ok(None)
        }
        Process::Workflow(workflow) => begin_workflow(
            alloc, facts, number, workflow, own, tuple, given,
        ),
    }
}

fn begin_workflow<'a>(
    alloc: Global,
    facts: &Facts,
    number: usize,
    workflow: &'a Workflow,
    own: &JobPlace,
    tuple: Items<usize>,
    given: &Keyed<Value>,
) -> Result<Option<Inner<'a>>, AllocError>
    ensures { IfOk result (λ found. IfSome found
        (BeginsAs facts.now own.now workflow.now given.now number tuple)) }
{
    match workflow_inputs(alloc, &facts.measures, workflow.inputs.as_slice(), given)? {
        Ok(inputs) => {
            let outputs = workflow.outputs.as_slice();
            let walked = walk_keeping(alloc, facts, &workflow.steps, outputs, own, &inputs)?;
            let walked = with_counts(alloc, walked, &workflow.steps)?;
            let readers = Readers::of(alloc, &workflow.steps)?;
            Ok(Some(with_inner(
                number,
                tuple,
                inputs,
                readers,
                with_nested(walked, Items::new(alloc)),
            )?))
        }
        Err(_cause) => {
            drop(tuple);
            Ok(None)
        }
    }
}

/// The inner walk, and what is kept of it over what is kept inside it.
fn with_inner<'a>(
    number: usize,
    tuple: Items<usize>,
    inputs: Keyed<Value>,
    readers: Readers,
    deeper: Deeper<'a>,
) -> Result<Inner<'a>, AllocError>
    ensures walk { IfOk result (λ inner. inner.walk ≡ deeper.entry.walk) }
    ensures nested { IfOk result (λ inner. reverse inner.nested ≡ record {
      number = number;
      tuple = tuple;
      inputs = inputs;
      readers = readers;
      env = deeper.entry.env;
      counts = deeper.entry.counts;
    } ∷ reverse deeper.entry.nested) }
{
    let Deeper {
        walk,
        env,
        counts,
        nested,
    } = deeper;
    let mut nested = nested;
    nested.push(Nested {
        number,
        tuple,
        inputs,
        readers,
        env,
        counts,
    })?;
    Ok(Inner { walk, nested })
}

/// The inner walk, and whether the outputs of the step stay.
fn with_stay<'a>(
    alloc: Global,
    facts: &Facts,
    step: &(Text, Step),
    place: &JobPlace,
    inputs: &Keyed<Value>,
    env: &Env,
    tuple: &[usize],
    inner: Option<Inner<'a>>,
) -> Result<Option<Found<'a>>, AllocError>
    ensures { IfOk result (λ found. IfSome found
        (IsFound facts.now place.now inputs.now env.now step.now inner.entry)) }
{
    let Some(inner) = inner else {
        return Ok(None);
    };
    let outs = inner.walk.outs.as_slice();
    let stays = outs_stay(alloc, facts, step, place, inputs, env, outs, tuple)?;
    Ok(Some(Found { inner, stays }))
}

//! Workflows: steps that read one another's outputs.
ghost use Rattle.std.specs.Prelude.{◌≡◌, ◌++◌, ◌∷◌, [], map, IfOk, OnOk};
ghost use Rattle.std.specs.List.{flat_map};
ghost use Rattle.job_graph.specs.Equations.{fault_at, step_walk, workflow_meaning_of};
ghost use Rattle.job_graph.specs.Links.{given, output_value};
ghost use Rattle.job_graph.specs.inner.Levels.{steps_of, steps_walk};
ghost use Rattle.job_graph.specs.inner.Rounds.{AllMeet, IsSettled, walk_at};
ghost use Rattle.job_graph.specs.inner.Views.{made_from, met_of, walk_of};

use crate::gather::push_met;
use crate::inputs::workflow_inputs;
use crate::links::{Env, output_value};
use crate::made::Facts;
use crate::partly::Partly;
use crate::rounds::{Settled, settle_steps};
use crate::step::walk_step;
use crate::walk::{Met, Walk, failed_process, push_fault};
use cwl_process::{Entries, WorkflowOutput};
use cwl_value::{JobPlace, Value};
use document_links::{Step, Workflow};
use plain_data::{Items, Keyed, Text};
use std::alloc::{AllocError, Global};
use std::mem;

/// The walk through a workflow at a place.
#[cycle(walk)]
pub(crate) fn walk_workflow<'a>(
    alloc: Global,
    facts: &Facts,
    workflow: &'a Workflow,
    place: &JobPlace,
    given: &Keyed<Value>,
) -> Result<Walk<'a>, AllocError>
    ensures { IfOk result (λ walk. walk_of walk
        ≡ workflow_meaning_of facts.now.measures (made_from facts.now) workflow.now place.now
        given.now) }
{
    match workflow_inputs(alloc, &facts.measures, workflow.inputs.as_slice(), given)? {
        Ok(inputs) => {
            let outputs = workflow.outputs.as_slice();
            let walk = walk_steps(alloc, facts, &workflow.steps, outputs, place, &inputs);
            drop(inputs);
            walk
        }
        Err(cause) => failed_process(alloc, place, cause, &workflow.outputs),
    }
}

#[cycle(walk)]
fn walk_steps<'a>(
    alloc: Global,
    facts: &Facts,
    steps: &'a Entries<Step>,
    outputs: &[(Text, WorkflowOutput)],
    place: &JobPlace,
    inputs: &Keyed<Value>,
) -> Result<Walk<'a>, AllocError>
    ensures { IfOk result (λ walk. walk_of walk
        ≡ steps_walk outputs.now (steps_of facts.now steps.now) place.now inputs.now) }
{
    let Walked { walk, env } = walk_keeping(alloc, facts, steps, outputs, place, inputs)?;
    drop(env);
    Ok(walk)
}

/// The walk through a workflow's steps and outputs, and the outputs of those steps that were walked.
#[derive(Drop)]
pub(crate) struct Walked<'a> {
    pub walk: Walk<'a>,
    pub env: Env,
}

/// The walk through a workflow with these steps and outputs, on its inputs.
#[cycle(walk)]
pub(crate) fn walk_keeping<'a>(
    alloc: Global,
    facts: &Facts,
    steps: &'a Entries<Step>,
    outputs: &[(Text, WorkflowOutput)],
    place: &JobPlace,
    inputs: &Keyed<Value>,
) -> Result<Walked<'a>, AllocError>
    ensures walk { IfOk result (λ walked. walk_of walked.walk
        ≡ steps_walk outputs.now (steps_of facts.now steps.now) place.now inputs.now) }
    ensures env { IfOk result
        (λ walked. IsSettled facts.now place.now inputs.now steps.now walked.env) }
{
    let Settled { outs: env, met } = settle_steps(alloc, facts, steps, place, inputs)?;
    let met = steps_met(alloc, facts, steps, place, inputs, &env, met)?;
    let walk = with_outputs(alloc, met, outputs, place, inputs, &env)?;
    Ok(Walked { walk, env })
}

/// What the steps meet, in the order of the document. It is known of those that were walked.
#[cycle(walk)]
fn steps_met<'a>(
    alloc: Global,
    facts: &Facts,
    steps: &'a Entries<Step>,
    place: &JobPlace,
    inputs: &Keyed<Value>,
    env: &Env,
    known: Vec<Option<Items<Met<'a>>>>,
) -> Result<Items<Met<'a>>, AllocError>
    requires { AllMeet facts.now place.now inputs.now env.now steps.now known.items }
    ensures { IfOk result (λ met. map met_of met
        ≡ flat_map (λ s. (step_walk place.now inputs.now env.now s).met)
        (steps_of facts.now steps.now)) }
{
    let mut known = known;
    let entries = steps.as_slice();
    let mut met = Items::new(alloc);
    for number in 0..entries.len() {
        let step = &entries[number];
        let more = match mem::replace(&mut known[number], None) {
            Some(more) => more,
            None => step_met(alloc, facts, &step.0, &step.1, place, inputs, env)?,
        };
        push_met(&mut met, more)?;
    }
    Ok(met)
}

#[cycle(walk)]
pub(crate) fn step_met<'a>(
    alloc: Global,
    facts: &Facts,
    id: &Text,
    step: &'a Step,
    place: &JobPlace,
    inputs: &Keyed<Value>,
    env: &Env,
) -> Result<Items<Met<'a>>, AllocError>
    ensures { IfOk result (λ met. map met_of met
        ≡ (walk_at facts.now place.now inputs.now env.now (id.now, step.now)).met) }
{
    let Walk { met, outs } = walk_step(alloc, facts, id, step, place, inputs, env)?;
    drop(outs);
    Ok(met)
}

/// The walk of a workflow whose steps met this.
pub(crate) fn with_outputs<'a>(
    alloc: Global,
    met: Items<Met<'a>>,
    outputs: &[(Text, WorkflowOutput)],
    place: &JobPlace,
    inputs: &Keyed<Value>,
    env: &Env,
) -> Result<Walk<'a>, AllocError>
    ensures met { IfOk result (λ walk. map met_of walk.met
        ≡ map met_of met.entry
        ++ flat_map (λ o. fault_at place.now (output_value inputs.now env.now o.1.links))
        outputs.now) }
    ensures outs { IfOk result (λ walk. walk.outs
        ≡ map (λ o. (o.0, given (output_value inputs.now env.now o.1.links))) outputs.now) }
{
    let mut walk = Walk {
        met,
        outs: Items::new(alloc),
    };
    for output in outputs {
        let name = output.0.copied(alloc)?;
        let value = output_value(alloc, inputs, env, &output.1.links)?;
        put_output(alloc, &mut walk, place, name, value)?;
    }
    Ok(walk)
}

fn put_output(
    alloc: Global,
    walk: &mut Walk<'_>,
    place: &JobPlace,
    name: Text,
    value: Partly,
) -> Result<(), AllocError>
    ensures met { OnOk result (map met_of walk.new.met ≡ map met_of walk.old.met
        ++ fault_at place.now value) }
    ensures outs { OnOk result (walk.new.outs ≡ walk.old.outs ++ (name, given value) ∷ []) }
{
    match value {
        Partly::Waits => walk.outs.push((name, None)),
        Partly::Gives(value) => walk.outs.push((name, Some(value))),
        Partly::Fails(cause) => {
            push_fault(alloc, &mut walk.met, place, cause)?;
            walk.outs.push((name, None))
        }
    }
}

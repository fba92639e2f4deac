//! The first plan of a run: that of the run's own machine, after looks alone.
ghost use Rattle.std.specs.Prelude.{◌≡◌, IfErr, IfOk, None, map, option_map};
ghost use Rattle.job_graph.specs.Jobs.{Job as Known};
ghost use Rattle.run_core.specs.Core.{jobs_of};
ghost use Rattle.run_rules.specs.Limits.{IsWithinLimits};
ghost use Rattle.workflow_check.specs.Checked.{fault_in};
ghost use Rattle.workflow_engine.specs.Blame.{IsHostsPlanFault, PlanBlamesRecord};
ghost use Rattle.workflow_engine.specs.FirstPlan.{PlansByMap, fault_told};
ghost use Rattle.workflow_engine.specs.inner.Looks.{IsMade, IsPlanned, IsShown, IsToldOf, nothing, told_of};

use crate::looks::look;
use crate::watch::Watch;
use crate::{PlanFault, Planned};
use cwl_value::{JobPlace, Value, copy_job};
use document_links::Process;
use job_graph::Unfolding;
use job_rows::Record;
use plain_data::{Items, Keyed};
use plan_checker::{Charges, Graph, GraphError, Plan, each_has_least};
use plan_keeper::plan_cost;
use proc_host::Host;
use run_core::{Halted, Options, Outcome, RunCore, RunFault};
use std::alloc::{AllocError, Global};
use std::mem;

/// Plans a run of an accepted process on an input object, and starts, fetches and stores nothing.
///
/// The run's own machine is asked what it asks, until that is no look: the host is asked what the input files are, and the record for
/// the row of each known job whose tool lets an earlier result be used. So what the logs of the two gain is a run of the process so
/// far, and the plan is the first one of that run; where these looks settle its end before a plan is made, the end is told. Where no
/// job is known, the plan is that of the empty graph.
///
/// As long as what the record is kept on returns what was written, each of its answers is by its map, and the map stays as it was.
///
/// The watcher is told of each question to the host or to the record, and of each answer.
pub fn plan_only<H: Host, R: Record, W: Watch>(
    alloc: Global,
    host: &mut H,
    rows: &mut R,
    process: &Process,
    inputs: &Keyed<Value>,
    options: Options,
    watcher: &mut W,
) -> Result<Planned, PlanFault>
    requires accepted { fault_in process.now ≡ None }
    requires limits { IsWithinLimits options }
    ensures plans { PlansByMap (H.log host.old) (H.log host.new) (R.log rows.old) (R.log rows.new)
        (R.is_sound rows.old) (R.is_sound rows.new) (R.holds rows.old) (R.holds rows.new)
        process.now inputs.now options result }
    // A fault is the host's only where its failures rose, by this very fault, and the record's only where its log has it.
    ensures fault { IfErr result (IsHostsPlanFault (H.log host.old) (H.log host.new)) }
    ensures record { IfErr result (PlanBlamesRecord (R.log rows.old) (R.log rows.new)) }
    ensures running { H.running host.new ≡ H.running host.old }
{
    each_has_least();
    let mut core = RunCore::new(alloc, process, inputs, options)?;
    match look(host, rows, &mut core, watcher) {
        Ok(()) => told(alloc, core.halt()),
        Err(fault) => {
            mem::drop(core.finish());
            Err(PlanFault::Run(fault))
        }
    }
}

/// What a machine that was halted after looks has planned, or why it has not.
fn told(alloc: Global, halted: Halted<'_>) -> Result<Planned, PlanFault>
    requires { IsShown halted.planned }
    ensures { IsToldOf halted.entry result }
{
    let Halted {
        known,
        planned,
        outcome,
    } = halted;
    match failure_of(outcome) {
        None => Ok(made(alloc, known, planned)?),
        Some(fault) => {
            mem::drop(known);
            mem::drop(planned);
            Err(fault)
        }
    }
}

/// Why a process has no plan, by what came of it if its run has ended.
fn failure_of(outcome: Option<Result<Outcome, RunFault>>) -> Option<PlanFault>
    ensures { result ≡ told_of outcome }
{
    match outcome {
        None => None,
        Some(Err(fault)) => Some(PlanFault::Run(fault)),
        Some(Ok(outcome)) => permanent(outcome),
    }
}

/// A permanent failure.
fn permanent(outcome: Outcome) -> Option<PlanFault>
    ensures { result ≡ fault_told (Ok outcome) }
{
    match outcome {
        Outcome::PermanentFail(place, cause) => Some(PlanFault::Failed(place, cause)),
        other => {
            mem::drop(other);
            None
        }
    }
}

/// What was planned, with the places of the jobs; where nothing was, the plan of the empty graph.
fn made(
    alloc: Global,
    known: Option<Unfolding<'_>>,
    planned: Option<(Graph, Plan, Charges)>,
) -> Result<Planned, AllocError>
    requires { IsShown planned }
    ensures { IfOk result (IsMade known.entry planned) }
{
    let places = places_of(alloc, known)?;
    let (graph, plan, charges) = planned_or_none(alloc, planned)?;
    let cost = plan_cost(&graph, &plan);
    Ok(Planned {
        places,
        graph,
        plan,
        charges,
        cost,
    })
}

/// What was planned; where nothing was, the plan of the empty graph.
fn planned_or_none(
    alloc: Global,
    planned: Option<(Graph, Plan, Charges)>,
) -> Result<(Graph, Plan, Charges), AllocError>
    requires { IsShown planned }
    ensures { IfOk result (IsPlanned planned) }
{
    match planned {
        Some(planned) => Ok(planned),
        None => of_nothing(alloc),
    }
}

/// The plan of the empty graph.
fn of_nothing(alloc: Global) -> Result<(Graph, Plan, Charges), AllocError>
    ensures { IfOk result (λ planned. planned ≡ nothing) }
{
    match Graph::new(alloc, Vec::new(alloc)) {
        Ok(graph) => Ok((
            graph,
            Plan {
                marks: Items::new(alloc),
            },
            Charges {
                enter: Items::new(alloc),
                through: Items::new(alloc),
                pay: Items::new(alloc),
                pass: Items::new(alloc),
            },
        )),
        Err(GraphError::OutOfMemory) => Err(AllocError),
        Err(GraphError::BadGraph(_)) => unreachable!(),
    }
}

/// The places of the known jobs, by their numbers.
fn places_of(alloc: Global, known: Option<Unfolding<'_>>) -> Result<Items<JobPlace>, AllocError>
    ensures { IfOk result (λ places. places
        ≡ map (λ (job : Known). job.place) (jobs_of known.entry)) }
{
    match known {
        None => Ok(Items::new(alloc)),
        Some(known) => {
            let places = places_in(alloc, &known);
            mem::drop(known);
            places
        }
    }
}

/// The places of these known jobs.
fn places_in(alloc: Global, known: &Unfolding<'_>) -> Result<Items<JobPlace>, AllocError>
    ensures { IfOk result (λ places. places ≡ map (λ (job : Known). job.place) known.now.known) }
{
    let jobs = known.known();
    let mut places = Vec::with_capacity(alloc, jobs.len())?;
    for one in jobs {
        places.push(copy_job(alloc, &one.job.place)?)?;
    }
    Ok(Items::from_vec(places))
}

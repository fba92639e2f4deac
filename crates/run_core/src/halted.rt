//! What is left of a machine: what it knew, planned and noted, and what came of its run.
ghost use Rattle.std.specs.Prelude.{◌≡◌, option_map};
ghost use Rattle.run_core.specs.Core.{plan_in};
ghost use Rattle.run_core.specs.inner.Course.{past_of};
ghost use Rattle.run_core.specs.inner.Halted.{outcome_in};
ghost use Rattle.run_core.specs.inner.Planning.{shown};

use crate::state::{Course, Phase, Turn};
use crate::{Note, Outcome, PlanNote, RunFault};
use job_graph::Unfolding;
use plan_checker::{Charges, Graph, Plan};
use plan_keeper::Planned;
use run_plan::KeptPlan;
use std::mem;

/// A machine that was halted.
#[derive(Drop)]
pub struct Halted<'a> {
    /// What is known of the process; nothing before its input files are measured.
    pub known: Option<Unfolding<'a>>,
    /// The graph that was planned last, its plan, and charges that certify it; nothing before the first planning point.
    pub planned: Option<(Graph, Plan, Charges)>,
    /// What came of the process, if the run has ended.
    pub outcome: Option<Result<Outcome, RunFault>>,
}

/// What a course has, but for the jobs.
#[derive(Drop)]
pub(crate) struct Noted<'a> {
    /// What each plan costs.
    pub plans: Vec<PlanNote>,
    /// What went wrong without changing the end.
    pub notes: Vec<Note>,
    pub planned: Option<KeptPlan>,
    pub known: Option<Unfolding<'a>>,
}

/// What a machine of this course and turn knew and planned, and what came of its run.
pub(crate) fn what_is_left<'a>(course: Course<'a>, turn: Turn) -> Halted<'a>
    ensures known { result.known ≡ course.entry.known }
    ensures planned { option_map plan_in result.planned ≡ shown (past_of course.entry).planned }
    ensures outcome { result.outcome ≡ outcome_in turn.phase }
{
    let Noted {
        plans,
        notes,
        planned,
        known,
    } = noted_in(course);
    mem::drop(plans);
    mem::drop(notes);
    Halted {
        known,
        planned: planned_in(planned),
        outcome: outcome_in(turn),
    }
}

/// A plan with its graph and charges.
fn planned_in(planned: Option<KeptPlan>) -> Option<(Graph, Plan, Charges)>
    ensures { option_map plan_in result ≡ shown planned }
{
    match planned {
        None => None,
        Some(kept) => {
            let Planned {
                graph,
                plan,
                charges,
                cost: _,
            } = kept.into_made();
            Some((graph, plan, charges))
        }
    }
}

/// What came of the process by the last turn, if it was the last.
fn outcome_in(turn: Turn) -> Option<Result<Outcome, RunFault>>
    ensures { result ≡ outcome_in turn.phase }
{
    let Turn { asks, phase } = turn;
    mem::drop(asks);
    match phase {
        Phase::Ended(outcome) => Some(outcome),
        other => {
            mem::drop(other);
            None
        }
    }
}

/// Takes a course apart, and keeps what is not of single jobs.
pub(crate) fn noted_in<'a>(course: Course<'a>) -> Noted<'a>
    ensures plans { result.plans.items ≡ (past_of course.entry).plans }
    ensures notes { result.notes.items ≡ (past_of course.entry).notes }
    ensures planned { result.planned ≡ (past_of course.entry).planned }
    ensures known { result.known ≡ course.entry.known }
{
    let Course {
        tickets,
        flights,
        jobs,
        folders: _,
        looked_up: _,
        rows,
        lost,
        notes,
        planned,
        touched: _,
        rates: _,
        keep: _,
        plans,
        counts: _,
        known,
        of_first: _,
        end,
    } = course;
    mem::drop(tickets);
    mem::drop(flights);
    mem::drop(jobs);
    mem::drop(rows);
    mem::drop(lost);
    mem::drop(end);
    Noted {
        plans,
        notes,
        planned,
        known,
    }
}

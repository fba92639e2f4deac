//! The plan in force: the Least plan of the present job graph, brought up to date or made anew at each planning point.
ghost use Rattle.std.specs.Prelude.{◌≡◌, ◌↔◌, ◌<◌, All, IfOk, MatchBool, MatchOption, OnOk, Some, [], length};
ghost use Rattle.job_graph.specs.PresentJobGraph.{AreWithin};
ghost use Rattle.plan_checker.specs.Plan.{mark};
ghost use Rattle.run_core.specs.inner.Course.{known_in as jobs_in, past_of, with_plan};
ghost use Rattle.run_core.specs.inner.Marks.{is_compute, is_load, marks_in};
ghost use Rattle.run_core.specs.inner.Planning.{AllThere, AreCosts, Counts, IsLentTo, IsNextAt, IsToldPlan, PlansNothing, Replans, SomeAway, costs_at, counted};
ghost use Rattle.run_core.specs.inner.Few.{AreFew};
ghost use Rattle.run_core.specs.inner.Fits.{Fits};
ghost use Rattle.run_plan.specs.Touched.{AreOfFirst};

use crate::PlanNote;
use crate::counts::counted;
use crate::course::known_in;
use crate::fetching::can_load;
use crate::few::{Few, few_in};
use crate::state::{Course, Given};
use crate::touches::Touched;
use job_graph::{Costs, UnfoldError};
use plan_checker::Mark;
use run_plan::{KeptPlan, NextPlan, Standing, costs_of, costs_without_row, plan_on, plan_touched};
use std::alloc::{AllocError, Global};
use std::mem;

/// Makes a plan where some known job isn't at hand, and counts it; else the last one stays in force.
pub(crate) fn replan(
    alloc: Global,
    given: &Given<'_>,
    course: &mut Course<'_>,
) -> Result<(), AllocError>
    ensures replans { OnOk result (Replans given.now course.old course.new) }
    ensures counts { OnOk result (Counts course.old course.new) }
    ensures tickets { course.new.tickets.items ≡ course.old.tickets.items }
    ensures folders { course.new.folders ≡ course.old.folders }
{
    if !some_are_away(course) {
        return Ok(());
    }
    match planned_anew(alloc, given, course)? {
        None => Ok(()),
        Some(next) => keep(given, course, next),
    }
}

/// The plan is in force from now on, noted and counted.
fn keep(given: &Given<'_>, course: &mut Course<'_>, next: NextPlan) -> Result<(), AllocError>
    requires fits { Fits given.now.rates given.now.options.keep course.old.jobs
        course.old.lost.items course.old.rows (Some []) (Some next.plan) }
    requires first { AreOfFirst next.plan.graph (jobs_in course.old.known) }
    ensures past { OnOk result (past_of course.new
        ≡ with_plan given.now.answers next.plan (past_of course.old)) }
    ensures counts { OnOk result (course.new.counts ≡ counted next.brought course.old.counts) }
    ensures known { course.new.known ≡ course.old.known }
    ensures tickets { course.new.tickets.items ≡ course.old.tickets.items }
    ensures folders { course.new.folders ≡ course.old.folders }
{
    let NextPlan { plan, brought } = next;
    let note = PlanNote {
        after: given.answers,
        cost: plan.made().cost,
    };
    match course.plans.push(note) {
        Ok(()) => {
            // Both counts together are the number of notes, and a list is never longer than an integer says.
            let _few = course.plans.len();
            course.counts = counted(brought, course.counts);
            mem::drop(mem::replace(&mut course.planned, Some(plan)));
            course.touched = Touched::none();
            course.rates = given.rates.copied();
            course.keep = given.options.keep;
            course.of_first = true;
            Ok(())
        }
        Err(_) => {
            mem::drop(plan);
            Err(AllocError)
        }
    }
}

/// Whether the outputs of some known job aren't at hand. As a rule those of the job that became known last aren't.
fn some_are_away(course: &Course<'_>) -> bool
    ensures { MatchBool result (SomeAway course.now) (AllThere course.now) }
{
    let count = known_in(&course.known).len();
    for back in 0..count {
        if !course.jobs.is_there(count - 1 - back) {
            return true;
        }
    }
    false
}

/// The plan of the jobs that are known now, which takes the one in force away. After a fault of what is known there is none, and the
/// end is settled.
fn planned_anew(
    alloc: Global,
    given: &Given<'_>,
    course: &mut Course<'_>,
) -> Result<Option<NextPlan>, AllocError>
    ensures made { IfOk result (λ made. MatchOption made (PlansNothing course.old)
        (IsNextAt given.now course.old)) }
    ensures rest { IfOk result (IsLentTo course.old course.new) }
    ensures tickets { course.new.tickets.items ≡ course.old.tickets.items }
    ensures folders { course.new.folders ≡ course.old.folders }
{
    match few_in(alloc, given, course)? {
        None => planned_whole(alloc, given, course),
        Some(few) => planned_few(alloc, given, course, few),
    }
}

/// The same by what has changed since the last plan; where that can't be brought up to date, by all costs.
fn planned_few(
    alloc: Global,
    given: &Given<'_>,
    course: &mut Course<'_>,
    few: Few,
) -> Result<Option<NextPlan>, AllocError>
    requires { AreFew given.now course.old few }
    ensures made { IfOk result (λ made. MatchOption made (PlansNothing course.old)
        (IsNextAt given.now course.old)) }
    ensures rest { IfOk result (IsLentTo course.old course.new) }
    ensures tickets { course.new.tickets.items ≡ course.old.tickets.items }
    ensures folders { course.new.folders ≡ course.old.folders }
{
    course.touched = Touched::all();
    course.of_first = false;
    let changed = few.changed.as_slice();
    let later = few.later.as_slice();
    match &mut course.known {
        None => Ok(None),
        Some(known) => match plan_touched(alloc, known, changed, later, &mut course.planned) {
            Ok(None) => planned_whole(alloc, given, course),
            Ok(Some(plan)) => Ok(Some(NextPlan {
                plan,
                brought: true,
            })),
            Err(error) => if_planned(Err(error)),
        },
    }
}

/// The same by the costs of all known jobs.
fn planned_whole(
    alloc: Global,
    given: &Given<'_>,
    course: &mut Course<'_>,
) -> Result<Option<NextPlan>, AllocError>
    ensures made { IfOk result (λ made. MatchOption made (PlansNothing course.old)
        (IsNextAt given.now course.old)) }
    ensures rest { IfOk result (IsLentTo course.old course.new) }
    ensures tickets { course.new.tickets.items ≡ course.old.tickets.items }
    ensures folders { course.new.folders ≡ course.old.folders }
{
    let costs = costs_in(alloc, given, course)?;
    course.touched = Touched::all();
    course.of_first = false;
    match &mut course.known {
        None => Ok(None),
        Some(known) => if_planned(plan_on(alloc, known, costs.as_slice(), &mut course.planned)),
    }
}

/// The plan, unless the fault of what is known is told.
fn if_planned(told: Result<NextPlan, UnfoldError>) -> Result<Option<NextPlan>, AllocError>
    ensures { IfOk result (IsToldPlan told) }
{
    match told {
        Ok(next) => Ok(Some(next)),
        Err(UnfoldError::Refused(fault)) => {
            mem::drop(fault);
            Ok(None)
        }
        Err(UnfoldError::OutOfMemory) => Err(AllocError),
    }
}

/// What each known job costs.
fn costs_in(alloc: Global, given: &Given<'_>, course: &Course<'_>) -> Result<Vec<Costs>, AllocError>
    ensures costs { IfOk result (λ costs. AreCosts given.now (past_of course.now)
        (length (jobs_in course.now.known)) costs.items) }
    ensures within { IfOk result (λ costs. All AreWithin costs.items) }
{
    let count = known_in(&course.known).len();
    let mut costs = Vec::with_capacity(alloc, count)?;
    for number in 0..count {
        costs.push_reserved(costs_at(given, course, number));
    }
    Ok(costs)
}

/// What the known job of a number costs.
pub(crate) fn costs_at(given: &Given<'_>, course: &Course<'_>, number: usize) -> Costs
    ensures costs { result ≡ costs_at given.now (past_of course.now) number }
    ensures within { AreWithin result }
{
    let held = !course.jobs.waits(number);
    match course.rows.get(number) {
        None => costs_without_row(held),
        Some(row) => {
            let standing = Standing {
                held,
                archived: given.options.keep && can_load(course, number),
                row: Some(row),
            };
            costs_of(standing, &given.rates)
        }
    }
}

/// The marks of the plan in force; none before the first planning point.
pub(crate) fn marks_in<'s>(planned: &'s Option<KeptPlan>) -> &'s [Mark]
    ensures { result.now ≡ marks_in planned.now }
{
    match planned {
        None => &[],
        Some(kept) => kept.made().plan.marks.as_slice(),
    }
}

/// Whether the plan loads the job of a number.
pub(crate) fn is_loaded(marks: &[Mark], number: usize) -> bool
    ensures { result ≡ is_load (mark marks.now number) }
{
    match marks.get(number) {
        Some(Mark::Load) => true,
        _ => false,
    }
}

/// Whether the plan computes the job of a number.
pub(crate) fn is_computed(marks: &[Mark], number: usize) -> bool
    ensures { result ≡ is_compute (mark marks.now number) }
{
    match marks.get(number) {
        Some(Mark::Compute) => true,
        _ => false,
    }
}

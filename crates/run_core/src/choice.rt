//! What comes next where nothing is due.
ghost use Rattle.std.specs.Prelude.{◌≡◌, ◌<◌, ◌+◌, ◌^◌, false, Some, IsSome, IfOk, MatchOption, OnErr, length, slice_get};
ghost use Rattle.job_graph.specs.Jobs.{Job};
ghost use Rattle.run_core.specs.declared.state.Given.{Given as Run};
ghost use Rattle.run_core.specs.inner.Course.{known_in as jobs_in};
ghost use Rattle.run_core.specs.inner.Picks.{Chooses, MayBeNext, NoneToStage, Picks, Stages, sources_in};
ghost use Rattle.run_rules.specs.Folders.{in_folder};
ghost use Rattle.staging.specs.Plan.{IsPlan};

use crate::course::{job_of, known_in};
use crate::delivery::delivery;
use crate::fetching::{fetching, next_to_fetch};
use crate::finding::{finding, next_to_find};
use crate::folders::in_folder;
use crate::places::{Sources, Way};
use crate::planning::{marks_in, replan};
use crate::state::{Course, Given, Phase, Turn};
use crate::turn::{collecting, ended};
use crate::{Options, Request};
use cwl_value::{Value, copy_job, placed_fields};
use plain_data::Keyed;
use proc_host::HostRequest;
use staging::{StagePlan, stage_plan};
use std::alloc::{AllocError, Global};
use std::mem;

/// What comes next: after a failure the children in flight are waited for; else the row of a known job is looked for that
/// was not; else the plan is made anew, and its next step comes.
pub(crate) fn pick(
    alloc: Global,
    given: &Given<'_>,
    course: &mut Course<'_>,
) -> Result<Turn, AllocError>
    requires { course.old.folders + 1 < 2 ^ 64 }
    ensures is { IfOk result (λ turn. Picks given.now course.old turn course.new) }
    ensures flying { OnErr result (course.new.tickets.items ≡ course.old.tickets.items) }
{
    if course.end.is_some() {
        return Ok(settled(alloc, course));
    }
    if let Some(number) = next_to_find(course) {
        return finding(alloc, course, number);
    }
    replan(alloc, given, course)?;
    choose(alloc, given, course)
}

/// What comes next by the plan in force: the files of the lowest job that waits and is loaded are fetched; else the lowest job
/// that waits, is computed and whose parents are at hand is staged, where a slot is free; else a child in flight is waited for;
/// and at last the result is delivered.
fn choose(alloc: Global, given: &Given<'_>, course: &mut Course<'_>) -> Result<Turn, AllocError>
    requires { course.old.folders + 1 < 2 ^ 64 }
    ensures is { IfOk result (Chooses given.now course.old) }
    ensures same { course.new ≡ course.old }
{
    if let Some(number) = next_to_fetch(given, course) {
        return fetching(alloc, course, number);
    }
    if let Some(number) = next_to_stage(given, course) {
        return staging(alloc, given, course, number);
    }
    if course.tickets.is_empty() {
        return delivery(alloc, given, course);
    }
    Ok(collecting(alloc))
}

/// The end is settled: it comes once no child is in flight.
fn settled(alloc: Global, course: &mut Course<'_>) -> Turn
    requires { IsSome course.old.end }
    ensures { (given : Run) → Picks given course.old result course.new }
{
    if !course.tickets.is_empty() {
        return collecting(alloc);
    }
    match mem::replace(&mut course.end, None) {
        Some(end) => ended(end),
        None => unreachable!(),
    }
}

/// The lowest job that waits and whose parents are at hand, where a slot is free.
fn next_to_stage(given: &Given<'_>, course: &mut Course<'_>) -> Option<usize>
    ensures same { course.new ≡ course.old }
    ensures found { MatchOption result (NoneToStage given.now course.old)
        (MayBeNext given.now course.old) }
{
    if course.tickets.len() as u64 >= given.options.slots {
        return None;
    }
    course
        .jobs
        .first_ready(known_in(&course.known), marks_in(&course.planned))
}

/// The folders of a job are made, and its input files are copied there.
fn staging(
    alloc: Global,
    given: &Given<'_>,
    course: &Course<'_>,
    number: usize,
) -> Result<Turn, AllocError>
    requires folders { course.now.folders + 1 < 2 ^ 64 }
    requires number { number < length (jobs_in course.now.known) }
    ensures { IfOk result (Stages given.now course.now number) }
{
    let folder = course.folders + 1;
    let plan = plan_for(alloc, given, course, number, folder)?;
    let place = copy_job(alloc, &job_of(course, number).place)?;
    Ok(Turn {
        asks: Request::Host(place, HostRequest::Stage(plan, folder)),
        phase: Phase::Staging(number),
    })
}

/// Where the job's input files are copied to.
fn plan_for(
    alloc: Global,
    given: &Given<'_>,
    course: &Course<'_>,
    number: usize,
    folder: u64,
) -> Result<StagePlan, AllocError>
    requires { number < length (jobs_in course.now.known) }
    ensures { IfOk result (λ plan. (job : Job) → slice_get (jobs_in course.now.known) number
        ≡ Some job → IsPlan false (in_folder given.now.options.work folder)
        (sources_in given.now.options course.now job.inputs) plan) }
{
    let files = sources_of(
        alloc,
        &given.options,
        course,
        &job_of(course, number).inputs,
    )?;
    let target = in_folder(alloc, &given.options.work, folder)?;
    stage_plan(alloc, &files, target.as_str())
}

/// The values, where files that jobs made are at their paths.
pub(crate) fn sources_of(
    alloc: Global,
    options: &Options,
    course: &Course<'_>,
    values: &Keyed<Value>,
) -> Result<Keyed<Value>, AllocError>
    ensures { IfOk result (λ files. files ≡ sources_in options.now course.now values.now) }
{
    let sources = Sources {
        work: &options.work,
        known: &course.known,
        jobs: course.jobs.as_slice(),
    };
    placed_fields(alloc, &Way::Left(sources), values)
}

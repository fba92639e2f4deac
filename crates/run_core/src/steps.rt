//! What the machine waits for after each answer.
ghost use Rattle.std.specs.Prelude.{◌≡◌, ◌<◌, ◌+◌, ◌^◌, ◌∷◌, ◌++◌, [], Some, Contains, IfOk, OnErr, length, vec_len, vec_capacity};
ghost use Rattle.run_core.specs.declared.state.JobNext.{JobNext as Next};
ghost use Rattle.run_core.specs.declared.state.Phase.{Phase as Waits};
ghost use Rattle.run_core.specs.inner.Course.{known_in};
ghost use Rattle.run_core.specs.inner.Follows.{AnswersWork, AsksOf, CanStage, FollowsFrom, FollowsIn, FollowsWork, IsLeftAfter, IsOneLess, IsReady, IsReadyFor, IsStaging};
ghost use Rattle.run_core.specs.inner.Picks.{AfterChild, AfterInputHead, AfterListing, AfterOutputHead, AfterStaging, AfterStart, AfterTemporary, IsScanned, IsSite, Turns};
ghost use Rattle.run_core.specs.inner.Planning.{Replans};
ghost use Rattle.run_core.specs.inner.Standing.{HasRoom};
ghost use Rattle.run_core.specs.inner.Turn.{succeeds};
ghost use Rattle.proc_host.specs.declared.call.HostAnswer.{HostAnswer as HostSays};
ghost use Rattle.run_rules.specs.declared.request.Answer.{Answer as Told};
ghost use Rattle.run_rules.specs.Answers.{MayAnswer};

use crate::archiving::{archived, keeping};
use crate::choice::pick;
use crate::collects::{listed, read, scanning};
use crate::course::{
    job_of, note_end, note_failure, note_giving_up, note_mismatch, note_staging, note_start,
    note_success,
};
use crate::discarding::discard_next;
use crate::fetching::fetched;
use crate::measuring::measured;
use crate::planning::replan;
use crate::rows::told;
use crate::site::Site;
use crate::starts::{filled, filled_first};
use crate::state::{Course, Filling, Flight, Given, JobNext, JobPhase, Kept, Phase, Reading, Turn};
use crate::stops::{drained, failed};
use crate::turn::{ended, failing, succeeded, working};
use crate::{Answer, Cause, Request};
use cwl_value::Value;
use job_rows::Row;
use plain_data::{Items, Keyed};
use proc_host::{ChildEnd, ExitClass, HostAnswer, HostRequest, classify};
use staging::Found;
use std::alloc::{AllocError, Global};
use std::mem;

/// What the machine waits for after this answer, the host's or the record's.
pub(crate) fn answered<'a>(
    alloc: Global,
    given: &Given<'a>,
    course: &mut Course<'a>,
    asks: &Request,
    phase: Phase,
    answer: &Answer,
) -> Result<Turn, AllocError>
    requires answers { MayAnswer course.old.tickets.items asks.now answer.now }
    requires asks { AsksOf course.old asks.now phase }
    requires room { HasRoom course.old phase }
    requires ready { IsReadyFor course.old phase }
    ensures next { IfOk result (λ next. FollowsFrom given.now course.old
        (record { asks = asks.now; phase = phase }) answer.now next course.new) }
    ensures memory { OnErr result (IsLeftAfter course.old.tickets.items answer.now
        course.new.tickets.items) }
    ensures going { OnErr result (phase ≡ Waits.Draining → ⊥) }
{
    match answer {
        Answer::Host(answer) => follows(alloc, given, course, asks, phase, answer),
        Answer::Record(answer) => told(alloc, given, course, phase, answer),
    }
}

/// What the machine waits for after this answer of the host's to what it asked, by where it was.
fn follows<'a>(
    alloc: Global,
    given: &Given<'a>,
    course: &mut Course<'a>,
    asks: &Request,
    phase: Phase,
    answer: &HostAnswer,
) -> Result<Turn, AllocError>
    requires answers { MayAnswer course.old.tickets.items asks.now (Told.Host answer.now) }
    requires asks { AsksOf course.old asks.now phase }
    requires room { HasRoom course.old phase }
    requires ready { IsReadyFor course.old phase }
    ensures next { IfOk result (λ next. FollowsIn given.now course.old phase answer.now asks.now
        next course.new) }
    ensures memory { OnErr result (IsLeftAfter course.old.tickets.items (Told.Host answer.now)
        course.new.tickets.items) }
    ensures going { OnErr result (phase ≡ Waits.Draining → ⊥) }
{
    if let HostAnswer::Failed(fault) = answer {
        return failed(alloc, given, course, asks, phase, *fault);
    }
    match (phase, answer) {
        (Phase::Measuring(measuring), HostAnswer::Measured(measure)) => {
            measured(alloc, given, course, measuring, measure)
        }
        (Phase::Fetching(job), HostAnswer::Fetched(found)) => { fetched(alloc, course, job, found) }
        (Phase::Staging(job), HostAnswer::Done) => staged(alloc, given, course, job, asks),
        (Phase::Working(job, work), answer) => works_on(alloc, given, course, job, work, answer),
        (Phase::Collecting, HostAnswer::Ended(ending)) => landed(alloc, given, course, ending),
        (Phase::Draining, HostAnswer::Ended(ending)) => Ok(drained(alloc, course, ending)),
        (Phase::Delivering(outputs), HostAnswer::Done) => {
            delivered(alloc, given, course, outputs)
        }
        (Phase::Storing(job, row), HostAnswer::Done) => archived(alloc, course, job, row),
        (Phase::Discarding(job, left), HostAnswer::Done) => {
            discard_next(alloc, given, course, job, left)
        }
        _ => unreachable!(),
    }
}

/// The result's files are at their targets: the run has ended, and what was done without is planned once more.
fn delivered(
    alloc: Global,
    given: &Given<'_>,
    course: &mut Course<'_>,
    outputs: Value,
) -> Result<Turn, AllocError>
    ensures is { IfOk result (λ turn. (turn ≡ succeeds outputs)
        × Replans given.now course.old course.new) }
    ensures flying { OnErr result (course.new.tickets.items ≡ course.old.tickets.items) }
{
    match replan(alloc, given, course) {
        Ok(()) => Ok(succeeded(outputs)),
        Err(error) => {
            mem::drop(outputs);
            Err(error)
        }
    }
}

/// What the machine waits for after an answer to the open work on a job.
fn works_on(
    alloc: Global,
    given: &Given<'_>,
    course: &mut Course<'_>,
    number: usize,
    work: JobPhase,
    answer: &HostAnswer,
) -> Result<Turn, AllocError>
    requires ready { IsReady course.old }
    requires number { number < length course.old.jobs }
    requires room { HasRoom course.old (Waits.Working number work) }
    requires answers { AnswersWork work answer.now }
    ensures next { IfOk result (λ next. FollowsWork given.now course.old number work answer.now next
        course.new) }
    ensures memory { OnErr result (IsLeftAfter course.old.tickets.items (Told.Host answer.now)
        course.new.tickets.items) }
{
    match (work, answer) {
        (JobPhase::Filling(filling), HostAnswer::FirstBytes(bytes)) => {
            on_input_bytes(alloc, given, course, number, filling, bytes)
        }
        (JobPhase::Starting(kept), HostAnswer::Started(ticket)) => {
            started(alloc, given, course, number, kept, *ticket)
        }
        (JobPhase::Scanning(kept, millis), HostAnswer::Listed(found)) => {
            on_listing(alloc, given, course, number, kept, millis, found)
        }
        (JobPhase::Reading(kept, reading), HostAnswer::FirstBytes(bytes)) => {
            on_output_bytes(alloc, given, course, number, kept, reading, bytes)
        }
        _ => unreachable!(),
    }
}

/// A job in the folders that it was staged in last.
fn site_of<'a, 's, 'c>(
    given: &'s Given<'_>,
    course: &'c Course<'a>,
    number: usize,
) -> Site<'a, 's, 'c>
    requires number { number < length course.now.jobs }
    requires known { number < length (known_in course.now.known) }
    ensures { IsSite given.now course.now number result }
{
    let job = job_of(course, number);
    Site {
        tool: job.tool,
        inputs: &job.inputs,
        row: course.rows.get(number),
        folder: course.jobs.as_slice()[number].folder,
        options: &given.options,
    }
}

/// A job goes on, or it has failed, or its outputs are there.
fn turn_of(
    alloc: Global,
    given: &Given<'_>,
    course: &mut Course<'_>,
    number: usize,
    next: JobNext,
) -> Result<Turn, AllocError>
    requires folders { course.old.folders + 1 < 2 ^ 64 }
    requires number { number < length (known_in course.old.known) }
    requires staged { number < length course.old.jobs }
    ensures is { IfOk result (λ turn. Turns given.now course.old number next turn course.new) }
    ensures flying { OnErr result (course.new.tickets.items ≡ course.old.tickets.items) }
{
    match next {
        JobNext::Asks(request, phase) => {
            working(alloc, &job_of(course, number).place, number, request, phase)
        }
        JobNext::Fails(cause) => {
            note_failure(alloc, course, number, cause)?;
            pick(alloc, given, course)
        }
        JobNext::Gives(outputs, row) => gave(alloc, given, course, number, outputs, row),
        JobNext::Differs(outputs) => {
            mem::drop(outputs);
            note_mismatch(alloc, course, number)?;
            pick(alloc, given, course)
        }
        JobNext::Repeats(row) => repeated(alloc, given, course, number, row),
    }
}

/// A job gives what its row has, and the row is kept next.
fn repeated(
    alloc: Global,
    given: &Given<'_>,
    course: &mut Course<'_>,
    number: usize,
    row: Row,
) -> Result<Turn, AllocError>
    requires number { number < length (known_in course.old.known) }
    requires staged { number < length course.old.jobs }
    ensures is { IfOk result (λ turn. Turns given.now course.old number (Next.Repeats row) turn
        course.new) }
    ensures flying { OnErr result (course.new.tickets.items ≡ course.old.tickets.items) }
{
    let turn = keeping(alloc, given, course, number, row)?;
    course.jobs.bring(number);
    Ok(turn)
}

/// A job's outputs are there: its row is kept next, if one is made of it.
fn gave(
    alloc: Global,
    given: &Given<'_>,
    course: &mut Course<'_>,
    number: usize,
    outputs: Keyed<Value>,
    row: Option<Row>,
) -> Result<Turn, AllocError>
    requires folders { course.old.folders + 1 < 2 ^ 64 }
    requires number { number < length (known_in course.old.known) }
    requires staged { number < length course.old.jobs }
    ensures is { IfOk result (λ turn. Turns given.now course.old number (Next.Gives outputs row)
        turn course.new) }
    ensures flying { OnErr result (course.new.tickets.items ≡ course.old.tickets.items) }
{
    match row {
        None => {
            note_success(alloc, course, number, outputs)?;
            pick(alloc, given, course)
        }
        Some(row) => gave_row(alloc, given, course, number, outputs, row),
    }
}

/// A job's outputs are there, and its row is kept next.
fn gave_row(
    alloc: Global,
    given: &Given<'_>,
    course: &mut Course<'_>,
    number: usize,
    outputs: Keyed<Value>,
    row: Row,
) -> Result<Turn, AllocError>
    requires number { number < length (known_in course.old.known) }
    requires staged { number < length course.old.jobs }
    ensures is { IfOk result (λ turn. Turns given.now course.old number
        (Next.Gives outputs (Some row)) turn course.new) }
    ensures flying { OnErr result (course.new.tickets.items ≡ course.old.tickets.items) }
{
    match keeping(alloc, given, course, number, row) {
        Ok(turn) => match note_success(alloc, course, number, outputs) {
            Ok(()) => Ok(turn),
            Err(error) => {
                mem::drop(turn);
                Err(error)
            }
        },
        Err(error) => {
            mem::drop(outputs);
            Err(error)
        }
    }
}

/// The job's folders are made, as was asked.
fn staged(
    alloc: Global,
    given: &Given<'_>,
    course: &mut Course<'_>,
    number: usize,
    asked: &Request,
) -> Result<Turn, AllocError>
    requires ready { IsReady course.old }
    requires stages { CanStage course.old number }
    requires asked { IsStaging asked.now }
    ensures is { IfOk result (λ turn. FollowsIn given.now course.old (Waits.Staging number)
        HostSays.Done asked.now turn course.new) }
    ensures flying { OnErr result (course.new.tickets.items ≡ course.old.tickets.items) }
{
    match asked {
        Request::Host(_, HostRequest::Stage(plan, _)) => {
            staged_by(alloc, given, course, number, &plan.value)
        }
        _ => unreachable!(),
    }
}

fn staged_by(
    alloc: Global,
    given: &Given<'_>,
    course: &mut Course<'_>,
    number: usize,
    inputs: &Keyed<Value>,
) -> Result<Turn, AllocError>
    requires ready { IsReady course.old }
    requires stages { CanStage course.old number }
    ensures is { IfOk result (λ turn. AfterStaging given.now course.old number inputs.now turn
        course.new) }
    ensures flying { OnErr result (course.new.tickets.items ≡ course.old.tickets.items) }
{
    note_staging(course, number)?;
    let next = filled_first(alloc, site_of(given, course, number), inputs)?;
    turn_of(alloc, given, course, number, next)
}

/// The job's child runs.
fn started(
    alloc: Global,
    given: &Given<'_>,
    course: &mut Course<'_>,
    number: usize,
    kept: Kept,
    ticket: u64,
) -> Result<Turn, AllocError>
    requires ready { IsReady course.old }
    requires tickets { vec_len course.old.tickets < vec_capacity course.old.tickets }
    requires flights { vec_len course.old.flights < vec_capacity course.old.flights }
    ensures is { IfOk result (λ turn. AfterStart given.now course.old number kept ticket turn
        course.new) }
    ensures flying { OnErr result (course.new.tickets.items
        ≡ course.old.tickets.items ++ ticket ∷ []) }
{
    note_start(course, number, kept, ticket);
    pick(alloc, given, course)
}

/// A child has ended: a success is scanned.
fn landed(
    alloc: Global,
    given: &Given<'_>,
    course: &mut Course<'_>,
    ending: &ChildEnd,
) -> Result<Turn, AllocError>
    requires ready { IsReady course.old }
    requires flies { Contains course.old.tickets.items ending.now.ticket }
    ensures is { IfOk result (λ turn. AfterChild given.now course.old ending.now turn course.new) }
    ensures flying { OnErr result (IsOneLess ending.now.ticket course.old.tickets.items
        course.new.tickets.items) }
{
    let flight = note_end(course, ending.ticket);
    match classify(&job_of(course, flight.job).tool.exit_codes, ending.code) {
        ExitClass::Success => scanned(alloc, given, course, flight, ending.millis),
        ExitClass::Temporary => {
            let Flight { job, kept } = flight;
            mem::drop(kept);
            gave_up(alloc, given, course, job)
        }
        ExitClass::Permanent => {
            let Flight { job, kept } = flight;
            mem::drop(kept);
            let cause = Cause::Exit(ending.code);
            turn_of(alloc, given, course, job, failing(cause))
        }
    }
}

/// A child ended well: its output folder is listed.
fn scanned(
    alloc: Global,
    given: &Given<'_>,
    course: &mut Course<'_>,
    flight: Flight,
    millis: u64,
) -> Result<Turn, AllocError>
    requires folders { course.old.folders + 1 < 2 ^ 64 }
    requires number { flight.job < length course.old.jobs }
    requires known { flight.job < length (known_in course.old.known) }
    ensures is { IfOk result (λ turn. IsScanned given.now course.old flight millis turn
        course.new) }
    ensures flying { OnErr result (course.new.tickets.items ≡ course.old.tickets.items) }
{
    let Flight { job, kept } = flight;
    let next = scanning(alloc, site_of(given, course, job), kept, millis)?;
    turn_of(alloc, given, course, job, next)
}

/// The job's child failed temporarily: it waits to be staged again while retries are left.
fn gave_up(
    alloc: Global,
    given: &Given<'_>,
    course: &mut Course<'_>,
    number: usize,
) -> Result<Turn, AllocError>
    requires folders { course.old.folders + 1 < 2 ^ 64 }
    requires number { number < length course.old.jobs }
    requires known { number < length (known_in course.old.known) }
    ensures is { IfOk result (λ turn. AfterTemporary given.now course.old number turn course.new) }
    ensures flying { OnErr result (course.new.tickets.items ≡ course.old.tickets.items) }
{
    note_giving_up(alloc, course, number, given.options.retries)?;
    pick(alloc, given, course)
}

/// The job's output folder is listed.
fn on_listing(
    alloc: Global,
    given: &Given<'_>,
    course: &mut Course<'_>,
    number: usize,
    kept: Kept,
    millis: u64,
    found: &Items<Found>,
) -> Result<Turn, AllocError>
    requires ready { IsReady course.old }
    requires number { number < length course.old.jobs }
    ensures is { IfOk result (λ turn. AfterListing given.now course.old number kept millis found.now
        turn course.new) }
    ensures flying { OnErr result (course.new.tickets.items ≡ course.old.tickets.items) }
{
    let next = listed(alloc, site_of(given, course, number), kept, millis, found)?;
    turn_of(alloc, given, course, number, next)
}

/// The first bytes of an input file are read.
fn on_input_bytes(
    alloc: Global,
    given: &Given<'_>,
    course: &mut Course<'_>,
    number: usize,
    filling: Filling,
    bytes: &Items<u8>,
) -> Result<Turn, AllocError>
    requires ready { IsReady course.old }
    requires number { number < length course.old.jobs }
    ensures is { IfOk result (λ turn. AfterInputHead given.now course.old number filling bytes.now
        turn course.new) }
    ensures flying { OnErr result (course.new.tickets.items ≡ course.old.tickets.items) }
{
    let next = filled(alloc, site_of(given, course, number), filling, bytes)?;
    turn_of(alloc, given, course, number, next)
}

/// The first bytes of a file of the output folder are read.
fn on_output_bytes(
    alloc: Global,
    given: &Given<'_>,
    course: &mut Course<'_>,
    number: usize,
    kept: Kept,
    reading: Reading,
    bytes: &Items<u8>,
) -> Result<Turn, AllocError>
    requires ready { IsReady course.old }
    requires number { number < length course.old.jobs }
    ensures is { IfOk result (λ turn. AfterOutputHead given.now course.old number kept reading
        bytes.now turn course.new) }
    ensures flying { OnErr result (course.new.tickets.items ≡ course.old.tickets.items) }
{
    let next = read(alloc, site_of(given, course, number), kept, reading, bytes)?;
    turn_of(alloc, given, course, number, next)
}

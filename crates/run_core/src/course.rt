//! What the events of a run bring about.
ghost use Rattle.std.specs.Prelude.{◌≡◌, ◌<◌, ◌+◌, ◌^◌, [], None, Some, Contains, IfOk, OnErr, OnOk, length, map, slice_get, vec_len, vec_capacity};
ghost use Rattle.job_graph.specs.declared.unfolding.Unfolding.{Unfolding as Held};
ghost use Rattle.job_graph.specs.KnownJobs.{job_of as job_seen, known_of};
ghost use Rattle.run_core.specs.inner.Course.{GivesUp, TakesOut, failure_in, families_in, known_in, nothing_past, note_at, past_of, place_at, with_answer, with_end, with_fault, with_load, with_loss, with_note, with_staging, with_start, key_in};
ghost use Rattle.run_core.specs.inner.Knows.{GivesAt, IsTold, LearnsUnlessOver, end_by};
ghost use Rattle.run_core.specs.inner.Turn.{permanent};
ghost use Rattle.run_rules.specs.declared.outcome.RunFault.{RunFault as Fault};
ghost use Rattle.run_core.specs.inner.Follows.{asked_at};
ghost use Rattle.run_core.specs.inner.FoundRows.{rows_after};
ghost use Rattle.run_core.specs.inner.Touched.{TouchesBelow};
ghost use Rattle.run_plan.specs.Touched.{graph_in};

use crate::counts::NO_PLANS;
use crate::found_rows::FoundRows;
use crate::job_states::JobStates;
use crate::state::{Course, Flight, Kept};
use crate::touches::Touched;
use crate::turn::permanent;
use crate::{Cause, Note, NoteKind, Outcome, RecordAnswer, Request, RunFault};
use cwl_value::{JobPlace, Value, copy_job};
use job_graph::{Job, KnownJob, UnfoldError, UnfoldFault, Unfolding};
use job_rows::RecordRefusal;
use plain_data::{Items, Keyed, Text};
use proc_host::HostFault;
use run_plan::{KeptPlan, Rates};
use std::alloc::{AllocError, Global};
use std::mem;

/// Before any answer.
pub(crate) fn at_first<'a>(alloc: Global) -> Course<'a>
    ensures past { past_of result ≡ nothing_past }
    ensures known { result.known ≡ None }
{
    Course {
        tickets: Vec::new(alloc),
        flights: Vec::new(alloc),
        jobs: JobStates::new(alloc),
        folders: 0,
        looked_up: 0,
        rows: FoundRows::new(alloc),
        lost: Vec::new(alloc),
        notes: Vec::new(alloc),
        planned: None,
        touched: Touched::all(),
        rates: Rates::new(0, 1),
        keep: false,
        plans: Vec::new(alloc),
        counts: NO_PLANS,
        known: None,
        of_first: false,
        end: None,
    }
}

/// The jobs that are known, by number.
pub(crate) fn known_in<'s, 'a>(known: &'s Option<Unfolding<'a>>) -> &'s [KnownJob<'a>]
    ensures jobs { map (λ one. job_seen one.job) result.now ≡ known_in known.now }
    ensures families { map known_of result.now ≡ families_in known.now }
{
    match known {
        None => &[],
        Some(unfolding) => unfolding.known(),
    }
}

/// The job of a number.
pub(crate) fn job_of<'s, 'a>(course: &'s Course<'a>, number: usize) -> &'s Job<'a>
    requires { number < length (known_in course.now.known) }
    ensures { slice_get (known_in course.now.known) number ≡ Some (job_seen result.now) }
{
    &known_in(&course.known)[number].job
}

/// Settles the end by a failure, where nothing has settled it before.
pub(crate) fn settle(course: &mut Course<'_>, end: Result<Outcome, RunFault>)
    ensures past { past_of course.new ≡ with_end end (past_of course.old) }
    ensures known { course.new.known ≡ course.old.known }
{
    if course.end.is_none() {
        mem::drop(mem::replace(&mut course.end, Some(end)));
    } else {
        mem::drop(end);
    }
}

/// The end by a fault of what is known.
pub(crate) fn end_by(fault: UnfoldFault) -> Result<Outcome, RunFault>
    ensures { result ≡ end_by fault }
{
    match fault {
        UnfoldFault::TooManyJobs => Err(RunFault::TooManyJobs),
        UnfoldFault::Fault(place, cause) => permanent(place, Cause::Equation(cause)),
    }
}

/// Makes room for one more child.
pub(crate) fn reserve_one(course: &mut Course<'_>) -> Result<(), AllocError>
    ensures past { past_of course.new ≡ past_of course.old }
    ensures known { course.new.known ≡ course.old.known }
    ensures tickets { OnOk result (vec_len course.new.tickets < vec_capacity course.new.tickets) }
    ensures flights { OnOk result (vec_len course.new.flights < vec_capacity course.new.flights) }
{
    course.tickets.reserve(1)?;
    course.flights.reserve(1)?;
    Ok(())
}

/// The job has new folders.
pub(crate) fn note_staging(course: &mut Course<'_>, number: usize) -> Result<(), AllocError>
    requires folders { course.old.folders + 1 < 2 ^ 64 }
    ensures past { OnOk result (past_of course.new ≡ with_staging number (past_of course.old)) }
    ensures known { course.new.known ≡ course.old.known }
    ensures tickets { course.new.tickets ≡ course.old.tickets }
    ensures flights { course.new.flights ≡ course.old.flights }
{
    let folder = course.folders + 1;
    let mut touched = mem::replace(&mut course.touched, Touched::all());
    touched.add(number);
    course.jobs.stage(number, folder)?;
    course.touched = touched;
    course.folders = folder;
    Ok(())
}

/// The files of the job's row were fetched.
pub(crate) fn note_load(course: &mut Course<'_>, number: usize) -> Result<(), AllocError>
    requires folders { course.old.folders + 1 < 2 ^ 64 }
    ensures past { OnOk result (past_of course.new ≡ with_load number (past_of course.old)) }
    ensures known { course.new.known ≡ course.old.known }
    ensures tickets { course.new.tickets ≡ course.old.tickets }
{
    let folder = course.folders + 1;
    let mut touched = mem::replace(&mut course.touched, Touched::all());
    touched.add(number);
    course.jobs.load(number, folder)?;
    course.touched = touched;
    course.folders = folder;
    Ok(())
}

/// What was fetched is not what the job's row has: its archive is lost.
pub(crate) fn note_loss(
    alloc: Global,
    course: &mut Course<'_>,
    number: usize,
) -> Result<(), AllocError>
    requires folders { course.old.folders + 1 < 2 ^ 64 }
    ensures past { OnOk result (past_of course.new ≡ with_loss number (past_of course.old)) }
    ensures known { course.new.known ≡ course.old.known }
    ensures tickets { course.new.tickets ≡ course.old.tickets }
{
    let key = key_of_row(alloc, course, number)?;
    course.touched = Touched::all();
    course.jobs.miss(number)?;
    course.lost.push(key)?;
    course.folders += 1;
    Ok(())
}

/// The key of the row that was found for the job; empty where there is none.
pub(crate) fn key_of_row(
    alloc: Global,
    course: &Course<'_>,
    number: usize,
) -> Result<Text, AllocError>
    ensures { IfOk result (λ key. key ≡ key_in course.now.rows number) }
{
    match course.rows.get(number) {
        None => Text::from_text(alloc, ""),
        Some(row) => row.key.copied(alloc),
    }
}

/// The job's child runs.
pub(crate) fn note_start(course: &mut Course<'_>, number: usize, kept: Kept, ticket: u64)
    requires tickets { vec_len course.old.tickets < vec_capacity course.old.tickets }
    requires flights { vec_len course.old.flights < vec_capacity course.old.flights }
    ensures past { past_of course.new ≡ with_start number kept ticket (past_of course.old) }
    ensures known { course.new.known ≡ course.old.known }
{
    course.tickets.push(ticket).unwrap();
    course.flights.push(Flight { job: number, kept }).unwrap();
}

/// Takes the child of a ticket out of those in flight.
pub(crate) fn note_end(course: &mut Course<'_>, ticket: u64) -> Flight
    requires flies { Contains course.old.tickets.items ticket }
    requires as_many { length course.old.flights.items ≡ length course.old.tickets.items }
    ensures taken { TakesOut ticket result (past_of course.old) (past_of course.new) }
    ensures known { course.new.known ≡ course.old.known }
{
    match course.tickets.iter().position(|one| *one == ticket) {
        Some(index) => {
            course.tickets.remove(index);
            course.flights.remove(index)
        }
        None => unreachable!(),
    }
}

/// The job gives no outputs: that is a mismatch, where a row was found.
pub(crate) fn note_failure(
    alloc: Global,
    course: &mut Course<'_>,
    number: usize,
    cause: Cause,
) -> Result<(), AllocError>
    requires { number < length (known_in course.old.known) }
    ensures ok { OnOk result (past_of course.new
        ≡ with_end (failure_in (past_of course.old) number
        (place_at (known_in course.old.known) number) cause) (past_of course.old)) }
    ensures err { OnErr result (past_of course.new ≡ past_of course.old) }
    ensures known { course.new.known ≡ course.old.known }
{
    let place = copy_job(alloc, &job_of(course, number).place)?;
    if course.rows.get(number).is_some() {
        mem::drop(cause);
        settle(course, Err(RunFault::Mismatch(place)));
    } else {
        settle(course, permanent(place, cause));
    }
    Ok(())
}

/// The job gives other outputs than its row has.
pub(crate) fn note_mismatch(
    alloc: Global,
    course: &mut Course<'_>,
    number: usize,
) -> Result<(), AllocError>
    requires { number < length (known_in course.old.known) }
    ensures ok { OnOk result (past_of course.new
        ≡ with_end (Err (Fault.Mismatch (place_at (known_in course.old.known) number)))
        (past_of course.old)) }
    ensures err { OnErr result (past_of course.new ≡ past_of course.old) }
    ensures known { course.new.known ≡ course.old.known }
{
    let place = copy_job(alloc, &job_of(course, number).place)?;
    settle(course, Err(RunFault::Mismatch(place)));
    Ok(())
}

/// The job gives no outputs, and might if it were started again: it waits again, while retries are left.
pub(crate) fn note_giving_up(
    alloc: Global,
    course: &mut Course<'_>,
    number: usize,
    retries: u64,
) -> Result<(), AllocError>
    requires number { number < length course.old.jobs }
    requires known { number < length (known_in course.old.known) }
    ensures ok { OnOk result (GivesUp (known_in course.old.known) number retries
        (past_of course.old) (past_of course.new)) }
    ensures tickets { course.new.tickets.items ≡ course.old.tickets.items }
    ensures folders { course.new.folders ≡ course.old.folders }
    ensures known { course.new.known ≡ course.old.known }
{
    let gave_up = course.jobs.tries(number);
    if gave_up < retries {
        course.touched = Touched::all();
        course.jobs.give_up(number);
        return Ok(());
    }
    let place = copy_job(alloc, &job_of(course, number).place)?;
    settle(course, Ok(Outcome::TemporaryFail(place)));
    Ok(())
}

/// The job gives these outputs: they are at hand, and more is known, unless the end is settled.
pub(crate) fn note_success(
    alloc: Global,
    course: &mut Course<'_>,
    number: usize,
    outputs: Keyed<Value>,
) -> Result<(), AllocError>
    requires number { number < length (known_in course.old.known) }
    requires staged { number < length course.old.jobs }
    ensures given { OnOk result (GivesAt number outputs course.old course.new) }
    ensures tickets { course.new.tickets.items ≡ course.old.tickets.items }
    ensures folders { course.new.folders ≡ course.old.folders }
{
    course.jobs.bring(number);
    note_outputs(alloc, course, number, outputs)
}

/// These are the outputs of the job: more is known, unless the end is settled.
pub(crate) fn note_outputs(
    alloc: Global,
    course: &mut Course<'_>,
    number: usize,
    outputs: Keyed<Value>,
) -> Result<(), AllocError>
    requires { number < length (known_in course.old.known) }
    ensures learned { OnOk result (LearnsUnlessOver
        (record { place = place_at (known_in course.old.known) number; outputs = outputs })
        course.old course.new) }
    ensures tickets { course.new.tickets.items ≡ course.old.tickets.items }
    ensures folders { course.new.folders ≡ course.old.folders }
{
    if course.end.is_some() {
        mem::drop(outputs);
        return Ok(());
    }
    match learn(alloc, course, number, outputs) {
        Ok(()) => Ok(()),
        Err(UnfoldError::Refused(fault)) => {
            settle(course, end_by(fault));
            Ok(())
        }
        Err(UnfoldError::OutOfMemory) => Err(AllocError),
    }
}

/// The record has told what it has of the job of this number, or why the run ends.
pub(crate) fn note_answer(
    alloc: Global,
    course: &mut Course<'_>,
    number: usize,
    answer: &RecordAnswer,
    refusal: Option<RecordRefusal>,
) -> Result<(), AllocError>
    requires { number < length (known_in course.old.known) }
    ensures past { OnOk result (past_of course.new
        ≡ with_answer number answer.now refusal (past_of course.old)) }
    ensures known { course.new.known ≡ course.old.known }
    ensures flying { course.new.tickets.items ≡ course.old.tickets.items }
{
    let _number_has_a_next = known_in(&course.known).len();
    match refusal {
        None => {
            note_row(alloc, course, number, answer)?;
            course.looked_up = number + 1;
        }
        Some(refusal) => settle(course, Err(RunFault::Record(refusal))),
    }
    Ok(())
}

/// Notes what the record has told of the job of this number.
fn note_row(
    alloc: Global,
    course: &mut Course<'_>,
    number: usize,
    answer: &RecordAnswer,
) -> Result<(), AllocError>
    ensures rows { OnOk result (past_of course.new ≡ record (past_of course.old)
        { rows = rows_after number answer.now course.old.rows }) }
    ensures known { course.new.known ≡ course.old.known }
    ensures flying { course.new.tickets.items ≡ course.old.tickets.items }
{
    let touched = mem::replace(&mut course.touched, Touched::all());
    let touched = touched_too(touched, &course.planned, number);
    keep_row(alloc, &mut course.rows, number, answer)?;
    course.touched = touched;
    Ok(())
}

/// The job of this number is touched too, where the plan in force has it.
fn touched_too(touched: Touched, planned: &Option<KeptPlan>, number: usize) -> Touched
    ensures { TouchesBelow (length (graph_in planned.now)) number touched result }
{
    let mut touched = touched;
    if number < vertices_in(planned) {
        touched.add(number);
    }
    touched
}

/// How many vertices the plan in force has.
fn vertices_in(planned: &Option<KeptPlan>) -> usize
    ensures { result ≡ length (graph_in planned.now) }
{
    match planned {
        None => 0,
        Some(kept) => kept.made().graph.vertices().len(),
    }
}

/// Keeps the row that the record has told, if it told one.
fn keep_row(
    alloc: Global,
    rows: &mut FoundRows,
    number: usize,
    answer: &RecordAnswer,
) -> Result<(), AllocError>
    ensures { OnOk result (rows.new ≡ rows_after number answer.now rows.old) }
{
    match answer {
        RecordAnswer::Found(Some(row)) => rows.set(number, row.clone_in(alloc)?),
        _ => Ok(()),
    }
}

/// Notes what went wrong for the job of a number without changing the end.
pub(crate) fn note(
    alloc: Global,
    course: &mut Course<'_>,
    number: usize,
    kind: NoteKind,
) -> Result<(), AllocError>
    requires { number < length (known_in course.old.known) }
    ensures past { OnOk result (past_of course.new
        ≡ with_note (note_at (place_at (known_in course.old.known) number) kind)
        (past_of course.old)) }
    ensures known { course.new.known ≡ course.old.known }
    ensures flying { course.new.tickets.items ≡ course.old.tickets.items }
{
    let place = copy_job(alloc, &job_of(course, number).place)?;
    course.notes.push(Note { place, kind })?;
    Ok(())
}

/// This call failed: that settles the end, and where it was settled before, it is noted.
pub(crate) fn note_fault(
    alloc: Global,
    course: &mut Course<'_>,
    asks: &Request,
    fault: HostFault,
) -> Result<(), AllocError>
    ensures past { OnOk result (past_of course.new
        ≡ with_fault (asked_at asks.now) fault (past_of course.old)) }
    ensures known { course.new.known ≡ course.old.known }
    ensures flying { course.new.tickets.items ≡ course.old.tickets.items }
{
    if course.end.is_none() {
        settle(course, Err(RunFault::Host(fault, Items::new(alloc))));
        return Ok(());
    }
    let place = place_asked(alloc, asks)?;
    course.notes.push(Note {
        place,
        kind: NoteKind::Late(fault),
    })?;
    Ok(())
}

/// The place of the job that is asked for.
fn place_asked(alloc: Global, asks: &Request) -> Result<JobPlace, AllocError>
    ensures { IfOk result (λ place. place ≡ asked_at asks.now) }
{
    match asks {
        Request::Host(place, _) => copy_job(alloc, place),
        Request::Record(place, _) => copy_job(alloc, place),
        Request::Finished => Ok(Items::new(alloc)),
    }
}

/// Tells what is known of the job's outputs.
fn learn(
    alloc: Global,
    course: &mut Course<'_>,
    number: usize,
    outputs: Keyed<Value>,
) -> Result<(), UnfoldError>
    requires { number < length (known_in course.old.known) }
    ensures told { (kept : Held) → course.old.known ≡ Some kept →
        IsTold (record { place = place_at (known_in course.old.known) number; outputs = outputs })
        kept course.new.known result }
    ensures past { past_of course.new ≡ past_of course.old }
{
    let place = copy_job(alloc, &job_of(course, number).place)?;
    match &mut course.known {
        Some(unfolding) => unfolding.learn(place, outputs),
        None => Ok(()),
    }
}

//! The files of a job's row are fetched, where they are archived: they are the row's, and its archive is used, or it is lost.
ghost use Rattle.std.specs.Prelude.{◌≡◌, ◌↔◌, ◌<◌, ◌+◌, ◌^◌, true, IsTrue, IfOk, MatchOption, OnErr, OnOk, length};
ghost use Rattle.run_core.specs.inner.Course.{known_in as jobs_in, is_lost_in, past_of, with_load, with_loss};
ghost use Rattle.run_core.specs.inner.Fetches.{AgreesAt, Fetches, IsNextToFetch, NoneToFetch, can_load, drops, loads_in, touches};
ghost use Rattle.run_core.specs.inner.Picks.{AfterFetch};

use crate::course::{job_of, key_of_row, known_in, note_load, note_loss};
use crate::planning::{is_loaded, marks_in};
use crate::state::{Course, Given, Phase, Turn};
use crate::turn::telling;
use crate::{RecordRequest, Request};
use cwl_value::copy_job;
use job_reuse::files_agree;
use plain_data::{Items, Text};
use plan_checker::Mark;
use proc_host::fetch_request;
use staging::Found;
use std::alloc::{AllocError, Global};
use std::mem;

/// The lowest known job that waits and is loaded.
pub(crate) fn next_to_fetch(given: &Given<'_>, course: &Course<'_>) -> Option<usize>
    ensures { MatchOption result (NoneToFetch given.now course.now)
        (IsNextToFetch given.now course.now) }
{
    if !given.options.keep {
        return None;
    }
    let marks = marks_in(&course.planned);
    for number in 0..known_in(&course.known).len() {
        if loads(course, marks, number) {
            return Some(number);
        }
    }
    None
}

/// Whether the job of a number waits, is loaded, and can be.
fn loads(course: &Course<'_>, marks: &[Mark], number: usize) -> bool
    ensures { result ≡ loads_in marks.now course.now number }
{
    course.jobs.waits(number) && (is_loaded(marks, number) && can_load(course, number))
}

/// Whether the job of a number has an archived row, whose archive was not found to be another.
pub(crate) fn can_load(course: &Course<'_>, number: usize) -> bool
    ensures { result ≡ can_load course.now number }
{
    match course.rows.get(number) {
        None => false,
        Some(row) => row.archived && !is_lost(course.lost.as_slice(), &row.key),
    }
}

fn is_lost(lost: &[Text], key: &Text) -> bool
    ensures { result ≡ is_lost_in lost.now key.now }
{
    for other in lost {
        if other.equals(key) {
            return true;
        }
    }
    false
}

/// The files of a job's row are fetched.
pub(crate) fn fetching(
    alloc: Global,
    course: &Course<'_>,
    number: usize,
) -> Result<Turn, AllocError>
    requires folders { course.now.folders + 1 < 2 ^ 64 }
    requires number { number < length (jobs_in course.now.known) }
    requires loads { can_load course.now number ≡ true }
    ensures { IfOk result (Fetches course.now number) }
{
    match course.rows.get(number) {
        None => unreachable!(),
        Some(row) => {
            let call = fetch_request(alloc, &row.key, course.folders + 1, &row.files)?;
            let place = copy_job(alloc, &job_of(course, number).place)?;
            Ok(Turn {
                asks: Request::Host(place, call),
                phase: Phase::Fetching(number),
            })
        }
    }
}

/// The files that were there of those of the job's row, as they were: its archive is used, or dropped.
pub(crate) fn fetched(
    alloc: Global,
    course: &mut Course<'_>,
    number: usize,
    found: &Items<Found>,
) -> Result<Turn, AllocError>
    requires folders { course.old.folders + 1 < 2 ^ 64 }
    requires number { number < length (jobs_in course.old.known) }
    ensures is { IfOk result (λ turn. AfterFetch course.old number found.now turn course.new) }
    ensures flying { OnErr result (course.new.tickets.items ≡ course.old.tickets.items) }
{
    match agrees(course, number, found.as_slice()) {
        true => loaded(alloc, course, number),
        false => missed(alloc, course, number),
    }
}

/// The files of the job's row are there: its archive was used.
fn loaded(alloc: Global, course: &mut Course<'_>, number: usize) -> Result<Turn, AllocError>
    requires folders { course.old.folders + 1 < 2 ^ 64 }
    requires number { number < length (jobs_in course.old.known) }
    ensures is { IfOk result (λ turn. turn ≡ touches course.old number) }
    ensures past { OnOk result (past_of course.new ≡ with_load number (past_of course.old)) }
    ensures known { course.new.known ≡ course.old.known }
    ensures flying { OnErr result (course.new.tickets.items ≡ course.old.tickets.items) }
{
    let turn = touching(alloc, course, number)?;
    match note_load(course, number) {
        Ok(()) => Ok(turn),
        Err(error) => {
            mem::drop(turn);
            Err(error)
        }
    }
}

/// Others are there: its archive is lost, and dropped.
fn missed(alloc: Global, course: &mut Course<'_>, number: usize) -> Result<Turn, AllocError>
    requires folders { course.old.folders + 1 < 2 ^ 64 }
    requires number { number < length (jobs_in course.old.known) }
    ensures is { IfOk result (λ turn. turn ≡ drops course.old number) }
    ensures past { OnOk result (past_of course.new ≡ with_loss number (past_of course.old)) }
    ensures known { course.new.known ≡ course.old.known }
    ensures flying { OnErr result (course.new.tickets.items ≡ course.old.tickets.items) }
{
    let turn = dropping(alloc, course, number)?;
    match note_loss(alloc, course, number) {
        Ok(()) => Ok(turn),
        Err(error) => {
            mem::drop(turn);
            Err(error)
        }
    }
}

/// Whether these are the files of the job's row.
fn agrees(course: &Course<'_>, number: usize, found: &[Found]) -> bool
    ensures { IsTrue result ↔ AgreesAt course.now number found.now }
{
    match course.rows.get(number) {
        None => false,
        Some(row) => files_agree(row, found),
    }
}

/// The archive of the job's row was used.
fn touching(alloc: Global, course: &Course<'_>, number: usize) -> Result<Turn, AllocError>
    requires { number < length (jobs_in course.now.known) }
    ensures { IfOk result (λ turn. turn ≡ touches course.now number) }
{
    let command = RecordRequest::Touch(key_of_row(alloc, course, number)?);
    telling(
        alloc,
        &job_of(course, number).place,
        command,
        Phase::Touching(number),
    )
}

/// The archive of the job's row is dropped.
fn dropping(alloc: Global, course: &Course<'_>, number: usize) -> Result<Turn, AllocError>
    requires { number < length (jobs_in course.now.known) }
    ensures { IfOk result (λ turn. turn ≡ drops course.now number) }
{
    let command = RecordRequest::DropArchive(key_of_row(alloc, course, number)?);
    telling(
        alloc,
        &job_of(course, number).place,
        command,
        Phase::Dropping(number),
    )
}

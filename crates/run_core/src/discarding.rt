//! Archives that are of no use any more are discarded, one after another.
ghost use Rattle.std.specs.Prelude.{◌≡◌, ◌<◌, ◌+◌, ◌^◌, IfOk, OnErr, length};
ghost use Rattle.run_core.specs.inner.Course.{known_in, place_at};
ghost use Rattle.run_core.specs.inner.Discards.{DiscardsAll, DiscardsOn, DiscardsPast};
ghost use Rattle.run_core.specs.inner.Turn.{discards};

use crate::NoteKind;
use crate::choice::pick;
use crate::course::{job_of, note};
use crate::state::{Course, Given, Turn};
use crate::turn::discarding;
use crate::turns::last_first;
use plain_data::{Items, Text};
use proc_host::HostFault;
use std::alloc::{AllocError, Global};
use std::mem;

/// The archives of these keys are discarded, which the row of a job has taken away.
pub(crate) fn discard_all(
    alloc: Global,
    given: &Given<'_>,
    course: &mut Course<'_>,
    number: usize,
    gone: &Items<Text>,
) -> Result<Turn, AllocError>
    requires folders { course.old.folders + 1 < 2 ^ 64 }
    requires number { number < length (known_in course.old.known) }
    ensures is { IfOk result (λ turn. DiscardsAll given.now course.old number gone.now turn
        course.new) }
    ensures flying { OnErr result (course.new.tickets.items ≡ course.old.tickets.items) }
{
    let left = last_first(gone.copied(alloc)?);
    discard_next(alloc, given, course, number, left)
}

/// The archive of the last of these keys is discarded. Where there is none, nothing is due.
pub(crate) fn discard_next(
    alloc: Global,
    given: &Given<'_>,
    course: &mut Course<'_>,
    number: usize,
    mut left: Items<Text>,
) -> Result<Turn, AllocError>
    requires folders { course.old.folders + 1 < 2 ^ 64 }
    requires number { number < length (known_in course.old.known) }
    ensures is { IfOk result (λ turn. DiscardsOn given.now course.old number left turn
        course.new) }
    ensures flying { OnErr result (course.new.tickets.items ≡ course.old.tickets.items) }
{
    match left.pop() {
        None => {
            mem::drop(left);
            pick(alloc, given, course)
        }
        Some(key) => discard_one(alloc, course, number, key, left),
    }
}

/// The archive of this key is discarded, and then those of these are, the last first.
pub(crate) fn discard_one(
    alloc: Global,
    course: &Course<'_>,
    number: usize,
    key: Text,
    left: Items<Text>,
) -> Result<Turn, AllocError>
    requires { number < length (known_in course.now.known) }
    ensures { IfOk result (λ turn. turn ≡ discards (place_at (known_in course.now.known) number)
        number key left) }
{
    discarding(alloc, &job_of(course, number).place, number, key, left)
}

/// An archive could not be discarded: that is noted, and the others are discarded all the same.
pub(crate) fn undiscarded(
    alloc: Global,
    given: &Given<'_>,
    course: &mut Course<'_>,
    number: usize,
    left: Items<Text>,
    fault: HostFault,
) -> Result<Turn, AllocError>
    requires folders { course.old.folders + 1 < 2 ^ 64 }
    requires number { number < length (known_in course.old.known) }
    ensures is { IfOk result (λ turn. DiscardsPast given.now course.old number left fault turn
        course.new) }
    ensures flying { OnErr result (course.new.tickets.items ≡ course.old.tickets.items) }
{
    match note(alloc, course, number, NoteKind::Discard(fault)) {
        Ok(()) => discard_next(alloc, given, course, number, left),
        Err(error) => {
            mem::drop(left);
            Err(error)
        }
    }
}

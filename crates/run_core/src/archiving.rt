//! What becomes of the row of a job: it is put, and where an archive is kept its files are archived before.
ghost use Rattle.std.specs.Prelude.{◌≡◌, ◌<◌, true, false, IfOk, OnErr, length};
ghost use Rattle.run_core.specs.inner.Course.{known_in, past_of, place_at, store_note, with_note};
ghost use Rattle.run_core.specs.inner.JobStates.{state_at};
ghost use Rattle.run_core.specs.inner.Picks.{PutsRow};
ghost use Rattle.run_core.specs.inner.Turn.{keeps_row, stores};
ghost use Rattle.run_rules.specs.Folders.{out_folder};

use crate::NoteKind;
use crate::course::{job_of, note};
use crate::folders::out_folder;
use crate::state::{Course, Given, Turn};
use crate::turn::{putting, storing};
use job_rows::Row;
use proc_host::HostFault;
use std::alloc::{AllocError, Global};
use std::mem;

/// The row of a job is kept: it is put, and before that its files are archived where an archive is kept.
pub(crate) fn keeping(
    alloc: Global,
    given: &Given<'_>,
    course: &Course<'_>,
    number: usize,
    row: Row,
) -> Result<Turn, AllocError>
    requires staged { number < length course.now.jobs }
    requires known { number < length (known_in course.now.known) }
    ensures { IfOk result (λ turn. turn ≡ keeps_row given.now.options.keep
        (out_folder given.now.options.work (state_at course.now.jobs number).folder)
        (place_at (known_in course.now.known) number) number row) }
{
    if given.options.keep {
        return archiving(alloc, given, course, number, row);
    }
    putting(alloc, &job_of(course, number).place, number, row)
}

/// The files of a job are archived, from the folder that it was staged in last.
fn archiving(
    alloc: Global,
    given: &Given<'_>,
    course: &Course<'_>,
    number: usize,
    row: Row,
) -> Result<Turn, AllocError>
    requires staged { number < length course.now.jobs }
    requires known { number < length (known_in course.now.known) }
    ensures { IfOk result (λ turn. turn ≡ stores (place_at (known_in course.now.known) number)
        number (out_folder given.now.options.work (state_at course.now.jobs number).folder) row) }
{
    let folder = course.jobs.folder_of(number);
    match out_folder(alloc, &given.options.work, folder) {
        Ok(folder) => storing(alloc, &job_of(course, number).place, number, &folder, row),
        Err(error) => {
            mem::drop(row);
            Err(error)
        }
    }
}

/// The files of this job are archived: so its row says, which is put next.
pub(crate) fn archived(
    alloc: Global,
    course: &Course<'_>,
    number: usize,
    mut row: Row,
) -> Result<Turn, AllocError>
    requires { number < length (known_in course.now.known) }
    ensures { IfOk result (λ turn. PutsRow course.now number (record row { archived = true })
        (past_of course.now) turn course.now) }
{
    row.archived = true;
    putting(alloc, &job_of(course, number).place, number, row)
}

/// They could not be archived: that is noted, and its row, which is put next, has no archive.
pub(crate) fn unarchived(
    alloc: Global,
    course: &mut Course<'_>,
    number: usize,
    mut row: Row,
    fault: HostFault,
) -> Result<Turn, AllocError>
    requires { number < length (known_in course.old.known) }
    ensures is { IfOk result (λ turn. PutsRow course.old number (record row { archived = false })
        (with_note (store_note (place_at (known_in course.old.known) number) fault)
        (past_of course.old)) turn course.new) }
    ensures flying { OnErr result (course.new.tickets.items ≡ course.old.tickets.items) }
{
    match note(alloc, course, number, NoteKind::Store(fault)) {
        Ok(()) => {
            row.archived = false;
            putting(alloc, &job_of(course, number).place, number, row)
        }
        Err(error) => {
            mem::drop(row);
            Err(error)
        }
    }
}

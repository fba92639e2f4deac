//! What follows from the record's answers: what it has of a job, whether it keeps the row of one, and what becomes of archives.
ghost use Rattle.std.specs.Prelude.{◌≡◌, ◌<◌, ◌+◌, ◌^◌, [], Some, IfOk, OnErr, OnOk, length};
ghost use Rattle.run_core.specs.inner.Course.{key_in, known_in, past_of, place_at};
ghost use Rattle.run_core.specs.inner.Discards.{AfterDrop, AfterPut, dropped_by};
ghost use Rattle.run_core.specs.inner.Follows.{FollowsRecord, IsDoneOrNot, IsOfAFind, IsOfAPut, IsReady, WaitsForRecord};
ghost use Rattle.run_core.specs.inner.Picks.{AfterFind, AfterTouch, LearnsRow, Tells, touched_by};
ghost use Rattle.run_core.specs.inner.Turn.{discards};
ghost use Rattle.run_rules.specs.declared.request.RecordAnswer.{RecordAnswer as Told};

use crate::choice::pick;
use crate::course::{job_of, key_of_row, note, note_answer, note_outputs};
use crate::discarding::{discard_all, discard_one};
use crate::state::{Course, Given, Phase, Turn};
use crate::{NoteKind, RecordAnswer};
use cwl_process::Tool;
use cwl_value::copy_fields;
use job_reuse::row_is_sound;
use job_rows::{RecordRefusal, Row};
use plain_data::Items;
use std::alloc::{AllocError, Global};
use std::mem;

/// What the machine waits for after the record's answer.
pub(crate) fn told(
    alloc: Global,
    given: &Given<'_>,
    course: &mut Course<'_>,
    phase: Phase,
    answer: &RecordAnswer,
) -> Result<Turn, AllocError>
    requires ready { IsReady course.old }
    requires waits { WaitsForRecord course.old phase answer.now }
    ensures is { IfOk result (λ turn. FollowsRecord given.now course.old phase answer.now turn
        course.new) }
    ensures flying { OnErr result (course.new.tickets.items ≡ course.old.tickets.items) }
{
    match phase {
        Phase::Finding(number) => told_of_job(alloc, given, course, number, answer),
        Phase::Putting(number) => put(alloc, given, course, number, answer),
        Phase::Touching(number) => touched(alloc, given, course, number, answer),
        Phase::Dropping(number) => dropped(alloc, course, number, answer),
        _ => unreachable!(),
    }
}

/// The record has answered the question for the row of this job.
fn told_of_job(
    alloc: Global,
    given: &Given<'_>,
    course: &mut Course<'_>,
    number: usize,
    answer: &RecordAnswer,
) -> Result<Turn, AllocError>
    requires folders { course.old.folders + 1 < 2 ^ 64 }
    requires number { number < length (known_in course.old.known) }
    requires answers { IsOfAFind answer.now }
    ensures is { IfOk result (λ turn. AfterFind given.now course.old number answer.now turn
        course.new) }
    ensures flying { OnErr result (course.new.tickets.items ≡ course.old.tickets.items) }
{
    let refusal = refusal_of(alloc, job_of(course, number).tool, answer)?;
    note_answer(alloc, course, number, answer, refusal)?;
    learn_row(alloc, course, number, answer)?;
    pick(alloc, given, course)
}

/// Tells what is known of the outputs of the row that was found, if one was, unless the end is settled.
fn learn_row(
    alloc: Global,
    course: &mut Course<'_>,
    number: usize,
    answer: &RecordAnswer,
) -> Result<(), AllocError>
    requires { number < length (known_in course.old.known) }
    ensures learned { OnOk result (LearnsRow (place_at (known_in course.old.known) number)
        answer.now course.old course.new) }
    ensures flying { course.new.tickets.items ≡ course.old.tickets.items }
    ensures folders { course.new.folders ≡ course.old.folders }
{
    match answer {
        RecordAnswer::Found(Some(row)) => {
            let outputs = copy_fields(alloc, &row.outputs)?;
            note_outputs(alloc, course, number, outputs)
        }
        _ => Ok(()),
    }
}

/// The record has answered whether the row of this job is kept: the archives that it takes away are discarded.
fn put(
    alloc: Global,
    given: &Given<'_>,
    course: &mut Course<'_>,
    number: usize,
    answer: &RecordAnswer,
) -> Result<Turn, AllocError>
    requires folders { course.old.folders + 1 < 2 ^ 64 }
    requires number { number < length (known_in course.old.known) }
    requires answers { IsOfAPut answer.now }
    ensures is { IfOk result (λ turn. AfterPut given.now course.old number answer.now turn
        course.new) }
    ensures flying { OnErr result (course.new.tickets.items ≡ course.old.tickets.items) }
{
    match answer {
        RecordAnswer::Put(gone) => discard_all(alloc, given, course, number, gone),
        RecordAnswer::Refused(refusal) => {
            note(alloc, course, number, NoteKind::Put(*refusal))?;
            pick(alloc, given, course)
        }
        RecordAnswer::Found(_) | RecordAnswer::Done => unreachable!(),
    }
}

/// The record has answered whether it is noted that the archive of the job's row was used.
fn touched(
    alloc: Global,
    given: &Given<'_>,
    course: &mut Course<'_>,
    number: usize,
    answer: &RecordAnswer,
) -> Result<Turn, AllocError>
    requires folders { course.old.folders + 1 < 2 ^ 64 }
    requires number { number < length (known_in course.old.known) }
    requires answers { IsDoneOrNot answer.now }
    ensures is { IfOk result (λ turn. AfterTouch given.now course.old number answer.now turn
        course.new) }
    ensures flying { OnErr result (course.new.tickets.items ≡ course.old.tickets.items) }
{
    note_touch(alloc, course, number, answer)?;
    pick(alloc, given, course)
}

/// Notes that the record refused to note that an archive was used, if it did.
fn note_touch(
    alloc: Global,
    course: &mut Course<'_>,
    number: usize,
    answer: &RecordAnswer,
) -> Result<(), AllocError>
    requires number { number < length (known_in course.old.known) }
    requires answers { IsDoneOrNot answer.now }
    ensures past { OnOk result (past_of course.new
        ≡ touched_by (place_at (known_in course.old.known) number) answer.now
        (past_of course.old)) }
    ensures known { course.new.known ≡ course.old.known }
    ensures flying { course.new.tickets.items ≡ course.old.tickets.items }
{
    match answer {
        RecordAnswer::Done => Ok(()),
        RecordAnswer::Refused(refusal) => note(alloc, course, number, NoteKind::Touch(*refusal)),
        RecordAnswer::Found(_) | RecordAnswer::Put(_) => unreachable!(),
    }
}

/// The record has answered whether it is noted that the archive of the job's row is gone: it is discarded.
fn dropped(
    alloc: Global,
    course: &mut Course<'_>,
    number: usize,
    answer: &RecordAnswer,
) -> Result<Turn, AllocError>
    requires number { number < length (known_in course.old.known) }
    requires answers { IsDoneOrNot answer.now }
    ensures is { IfOk result (λ turn. AfterDrop course.old number answer.now turn course.new) }
    ensures flying { OnErr result (course.new.tickets.items ≡ course.old.tickets.items) }
{
    let turn = discarding_own(alloc, course, number)?;
    match note_drop(alloc, course, number, answer) {
        Ok(()) => Ok(turn),
        Err(error) => {
            mem::drop(turn);
            Err(error)
        }
    }
}

/// The archive of the job's row is discarded.
fn discarding_own(alloc: Global, course: &Course<'_>, number: usize) -> Result<Turn, AllocError>
    requires { number < length (known_in course.now.known) }
    ensures { IfOk result (λ turn. turn ≡ discards (place_at (known_in course.now.known) number)
        number (key_in course.now.rows number) []) }
{
    let key = key_of_row(alloc, course, number)?;
    discard_one(alloc, course, number, key, Items::new(alloc))
}

/// Notes that the record refused to note that an archive is gone, if it did.
fn note_drop(
    alloc: Global,
    course: &mut Course<'_>,
    number: usize,
    answer: &RecordAnswer,
) -> Result<(), AllocError>
    requires number { number < length (known_in course.old.known) }
    requires answers { IsDoneOrNot answer.now }
    ensures past { OnOk result (past_of course.new
        ≡ dropped_by (place_at (known_in course.old.known) number) answer.now
        (past_of course.old)) }
    ensures known { course.new.known ≡ course.old.known }
    ensures flying { course.new.tickets.items ≡ course.old.tickets.items }
{
    match answer {
        RecordAnswer::Done => Ok(()),
        RecordAnswer::Refused(refusal) => note(alloc, course, number, NoteKind::Drop(*refusal)),
        RecordAnswer::Found(_) | RecordAnswer::Put(_) => unreachable!(),
    }
}

/// Why the run ends by this answer, if it does: the record refused, or the row contradicts itself or the tool.
fn refusal_of(
    alloc: Global,
    tool: &Tool,
    answer: &RecordAnswer,
) -> Result<Option<RecordRefusal>, AllocError>
    requires { IsOfAFind answer.now }
    ensures { IfOk result (Tells tool.now answer.now) }
{
    match answer {
        RecordAnswer::Found(found) => match found {
            Some(row) => contradiction_of(alloc, tool, row),
            None => Ok(None),
        },
        RecordAnswer::Refused(refusal) => Ok(Some(*refusal)),
        RecordAnswer::Put(_) | RecordAnswer::Done => unreachable!(),
    }
}

/// A row that contradicts itself or the tool is refused, as one that does not read.
fn contradiction_of(
    alloc: Global,
    tool: &Tool,
    row: &Row,
) -> Result<Option<RecordRefusal>, AllocError>
    ensures { IfOk result (Tells tool.now (Told.Found (Some row.now))) }
{
    match row_is_sound(alloc, tool, row)? {
        true => Ok(None),
        false => Ok(Some(RecordRefusal::NotARecord)),
    }
}

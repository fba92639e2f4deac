//! What the machine may wait for.
ghost use Rattle.std.specs.Prelude.{◌≡◌, IfOk};
ghost use Rattle.proc_host.specs.declared.call.HostRequest.{HostRequest as Call};
ghost use Rattle.run_core.specs.declared.state.JobNext.{JobNext as Next};
ghost use Rattle.run_core.specs.inner.Course.{past_of};
ghost use Rattle.run_core.specs.inner.Turn.{collects, discards, ends, given_up, lost_after, permanent, puts, root_asks, stores, succeeds, tells_record, waits, works};
ghost use Rattle.run_rules.specs.declared.request.Request.{Request as Asks};

use crate::state::{Course, JobNext, JobPhase, Phase, Turn};
use crate::{Cause, Outcome, RecordRequest, Request, RunFault};
use cwl_value::{JobPlace, Value, copy_job};
use job_rows::Row;
use plain_data::{Items, Text};
use proc_host::{HostRequest, store_request};
use std::alloc::{AllocError, Global};
use std::mem;

/// The run has ended so.
pub(crate) fn ended(outcome: Result<Outcome, RunFault>) -> Turn
    ensures { result ≡ ends outcome }
{
    Turn {
        asks: Request::Finished,
        phase: Phase::Ended(outcome),
    }
}

pub(crate) fn succeeded(outputs: Value) -> Turn
    ensures { result ≡ succeeds outputs }
{
    ended(Ok(Outcome::Success(outputs)))
}

fn root_asks(alloc: Global, request: HostRequest) -> Request
    ensures { result ≡ root_asks request }
{
    Request::Host(Items::new(alloc), request)
}

/// The whole run asks this.
pub(crate) fn waiting(alloc: Global, request: HostRequest, phase: Phase) -> Turn
    ensures { result ≡ waits request phase }
{
    Turn {
        asks: root_asks(alloc, request),
        phase,
    }
}

/// A child in flight is waited for.
pub(crate) fn collecting(alloc: Global) -> Turn
    ensures { result ≡ collects }
{
    waiting(alloc, HostRequest::Collect, Phase::Collecting)
}

/// Memory ran out: the children in flight are waited for, and nothing else.
pub(crate) fn lost(alloc: Global, course: &Course<'_>) -> Turn
    ensures { result ≡ lost_after (past_of course.now) }
{
    if course.tickets.is_empty() {
        return ended(Err(RunFault::OutOfMemory));
    }
    waiting(alloc, HostRequest::Collect, Phase::Draining)
}

/// Memory ran out outside of the machine: the children in flight are waited for. Where their ends alone were waited for
/// already, the machine gives up on them too.
pub(crate) fn given_up(alloc: Global, course: &Course<'_>, phase: &Phase) -> Turn
    ensures { result ≡ given_up (past_of course.now) phase.now }
{
    match phase {
        Phase::Draining => ended(Err(RunFault::OutOfMemory)),
        _ => lost(alloc, course),
    }
}

/// This is asked for a job.
pub(crate) fn working(
    alloc: Global,
    place: &JobPlace,
    number: usize,
    request: HostRequest,
    phase: JobPhase,
) -> Result<Turn, AllocError>
    ensures { IfOk result (λ turn. turn ≡ works place.now number request phase) }
{
    match copy_job(alloc, place) {
        Ok(place) => Ok(Turn {
            asks: Request::Host(place, request),
            phase: Phase::Working(number, phase),
        }),
        Err(refused) => {
            mem::drop(request);
            mem::drop(phase);
            Err(refused)
        }
    }
}

/// The record is told this for a job.
pub(crate) fn telling(
    alloc: Global,
    place: &JobPlace,
    command: RecordRequest,
    phase: Phase,
) -> Result<Turn, AllocError>
    ensures { IfOk result (λ turn. turn ≡ tells_record place.now command phase) }
{
    match copy_job(alloc, place) {
        Ok(place) => Ok(Turn {
            asks: Request::Record(place, command),
            phase,
        }),
        Err(refused) => {
            mem::drop(command);
            mem::drop(phase);
            Err(refused)
        }
    }
}

/// The row of a job is put.
pub(crate) fn putting(
    alloc: Global,
    place: &JobPlace,
    number: usize,
    row: Row,
) -> Result<Turn, AllocError>
    ensures { IfOk result (λ turn. turn ≡ puts place.now number row) }
{
    let command = RecordRequest::Put(row);
    telling(alloc, place, command, Phase::Putting(number))
}

/// An archive is discarded for a job, and then those of these keys, the last first.
pub(crate) fn discarding(
    alloc: Global,
    place: &JobPlace,
    number: usize,
    key: Text,
    left: Items<Text>,
) -> Result<Turn, AllocError>
    ensures { IfOk result (λ turn. turn ≡ discards place.now number key left) }
{
    match copy_job(alloc, place) {
        Ok(place) => Ok(Turn {
            asks: Request::Host(place, HostRequest::Discard(key)),
            phase: Phase::Discarding(number, left),
        }),
        Err(refused) => {
            mem::drop(key);
            mem::drop(left);
            Err(refused)
        }
    }
}

/// The files of a job, which are in this folder, are archived, and then its row is put.
pub(crate) fn storing(
    alloc: Global,
    place: &JobPlace,
    number: usize,
    folder: &Text,
    row: Row,
) -> Result<Turn, AllocError>
    ensures { IfOk result (λ turn. turn ≡ stores place.now number folder.now row) }
{
    match store_of(alloc, place, folder, &row) {
        Ok(asks) => Ok(Turn {
            asks,
            phase: Phase::Storing(number, row),
        }),
        Err(refused) => {
            mem::drop(row);
            Err(refused)
        }
    }
}

/// The request to archive what the row of a job lists.
fn store_of(
    alloc: Global,
    place: &JobPlace,
    folder: &Text,
    row: &Row,
) -> Result<Request, AllocError>
    ensures { IfOk result (λ asks. asks
        ≡ Asks.Host place.now (Call.Store row.now.key folder.now row.now.files)) }
{
    let request = store_request(alloc, &row.key, folder, &row.files)?;
    match copy_job(alloc, place) {
        Ok(place) => Ok(Request::Host(place, request)),
        Err(refused) => {
            mem::drop(request);
            Err(refused)
        }
    }
}

/// The job gives no outputs.
pub(crate) fn failing(cause: Cause) -> JobNext
    ensures { result ≡ Next.Fails cause }
{
    JobNext::Fails(cause)
}

/// The job at a place gives no outputs, and would give none if it were started again.
pub(crate) fn permanent(place: JobPlace, cause: Cause) -> Result<Outcome, RunFault>
    ensures { result ≡ permanent place cause }
{
    Ok(Outcome::PermanentFail(place, cause))
}

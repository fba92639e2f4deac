//! The record is asked for the row of each known job that may have one, in the order of their numbers.
ghost use Rattle.std.specs.Prelude.{◌<◌, IfOk, MatchOption, length};
ghost use Rattle.run_core.specs.inner.Course.{known_in as jobs_in};
ghost use Rattle.job_graph.specs.KnownJobs.{jobs_in as jobs_seen};
ghost use Rattle.run_core.specs.inner.Picks.{Finds, IsFirstReusable, IsNextToFind, NoneReusable, NoneToFind};

use crate::course::{job_of, known_in};
use crate::state::{Course, Phase, Turn};
use crate::{RecordRequest, Request};
use cwl_value::copy_job;
use job_graph::KnownJob;
use job_key::key_text;
use std::alloc::{AllocError, Global};

/// The lowest known job whose row was not looked for, of those that may have one.
pub(crate) fn next_to_find(course: &Course<'_>) -> Option<usize>
    ensures { MatchOption result (NoneToFind course.now) (IsNextToFind course.now) }
{
    first_reusable(known_in(&course.known), course.looked_up)
}

/// The first of the jobs, from a number on, of which an earlier result may be used.
fn first_reusable(known: &[KnownJob<'_>], from: usize) -> Option<usize>
    ensures { MatchOption result (NoneReusable (jobs_seen known.now) from)
        (IsFirstReusable (jobs_seen known.now) from) }
{
    for number in from..known.len() {
        let tool = known[number].job.tool;
        if tool.asked.reuse() {
            return Some(number);
        }
    }
    None
}

/// The row of a job is looked for, under the job's key.
pub(crate) fn finding(alloc: Global, course: &Course<'_>, number: usize) -> Result<Turn, AllocError>
    requires { number < length (jobs_in course.now.known) }
    ensures { IfOk result (Finds course.now number) }
{
    let job = job_of(course, number);
    let key = key_text(alloc, job.tool, &job.inputs)?;
    let place = copy_job(alloc, &job.place)?;
    Ok(Turn {
        asks: Request::Record(place, RecordRequest::Find(key)),
        phase: Phase::Finding(number),
    })
}

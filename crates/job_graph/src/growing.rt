//! How the known jobs grow by what a walk meets.
ghost use Rattle.std.specs.Prelude.{◌≡◌, ◌∷◌, [], IfOk, false, is_some, map};
ghost use Rattle.job_graph.specs.Jobs.{met_job};
ghost use Rattle.job_graph.specs.Unfold.{is_known, parents_from};
ghost use Rattle.job_graph.specs.KnownJobs.{job_of, jobs_in};
ghost use Rattle.job_graph.specs.inner.Growth.{Grows};
ghost use Rattle.job_graph.specs.inner.Views.{met_of};

use crate::fault::{UnfoldError, UnfoldFault};
use crate::growth::KnownJob;
use crate::known::Known;
use crate::makers::Makers;
use crate::walk::{Job, Met};
use cwl_value::Value;
use plain_data::{Items, Keyed};
use plan_checker::{MOST_ENTRIES, MOST_VERTICES};
use std::alloc::{AllocError, Global};

/// Adds the jobs that are met for the first time, up to the first fault. Returns how many parents all have.
pub(crate) fn grow<'a>(
    alloc: Global,
    known: &mut Known<'a>,
    entries: usize,
    met: Items<Met<'a>>,
) -> Result<usize, UnfoldError>
    ensures { Grows known.old entries (map met_of met.entry) known.new result }
{
    let mut entries = entries;
    for one in met.into_vec() {
        match add(alloc, known, entries, one) {
            Ok(more) => entries = more,
            Err(error) => return Err(error),
        }
    }
    Ok(entries)
}

/// Adds one that is met: a job is added where none is known at its place.
fn add<'a>(
    alloc: Global,
    known: &mut Known<'a>,
    entries: usize,
    met: Met<'a>,
) -> Result<usize, UnfoldError>
    ensures { Grows known.old entries (met_of met.entry ∷ []) known.new result }
{
    match met {
        Met::Fault(place, cause) => Err(UnfoldError::Refused(UnfoldFault::Fault(place, cause))),
        Met::Job(job) => {
            if known.number_of(&job.place).is_some() {
                return Ok(entries);
            }
            add_job(alloc, known, entries, job)
        }
    }
}

/// Adds a job with its parents, within the limits. Returns how many parents all have.
fn add_job<'a>(
    alloc: Global,
    known: &mut Known<'a>,
    entries: usize,
    job: Job<'a>,
) -> Result<usize, UnfoldError>
    requires { is_known (jobs_in known.old) (job_of job) ≡ false }
    ensures { Grows known.old entries (met_job (job_of job.entry) ∷ []) known.new
        result }
{
    let parents = parents_among(alloc, known, &job.inputs)?;
    let entries = entries.saturating_add(parents.len());
    if entries > MOST_ENTRIES || known.len() >= MOST_VERTICES {
        return Err(UnfoldError::Refused(UnfoldFault::TooManyJobs));
    }
    match known.push(KnownJob::new(job, parents)) {
        Ok(()) => Ok(entries),
        Err(_refused) => Err(UnfoldError::OutOfMemory),
    }
}

/// The numbers of those jobs that made a File or Directory in the inputs, ascending. Only known jobs at the places of such makers are looked at.
fn parents_among(
    alloc: Global,
    known: &Known<'_>,
    inputs: &Keyed<Value>,
) -> Result<Items<usize>, AllocError>
    ensures { IfOk result (λ parents. parents ≡ parents_from 0 (jobs_in known.now) inputs.now) }
{
    let makers = Makers::of(alloc, inputs.as_slice())?;
    let jobs = known.as_slice();
    let mut parents = Items::new(alloc);
    for number in makers.numbers(alloc, known)? {
        let one = &jobs[number];
        if makers.has(&one.job.place, one.mark()) {
            parents.push(number)?;
        }
    }
    Ok(parents)
}

//! The outputs of a process, where a walk gives them.
ghost use Rattle.std.specs.Prelude.{◌≡◌, ◌&&◌, IfOk, is_some, map};
ghost use Rattle.std.specs.List.{list_all};
ghost use Rattle.job_graph.specs.Jobs as jobs;
ghost use Rattle.job_graph.specs.KnownJobs.{jobs_in};
ghost use Rattle.job_graph.specs.Unfold.{outputs_at};
ghost use Rattle.job_graph.specs.inner.Outputs.{are_learned};
ghost use Rattle.job_graph.specs.inner.Views.{resolved_of};

use crate::growth::KnownJob;
use crate::learned::Learned;
use crate::walk::Out;
use cwl_value::{JobPlace, Value};
use plain_data::{Items, Text};
use std::alloc::{AllocError, Global};

/// The outputs of a process that have a value.
#[derive(Drop)]
pub(crate) struct Outputs {
    pub named: Vec<(Text, Value)>,
    /// Whether those are all, and the outputs of each job that was met are known.
    pub is_whole: bool,
}

impl Outputs {
    /// None, before anything is known.
    pub(crate) fn new(alloc: Global) -> Outputs {
        Outputs {
            named: Vec::new(alloc),
            is_whole: false,
        }
    }
}

/// Whether the outputs of each of these jobs are known. Jobs end in nearly the order in which they became known, so the search for one that has not
/// begins with the last one.
fn are_learned(learned: &Learned, known: &[KnownJob<'_>]) -> bool
    ensures { result ≡ are_learned (map resolved_of learned.now) (jobs_in known.now) }
{
    for back in 0..known.len() {
        let number = known.len() - 1 - back;
        if !is_learned(learned, &known[number].job.place) {
            return false;
        }
    }
    true
}

fn is_learned(learned: &Learned, place: &JobPlace) -> bool
    ensures { result ≡ is_some (outputs_at (map resolved_of learned.now) place.now) }
{
    learned.outputs_at(place).is_some()
}

/// Whether the outputs are whole, where all of them have a value or not.
pub(crate) fn are_whole(are_all: bool, learned: &Learned, known: &[KnownJob<'_>]) -> bool
    ensures { result ≡ (are_learned (map resolved_of learned.now) (jobs_in known.now) && are_all) }
{
    are_all && are_learned(learned, known)
}

/// Whether each output has a value.
pub(crate) fn are_there(outs: &[Out]) -> bool
    ensures { result ≡ list_all (λ out. is_some out.1) outs.now }
{
    outs.iter().all(|out| out.1.is_some())
}

/// Those of the named values that are there.
pub(crate) fn those_named(alloc: Global, outs: Items<Out>) -> Result<Vec<(Text, Value)>, AllocError>
    ensures { IfOk result (λ named. named.items ≡ jobs.those_named outs) }
{
    let mut named = Vec::new(alloc);
    for (name, value) in outs.into_vec() {
        if let Some(value) = value {
            named.push((name, value))?;
        }
    }
    Ok(named)
}

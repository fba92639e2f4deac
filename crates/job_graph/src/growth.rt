//! A job that is known.
ghost use Rattle.std.specs.Prelude.{◌≡◌};
ghost use Rattle.job_graph.specs.Words.{is_same_place};
ghost use Rattle.job_graph.specs.inner.Marks.{mark_of};

use crate::mark::mark_of;
use crate::place::is_same_place;
use crate::walk::Job;
use cwl_value::Segment;
use plain_data::Items;

/// A job that is known.
#[derive(Drop)]
pub struct KnownJob<'a> {
    pub job: Job<'a>,
    /// The numbers of the jobs that made Files or Directories in its inputs.
    pub parents: Items<usize>,
    /// The mark of its place.
    mark: u64,
    ghost is: { mark ≡ mark_of job.place },
}

impl<'a> KnownJob<'a> {
    pub(crate) fn new(job: Job<'a>, parents: Items<usize>) -> KnownJob<'a>
        ensures job { result.job ≡ job.entry }
        ensures parents { result.parents ≡ parents }
    {
        let mark = mark_of(job.place.as_slice());
        KnownJob { job, parents, mark }
    }

    pub(crate) fn mark(&self) -> u64
        ensures { result ≡ mark_of self.now.job.place }
    {
        self.mark
    }

    /// Whether it is at this place, whose mark is given too. Places are compared only where the marks are the same.
    #[tactic(auto, using(crate::proofs::Marks::other_mark))]
    pub(crate) fn is_at(&self, place: &[Segment], mark: u64) -> bool
        requires { mark ≡ mark_of place.now }
        ensures { result ≡ is_same_place self.now.job.place place.now }
    {
        self.mark == mark && is_same_place(self.job.place.as_slice(), place)
    }
}

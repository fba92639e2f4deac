//! The jobs that are known, in the order in which they came to be known, with an index by the marks of their places.
ghost use Rattle.std.specs.Prelude.{◌≡◌, ◌<◌, ◌++◌, ◌∷◌, [], IfSome, OnErr, OnOk, drop, false, get_or, is_some, length, take, true};
ghost use Rattle.std.specs.List.{list_any};
ghost use Rattle.job_graph.specs.KnownJobs.{jobs_in};
ghost use Rattle.job_graph.specs.Unfold.{is_at};
ghost use Rattle.job_graph.specs.Words.{is_same_place};
ghost use Rattle.job_graph.specs.declared.growth.KnownJob.{KnownJob};
ghost use Rattle.job_graph.specs.inner.Index.{IsNumberAt};
ghost use Rattle.job_graph.specs.inner.Marks.{mark_of};

use crate::growth::KnownJob;
use crate::learned::first_of;
use crate::mark::mark_of;
use cwl_value::{JobPlace, Segment};
use std::alloc::{AllocError, Global};
use std::collections::BTreeMap;
use std::marker::Model;

/// Known jobs at different places, which contracts see as the list of them.
#[derive(Drop)]
pub(crate) struct Known<'a> {
    list: Vec<KnownJob<'a>>,
    /// By the mark of a place, the position from which on jobs at places of this mark may be found. Few places share a mark.
    firsts: BTreeMap<u64, usize>,
}

impl<'a> Model for Known<'a> {
    ghost use Rattle.std.specs.Prelude.{List};
    ghost use Rattle.job_graph.specs.declared.growth.KnownJob.{KnownJob};

    ghost Value = { List KnownJob };

    ghost use Rattle.cwl_value.specs.contracts.value.Value as value;
    ghost use Rattle.cwl_process.specs.contracts.tool.Tool as tool;
    ghost use Rattle.std.specs.Coded.{codes};

    ghost coded = { Prim.hlevel (codes, tool.the_row.coded, value.the_row.coded) };

    ghost use Rattle.job_graph.specs.inner.Index.{AreApart, IsIndexed, at_known};

    ghost view = { λ fields. fields.list.items };

    ghost invariant = { λ fields. IsIndexed at_known fields.firsts fields.list.items
        × AreApart fields.list.items };
}

impl<'a> Known<'a> {
    pub(crate) fn new(alloc: Global) -> Known<'a>
        ensures { result ≡ [] }
    {
        Known {
            list: Vec::new(alloc),
            firsts: BTreeMap::new(alloc),
        }
    }

    /// How many there are.
    pub(crate) fn len(&self) -> usize
        ensures { result ≡ length self.now }
    {
        self.list.len()
    }

    pub(crate) fn as_slice(&self) -> &[KnownJob<'a>]
        ensures { result.now ≡ self.now }
    {
        self.list.as_slice()
    }

    /// The number of the job at a place, where it is known.
    pub(crate) fn number_of(&self, place: &JobPlace) -> Option<usize>
        ensures known { is_some result ≡ list_any (is_at place.now) (jobs_in self.now) }
        ensures within { IfSome result (λ number. number < length self.now) }
        ensures one { IsNumberAt place.now self.now result }
    {
        let mark = mark_of(place.as_slice());
        match self.firsts.get(&mark) {
            None => None,
            Some(first) => number_from(self.list.as_slice(), *first, place.as_slice(), mark),
        }
    }

    /// Adds a job. Out of memory, nothing is added.
    pub(crate) fn push(&mut self, one: KnownJob<'a>) -> Result<(), AllocError>
        requires { list_any (is_at one.job.place) (jobs_in self.old) ≡ false }
        ensures ok { OnOk result (self.new ≡ self.old ++ one.entry ∷ []) }
        ensures err { OnErr result (self.new ≡ self.old) }
    {
        let mark = one.mark();
        let first = first_of(&self.firsts, mark, self.list.len());
        self.firsts.insert(mark, first)?;
        self.list.push(one)?;
        Ok(())
    }

    /// Keeps the first ones alone. What the index has of the others does no harm.
    pub(crate) fn truncate(&mut self, count: usize)
        ensures { self.new ≡ take count self.old }
    {
        self.list.truncate(count);
    }
}

/// The number of the first job at a place, from a position on. The mark of the place is given too.
fn number_from(known: &[KnownJob<'_>], first: usize, place: &[Segment], mark: u64) -> Option<usize>
    requires { mark ≡ mark_of place.now }
    ensures known { is_some result ≡ list_any (is_at place.now) (jobs_in (drop first known.now)) }
    ensures at { IfSome result (λ number. (number < length known.now)
        × ((one : KnownJob) → one ≡ get_or known.now number one →
        is_same_place one.job.place place.now ≡ true)) }
{
    for number in first..known.len() {
        if known[number].is_at(place, mark) {
            return Some(number);
        }
    }
    None
}

//! The jobs that have ended, in the order learned, with an index by the marks of their places.
ghost use Rattle.std.specs.Prelude.{◌≡◌, ◌++◌, ◌∷◌, [], List, drop, length, map, MatchOption, OnErr, OnOk};
ghost use Rattle.std.specs.BTreeMap.{get};
ghost use Rattle.std.specs.Option.{option_copied};
ghost use Rattle.std.specs.Ordering.{nat_cmp};
ghost use Rattle.job_graph.specs.Unfold.{outputs_at};
ghost use Rattle.job_graph.specs.inner.Index.{IsFirst};
ghost use Rattle.job_graph.specs.inner.Marks.{mark_of};
ghost use Rattle.job_graph.specs.inner.Views.{resolved_of};

use crate::made::Resolved;
use crate::mark::mark_of;
use cwl_value::{JobPlace, Value};
use plain_data::{Items, Keyed};
use std::alloc::{AllocError, Global};
use std::collections::BTreeMap;
use std::marker::Model;

/// Jobs that have ended, which contracts see as the list of them, in the order learned.
#[derive(Drop)]
pub(crate) struct Learned {
    list: Items<Resolved>,
    /// By the mark of a place, the position from which on places of this mark may be found. Few places share a mark.
    firsts: BTreeMap<u64, usize>,
}

impl Model for Learned {
    ghost use Rattle.std.specs.Prelude.{List};
    ghost use Rattle.job_graph.specs.declared.made.Resolved.{Resolved};

    ghost Value = { List Resolved };

    ghost use Rattle.cwl_value.specs.contracts.value.Value as value;
    ghost use Rattle.std.specs.Coded.{codes};

    ghost coded = { Prim.hlevel (codes, value.the_row.coded) };

    ghost use Rattle.job_graph.specs.inner.Index.{IsIndexed, at_learned};

    ghost view = { λ fields. fields.list };

    ghost invariant = { λ fields. IsIndexed at_learned fields.firsts fields.list };
}

impl Learned {
    pub(crate) fn new(alloc: Global) -> Learned
        ensures { result ≡ [] }
    {
        Learned {
            list: Items::new(alloc),
            firsts: BTreeMap::new(alloc),
        }
    }

    /// How many there are.
    pub(crate) fn len(&self) -> usize
        ensures { result ≡ length self.now }
    {
        self.list.len()
    }

    /// The outputs of the job at a place, where they are known. Of a place that was learned twice the first count.
    pub(crate) fn outputs_at<'a>(&'a self, place: &JobPlace) -> Option<&'a Keyed<Value>>
        ensures { option_copied result ≡ outputs_at (map resolved_of self.now) place.now }
    {
        let mark = mark_of(place.as_slice());
        match self.firsts.get(&mark) {
            None => None,
            Some(first) => outputs_among(rest_from(self.list.as_slice(), *first), place, mark),
        }
    }

    /// Adds a job that has ended. Out of memory, nothing is added.
    pub(crate) fn push(&mut self, resolved: Resolved) -> Result<(), AllocError>
        ensures ok { OnOk result (self.new ≡ self.old ++ resolved ∷ []) }
        ensures err { OnErr result (self.new ≡ self.old) }
    {
        let mark = resolved.at.mark();
        let first = first_of(&self.firsts, mark, self.list.len());
        self.firsts.insert(mark, first)?;
        self.list.push(resolved)
    }

    /// The one that was learned last.
    pub(crate) fn last(&self) -> Option<&Resolved>
        ensures { MatchOption result (self.now ≡ []) (λ last. (before : List Resolved)
            × (self.now ≡ before ++ last.now ∷ [])) }
    {
        self.list.as_slice().last()
    }

    /// Takes off the one that was learned last. What the index has of it does no harm.
    pub(crate) fn pop(&mut self) -> Option<Resolved>
        ensures { MatchOption result ((self.old ≡ []) × (self.new ≡ [])) (λ last. self.old
            ≡ self.new ++ last ∷ []) }
    {
        self.list.pop()
    }
}

/// A position before which no place of the mark is: the index's, or the end.
pub(crate) fn first_of(firsts: &BTreeMap<u64, usize>, mark: u64, end: usize) -> usize
    ensures { IsFirst (get nat_cmp firsts.now mark) end result }
{
    match firsts.get(&mark) {
        None => end,
        Some(first) => { if *first < end { *first } else { end } }
    }
}

/// Those from a position on.
#[tactic(auto, using(crate::proofs::Index::none_after))]
fn rest_from(learned: &[Resolved], first: usize) -> &[Resolved]
    ensures { result.now ≡ drop first learned.now }
{
    if first > learned.len() {
        return &[];
    }
    &learned[first..]
}

/// The outputs of the first of these that is at a place, whose mark is given too.
fn outputs_among<'a>(
    learned: &'a [Resolved],
    place: &JobPlace,
    mark: u64,
) -> Option<&'a Keyed<Value>>
    requires { mark ≡ mark_of place.now }
    ensures { option_copied result ≡ outputs_at (map resolved_of learned.now) place.now }
{
    for resolved in learned {
        if resolved.at.is(place.as_slice(), mark) {
            return Some(&resolved.outputs);
        }
    }
    None
}

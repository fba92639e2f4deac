//! Which of the known jobs have ended: a flag for each of them, so that no plan looks a place up.
ghost use Rattle.std.specs.Prelude.{◌≡◌, ◌++◌, ◌∷◌, [], List, OnErr, OnOk, drop, length, map, take};
ghost use Rattle.std.specs.List.{zip};
ghost use Rattle.job_graph.specs.declared.made.Resolved.{Resolved as KeptResolved};
ghost use Rattle.job_graph.specs.inner.Ended.{ended_after, ended_of, has_ended};
ghost use Rattle.job_graph.specs.inner.Growth.{Grows};
ghost use Rattle.job_graph.specs.inner.Views.{met_of, resolved_of};

use crate::fault::UnfoldError;
use crate::growing::grow;
use crate::growth::KnownJob;
use crate::known::Known;
use crate::learned::Learned;
use crate::walk::Met;
use cwl_value::JobPlace;
use plain_data::Items;
use std::alloc::{AllocError, Global};

/// Adds the jobs that are met for the first time, up to the first fault, each with its flag. Returns how many parents all have.
pub(crate) fn grow_flagged<'a>(
    alloc: Global,
    learned: &Learned,
    known: &mut Known<'a>,
    ended: &mut Vec<bool>,
    entries: usize,
    met: Items<Met<'a>>,
) -> Result<usize, UnfoldError>
    ensures grows { Grows known.old entries (map met_of met.entry) known.new result }
    ensures ended { OnOk result (ended.new.items ≡ ended.old.items
        ++ ended_of (map resolved_of learned.now)
        (drop (length ended.old.items) known.new)) }
    ensures front { OnErr result (take (length ended.old.items) ended.new.items
        ≡ ended.old.items) }
{
    match grow(alloc, known, entries, met) {
        Ok(entries) => match push_flags(ended, learned, known.as_slice()) {
            Ok(()) => Ok(entries),
            Err(_refused) => Err(UnfoldError::OutOfMemory),
        },
        Err(error) => Err(error),
    }
}

/// Adds the flags of those jobs that have none yet.
fn push_flags(
    ended: &mut Vec<bool>,
    learned: &Learned,
    known: &[KnownJob<'_>],
) -> Result<(), AllocError>
    ensures ok { OnOk result (ended.new.items ≡ ended.old.items
        ++ ended_of (map resolved_of learned.now) (drop (length ended.old.items) known.now)) }
    ensures err { OnErr result (take (length ended.old.items) ended.new.items
        ≡ ended.old.items) }
{
    for number in ended.len()..known.len() {
        ended.push(has_ended(learned, &known[number]))?;
    }
    Ok(())
}

fn has_ended(learned: &Learned, known: &KnownJob<'_>) -> bool
    ensures { result ≡ has_ended (map resolved_of learned.now) known.now }
{
    learned.outputs_at(&known.job.place).is_some()
}

/// Sets the flag of the job at the place that was learned last, if it is known.
pub(crate) fn end_last(ended: &mut Vec<bool>, learned: &Learned, known: &Known<'_>)
    requires { length ended.old.items ≡ length known.now }
    ensures { (before : List KeptResolved) (one : KeptResolved)
        → learned.now ≡ before ++ one ∷ []
        → ended.old.items ≡ ended_of (map resolved_of before) known.now
        → ended.new.items ≡ ended_of (map resolved_of learned.now) known.now }
{
    match learned.last() {
        None => (),
        Some(last) => end_at(ended, known, &last.at.place),
    }
}

/// Sets the flag of the job at a place.
fn end_at(ended: &mut Vec<bool>, known: &Known<'_>, place: &JobPlace)
    requires { length ended.old.items ≡ length known.now }
    ensures { ended.new.items ≡ map (ended_after place.now) (zip ended.old.items known.now) }
{
    if let Some(number) = known.number_of(place) {
        ended[number] = true;
    }
}

/// Looks up anew which of the jobs have ended. Needs no memory.
pub(crate) fn look_up(ended: &mut Vec<bool>, learned: &Learned, known: &[KnownJob<'_>])
    requires { length ended.old.items ≡ length known.now }
    ensures { ended.new.items ≡ ended_of (map resolved_of learned.now) known.now }
{
    for number in 0..known.len() {
        ended[number] = has_ended(learned, &known[number]);
    }
}

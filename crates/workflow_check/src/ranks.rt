//! Ranks of steps, by which each comes after those that its sources name.
ghost use Rattle.std.specs.Prelude.{◌≡◌};
ghost use Rattle.std.specs.List.{list_any};
ghost use Rattle.workflow_check.specs.inner.Ranks.{is_late, rank_of, some_late, sources_late, step_late};

use cwl_process::{Source, StepInput};
use document_links::Step;
use plain_data::{Items, Text};
use std::collections::BTreeMap;

/// Whether a source of a step names one whose rank is not below the step's own.
pub(crate) fn some_late(ranks: &BTreeMap<&str, usize>, steps: &[(Text, Step)]) -> bool
    ensures { result ≡ some_late (rank_of ranks.now) steps.now }
{
    steps.iter().any(|entry| step_late(ranks, entry))
}

fn step_late(ranks: &BTreeMap<&str, usize>, entry: &(Text, Step)) -> bool
    ensures { result ≡ step_late (rank_of ranks.now) entry.now }
{
    let own = rank(ranks, &entry.0);
    entry
        .1
        .inputs
        .as_slice()
        .iter()
        .any(|input| input_late(ranks, own, &input.1))
}

fn input_late(ranks: &BTreeMap<&str, usize>, own: usize, input: &StepInput) -> bool
    ensures { result ≡ sources_late (rank_of ranks.now) own input.now.links.sources }
{
    match &input.links.sources {
        None => false,
        Some(sources) => each_late(ranks, own, sources.as_slice()),
    }
}

fn each_late(ranks: &BTreeMap<&str, usize>, own: usize, sources: &[Source]) -> bool
    ensures { result ≡ list_any (λ source. is_late (rank_of ranks.now) own source.step)
        sources.now }
{
    sources.iter().any(|source| is_late(ranks, own, source))
}

fn is_late(ranks: &BTreeMap<&str, usize>, own: usize, source: &Source) -> bool
    ensures { result ≡ is_late (rank_of ranks.now) own source.now.step }
{
    match &source.step {
        None => false,
        Some(id) => own <= rank(ranks, id),
    }
}

/// The rank under an id, or 0.
fn rank(ranks: &BTreeMap<&str, usize>, id: &Text) -> usize
    ensures { result ≡ rank_of ranks.now id.now }
{
    match ranks.get(id.as_str()) {
        None => 0,
        Some(rank) => *rank,
    }
}

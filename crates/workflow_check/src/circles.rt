//! Circles of links.
ghost use Rattle.std.specs.Prelude.{◌≡◌};
ghost use Rattle.std.specs.Bool.{OnTrue};
ghost use Rattle.std.specs.List.{list_any};
ghost use Rattle.workflow_check.specs.Sound.{HasCircle, is_fed_by, is_named, one_named};
ghost use Rattle.workflow_check.specs.inner.Ways.{IsLinkAt};

use crate::search::{Link, State};
use cwl_process::{Source, StepInput};
use document_links::Step;
use plain_data::{Items, Text};

/// Whether the link closes a way of links: from its source up, from each step to the one that opened it, to the step that waits for it.
pub(crate) fn is_circle(steps: &[(Text, Step)], states: &[State], link: Link) -> bool
    ensures { OnTrue result (HasCircle steps.now) }
{
    if !is_linked(steps, link.waits, link.source) {
        return false;
    }
    let mut top = link.waits;
    'up: for at in 0..steps.len() {
        if top == link.source {
            return true;
        }
        let next = above(states, top);
        if !is_linked(steps, next, top) {
            return false;
        }
        top = next;
    }
    false
}

/// The step that opened this one, or this one.
fn above(states: &[State], index: usize) -> usize {
    match states.get(index) {
        Some(State::Open(opener)) => *opener,
        _ => index,
    }
}

/// Whether a source of the one step names the other.
fn is_linked(steps: &[(Text, Step)], waits: usize, source: usize) -> bool
    ensures { OnTrue result (IsLinkAt steps.now waits source) }
{
    match steps.get(waits) {
        None => false,
        Some(entry) => match steps.get(source) {
            None => false,
            Some(other) => is_fed_by(&other.0, entry),
        },
    }
}

fn is_fed_by(id: &Text, entry: &(Text, Step)) -> bool
    ensures { result ≡ is_fed_by id.now entry.now }
{
    entry
        .1
        .inputs
        .as_slice()
        .iter()
        .any(|input| input_named(id, &input.1))
}

fn input_named(id: &Text, input: &StepInput) -> bool
    ensures { result ≡ one_named id.now input.now.links.sources }
{
    match &input.links.sources {
        None => false,
        Some(sources) => one_named(id, sources.as_slice()),
    }
}

fn one_named(id: &Text, sources: &[Source]) -> bool
    ensures { result ≡ list_any (λ source. is_named id.now source.step) sources.now }
{
    sources.iter().any(|source| is_named(id, source))
}

fn is_named(id: &Text, source: &Source) -> bool
    ensures { result ≡ is_named id.now source.now.step }
{
    match &source.step {
        None => false,
        Some(step) => id.as_str() == step.as_str(),
    }
}

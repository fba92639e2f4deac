//! Rounds in which steps go that wait for none of those that are left.
ghost use Rattle.std.specs.Prelude.{◌≡◌, IfOk, map};
ghost use Rattle.std.specs.List.{list_any};
ghost use Rattle.workflow_check.specs.Order.{is_cyclic, is_of, leads_to, some_lead, still_waiting, waits_on};
ghost use Rattle.workflow_check.specs.inner.Seen.{lent};

use cwl_process::{Entries, Source, StepInput};
use document_links::Step;
use plain_data::{Items, Text};
use std::alloc::{AllocError, Global};

/// Takes out the steps that wait for none of those that are left, until none goes. It takes as many rounds as there are steps.
pub(crate) fn by_rounds(alloc: Global, steps: &[(Text, Step)]) -> Result<bool, AllocError>
    ensures { IfOk result (λ cyclic. cyclic ≡ is_cyclic steps.now) }
{
    let mut left = Vec::new(alloc);
    for entry in steps {
        left.push(entry)?;
    }
    'rounds: for round in 0..steps.len() {
        left = still_waiting(alloc, left.as_slice())?;
    }
    Ok(!left.is_empty())
}

fn still_waiting<'p>(
    alloc: Global,
    left: &[&'p (Text, Step)],
) -> Result<Vec<&'p (Text, Step)>, AllocError>
    ensures { IfOk result (λ kept. map lent kept.items ≡ still_waiting (map lent left.now)) }
{
    let mut kept = Vec::new(alloc);
    for entry in left {
        if waits(left, &entry.1.inputs) {
            kept.push(*entry)?;
        }
    }
    Ok(kept)
}

fn waits(left: &[&(Text, Step)], inputs: &Entries<StepInput>) -> bool
    ensures { result ≡ waits_on (map lent left.now) inputs.now }
{
    inputs
        .as_slice()
        .iter()
        .any(|entry| waits_for_source(left, &entry.1))
}

fn waits_for_source(left: &[&(Text, Step)], input: &StepInput) -> bool
    ensures { result ≡ some_lead (map lent left.now) input.now.links.sources }
{
    match &input.links.sources {
        None => false,
        Some(sources) => some_leads(left, sources.as_slice()),
    }
}

fn some_leads(left: &[&(Text, Step)], sources: &[Source]) -> bool
    ensures { result ≡ list_any (λ source. leads_to (map lent left.now) source.step) sources.now }
{
    sources.iter().any(|source| leads(left, source))
}

fn leads(left: &[&(Text, Step)], source: &Source) -> bool
    ensures { result ≡ leads_to (map lent left.now) source.now.step }
{
    match &source.step {
        None => false,
        Some(id) => is_one(left, id),
    }
}

/// Whether one of the steps has that id.
fn is_one(left: &[&(Text, Step)], id: &Text) -> bool
    ensures { result ≡ is_of (map lent left.now) id.now }
{
    for entry in left {
        if entry.0.as_str() == id.as_str() {
            return true;
        }
    }
    false
}

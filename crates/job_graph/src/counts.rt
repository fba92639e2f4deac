//! How many values each step of a workflow still waits for: those of its sources that are not known. Where outputs of a step come to be known, the
//! counts of those that wait for them are lowered, and no other step is looked at.
ghost use Rattle.std.specs.Prelude.{◌≡◌, ◌≤◌, ◌<◌, ◌==◌, ℕ, IfOk, OnOk, cond, count_by, get_or};
ghost use Rattle.document_links.specs.declared.process.Step.{out-Step};
ghost use Rattle.job_graph.specs.inner.Counts.{IsCounted, Lowers, is_new, is_unknown, sources_by, times, waits_for};

use crate::links::{Env, out_under, sources_of};
use crate::readers::Awaited;
use crate::rounds::is_known;
use crate::walk::Out;
use cwl_process::{Entries, Source};
use document_links::Step;
use plain_data::Items;
use std::alloc::{AllocError, Global};

/// The counts of the steps by their numbers, while some are lowered.
#[derive(Drop)]
pub(crate) struct Waits {
    pub counts: Vec<usize>,
    /// The numbers of the steps that wait for nothing any more and are still to be walked.
    pub pending: Items<usize>,
}

/// For each step, how many of its sources are not known.
pub(crate) fn count_unknown(
    alloc: Global,
    env: &Env,
    steps: &Entries<Step>,
) -> Result<Vec<usize>, AllocError>
    ensures { IfOk result (λ counts. IsCounted env.now steps.now counts.items) }
{
    let mut counts = Vec::new(alloc);
    for step in steps.as_slice() {
        counts.push(unknown_in(env, &step.1)?)?;
    }
    Ok(counts)
}

/// More sources than a number holds do not fit into memory.
fn unknown_in(env: &Env, step: &Step) -> Result<usize, AllocError>
    ensures { IfOk result (λ count. count
        ≡ sources_by (is_unknown env.now) (out-Step step.now).inputs) }
{
    let mut count: usize = 0;
    for input in step.inputs.as_slice() {
        let more = unknown_among(env, sources_of(&input.1.links));
        count = count.checked_add(more).ok_or(AllocError)?;
    }
    Ok(count)
}

fn unknown_among(env: &Env, sources: &[Source]) -> usize
    ensures { result ≡ count_by (is_unknown env.now) sources.now }
{
    let mut count = 0;
    for source in sources {
        if !is_known(env, source) {
            count += 1;
        }
    }
    count
}

/// Lowers the counts of the steps that wait for those of these outputs that are known and were not before.
pub(crate) fn lower(
    outputs: &[Awaited],
    before: &[Out],
    after: &[Out],
    waits: &mut Waits,
) -> Result<(), AllocError>
    requires { (m : ℕ) → waits_for (is_new before.now after.now) m outputs.now
        ≤ get_or waits.old.counts.items m 0 }
    ensures { OnOk result
        (Lowers (λ m. waits_for (is_new before.now after.now) m outputs.now) waits.old
        waits.new) }
{
    for output in outputs {
        if is_new(before, after, output.name.as_str()) {
            lower_each(output.numbers.as_slice(), waits)?;
        }
    }
    Ok(())
}

fn is_new(before: &[Out], after: &[Out], name: &str) -> bool
    ensures { result ≡ is_new before.now after.now name.now }
{
    out_under(after, name).is_some() && out_under(before, name).is_none()
}

/// Lowers the count of each of these numbers by one.
fn lower_each(numbers: &[usize], waits: &mut Waits) -> Result<(), AllocError>
    requires { (m : ℕ) → times m numbers.now ≤ get_or waits.old.counts.items m 0 }
    ensures { OnOk result (Lowers (λ m. times m numbers.now) waits.old waits.new) }
{
    for number in numbers {
        lower_one(*number, waits)?;
    }
    Ok(())
}

fn lower_one(number: usize, waits: &mut Waits) -> Result<(), AllocError>
    requires { 0 < get_or waits.old.counts.items number 0 }
    ensures { OnOk result (Lowers (λ m. cond (number == m) 1 0) waits.old waits.new) }
{
    let left = waits.counts[number] - 1;
    waits.counts[number] = left;
    if left == 0 {
        waits.pending.push(number)?;
    }
    Ok(())
}

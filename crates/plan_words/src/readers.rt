//! Who reads what a job makes.
ghost use Rattle.std.specs.Prelude.{◌≡◌, ℕ, ◌+◌, ◌<◌, ◌^◌, ◌==◌, length, count_by, All, IfOk, replicate, slice_index, if◌then◌else◌};
ghost use Rattle.plan_words.specs.Readers.{AreReaders};

use crate::parts::{is_same, mark_at, parents_at};
use plan_checker::{Graph, Mark, Plan};
use std::alloc::{AllocError, Global};

/// Counts for each job the jobs with this mark that read its files.
pub fn readers_of(
    alloc: Global,
    graph: &Graph,
    plan: &Plan,
    mark: Mark,
) -> Result<Vec<usize>, AllocError>
    requires { length plan.now.marks ≡ length graph.now }
    ensures { IfOk result (λ counts. AreReaders graph.now plan.now.marks mark counts.items) }
{
    let count = graph.vertices().len();
    let mut counts = zeros(alloc, count)?;
    for number in 0..count {
        let they_count = is_same(mark_at(plan, number), mark);
        count_if(&mut counts, parents_at(graph, number), they_count);
    }
    Ok(counts)
}

fn zeros(alloc: Global, count: usize) -> Result<Vec<usize>, AllocError>
    ensures { IfOk result (λ counts. counts.items ≡ replicate count 0) }
{
    vec![in alloc; 0; count]
}

// Adds 1 for each of these jobs, if they count.
fn count_if(counts: &mut Vec<usize>, jobs: &[usize], they_count: bool)
    requires there { All (λ job. job < length counts.old.items) jobs.now }
    requires room { (job : ℕ) → job < length counts.old.items → slice_index counts.old.items job
        + length jobs.now < 2 ^ 64 }
    ensures length { length counts.new.items ≡ length counts.old.items }
    ensures counted { (job : ℕ) → job < length counts.old.items → slice_index counts.new.items job
        ≡ slice_index counts.old.items job + (if they_count then
        count_by (λ other. other == job) jobs.now else 0) }
{
    if they_count {
        count_each(counts, jobs);
    }
}

// Adds 1 for each of these jobs.
fn count_each(counts: &mut Vec<usize>, jobs: &[usize])
    requires there { All (λ job. job < length counts.old.items) jobs.now }
    requires room { (job : ℕ) → job < length counts.old.items → slice_index counts.old.items job
        + length jobs.now < 2 ^ 64 }
    ensures length { length counts.new.items ≡ length counts.old.items }
    ensures counted { (job : ℕ) → job < length counts.old.items → slice_index counts.new.items job
        ≡ slice_index counts.old.items job + count_by (λ other. other == job) jobs.now }
{
    for job in jobs {
        counts[*job] += 1;
    }
}

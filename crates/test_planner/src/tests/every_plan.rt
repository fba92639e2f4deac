//! A plain search over all plans of a small graph.

use plan_checker::{Mark, Vertex};
use std::alloc::{AllocError, Global};

/// All the cheapest plans of a graph together.
#[derive(Drop)]
pub struct CheapestPlans {
    /// What each of them costs.
    pub cost: u64,
    /// What all of them do: computed where each computes, pruned where one prunes.
    pub common: Vec<Mark>,
}

/// Looks at each plan of a graph.
pub fn cheapest(alloc: Global, vertices: &[Vertex]) -> Result<CheapestPlans, AllocError> {
    let mut best = CheapestPlans {
        cost: u64::MAX,
        common: vec![in alloc; Mark::Prune; vertices.len()]?,
    };
    let mut marks = vec![in alloc; Mark::Prune; vertices.len()]?;
    for number in 0..count_of(vertices) {
        number_marks(&mut marks, number);
        if let Some(cost) = cost_of(vertices, &marks) {
            best.meet(cost, &marks);
        }
    }
    Ok(best)
}

/// How many plans there are, valid or not: three to the number of jobs.
fn count_of(vertices: &[Vertex]) -> u64 {
    let mut count = 1u64;
    for _ in vertices {
        count = count.saturating_mul(3);
    }
    count
}

/// The plan of this number: its digits to base three are the marks.
fn number_marks(marks: &mut [Mark], number: u64) {
    let mut rest = number;
    for mark in marks.iter_mut() {
        *mark = match rest % 3 {
            0 => Mark::Load,
            1 => Mark::Compute,
            _ => Mark::Prune,
        };
        rest /= 3;
    }
}

/// What a plan costs, where it is valid.
pub fn cost_of(vertices: &[Vertex], marks: &[Mark]) -> Option<u64> {
    let mut total = 0u64;
    for (vertex, mark) in vertices.iter().zip(marks) {
        total = total.checked_add(job_cost(vertex, *mark, marks)?)?;
    }
    Some(total)
}

/// What a job costs under its mark, where the mark is allowed beside the others.
fn job_cost(vertex: &Vertex, mark: Mark, marks: &[Mark]) -> Option<u64> {
    match mark {
        Mark::Load => vertex.load,
        Mark::Compute => all_kept(vertex.parents.as_slice(), marks).then_some(vertex.compute),
        Mark::Prune => (!vertex.needed).then_some(0),
    }
}

/// Whether none of these jobs is pruned.
fn all_kept(jobs: &[usize], marks: &[Mark]) -> bool {
    jobs.iter().all(|job| marks.get(*job) != Some(&Mark::Prune))
}

impl CheapestPlans {
    /// Takes a valid plan of this cost into account.
    fn meet(&mut self, cost: u64, marks: &[Mark]) {
        if cost > self.cost {
            return;
        }
        let is_first = cost < self.cost;
        for (common, mark) in self.common.iter_mut().zip(marks) {
            if is_first || amount_of(*mark) < amount_of(*common) {
                *common = *mark;
            }
        }
        self.cost = cost;
    }
}

/// How much is done under a mark.
fn amount_of(mark: Mark) -> u8 {
    match mark {
        Mark::Prune => 0,
        Mark::Load => 1,
        Mark::Compute => 2,
    }
}

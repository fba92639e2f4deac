//! Places of jobs.
ghost use Rattle.std.specs.Prelude.{◌≡◌, IfOk, drop};
ghost use Rattle.job_graph.specs.Words.{is_same_place, segment_eq};
ghost use Rattle.job_graph.specs.Equations.{step_place};
ghost use Rattle.job_graph.specs.Beside.{are_at_end, is_beside};

use cwl_value::{JobPlace, Segment, copy_job};
use plain_data::{Items, Text};
use std::alloc::{AllocError, Global};

/// Whether two places are the same.
pub(crate) fn is_same_place(one: &[Segment], other: &[Segment]) -> bool
    ensures { result ≡ is_same_place one.now other.now }
{
    match one {
        [] => match other {
            [] => true,
            [_, ..] => false,
        },
        [first, rest @ ..] => match other {
            [] => false,
            [second, others @ ..] => {
                is_same_segment(first, second) && is_same_place(rest, others)
            }
        },
    }
}

fn is_same_segment(one: &Segment, other: &Segment) -> bool
    ensures { result ≡ segment_eq one.now other.now }
{
    one.index.as_slice() == other.index.as_slice() && one.step.as_str() == other.step.as_str()
}

/// Whether two places differ in the tuple of their last segments alone: two jobs of one scattered step.
pub(crate) fn is_beside(one: &[Segment], other: &[Segment]) -> bool
    ensures { result ≡ is_beside one.now other.now }
{
    match one {
        [] => false,
        [first, rest @ ..] => match other {
            [] => false,
            [second, others @ ..] => {
                // Indexes are compared first: names are the same as a rule.
                if first.index.as_slice() == second.index.as_slice() {
                    first.step.as_str() == second.step.as_str() && is_beside(rest, others)
                } else {
                    are_at_end(rest, others) && first.step.as_str() == second.step.as_str()
                }
            }
        },
    }
}

fn are_at_end(one: &[Segment], other: &[Segment]) -> bool
    ensures { result ≡ are_at_end one.now other.now }
{
    match one {
        [] => match other {
            [] => true,
            [_, ..] => false,
        },
        [_, ..] => false,
    }
}

/// The place of a step, at a tuple where it is scattered, with no more room than it takes.
pub(crate) fn step_place(
    alloc: Global,
    place: &JobPlace,
    id: &Text,
    tuple: &Items<usize>,
) -> Result<JobPlace, AllocError>
    ensures { IfOk result (λ found. found ≡ step_place place.now id.now tuple.now) }
{
    let index = Items::from_vec(Vec::from_slice(alloc, tuple.as_slice())?);
    let step = id.copied(alloc)?;
    let mut found = copy_job(alloc, place)?.into_vec();
    found.reserve_exact(1)?;
    found.push(Segment { step, index })?;
    Ok(Items::from_vec(found))
}

/// The segments of a place after its first one.
pub(crate) fn after_first(place: &[Segment]) -> &[Segment]
    ensures { result.now ≡ drop 1 place.now }
{
    match place {
        [] => &[],
        [_, rest @ ..] => rest,
    }
}

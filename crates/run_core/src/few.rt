//! What has changed since the last plan, where few jobs were touched.
ghost use Rattle.std.specs.Prelude.{◌≡◌, ◌≤◌, IfOk, IfSome, length, map};
ghost use Rattle.run_core.specs.inner.Course.{known_in as jobs_in, past_of};
ghost use Rattle.run_core.specs.inner.Few.{AreFew, IsKeptFor};
ghost use Rattle.run_core.specs.inner.Planning.{costs_at};
ghost use Rattle.run_core.specs.inner.Touched.{AreCostsFrom};

use crate::course::known_in;
use crate::planning::costs_at;
use crate::state::{Course, Given};
use job_graph::Costs;
use std::alloc::{AllocError, Global};

/// The costs that have changed since the plan in force was made.
#[derive(Drop)]
pub(crate) struct Few {
    /// Those of the jobs that were touched, each with its number.
    pub changed: Vec<(usize, Costs)>,
    /// Those of the jobs that have become known.
    pub later: Vec<Costs>,
}

/// What has changed since the plan in force was made; none where that isn't known, or the plan can't be brought up to date.
pub(crate) fn few_in(
    alloc: Global,
    given: &Given<'_>,
    course: &Course<'_>,
) -> Result<Option<Few>, AllocError>
    ensures { IfOk result (λ found. IfSome found (AreFew given.now course.now)) }
{
    let count = match kept_for(given, course) {
        None => return Ok(None),
        Some(count) => count,
    };
    match course.touched.few() {
        None => Ok(None),
        Some(numbers) => {
            let changed = costs_of_those(alloc, given, course, numbers)?;
            let later = costs_from(alloc, given, course, count)?;
            Ok(Some(Few { changed, later }))
        }
    }
}

/// How many vertices the plan in force has, where it can be brought up to date, and costs were what they are now.
fn kept_for(given: &Given<'_>, course: &Course<'_>) -> Option<usize>
    ensures { IfSome result (IsKeptFor given.now course.now) }
{
    let same_keep = course.keep == given.options.keep;
    if !course.of_first || !same_keep || !course.rates.are(&given.rates) {
        return None;
    }
    match &course.planned {
        Some(kept) if kept.is_apart() => {
            let count = kept.made().graph.vertices().len();
            if count <= known_in(&course.known).len() {
                Some(count)
            } else {
                None
            }
        }
        _ => None,
    }
}

/// What each known job costs from a number on.
fn costs_from(
    alloc: Global,
    given: &Given<'_>,
    course: &Course<'_>,
    from: usize,
) -> Result<Vec<Costs>, AllocError>
    requires { from ≤ length (jobs_in course.now.known) }
    ensures { IfOk result (λ costs. AreCostsFrom (costs_at given.now (past_of course.now)) from
        (length (jobs_in course.now.known)) costs.items) }
{
    let mut costs = Vec::new(alloc);
    for number in from..known_in(&course.known).len() {
        costs.push(costs_at(given, course, number))?;
    }
    Ok(costs)
}

/// What the jobs of these numbers cost, each with its number.
fn costs_of_those(
    alloc: Global,
    given: &Given<'_>,
    course: &Course<'_>,
    numbers: &[usize],
) -> Result<Vec<(usize, Costs)>, AllocError>
    ensures { IfOk result (λ costs. costs.items
        ≡ map (λ n. (n, costs_at given.now (past_of course.now) n)) numbers.now) }
{
    let mut costs = Vec::with_capacity(alloc, numbers.len())?;
    for number in numbers {
        costs.push((*number, costs_at(given, course, *number)))?;
    }
    Ok(costs)
}

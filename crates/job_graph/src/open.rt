//! Jobs that are open beside one that ends.
ghost use Rattle.std.specs.Prelude.{◌≡◌, length, true};
ghost use Rattle.std.specs.List.{list_any, zip};
ghost use Rattle.job_graph.specs.inner.Ended.{open_by};

use crate::growth::KnownJob;
use crate::place::is_beside;
use cwl_value::JobPlace;

/// Whether another job of the step at a place is seen not to have ended. One is looked for where the step is scattered alone: where the last segment
/// has no tuple, there is no other job as a rule.
pub(crate) fn sees_open(ended: &[bool], place: &JobPlace, known: &[KnownJob<'_>]) -> bool
    requires { length ended.now ≡ length known.now }
    ensures { result ≡ true → list_any (open_by place.now) (zip ended.now known.now) ≡ true }
{
    is_scattered(place) && is_one_open(ended, place, known)
}

/// Whether the last segment of a place has a tuple.
fn is_scattered(place: &JobPlace) -> bool {
    match place.as_slice().last() {
        None => false,
        Some(segment) => !segment.index.is_empty(),
    }
}

/// Whether another job of the scattered step at a place has not ended, by the flags that say which have. Jobs end in nearly the order in which they
/// became known, so the search begins with the last one. Places are compared of jobs alone that have not ended.
fn is_one_open(ended: &[bool], place: &JobPlace, known: &[KnownJob<'_>]) -> bool
    requires { length ended.now ≡ length known.now }
    ensures { result ≡ list_any (open_by place.now) (zip ended.now known.now) }
{
    for back in 0..known.len() {
        let number = known.len() - 1 - back;
        if is_open(ended[number], place, &known[number]) {
            return true;
        }
    }
    false
}

fn is_open(has_ended: bool, place: &JobPlace, known: &KnownJob<'_>) -> bool
    ensures { result ≡ open_by place.now (has_ended, known.now) }
{
    !has_ended && is_beside(place.as_slice(), known.job.place.as_slice())
}

//! One tuple of a scattered step, looked at without making the others.
ghost use Rattle.std.specs.Prelude.{◌≡◌, ◌≢◌, ◌≤◌, [], length, map, replicate, true};
ghost use Rattle.scatter_shape.specs.Laws.{IsBelow};
ghost use Rattle.scatter_shape.specs.Tuples.{cross};
ghost use Rattle.scatter_shape.specs.declared.shape.Method.TheVariants.{Dotproduct, FlatCrossproduct};
ghost use Rattle.scatter_shape.specs.declared.tuples.TheConstants.{MOST_TUPLES};
ghost use Rattle.job_graph.specs.inner.OneTuple.{HasTuple};

use scatter_shape::{MOST_TUPLES, Method};

/// Whether these lengths have the tuple, and not too many.
#[tactic(auto, using(crate::proofs::Once::has_nested))]
pub(crate) fn has_tuple(method: Method, lengths: &[usize], tuple: &[usize]) -> bool
    ensures { result ≡ true → HasTuple method lengths.now tuple.now }
{
    match method {
        Method::Dotproduct => is_together(lengths, tuple),
        Method::NestedCrossproduct | Method::FlatCrossproduct => is_crossed(lengths, tuple),
    }
}

/// Whether it is a tuple of a dotproduct: as many equal indexes as there are lengths, which are equal.
fn is_together(lengths: &[usize], tuple: &[usize]) -> bool
    ensures { result ≡ true → HasTuple Dotproduct lengths.now tuple.now }
{
    let [common, ..] = lengths else {
        return false;
    };
    let [index, ..] = tuple else {
        return false;
    };
    if tuple.len() != lengths.len() || *common > MOST_TUPLES || *index >= *common {
        return false;
    }
    are_all(lengths, *common) && are_all(tuple, *index)
}

/// Whether it is a tuple of a crossproduct: an index below each length.
#[tactic(auto, using(crate::proofs::Once::has_crossed))]
fn is_crossed(lengths: &[usize], tuple: &[usize]) -> bool
    ensures { result ≡ true → HasTuple FlatCrossproduct lengths.now tuple.now }
{
    is_below(tuple, lengths) && count_of(lengths) <= MOST_TUPLES
}

fn are_all(numbers: &[usize], one: usize) -> bool
    ensures { result ≡ true → numbers.now ≡ replicate (length numbers.now) one }
{
    match numbers {
        [] => true,
        [number, rest @ ..] => *number == one && are_all(rest, one),
    }
}

fn is_below(tuple: &[usize], lengths: &[usize]) -> bool
    ensures { result ≡ true → IsBelow tuple.now lengths.now }
{
    match tuple {
        [] => lengths.is_empty(),
        [index, indexes @ ..] => match lengths {
            [] => false,
            [length, rest @ ..] => *index < *length && is_below(indexes, rest),
        },
    }
}

/// How many tuples a crossproduct has, if these are not too many.
fn count_of(lengths: &[usize]) -> usize
    ensures { result ≤ MOST_TUPLES → result ≡ length (cross lengths.now) }
{
    match lengths {
        [] => 1,
        [length, rest @ ..] => count_of(rest).saturating_mul(*length),
    }
}

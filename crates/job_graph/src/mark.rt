//! Marks of places: numbers that tell most places apart at one look.
ghost use Rattle.std.specs.Prelude.{◌≡◌, fold};
ghost use Rattle.job_graph.specs.Words.{is_same_place};
ghost use Rattle.job_graph.specs.inner.Marks.{mark_after, mark_of, mixed};

use crate::place::is_same_place;
use cwl_value::{JobPlace, Segment};

/// A place with its mark.
#[derive(Drop)]
pub(crate) struct Marked {
    pub place: JobPlace,
    mark: u64,
    ghost is: { mark ≡ mark_of place },
}

impl Marked {
    pub(crate) fn new(place: JobPlace) -> Marked
        ensures { result.place ≡ place }
    {
        let mark = mark_of(place.as_slice());
        Marked { place, mark }
    }

    pub(crate) fn mark(&self) -> u64
        ensures { result ≡ mark_of self.now.place }
    {
        self.mark
    }

    /// Whether it is this place, whose mark is given too.
    #[tactic(auto, using(crate::proofs::Marks::other_mark))]
    pub(crate) fn is(&self, place: &[Segment], mark: u64) -> bool
        requires { mark ≡ mark_of place.now }
        ensures { result ≡ is_same_place self.now.place place.now }
    {
        self.mark == mark && is_same_place(self.place.as_slice(), place)
    }
}

/// The mark of a place: the place alone decides it.
pub(crate) fn mark_of(place: &[Segment]) -> u64
    ensures { result ≡ mark_of place.now }
{
    let mut mark = 0;
    for segment in place {
        mark = mark_after(mark, segment);
    }
    mark
}

fn mark_after(mark: u64, segment: &Segment) -> u64
    ensures { result ≡ mark_after mark segment.now }
{
    of_numbers(
        of_text(mark, segment.step.as_str()),
        segment.index.as_slice(),
    )
}

fn of_text(start: u64, text: &str) -> u64
    ensures { result ≡ fold mixed start text.now }
{
    let mut mark = start;
    for byte in text.as_bytes() {
        mark = mixed(mark, u64::from(*byte));
    }
    mark
}

fn of_numbers(start: u64, numbers: &[usize]) -> u64
    ensures { result ≡ fold mixed start numbers.now }
{
    let mut mark = start;
    for number in numbers {
        mark = mixed(mark, *number as u64);
    }
    mark
}

fn mixed(mark: u64, number: u64) -> u64
    ensures { result ≡ mixed mark number }
{
    mark.wrapping_mul(SPREAD).wrapping_add(number)
}

/// An odd number near 2 ^ 64 over the golden ratio: numbers that follow one another come far apart.
const SPREAD: u64 = 11_400_714_819_323_198_485;

//! The tuples of a scattered step, one for each of its jobs.

ghost use Rattle.std.specs.Prelude.{◌≡◌, ◌≢◌, ◌<◌, ◌≤◌, ◌++◌, ◌∷◌, [], ◌↔◌, length, map, IsTrue, IfOk, IfErr, OnOk, All, Contains};
ghost use Rattle.std.specs.Bool.{OnTrue, OnFalse};
ghost use Rattle.scatter_shape.specs.Tuples.{AreEqual, below, cross, extensions, tuples_of, IsNoTuples, IsTaken};
ghost use Rattle.scatter_shape.specs.declared.shape.Method.TheVariants.{Dotproduct, FlatCrossproduct};

use crate::refusal::{ScatterError, ScatterFault};
use crate::shape::Method;
use plain_data::Items;
use std::alloc::{AllocError, Global};

/// The most jobs that one scattered step has.
pub const MOST_TUPLES: usize = 16_384;

/// The tuples of indexes of a scattered step's jobs, in the order of their first differing entry. Refused where a
/// dotproduct has different lengths (S1) and where there are more tuples than `MOST_TUPLES` (S3). A length of 0
/// leaves no tuple, however large the others are.
pub fn jobs_of(
    alloc: Global,
    method: Method,
    lengths: &[usize],
) -> Result<Items<Items<usize>>, ScatterError>
    requires { lengths.now ≢ [] }
    ensures ok { IfOk result (λ tuples. tuples ≡ tuples_of method lengths.now) }
    ensures taken { OnOk result (IsTaken method lengths.now) }
    ensures err { IfErr result (IsNoTuples method lengths.now) }
{
    match method {
        Method::Dotproduct => together(alloc, lengths),
        Method::NestedCrossproduct | Method::FlatCrossproduct => crossed(alloc, lengths),
    }
}

/// The tuples of a dotproduct.
fn together(alloc: Global, lengths: &[usize]) -> Result<Items<Items<usize>>, ScatterError>
    requires { lengths.now ≢ [] }
    ensures ok { IfOk result (λ tuples. tuples ≡ tuples_of Dotproduct lengths.now) }
    ensures taken { OnOk result (IsTaken Dotproduct lengths.now) }
    ensures err { IfErr result (IsNoTuples Dotproduct lengths.now) }
{
    if !are_equal(lengths) {
        return Err(ScatterError::Refused(ScatterFault::UnequalLengths));
    }
    let common = lengths[0];
    if common > MOST_TUPLES {
        return Err(ScatterError::Refused(ScatterFault::TooManyJobs));
    }
    let mut tuples = Items::new(alloc);
    for index in 0..common {
        let tuple = vec![in alloc; index; lengths.len()]?;
        tuples.push(Items::from_vec(tuple))?;
    }
    Ok(tuples)
}

/// The tuples of a crossproduct. What has too many is refused before any tuple is made.
fn crossed(alloc: Global, lengths: &[usize]) -> Result<Items<Items<usize>>, ScatterError>
    ensures ok { IfOk result (λ tuples. tuples ≡ tuples_of FlatCrossproduct lengths.now) }
    ensures taken { OnOk result (IsTaken FlatCrossproduct lengths.now) }
    ensures err { IfErr result (IsNoTuples FlatCrossproduct lengths.now) }
{
    if has_zero(lengths) {
        return Ok(Items::new(alloc));
    }
    if !are_few(lengths) {
        return Err(ScatterError::Refused(ScatterFault::TooManyJobs));
    }
    let mut tuples = Items::new(alloc);
    tuples.push(Items::new(alloc))?;
    for length in lengths {
        tuples = extended(alloc, &tuples, *length)?;
    }
    Ok(tuples)
}

/// Whether all lengths are the first one.
fn are_equal(lengths: &[usize]) -> bool
    requires { lengths.now ≢ [] }
    ensures { IsTrue result ↔ AreEqual lengths.now }
{
    let common = lengths[0];
    lengths.iter().all(|length| *length == common)
}

/// Whether one of the lengths is 0.
fn has_zero(lengths: &[usize]) -> bool
    ensures found { OnTrue result (Contains lengths.now 0) }
    ensures none { OnFalse result (All (λ n. n ≢ 0) lengths.now) }
{
    lengths.iter().any(|length| *length == 0)
}

/// Checks that there are at most `MOST_TUPLES` tuples below these lengths.
fn are_few(lengths: &[usize]) -> bool
    requires { All (λ n. n ≢ 0) lengths.now }
    ensures { IsTrue result ↔ (length (cross lengths.now) ≤ MOST_TUPLES) }
{
    let mut count: usize = 1;
    for length in lengths {
        count = count.saturating_mul(*length);
        if count > MOST_TUPLES {
            return false;
        }
    }
    true
}

/// Each tuple with each index below the length after it.
fn extended(
    alloc: Global,
    tuples: &Items<Items<usize>>,
    length: usize,
) -> Result<Items<Items<usize>>, AllocError>
    ensures { IfOk result (λ longer. longer ≡ extensions tuples.now length) }
{
    let mut longer = Items::new(alloc);
    for tuple in tuples.as_slice() {
        push_extensions(alloc, &mut longer, tuple, length)?;
    }
    Ok(longer)
}

/// Adds a tuple with each index below the length after it.
fn push_extensions(
    alloc: Global,
    longer: &mut Items<Items<usize>>,
    tuple: &Items<usize>,
    length: usize,
) -> Result<(), AllocError>
    ensures { OnOk result (longer.new ≡ longer.old
        ++ map (λ index. tuple.now ++ index ∷ []) (below length)) }
{
    for index in 0..length {
        longer.push(with_last(alloc, tuple.as_slice(), index)?)?;
    }
    Ok(())
}

/// The tuple with one more index.
fn with_last(alloc: Global, tuple: &[usize], index: usize) -> Result<Items<usize>, AllocError>
    ensures { IfOk result (λ longer. longer ≡ tuple.now ++ index ∷ []) }
{
    let mut entries = Vec::from_slice(alloc, tuple)?;
    entries.push(index)?;
    Ok(Items::from_vec(entries))
}

//! The outputs of a scattered step: those of its jobs, put together.
ghost use Rattle.std.specs.Prelude.{◌≡◌, ◌≢◌, ◌++◌, [], Some, length, map, IfOk, IfSome, OnOk, is_some, option_map};
ghost use Rattle.std.specs.List.{flat_map};
ghost use Rattle.job_graph.specs.Equations.{out_gathered, walks_together};
ghost use Rattle.job_graph.specs.Jobs.{all_there};
ghost use Rattle.job_graph.specs.Links.{out_under};
ghost use Rattle.job_graph.specs.inner.Views.{met_of, walk_of};
ghost use Rattle.scatter_shape.specs.Tuples.{IsTaken, tuples_of};

use crate::links::out_under;
use crate::walk::{Met, Out, Walk};
use cwl_value::Value;
use plain_data::{Items, Text};
use scatter_shape::{Shape, gather};
use std::alloc::{AllocError, Global};

/// The values that all walks have under a name, once each is known.
#[tactic(auto, using(crate::proofs::Loops::before_none, crate::proofs::Loops::before_one))]
fn all_under(
    alloc: Global,
    walks: &[Walk<'_>],
    name: &str,
) -> Result<Option<Vec<Value>>, AllocError>
    ensures values { IfOk result (λ found. option_map (λ values. values.items) found
        ≡ all_there (map (λ w. out_under name.now (Some w.outs)) (map walk_of walks.now))) }
    ensures one_each { IfOk result (λ found. IfSome found (λ values. length values.items
        ≡ length walks.now)) }
{
    let mut values = Vec::new(alloc);
    for walk in walks {
        match out_under(walk.outs.as_slice(), name) {
            None => return Ok(None),
            Some(value) => values.push(value.clone_in(alloc)?)?,
        }
    }
    Ok(Some(values))
}

/// Whether all walks have a value under a name.
#[tactic(auto, using(crate::proofs::Loops::first_there))]
fn are_there(walks: &[Walk<'_>], name: &str) -> bool
    ensures { result
        ≡ is_some
        (all_there (map (λ w. out_under name.now (Some w.outs)) (map walk_of walks.now))) }
{
    for walk in walks {
        if out_under(walk.outs.as_slice(), name).is_none() {
            return false;
        }
    }
    true
}

/// An output of all, put together once each has its value. Until then no value is copied.
#[tactic(auto, using(crate::proofs::Loops::not_some))]
fn out_gathered(
    alloc: Global,
    shape: &Shape,
    walks: &[Walk<'_>],
    name: &str,
) -> Result<Option<Value>, AllocError>
    requires some { shape.now.lengths ≢ [] }
    requires taken { IsTaken shape.now.method shape.now.lengths }
    requires one_each { length walks.now ≡ length (tuples_of shape.now.method shape.now.lengths) }
    ensures { IfOk result (λ value. value
        ≡ out_gathered shape.now.method shape.now.lengths (map walk_of walks.now) name.now) }
{
    if !are_there(walks, name) {
        return Ok(None);
    }
    match all_under(alloc, walks, name)? {
        None => Ok(None),
        Some(values) => Ok(Some(gather(alloc, shape, values)?.shared(alloc)?)),
    }
}

/// Each output of all, put together.
fn outs_gathered(
    alloc: Global,
    shape: &Shape,
    walks: &[Walk<'_>],
    names: &[Text],
) -> Result<Items<Out>, AllocError>
    requires some { shape.now.lengths ≢ [] }
    requires taken { IsTaken shape.now.method shape.now.lengths }
    requires one_each { length walks.now ≡ length (tuples_of shape.now.method shape.now.lengths) }
    ensures { IfOk result (λ outs. outs
        ≡ map
        (λ name. (
          name,
          out_gathered shape.now.method shape.now.lengths (map walk_of walks.now)
              name,
        )) names.now) }
{
    let mut outs = Items::new(alloc);
    for name in names {
        let copy = name.copied(alloc)?;
        outs.push((copy, out_gathered(alloc, shape, walks, name.as_str())?))?;
    }
    Ok(outs)
}

/// What all walks met, one walk after another.
fn all_met<'a>(alloc: Global, walks: Vec<Walk<'a>>) -> Result<Items<Met<'a>>, AllocError>
    ensures { IfOk result (λ met. map met_of met
        ≡ flat_map (λ w. w.met) (map walk_of walks.entry.items)) }
{
    let mut met = Items::new(alloc);
    for walk in walks {
        let Walk { met: more, outs } = walk;
        drop(outs);
        push_met(&mut met, more)?;
    }
    Ok(met)
}

/// Adds what was met.
pub(crate) fn push_met<'a>(met: &mut Items<Met<'a>>, more: Items<Met<'a>>) -> Result<(), AllocError>
    ensures { OnOk result (met.new ≡ met.old ++ more.entry) }
{
    for one in more.into_vec() {
        met.push(one)?;
    }
    Ok(())
}

/// The walks of the jobs of a scattered step, as one.
pub(crate) fn all_instances<'a>(
    alloc: Global,
    shape: &Shape,
    walks: Vec<Walk<'a>>,
    names: &[Text],
) -> Result<Walk<'a>, AllocError>
    requires some { shape.now.lengths ≢ [] }
    requires taken { IsTaken shape.now.method shape.now.lengths }
    requires one_each { length walks.items ≡ length (tuples_of shape.now.method shape.now.lengths) }
    ensures { IfOk result (λ walk. walk_of walk
        ≡ walks_together shape.now.method shape.now.lengths names.now
        (map walk_of walks.entry.items)) }
{
    let outs = outs_gathered(alloc, shape, walks.as_slice(), names)?;
    let met = all_met(alloc, walks)?;
    Ok(Walk { met, outs })
}

//! The present job graph: the known jobs as a planner takes them.
ghost use Rattle.std.specs.Prelude.{◌≡◌, IfErr, IfOk, length, map, not};
ghost use Rattle.std.specs.List.{zip};
ghost use Rattle.plan_checker.specs.Graph.{IsGraph};
ghost use Rattle.job_graph.specs.declared.fault.UnfoldError.{UnfoldError};
ghost use Rattle.job_graph.specs.inner.Ended.{needed_by, vertex_by};

use crate::costs::Costs;
use crate::fault::UnfoldError;
use crate::growth::KnownJob;
use crate::makers::Makers;
use cwl_value::Value;
use plain_data::{Items, Text};
use plan_checker::{Graph, GraphError, Vertex};
use std::alloc::{AllocError, Global};

/// The vertices of known jobs, each with its costs and whether it is needed.
pub(crate) fn vertices_of(
    alloc: Global,
    needed: &[bool],
    known: &[KnownJob<'_>],
    costs: &[Costs],
) -> Result<Vec<Vertex>, AllocError>
    requires needed { length needed.now ≡ length known.now }
    requires costs { length costs.now ≡ length known.now }
    ensures { IfOk result (λ vertices. vertices.items
        ≡ map vertex_by (zip needed.now (zip known.now costs.now))) }
{
    let mut vertices = Vec::with_capacity(alloc, known.len())?;
    for number in 0..known.len() {
        vertices.push(vertex_of(alloc, needed[number], &known[number], costs[number])?)?;
    }
    Ok(vertices)
}

/// Whether each of these known jobs is needed, where the process has these known outputs. While no job has made a File or
/// Directory in them, the flags alone say so.
pub(crate) fn needed_of(
    alloc: Global,
    outs: &[(Text, Value)],
    ended: &[bool],
    known: &[KnownJob<'_>],
) -> Result<Vec<bool>, AllocError>
    requires { length ended.now ≡ length known.now }
    ensures { IfOk result (λ needed. needed.items
        ≡ map (needed_by outs.now) (zip ended.now known.now)) }
{
    let makers = Makers::of(alloc, outs)?;
    if makers.is_empty() {
        return open_ones(alloc, ended);
    }
    needed_for(alloc, &makers, ended, known)
}

/// Whether each job is open, by the flags of those that have ended.
fn open_ones(alloc: Global, ended: &[bool]) -> Result<Vec<bool>, AllocError>
    ensures { IfOk result (λ flags. flags.items ≡ map not ended.now) }
{
    let mut flags = Vec::with_capacity(alloc, ended.len())?;
    for has_ended in ended {
        flags.push_reserved(!*has_ended);
    }
    Ok(flags)
}

/// Whether each of these known jobs is needed, where these jobs made what is in the known outputs.
fn needed_for(
    alloc: Global,
    makers: &Makers<'_>,
    ended: &[bool],
    known: &[KnownJob<'_>],
) -> Result<Vec<bool>, AllocError>
    requires { length ended.now ≡ length known.now }
    ensures { IfOk result (λ needed. needed.items
        ≡ map (needed_by makers.now) (zip ended.now known.now)) }
{
    let mut needed = Vec::with_capacity(alloc, known.len())?;
    for number in 0..known.len() {
        needed.push(is_needed(makers, ended[number], &known[number]))?;
    }
    Ok(needed)
}

/// Whether a known job is needed: it has not ended, or made a File or Directory in a known output of the process.
fn is_needed(makers: &Makers<'_>, has_ended: bool, known: &KnownJob<'_>) -> bool
    ensures { result ≡ needed_by makers.now (has_ended, known.now) }
{
    !has_ended || makers.has(&known.job.place, known.mark())
}

/// The vertex of a known job.
fn vertex_of(
    alloc: Global,
    needed: bool,
    known: &KnownJob<'_>,
    costs: Costs,
) -> Result<Vertex, AllocError>
    ensures { IfOk result (λ vertex. vertex ≡ vertex_by (needed, (known.now, costs))) }
{
    let parents = copied(alloc, known.parents.as_slice())?;
    Ok(Vertex {
        load: costs.load,
        compute: costs.compute,
        parents,
        needed,
    })
}

/// A copy of these numbers. Most jobs have no parents, and a graph is made for each plan.
fn copied(alloc: Global, numbers: &[usize]) -> Result<Items<usize>, AllocError>
    ensures { IfOk result (λ items. items ≡ numbers.now) }
{
    if numbers.is_empty() {
        return Ok(Items::new(alloc));
    }
    Ok(Items::from_vec(Vec::from_slice(alloc, numbers)?))
}

/// The graph of vertices that fit in one.
pub(crate) fn graph_of(alloc: Global, vertices: Vec<Vertex>) -> Result<Graph, UnfoldError>
    requires { IsGraph vertices.items }
    ensures ok { IfOk result (λ graph. graph ≡ vertices.items) }
    ensures err { IfErr result (λ error. error ≡ UnfoldError.OutOfMemory) }
{
    match Graph::new(alloc, vertices) {
        Ok(graph) => Ok(graph),
        Err(GraphError::OutOfMemory) => Err(UnfoldError::OutOfMemory),
        Err(GraphError::BadGraph(_)) => unreachable!(),
    }
}

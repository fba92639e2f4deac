//! The plan of the jobs that are known, by the one that was made before.
ghost use Rattle.std.specs.Prelude.{◌≡◌, ◌≢◌, ◌≤◌, ◌↔◌, ◌⊎◌, ℕ, All, ◌++◌, ◌∷◌, ◌<◌, [], IfErr, IfOk, IfSome, IsSome, IsTrue, None, OnOk, Some, false, length};
ghost use Rattle.job_graph.specs.PresentJobGraph.{AreWithin, needed_among, present_job_graph};
ghost use Rattle.job_graph.specs.Unfolding.{Blames};
ghost use Rattle.job_graph.specs.declared.fault.UnfoldError.{UnfoldError};
ghost use Rattle.plan_checker.specs.Graph.{vertex};
ghost use Rattle.plan_keeper.specs.Kept.{IsKeptApart};
ghost use Rattle.run_plan.specs.Brought.{AreStaying, CanBeBrought, IsGraphApart, StaysApart};
ghost use Rattle.run_plan.specs.inner.Again.{AreFirst, IsBrought, vertex_of, vertices_of};
ghost use Rattle.run_plan.specs.Planned.{IsPlanOf};

use crate::kept::{KeptPlan, NextPlan};
use crate::planned::plan_for;
use job_graph::{Costs, KnownJob, UnfoldError, Unfolding};
use plain_data::Items;
use plan_checker::{Charges, GraphError, Vertex};
use plan_keeper::{Planned, add_vertex, free_vertex, kept_is_planned};
use std::alloc::{AllocError, Global};
use std::mem;

/// Plans the present job graph of the jobs that are known, each with its costs, and takes the last plan away. That is brought up to
/// date where it can be, and then only the vertices are looked at closely that have changed since; else the plan is made anew. After a
/// refused `learn` it answers that refusal, and the last plan stays.
pub fn plan_on(
    alloc: Global,
    known: &mut Unfolding<'_>,
    costs: &[Costs],
    last: &mut Option<KeptPlan>,
) -> Result<NextPlan, UnfoldError>
    requires each { length costs.now ≡ length known.old.known }
    requires within { All AreWithin costs.now }
    ensures ok { IfOk result (λ next. IsPlanOf
        (present_job_graph known.old.learned known.old.known known.old.outs costs.now)
        next.plan) }
    ensures brought { IfOk result (λ next. IsTrue next.brought ↔ CanBeBrought last.old
        (present_job_graph known.old.learned known.old.known known.old.outs costs.now)) }
    ensures taken { OnOk result (last.new ≡ None) }
    ensures err { IfErr result (Blames known.old.refused) }
    ensures known { known.new ≡ known.old }
    ensures stays { IfErr result (λ error. error ≢ UnfoldError.OutOfMemory
        → last.new ≡ last.old) }
{
    let needed = known.needed()?;
    match mem::replace(last, None) {
        None => plan_anew(alloc, known, costs, None),
        Some(kept) => match kept.into_apart() {
            Err(made) => plan_anew(alloc, known, costs, Some(&made.charges)),
            Ok((made, _before)) => plan_by(alloc, known, costs, needed, made),
        },
    }
}

/// Makes the plan anew, from the charges of the last one where there are some.
fn plan_anew(
    alloc: Global,
    known: &Unfolding<'_>,
    costs: &[Costs],
    last: Option<&Charges>,
) -> Result<NextPlan, UnfoldError>
    requires each { length costs.now ≡ length known.now.known }
    requires within { All AreWithin costs.now }
    ensures ok { IfOk result (λ next. IsPlanOf
        (present_job_graph known.now.learned known.now.known known.now.outs costs.now) next.plan) }
    ensures anew { IfOk result (λ next. next.brought ≡ false) }
    ensures err { IfErr result (Blames known.now.refused) }
{
    let plan = plan_for(alloc, known, costs, last)?;
    Ok(NextPlan {
        plan,
        brought: false,
    })
}

/// Brings the plan before up to date, or makes it anew.
fn plan_by(
    alloc: Global,
    known: &Unfolding<'_>,
    costs: &[Costs],
    needed: Vec<bool>,
    made: Planned,
) -> Result<NextPlan, UnfoldError>
    requires kept { IsKeptApart made }
    requires each { length costs.now ≡ length known.now.known }
    requires needed { needed.items
        ≡ needed_among known.now.learned known.now.outs known.now.known }
    requires within { All AreWithin costs.now }
    ensures ok { IfOk result (λ next. IsPlanOf
        (present_job_graph known.now.learned known.now.known known.now.outs costs.now) next.plan) }
    ensures brought { IfOk result (λ next. IsTrue next.brought ↔ StaysApart made.graph
        (present_job_graph known.now.learned known.now.known known.now.outs costs.now)) }
    ensures err { IfErr result (Blames known.now.refused) }
{
    kept_is_planned();
    match brought(alloc, made, known.known(), costs, needed.as_slice())? {
        Some(made) => Ok(NextPlan {
            plan: KeptPlan::apart(made, needed),
            brought: true,
        }),
        None => plan_anew(alloc, known, costs, None),
    }
}

/// The plan before, brought up to date; none where that can't be.
fn brought(
    alloc: Global,
    made: Planned,
    known: &[KnownJob<'_>],
    costs: &[Costs],
    needed: &[bool],
) -> Result<Option<Planned>, AllocError>
    requires kept { IsKeptApart made }
    requires costs { length costs.now ≡ length known.now }
    requires needed { length needed.now ≡ length known.now }
    requires within { All AreWithin costs.now }
    ensures made { IfOk result (λ found. IfSome found (λ made. IsKeptApart made
        × (made.graph ≡ vertices_of known.now costs.now needed.now))) }
    ensures found { IfOk result (λ found. IsSome found
        ↔ StaysApart made.graph (vertices_of known.now costs.now needed.now)) }
{
    let mut made = made;
    if !bring_old(alloc, &mut made, known, costs, needed) {
        return Ok(None);
    }
    add_new(alloc, made, known, costs, needed)
}

/// Brings the vertices up to date that there are. Returns whether they are.
fn bring_old(
    alloc: Global,
    made: &mut Planned,
    known: &[KnownJob<'_>],
    costs: &[Costs],
    needed: &[bool],
) -> bool
    requires kept { IsKeptApart made.old }
    requires costs { length costs.now ≡ length known.now }
    requires needed { length needed.now ≡ length known.now }
    requires within { All AreWithin costs.now }
    ensures kept { IsKeptApart made.new }
    ensures brought { IsTrue result → AreFirst made.new.graph
        (vertices_of known.now costs.now needed.now) }
    ensures exact { IsTrue result ↔ AreStaying made.old.graph
        (vertices_of known.now costs.now needed.now) }
{
    let count = made.graph.vertices().len();
    if count > known.len() {
        return false;
    }
    let mut number = first_changed(made.graph.vertices(), known, costs, needed, 0);
    while number < count {
        let parents = known[number].parents.as_slice();
        if !bring_one(alloc, made, number, parents, costs[number], needed[number]) {
            return false;
        }
        number = first_changed(made.graph.vertices(), known, costs, needed, number + 1);
    }
    true
}

/// The first vertex, from this number on, that isn't as it should be; else how many vertices there are.
fn first_changed(
    vertices: &[Vertex],
    known: &[KnownJob<'_>],
    costs: &[Costs],
    needed: &[bool],
    from: usize,
) -> usize
    requires vertices { length vertices.now ≤ length known.now }
    requires costs { length costs.now ≡ length known.now }
    requires needed { length needed.now ≡ length known.now }
    requires from { from ≤ length vertices.now }
    ensures within { (from ≤ result) × (result ≤ length vertices.now) }
    ensures same { (i : ℕ) → from ≤ i → i < result → vertex vertices.now i
        ≡ vertex (vertices_of known.now costs.now needed.now) i }
    ensures other { result < length vertices.now → vertex vertices.now result
        ≢ vertex (vertices_of known.now costs.now needed.now) result }
{
    for number in from..vertices.len() {
        let parents = known[number].parents.as_slice();
        if !is_as(&vertices[number], parents, costs[number], needed[number]) {
            return number;
        }
    }
    vertices.len()
}

/// Whether a vertex has these parents and costs, and is needed or not as this says.
fn is_as(vertex: &Vertex, parents: &[usize], costs: Costs, needed: bool) -> bool
    ensures { IsTrue result ↔ (vertex.now ≡ vertex_of parents.now costs needed) }
{
    has(vertex, costs, needed) && are_same(vertex.parents.as_slice(), parents)
}

/// Brings a vertex up to date that has changed. Returns whether it is: it must be free now, and have the same parents.
pub(crate) fn bring_one(
    alloc: Global,
    made: &mut Planned,
    number: usize,
    parents: &[usize],
    costs: Costs,
    needed: bool,
) -> bool
    requires kept { IsKeptApart made.old }
    requires there { number < length made.old.graph }
    requires within { AreWithin costs }
    ensures kept { IsKeptApart made.new }
    ensures brought { IsTrue result → IsBrought made.old.graph made.new.graph number
        (vertex_of parents.now costs needed) }
    ensures count { length made.new.graph ≡ length made.old.graph }
    ensures exact { IsTrue result ↔ ((costs.load ≡ Some 0)
        × ((vertex made.old.graph number).parents ≡ parents.now)) }
{
    let vertex = &made.graph.vertices()[number];
    if costs.load != Some(0) || !are_same(vertex.parents.as_slice(), parents) {
        return false;
    }
    free_vertex(alloc, made, number, costs.compute, needed);
    true
}

/// Whether these are the same numbers. Most jobs have no parents, and need no comparison.
fn are_same(some: &[usize], others: &[usize]) -> bool
    ensures { IsTrue result ↔ (some.now ≡ others.now) }
{
    if some.is_empty() {
        return others.is_empty();
    }
    some == others
}

/// Whether a vertex has these costs, and is needed or not as this says.
fn has(vertex: &Vertex, costs: Costs, needed: bool) -> bool
    ensures { IsTrue result ↔ (vertex.now ≡ vertex_of vertex.now.parents costs needed) }
{
    vertex.needed == needed && vertex.compute == costs.compute && vertex.load == costs.load
}

/// Adds the vertices of jobs that have become known since.
fn add_new(
    alloc: Global,
    made: Planned,
    known: &[KnownJob<'_>],
    costs: &[Costs],
    needed: &[bool],
) -> Result<Option<Planned>, AllocError>
    requires kept { IsKeptApart made }
    requires first { AreFirst made.graph (vertices_of known.now costs.now needed.now) }
    requires costs { length costs.now ≡ length known.now }
    requires needed { length needed.now ≡ length known.now }
    ensures made { IfOk result (λ found. IfSome found (λ made. IsKeptApart made
        × (made.graph ≡ vertices_of known.now costs.now needed.now))) }
    ensures found { IfOk result (λ found. IsSome found
        ↔ IsGraphApart (vertices_of known.now costs.now needed.now)) }
{
    let mut made = made;
    for number in made.graph.vertices().len()..known.len() {
        let vertex = new_vertex(alloc, &known[number], costs[number], needed[number])?;
        match added(alloc, made, vertex)? {
            Some(more) => made = more,
            None => return Ok(None),
        }
    }
    Ok(Some(made))
}

/// The vertex of a job that has become known.
fn new_vertex(
    alloc: Global,
    known: &KnownJob<'_>,
    costs: Costs,
    needed: bool,
) -> Result<Vertex, AllocError>
    ensures { IfOk result (λ vertex. vertex ≡ vertex_of known.now.parents costs needed) }
{
    let parents = Items::from_vec(Vec::from_slice(alloc, known.parents.as_slice())?);
    Ok(Vertex {
        load: costs.load,
        compute: costs.compute,
        parents,
        needed,
    })
}

/// Adds a vertex; none where it doesn't stand apart, or doesn't fit.
pub(crate) fn added(
    alloc: Global,
    made: Planned,
    vertex: Vertex,
) -> Result<Option<Planned>, AllocError>
    requires { IsKeptApart made }
    ensures made { IfOk result (λ found. IfSome found (λ more. IsKeptApart more
        × (more.graph ≡ made.graph ++ vertex ∷ []))) }
    ensures found { IfOk result (λ found. IsSome found
        ↔ IsGraphApart (made.graph ++ vertex ∷ [])) }
{
    match add_vertex(alloc, made, vertex) {
        Ok(found) => Ok(found),
        Err(GraphError::OutOfMemory) => Err(AllocError),
        Err(GraphError::BadGraph(_)) => Ok(None),
    }
}

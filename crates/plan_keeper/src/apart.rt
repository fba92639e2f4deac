//! The plan of a graph in which what is best for each vertex by itself is best for all.
//!
//! A first run's graphs are such: a job is known once the jobs that made its inputs have ended, and then their outputs are
//! at hand. So what is computed has free parents. So are those of a run in which all that is needed is loaded.

ghost use Rattle.std.specs.Prelude.{◌≡◌, ◌<◌, ◌↔◌, All, IfOk, IfSome, IsSome, IsTrue, length, map};
ghost use Rattle.plan_checker.specs.Certificate.{IsCertificate};
ghost use Rattle.plan_checker.specs.Graph.{IsGraph, vertex};
ghost use Rattle.plan_checker.specs.Least.{IsLeast};
ghost use Rattle.plan_keeper.specs.Apart.{AreApart, AreChargesApart, AreMarkedApart, StandsApart, alone, charge, no_passes};
ghost use Rattle.plan_keeper.specs.Free.{IsFree};
ghost use Rattle.plan_keeper.specs.Loads.{LoadsAll, LoadsFor};

use plain_data::Items;
use plan_checker::{Charges, Graph, Mark, Plan, Vertex};
use std::alloc::{AllocError, Global};

/// The Least plan of a graph in which each vertex that is computed by itself has free parents alone, and charges that certify it;
/// none of another graph. The vertices and their parents are gone through, each a few times.
pub fn plan_apart(alloc: Global, graph: &Graph) -> Result<Option<(Plan, Charges)>, AllocError>
    ensures apart { IfOk result (λ found. IsSome found ↔ AreApart graph.now) }
    ensures least { IfOk result (λ found. IfSome found (λ made. IsLeast graph.now made.0.marks)) }
    ensures certified { IfOk result (λ found. IfSome found (λ made.
        IsCertificate graph.now made.0.marks made.1)) }
    ensures marked { IfOk result (λ found. IfSome found (λ made.
        AreMarkedApart graph.now made.0.marks (length graph.now))) }
    ensures charged { IfOk result (λ found. IfSome found (λ made.
        AreChargesApart graph.now made.1)) }
{
    let vertices = graph.vertices();
    if !are_apart(vertices) {
        return Ok(None);
    }
    let marks = marks_of(alloc, vertices)?;
    let charges = charges_of(alloc, vertices)?;
    Ok(Some((
        Plan {
            marks: Items::from_vec(marks),
        },
        charges,
    )))
}

/// Whether each vertex isn't computed by itself, or has free parents alone.
fn are_apart(vertices: &[Vertex]) -> bool
    ensures { IsTrue result ↔ AreApart vertices.now }
{
    vertices.iter().all(|vertex| stands_apart(vertices, vertex))
}

/// The parents are looked at first: most vertices have none, and need no other look.
pub(crate) fn stands_apart(vertices: &[Vertex], vertex: &Vertex) -> bool
    ensures { IsTrue result ↔ StandsApart vertices.now vertex.now }
{
    all_free(vertices, vertex.parents.as_slice()) || mark_alone(vertex) != Mark::Compute
}

fn all_free(vertices: &[Vertex], numbers: &[usize]) -> bool
    ensures { IsTrue result ↔ All (λ number. IsFree (vertex vertices.now number)) numbers.now }
{
    numbers.iter().all(|number| is_free_at(vertices, *number))
}

/// Whether there is a free vertex of this number.
fn is_free_at(vertices: &[Vertex], number: usize) -> bool
    ensures { IsTrue result ↔ IsFree (vertex vertices.now number) }
{
    match vertices.get(number) {
        Some(vertex) => vertex.load == Some(0),
        None => false,
    }
}

/// The marks: what is computed has its parents loaded, and all else is marked by itself.
fn marks_of(alloc: Global, vertices: &[Vertex]) -> Result<Vec<Mark>, AllocError>
    requires { IsGraph vertices.now }
    ensures { IfOk result (λ marks. AreMarkedApart vertices.now marks.items
        (length vertices.now)) }
{
    let mut marks = marks_alone(alloc, vertices)?;
    for vertex in vertices {
        load_parents(&mut marks, vertex);
    }
    Ok(marks)
}

/// What is done with each vertex by itself. There is room for all from the start, so no push asks for it.
fn marks_alone(alloc: Global, vertices: &[Vertex]) -> Result<Vec<Mark>, AllocError>
    ensures { IfOk result (λ marks. marks.items ≡ map alone vertices.now) }
{
    let mut marks = Vec::with_capacity(alloc, vertices.len())?;
    for vertex in vertices {
        marks.push_reserved(mark_alone(vertex));
    }
    Ok(marks)
}

/// What is done with a vertex by itself.
pub(crate) fn mark_alone(vertex: &Vertex) -> Mark
    ensures { result ≡ alone vertex.now }
{
    if !vertex.needed {
        return Mark::Prune;
    }
    match vertex.load {
        Some(load) if load <= vertex.compute => Mark::Load,
        _ => Mark::Compute,
    }
}

/// Marks the parents of a vertex as loaded, where it is computed. Most vertices have none, and need no other look.
#[tactic(auto, using(crate::proofs::Marked::loads_for, crate::proofs::Marked::loads_none, crate::proofs::Marked::loads_no_parents))]
pub(crate) fn load_parents(marks: &mut Vec<Mark>, vertex: &Vertex)
    requires { All (λ parent. parent < length marks.old.items) vertex.now.parents }
    ensures { LoadsFor marks.old.items marks.new.items vertex.now.parents (alone vertex.now) }
{
    if vertex.parents.is_empty() {
        return;
    }
    match mark_alone(vertex) {
        Mark::Compute => load_all(marks, vertex.parents.as_slice()),
        Mark::Load | Mark::Prune => {}
    }
}

/// Marks vertices as loaded.
fn load_all(marks: &mut Vec<Mark>, numbers: &[usize])
    requires { All (λ number. number < length marks.old.items) numbers.now }
    ensures { LoadsAll marks.old.items marks.new.items numbers.now (length numbers.now) }
{
    for place in 0..numbers.len() {
        marks[numbers[place]] = Mark::Load;
    }
}

/// The charges: each vertex that is needed is charged what it costs by itself.
fn charges_of(alloc: Global, vertices: &[Vertex]) -> Result<Charges, AllocError>
    ensures { IfOk result (AreChargesApart vertices.now) }
{
    let amounts = amounts_of(alloc, vertices)?;
    Ok(Charges {
        through: Items::from_vec(Vec::from_slice(alloc, amounts.as_slice())?),
        pay: Items::from_vec(Vec::from_slice(alloc, amounts.as_slice())?),
        enter: Items::from_vec(amounts),
        pass: passes_of(alloc, vertices)?,
    })
}

/// What is charged to each vertex.
fn amounts_of(alloc: Global, vertices: &[Vertex]) -> Result<Vec<u64>, AllocError>
    ensures { IfOk result (λ amounts. amounts.items ≡ map charge vertices.now) }
{
    let mut amounts = Vec::with_capacity(alloc, vertices.len())?;
    for vertex in vertices {
        amounts.push_reserved(charge_of(vertex));
    }
    Ok(amounts)
}

/// What is charged to a vertex.
pub(crate) fn charge_of(vertex: &Vertex) -> u64
    ensures { result ≡ charge vertex.now }
{
    if !vertex.needed {
        return 0;
    }
    match vertex.load {
        Some(load) => load.min(vertex.compute),
        None => vertex.compute,
    }
}

/// Nothing passed to each parent of each vertex.
fn passes_of(alloc: Global, vertices: &[Vertex]) -> Result<Items<Items<u64>>, AllocError>
    ensures { IfOk result (λ pass. pass ≡ map no_passes vertices.now) }
{
    let mut pass = Vec::with_capacity(alloc, vertices.len())?;
    for vertex in vertices {
        pass.push_reserved(zeros(alloc, vertex.parents.as_slice())?);
    }
    Ok(Items::from_vec(pass))
}

/// A row of zeros. An empty one takes no memory, and is made without a loop.
pub(crate) fn zeros(alloc: Global, parents: &[usize]) -> Result<Items<u64>, AllocError>
    ensures { IfOk result (λ row. row ≡ map (λ parent. 0) parents.now) }
{
    if parents.is_empty() {
        return Ok(Items::new(alloc));
    }
    let row = parents.iter().map(|_parent| 0).collect(alloc)?;
    Ok(Items::from_vec(row))
}

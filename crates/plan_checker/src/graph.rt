//! Graphs of jobs.

ghost use Rattle.std.specs.Prelude.{◌≡◌, ℕ, ◌+◌, ◌-◌, ◌<◌, ◌≤◌, ◌^◌, ◌↔◌, ◌∷◌, ◌++◌, length, sum_by, IsTrue, IfOk, OnOk, IfErr, MatchOption, All, Contains, slice_index_or, slice_set, []};
ghost use Rattle.std.specs.Option.{ForSome};
ghost use Rattle.std.specs.List.Sorted.{IsStrictlyIncreasing};
ghost use Rattle.plan_checker.specs.Graph.{vertex, entries_below, Fits, IsChild, IsGraph, IsFirstMisfit, IsRefused, IsRefusedLast};
ghost use Rattle.plan_checker.specs.declared.child.Child.{Child};
ghost use Rattle.plan_checker.specs.Charges.{IsCounted, passes, received};
ghost use Rattle.plan_checker.specs.inner.Children.{AddsChild, AreChildren, amount_from};

use crate::charges::Charges;
use crate::child::Child;
use crate::graph_error::GraphError;
use crate::vertex::Vertex;
use plain_data::Items;
use std::alloc::{AllocError, Global};
use std::marker::Model;

/// The most vertices that a graph has.
pub const MOST_VERTICES: usize = 16_384;
/// The most parent entries that a graph has, over all its vertices.
pub const MOST_ENTRIES: usize = 262_144;
/// The highest cost of loading or computing a vertex.
pub const MOST_COST: u64 = 1_000_000_000_000;

/// Vertices within the limits, each with its parents below it; contracts see the list of them.
#[derive(Debug, Drop)]
pub struct Graph {
    vertices: Vec<Vertex>,
    children: Vec<Items<Child>>,
    /// How many parent entries the vertices have.
    entries: usize,
}

impl Model for Graph {
    ghost use Rattle.std.specs.Prelude.{List, ◌≡◌, length};
    ghost use Rattle.plan_checker.specs.declared.vertex.Vertex.{Vertex};
    ghost use Rattle.plan_checker.specs.Graph.{IsGraph, entries_below};
    ghost use Rattle.plan_checker.specs.inner.Children.{AddsChild, AreChildren, amount_from};

    ghost Value = { List Vertex };

    ghost view = { λ graph. graph.vertices.items };

    ghost invariant = { λ graph. IsGraph graph.vertices.items × AreChildren graph.vertices.items graph.children.items × (graph.entries ≡ entries_below graph.vertices.items (length graph.vertices.items)) };
}

impl Graph {
    /// Makes the graph of these vertices, or names the first of them that doesn't fit (X2).
    pub fn new(alloc: Global, vertices: Vec<Vertex>) -> Result<Graph, GraphError>
        ensures ok { IfOk result (λ graph. graph ≡ vertices.items) }
        ensures within { OnOk result (IsGraph vertices.items) }
        ensures refused { IfErr result (IsRefused vertices.items) }
    {
        if let Some(vertex) = first_misfit(&vertices) {
            return Err(GraphError::BadGraph(vertex));
        }
        Ok(Graph::of(alloc, Items::from_vec(vertices))?)
    }

    /// The graph of these vertices.
    pub(crate) fn of(alloc: Global, vertices: Items<Vertex>) -> Result<Graph, AllocError>
        requires { IsGraph vertices }
        ensures { IfOk result (λ graph. graph ≡ vertices) }
    {
        let vertices = vertices.into_vec();
        let entries = entries_of(&vertices);
        let children = children_of(alloc, &vertices)?;
        Ok(Graph {
            vertices,
            children,
            entries,
        })
    }

    /// The vertices, in their order.
    pub fn vertices(&self) -> &[Vertex]
        ensures list { result.now ≡ self.now }
        ensures within { IsGraph self.now }
    {
        self.vertices.as_slice()
    }

    /// The children of a vertex: which vertices have it as a parent, each with its place among their parents.
    pub fn children(&self, vertex: usize) -> &[Child]
        requires { vertex < length self.now }
        ensures { (child : Child) → Contains result.now child ↔ IsChild self.now vertex child }
    {
        self.children[vertex].as_slice()
    }

    /// Gives a vertex other costs, and says anew whether it is needed. Its parents stay.
    pub fn set(&mut self, number: usize, load: Option<u64>, compute: u64, needed: bool)
        requires there { number < length self.old }
        requires load { ForSome load (λ cost. cost ≤ MOST_COST) }
        requires compute { (1 ≤ compute) × (compute ≤ MOST_COST) }
        ensures { let job = record (vertex self.old number)
            { load = load; compute = compute; needed = needed } in
            self.new ≡ slice_set self.old number job }
    {
        let job = &mut self.vertices[number];
        job.load = load;
        job.compute = compute;
        job.needed = needed;
    }

    /// Adds a vertex after the others, or names it where it doesn't fit. The graph is gone then.
    pub fn with(self, vertex: Vertex) -> Result<Graph, GraphError>
        ensures ok { IfOk result (λ graph. graph ≡ self ++ vertex ∷ []) }
        ensures within { OnOk result (IsGraph (self ++ vertex ∷ [])) }
        ensures refused { IfErr result (IsRefusedLast self vertex) }
    {
        let number = self.vertices.len();
        if !fits(number, self.entries, &vertex) {
            return Err(GraphError::BadGraph(number));
        }
        Ok(self.longer(vertex)?)
    }

    /// The graph with a vertex after the others.
    fn longer(self, vertex: Vertex) -> Result<Graph, AllocError>
        requires { IsGraph (self ++ vertex ∷ []) }
        ensures { IfOk result (λ graph. graph ≡ self ++ vertex ∷ []) }
    {
        let Graph {
            mut vertices,
            mut children,
            entries,
        } = self;
        let number = vertices.len();
        let entries = entries + vertex.parents.len();
        let alloc = *children.allocator();
        children.push(Items::new(alloc))?;
        add_child(&mut children, number, vertex.parents.as_slice())?;
        vertices.push(vertex)?;
        Ok(Graph {
            vertices,
            children,
            entries,
        })
    }

    /// What the children of a vertex pass to it, which may not fit in 64 bits.
    pub(crate) fn received(&self, charges: &Charges, vertex: usize) -> u128
        requires there { vertex < length self.now }
        requires counted { IsCounted self.now charges.now }
        ensures sum { result ≡ received self.now charges.now vertex }
        ensures small { result < 2 ^ 127 }
    {
        let mut sum = 0;
        for child in self.children[vertex].as_slice() {
            sum += u128::from(amount_from(charges, *child));
        }
        sum
    }
}

/// What a child passes to its parent.
fn amount_from(charges: &Charges, child: Child) -> u64
    requires numbered { child.vertex < length charges.now.pass }
    requires placed { child.place < length (passes charges.now child.vertex) }
    ensures { result ≡ amount_from charges.now child }
{
    charges.pass.as_slice()[child.vertex].as_slice()[child.place]
}

/// The first vertex that doesn't fit in a graph.
fn first_misfit(vertices: &[Vertex]) -> Option<usize>
    ensures { MatchOption result (IsGraph vertices.now) (IsFirstMisfit vertices.now) }
{
    let mut entries = 0;
    for (number, vertex) in vertices.iter().enumerate() {
        if !fits(number, entries, vertex) {
            return Some(number);
        }
        entries += vertex.parents.len();
    }
    None
}

/// Checks that a vertex fits at this number, after vertices with this many parent entries.
pub(crate) fn fits(number: usize, entries: usize, vertex: &Vertex) -> bool
    requires { entries ≤ MOST_ENTRIES }
    ensures { IsTrue result ↔ Fits number (entries + length vertex.now.parents) vertex.now }
{
    number < MOST_VERTICES
        && vertex.parents.len() <= MOST_ENTRIES - entries
        && vertex.load.unwrap_or(0) <= MOST_COST
        && 1 <= vertex.compute
        && vertex.compute <= MOST_COST
        && rise_below(vertex.parents.as_slice(), number)
}

/// Whether these numbers rise, and stay below a limit.
fn rise_below(numbers: &[usize], limit: usize) -> bool
    ensures { IsTrue result
        ↔ (All (λ n. n < limit) numbers.now × IsStrictlyIncreasing numbers.now) }
{
    numbers.iter().all(|n| *n < limit) && numbers.windows(2).all(|pair| pair[0] < pair[1])
}

/// How many parent entries these vertices have.
fn entries_of(vertices: &[Vertex]) -> usize
    requires { IsGraph vertices.now }
    ensures { result ≡ entries_below vertices.now (length vertices.now) }
{
    let mut entries = 0;
    for vertex in vertices {
        entries += vertex.parents.len();
    }
    entries
}

/// The children of each vertex.
fn children_of(alloc: Global, vertices: &[Vertex]) -> Result<Vec<Items<Child>>, AllocError>
    requires { IsGraph vertices.now }
    ensures { IfOk result (λ children. AreChildren vertices.now children.items) }
{
    let mut children = Vec::with_capacity(alloc, vertices.len())?;
    for _ in 0..vertices.len() {
        children.push(Items::new(alloc))?;
    }
    for (vertex, job) in vertices.iter().enumerate() {
        add_child(&mut children, vertex, job.parents.as_slice())?;
    }
    Ok(children)
}

/// Adds a vertex to the children of each of its parents.
fn add_child(
    children: &mut Vec<Items<Child>>,
    vertex: usize,
    parents: &[usize],
) -> Result<(), AllocError>
    requires { All (λ p. p < length children.old.items) parents.now }
    ensures { OnOk result (AddsChild children.old.items children.new.items vertex parents.now
        (length parents.now)) }
{
    for (place, parent) in parents.iter().enumerate() {
        children[*parent].push(Child { vertex, place })?;
    }
    Ok(())
}

//! Generated graphs, the same ones each time.

ghost use Rattle.std.specs.Prelude.{◌<◌};

use plain_data::Items;
use plan_checker::{Graph, Vertex};
use std::alloc::{AllocError, Global};
use std::test::Fail;

/// A row of numbers, each a linear function of the one before, without what is over 64 bits.
#[derive(Drop)]
struct Numbers {
    state: u64,
}

impl Numbers {
    /// The next number, below a limit.
    fn below(&mut self, limit: u64) -> u64
        requires { 0 < limit }
    {
        self.state = self
            .state
            .wrapping_mul(6_364_136_223_846_793_005)
            .wrapping_add(1_442_695_040_888_963_407);
        (self.state >> 33) % limit
    }

    /// True once in so many.
    fn once_in(&mut self, many: u64) -> bool
        requires { 0 < many }
    {
        self.below(many) == 0
    }
}

/// A graph of up to nine jobs. The costs of every other ten are so low that many plans cost the same.
pub fn small(alloc: Global, number: u64) -> Result<Graph, Fail> {
    let mut numbers = Numbers { state: number };
    let most = if number / 10 % 2 == 0 { 3 } else { 1_000_000 };
    graph_of(alloc, &mut numbers, number % 10, most)
}

/// A graph of up to 40 jobs. The costs of every other hundred are so low that many plans cost the same.
pub fn larger(alloc: Global, number: u64) -> Result<Graph, Fail> {
    let mut numbers = Numbers { state: number };
    let most = if number / 100 % 2 == 0 { 3 } else { 1_000_000 };
    graph_of(alloc, &mut numbers, number % 41, most)
}

/// A graph of up to 40 jobs that stand apart: what is computed by itself has parents that load at no cost.
pub fn apart(alloc: Global, number: u64) -> Result<Graph, Fail> {
    let mut numbers = Numbers { state: number };
    let most = if number / 100 % 2 == 0 { 3 } else { 1_000_000 };
    let mut vertices = Vec::new(alloc);
    for place in 0..number % 41 {
        vertices.push(generated_job(alloc, &mut numbers, place as usize, most)?)?;
    }
    for job in (0..vertices.len()).rev() {
        free_parents(alloc, &mut vertices, job)?;
    }
    Ok(Graph::new(alloc, vertices)?)
}

/// Lets the parents of a job load at no cost, where the job itself is computed.
fn free_parents(alloc: Global, vertices: &mut Vec<Vertex>, job: usize) -> Result<(), AllocError> {
    let parents = costly_parents(alloc, vertices.as_slice(), job)?;
    for parent in parents.into_vec() {
        if let Some(vertex) = vertices.get_mut(parent) {
            vertex.load = Some(0);
        }
    }
    Ok(())
}

/// The parents of a job that is computed by itself: it is needed, and can't be loaded for less.
fn costly_parents(
    alloc: Global,
    vertices: &[Vertex],
    job: usize,
) -> Result<Items<usize>, AllocError> {
    match vertices.get(job) {
        Some(vertex) if is_computed(vertex) => Ok(Items::from_vec(Vec::from_slice(
            alloc,
            vertex.parents.as_slice(),
        )?)),
        _ => Ok(Items::new(alloc)),
    }
}

fn is_computed(vertex: &Vertex) -> bool {
    match vertex.load {
        None => vertex.needed,
        Some(load) => vertex.needed && load > vertex.compute,
    }
}

/// The same graph with another load cost and another need for one job in six, and with jobs added at the end.
pub fn changed(alloc: Global, number: u64) -> Result<Graph, Fail> {
    let mut numbers = Numbers { state: number };
    let most = if number / 100 % 2 == 0 { 3 } else { 1_000_000 };
    let mut vertices = Vec::new(alloc);
    for place in 0..number % 41 {
        vertices.push(generated_job(alloc, &mut numbers, place as usize, most)?)?;
    }
    let mut changes = Numbers { state: !number };
    change(&mut vertices, &mut changes, most);
    for place in 0..changes.below(3) {
        let job = generated_job(alloc, &mut changes, place as usize, most)?;
        vertices.push(job)?;
    }
    Ok(Graph::new(alloc, vertices)?)
}

/// Changes one job in six.
fn change(vertices: &mut Vec<Vertex>, changes: &mut Numbers, most: u64)
    requires { 0 < most }
{
    for vertex in vertices.iter_mut() {
        if changes.once_in(6) {
            vertex.load = changes.once_in(2).then_some(changes.below(most));
            vertex.needed = !vertex.needed;
        }
    }
}

/// A graph of so many jobs with costs up to so much.
fn graph_of(alloc: Global, numbers: &mut Numbers, count: u64, most: u64) -> Result<Graph, Fail>
    requires { 0 < most }
{
    let mut vertices = Vec::new(alloc);
    for place in 0..count {
        vertices.push(generated_job(alloc, numbers, place as usize, most)?)?;
    }
    Ok(Graph::new(alloc, vertices)?)
}

/// A job with costs up to so much, and with some of the jobs below it as parents.
fn generated_job(
    alloc: Global,
    numbers: &mut Numbers,
    number: usize,
    most: u64,
) -> Result<Vertex, AllocError>
    requires { 0 < most }
{
    let mut parents = Items::new(alloc);
    for parent in 0..number {
        if numbers.once_in(3) {
            parents.push(parent)?;
        }
    }
    let load = numbers.below(most);
    let has_load = !numbers.once_in(4);
    Ok(Vertex {
        load: has_load.then_some(load),
        compute: numbers.below(most).max(1),
        parents,
        needed: numbers.once_in(3),
    })
}

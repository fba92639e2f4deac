//! The vertices of a job graph.

use plain_data::Items;

/// A job, as the planner sees it: what it costs to have its outputs.
#[derive(Debug, Drop)]
pub struct Vertex {
    /// What it costs to load the outputs of an earlier run, where that can be done.
    pub load: Option<u64>,
    /// What it costs to compute the job, once its parents' outputs are there.
    pub compute: u64,
    /// The vertices whose outputs the job reads, by number, rising.
    pub parents: Items<usize>,
    /// Whether the job's outputs are wanted.
    pub needed: bool,
}

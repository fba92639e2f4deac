//! Plans: what is done with each job.

use plain_data::Items;

/// What a plan does with a job.
#[derive(Debug, Drop, Clone, Copy, PartialEq, Eq)]
pub enum Mark {
    /// Its outputs are loaded from an earlier run.
    Load,
    /// It is computed, from its parents' outputs.
    Compute,
    /// Nothing is done, and its outputs are not there.
    Prune,
}

/// One mark for each vertex, in the order of the graph.
#[derive(Debug, Drop)]
pub struct Plan {
    pub marks: Items<Mark>,
}

//! Charges: why no plan can cost less.

use plain_data::Items;

/// For each vertex, how the costs that its keeping makes unavoidable are accounted for.
#[derive(Debug, Drop)]
pub struct Charges {
    /// What is charged to the vertex for its own sake.
    pub enter: Items<u64>,
    /// All that is charged to the vertex: what enters there and what its children pass to it.
    pub through: Items<u64>,
    /// The part of it that is paid by the vertex's own compute cost.
    pub pay: Items<u64>,
    /// The rest, passed on to the parents: one amount for each, in their order.
    pub pass: Items<Items<u64>>,
}

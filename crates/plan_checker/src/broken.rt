//! Why a certificate is none.

/// A rule of certificates that is broken, with the vertex (and its parent) where it is.
#[derive(Debug, Drop, Clone, Copy, PartialEq, Eq)]
pub enum Broken {
    /// The plan hasn't one mark for each vertex.
    MarkCount,
    /// The charges haven't one entry for each vertex, or not one pass for each of its parents.
    ChargeCount,
    /// The vertex is needed, and pruned.
    NeededPruned(usize),
    /// The vertex is loaded, and can't be.
    NoLoad(usize),
    /// The vertex is computed, and this parent of it is pruned.
    ParentPruned(usize, usize),
    /// Something enters at the vertex, which isn't needed.
    EnterNotNeeded(usize),
    /// What goes through the vertex is above its load cost.
    ThroughOverLoad(usize),
    /// What the vertex pays is above its compute cost.
    PayOverCompute(usize),
    /// What enters at the vertex and what its children pass to it isn't what goes through it.
    InNotThrough(usize),
    /// What goes through the vertex isn't what it pays and passes on.
    ThroughNotOut(usize),
    /// The plan's cost and the charges' value, which differ.
    Sum(u64, u64),
}

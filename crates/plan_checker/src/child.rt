//! The children of a vertex.

/// A vertex that has some vertex as a parent, and the place of that parent among its parents.
#[derive(Debug, Drop, Clone, Copy)]
pub struct Child {
    pub vertex: usize,
    pub place: usize,
}

//! Graphs made of vertices.

use plain_data::Items;
use plan_checker::{Graph, GraphError, Vertex};
use std::alloc::{AllocError, Global};
use test_rows::{Row, RowFault};

/// How many vertices a graph of so many equal ones has, which cannot be loaded, have no parents and are needed.
pub(crate) fn made(alloc: Global, row: &Row) -> Result<String, RowFault> {
    let vertices = equal_vertices(alloc, row.natural("count")?, row.natural("compute")?)?;
    match Graph::new(alloc, vertices) {
        Ok(graph) => {
            let count = graph.vertices().len();
            Ok(format!(in alloc; "{count}")?)
        }
        Err(GraphError::BadGraph(vertex)) => Ok(format!(in alloc; "X2({vertex})")?),
        Err(GraphError::OutOfMemory) => Err(RowFault::OutOfMemory),
    }
}

/// So many vertices with this compute cost.
fn equal_vertices(alloc: Global, count: u64, compute: u64) -> Result<Vec<Vertex>, AllocError> {
    let mut vertices = Vec::new(alloc);
    for _ in 0..count {
        vertices.push(Vertex {
            load: None,
            compute,
            parents: Items::new(alloc),
            needed: true,
        })?;
    }
    Ok(vertices)
}

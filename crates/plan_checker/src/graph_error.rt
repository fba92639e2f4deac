//! Why a graph is refused.

ghost use Rattle.std.specs.Prelude.{◌≡◌};
ghost use Rattle.plan_checker.specs.declared.graph_error.GraphError.TheVariants.{OutOfMemory};

use std::alloc::AllocError;
use thiserror::Error;

/// Why a list of vertices makes no graph.
#[derive(Debug, Drop, Clone, Copy, PartialEq, Eq, Error)]
pub enum GraphError {
    /// The first vertex that passes a limit, has a cost outside its range, a parent that isn't below it, or parents
    /// that do not rise.
    #[error("vertex {0} breaks a limit of graphs")]
    BadGraph(usize),
    #[error("out of memory")]
    OutOfMemory,
}

impl From<AllocError> for GraphError {
    ghost from_gives = { λ _ error. error ≡ OutOfMemory };

    fn from(_error: AllocError) -> GraphError {
        GraphError::OutOfMemory
    }
}

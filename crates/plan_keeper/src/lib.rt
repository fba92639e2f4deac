//! Least plans that are read off, and kept while the graph changes.
//!
//! By itself a needed job is loaded where that costs no more than to compute it, and else computed. Where each vertex that is computed by
//! itself has parents alone that load at no cost, what is best for each is best for all.
//!
//! - `plan_apart` reads the plan off such a graph.
//! - `keep_apart`, `free_vertex` and `add_vertex` keep the plan of such a graph while it changes.
//! - `plan_cost` sums what a plan costs.
//! - A law is the contract of a function that does nothing.
#![tactic(auto)]

mod apart;
mod cost;
mod kept;
mod laws;
mod planned;

pub use apart::plan_apart;
pub use cost::plan_cost;
pub use kept::{add_vertex, free_vertex, keep_apart};
pub use laws::kept_is_planned;
pub use planned::Planned;

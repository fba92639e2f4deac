//! Planned graphs.

use plan_checker::{Charges, Graph, Plan};

/// A graph with its Least plan, charges that certify it, and what it costs.
#[derive(Drop)]
pub struct Planned {
    pub graph: Graph,
    pub plan: Plan,
    pub charges: Charges,
    pub cost: u64,
}

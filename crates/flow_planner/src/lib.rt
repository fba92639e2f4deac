//! The cheapest plan of a job graph, and the charges that prove it.
//!
//! `plan` answers, for every graph, the one plan that is Least: no valid plan costs less, and what it computes, and what
//! it doesn't prune, is so in every cheapest plan. With it come charges that make it a certificate, which
//! `plan_checker::check` takes. It fails only as out of memory.
//!
//! `greatest` sends all that can flow in the network of the graph, by the level graphs of `level_graphs`; for `plan_again` it
//! begins with `mend`ed earlier charges, if `plan_checker` finds them fair. The flow is the charges, and the plan is what the
//! last level graph shows: what has a level is kept, and computed if its second node has one.
#![tactic(auto)]

mod error;
mod flows;
mod greatest;
mod mend;
mod network;
mod planner;

pub use error::OutOfMemory;
pub use level_graphs::Phases;
pub use planner::{plan, plan_again, plan_counted};

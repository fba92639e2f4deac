//! Links values to the inputs of steps and to the outputs of workflows (CWL v1.2, Workflow, "WorkflowStepInput").
//!
//! - `merge` makes one value of the values of all links.
//! - `pick` takes those that are not null, or says why none is the right one (L1, L2).
//! - `step_input` is a step's input: its links' values picked, then its default.
//! - `value_froms` are a step's inputs after `valueFrom` (L4).
//! - `when_value` says whether a step is not skipped (L3, L4).
//!
//! `Ok` is exactly the value of the tables in `specs/`; a refusal comes only with its cause. Each call that allocates
//! may also fail as out of memory.
#![tactic(auto)]

mod fault;
mod merging;
mod picking;
mod step_inputs;

pub use fault::{LinkError, LinkFault};
pub use merging::merge;
pub use picking::pick;
pub use step_inputs::{step_input, value_froms, when_value};

//! Whole workflows that may be run: each link leads to something that is there and may carry a value, and no step waits for itself.
//!
//! `accept` takes a process exactly where nothing is wrong with its links, and else says what is wrong first (`specs/Checked.antt`).
//! An `Accepted` is such a process.
#![tactic(auto)]

mod accepted;
mod circles;
mod fault;
mod index;
mod laws;
mod levels;
mod linking;
mod order;
mod overlapping;
mod ranks;
mod rounds;
mod scope;
mod search;
mod shapes;
mod steps;
mod texts;

pub use accepted::{Accepted, accept};
pub use fault::{AcceptError, LinkCheckFault, LinkRule};
pub use laws::{accepted_workflows_are_sound, cycles_are_circles, steps_have_an_order};

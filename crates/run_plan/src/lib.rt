//! The plan of a run: what is loaded, computed and done without, so that what is left of the run costs least.
//!
//! - `costs_of` has what it costs to have a job's outputs: what is held costs nothing more, a row's archive by its bytes.
//! - `plan_for` makes the present job graph of what is known, and its one Least plan, with charges that certify it.
//! - `plan_on` does the same at the next planning point: it brings the last plan up to date at what has changed since, where that can
//!   be, and says whether it did.
//! - `plan_touched` does the same where it is known which jobs' costs have changed, and asks for no other's.
#![tactic(auto)]

mod again;
mod costs;
mod few;
mod flags;
mod kept;
mod planned;

pub use again::plan_on;
pub use costs::{Rates, Standing, UNKNOWN_COST, costs_of, costs_without_row};
pub use few::plan_touched;
pub use kept::{KeptPlan, NextPlan};
pub use planned::plan_for;

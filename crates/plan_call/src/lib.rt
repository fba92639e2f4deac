//! The command `plan`: what a run would load, compute and not need, by looks alone.
//!
//! `end_of_plan` is all of it. Its contract, `IsEndOfPlan` (`specs/Plans.antt`), says that the certificate is of the first plan of that run,
//! and that the lines, the reasons and the picture are exactly of it.
#![tactic(auto)]

mod looks;
mod plan;
mod plan_texts;

pub use plan::end_of_plan;

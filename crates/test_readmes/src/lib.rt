//! The samples of the crates' READMEs, each the body of a function of its own. `scripts/true-pages` compares them, letter for letter.
#![tactic(auto)]

pub mod documents;
pub mod inputs;
pub mod jobs;
pub mod links;
pub mod plans;
pub mod program;
pub mod runs;
pub mod values;

//! What is heard, counted and noted of the jobs of a run.
//!
//! `Jobs` watches a run and hands what becomes of jobs to a listener; `Traces` keeps what a failure's words need; `noted` adds the lines on a
//! failure or a success to the end of a run. `Nearby` says how a job differs from those that a record has. `Asked` is what launchers are told.
#![tactic(auto)]

mod asked;
mod hearing;
mod jobs;
mod memory;
mod nearby;
mod noted_end;
mod notes;
mod traces;

pub use asked::{Adviser, Asked};
pub use hearing::{Speaker, TakeNear, Voice};
pub use jobs::Jobs;
pub use memory::Memory;
pub use nearby::{KeptJobs, Nearby, is_kept, kept_in};
pub use noted_end::noted;
pub use traces::Traces;

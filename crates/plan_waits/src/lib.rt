//! Which steps of a workflow wait for jobs of a plan.
//!
//! A plan knows jobs whose inputs are known. A job whose inputs others still have to make is in none, so a run may come to more jobs than its
//! plan has. `waiting_steps` has the steps of those: it goes by the links of the workflow, and by which known jobs are open, whose
//! outputs are known only once they have run. `open_steps_are_open` says that it follows the links far enough.
#![tactic(auto)]

mod waiting;

pub use waiting::{PlannedJob, open_steps_are_open, waiting_steps};

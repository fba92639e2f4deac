//! What is said of a plan: its lines, why each job is treated as it is, and a picture.
//!
//! - `plan_lines` has the cost and a line for each job, with its mark and its place.
//! - `plan_reasons` has a line for each job that says in words why it is loaded, computed or not needed.
//! - `waiting_line` names the steps of which the plan does not know all jobs; `push_earlier` says of one of these what earlier jobs of its tool took.
//! - `plan_picture` is a graph in Graphviz's language: the jobs, what flows between them, and where the plan cuts.
//!
//! All are pure: how a job's place is written is up to the caller. The laws in `laws` say why the reasons are right.
#![tactic(auto)]

mod laws;
mod lines;
mod parts;
mod picture;
mod readers;
mod reasons;
mod waiting;

pub use laws::{
    computed_jobs_cost_less, dear_loads_spare_parents, no_computed_job_reads_what_is_pruned,
};
pub use lines::plan_lines;
pub use picture::plan_picture;
pub use reasons::{Known, plan_reasons};
pub use waiting::{first_named, push_earlier, waiting_line};

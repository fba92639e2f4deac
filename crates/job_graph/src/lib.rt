//! The jobs of a process, as they come to be known (CWL v1.2, Workflow).
//!
//! - `input_paths` has the paths that are measured before a run.
//! - `Unfolding::new` finds the jobs that can run at once; `learn` takes a job's outputs, and then more jobs are known.
//! - `known` has the jobs in the order in which they came to be known, `result` the process's outputs once all are.
//! - `graph` makes of them, with their costs, the graph that a planner takes; `load_cost` has what it costs to load files.
//!
//! What is known is one walk through the process (`specs/Equations.antt`). Where a place is learned it goes on: of the root's steps, the one above the
//! place is walked anew, and those that waited for it. What computing every job gives (`specs/Eval.antt`) is the same walk where each job's outputs
//! are known.
#![tactic(auto)]

mod cause;
mod costs;
mod counts;
mod ended;
mod fault;
mod gather;
mod growing;
mod growth;
mod handed;
mod held;
mod ids;
mod inputs;
mod kept;
mod known;
mod laws;
mod learned;
mod links;
mod made;
mod makers;
mod mark;
mod nested;
mod open;
mod outcome;
mod partly;
mod paths;
mod place;
mod present;
mod progress;
mod readers;
mod rounds;
mod scatter;
mod step;
mod tuple;
mod unfolding;
mod waiting;
mod walk;
mod workflow;

pub use cause::Cause;
pub use costs::{Costs, load_cost};
pub use fault::{UnfoldError, UnfoldFault};
pub use growth::KnownJob;
pub use ids::see_ids;
pub use laws::{
    failed_jobs_fail_eval, faults_fail_eval, faults_stay, known_jobs_agree, known_jobs_are_met,
    known_jobs_stay, known_places_differ, learned_results_stay, met_jobs_are_known, more_is_met,
    open_jobs_hold_back, results_are_eval, results_learned_each_job, results_stay,
};
pub use paths::input_paths;
pub use unfolding::Unfolding;
pub use walk::Job;

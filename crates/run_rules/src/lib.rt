//! What a run of a process is: which requests may be asked when, what an answer brings about, and how a run ends.
//!
//! A run is a list of requests and answers (`specs/Run.antt`), whoever made it. It ends as its events say
//! (`specs/End.antt`), it blames its host only where a call failed by that very fault (`specs/Blame.antt`), and where
//! the tools' outputs are those of some world, a success is the value of the process there (`specs/Eval.antt`).
//! `laws.rt` says what follows for any run. `proofs/Rows.antt` computes the definitions on a worked example.
#![tactic(auto)]

mod laws;
mod outcome;
mod request;
mod setting;

pub use laws::{
    a_lone_tool_is_within_limits, accepted_processes_give_results, an_honest_run_ends_rightly,
    an_honest_run_is_reported_rightly, delivered_files_are_at_hand, delivery_keeps_the_value,
    faults_came_of_answers, keys_are_those_of_the_jobs, load_costs_are_rounded_up,
    looks_make_one_plan, makers_are_parents, no_held_job_is_computed, no_place_is_fetched_twice,
    no_place_is_started_too_often, nothing_follows_the_end, nothing_is_left_undone,
    nothing_read_was_made_before, one_end, plans_followed_are_cheapest, rows_put_are_kept,
    success_has_each_job,
};
pub use outcome::{Cause, CollectCause, Note, NoteKind, Outcome, PlanNote, Report, RunFault};
pub use request::{Answer, Pair, RecordAnswer, RecordRequest, Request};
pub use setting::{Options, Setting};

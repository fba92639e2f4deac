//! How the program ends, and the words for it: of refused documents and inputs, of failed jobs, and of faults.
//!
//! - `Exit` is an end: its status, and its line on the output or the errors (`specs/Told.antt`).
//! - `exit_of_run` says how the report of a run ends the program, with what the host's failed call was about.
//! - `explain_exit`, `put_notes`, `put_savings` and `put_left` write what follows that line if the end is to be explained, and `put_unkept`
//!   what follows it if not; each line is shown without what a terminal would hide. Which words those are is in no contract.
//! - `RunEnd` is an end with all that is said beside it; `RunEnd::leaving` says whether the work folder stays.
//! - `failed_jobs`, `tally_of` and `Misses` say which jobs of a run failed, what became of the others, and what could not be kept.
#![tactic(auto)]

mod exit;
mod explaining;
mod failed_call;
mod failures;
mod report;
mod run_end;
mod tally;
mod unkept;

pub use exit::{Exit, Fault, PlanTexts, Refusal, Unreadable};
pub use explaining::{
    explain_exit, hindrance_words, put_left, put_notes, put_savings, put_unkept, value_words,
};
pub use failures::{Ended, ended_with, failed_jobs, failed_too, more_words, other_failures};
pub use report::{exit_of_run, of_failure, of_fault, place_in};
pub use run_end::RunEnd;
pub use tally::{Counted, Named, Tally, add_tally, tally_of};
pub use unkept::{
    Misses, add_over_budget, add_undiscarded, add_unput, add_unstored, add_untouched,
    unkept_for_room,
};

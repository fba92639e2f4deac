//! The machine that makes a run of a process (`run_rules` says what a run is).
//!
//! `RunCore` asks one request at a time and takes one answer; it touches nothing itself. For every sequence of answers
//! what it asked and was told is a run, and it ends as that run does.
//!
//! Callers see a machine as a `Machine` (`specs/Machine.antt`), and `specs/Core.antt` says what each call does. `specs/inner`
//! says what the machine keeps of the run so far: an invariant of every machine, which no public clause cites.
#![tactic(auto)]

mod anyway;
mod archiving;
mod choice;
mod collects;
mod counts;
mod course;
mod delivery;
mod discarding;
mod fetching;
mod few;
mod fields;
mod files;
mod finding;
mod folders;
mod found_rows;
mod halted;
mod job_states;
mod keeping;
mod measuring;
mod places;
mod planning;
mod rows;
mod runner;
mod site;
mod starts;
mod state;
mod steps;
mod stops;
mod touches;
mod transcript;
mod turn;
mod turns;

pub use counts::PlanCounts;
pub use halted::Halted;
pub use run_rules::{
    Answer, Cause, CollectCause, Note, NoteKind, Options, Outcome, Pair, PlanNote, RecordAnswer,
    RecordRequest, Report, Request, RunFault, Setting,
};
pub use runner::RunCore;

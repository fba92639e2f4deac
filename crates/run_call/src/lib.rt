//! The command `run`: a process on its inputs, in folders that are made for it, over the record that the words name.
//!
//! `end_of_process` is all of it. Its contract, `IsEndOfRun` (`specs/Runs.antt`), says that the program ends as a run of the named process
//! on the named inputs over that record, or as what stood in the way of one.
#![tactic(auto)]

mod folders;
mod on_machine;
mod run;
mod run_record;
mod watched;

pub use run::end_of_process;

//! What `run` shows in place of a run: the inputs of a process, an object to fill in, or the command of a tool.
//!
//! `end_of_showing` is all of it, and `IsEndOfShowing` (`specs/Showings.antt`) its contract. Nothing is made or started.
#![tactic(auto)]

mod process_forms;
mod showing;
mod tool_command;

pub use showing::end_of_showing;

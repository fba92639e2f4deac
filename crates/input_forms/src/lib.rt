//! What a process takes, in words and as an input object to be filled in (CWL v1.2, `CommandInputParameter`, `WorkflowInputParameter`).
//!
//! - `tool_lines` and `workflow_lines` give a line for each input, in the order of the process: its name, its type, and whether a value has
//!   to be given.
//! - `tool_template` and `workflow_template` give JSON text with an entry for each input, in that order: a value of its type's form where one
//!   has to be given, else its default, or null.
//! - `what_is_needed_is_filled` is a law: where a value has to be given, that of the template is not null.
#![tactic(auto)]

mod laws;
mod lines;
mod samples;
mod templates;
mod types;
mod wanted;

pub use laws::what_is_needed_is_filled;
pub use lines::{tool_lines, workflow_lines};
pub use templates::{tool_template, workflow_template};

//! Lines on what went wrong, behind the line of an end: what is meant, what is there in its place, and what would do.
//!
//! - `stopped_call` is the end of a call that has nothing to run, with lines on its document and its inputs: a text that is no JSON, a field
//!   that is not known, a wrong link, a location that is no file's.
//! - `add_tool`, `add_step` and `add_output` are on the references of a process that have no value, `add_foreseen` on those known before a run.
//! - `misfit_lines`, `missing_lines` and `secondary_lines` are on an input; `add_start`, `add_obstacle` and `add_listing` on calls of the host;
//!   `add_ending` and `add_mismatch` on the end of a job; `add_remarks` on what a run ignores.
//!
//! Which words a line has is in no contract, but for those on a signal that ended a command (`specs/Endings.antt`).
#![tactic(auto)]

mod advice;
mod endings;
mod foreseen;
mod input_notes;
mod link_notes;
mod link_places;
mod link_types;
mod location_notes;
mod lost_sources;
mod near_names;
mod read_again;
mod references;
mod refused_inputs;
mod remarks;
mod run_notes;
mod start_notes;
mod step_circle;
mod stops;
mod tool_texts;
mod wrong_form;

pub use endings::add_ending;
pub use foreseen::add_foreseen;
pub use input_notes::{misfit_lines, missing_lines, secondary_lines};
pub use remarks::add_remarks;
pub use run_notes::{Remembered, add_mismatch};
pub use start_notes::{add_listing, add_obstacle, add_start, add_uncopied};
pub use stops::stopped_call;
pub use tool_texts::{add_output, add_step, add_tool, tool_of};

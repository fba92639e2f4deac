//! The input files of a job: which paths are measured before it starts, and its inputs as they were measured.
//!
//! - `input_paths` gives exactly the paths of `specs/Paths.antt`, each once: those of every File and Directory, and those at which the files
//!   are looked for that an input declares and a File lacks.
//! - `inputs_for` gives exactly the inputs of `specs/Inputs.antt`, each File and Directory as it was measured, or exactly the first fault.
//! - `heads_wanted` gives exactly the paths of `specs/Contents.antt` whose first bytes are read, each once, and `with_contents` exactly the
//!   inputs with these as contents, or exactly the first fault.
//! - `values_without_files_stay` is a law: a value without Files and Directories stays as it is.
//!
//! Each call that allocates may also fail as out of memory.
#![tactic(auto)]

mod beside;
mod carried;
mod contents;
mod fault;
mod files;
mod given;
mod grouped;
mod inputs;
mod laws;
mod listing;
mod measured;
mod names;
mod parameter;
mod paths;
mod present;
mod taken;
mod there;

pub use contents::{heads_wanted, with_contents};
pub use fault::{ContentsError, ContentsFault, InputError, InputFault};
pub use inputs::inputs_for;
pub use laws::{
    contents_are_those_asked, measured_values_say_what_is_there, paths_are_those_needed,
    values_without_files_stay,
};
pub use measured::as_measured;
pub use names::each_once;
pub use parameter::Parameter;
pub use paths::{input_paths, push_defaults, push_fields, push_root_inputs, push_value};
pub use taken::{process_inputs, root_fields};

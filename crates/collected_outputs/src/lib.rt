//! The outputs of a job, from what its command left behind (CWL v1.2, CommandLineTool, "Output binding").
#![tactic(auto)]

mod bare;
mod by_type;
mod checked;
mod classes;
mod collect;
mod contents;
mod evaluation;
mod fault;
mod found;
mod heads;
mod laws;
mod listing;
mod matches;
mod object;
mod paths;
mod patterns;
mod placed;
mod secondary;
mod values;
mod written;

pub use collect::{LeftBehind, StreamNames, collect_outputs};
pub use fault::{CollectError, CollectFault, OutputFault};
pub use heads::{head_limit, heads_wanted};
pub use laws::{
    every_folder_has_outputs_or_a_fault, files_read_are_limited, names_are_those_matched,
    outputs_are_of_their_job, outputs_are_those_declared, sizes_are_those_found,
    some_heads_are_wanted,
};
pub use object::{MOST_OBJECT, OUTPUT_OBJECT};
pub use paths::{are_paths, is_path};

//! What can be told of a process before it is run, and of a run from what it left.
//!
//! All of it is pure: of a process whether its outputs can be files (`can_hold_files`), which input has no value that fits (`first_misfit`),
//! and its tools (`tool_at`); of a host's log which call was answered how (`launch_with`, `end_of`, `listing_of`, `measure_of`); of a work
//! folder that is there which run made it (`trouble_of`); of bytes that are no JSON what they look like (`look_of`); of a
//! job's key its parts (`parts_of`), and how the job differs from the nearest of others (`nearest`); of a workflow's steps what earlier
//! jobs of their tools took (`earlier_of`). Types in words, and what references reach by types (`reach_of`), are in no contract.
#![tactic(auto)]

mod earlier_jobs;
mod holding;
mod key_parts;
mod looks;
mod made_by;
mod misfits;
mod nearest_job;
mod past_calls;
mod reaching;
mod repeats;
mod tools;
mod value_words;

pub use earlier_jobs::{Earlier, earlier_of};
pub use holding::can_hold_files;
pub use key_parts::{KeyParts, parts_of};
pub use looks::{Look, look_of, words_for};
pub use made_by::{KEPT, WorkTrouble, mark_of, number_in, trouble_of};
pub use misfits::first_misfit;
pub use nearest_job::{Change, Near, nearest};
pub use past_calls::{end_of, launch_in, launch_with, listing_of, measure_of, moves_in};
pub use reaching::{Known, Reach, keys_words, known_words, reach_of};
pub use repeats::repeated_keys;
pub use tools::tool_at;
pub use value_words::{find_in, input_type, kind_of, type_words};

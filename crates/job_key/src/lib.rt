//! The key of a job: one text that tells its tool, its inputs and its environment.
//!
//! `key_text` gives exactly the text that `specs/Key.antt` defines. `keys_tell_jobs_apart` is the law that equal keys
//! come only from equal tools, environments and inputs, places apart. `read_tools_are_written` says that what it asks of a
//! tool holds of each tool in a document that was read.
#![tactic(auto)]

mod env;
mod key;
mod laws;

pub use key::key_text;
pub use laws::{keys_tell_jobs_apart, read_tools_are_written};

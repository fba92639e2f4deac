//! How deep the JSON of values nests.
//!
//! - `is_within_limit` tells exactly whether the JSON that `cwl_value::to_json` writes of a value nests at most `cwl_value::MOST_NESTING` levels deep, and
//!   `is_object_within_limit` the same of the object that has values under their names.
//!
//! No call allocates, and none goes deeper into a value than the limit.
#![tactic(auto)]

mod depth;
mod limit;

pub use limit::{is_object_within_limit, is_within_limit};

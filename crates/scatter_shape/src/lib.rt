//! The shape of a scattered step: which jobs it has, and how what they give is put together again
//! (CWL v1.2, Workflow, "WorkflowStep": `scatter`, `scatterMethod`).
//!
//! - `lengths_of` gives the length of each scattered input, or says that one of them is no list.
//! - `jobs_of` gives one tuple of indexes for each job, in the order of the tuples' first differing entry, or says
//!   that there are none by this method (S1) or too many (S3).
//! - `gather` puts the values of the jobs, given in the order of the tuples, into nested lists or one list.
//! - `Gathering` takes the values in the order in which the jobs end, each under its tuple's number.
//!
//! The laws in `laws` hold of all lengths. Each call that allocates may also fail as out of memory.
#![tactic(auto)]

mod gathering;
mod laws;
mod lengths;
mod nesting;
mod refusal;
mod shape;
mod tuples;

pub use gathering::Gathering;
pub use laws::{
    any_order_of_ends, each_value_at_its_tuple, tuples_are_all_below, tuples_are_limited,
};
pub use lengths::lengths_of;
pub use nesting::gather;
pub use refusal::{ScatterError, ScatterFault};
pub use shape::{Method, Shape};
pub use tuples::{MOST_TUPLES, jobs_of};

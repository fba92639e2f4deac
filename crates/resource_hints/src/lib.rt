//! What the hints of documents ask for: cores, memory and room for temporary files, for each tool under the place of its jobs.
//!
//! - `resources_of` makes the table of a document, of the nearest ResourceRequirement among the hints at each tool (`specs/Hints.antt`).
//! - `the_nearest_hint_counts` is the law on that.
//! - `variables_for` says it of a job, in variables for a launcher (`specs/Told.antt`).
//!
//! Nothing is refused but for want of memory: a hint that isn't understood asks for nothing.
#![tactic(auto)]

mod amounts;
mod hints;
mod laws;
mod told;
mod tools;

pub use amounts::Resources;
pub use laws::the_nearest_hint_counts;
pub use told::variables_for;
pub use tools::resources_of;

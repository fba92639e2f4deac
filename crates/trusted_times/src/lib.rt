//! Sums of files that are taken without reading the files again, if the system tells the same of them as when they were read.
//!
//! - `Stamp` is what a system tells of a file: its device, its number, its size, and when it was modified and changed.
//! - `Times::sum_at` returns the sum that was noted for a path, exactly if the stamp is the one that was noted (`specs/Times.antt`).
//! - `Times::note` notes a file that was read, if it had settled by then: a file that was touched a moment ago may be written again within
//!   the same tick of a clock, and its times would not show it.
//! - `Times::text` and `Times::read` write a table as lines and read it back. What isn't whole is no table.
#![tactic(auto)]

mod reading;
mod stamp;
mod times;
mod writing;

pub use stamp::{Moment, SETTLED, Stamp};
pub use times::{Seen, Times};

//! Which values fit a type of CWL v1.2, and which types overlap, so that a link between them can carry a value.
//!
//! - `fits` says exactly whether a value is one of a type's, `fits_member` of one of its members (`specs/Fits.antt`).
//! - `Levels` are a type that others are compared with: `Level::overlaps` says exactly whether two types may have a value in common
//!   (`specs/Overlaps.antt`).
//!
//! Only making the levels takes memory. What a type is, `cwl_types` says: a list of members, of which a value has to fit one.
#![tactic(auto)]

mod fitting;
mod levels;
mod members;
mod overlapping;

pub use fitting::{fits, fits_member};
pub use levels::{Level, Levels};

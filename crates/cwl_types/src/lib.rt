//! The types of CWL v1.2, read from the JSON of a document.
//!
//! A type is a list of members, of which a value has to fit one: `int` is one member, `int?` is null and int, a list of types has
//! the members of each.
#![tactic(auto)]

mod laws;
mod named;
mod read;
mod types;

pub use laws::{short_texts_mean_their_long_forms, the_table_takes_the_texts_that_name_types};
pub use read::read_type;
pub use types::{ArrayType, ItemBinding, MemberType, PlainType};

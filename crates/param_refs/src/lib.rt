//! References to parameters inside texts (CWL v1.2, "Parameter references"), without any JavaScript.
//!
//! `Template::read` takes a text apart into plain parts and references, exactly as the grammar of
//! `specs/Grammar.antt` has it, and `Template::value` gives the value that the references have in a `Context`.
//! - What is read is the one reading of the text, which `specs/Parsed.antt` computes; a refusal comes exactly where the
//!   grammar has that cause.
//! - A reference's value is the descent of `specs/Descent.antt`, and of several refusals the leftmost is answered.
//! - A text that is one reference, with white space around it or not, has the reference's value; any other is a text.
//!
//! Each call that allocates may also fail as out of memory.
#![tactic(auto)]

mod context;
mod descent;
mod evaluation;
mod fault;
mod index;
mod keys;
mod laws;
mod listing;
mod location;
mod opening;
mod reading;
mod scanner;
mod template;

pub use context::Context;
pub use fault::{RefError, RefFault};
pub use laws::{
    each_text_has_its_reading, plain_texts_are_kept, readings_are_settled, values_fail_by_values,
};
pub use template::{Part, Reference, Segment, Template};

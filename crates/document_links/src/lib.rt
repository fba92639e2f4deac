//! Documents of CWL v1.2 put together: the process of a document, with the processes of other documents where its steps name them.
//!
//! `read_process` gives exactly the process that the document at a base URL represents (`specs/Linked.antt`): what a step names is
//! read from the document of that URL, with that document's own base, or where its name begins with `#` from an item of the same
//! document, and takes on what the step and the workflows around it ask. What comes to over 16 workflows inside one another or over 4,096 processes is refused before any of it is built.
//!
//! `needed_docs` gives the URLs of the documents that a document names. It is refused as `read_process` is, but never with C10: what isn't there is left out.
#![tactic(auto)]

mod bounds;
mod defaults;
mod docs;
mod document;
mod fault;
mod home;
mod joining;
mod laws;
mod library;
mod linking;
mod names;
mod places;
mod process;
mod reading;
mod target;
mod walk;

pub use bounds::{MOST_PROCESSES, MOST_WORKFLOWS};
pub use docs::Docs;
pub use document::Document;
pub use fault::{LinkError, LinkFault};
pub use home::Home;
pub use laws::{
    a_document_has_one_process, nothing_is_missing_for_needed_documents,
    only_bounds_refuse_a_process, only_items_that_steps_name_are_missing,
    only_what_is_named_is_missing, processes_are_limited, what_is_linked_is_the_process,
    what_is_linked_needs_documents,
};
pub use library::Library;
pub use process::{Process, Step, Workflow};
pub use reading::{needed_docs, read_process};
pub use target::{Target, run_of};

//! Checks whole documents of CWL v1.2 against the standard's tables of fields.
//!
//! `read_document` takes a `CommandLineTool` or a `Workflow`, with everything inside it, or a packed document of several. An `Ok` is its JSON, in which each value
//! has the form that the one table (`specs/Table.antt`) asks of it. A refusal is the first fault of the document
//! (`specs/Walk.antt`): its cause, and the place where it is.
#![tactic(auto)]

mod depth;
mod document;
mod entry;
mod fault;
mod form;
mod indexed;
mod kept;
mod laws;
mod layout;
mod leaf;
mod packed;
mod repeats;
mod table;
mod texts;
mod walk;

pub use depth::nests_within;
pub use document::{MOST_NESTING, first_fault, read_document};
pub use entry::{entries, main_field};
pub use fault::{Cause, DocumentError, DocumentFault, Way, at, here, under};
pub use form::{Form, Kind};
pub use indexed::Indexed;
pub use kept::kept_text;
pub use laws::{
    descriptions_decide_nothing, documents_say_version_and_class, each_field_is_known,
    entries_have_their_form, fields_have_their_forms, maps_stand_for_lists,
    processes_are_tools_or_workflows, required_fields_are_there, roots_are_items, subjects_differ,
    tools_say_no_fraction,
};
pub use packed::{Placed, in_item, placed_fault, root_of};
pub use texts::{has_hash, is_source, plain_id};
pub use walk::fault_in;

//! The processes of CWL v1.2: tools and workflows, read from the bytes of a document.
//!
//! `read_unlinked` gives exactly the process that a document represents (`specs/Documents.antt`): every field of the one table of
//! `document_table`, lists and maps in their order, and the processes inside it. A refusal is exactly the first thing that is
//! wrong, with its place. A step that names a process of another document keeps the name.
//!
//! That ids differ is a fact of the type `Entries`.
#![tactic(auto)]

mod acting;
mod bindings;
mod document;
mod entries;
mod fileless_defaults;
mod from_entry;
mod laws;
mod link_faults;
mod links;
mod parameters;
mod parts;
mod process;
mod read_links;
mod read_workflow;
mod simple;
mod template_faults;
mod templates;
mod together;
mod tool;
mod tool_reader;
mod workflow;

pub use acting::{nothing_asked, read_asked};
pub use document::{item_fault, read_sound, read_unlinked};
pub use entries::Entries;
pub use fileless_defaults::have_fileless_defaults;
pub use laws::{
    descriptions_are_not_read, fields_left_out_have_their_defaults, levels_never_decide,
    maps_are_read_as_lists, the_nearest_requirement_counts, written_tells_tools_apart,
};
pub use links::{Links, Merge, Pick, Source};
pub use parameters::default_at;
pub use parts::{StepParts, read_step_parts, read_workflow_inputs, read_workflow_outputs};
pub use plain_data::Shared;
pub use process::{Process, Run, RunName};
pub use read_workflow::{is_workflow, own_id};
pub use tool::{
    Acting, Asked, Binding, ExitCodes, InputType, OutputBinding, OutputType, SecondaryFile,
    Streams, Tool, ToolInput, ToolOutput, Variable,
};
pub use tool_reader::read_tool;
pub use workflow::{Step, StepInput, Workflow, WorkflowInput, WorkflowOutput};

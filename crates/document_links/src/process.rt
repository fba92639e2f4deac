//! Processes with everything in its place.
use cwl_process::{Entries, StepInput, Tool, WorkflowInput, WorkflowOutput};
use param_refs::Template;
use plain_data::{Items, Text};
use scatter_shape::Method;

/// What a document describes, with the processes of other documents that it names.
#[cycle(process)]
#[derive(Drop)]
pub enum Process {
    /// A command that is run once for each job (CWL v1.2, Command Line Tool Description).
    Tool(Tool),
    /// Steps whose inputs are linked to one another (CWL v1.2, Workflow Description).
    Workflow(Workflow),
}

/// Steps whose inputs are linked to one another (CWL v1.2, `Workflow`).
#[cycle(process)]
#[derive(Drop)]
pub struct Workflow {
    pub inputs: Entries<WorkflowInput>,
    pub outputs: Entries<WorkflowOutput>,
    pub steps: Entries<Step>,
}

/// A process inside a workflow (CWL v1.2, `WorkflowStep`).
#[cycle(process)]
#[derive(Drop)]
pub struct Step {
    pub inputs: Entries<StepInput>,
    /// The outputs of the process that others may be linked to.
    pub outputs: Items<Text>,
    pub process: Process,
    /// The inputs whose items make a job each.
    pub scatter: Items<Text>,
    pub method: Option<Method>,
    /// The step is skipped where this is false.
    pub when: Option<Template>,
}

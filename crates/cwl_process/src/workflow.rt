//! Workflows: steps, and the links between them.
use crate::entries::Entries;
use crate::links::Links;
use crate::process::Run;
use crate::tool::SecondaryFile;
use cwl_types::MemberType;
use cwl_value::Value;
use param_refs::Template;
use plain_data::{Items, Text};
use scatter_shape::Method;

/// Steps whose inputs are linked to one another (CWL v1.2, `Workflow`).
#[cycle(process)]
#[derive(Drop)]
pub struct Workflow {
    pub inputs: Entries<WorkflowInput>,
    pub outputs: Entries<WorkflowOutput>,
    pub steps: Entries<Step>,
}

/// A value that a workflow takes (CWL v1.2, `WorkflowInputParameter`).
#[derive(Drop)]
pub struct WorkflowInput {
    /// A value has to fit one of these types.
    pub kind: Items<MemberType>,
    /// Stands in for an absent value.
    pub default: Option<Value>,
    pub secondary_files: Items<SecondaryFile>,
}

/// A value that a workflow gives (CWL v1.2, `WorkflowOutputParameter`).
#[derive(Drop)]
pub struct WorkflowOutput {
    /// One of these types.
    pub kind: Items<MemberType>,
    pub links: Links,
}

/// A process inside a workflow (CWL v1.2, `WorkflowStep`).
#[cycle(process)]
#[derive(Drop)]
pub struct Step {
    pub inputs: Entries<StepInput>,
    /// The outputs of the process that others may be linked to.
    pub outputs: Items<Text>,
    pub run: Run,
    /// The inputs whose items make a job each.
    pub scatter: Items<Text>,
    pub method: Option<Method>,
    /// The step is skipped where this is false.
    pub when: Option<Template>,
}

/// A value that a step takes (CWL v1.2, `WorkflowStepInput`).
#[derive(Drop)]
pub struct StepInput {
    pub links: Links,
    /// Stands in for an absent value and for null.
    pub default: Option<Value>,
    /// The value in place of the links'.
    pub value_from: Option<Template>,
}

use crate::tool::{Asked, Tool};
use crate::workflow::Workflow;
use plain_data::Text;

/// What a document describes.
#[cycle(process)]
#[derive(Drop)]
pub enum Process {
    /// A command that is run once for each job (CWL v1.2, Command Line Tool Description).
    Tool(Tool),
    /// Steps whose inputs are linked to one another (CWL v1.2, Workflow Description).
    Workflow(Workflow),
}

/// What a step runs.
#[cycle(process)]
#[derive(Drop)]
pub enum Run {
    /// The process itself.
    Inline(Process),
    /// A process of another document.
    Named(RunName),
}

/// The name of a process of another document.
#[derive(Drop)]
pub struct RunName {
    /// As the document has it.
    pub name: Text,
    /// What the step and the workflows around it ask of the process.
    pub asked: Asked,
}

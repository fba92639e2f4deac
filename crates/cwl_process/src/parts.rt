//! Parts of workflows, for a reader that puts the processes of several documents together.
ghost use Rattle.std.specs.Prelude.{◌≡◌, IfOk, codes};
ghost use Rattle.serde_json.specs.View.{view};
ghost use Rattle.document_table.specs.Entries.{IsOf};
ghost use Rattle.document_table.specs.declared.form.Kind.TheVariants as kind;
ghost use Rattle.cwl_process.specs.Parameters.{workflow_input_in, workflow_output_in};
ghost use Rattle.cwl_process.specs.Tools.{entries_at};
ghost use Rattle.cwl_process.specs.Workflows.{own_id, step_parts_in};

use crate::entries::Entries;
use crate::from_entry::entries_at;
use crate::read_workflow::{own_id, scatter_method, step_outputs};
use crate::simple::names_at;
use crate::templates::template_at;
use crate::workflow::{StepInput, WorkflowInput, WorkflowOutput};
use document_table::Kind;
use param_refs::Template;
use plain_data::{Items, Text};
use scatter_shape::Method;
use serde_json::Value;
use std::alloc::{AllocError, Global};

/// A step without the process that it runs.
#[derive(Drop)]
pub struct StepParts {
    pub inputs: Entries<StepInput>,
    pub outputs: Items<Text>,
    pub scatter: Items<Text>,
    pub method: Option<Method>,
    pub when: Option<Template>,
}

/// Reads the inputs of a workflow.
#[tactic(auto, using(crate::proofs::Forms::workflow_inputs))]
pub fn read_workflow_inputs(
    alloc: Global,
    value: &Value,
) -> Result<Entries<WorkflowInput>, AllocError>
    requires { IsOf kind.Workflow (view value.now) }
    ensures { IfOk result (λ inputs. inputs
        ≡ entries_at kind.WorkflowInput workflow_input_in (codes "inputs") (view value.now)) }
{
    entries_at(alloc, "", Kind::WorkflowInput, "inputs", value)
}

/// Reads the outputs of a workflow.
#[tactic(auto, using(crate::proofs::Forms::workflow_outputs))]
pub fn read_workflow_outputs(
    alloc: Global,
    value: &Value,
) -> Result<Entries<WorkflowOutput>, AllocError>
    requires { IsOf kind.Workflow (view value.now) }
    ensures { IfOk result (λ outputs. outputs
        ≡ entries_at kind.WorkflowOutput (workflow_output_in (own_id (view value.now)))
        (codes "outputs") (view value.now)) }
{
    entries_at(alloc, own_id(value), Kind::WorkflowOutput, "outputs", value)
}

/// Reads a step of the workflow of that id, without the process that it runs.
#[tactic(auto, using(crate::proofs::Forms::step_inputs))]
pub fn read_step_parts(alloc: Global, id: &str, value: &Value) -> Result<StepParts, AllocError>
    requires { IsOf kind.Step (view value.now) }
    ensures { IfOk result (λ parts. parts ≡ step_parts_in id.now (view value.now)) }
{
    // What is dear to let go is read last.
    let outputs = step_outputs(alloc, value)?;
    let scatter = names_at(alloc, "scatter", value)?;
    let when = template_at(alloc, "when", value)?;
    let inputs = entries_at(alloc, id, Kind::StepInput, "in", value)?;
    Ok(StepParts {
        inputs,
        outputs,
        scatter,
        method: scatter_method(value),
        when,
    })
}

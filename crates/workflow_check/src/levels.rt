//! Whole processes: inner workflows before the outer one.
ghost use Rattle.std.specs.Prelude.{◌≡◌, None, OnOk, IfErr};
ghost use Rattle.document_links.specs.declared.process.Workflow.{out-Workflow};
ghost use Rattle.workflow_check.specs.Checked.{fault_in, fault_in_step, fault_in_workflow, own_fault};
ghost use Rattle.workflow_check.specs.Faults.{IsErrorOf, first_of};
ghost use Rattle.workflow_check.specs.Scope.{file_type};
ghost use Rattle.workflow_check.specs.inner.Linked.{links_fault};
ghost use Rattle.workflow_check.specs.inner.Seen.{around};

use crate::fault::{AcceptError, inside};
use crate::index::Index;
use crate::linking::{check_outputs, check_steps};
use crate::order::check_order;
use crate::scope::Scope;
use crate::shapes::check_shapes;
use crate::steps::Steps;
use cwl_types::MemberType;
use document_links::{Process, Workflow};
use plain_data::Items;
use std::alloc::Global;

/// Looks at every workflow of a process.
#[cycle(levels)]
pub(crate) fn check_process(
    alloc: Global,
    process: &Process,
    file: &Items<MemberType>,
) -> Result<(), AcceptError>
    requires { file.now ≡ file_type }
    ensures ok { OnOk result (fault_in process.now ≡ None) }
    ensures err { IfErr result (IsErrorOf (fault_in process.now)) }
{
    match process {
        Process::Tool(_) => Ok(()),
        Process::Workflow(workflow) => check_workflow(alloc, workflow, file),
    }
}

#[cycle(levels)]
fn check_workflow(
    alloc: Global,
    workflow: &Workflow,
    file: &Items<MemberType>,
) -> Result<(), AcceptError>
    requires { file.now ≡ file_type }
    ensures ok { OnOk result (fault_in_workflow (out-Workflow workflow.now) ≡ None) }
    ensures err { IfErr result (IsErrorOf (fault_in_workflow (out-Workflow workflow.now))) }
{
    check_inner(alloc, workflow, file)?;
    check_own(alloc, workflow, file)
}

#[cycle(levels)]
fn check_inner(
    alloc: Global,
    workflow: &Workflow,
    file: &Items<MemberType>,
) -> Result<(), AcceptError>
    requires { file.now ≡ file_type }
    ensures ok { OnOk result (first_of fault_in_step (out-Workflow workflow.now).steps ≡ None) }
    ensures err { IfErr result
        (IsErrorOf (first_of fault_in_step (out-Workflow workflow.now).steps)) }
{
    for entry in workflow.steps.as_slice() {
        if let Err(error) = check_process(alloc, &entry.1.process, file) {
            return Err(inside(alloc, &entry.0, error)?);
        }
    }
    Ok(())
}

/// Looks at one workflow, without those that are inside.
fn check_own<'p>(
    alloc: Global,
    workflow: &'p Workflow,
    file: &'p Items<MemberType>,
) -> Result<(), AcceptError>
    requires { file.now ≡ file_type }
    ensures ok { OnOk result (own_fault (out-Workflow workflow.now) ≡ None) }
    ensures err { IfErr result (IsErrorOf (own_fault (out-Workflow workflow.now))) }
{
    check_shapes(alloc, &workflow.steps)?;
    let inputs = Index::of(alloc, workflow.inputs.as_slice())?;
    let steps = Steps::of(alloc, workflow.steps.as_slice())?;
    let scope = Scope {
        inputs: &inputs,
        steps: &steps,
        file,
    };
    let checked = check_links(alloc, scope, workflow);
    drop(steps);
    drop(inputs);
    checked
}

/// Looks at the links of one workflow.
fn check_links(alloc: Global, scope: Scope<'_, '_>, workflow: &Workflow) -> Result<(), AcceptError>
    requires file { scope.file.now ≡ file_type }
    requires steps { scope.steps.now ≡ (out-Workflow workflow.now).steps }
    ensures ok { OnOk result
        (links_fault (around scope.entry) (out-Workflow workflow.now).outputs ≡ None) }
    ensures err { IfErr result
        (IsErrorOf (links_fault (around scope.entry) (out-Workflow workflow.now).outputs)) }
{
    check_steps(alloc, scope)?;
    check_outputs(alloc, scope, &workflow.outputs)?;
    check_order(alloc, &workflow.steps)
}

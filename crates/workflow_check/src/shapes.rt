//! How each step is run: what it scatters over, and which outputs it lists (K5, K6, K7).
ghost use Rattle.std.specs.Prelude.{◌≡◌, None, OnOk, IfErr};
ghost use Rattle.document_links.specs.declared.process.Step.{out-Step};
ghost use Rattle.workflow_check.specs.Faults.{IsErrorOf, first_of};
ghost use Rattle.workflow_check.specs.Scope.{gives};
ghost use Rattle.workflow_check.specs.Shapes.{method_fault, output_fault, scatter_fault, shape_fault, shapes_fault};
ghost use Rattle.workflow_check.specs.inner.Ports.{given_under};

use crate::fault::{AcceptError, LinkRule, inside, refused};
use crate::index::Index;
use crate::scope::{Outputs, gives, outputs_of};
use cwl_process::{Entries, StepInput};
use document_links::Step;
use plain_data::{Items, Text};
use scatter_shape::Method;
use std::alloc::Global;

/// Looks at each step in its order.
pub(crate) fn check_shapes(alloc: Global, steps: &Entries<Step>) -> Result<(), AcceptError>
    ensures ok { OnOk result (shapes_fault steps.now ≡ None) }
    ensures err { IfErr result (IsErrorOf (shapes_fault steps.now)) }
{
    for entry in steps.as_slice() {
        if let Err(error) = check_shape(alloc, &entry.1) {
            return Err(inside(alloc, &entry.0, error)?);
        }
    }
    Ok(())
}

fn check_shape(alloc: Global, step: &Step) -> Result<(), AcceptError>
    ensures ok { OnOk result (shape_fault step.now ≡ None) }
    ensures err { IfErr result (IsErrorOf (shape_fault step.now)) }
{
    check_scatter(alloc, &step.inputs, &step.scatter)?;
    check_method(alloc, &step.scatter, step.method)?;
    check_outputs(alloc, step)
}

fn check_scatter(
    alloc: Global,
    inputs: &Entries<StepInput>,
    scatter: &Items<Text>,
) -> Result<(), AcceptError>
    ensures ok { OnOk result (first_of (scatter_fault inputs.now) scatter.now ≡ None) }
    ensures err { IfErr result (IsErrorOf (first_of (scatter_fault inputs.now) scatter.now)) }
{
    let entries = Index::of(alloc, inputs.as_slice())?;
    for name in scatter.as_slice() {
        if !entries.has(name) {
            return Err(inside(alloc, name, refused(alloc, LinkRule::ScatterNotInput))?);
        }
    }
    Ok(())
}

fn check_method(
    alloc: Global,
    scatter: &Items<Text>,
    method: Option<Method>,
) -> Result<(), AcceptError>
    ensures ok { OnOk result (method_fault scatter.now method ≡ None) }
    ensures err { IfErr result (IsErrorOf (method_fault scatter.now method)) }
{
    if scatter.len() > 1 && method.is_none() {
        return Err(refused(alloc, LinkRule::MethodMissing));
    }
    Ok(())
}

fn check_outputs(alloc: Global, step: &Step) -> Result<(), AcceptError>
    ensures ok { OnOk result
        (first_of (output_fault (out-Step step.now).process) (out-Step step.now).outputs ≡ None) }
    ensures err { IfErr result (IsErrorOf
        (first_of (output_fault (out-Step step.now).process) (out-Step step.now).outputs)) }
{
    let given = outputs_of(alloc, &step.process)?;
    let checked = check_listed(alloc, step, &given);
    drop(given);
    checked
}

/// Looks whether each output that the step lists is given.
fn check_listed(alloc: Global, step: &Step, given: &Outputs<'_>) -> Result<(), AcceptError>
    requires { given_under given.now ≡ gives (out-Step step.now).process }
    ensures ok { OnOk result
        (first_of (output_fault (out-Step step.now).process) (out-Step step.now).outputs ≡ None) }
    ensures err { IfErr result (IsErrorOf
        (first_of (output_fault (out-Step step.now).process) (out-Step step.now).outputs)) }
{
    for name in step.outputs.as_slice() {
        if !gives(given, name) {
            return Err(inside(alloc, name, refused(alloc, LinkRule::OutputUnknown))?);
        }
    }
    Ok(())
}

//! The result, once no job is left.
ghost use Rattle.std.specs.Prelude.{◌≡◌, false, true, IfOk};
ghost use Rattle.run_core.specs.inner.Knows.{outputs_in};
ghost use Rattle.run_core.specs.inner.Picks.{Delivers, DeliversFiles, sources_in};
ghost use Rattle.run_rules.specs.Delivered.{any_file, located};
ghost use Rattle.job_graph.specs.Words.{last_by_name};
ghost use Rattle.staging.specs.Plan.{IsPlan};

use crate::choice::sources_of;
use crate::fields::put;
use crate::files::has_file;
use crate::places::Way;
use crate::state::{Course, Given, Phase, Turn};
use crate::turn::{succeeded, waiting};
use cwl_value::{Value, placed_fields};
use plain_data::{Keyed, Text};
use proc_host::HostRequest;
use staging::{StagePlan, deliver_plan};
use std::alloc::{AllocError, Global};
use std::mem;

/// The value of each output, and whether one is or holds a file.
#[derive(Drop)]
struct Outputs {
    values: Keyed<Value>,
    has_file: bool,
}

/// The result's files are to be copied to their targets, where it has some; else the run has ended.
pub(crate) fn delivery(
    alloc: Global,
    given: &Given<'_>,
    course: &Course<'_>,
) -> Result<Turn, AllocError>
    ensures { IfOk result (Delivers given.now course.now) }
{
    let outputs = outputs_of(alloc, result_in(course))?;
    let Outputs { values, has_file } = outputs;
    if has_file {
        return delivering(alloc, given, course, values);
    }
    let located = located(alloc, &values);
    mem::drop(values);
    Ok(succeeded(located?))
}

/// The outputs of the process. They are there where no job is left, as `job_graph` says of an accepted process.
fn result_in<'s>(course: &'s Course<'_>) -> &'s [(Text, Value)]
    ensures { result.now ≡ outputs_in course.now.known }
{
    match &course.known {
        None => &[],
        Some(unfolding) => match unfolding.result() {
            None => &[],
            Some(outputs) => outputs,
        },
    }
}

/// The outputs by name.
fn outputs_of(alloc: Global, outputs: &[(Text, Value)]) -> Result<Outputs, AllocError>
    ensures values { IfOk result (λ found. found.values ≡ last_by_name outputs.now) }
    ensures has_file { IfOk result (λ found. found.has_file ≡ any_file outputs.now) }
{
    let mut values = Keyed::new(alloc);
    let mut found = false;
    for output in outputs {
        found = found || has_file(&output.1);
        let value = output.1.clone_in(alloc)?;
        put(alloc, &mut values, &output.0, value)?;
    }
    Ok(Outputs {
        values,
        has_file: found,
    })
}

/// The output object, each file at its location.
fn located(alloc: Global, values: &Keyed<Value>) -> Result<Value, AllocError>
    ensures { IfOk result (λ value. value ≡ located values.now) }
{
    Ok(Value::Fields(placed_fields(alloc, &Way::Located, values)?))
}

/// The files are to be copied.
fn delivering(
    alloc: Global,
    given: &Given<'_>,
    course: &Course<'_>,
    outputs: Keyed<Value>,
) -> Result<Turn, AllocError>
    ensures { IfOk result (DeliversFiles given.now course.now outputs) }
{
    let plan = plan_of(alloc, given, course, outputs)?;
    let located = located(alloc, &plan.value)?;
    Ok(waiting(
        alloc,
        HostRequest::Deliver(plan),
        Phase::Delivering(located),
    ))
}

/// Where the result's files are put.
fn plan_of(
    alloc: Global,
    given: &Given<'_>,
    course: &Course<'_>,
    outputs: Keyed<Value>,
) -> Result<StagePlan, AllocError>
    ensures { IfOk result
        (IsPlan true given.now.options.outdir (sources_in given.now.options course.now outputs)) }
{
    let files = sources_of(alloc, &given.options, course, &outputs);
    mem::drop(outputs);
    deliver_plan(alloc, &files?, given.options.outdir.as_str())
}

//! What is handed to the process of a step, at one of its tuples where it is scattered.
ghost use Rattle.std.specs.Prelude.{◌≡◌, Ok, IfOk, IfSome, true};
ghost use Rattle.document_links.specs.declared.process.Step.{out-Step};
ghost use Rattle.link_values.specs.StepInputs.{value_froms};
ghost use Rattle.job_graph.specs.Equations.{goes_on};
ghost use Rattle.job_graph.specs.Links.{by_link};
ghost use Rattle.job_graph.specs.inner.Nested.{Hands, HandsBy, HasAtOne, HasOnce};

use crate::cause::of_link;
use crate::links::Env;
use crate::made::Facts;
use crate::scatter::{at_tuple, lengths_under};
use crate::step::{Entered, enter, goes_on};
use crate::tuple::has_tuple;
use cwl_value::{JobPlace, Value};
use document_links::Step;
use link_values::value_froms;
use plain_data::{Keyed, Text};
use scatter_shape::Method;
use std::alloc::{AllocError, Global};

/// What is handed to the process; none where it is skipped, an equation fails or the step has no such tuple.
pub(crate) fn handed(
    alloc: Global,
    facts: &Facts,
    step: &(Text, Step),
    place: &JobPlace,
    inputs: &Keyed<Value>,
    env: &Env,
    tuple: &[usize],
) -> Result<Option<Keyed<Value>>, AllocError>
    ensures { IfOk result (λ found. IfSome found
        (Hands facts.now inputs.now env.now step.now.1 tuple.now)) }
{
    let entered = enter(alloc, &facts.measures, &step.0, &step.1, place, inputs, env)?;
    let Entered { faults, values } = entered;
    drop(faults);
    let Some(values) = values else {
        return Ok(None);
    };
    let Some(fields) = fields_at(alloc, &step.1, values, tuple)? else {
        return Ok(None);
    };
    let given = handed_from(alloc, &step.1, &fields);
    drop(fields);
    given
}

/// The values of the step's inputs at a tuple.
fn fields_at(
    alloc: Global,
    step: &Step,
    values: Keyed<Value>,
    tuple: &[usize],
) -> Result<Option<Keyed<Value>>, AllocError>
    ensures { IfOk result (λ found. IfSome found (λ fields. HandsBy step.now values tuple.now
        fields (out-Step step.now).scatter)) }
{
    if step.scatter.is_empty() {
        if tuple.is_empty() {
            return Ok(Some(values));
        }
        drop(values);
        return Ok(None);
    }
    let fields = fields_at_one(alloc, step, &values, tuple);
    drop(values);
    fields
}

fn fields_at_one(
    alloc: Global,
    step: &Step,
    values: &Keyed<Value>,
    tuple: &[usize],
) -> Result<Option<Keyed<Value>>, AllocError>
    ensures { IfOk result (λ found. IfSome found (HasAtOne step.now values.now tuple.now)) }
{
    match lengths_under(alloc, step.scatter.as_slice(), values)? {
        Ok(lengths) => {
            if !has_once(step, lengths.as_slice(), tuple) {
                return Ok(None);
            }
            Ok(Some(at_tuple(alloc, step.scatter.as_slice(), tuple, values)?))
        }
        Err(_cause) => Ok(None),
    }
}

/// Whether a step has the tuple once, for these lengths.
fn has_once(step: &Step, lengths: &[usize], tuple: &[usize]) -> bool
    ensures { result ≡ true → HasOnce step.now lengths.now tuple.now }
{
    has_tuple(step.method.unwrap_or(Method::Dotproduct), lengths, tuple)
}

fn handed_from(
    alloc: Global,
    step: &Step,
    fields: &Keyed<Value>,
) -> Result<Option<Keyed<Value>>, AllocError>
    ensures { IfOk result (λ found. IfSome found
        (λ given. (by_link (value_froms (out-Step step.now).inputs fields.now) ≡ Ok given)
        × (goes_on (out-Step step.now).when given ≡ Ok true))) }
{
    match of_link(value_froms(alloc, step.inputs.as_slice(), fields))? {
        Ok(given) => where_run(step, given),
        Err(_cause) => Ok(None),
    }
}

fn where_run(step: &Step, fields: Keyed<Value>) -> Result<Option<Keyed<Value>>, AllocError>
    ensures { IfOk result (λ found. IfSome found (λ given. (given ≡ fields)
        × (goes_on (out-Step step.now).when fields ≡ Ok true))) }
{
    match goes_on(&step.when, &fields)? {
        Ok(true) => Ok(Some(fields)),
        _ => {
            drop(fields);
            Ok(None)
        }
    }
}

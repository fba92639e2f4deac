use crate::values::{coded, value_of, written_last};
use cwl_value::Value;
use param_refs::{Context, RefError, Template};
use plain_data::{Items, Keyed};
use std::alloc::Global;
use test_rows::{Row, RowFault};

/// The value of a text where references may speak of `inputs`, of `self`, and of `runtime` where the row has one. Inputs
/// that are left out are none, and a `self` that is left out is null.
pub(crate) fn answer(alloc: Global, row: &Row) -> Result<String, RowFault> {
    let given = given_in(alloc, row)?;
    let answer = evaluated(alloc, row, &given);
    drop(given);
    answer
}

// One list in place of three values, since what is dropped at each way out is then one thing.
fn given_in(alloc: Global, row: &Row) -> Result<Items<Value>, RowFault> {
    let mut given = Items::new(alloc);
    for argument in ["inputs", "self", "runtime"] {
        given.push(value_or_null(alloc, row, argument)?)?;
    }
    Ok(given)
}

fn value_or_null(alloc: Global, row: &Row, argument: &str) -> Result<Value, RowFault> {
    match row.find(argument) {
        Some(_) => value_of(alloc, row, argument),
        None if argument == "inputs" => Ok(Value::Fields(Keyed::new(alloc))),
        None => Ok(Value::Null),
    }
}

fn evaluated(alloc: Global, row: &Row, given: &Items<Value>) -> Result<String, RowFault> {
    let [Value::Fields(inputs), own, runtime] = given.as_slice() else {
        return Err(RowFault::BadArgument);
    };
    let context = Context {
        inputs,
        runtime: row.find("runtime").map(|_given| runtime),
        own,
    };
    match value_in(alloc, row.text("text")?, &context) {
        Ok(value) => written_last(alloc, value),
        Err(RefError::Refused(fault)) => coded(alloc, fault.code()),
        Err(RefError::OutOfMemory) => coded(alloc, "memory"),
    }
}

fn value_in(alloc: Global, text: &str, context: &Context<'_>) -> Result<Value, RefError> {
    let template = Template::read(alloc, text)?;
    template.value(context)
}

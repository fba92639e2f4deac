//! Reads how the jobs of rows end: a job's number, or a list of it and what its outputs `o` and `p` are.
use crate::arguments::value_of;
use cwl_value::{FileVal, JobPlace, Place, Value, copy_job};
use job_graph::Unfolding;
use plain_data::{Items, Keyed, Text};
use serde_json::Value as Json;
use std::alloc::{AllocError, Global};
use test_rows::RowFault;

pub(crate) fn number_of(end: &Json) -> Result<u64, RowFault> {
    end.get(0)
        .unwrap_or(end)
        .as_u64()
        .ok_or(RowFault::BadArgument)
}

/// The place of the known job of this number.
pub(crate) fn place_of(
    alloc: Global,
    unfolding: &Unfolding<'_>,
    number: u64,
) -> Result<JobPlace, RowFault> {
    match unfolding.known().get(number as usize) {
        Some(known) => Ok(copy_job(alloc, &known.job.place)?),
        None => Err(RowFault::BadArgument),
    }
}

/// The outputs that stand beside the number; where the number stands alone, the output `o` is a File that has it in its name.
pub(crate) fn outputs_of(alloc: Global, end: &Json, number: u64) -> Result<Keyed<Value>, RowFault> {
    let mut outputs = Keyed::new(alloc);
    put_outputs(alloc, &mut outputs, end, number)?;
    Ok(outputs)
}

fn put_outputs(
    alloc: Global,
    outputs: &mut Keyed<Value>,
    end: &Json,
    number: u64,
) -> Result<(), RowFault> {
    if end.is_array() {
        put_output(alloc, outputs, "o", end.get(1))?;
        put_output(alloc, outputs, "p", end.get(2))
    } else {
        let value = numbered_file(alloc, number)?;
        Ok(add(alloc, outputs, "o", value)?)
    }
}

fn numbered_file(alloc: Global, number: u64) -> Result<Value, AllocError> {
    let name = format!(in alloc; "f{number}")?;
    file(alloc, name.as_str())
}

fn put_output(
    alloc: Global,
    outputs: &mut Keyed<Value>,
    name: &str,
    json: Option<&Json>,
) -> Result<(), RowFault> {
    match json {
        None => Ok(()),
        Some(json) => Ok(add(alloc, outputs, name, output(alloc, json)?)?),
    }
}

/// Adds the value by its name.
pub(crate) fn add(
    alloc: Global,
    outputs: &mut Keyed<Value>,
    name: &str,
    value: Value,
) -> Result<(), AllocError> {
    let name = Text::from_text(alloc, name)?;
    drop(outputs.insert(name, value)?);
    Ok(())
}

/// The value of JSON in which a text, alone or in a list, is the name of a File.
#[cycle(output)]
fn output(alloc: Global, json: &Json) -> Result<Value, RowFault> {
    match json {
        Json::String(name) => Ok(file(alloc, name.as_str())?),
        Json::Array(items) => outputs(alloc, items),
        _ => value_of(alloc, json),
    }
}

#[cycle(output)]
fn outputs(alloc: Global, items: &Vec<Json>) -> Result<Value, RowFault> {
    let mut values = Items::new(alloc);
    for item in items {
        values.push(output(alloc, item)?)?;
    }
    Ok(Value::of_items(values))
}

/// A File of this name in the output folder of its job.
fn file(alloc: Global, name: &str) -> Result<Value, AllocError> {
    let place = Place::Url(Text::from_text(alloc, name)?);
    let basename = Some(Text::from_text(alloc, name)?);
    Ok(Value::FileVal(FileVal {
        place,
        basename,
        checksum: None,
        size: None,
        contents: None,
        secondary: Items::new(alloc),
    }))
}

ghost use Rattle.std.specs.Prelude.{◌≡◌, ◌≢◌, ◌<◌, [], length, IfOk};
ghost use Rattle.scatter_shape.specs.Tuples.{tuples_of, IsTaken};

use crate::places::numbers_of;
use crate::values::{coded, value_in, values_in, written_last};
use cwl_value::Value;
use plain_data::Items;
use scatter_shape::{Gathering, Method, ScatterError, Shape, gather, jobs_of, lengths_of};
use serde_json::Value as Json;
use std::alloc::Global;
use test_rows::{Row, RowFault};

/// `jobs_of` lists the tuples and `count_of` counts them, `gather` puts the numbers from 0 on together, one for each
/// tuple, `put` does so in the order that is given, and `lengths_of` measures values.
pub(crate) fn answer(alloc: Global, row: &Row) -> Result<String, RowFault> {
    match row.call() {
        "lengths_of" => measured(alloc, row.list("values")?),
        "jobs_of" | "count_of" | "gather" | "put" => shaped_row(alloc, row),
        _ => Err(RowFault::UnknownCall),
    }
}

fn shaped_row(alloc: Global, row: &Row) -> Result<String, RowFault> {
    let shape = Shape {
        method: method_of(row.text("method")?)?,
        lengths: numbers_of(alloc, row.list("lengths")?)?,
    };
    shaped(alloc, row, &shape)
}

fn method_of(name: &str) -> Result<Method, RowFault> {
    match name {
        "dotproduct" => Ok(Method::Dotproduct),
        "nested_crossproduct" => Ok(Method::NestedCrossproduct),
        "flat_crossproduct" => Ok(Method::FlatCrossproduct),
        _ => Err(RowFault::BadArgument),
    }
}

fn shaped(alloc: Global, row: &Row, shape: &Shape) -> Result<String, RowFault> {
    if shape.lengths.is_empty() {
        return Err(RowFault::BadArgument);
    }
    match row.call() {
        "jobs_of" => listed(alloc, shape),
        "count_of" => counted(alloc, shape),
        "gather" => gathered(alloc, shape),
        "put" => put_in_order(alloc, shape, row.list("order")?),
        _ => Err(RowFault::UnknownCall),
    }
}

fn listed(alloc: Global, shape: &Shape) -> Result<String, RowFault>
    requires { shape.now.lengths ≢ [] }
{
    match jobs_of(alloc, shape.method, shape.lengths.as_slice()) {
        Ok(tuples) => Ok(format!(in alloc; "{tuples:?}")?),
        Err(error) => coded(alloc, code_of(&error)),
    }
}

fn counted(alloc: Global, shape: &Shape) -> Result<String, RowFault>
    requires { shape.now.lengths ≢ [] }
{
    match jobs_of(alloc, shape.method, shape.lengths.as_slice()) {
        Ok(tuples) => Ok(format!(in alloc; "{}", tuples.len())?),
        Err(error) => coded(alloc, code_of(&error)),
    }
}

fn gathered(alloc: Global, shape: &Shape) -> Result<String, RowFault>
    requires { shape.now.lengths ≢ [] }
{
    match jobs_of(alloc, shape.method, shape.lengths.as_slice()) {
        Ok(tuples) => gathered_numbers(alloc, shape, &tuples),
        Err(error) => coded(alloc, code_of(&error)),
    }
}

// The numbers from 0 on, one for each tuple, gathered.
fn gathered_numbers(
    alloc: Global,
    shape: &Shape,
    tuples: &Items<Items<usize>>,
) -> Result<String, RowFault>
    requires some { shape.now.lengths ≢ [] }
    requires taken { IsTaken shape.now.method shape.now.lengths }
    requires tuples { tuples.now ≡ tuples_of shape.now.method shape.now.lengths }
{
    let values = numbers(alloc, tuples.len())?;
    if values.len() != tuples.len() {
        return Err(RowFault::BadArgument);
    }
    written_last(alloc, gather(alloc, shape, values)?)
}

fn numbers(alloc: Global, count: usize) -> Result<Vec<Value>, RowFault> {
    let mut values = Vec::new(alloc);
    for number in 0..count {
        let number = i64::try_from(number).map_err(|_wide| RowFault::BadArgument)?;
        values.push(Value::Whole(number))?;
    }
    Ok(values)
}

fn put_in_order(alloc: Global, shape: &Shape, order: &[Json]) -> Result<String, RowFault>
    requires { shape.now.lengths ≢ [] }
{
    match jobs_of(alloc, shape.method, shape.lengths.as_slice()) {
        Ok(tuples) => put_all(alloc, shape, &tuples, order),
        Err(error) => coded(alloc, code_of(&error)),
    }
}

// Puts the number of each tuple that is named, and gathers once each tuple has its number.
fn put_all(
    alloc: Global,
    shape: &Shape,
    tuples: &Items<Items<usize>>,
    order: &[Json],
) -> Result<String, RowFault>
    requires some { shape.now.lengths ≢ [] }
    requires taken { IsTaken shape.now.method shape.now.lengths }
    requires tuples { tuples.now ≡ tuples_of shape.now.method shape.now.lengths }
{
    let gathering = put_each(alloc, tuples.len(), order)?;
    if !gathering.is_full() {
        drop(gathering);
        return coded(alloc, "null");
    }
    written_last(alloc, gathering.gather(alloc, shape)?)
}

fn put_each(alloc: Global, count: usize, order: &[Json]) -> Result<Gathering, RowFault>
    ensures { IfOk result (λ gathering. length gathering ≡ count) }
{
    let mut gathering = Gathering::new(alloc, count)?;
    for json in order {
        let tuple = tuple_in(json, count)?;
        drop(gathering.put(tuple, value_in(alloc, json)?));
    }
    Ok(gathering)
}

// The number of a tuple, of so many.
fn tuple_in(json: &Json, count: usize) -> Result<usize, RowFault>
    ensures { IfOk result (λ tuple. tuple < count) }
{
    let number = json.as_u64().ok_or(RowFault::BadArgument)? as usize;
    if number < count {
        Ok(number)
    } else {
        Err(RowFault::BadArgument)
    }
}

fn measured(alloc: Global, values: &[Json]) -> Result<String, RowFault> {
    let values = values_in(alloc, values)?;
    match lengths_of(alloc, values.as_slice()) {
        Ok(lengths) => Ok(format!(in alloc; "{lengths:?}")?),
        Err(error) => coded(alloc, code_of(&error)),
    }
}

fn code_of(error: &ScatterError) -> &'static str {
    match error {
        ScatterError::Refused(fault) => fault.code(),
        ScatterError::OutOfMemory => "memory",
    }
}

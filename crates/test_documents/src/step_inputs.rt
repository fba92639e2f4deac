//! The values of steps' inputs.
use crate::arguments::{fields_of, value_of};
use cwl_process::{Links, Pick, StepInput};
use cwl_value::{Value, canonical_text};
use link_values::{LinkError, step_input, value_froms, when_value};
use param_refs::Template;
use plain_data::{Items, Text};
use serde_json::Value as Json;
use std::alloc::Global;
use test_rows::{Row, RowFault};

/// `step_input` is the value of an input with these fields whose links give `value`; `value_froms` has each of `in` after its
/// valueFrom, over `inputs`; `when_value` says whether a step with `inputs` is not skipped.
pub(crate) fn answer(alloc: Global, row: &Row) -> Result<String, RowFault> {
    match row.call() {
        "step_input" => of_input(alloc, row),
        "value_froms" => of_value_froms(alloc, row),
        _ => of_when(alloc, row),
    }
}

fn of_input(alloc: Global, row: &Row) -> Result<String, RowFault> {
    let input = input_of(alloc, row.json("input")?)?;
    let value = value_of(alloc, row.json("value")?)?;
    match step_input(alloc, &input, value) {
        Ok(value) => written(alloc, &value),
        Err(error) => coded(alloc, &error),
    }
}

fn of_value_froms(alloc: Global, row: &Row) -> Result<String, RowFault> {
    let inputs = inputs_of(alloc, row)?;
    let given = fields_of(alloc, row.json("inputs")?)?;
    match value_froms(alloc, inputs.as_slice(), &given) {
        Ok(fields) => written(alloc, &Value::Fields(fields)),
        Err(error) => coded(alloc, &error),
    }
}

fn of_when(alloc: Global, row: &Row) -> Result<String, RowFault> {
    let when = template_of(alloc, row.text("when")?)?;
    let given = fields_of(alloc, row.json("inputs")?)?;
    match when_value(&when, &given) {
        Ok(flag) => written(alloc, &Value::Bool(flag)),
        Err(error) => coded(alloc, &error),
    }
}

fn written(alloc: Global, value: &Value) -> Result<String, RowFault> {
    Ok(canonical_text(alloc, value)?.into_string())
}

fn coded(alloc: Global, error: &LinkError) -> Result<String, RowFault> {
    match error {
        LinkError::Refused(fault) => Ok(String::from_str(alloc, fault.code())?),
        LinkError::OutOfMemory => Err(RowFault::OutOfMemory),
    }
}

fn inputs_of(alloc: Global, row: &Row) -> Result<Vec<(Text, StepInput)>, RowFault> {
    let Json::Object(members) = row.json("in")? else {
        return Err(RowFault::BadArgument);
    };
    let mut inputs = Vec::new(alloc);
    for (name, json) in members.iter() {
        inputs.push(named_input(alloc, name.as_str(), json)?)?;
    }
    Ok(inputs)
}

fn named_input(alloc: Global, name: &str, json: &Json) -> Result<(Text, StepInput), RowFault> {
    let name = Text::from_text(alloc, name)?;
    Ok((name, input_of(alloc, json)?))
}

/// An input with `pickValue`, `default` and `valueFrom`; it has a source where `source` is there, whatever that says.
fn input_of(alloc: Global, json: &Json) -> Result<StepInput, RowFault> {
    let pick = pick_of(json.get("pickValue").and_then(|name| name.as_str()))?;
    let value_from = value_from_of(alloc, json)?;
    let default = default_of(alloc, json)?;
    Ok(StepInput {
        links: Links {
            sources: json.get("source").map(|_source| Items::new(alloc)),
            merge: None,
            pick,
        },
        default,
        value_from,
    })
}

fn default_of(alloc: Global, json: &Json) -> Result<Option<Value>, RowFault> {
    match json.get("default") {
        None => Ok(None),
        Some(default) => Ok(Some(value_of(alloc, default)?)),
    }
}

fn value_from_of(alloc: Global, json: &Json) -> Result<Option<Template>, RowFault> {
    match json.get("valueFrom").and_then(|text| text.as_str()) {
        None => Ok(None),
        Some(text) => Ok(Some(template_of(alloc, text)?)),
    }
}

fn pick_of(name: Option<&str>) -> Result<Option<Pick>, RowFault> {
    match name {
        None => Ok(None),
        Some("first_non_null") => Ok(Some(Pick::FirstNonNull)),
        Some("the_only_non_null") => Ok(Some(Pick::TheOnlyNonNull)),
        Some("all_non_null") => Ok(Some(Pick::AllNonNull)),
        _ => Err(RowFault::BadArgument),
    }
}

fn template_of(alloc: Global, text: &str) -> Result<Template, RowFault> {
    Template::read(alloc, text).map_err(|_error| RowFault::BadArgument)
}

//! The environment of a job's key.
ghost use Rattle.std.specs.Prelude.{◌≡◌, [], IfOk, map, unwrap_or, bytes_eq};
ghost use Rattle.std.specs.List.{IsDistinct};
ghost use Rattle.std.specs.Map.{keys_of};
ghost use Rattle.plain_data.specs.ByName.{by_name};
ghost use Rattle.serde_json.specs.View.{view};
ghost use Rattle.serde_json.specs.Written.{compact_text};
ghost use Rattle.cwl_process.specs.Acting.{environment_of};
ghost use Rattle.job_key.specs.Key.{texts_of, variable_json, variables_json, variables_of};

use cwl_process::{Tool, Variable};
use plain_data::{Keyed, Text};
use serde_json::Value as Json;
use std::alloc::{AllocError, Global};

/// The variables in force, as compact JSON text.
#[tactic(auto, using(crate::proofs::Exact::variables_exact))]
pub(crate) fn env_text(alloc: Global, tool: &Tool) -> Result<Text, AllocError>
    ensures { IfOk result (λ text. text ≡ compact_text (variables_json (variables_of tool.now))) }
{
    let variables = variables_of(alloc, tool)?;
    Ok(Text::from_string(json_of(alloc, variables.as_slice())?.to_string(alloc)?))
}

// The variables in force, in the order of their names.
fn variables_of(alloc: Global, tool: &Tool) -> Result<Keyed<Text>, AllocError>
    ensures { IfOk result (λ variables. variables ≡ variables_of tool.now) }
{
    match tool.asked.environment() {
        None => Ok(Keyed::new(alloc)),
        Some(variables) => in_order(alloc, variables.as_slice()),
    }
}

fn in_order(alloc: Global, variables: &[(Text, Variable)]) -> Result<Keyed<Text>, AllocError>
    requires { IsDistinct bytes_eq (keys_of variables.now) }
    ensures { IfOk result (λ keyed. keyed ≡ by_name (texts_of variables.now)) }
{
    match Keyed::from_entries(texts_of(alloc, variables)?) {
        Ok(keyed) => Ok(keyed),
        Err(_) => unreachable!(),
    }
}

// Each variable with its text as it is written.
fn texts_of(alloc: Global, variables: &[(Text, Variable)]) -> Result<Vec<(Text, Text)>, AllocError>
    ensures { IfOk result (λ texts. texts.items ≡ texts_of variables.now) }
{
    let mut texts = Vec::new(alloc);
    for variable in variables {
        let name = variable.0.copied(alloc)?;
        texts.push((name, variable.1.written.copied(alloc)?))?;
    }
    Ok(texts)
}

fn json_of(alloc: Global, variables: &[(Text, Text)]) -> Result<Json, AllocError>
    ensures { IfOk result (λ json. view json ≡ variables_json variables.now) }
{
    let mut list = Vec::new(alloc);
    for variable in variables {
        list.push(json_of_variable(alloc, variable)?)?;
    }
    Ok(Json::Array(list))
}

fn json_of_variable(alloc: Global, variable: &(Text, Text)) -> Result<Json, AllocError>
    ensures { IfOk result (λ json. view json ≡ variable_json variable.now) }
{
    let mut pair = Vec::with_capacity(alloc, 2)?;
    pair.push(Json::try_from_str(alloc, variable.0.as_str())?)?;
    pair.push(Json::try_from_str(alloc, variable.1.as_str())?)?;
    Ok(Json::Array(pair))
}

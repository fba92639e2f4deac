ghost use Rattle.std.specs.Prelude.{◌≡◌, ◌++◌, IfOk, codes};
ghost use Rattle.serde_json.specs.View.{view};
ghost use Rattle.serde_json.specs.Written.{compact_text};
ghost use Rattle.job_key.specs.Key.{key, inputs_json, input_json};

use crate::env::env_text;
use cwl_process::{Tool, ToolInput};
use cwl_value::{Value, erased, to_json};
use plain_data::{Keyed, Text};
use serde_json::Value as Json;
use serde_json::value::Map;
use std::alloc::{AllocError, Global};

/// The key of a tool and its inputs. An input that is not given counts as null, and what is given besides the tool's
/// inputs is ignored.
pub fn key_text(alloc: Global, tool: &Tool, given: &Keyed<Value>) -> Result<Text, AllocError>
    ensures { IfOk result (λ text. text ≡ key tool.now given.now) }
{
    let env = env_text(alloc, tool)?;
    let inputs = inputs_text(alloc, tool.inputs.as_slice(), given)?;
    joined(alloc, env.as_str(), inputs.as_str(), tool.written.as_str())
}

// The three parts as the members of one object.
fn joined(alloc: Global, env: &str, inputs: &str, tool: &str) -> Result<Text, AllocError>
    ensures { IfOk result (λ text. text ≡ codes "{\"env\":" ++ env.now ++ codes ",\"inputs\":"
        ++ inputs.now ++ codes ",\"tool\":" ++ tool.now ++ codes "}") }
{
    let mut text = String::from_str(alloc, "{\"env\":")?;
    text.push_str(env)?;
    text.push_str(",\"inputs\":")?;
    text.push_str(inputs)?;
    text.push_str(",\"tool\":")?;
    text.push_str(tool)?;
    text.push_str("}")?;
    Ok(Text::from_string(text))
}

#[tactic(auto, using(crate::proofs::Exact::exact))]
fn inputs_text(
    alloc: Global,
    inputs: &[(Text, ToolInput)],
    given: &Keyed<Value>,
) -> Result<Text, AllocError>
    ensures { IfOk result (λ text. text ≡ compact_text (inputs_json inputs.now given.now)) }
{
    Ok(Text::from_string(json_of_inputs(alloc, inputs, given)?.to_string(alloc)?))
}

// Each input under its name.
fn json_of_inputs(
    alloc: Global,
    inputs: &[(Text, ToolInput)],
    given: &Keyed<Value>,
) -> Result<Json, AllocError>
    ensures { IfOk result (λ json. view json ≡ inputs_json inputs.now given.now) }
{
    let mut members = Map::new(alloc);
    for input in inputs {
        let json = input_json(alloc, input.0.as_str(), given)?;
        serde_json::put(&mut members, alloc, input.0.as_str(), json)?;
    }
    Ok(Json::Object(members))
}

// The input's value without its places.
fn input_json(alloc: Global, name: &str, given: &Keyed<Value>) -> Result<Json, AllocError>
    ensures { IfOk result (λ json. view json ≡ input_json given.now name.now) }
{
    match given.get(name) {
        None => Ok(Json::Null),
        Some(value) => to_json(alloc, &erased(alloc, value)?),
    }
}

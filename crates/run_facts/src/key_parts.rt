//! The parts of a job's key: its environment, its inputs and its tool.
ghost use Rattle.std.specs.Prelude.{◌≡◌, Some, codes, IfNone, IfOk, IfSome, option_map};
ghost use Rattle.serde_json.specs.Data.{Data, object};
ghost use Rattle.serde_json.specs.Find.{get};
ghost use Rattle.serde_json.specs.Read.{read};
ghost use Rattle.serde_json.specs.View.{view, members_view};
ghost use Rattle.run_facts.specs.KeyTexts as spec;

use plain_data::{Keyed, Text};
use serde_json::Value as Json;
use serde_json::value::Map;
use std::alloc::{AllocError, Global};

/// What a key says of its job, each value as a JSON text.
#[derive(Drop)]
pub struct KeyParts {
    pub env: Text,
    /// The values of the inputs, by their names.
    pub inputs: Keyed<Text>,
    /// The fields of the tool.
    pub tool: Keyed<Text>,
}

/// Reads the parts of a key, if it has them.
pub fn parts_of(alloc: Global, key: &str) -> Result<Option<KeyParts>, AllocError>
    ensures some { IfOk result (λ found. IfSome found (λ parts. (key_data : Data)
        × (read key.now ≡ Some key_data) × spec.ArePartsOf key_data parts)) }
    ensures none { IfOk result (λ found. IfNone found ((key_data : Data)
        → read key.now ≡ Some key_data → spec.HasNoParts key_data)) }
{
    match Json::from_str(alloc, key) {
        Ok(json) => parts_in(alloc, &json),
        Err(error) if error.is_memory() => Err(AllocError),
        Err(_) => Ok(None),
    }
}

/// Reads the fields of a tool as it was written, each as a JSON text, if it is an object.
pub(crate) fn fields_of(alloc: Global, tool: &str) -> Result<Option<Keyed<Text>>, AllocError>
    ensures some { IfOk result (λ found. IfSome found (spec.IsObjectOf (read tool.now))) }
    ensures none { IfOk result (λ found. IfNone found (spec.IsNoObject (read tool.now))) }
{
    match Json::from_str(alloc, tool) {
        Ok(json) => texts_of(alloc, &json),
        Err(error) if error.is_memory() => Err(AllocError),
        Err(_) => Ok(None),
    }
}

fn parts_in(alloc: Global, key: &Json) -> Result<Option<KeyParts>, AllocError>
    ensures some { IfOk result (λ found. IfSome found (spec.ArePartsOf (view key.now))) }
    ensures none { IfOk result (λ found. IfNone found (spec.HasNoParts (view key.now))) }
{
    match key.get("env") {
        Some(env) => parts_with(alloc, env, key),
        None => Ok(None),
    }
}

// The parts of a key that has this environment.
fn parts_with(alloc: Global, env: &Json, key: &Json) -> Result<Option<KeyParts>, AllocError>
    requires { get (codes "env") (view key.now) ≡ Some (view env.now) }
    ensures some { IfOk result (λ found. IfSome found (spec.ArePartsOf (view key.now))) }
    ensures none { IfOk result (λ found. IfNone found (spec.HasNoParts (view key.now))) }
{
    let text = text_of(alloc, env)?;
    let inputs = texts_in(alloc, key.get("inputs"))?;
    let tool = texts_in(alloc, key.get("tool"))?;
    Ok(joined(text, inputs, tool))
}

fn joined(env: Text, inputs: Option<Keyed<Text>>, tool: Option<Keyed<Text>>) -> Option<KeyParts>
    ensures { result ≡ spec.joined env inputs tool }
{
    match (inputs, tool) {
        (Some(inputs), Some(tool)) => Some(KeyParts { env, inputs, tool }),
        _ => None,
    }
}

// The members of an object by their names.
fn texts_in(alloc: Global, json: Option<&Json>) -> Result<Option<Keyed<Text>>, AllocError>
    ensures some { IfOk result (λ found. IfSome found
        (spec.IsObjectOf (option_map (λ value. view value.now) json.entry))) }
    ensures none { IfOk result (λ found. IfNone found
        (spec.IsNoObject (option_map (λ value. view value.now) json.entry))) }
{
    match json {
        Some(json) => texts_of(alloc, json),
        None => Ok(None),
    }
}

fn texts_of(alloc: Global, json: &Json) -> Result<Option<Keyed<Text>>, AllocError>
    ensures some { IfOk result (λ found. IfSome found (spec.IsObjectOf (Some (view json.now)))) }
    ensures none { IfOk result (λ found. IfNone found (spec.IsNoObject (Some (view json.now)))) }
{
    match json {
        Json::Object(members) => keyed_texts(alloc, members),
        Json::Null | Json::Bool(_) | Json::Number(_) | Json::String(_) | Json::Array(_) => Ok(None),
    }
}

// Two members of one name are never in an object.
fn keyed_texts(
    alloc: Global,
    members: &Map<String, Json>,
) -> Result<Option<Keyed<Text>>, AllocError>
    ensures some { IfOk result (λ found. IfSome found
        (spec.IsObjectOf (Some (object (members_view members.now.entries))))) }
    ensures none { IfOk result (λ found. IfNone found
        (spec.IsNoObject (Some (object (members_view members.now.entries))))) }
{
    let texts = member_texts(alloc, members)?;
    match Keyed::from_entries(texts) {
        Ok(keyed) => Ok(Some(keyed)),
        Err(_) => Ok(None),
    }
}

fn member_texts(alloc: Global, members: &Map<String, Json>) -> Result<Vec<(Text, Text)>, AllocError>
    ensures { IfOk result (λ texts. spec.AreTextsOf (members_view members.now.entries)
        texts.items) }
{
    let mut texts = Vec::new(alloc);
    for (name, value) in members.iter() {
        let key = Text::from_text(alloc, name.as_str())?;
        texts.push((key, text_of(alloc, value)?))?;
    }
    Ok(texts)
}

fn text_of(alloc: Global, json: &Json) -> Result<Text, AllocError>
    ensures { IfOk result (spec.IsTextOf (view json.now)) }
{
    Ok(Text::from_string(json.to_string(alloc)?))
}

//! What a row of a record is of, by the text of its key.
ghost use Rattle.std.specs.Prelude.{◌≡◌, ◌++◌, IfOk, OnOk, Some, option_map, string_bytes};
ghost use Rattle.serde_json.specs.View.{view, items_view, members_view};
ghost use Rattle.program_words.specs.KeyWords as spec;

use crate::shown::visible;
use serde_json::Value as Json;
use serde_json::value::Map;
use std::alloc::{AllocError, Global};

/// Stands for what a key says, where it does not read.
const UNREAD: &str = " unread";

/// Stands between a tool's first words and the names of its inputs.
const FROM: &str = " <-";

/// Returns the first words of a key's tool and the names of its inputs, each behind a space and as it is shown: ` sort -n <- text`.
pub fn key_words(alloc: Global, key: &str) -> Result<String, AllocError>
    ensures { IfOk result (λ words. string_bytes words ≡ spec.key_words key.now) }
{
    match Json::from_str(alloc, key) {
        Ok(json) => data_words(alloc, &json),
        Err(error) if error.is_memory() => Err(AllocError),
        Err(_) => String::from_str(alloc, UNREAD),
    }
}

fn data_words(alloc: Global, key: &Json) -> Result<String, AllocError>
    ensures { IfOk result (λ words. string_bytes words ≡ spec.data_words (view key.now)) }
{
    match key.get("tool") {
        Some(tool) => parts_words(alloc, tool, key.get("inputs")),
        None => String::from_str(alloc, UNREAD),
    }
}

fn parts_words(alloc: Global, tool: &Json, inputs: Option<&Json>) -> Result<String, AllocError>
    ensures { IfOk result (λ words. string_bytes words
        ≡ spec.parts_words (Some (view tool.now))
        (option_map (λ json. view json.now) inputs.entry)) }
{
    match inputs {
        Some(inputs) => tool_words(alloc, tool, inputs),
        None => String::from_str(alloc, UNREAD),
    }
}

fn tool_words(alloc: Global, tool: &Json, inputs: &Json) -> Result<String, AllocError>
    ensures { IfOk result (λ words. string_bytes words
        ≡ spec.tool_words (view tool.now) (view inputs.now)) }
{
    let mut words = String::new(alloc);
    add_texts(alloc, &mut words, tool.get("baseCommand"))?;
    add_texts(alloc, &mut words, tool.get("arguments"))?;
    words.push_str(FROM)?;
    add_names(alloc, &mut words, inputs)?;
    Ok(words)
}

// Adds a text, or those of a list that are texts.
fn add_texts(alloc: Global, words: &mut String, json: Option<&Json>) -> Result<(), AllocError>
    ensures { OnOk result (string_bytes words.new ≡ string_bytes words.old
        ++ spec.texts_in (option_map (λ json. view json.now) json.entry)) }
{
    match json {
        Some(Json::Array(items)) => add_items(alloc, words, items.as_slice()),
        Some(Json::String(text)) => add_word(alloc, words, text.as_str()),
        Some(Json::Null | Json::Bool(_) | Json::Number(_) | Json::Object(_)) | None => Ok(()),
    }
}

fn add_text(alloc: Global, words: &mut String, json: &Json) -> Result<(), AllocError>
    ensures { OnOk result (string_bytes words.new ≡ string_bytes words.old
        ++ spec.text_word (view json.now)) }
{
    match json {
        Json::String(text) => add_word(alloc, words, text.as_str()),
        Json::Null | Json::Bool(_) | Json::Number(_) | Json::Array(_) | Json::Object(_) => Ok(()),
    }
}

fn add_items(alloc: Global, words: &mut String, items: &[Json]) -> Result<(), AllocError>
    ensures { OnOk result (string_bytes words.new ≡ string_bytes words.old
        ++ spec.item_words (items_view items.now)) }
{
    for item in items {
        add_text(alloc, words, item)?;
    }
    Ok(())
}

fn add_names(alloc: Global, words: &mut String, inputs: &Json) -> Result<(), AllocError>
    ensures { OnOk result (string_bytes words.new ≡ string_bytes words.old
        ++ spec.names_in (view inputs.now)) }
{
    match inputs {
        Json::Object(members) => add_members(alloc, words, members),
        Json::Null | Json::Bool(_) | Json::Number(_) | Json::String(_) | Json::Array(_) => Ok(()),
    }
}

fn add_members(
    alloc: Global,
    words: &mut String,
    members: &Map<String, Json>,
) -> Result<(), AllocError>
    ensures { OnOk result (string_bytes words.new ≡ string_bytes words.old
        ++ spec.member_words (members_view members.now.entries)) }
{
    for (name, _) in members.iter() {
        add_word(alloc, words, name.as_str())?;
    }
    Ok(())
}

// Adds a word behind a space.
fn add_word(alloc: Global, words: &mut String, word: &str) -> Result<(), AllocError>
    ensures { OnOk result (string_bytes words.new ≡ string_bytes words.old
        ++ spec.spaced word.now) }
{
    words.push_str(" ")?;
    words.push_str(visible(alloc, word)?.as_str())
}

//! How a job differs from the nearest one that is recorded, in words.
ghost use Rattle.std.specs.Prelude.{◌≡◌, ◌++◌, IfOk, codes, flat_map, option_and_then, option_map, string_bytes};
ghost use Rattle.serde_json.specs.Find.{as_str, get};
ghost use Rattle.serde_json.specs.View.{view};
ghost use Rattle.program_words.specs.NearWords as spec;

use crate::shown::visible;
use plain_data::Text;
use run_facts::{Change, Near};
use serde_json::Value as Json;
use std::alloc::{AllocError, Global};

/// The longest JSON text of a value that is shown.
const MOST_OF_VALUE: usize = 60;

/// Returns a line for each difference, behind two spaces: `input n: 5 was 4`.
pub fn near_words(alloc: Global, near: &Near) -> Result<String, AllocError>
    ensures { IfOk result (λ words. string_bytes words ≡ spec.near_words near.now) }
{
    match near {
        Near::Inputs(changes) => changes_words(alloc, "input ", changes.as_slice()),
        Near::Tool(changes) => changes_words(alloc, "its ", changes.as_slice()),
        Near::Environment => String::from_str(alloc, "  its environment is another one\n"),
        Near::Nothing => String::from_str(
            alloc,
            "  no earlier job of this tool or with these inputs is recorded\n",
        ),
    }
}

fn changes_words(alloc: Global, whose: &str, changes: &[Change]) -> Result<String, AllocError>
    ensures { IfOk result (λ words. string_bytes words
        ≡ flat_map (spec.change_line whose.now) changes.now) }
{
    let mut words = String::new(alloc);
    for change in changes {
        words.push_str(change_line(alloc, whose, change)?.as_str())?;
    }
    Ok(words)
}

fn change_line(alloc: Global, whose: &str, change: &Change) -> Result<String, AllocError>
    ensures { IfOk result (λ line. string_bytes line
        ≡ spec.change_line whose.now change.entry.now) }
{
    let words = change_words(alloc, change)?;
    indented(alloc, whose, words.as_str())
}

fn indented(alloc: Global, whose: &str, words: &str) -> Result<String, AllocError>
    ensures { IfOk result (λ line. string_bytes line ≡ codes "  " ++ whose.now ++ words.now
        ++ codes "\n") }
{
    format!(in alloc; "  {whose}{words}\n")
}

fn change_words(alloc: Global, change: &Change) -> Result<String, AllocError>
    ensures { IfOk result (λ words. string_bytes words ≡ spec.change_words change.entry.now) }
{
    let name = visible(alloc, change.name.as_str())?;
    let how = how_words(alloc, given(&change.now), given(&change.was))?;
    named(alloc, name.as_str(), how.as_str())
}

fn named(alloc: Global, name: &str, how: &str) -> Result<String, AllocError>
    ensures { IfOk result (λ words. string_bytes words ≡ name.now ++ codes ": " ++ how.now) }
{
    format!(in alloc; "{name}: {how}")
}

// The text of a value, if it is there and not null.
fn given(text: &Option<Text>) -> Option<&str>
    ensures { option_map (λ s. s.now) result ≡ spec.given text.now }
{
    match text {
        Some(text) => unless_null(text.as_str()),
        None => None,
    }
}

fn unless_null(text: &str) -> Option<&str>
    ensures { option_map (λ s. s.now) result ≡ spec.unless_null text.now }
{
    if text == "null" { None } else { Some(text) }
}

fn how_words(alloc: Global, now: Option<&str>, was: Option<&str>) -> Result<String, AllocError>
    ensures { IfOk result (λ words. string_bytes words
        ≡ spec.how_words (option_map (λ s. s.now) now.entry)
        (option_map (λ s. s.now) was.entry)) }
{
    match (now, was) {
        (_, None) => String::from_str(alloc, "was not given"),
        (None, Some(was)) => lost_words(alloc, was),
        (Some(now), Some(was)) => both_words(alloc, now, was),
    }
}

fn lost_words(alloc: Global, was: &str) -> Result<String, AllocError>
    ensures { IfOk result (λ words. string_bytes words ≡ spec.lost_words was.now) }
{
    let word = value_word(alloc, was)?;
    format!(in alloc; "was {word}, and is not given")
}

// Two files of one name have other bytes.
fn both_words(alloc: Global, now: &str, was: &str) -> Result<String, AllocError>
    ensures { IfOk result (λ words. string_bytes words ≡ spec.both_words now.now was.now) }
{
    let now_word = value_word(alloc, now)?;
    let was_word = value_word(alloc, was)?;
    if now_word.as_str() == was_word.as_str() {
        alike_words(alloc, now, was)
    } else {
        change_between(alloc, now_word.as_str(), was_word.as_str())
    }
}

fn change_between(alloc: Global, now: &str, was: &str) -> Result<String, AllocError>
    ensures { IfOk result (λ words. string_bytes words ≡ now.now ++ codes " was " ++ was.now) }
{
    format!(in alloc; "{now} was {was}")
}

// Of two values that are shown alike.
fn alike_words(alloc: Global, now: &str, was: &str) -> Result<String, AllocError>
    ensures { IfOk result (λ words. string_bytes words ≡ spec.alike_words now.now was.now) }
{
    if have_other_sums(alloc, now, was)? {
        bytes_words(alloc, now)
    } else {
        String::from_str(alloc, "has another value")
    }
}

fn bytes_words(alloc: Global, now: &str) -> Result<String, AllocError>
    ensures { IfOk result (λ words. string_bytes words ≡ spec.bytes_words now.now) }
{
    let word = value_word(alloc, now)?;
    format!(in alloc; "{word} has other bytes")
}

// A file or a folder is shown by its name, and another value by its text unless that is long.
fn value_word(alloc: Global, text: &str) -> Result<String, AllocError>
    ensures { IfOk result (λ word. string_bytes word ≡ spec.value_word text.now) }
{
    match field_of(alloc, text, "basename")? {
        Some(name) => visible(alloc, name.as_str()),
        None if text.len() > MOST_OF_VALUE => String::from_str(alloc, "a longer value"),
        None => visible(alloc, text),
    }
}

fn have_other_sums(alloc: Global, now: &str, was: &str) -> Result<bool, AllocError>
    ensures { IfOk result (λ others. others ≡ spec.have_other_sums now.now was.now) }
{
    let now = field_of(alloc, now, "checksum")?;
    let was = field_of(alloc, was, "checksum")?;
    match (now, was) {
        (Some(now), Some(was)) => Ok(now != was),
        _ => Ok(false),
    }
}

// The text under a name, if the JSON text is an object's that has one.
fn field_of(alloc: Global, text: &str, name: &str) -> Result<Option<Text>, AllocError>
    ensures { IfOk result (λ found. found ≡ spec.field_of text.now name.now) }
{
    match Json::from_str(alloc, text) {
        Ok(json) => text_under(alloc, &json, name),
        Err(error) if error.is_memory() => Err(AllocError),
        Err(_) => Ok(None),
    }
}

fn text_under(alloc: Global, json: &Json, name: &str) -> Result<Option<Text>, AllocError>
    ensures { IfOk result (λ found. found ≡ option_and_then as_str (get name.now (view json.now))) }
{
    match json.get(name) {
        Some(Json::String(text)) => Ok(Some(Text::from_text(alloc, text.as_str())?)),
        Some(Json::Null | Json::Bool(_) | Json::Number(_) | Json::Array(_) | Json::Object(_))
        | None => Ok(None),
    }
}

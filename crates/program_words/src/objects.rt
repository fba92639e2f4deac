//! The lines of `--progress=json`.
ghost use Rattle.std.specs.Prelude.{◌≡◌, IfOk, map, string_bytes};
ghost use Rattle.cwl_value.specs.declared.value.Value.TheVariants as values;
ghost use Rattle.program_words.specs.JobObjects as spec;

use crate::shown::visible_text;
use command_line::Launch;
use cwl_value::{Value, canonical_text};
use plain_data::{Items, Text};
use proc_host::ChildEnd;
use std::alloc::{AllocError, Global};

/// The words of a command as JSON text.
pub(crate) fn command_json(alloc: Global, launch: &Launch) -> Result<Text, AllocError>
    ensures { IfOk result (λ text. text ≡ spec.command_json launch.now) }
{
    let words = words_of(alloc, launch.words.as_slice())?;
    let text = canonical_text(alloc, &Value::of_items(Items::from_vec(words)))?;
    visible_text(alloc, &text)
}

fn words_of(alloc: Global, words: &[Text]) -> Result<Vec<Value>, AllocError>
    ensures { IfOk result (λ list. list.items ≡ map values.Text words.now) }
{
    let mut values = Vec::new(alloc);
    for word in words {
        let value = Value::Text(word.copied(alloc)?);
        values.push(value)?;
    }
    Ok(values)
}

/// The words that were kept of a command, or that there was no room for them.
pub(crate) fn words_json(kept: &Option<Text>) -> &str
    ensures { result.now ≡ spec.words_json kept.now }
{
    match kept {
        None => "null",
        Some(words) => words.as_str(),
    }
}

/// A job's command has been started.
pub(crate) fn start_object(
    alloc: Global,
    place: &Text,
    number: u64,
    command: &str,
) -> Result<String, AllocError>
    ensures { IfOk result (λ line. string_bytes line
        ≡ spec.start_object place.now number command.now) }
{
    format!(in alloc;
        "{{\"event\":\"start\",\"place\":{place},\"number\":{number},\"command\":{command}}}"
    )
}

/// It has ended.
pub(crate) fn end_object(alloc: Global, place: &Text, end: &ChildEnd) -> Result<String, AllocError>
    ensures { IfOk result (λ line. string_bytes line ≡ spec.end_object place.now end.now) }
{
    let (number, millis) = (end.ticket, end.millis);
    let code = code_json(alloc, end.code)?;
    format!(in alloc;
        "{{\"event\":\"end\",\"place\":{place},\"number\":{number},\"code\":{code},\"milliseconds\":{millis}}}"
    )
}

fn code_json(alloc: Global, code: Option<i32>) -> Result<String, AllocError>
    ensures { IfOk result (λ text. string_bytes text ≡ spec.code_json code) }
{
    match code {
        Some(code) => format!(in alloc; "{code}"),
        None => String::from_str(alloc, "null"),
    }
}

/// The files of a job were fetched.
pub(crate) fn load_object(alloc: Global, place: &Text) -> Result<String, AllocError>
    ensures { IfOk result (λ line. string_bytes line ≡ spec.load_object place.now) }
{
    format!(in alloc; "{{\"event\":\"load\",\"place\":{place}}}")
}

/// A run has succeeded without a job.
pub(crate) fn omit_object(alloc: Global, place: &Text) -> Result<String, AllocError>
    ensures { IfOk result (λ line. string_bytes line ≡ spec.omit_object place.now) }
{
    format!(in alloc; "{{\"event\":\"omit\",\"place\":{place}}}")
}

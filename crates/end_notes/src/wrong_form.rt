//! What a document has in the place of another form.

use crate::advice::line;
use document_table::{Way, plain_id};
use program_words::cut;
use serde_json::Value;
use std::alloc::{AllocError, Global};
use std::mem;

/// Returns a line on the value at a place of a document, whose steps are given, the last one first; none if it has no such place.
pub fn form_lines(
    alloc: Global,
    document: &[u8],
    outward: &[Way],
) -> Result<Vec<String>, AllocError> {
    match Value::from_slice(alloc, document) {
        Ok(document) => {
            let lines = match value_at(&document, outward) {
                Some(value) => value_lines(alloc, value, outward),
                None => Ok(Vec::new(alloc)),
            };
            mem::drop(document);
            lines
        }
        Err(_) => Ok(Vec::new(alloc)),
    }
}

/// The value at a place of a document, whose steps are given, the last one first.
pub fn value_at<'a>(document: &'a Value, outward: &[Way]) -> Option<&'a Value> {
    let mut value = document;
    for way in outward.iter().rev() {
        value = step(value, way)?;
    }
    Some(value)
}

fn step<'a>(value: &'a Value, way: &Way) -> Option<&'a Value> {
    match way {
        Way::Under(name) => value.get(name.as_str()),
        Way::At(index) => value.get(*index),
    }
}

fn value_lines(alloc: Global, value: &Value, outward: &[Way]) -> Result<Vec<String>, AllocError> {
    match outward {
        [Way::Under(name), Way::Under(above), ..] if is_bad_id(name.as_str(), above.as_str()) => {
            line(
                alloc,
                format!(in alloc; "the name is `{name}`{ID}")?.as_str(),
            )
        }
        _ => {
            let wanted = wanted_of(value, outward);
            line(alloc, words_of(alloc, value, wanted)?.as_str())
        }
    }
}

// Whether a name can't be an id, in a place of ids.
fn is_bad_id(name: &str, above: &str) -> bool {
    let id = plain_id(name);
    match above {
        "inputs" | "outputs" | "in" => is_bad(id),
        "steps" => is_bad(id) || id.contains('['),
        _ => false,
    }
}

fn is_bad(id: &str) -> bool {
    id.is_empty() || id.contains('/') || id.contains('#')
}

// What a value has to be: of some values the words are what is wrong with them.
fn wanted_of(value: &Value, outward: &[Way]) -> &'static str {
    match (value, outward) {
        (Value::Number(_), [_, inside @ ..]) if is_in_default(inside) => WHOLE,
        (Value::Bool(true), [Way::Under(name), ..]) if name.as_str() == "loadContents" => {
            ", and has to be `false`: only the inputs and outputs of tools have contents"
        }
        (Value::String(_), [Way::Under(name), ..]) if name.as_str() == "id" => ID,
        (Value::String(_), [Way::At(_), Way::Under(name), ..]) if name.as_str() == "out" => ID,
        _ => wanted_at(outward),
    }
}

fn is_in_default(outward: &[Way]) -> bool {
    outward.iter().any(|way| is_default(way))
}

fn is_default(way: &Way) -> bool {
    match way {
        Way::Under(name) => name.as_str() == "default",
        Way::At(_) => false,
    }
}

fn words_of(alloc: Global, value: &Value, wanted: &str) -> Result<String, AllocError> {
    match value.as_str() {
        Some(text) if text.contains("$(") || text.contains("${") => script_words(alloc, text),
        _ => {
            let json = value.to_string(alloc)?;
            let json = cut(alloc, json.as_str())?;
            format!(in alloc; "it is {json}{wanted}")
        }
    }
}

fn script_words(alloc: Global, text: &str) -> Result<String, AllocError> {
    let words = if text.contains('\\') {
        "a text with a reference takes no backslash, so that nothing can be kept from being one"
    } else {
        "JavaScript is not evaluated, and a reference is as `$(inputs.name)` or `$(inputs.name.path)`"
    };
    cut(
        alloc,
        format!(in alloc; "it is `{text}`: {words}")?.as_str(),
    )
}

// What the value at a place has to be, as far as the names that lead there show it; else nothing.
fn wanted_at(outward: &[Way]) -> &'static str {
    match outward {
        [Way::At(_), Way::Under(name), ..] => wanted_item(name.as_str()),
        [Way::Under(_), Way::Under(above), ..] if is_list_of_ids(above.as_str()) => {
            wanted_entry(above.as_str())
        }
        [Way::Under(name), ..] => wanted_field(name.as_str()),
        _ => "",
    }
}

// Whether the names below are ids.
fn is_list_of_ids(name: &str) -> bool {
    matches!(name, "inputs" | "outputs" | "in" | "steps" | "envDef")
}

// What stands below an id.
fn wanted_entry(above: &str) -> &'static str {
    match above {
        "inputs" | "outputs" => TYPE,
        "in" => SOURCE,
        "steps" => ", and has to be an object with `run`, `in` and `out`",
        _ => TEXT,
    }
}

// What an item of a list has to be.
fn wanted_item(name: &str) -> &'static str {
    match name {
        "arguments" => ", and has to be a text, or an object with `valueFrom`",
        "successCodes" | "temporaryFailCodes" | "permanentFailCodes" => INT,
        "type" | "items" => TYPE,
        "baseCommand" | "glob" | "scatter" | "source" | "outputSource" | "symbols" | "out" => TEXT,
        "secondaryFiles" =>
            ", and has to be a text as `.bai` or `^.bai`, or an object with `pattern`",
        "inputs" | "outputs" | "steps" | "in" => ", and has to be an object with an `id`",
        "requirements" | "hints" => ", and has to be an object with a `class`",
        _ => "",
    }
}

// What the value of a field has to be.
fn wanted_field(name: &str) -> &'static str {
    match name {
        "type" | "items" => TYPE,
        "baseCommand" | "glob" => ", and has to be a text, or a list of texts",
        "arguments" => ", and has to be a list of texts, and of objects with `valueFrom`",
        "inputs" | "outputs" | "steps" | "in" | "envDef" => {
            ", and has to be an object with a field for each name, or a list of objects with an `id`"
        }
        "out" => ", and has to be a list of names",
        "requirements" | "hints" => {
            ", and has to be an object with a field for each class, or a list of objects with a `class`"
        }
        "run" => ", and has to be the name of a document, or a process",
        "scatter" => ", and has to be the name of an input, or a list of names",
        "source" | "outputSource" => SOURCE,
        "position" => INT,
        "successCodes" | "temporaryFailCodes" | "permanentFailCodes" => {
            ", and has to be a list of whole numbers of 32 bits"
        }
        "default" => WHOLE,
        "secondaryFiles" => {
            ", and has to be a text as `.bai` or `^.bai`, an object with `pattern`, or a list of them"
        }
        _ => wanted_word(name),
    }
}

// The same of a field with a word or a text.
fn wanted_word(name: &str) -> &'static str {
    match name {
        "separate" | "loadContents" | "enableReuse" | "required" => {
            ", and has to be `true` or `false`"
        }
        "scatterMethod" => {
            ", and has to be `dotproduct`, `nested_crossproduct` or `flat_crossproduct`"
        }
        "linkMerge" => ", and has to be `merge_nested` or `merge_flattened`",
        "pickValue" => { ", and has to be `first_non_null`, `the_only_non_null` or `all_non_null`" }
        "id"
        | "prefix"
        | "itemSeparator"
        | "stdin"
        | "stdout"
        | "stderr"
        | "valueFrom"
        | "when"
        | "envName"
        | "envValue"
        | "outputEval"
        | "pattern"
        | "class" => TEXT,
        _ => "",
    }
}

const TYPE: &str =
    ", and has to be a type: `string`, `int`, `long`, `boolean`, `File`, `Directory`, `Any` or `null`, one with `[]` or `?` behind it, a list of types, or an object of `type` `array` or `enum`";

const SOURCE: &str = ", and has to be the name of an input, STEP/OUTPUT, or a list of those";

const ID: &str =
    ", and has to be a name that is not empty and has neither `/` nor `#` (that of a step no `[` either)";

const WHOLE: &str = ", and has to be JSON whose numbers are whole and have at most 64 bits";

const INT: &str = ", and has to be a whole number of 32 bits";

const TEXT: &str = ", and has to be a text";

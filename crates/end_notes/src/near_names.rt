//! The field that is meant when one is not known.

use crate::advice::line;
use crate::wrong_form::value_at;
use document_table::Way;
use serde_json::Value;
use std::alloc::{AllocError, Global};
use std::mem;
use strsim::levenshtein;

// The fields of each object of a document, as `document_table` has them.

const PACKED: &str = "cwlVersion $graph";

const TOOL: &str =
    "cwlVersion class id inputs outputs baseCommand arguments stdin stdout stderr requirements hints successCodes temporaryFailCodes permanentFailCodes";

const WORKFLOW: &str = "cwlVersion class id inputs outputs steps requirements hints";

const INPUT: &str = "id type default inputBinding loadContents secondaryFiles";

const TOOL_OUTPUT: &str = "id type outputBinding secondaryFiles";

const WORKFLOW_OUTPUT: &str = "id type outputSource linkMerge pickValue secondaryFiles";

const STEP: &str = "id in out run scatter scatterMethod when requirements hints";

const STEP_INPUT: &str = "id source linkMerge pickValue default valueFrom loadContents";

const STEP_OUTPUT: &str = "id";

const INPUT_BINDING: &str =
    "position prefix separate itemSeparator valueFrom shellQuote loadContents";

const ARGUMENT: &str = "position prefix separate itemSeparator valueFrom shellQuote";

const OUTPUT_BINDING: &str = "glob loadContents outputEval";

const ITEM_BINDING: &str = "prefix separate";

const ARRAY_TYPE: &str = "type items inputBinding";

const ENUM_TYPE: &str = "type symbols name";

const SECONDARY_FILE: &str = "pattern required";

const REQUIREMENT: &str = "class";

const ENV_VAR: &str = "class envDef";

const WORK_REUSE: &str = "class enableReuse";

const VARIABLE: &str = "envName envValue";

/// What each object may have beside its fields.
const READ_OVER: &str = "doc label format streamable intent";

/// How many letters a name may be off.
const MOST_EDITS: usize = 2;

/// The longest name that is looked at.
const MOST_BYTES: usize = 40;

/// How many names are shown.
const NAMES_SHOWN: usize = 20;

/// Returns a line on a field that is not known, at a place of a document whose steps are given, the last one first: which of the fields
/// of its object is likely meant, or else which there are.
pub fn near_lines(
    alloc: Global,
    document: &[u8],
    outward: &[Way],
) -> Result<Vec<String>, AllocError> {
    let [Way::Under(name), object @ ..] = outward else {
        return Ok(Vec::new(alloc));
    };
    match Value::from_slice(alloc, document) {
        Ok(document) => {
            let fields = fields_at(&document, object);
            mem::drop(document);
            lines_on(alloc, name.as_str(), fields)
        }
        Err(_) => Ok(Vec::new(alloc)),
    }
}

fn lines_on(alloc: Global, name: &str, fields: &'static str) -> Result<Vec<String>, AllocError> {
    match meant(alloc, name, fields)? {
        Some(field) => line(alloc, format!(in alloc; "is `{field}` meant?")?.as_str()),
        None if fields.is_empty() => Ok(Vec::new(alloc)),
        None => {
            let fields: Vec<&str> = fields.split(' ').collect(alloc)?;
            line(alloc, names_words(alloc, fields.as_slice())?.as_str())
        }
    }
}

/// Which of these names is likely meant, or else which there are.
pub fn choice_words(alloc: Global, name: &str, names: &[&str]) -> Result<String, AllocError> {
    match nearest(alloc, name, names)? {
        Some(near) => format!(in alloc; "is `{near}` meant?"),
        None => names_words(alloc, names),
    }
}

/// The first of these names.
pub fn names_words(alloc: Global, names: &[&str]) -> Result<String, AllocError> {
    if names.is_empty() {
        return String::from_str(alloc, "there are none");
    }
    let mut words = String::from_str(alloc, "there are")?;
    for name in names.iter().take(NAMES_SHOWN) {
        words.push_str(" `")?;
        words.push_str(name)?;
        words.push('`')?;
    }
    if names.len() > NAMES_SHOWN {
        words.push_str(" ..")?;
    }
    Ok(words)
}

// The nearest field, and else the nearest name that is read over.
fn meant(
    alloc: Global,
    name: &str,
    fields: &'static str,
) -> Result<Option<&'static str>, AllocError> {
    match nearest_field(alloc, name, fields)? {
        Some(field) => Ok(Some(field)),
        None => nearest_field(alloc, name, READ_OVER),
    }
}

fn nearest_field(
    alloc: Global,
    name: &str,
    fields: &'static str,
) -> Result<Option<&'static str>, AllocError> {
    let fields: Vec<&'static str> = fields.split(' ').collect(alloc)?;
    nearest(alloc, name, fields.as_slice())
}

/// The nearest of these names, and of several the first; none of a name that is long.
pub fn nearest<'a>(
    alloc: Global,
    name: &str,
    names: &[&'a str],
) -> Result<Option<&'a str>, AllocError> {
    let mut found = None;
    if name.len() > MOST_BYTES {
        return Ok(found);
    }
    // one more than the edits that a name may need: of a short one each letter counts
    let mut best = if name.len() > 3 { MOST_EDITS + 1 } else { 2 };
    for other in names {
        let edits = if other.len() > MOST_BYTES {
            MOST_BYTES
        } else {
            levenshtein(alloc, name, other)?
        };
        if edits < best {
            best = edits;
            found = Some(*other);
        }
    }
    Ok(found)
}

// ---- objects

// The fields of the object at a place whose steps are given, the last one first; none if it is not known.
fn fields_at(document: &Value, object: &[Way]) -> &'static str {
    match object {
        [] if document.get("$graph").is_some() => PACKED,
        [] => process_fields(Some(document)),
        [way, Way::Under(above), ..] if matches!(above.as_str(), "requirements" | "hints") => {
            requirement_fields(document, way, object)
        }
        [way, Way::Under(above), rest @ ..] => match entry_fields(document, above.as_str(), rest) {
            "" => fields_within(document, way, object),
            fields => fields,
        },
        [way, ..] => fields_within(document, way, object),
    }
}

fn process_fields(process: Option<&Value>) -> &'static str {
    match class_of(process) {
        Some("Workflow") => WORKFLOW,
        _ => TOOL,
    }
}

fn class_of(object: Option<&Value>) -> Option<&str> {
    object?.get("class")?.as_str()
}

// The fields of each object that stands in a field of this name.
fn entry_fields(document: &Value, above: &str, rest: &[Way]) -> &'static str {
    match above {
        "inputs" => INPUT,
        "outputs" => match class_of(value_at(document, rest)) {
            Some("Workflow") => WORKFLOW_OUTPUT,
            _ => TOOL_OUTPUT,
        },
        "steps" => STEP,
        "in" => STEP_INPUT,
        "out" => STEP_OUTPUT,
        "envDef" => VARIABLE,
        "arguments" => ARGUMENT,
        "secondaryFiles" => SECONDARY_FILE,
        _ => "",
    }
}

// A requirement has its class in it, or is under it.
fn requirement_fields(document: &Value, way: &Way, object: &[Way]) -> &'static str {
    let class = match way {
        Way::Under(class) => Some(class.as_str()),
        Way::At(_) => class_of(value_at(document, object)),
    };
    match class {
        Some("EnvVarRequirement") => ENV_VAR,
        Some("WorkReuse") => WORK_REUSE,
        _ => REQUIREMENT,
    }
}

// The fields of an object by the last step to it that has a name.
fn fields_within(document: &Value, way: &Way, object: &[Way]) -> &'static str {
    let name = match (way, object) {
        (Way::Under(name), _) => name.as_str(),
        (Way::At(_), [_, Way::Under(name), ..]) => name.as_str(),
        _ => "",
    };
    match name {
        "$graph" | "run" => process_fields(value_at(document, object)),
        "inputBinding" if is_in_type(object) => ITEM_BINDING,
        "inputBinding" => INPUT_BINDING,
        "outputBinding" => OUTPUT_BINDING,
        "secondaryFiles" => SECONDARY_FILE,
        "type" | "items" => type_fields(value_at(document, object)),
        _ => "",
    }
}

// Whether what a place is in is a type.
fn is_in_type(object: &[Way]) -> bool {
    match object {
        [_, Way::Under(above), ..] => is_type(above.as_str()),
        [_, Way::At(_), Way::Under(above), ..] => is_type(above.as_str()),
        _ => false,
    }
}

fn is_type(name: &str) -> bool {
    name == "type" || name == "items"
}

fn type_fields(kind: Option<&Value>) -> &'static str {
    match named_type(kind) {
        Some("enum") => ENUM_TYPE,
        _ => ARRAY_TYPE,
    }
}

fn named_type(kind: Option<&Value>) -> Option<&str> {
    kind?.get("type")?.as_str()
}

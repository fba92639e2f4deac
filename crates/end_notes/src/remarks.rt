//! What a document asks for that is not done, and what an input object has that is not read.

use crate::link_places::has_input;
use plain_data::Text;
use process_machine::World;
use run_facts::repeated_keys;
use run_given::{Given, bytes_of_file, path_at};
use serde_json::{Map, Value};
use std::alloc::{AllocError, Global};
use std::{mem, str};

/// The most documents that are looked at.
const MOST_DOCUMENTS: usize = 64;

/// How many names of the input object are shown.
const MOST_NAMES: usize = 10;

/// Hints of the standard that are ignored, though they change what a tool does, each with what is so without it.
static IGNORED: [(&str, &str); 10] = [
    ("DockerRequirement", "the command runs without a container"),
    (
        "SoftwareRequirement",
        "a program is looked for in PATH alone",
    ),
    (
        "InitialWorkDirRequirement",
        "no file is put into the folder of the job",
    ),
    ("ShellCommandRequirement", "no shell reads the words"),
    ("ResourceRequirement", "nothing is reserved"),
    ("ToolTimeLimit", "there is no limit"),
    ("NetworkAccess", "the command may use the network"),
    ("InplaceUpdateRequirement", "inputs are copies"),
    ("LoadListingRequirement", "listings are whole"),
    ("InlineJavascriptRequirement", "no JavaScript is evaluated"),
];

/// What is said of a hint that a launcher is told, if there is none.
const RESERVED: &str = "the hint `ResourceRequirement` is ignored: nothing is reserved";

const FORMAT: &str = "`format` is ignored: a file is taken whatever its format is";

const SCRIPT_CLASS: &str = "InlineJavascriptRequirement";

const SCRIPTS: &str = "`InlineJavascriptRequirement` changes nothing: no JavaScript is evaluated";

const UNQUOTED: &str = "`shellQuote: false` is ignored: no shell reads the words";

/// What is found in documents: lines, each once, and the names of the documents that were met.
#[derive(Drop)]
struct Findings {
    lines: Vec<String>,
    files: Vec<String>,
}

/// Adds lines on the names of the input object that are no input of the process, on what is ignored in its document, and in those that
/// its steps name, and on the keys that are twice in an object there or in the file of the inputs.
pub fn add_remarks<R: World>(
    rt: &R,
    given: &Given,
    document: &str,
    inputs: Option<&str>,
    lines: &mut Vec<String>,
) -> Result<(), AllocError> {
    add_names(rt.alloc(), given, lines)?;
    let Findings { lines: more, files } = findings_in(rt, document, inputs)?;
    mem::drop(files);
    let is_told = !given.hints.is_empty();
    for line in more {
        if !(is_told && line.as_str() == RESERVED) {
            lines.push(line)?;
        }
    }
    Ok(())
}

// What is found in a document, and in those that lead on from it.
fn findings_in<R: World>(
    rt: &R,
    document: &str,
    inputs: Option<&str>,
) -> Result<Findings, AllocError> {
    let mut found = Findings {
        lines: Vec::new(rt.alloc()),
        files: Vec::new(rt.alloc()),
    };
    found.files.push(String::from_str(rt.alloc(), document)?)?;
    for at in 0..MOST_DOCUMENTS {
        look_into(rt, at, &mut found)?;
    }
    if let Some(file) = inputs {
        if let Ok(bytes) = bytes_of_file(rt, file) {
            note_repeats(rt.alloc(), file, bytes.as_slice(), &mut found)?;
        }
    }
    Ok(found)
}

// ---- keys that are twice in one object, of which the last one counts

fn note_repeats(
    alloc: Global,
    file: &str,
    text: &[u8],
    found: &mut Findings,
) -> Result<(), AllocError> {
    let keys = repeated_keys(alloc, text)?;
    for key in keys.iter().take(MOST_NAMES) {
        note_repeat(alloc, file, key, found)?;
    }
    Ok(())
}

fn note_repeat(
    alloc: Global,
    file: &str,
    key: &[u8],
    found: &mut Findings,
) -> Result<(), AllocError> {
    match str::from_utf8(key) {
        Ok(key) => {
            let line = format!(in alloc;
                "the key `{key}` is twice in one object of {file}: the last one counts"
            )?;
            note(alloc, line.as_str(), found)
        }
        Err(_) => Ok(()),
    }
}

// ---- the input object

fn add_names(alloc: Global, given: &Given, lines: &mut Vec<String>) -> Result<(), AllocError> {
    let mut count: usize = 0;
    for (name, _) in given.inputs.as_slice() {
        if !has_input(&given.process, name) && count < MOST_NAMES {
            lines.push(format!(in alloc;
                "`{name}` of the input object is no input of the process"
            )?)?;
            count = count.saturating_add(1);
        }
    }
    Ok(())
}

// ---- documents

// Looks into the document at an index, if there is one that can be read.
fn look_into<R: World>(rt: &R, at: usize, found: &mut Findings) -> Result<(), AllocError> {
    let alloc = rt.alloc();
    let file = match found.files.get(at) {
        Some(file) => file.clone()?,
        None => return Ok(()),
    };
    let Ok(bytes) = bytes_of_file(rt, file.as_str()) else {
        return Ok(());
    };
    match Value::from_slice(alloc, bytes.as_slice()) {
        Ok(document) => {
            let looked = look(alloc, file.as_str(), &document, found);
            mem::drop(document);
            looked?;
            note_repeats(alloc, file.as_str(), bytes.as_slice(), found)
        }
        Err(_) => Ok(()),
    }
}

#[cycle(remarks)]
fn look(alloc: Global, file: &str, value: &Value, found: &mut Findings) -> Result<(), AllocError> {
    match value {
        Value::Array(items) => look_at_items(alloc, file, items, found),
        Value::Object(members) => look_at_members(alloc, file, members, found),
        Value::Null | Value::Bool(_) | Value::Number(_) | Value::String(_) => Ok(()),
    }
}

#[cycle(remarks)]
fn look_at_items(
    alloc: Global,
    file: &str,
    items: &Vec<Value>,
    found: &mut Findings,
) -> Result<(), AllocError> {
    for item in items {
        look(alloc, file, item, found)?;
    }
    Ok(())
}

#[cycle(remarks)]
fn look_at_members(
    alloc: Global,
    file: &str,
    members: &Map<String, Value>,
    found: &mut Findings,
) -> Result<(), AllocError> {
    for (name, value) in members.iter() {
        note_member(alloc, file, name.as_str(), value, found)?;
        if name.as_str() != "default" {
            look(alloc, file, value, found)?;
        }
    }
    Ok(())
}

fn note_member(
    alloc: Global,
    file: &str,
    name: &str,
    value: &Value,
    found: &mut Findings,
) -> Result<(), AllocError> {
    match (name, value) {
        ("hints", Value::Object(hints)) => note_classes(alloc, hints, found),
        ("hints", Value::Array(hints)) => note_hints(alloc, hints, found),
        ("requirements", Value::Object(required)) if required.get(SCRIPT_CLASS).is_some() => {
            note(alloc, SCRIPTS, found)
        }
        ("requirements", Value::Array(required)) => note_scripts(alloc, required, found),
        ("format", Value::String(_) | Value::Array(_)) => note(alloc, FORMAT, found),
        ("shellQuote", Value::Bool(false)) => note(alloc, UNQUOTED, found),
        ("run", Value::String(run)) => note_document(alloc, file, run.as_str(), found),
        _ => Ok(()),
    }
}

// A list of requirements, each with its class.
fn note_scripts(
    alloc: Global,
    required: &Vec<Value>,
    found: &mut Findings,
) -> Result<(), AllocError> {
    for requirement in required {
        if let Some(Value::String(class)) = requirement.get("class") {
            if class.as_str() == SCRIPT_CLASS {
                note(alloc, SCRIPTS, found)?;
            }
        }
    }
    Ok(())
}

// Hints by their class.
fn note_classes(
    alloc: Global,
    hints: &Map<String, Value>,
    found: &mut Findings,
) -> Result<(), AllocError> {
    for (class, _) in hints.iter() {
        note_class(alloc, class.as_str(), found)?;
    }
    Ok(())
}

// A list of hints, each with its class.
fn note_hints(alloc: Global, hints: &Vec<Value>, found: &mut Findings) -> Result<(), AllocError> {
    for hint in hints {
        if let Some(Value::String(class)) = hint.get("class") {
            note_class(alloc, class.as_str(), found)?;
        }
    }
    Ok(())
}

fn note_class(alloc: Global, class: &str, found: &mut Findings) -> Result<(), AllocError> {
    for (ignored, words) in IGNORED.iter() {
        if *ignored == class {
            let line = format!(in alloc; "the hint `{class}` is ignored: {words}")?;
            note(alloc, line.as_str(), found)?;
        }
    }
    Ok(())
}

// Keeps a line that is not there yet.
fn note(alloc: Global, line: &str, found: &mut Findings) -> Result<(), AllocError> {
    if !has(found.lines.as_slice(), line) {
        found.lines.push(String::from_str(alloc, line)?)?;
    }
    Ok(())
}

fn has(texts: &[String], text: &str) -> bool {
    texts.iter().any(|other| other.as_str() == text)
}

// Keeps the document that a step of this file names, if it is not there yet.
fn note_document(
    alloc: Global,
    file: &str,
    run: &str,
    found: &mut Findings,
) -> Result<(), AllocError> {
    let name = match run.split_once('#') {
        Some((name, _)) => name,
        None => run,
    };
    if name.is_empty() || found.files.len() >= MOST_DOCUMENTS {
        return Ok(());
    }
    let path = path_of_run(alloc, file, name)?;
    if !has(found.files.as_slice(), path.as_str()) {
        found.files.push(path)?;
    }
    Ok(())
}

// The path of a document that a file names: by a URL of its own, or by a relative one, which may have percent signs.
fn path_of_run(alloc: Global, file: &str, name: &str) -> Result<String, AllocError> {
    if name.starts_with("file:") {
        return Ok(path_at_url(alloc, name)?.into_string());
    }
    if !name.contains('%') || name.contains("..") {
        return path_from(alloc, file, name);
    }
    let url = format!(in alloc; "file:///{name}")?;
    let path = path_at_url(alloc, url.as_str())?;
    match path.as_str().strip_prefix('/') {
        Some(decoded) if !name.starts_with('/') => path_from(alloc, file, decoded),
        _ => path_from(alloc, file, path.as_str()),
    }
}

// The path that a URL names; the URL itself if it names none.
fn path_at_url(alloc: Global, url: &str) -> Result<Text, AllocError> {
    let url = Text::from_text(alloc, url)?;
    match path_at(alloc, &url)? {
        Some(path) => Ok(path),
        None => Ok(url),
    }
}

// The path of a name in the folder of a file.
fn path_from(alloc: Global, file: &str, name: &str) -> Result<String, AllocError> {
    match file.rfind('/') {
        Some(at) if !name.starts_with('/') => {
            let folder = &file[..at];
            format!(in alloc; "{folder}/{name}")
        }
        _ => String::from_str(alloc, name),
    }
}

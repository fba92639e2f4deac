//! Types and values in words.
ghost use Rattle.std.specs.Prelude.{◌≡◌, option_copied};
ghost use Rattle.run_facts.specs.Entries.{entry_of};

use cwl_process::{InputType, Tool};
use cwl_types::{MemberType, PlainType};
use cwl_value::Value;
use document_links::Process;
use plain_data::{Items, Text};
use std::alloc::{AllocError, Global};

/// The type of an input of a process in words, where the process has one of this name.
pub fn input_type(
    alloc: Global,
    process: &Process,
    input: &str,
) -> Result<Option<String>, AllocError> {
    match process {
        Process::Tool(tool) => tool_input_type(alloc, tool, input),
        Process::Workflow(workflow) => {
            match find_in(workflow.inputs.as_slice(), input) {
                Some(found) => Ok(Some(type_words(alloc, &found.kind)?)),
                None => Ok(None),
            }
        }
    }
}

fn tool_input_type(alloc: Global, tool: &Tool, input: &str) -> Result<Option<String>, AllocError> {
    match find_in(tool.inputs.as_slice(), input) {
        Some(found) => match &found.kind {
            InputType::Stdin => Ok(Some(String::from_str(alloc, "File")?)),
            InputType::Members(members) => Ok(Some(type_words(alloc, members)?)),
        },
        None => Ok(None),
    }
}

/// The entry of this name.
pub fn find_in<'a, T>(entries: &'a [(Text, T)], name: &str) -> Option<&'a T>
    ensures { option_copied result ≡ entry_of name.now entries.now }
{
    for (other, entry) in entries {
        if other.as_str() == name {
            return Some(entry);
        }
    }
    None
}

/// A type as a document writes it, its members joined by `or`.
#[cycle(types)]
pub fn type_words(alloc: Global, members: &Items<MemberType>) -> Result<String, AllocError> {
    let mut words = String::new(alloc);
    for member in members.as_slice() {
        if !words.is_empty() {
            words.push_str(" or ")?;
        }
        let word = member_words(alloc, member)?;
        words.push_str(word.as_str())?;
    }
    Ok(words)
}

#[cycle(types)]
fn member_words(alloc: Global, member: &MemberType) -> Result<String, AllocError> {
    match member {
        MemberType::Plain(kind) => String::from_str(alloc, plain_word(*kind)),
        MemberType::Array(array) => {
            let items = type_words(alloc, &array.items)?;
            format!(in alloc; "a list of {items}")
        }
        MemberType::Enum(symbols) => enum_words(alloc, symbols.as_slice()),
    }
}

fn plain_word(kind: PlainType) -> &'static str {
    match kind {
        PlainType::Null => "null",
        PlainType::Boolean => "boolean",
        PlainType::Int => "int",
        PlainType::Long => "long",
        PlainType::Text => "string",
        PlainType::File => "File",
        PlainType::Directory => "Directory",
        PlainType::Any => "Any",
    }
}

fn enum_words(alloc: Global, symbols: &[Text]) -> Result<String, AllocError> {
    let mut words = String::from_str(alloc, "one of")?;
    for symbol in symbols {
        let word = format!(in alloc; " `{symbol}`")?;
        words.push_str(word.as_str())?;
    }
    Ok(words)
}

/// The kind of a value, as in `it is a list`.
pub fn kind_of(value: &Value) -> &'static str {
    match value {
        Value::Null => "null",
        Value::Bool(_) => "a boolean",
        Value::Whole(_) => "a whole number",
        Value::Text(_) => "a string",
        Value::FileVal(_) => "a File",
        Value::DirVal(_) => "a Directory",
        Value::List(_) => "a list",
        Value::Fields(_) => "an object",
    }
}

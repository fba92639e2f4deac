//! What a text that is no JSON looks like.
ghost use Rattle.std.specs.Prelude.{◌≡◌};
ghost use Rattle.run_facts.specs.Looks as spec;

use serde_json::Value;
use std::alloc::{AllocError, Global};
use std::mem;

/// What bytes look like that are no JSON.
#[derive(Clone, Copy, Debug, Drop, PartialEq, Eq)]
pub enum Look {
    /// There is none but blanks.
    Blank,
    /// They begin with a byte order mark.
    Marked,
    /// They begin with `#!`.
    Script,
    /// As JSON that has an error: they begin with a brace or a bracket.
    Braced,
    /// As YAML: they have a colon.
    Yaml,
    Other,
}

/// What bytes look like.
pub fn look_of(bytes: &[u8]) -> Look
    ensures { result ≡ spec.look_of bytes.now }
{
    if bytes.starts_with(b"\xef\xbb\xbf") {
        return Look::Marked;
    }
    if bytes.starts_with(b"#!") {
        return Look::Script;
    }
    match first_mark(bytes) {
        None => Look::Blank,
        Some(b'{' | b'[') => Look::Braced,
        Some(_) => look_of_words(bytes),
    }
}

// The first byte that is no blank.
fn first_mark(bytes: &[u8]) -> Option<u8>
    ensures { result ≡ spec.first_mark bytes.now }
{
    bytes.iter().copied().find(|byte| !is_blank(*byte))
}

fn is_blank(byte: u8) -> bool
    ensures { result ≡ spec.is_blank byte }
{
    matches!(byte, b' ' | b'\t' | b'\n' | b'\r')
}

fn look_of_words(bytes: &[u8]) -> Look
    ensures { result ≡ spec.look_of_words bytes.now }
{
    if bytes.contains(&b':') {
        Look::Yaml
    } else {
        Look::Other
    }
}

/// What is wrong with bytes that are no JSON, and what would do.
pub fn words_for(alloc: Global, bytes: &[u8]) -> Result<String, AllocError> {
    match look_of(bytes) {
        Look::Blank => String::from_str(alloc, "the file is empty"),
        Look::Marked => String::from_str(
            alloc,
            "it begins with a byte order mark, which JSON has not: its first three bytes have to go",
        ),
        Look::Script => {
            String::from_str(
                alloc,
                "its first line begins with `#!`: JSON has no such line",
            )
        }
        Look::Yaml => String::from_str(
            alloc,
            "this looks like YAML, and only JSON is read: `deparohi-import` makes JSON of it",
        ),
        Look::Braced | Look::Other => error_words(alloc, bytes),
    }
}

// What the reader of JSON says, with the line and the column.
fn error_words(alloc: Global, bytes: &[u8]) -> Result<String, AllocError> {
    match Value::from_slice(alloc, bytes) {
        Ok(value) => {
            mem::drop(value);
            String::from_str(alloc, "it nests too deep")
        }
        Err(error) => format!(in alloc; "{error}"),
    }
}

//! What children write to standard error, and the last of it.

use crate::heads::first_bytes;
use crate::layout::joined;
use crate::trouble::Trouble;
use crate::world::World;
use command_line::Launch;
use plain_data::Text;
use std::alloc::{AllocError, Global};
use std::io::{Read, Seek, SeekFrom};
use std::{fs, mem};

/// The most bytes, and the most lines, that are shown of a file.
const MOST_BYTES: u64 = 4_096;

const MOST_LINES: usize = 20;

/// The file that takes the messages of a launch: the one that it names in its folder, or else the file `stderr` beside its folder
/// `out`. Without either there is none.
pub fn messages_file(alloc: Global, launch: &Launch) -> Result<Option<Text>, AllocError> {
    let folder = launch.dir.as_str();
    let path = match (&launch.stderr, folder.strip_suffix("/out")) {
        (Some(name), _) => joined(alloc, folder, name.as_str())?,
        (None, Some(job)) => joined(alloc, job, "stderr")?,
        (None, None) => return Ok(None),
    };
    Ok(Some(Text::from_string(path)))
}

/// The last lines of a file, at most 20 of its last 4,096 bytes, each behind a line end and two spaces.
///
/// A control character is shown as `\t` or by its code, as `\x1b`, and so is each byte that is no UTF-8. Nothing is told of a file that is
/// not there or can't be read, nor where memory runs out.
pub fn last_lines<R: World>(rt: &R, path: &str) -> Option<String> {
    let bytes = last_bytes(rt, path).ok()?;
    shown(rt.alloc(), bytes.as_slice()).ok()
}

fn last_bytes<R: World>(rt: &R, path: &str) -> Result<Vec<u8>, Trouble> {
    let metadata = fs::metadata(rt, path)?;
    if !metadata.is_file() {
        return Err(Trouble::Failed);
    }
    let start = metadata.len().saturating_sub(MOST_BYTES);
    let mut reader = fs::open(rt, path)?;
    let bytes = bytes_from(rt.alloc(), &mut reader, start);
    mem::drop(reader);
    bytes
}

// The bytes from a place on; a line that began before it is left out.
fn bytes_from<F: Read + Seek>(
    alloc: Global,
    reader: &mut F,
    start: u64,
) -> Result<Vec<u8>, Trouble> {
    reader.seek(SeekFrom::Start(start))?;
    let bytes = first_bytes(alloc, reader, MOST_BYTES)?;
    if start == 0 {
        return Ok(bytes);
    }
    let whole = Vec::from_slice(alloc, past_first_line(bytes.as_slice()));
    mem::drop(bytes);
    Ok(whole?)
}

// What is behind the first line end; all where there is none.
fn past_first_line(bytes: &[u8]) -> &[u8] {
    match bytes.iter().position(|byte| *byte == b'\n') {
        Some(index) => &bytes[index + 1..],
        None => bytes,
    }
}

fn shown(alloc: Global, bytes: &[u8]) -> Result<String, AllocError> {
    let lines = lines_of(alloc, bytes)?;
    let first = lines.len().saturating_sub(MOST_LINES);
    let mut text = String::new(alloc);
    for line in &lines[first..] {
        text.push_str("\n  ")?;
        add_shown(alloc, &mut text, line)?;
    }
    Ok(text)
}

// The lines of a text. A line end at its end begins no line, and no text has none.
fn lines_of(alloc: Global, bytes: &[u8]) -> Result<Vec<&[u8]>, AllocError> {
    let mut lines = Vec::new(alloc);
    if bytes.is_empty() {
        return Ok(lines);
    }
    for line in bytes
        .strip_suffix(b"\n")
        .unwrap_or(bytes)
        .split(is_line_end)
    {
        lines.push(line)?;
    }
    Ok(lines)
}

fn is_line_end(byte: &u8) -> bool {
    *byte == b'\n'
}

/// A line as it is shown: a control character as `\t` or by its code, as `\x1b`, and so each byte that is no UTF-8.
pub fn shown_line(alloc: Global, line: &[u8]) -> Result<String, AllocError> {
    let mut text = String::new(alloc);
    add_shown(alloc, &mut text, line)?;
    Ok(text)
}

fn add_shown(alloc: Global, text: &mut String, line: &[u8]) -> Result<(), AllocError> {
    for chunk in line.utf8_chunks() {
        add_chars(alloc, text, chunk.valid())?;
        add_bytes(alloc, text, chunk.invalid())?;
    }
    Ok(())
}

fn add_chars(alloc: Global, text: &mut String, chars: &str) -> Result<(), AllocError> {
    for c in chars.chars() {
        add_char(alloc, text, c)?;
    }
    Ok(())
}

fn add_char(alloc: Global, text: &mut String, c: char) -> Result<(), AllocError> {
    if c == '\t' {
        return text.push_str("\\t");
    }
    // A control character is below 0xa0.
    match u8::try_from(c as u32) {
        Ok(byte) if c.is_control() => add_byte(alloc, text, byte),
        _ => text.push(c),
    }
}

fn add_bytes(alloc: Global, text: &mut String, bytes: &[u8]) -> Result<(), AllocError> {
    for byte in bytes {
        add_byte(alloc, text, *byte)?;
    }
    Ok(())
}

fn add_byte(alloc: Global, text: &mut String, byte: u8) -> Result<(), AllocError> {
    let code = format!(in alloc; "\\x{byte:02x}")?;
    text.push_str(code.as_str())
}

//! Standard output, on a terminal and elsewhere.

use program_words::visible;
use std::alloc::Global;
use std::io::Write;
use std::{io, str};

/// A writer that hands on each byte, but to a terminal no character that this would take for a command, or that turns the direction of
/// writing: in its place stands its code, as `\u009b`, by which JSON has the same text.
#[derive(Drop)]
pub struct StandardOutput<W: Write + Drop> {
    alloc: Global,
    out: W,
    is_terminal: bool,
}

impl<W: Write + Drop> StandardOutput<W> {
    pub fn new(alloc: Global, out: W, is_terminal: bool) -> StandardOutput<W> {
        StandardOutput {
            alloc,
            out,
            is_terminal,
        }
    }
}

impl<W: Write + Drop> Write for StandardOutput<W> {
    fn write(&mut self, bytes: &[u8]) -> io::Result<usize> {
        if self.is_terminal {
            if let Ok(text) = str::from_utf8(bytes) {
                show(self.alloc, text, &mut self.out)?;
                return Ok(bytes.len());
            }
        }
        self.out.write(bytes)
    }

    fn flush(&mut self) -> io::Result<()> {
        self.out.flush()
    }
}

// Writes the lines of a text as they are shown.
fn show<W: Write>(alloc: Global, text: &str, out: &mut W) -> io::Result<()> {
    for (index, line) in text.split('\n').enumerate() {
        if index > 0 {
            out.write_all(b"\n")?;
        }
        out.write_all(visible(alloc, line)?.as_bytes())?;
    }
    Ok(())
}

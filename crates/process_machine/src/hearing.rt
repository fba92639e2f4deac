//! What children write to standard error, handed on as it comes.
ghost use Rattle.std.specs.Prelude.{◌≤◌, length};

use crate::heads::first_bytes;
use crate::trouble::Trouble;
use std::alloc::Global;
use std::io::{Read, Seek, SeekFrom};
use std::mem;

/// The most bytes of a line that are handed on at once.
const MOST_OF_LINE: usize = 4_096;

/// Takes what children write to standard error.
pub trait Hear {
    /// Takes a line of the child of a ticket, without its line feed. Of a line that has more than 4,096 bytes each 4,096 are a line of
    /// their own.
    fn hear(&mut self, ticket: u64, line: &[u8]);
}

/// Hears nothing.
#[derive(Clone, Copy, Debug)]
pub struct Deaf;

impl Hear for Deaf {
    fn hear(&mut self, _ticket: u64, _line: &[u8]) {}
}

/// The file of a child's messages.
#[derive(Drop)]
pub(crate) struct Messages<F> {
    file: F,
    // how many of its bytes were handed on
    taken: u64,
}

impl<F: Read + Seek> Messages<F> {
    /// A file of which nothing was handed on.
    pub(crate) fn new(file: F) -> Messages<F> {
        Messages { file, taken: 0 }
    }

    /// Hands on the lines that are new, and what stands behind the last line feed only where nothing more is to come.
    pub(crate) fn hand_on<H: Hear>(
        &mut self,
        alloc: Global,
        ticket: u64,
        is_last: bool,
        hearer: &mut H,
    ) -> Result<(), Trouble> {
        let end = self.file.seek(SeekFrom::End(0))?;
        if end < self.taken {
            // The child has emptied the file, and begun anew.
            self.taken = 0;
        }
        // Each step hands on a byte at least, or is the last.
        for _ in self.taken..end {
            let count = self.hand_on_block(alloc, ticket, is_last, hearer)?;
            if count == 0 || self.taken >= end {
                return Ok(());
            }
        }
        Ok(())
    }

    // Hands on lines of the next bytes, and tells how many bytes these are.
    fn hand_on_block<H: Hear>(
        &mut self,
        alloc: Global,
        ticket: u64,
        is_last: bool,
        hearer: &mut H,
    ) -> Result<usize, Trouble> {
        self.file.seek(SeekFrom::Start(self.taken))?;
        let bytes = first_bytes(alloc, &mut self.file, MOST_OF_LINE as u64 + 1)?;
        let count = whole_length(bytes.as_slice(), is_last);
        hear_lines(&bytes[..count], ticket, hearer);
        self.taken = self.taken.saturating_add(count as u64);
        mem::drop(bytes);
        Ok(count)
    }
}

// How many of these bytes are handed on: those up to the last line feed. Where there is none, as many as a line may have, and fewer
// only where nothing more is to come.
fn whole_length(bytes: &[u8], is_last: bool) -> usize
    ensures { result ≤ length bytes.now }
{
    match bytes.iter().rposition(|byte| *byte == b'\n') {
        Some(index) => index + 1,
        None if bytes.len() > MOST_OF_LINE => MOST_OF_LINE,
        None if is_last => bytes.len(),
        None => 0,
    }
}

fn hear_lines<H: Hear>(bytes: &[u8], ticket: u64, hearer: &mut H) {
    if bytes.is_empty() {
        return;
    }
    for line in bytes
        .strip_suffix(b"\n")
        .unwrap_or(bytes)
        .split(|byte| *byte == b'\n')
    {
        hearer.hear(ticket, line);
    }
}

//! Keys that are twice in one object of a JSON text: the reader of JSON takes the last of them, and says nothing.

use std::alloc::{AllocError, Global};
use std::collections::BTreeSet;

/// Where a walk over the bytes of a JSON text is.
#[derive(Drop)]
struct Walk<'t> {
    /// Where the text between quotes began that the walk is in, and whether its next byte is escaped.
    from: Option<usize>,
    is_escaped: bool,
    /// The objects and lists that are open, by their numbers, and whether each is an object.
    open: Vec<(usize, bool)>,
    opened: usize,
    /// Whether a text that begins is a key.
    is_key_next: bool,
    /// The keys that were met, each with its object's number.
    met: BTreeSet<(usize, &'t [u8])>,
    twice: Vec<&'t [u8]>,
}

/// Returns the keys that are twice in one object, as they are written, in the order of their second places. The text has to be JSON;
/// of another text any keys may be returned.
pub fn repeated_keys(alloc: Global, text: &[u8]) -> Result<Vec<&[u8]>, AllocError> {
    let mut walk = Walk {
        from: None,
        is_escaped: false,
        open: Vec::new(alloc),
        opened: 0,
        is_key_next: false,
        met: BTreeSet::new(alloc),
        twice: Vec::new(alloc),
    };
    for (at, byte) in text.iter().copied().enumerate() {
        walk.step(text, at, byte)?;
    }
    Ok(walk.twice)
}

impl<'t> Walk<'t> {
    fn step(&mut self, text: &'t [u8], at: usize, byte: u8) -> Result<(), AllocError> {
        match self.from {
            Some(from) => self.step_in_text(text, from, at, byte),
            None => self.step_between(at, byte),
        }
    }

    fn step_in_text(
        &mut self,
        text: &'t [u8],
        from: usize,
        at: usize,
        byte: u8,
    ) -> Result<(), AllocError> {
        if self.is_escaped {
            self.is_escaped = false;
        } else if byte == b'\\' {
            self.is_escaped = true;
        } else if byte == b'"' {
            self.from = None;
            return self.end_text(text.get(from..at));
        }
        Ok(())
    }

    fn step_between(&mut self, at: usize, byte: u8) -> Result<(), AllocError> {
        match byte {
            b'"' => self.from = Some(at.saturating_add(1)),
            b'{' => return self.begin(true),
            b'[' => return self.begin(false),
            b'}' | b']' => {
                self.open.pop();
                self.is_key_next = false;
            }
            b',' => self.is_key_next = matches!(self.open.last(), Some((_, true))),
            b':' => self.is_key_next = false,
            _ => {}
        }
        Ok(())
    }

    fn begin(&mut self, is_object: bool) -> Result<(), AllocError> {
        self.open.push((self.opened, is_object))?;
        self.opened = self.opened.saturating_add(1);
        self.is_key_next = is_object;
        Ok(())
    }

    fn end_text(&mut self, text: Option<&'t [u8]>) -> Result<(), AllocError> {
        if let (true, Some(text), Some((number, _))) = (self.is_key_next, text, self.open.last()) {
            let number = *number;
            if !self.met.insert((number, text))? {
                self.twice.push(text)?;
            }
        }
        Ok(())
    }
}

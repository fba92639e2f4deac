//! A table read from its lines.

use crate::stamp::{Moment, Stamp};
use crate::times::{Seen, Times};
use crate::writing::{ENDING, HEADING};
use plain_data::Text;
use std::alloc::{AllocError, Global};

/// How many digits a SHA-1 has in base 16.
const DIGITS: usize = 40;

impl Times {
    /// Reads a table from its lines. Returns none if a line isn't one of a table, or if the last one doesn't say how many there are.
    pub fn read(alloc: Global, text: &str) -> Result<Option<Times>, AllocError> {
        let Some((lines, count)) = parts_of(text) else {
            return Ok(None);
        };
        let mut times = Times::new(alloc);
        for line in lines.split_terminator('\n') {
            let Some((path, stamp, sum)) = seen_in(line) else {
                return Ok(None);
            };
            let path = String::from_str(alloc, path)?;
            let sum = Text::from_text(alloc, sum)?;
            let _older = times.seen.insert(path, Seen { stamp, sum })?;
        }
        let is_whole = times.seen.len() as u64 == count;
        Ok(if is_whole { Some(times) } else { None })
    }
}

// The lines of the files, and how many there should be.
fn parts_of(text: &str) -> Option<(&str, u64)> {
    let lines = text.strip_prefix(HEADING)?.strip_suffix('\n')?;
    let at = match lines.rfind('\n') {
        Some(at) => at.checked_add(1)?,
        None => 0,
    };
    let count = lines.get(at..)?.strip_prefix(ENDING)?;
    Some((lines.get(..at)?, count.parse::<u64>().ok()?))
}

// A path, with what was noted of the file there.
fn seen_in(line: &str) -> Option<(&str, Stamp, &str)> {
    let (sum, rest) = line.split_once(' ')?;
    if sum.len() != DIGITS || !sum.bytes().all(is_digit) {
        return None;
    }
    let (device, rest) = number_before(rest)?;
    let (number, rest) = number_before(rest)?;
    let (size, rest) = number_before(rest)?;
    let (modified, rest) = moment_before(rest)?;
    let (changed, path) = moment_before(rest)?;
    let stamp = Stamp {
        device,
        number,
        size,
        modified,
        changed,
    };
    Some((path, stamp, sum))
}

fn is_digit(byte: u8) -> bool {
    matches!(byte, b'0'..=b'9' | b'a'..=b'f')
}

fn moment_before(text: &str) -> Option<(Moment, &str)> {
    let (seconds, rest) = number_before(text)?;
    let (nanos, rest) = number_before(rest)?;
    Some((Moment { seconds, nanos }, rest))
}

// The number before the first space, and what stands behind that.
fn number_before(text: &str) -> Option<(u64, &str)> {
    let (number, rest) = text.split_once(' ')?;
    Some((number.parse::<u64>().ok()?, rest))
}

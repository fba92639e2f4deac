//! Sums of texts that are read in pieces.
use crate::files::code_of;
use crate::names::pair;
use file_values::{Watched, sum_of};
use std::alloc::Global;
use std::cmp::min;
use std::io::{Error, ErrorKind, Read, Result as IoResult};
use test_rows::{Row, RowFault, quoted};

// Gives a text in pieces, and is interrupted once it has been read so often.
#[derive(Drop)]
struct Pieces<'a> {
    rest: &'a [u8],
    piece: usize,
    reads_left: u64,
}

impl Read for Pieces<'_> {
    fn read(&mut self, block: &mut [u8]) -> IoResult<usize> {
        if self.reads_left == 0 {
            return Err(Error::from(ErrorKind::Interrupted));
        }
        self.reads_left -= 1;
        let count = min(self.piece, min(block.len(), self.rest.len()));
        block[..count].copy_from_slice(&self.rest[..count]);
        self.rest = &self.rest[count..];
        Ok(count)
    }
}

/// The sum and the size of a text, or of its `times` copies, that is read in pieces of so many bytes. The reader
/// fails once it was read as often as `reads` says.
pub(crate) fn answer(alloc: Global, row: &Row) -> Result<String, RowFault> {
    let text = row.text("text")?;
    let piece = row.natural("piece")? as usize;
    let times = row.natural("times").unwrap_or(1);
    let reads_left = row.natural("reads").unwrap_or(u64::MAX);
    let mut letters = String::new(alloc);
    for _ in 0..times {
        letters.push_str(text)?;
    }
    summed(
        alloc,
        Pieces {
            rest: letters.as_bytes(),
            piece,
            reads_left,
        },
    )
}

fn summed(alloc: Global, pieces: Pieces<'_>) -> Result<String, RowFault> {
    let mut reader = Watched::new(pieces);
    match sum_of(alloc, &mut reader) {
        Ok(sum) => {
            let text = quoted(alloc, sum.sum.as_str())?;
            Ok(format!(in alloc; "[{text},{}]", sum.size)?)
        }
        Err(error) => {
            let state = if reader.failed { "failed" } else { "whole" };
            pair(alloc, code_of(&error), state)
        }
    }
}

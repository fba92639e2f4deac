//! Copies that are summed on their way: each byte is read once.
ghost use Rattle.std.specs.Prelude.{◌≡◌, ◌<◌, ◌+◌, false, IfOk, OnOk, IsTrue, length};
ghost use Rattle.file_values.specs.Sum.{SumsAll, SumsHeld};
ghost use Rattle.process_machine.specs.Copied.{IsCopied};
ghost use Rattle.process_machine.specs.inner.Piece.{IsPiece};

use crate::trouble::{Hindrance, Trouble};
use file_values::FileSum;
use plain_data::Text;
use sha1::Sha1;
use staging::Found;
use std::alloc::{AllocError, Global};
use std::io;
use std::io::{Read, Write};

/// The bytes that one read asks for at most.
const BLOCK: usize = 65_536;

/// The bytes that one read asks for at least.
const LEAST: usize = 4_096;

/// Copies what a reader has left to a writer. It has to have the size and the sum of a file as it was found.
pub(crate) fn copy_as_found<F: Read, W: Write>(
    alloc: Global,
    file: &Found,
    reader: &mut F,
    writer: &mut W,
) -> Result<(), Trouble>
    ensures { OnOk result (IsCopied (F.remaining reader.old) (F.remaining reader.new)
        (W.contents writer.old) (W.contents writer.new)
        (record { sum = file.now.sum; size = file.now.size })) }
{
    let sum = copy_summed(alloc, file.size, reader, writer)?;
    if is_as_found(&sum, file) {
        Ok(())
    } else {
        Err(Trouble::Hindered(Hindrance::Changed))
    }
}

/// Whether a sum is that of a file as it was found.
pub(crate) fn is_as_found(sum: &FileSum, file: &Found) -> bool
    ensures { IsTrue result → sum.now ≡ record { sum = file.now.sum; size = file.now.size } }
{
    sum.size == file.size && sum.sum.equals(&file.sum)
}

/// Sums what a reader has left. It is best read if it is so many bytes.
pub(crate) fn sum_left<F: Read>(
    alloc: Global,
    reader: &mut F,
    size: u64,
) -> Result<FileSum, Trouble>
    ensures { IfOk result (SumsAll (F.remaining reader.old) (F.remaining reader.new)) }
{
    copy_summed(alloc, size, reader, &mut io::sink())
}

/// Copies what a reader has left to a writer, and tells it as a file of this name. It is best read if it is so many bytes.
pub(crate) fn copy_told<F: Read, W: Write>(
    alloc: Global,
    name: &Text,
    expected: u64,
    reader: &mut F,
    writer: &mut W,
) -> Result<Found, Trouble>
    ensures name { IfOk result (λ file. file.name ≡ name.now) }
    ensures kind { IfOk result (λ file. file.is_dir ≡ false) }
    ensures copied { IfOk result (λ file. IsCopied (F.remaining reader.old) (F.remaining reader.new)
        (W.contents writer.old) (W.contents writer.new)
        (record { sum = file.sum; size = file.size })) }
{
    let name = name.copied(alloc)?;
    let FileSum { sum, size } = copy_summed(alloc, expected, reader, writer)?;
    Ok(Found {
        name,
        is_dir: false,
        size,
        sum,
    })
}

// Reads to the end in blocks, writes each, and sums them. One block is enough if there are as many bytes as are expected.
fn copy_summed<F: Read, W: Write>(
    alloc: Global,
    expected: u64,
    reader: &mut F,
    writer: &mut W,
) -> Result<FileSum, Trouble>
    ensures { IfOk result (IsCopied (F.remaining reader.old) (F.remaining reader.new)
        (W.contents writer.old) (W.contents writer.new)) }
{
    let mut block = vec![in alloc; 0u8; block_length(expected)]?;
    let mut hasher = Sha1::new();
    let mut size: u64 = 0;
    for _ in 0..u64::MAX {
        let count = copy_piece(reader, writer, &mut hasher, &mut block)?;
        if count == 0 {
            return Ok(finished(alloc, hasher, size)?);
        }
        size = added(size, count)?;
    }
    Err(Trouble::Failed)
}

// The bytes that one read asks for, of what is expected to have so many: one more, if that is not too many. A file of which the system
// knows no length, or that grows, is not read in small pieces.
fn block_length(expected: u64) -> usize
    ensures { 0 < result }
{
    if expected < LEAST as u64 {
        LEAST
    } else if expected < BLOCK as u64 {
        expected as usize + 1
    } else {
        BLOCK
    }
}

// Reads into the block once, writes what was read, and puts it behind what the hasher holds.
fn copy_piece<F: Read, W: Write>(
    reader: &mut F,
    writer: &mut W,
    hasher: &mut Sha1,
    block: &mut [u8],
) -> Result<usize, Trouble>
    requires { 0 < length block.old }
    ensures { IfOk result (IsPiece (F.remaining reader.old) (F.remaining reader.new)
        (W.contents writer.old) (W.contents writer.new) hasher.old hasher.new) }
{
    let count = reader.read(block)?;
    let piece = &block[..count];
    writer.write_all(piece)?;
    hasher.update(piece);
    Ok(count)
}

// Both together, where that is a number of 64 bits.
fn added(size: u64, count: usize) -> Result<u64, Trouble>
    ensures { IfOk result (λ sum. sum ≡ size + count) }
{
    size.checked_add(count as u64).ok_or(Trouble::Failed)
}

// The sum of what the hasher holds, which are so many bytes.
fn finished(alloc: Global, hasher: Sha1, size: u64) -> Result<FileSum, AllocError>
    ensures { IfOk result (SumsHeld hasher size) }
{
    let sum = hex::encode(alloc, hasher.finalize())?;
    Ok(FileSum {
        sum: Text::from_string(sum),
        size,
    })
}

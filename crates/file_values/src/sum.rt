//! Sums of what readers give.
ghost use Rattle.std.specs.Prelude.{◌≡◌, ◌<◌, true, false, min, length, IfOk, IfErr, OnOk, OnErr};
ghost use Rattle.file_values.specs.Sum.{SumsAll, SumsHeld, SumRefuses, AddsPiece};
ghost use Rattle.file_values.specs.declared.refusal.FileError.TheVariants.{OutOfMemory};

use crate::reader::{ByteReader, ReadFailed};
use crate::refusal::{FileError, FileFault};
use plain_data::Text;
use sha1::Sha1;
use std::alloc::Global;

/// The sum of a file (CWL v1.2, File: `checksum` and `size`).
#[derive(Debug, Drop, PartialEq)]
pub struct FileSum {
    /// SHA-1 in lower case hexadecimal digits.
    pub sum: Text,
    /// In bytes.
    pub size: u64,
}

/// The bytes that one read asks for.
const BLOCK: usize = 65_536;

/// SHA-1 takes no message of 2^64 bits.
const MOST_BYTES: u64 = (1 << 61) - 1;

/// Reads to the end, and sums what was read.
///
/// This takes one block of 64 KB of memory, for every reader.
///
/// # Errors
///
/// `Read` where a read failed, or had failed before, and where 2^61 - 1 bytes were read before the end was met.
pub fn sum_of<S: ByteReader>(alloc: Global, reader: &mut S) -> Result<FileSum, FileError>
    ensures ok { IfOk result (SumsAll (S.left reader.old) (S.left reader.new)) }
    ensures whole { OnOk result ((S.failed reader.old ≡ false) × (S.failed reader.new ≡ false)) }
    ensures err { IfErr result (SumRefuses (S.left reader.old) (S.left reader.new)
        (S.failed reader.new)) }
{
    let mut block = vec![in alloc; 0u8; BLOCK]?;
    let mut hasher = Sha1::new();
    let mut size: u64 = 0;
    while size < MOST_BYTES {
        let count = add_piece(reader, &mut hasher, &mut block, MOST_BYTES - size)?;
        if count == 0 {
            return finished(alloc, hasher, size);
        }
        size += count as u64;
    }
    Err(FileError::Refused(FileFault::Read))
}

// The sum of what the hasher holds, which are so many bytes.
fn finished(alloc: Global, hasher: Sha1, size: u64) -> Result<FileSum, FileError>
    ensures ok { IfOk result (SumsHeld hasher size) }
    ensures err { IfErr result (λ e. e ≡ OutOfMemory) }
{
    let sum = hex::encode(alloc, hasher.finalize())?;
    Ok(FileSum {
        sum: Text::from_string(sum),
        size,
    })
}

// Reads into the block once, at most so many bytes, and puts what was read behind what the hasher holds.
fn add_piece<S: ByteReader>(
    reader: &mut S,
    hasher: &mut Sha1,
    block: &mut [u8],
    most: u64,
) -> Result<usize, ReadFailed>
    requires block { 0 < length block.old }
    requires most { 0 < most }
    ensures ok { IfOk result (AddsPiece (S.left reader.old) (S.left reader.new) hasher.old
        hasher.new (min (length block.old) most)) }
    ensures before { OnOk result (S.failed reader.old ≡ false) }
    ensures after { OnOk result (S.failed reader.new ≡ false) }
    ensures err { OnErr result (S.failed reader.new ≡ true) }
{
    let room = room_for(block.len(), most);
    let part = &mut block[..room];
    let count = reader.read_once(part)?;
    hasher.update(&part[..count]);
    Ok(count)
}

// As many bytes as both allow.
fn room_for(length: usize, most: u64) -> usize
    ensures { result ≡ min length most }
{
    if most < length as u64 {
        most as usize
    } else {
        length
    }
}

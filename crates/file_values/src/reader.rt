//! What sums are read from.
ghost use Rattle.std.specs.Prelude.{◌≡◌, ◌≤◌, true, false, length, IsErr, IfOk, OnOk, OnErr};
ghost use Rattle.std.specs.Io.KnownBytes.{ReadConsumes};

use std::io::Read;

/// The answer to a read that failed, and to each one after it.
#[derive(Clone, Copy, Debug, Drop, PartialEq, Eq)]
pub struct ReadFailed;

/// Gives bytes until it fails, and no more from then on.
pub trait ByteReader {
    ghost use Rattle.std.specs.Prelude.{ℕ, Bool, List, Option};

    /// The bytes to come, where a contract can name them.
    ghost left: { Self → Option (List ℕ) };

    /// Whether a read has failed.
    ghost failed: { Self → Bool };

    /// Reads into a block, once. After a failure nothing is read, and nothing changes.
    fn read_once(&mut self, block: &mut [u8]) -> Result<usize, ReadFailed>
        ensures fits { IfOk result (λ count. count ≤ length block.new) }
        ensures bytes { ReadConsumes (left self.old) (left self.new) result block.new }
        ensures before { OnOk result (failed self.old ≡ false) }
        ensures after { OnOk result (failed self.new ≡ false) }
        ensures err { OnErr result (failed self.new ≡ true) }
        ensures stays { failed self.old ≡ true → (IsErr result) × (self.new ≡ self.old) };
}

/// A reader that is read until it fails, and of which one can tell whether it has failed. An interrupted read is a
/// failure too.
#[derive(Drop)]
pub struct Watched<R> {
    pub reader: R,
    pub failed: bool,
}

impl<R> Watched<R> {
    pub fn new(reader: R) -> Watched<R>
        ensures reader { result.reader ≡ reader }
        ensures failed { result.failed ≡ false }
    {
        Watched {
            reader,
            failed: false,
        }
    }
}

impl<R: Read> ByteReader for Watched<R> {
    ghost left = { λ watched. R.remaining watched.reader };

    ghost failed = { λ watched. watched.failed };

    fn read_once(&mut self, block: &mut [u8]) -> Result<usize, ReadFailed> {
        if self.failed {
            return Err(ReadFailed);
        }
        match self.reader.read(block) {
            Ok(count) => Ok(count),
            Err(_) => {
                self.failed = true;
                Err(ReadFailed)
            }
        }
    }
}

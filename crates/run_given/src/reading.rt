//! The bytes of the files that words and documents name.
ghost use Rattle.std.specs.Prelude.{◌≤◌, length, OnOk, IfOk, IfErr};
ghost use Rattle.run_given.specs.Stops.{IsTrouble, IsCause, most_bytes};

use end_words::Unreadable;
use std::fs::Metadata;
use std::io::Read;
use std::rt::Files;
use std::{fs, io, mem};

/// The most bytes of a file that is read, and of all documents that one leads to: 64 MiB.
pub(crate) const MOST_BYTES: u64 = 67_108_864;

/// Why a file gives no bytes.
#[derive(Clone, Copy, Debug, PartialEq, Eq)]
pub enum NoBytes {
    Unreadable(Unreadable),
    OutOfMemory,
}

impl From<io::Error> for NoBytes {
    ghost from_gives = { λ _ trouble. IsTrouble trouble };

    fn from(error: io::Error) -> NoBytes {
        match error.kind() {
            io::ErrorKind::OutOfMemory => NoBytes::OutOfMemory,
            io::ErrorKind::NotFound => NoBytes::Unreadable(Unreadable::Absent),
            io::ErrorKind::PermissionDenied => NoBytes::Unreadable(Unreadable::Forbidden),
            io::ErrorKind::IsADirectory => NoBytes::Unreadable(Unreadable::IsFolder),
            _ => NoBytes::Unreadable(Unreadable::Other),
        }
    }
}

/// Reads a regular file of at most 64 MiB. What is none is never opened, so a pipe or a device is not waited for.
pub fn bytes_of_file<R: AllocGlobal + Files>(rt: &R, path: &str) -> Result<Vec<u8>, NoBytes>
    ensures ok { IfOk result (λ bytes. length bytes.items ≤ most_bytes) }
    ensures err { IfErr result IsTrouble }
{
    let metadata = fs::metadata(rt, path)?;
    looked_at(&metadata)?;
    let bytes = fs::read(rt, path)?;
    within(bytes)
}

/// Reads standard input, to its end or to 64 MiB.
pub fn bytes_of_input<R: AllocGlobal + Input>(rt: &R) -> Result<Vec<u8>, NoBytes>
    ensures ok { IfOk result (λ bytes. length bytes.items ≤ most_bytes) }
    ensures err { IfErr result IsTrouble }
{
    let mut bytes = Vec::new(rt.alloc());
    let mut reader = rt.reader().take(MOST_BYTES + 1);
    reader.read_to_end(&mut bytes)?;
    within(bytes)
}

fn looked_at(metadata: &Metadata) -> Result<(), NoBytes>
    ensures { IfErr result IsTrouble }
{
    if metadata.is_dir() {
        return Err(NoBytes::Unreadable(Unreadable::IsFolder));
    }
    if !metadata.is_file() {
        return Err(NoBytes::Unreadable(Unreadable::NoFile));
    }
    allowed(metadata.len())
}

fn allowed(size: u64) -> Result<(), NoBytes>
    ensures ok { OnOk result (size ≤ most_bytes) }
    ensures err { IfErr result IsTrouble }
{
    if size > MOST_BYTES {
        return Err(NoBytes::Unreadable(Unreadable::TooLong(size)));
    }
    Ok(())
}

// The bytes that were read, which may be more than there were before.
fn within(bytes: Vec<u8>) -> Result<Vec<u8>, NoBytes>
    ensures ok { IfOk result (λ bytes. length bytes.items ≤ most_bytes) }
    ensures err { IfErr result IsTrouble }
{
    match allowed(bytes.len() as u64) {
        Ok(()) => Ok(bytes),
        Err(trouble) => {
            mem::drop(bytes);
            Err(trouble)
        }
    }
}

/// Returns the cause, unless it says that a file is too long which is not.
pub fn sound(why: Unreadable) -> Unreadable
    ensures { IsCause result }
{
    match why {
        Unreadable::TooLong(size) if size <= MOST_BYTES => Unreadable::Other,
        why => why,
    }
}

ghost use Rattle.std.specs.Prelude.{◌≡◌};
ghost use Rattle.file_values.specs.Codes.{code_of};
ghost use Rattle.file_values.specs.declared.refusal.FileFault.TheVariants.{Read as ReadFault};
ghost use Rattle.file_values.specs.declared.refusal.FileError.TheVariants.{Refused, OutOfMemory};

use crate::reader::ReadFailed;
use std::alloc::{AllocError, AllocFailed};
use std::error::Error;
use std::fmt;

/// Why a file has no sum, or a File no path or name.
#[derive(Clone, Copy, Debug, Drop, PartialEq, Eq)]
pub enum FileFault {
    /// F1: the reader failed, or gave as many bytes as SHA-1 takes.
    Read,
    /// F2: a location that is no URL of a file on this machine, or a path that gives no name.
    NotAFileUrl,
    /// F3: a location whose path is not UTF-8 once its escapes are read.
    NotUtf8,
}

impl FileFault {
    /// The fault's short name, from `F1` to `F3`.
    pub fn code(&self) -> &'static str
        ensures { result.now ≡ code_of self.now }
    {
        match self {
            FileFault::Read => "F1",
            FileFault::NotAFileUrl => "F2",
            FileFault::NotUtf8 => "F3",
        }
    }
}

impl fmt::Display for FileFault {
    fn fmt<W: fmt::Write>(&self, f: &mut fmt::Formatter<W>) -> fmt::Result {
        f.write_str(match self {
            FileFault::Read => "the file was not read to its end",
            FileFault::NotAFileUrl =>
                "the location is not the URL of a file that has a name of its own",
            FileFault::NotUtf8 => "the path is not UTF-8",
        })
    }
}

impl Error for FileFault {}

/// What a call answers in place of a sum, a path or a value.
#[derive(Clone, Copy, Debug, Drop, PartialEq, Eq)]
pub enum FileError {
    /// There is none.
    Refused(FileFault),
    /// Nothing is said of the file.
    OutOfMemory,
}

impl fmt::Display for FileError {
    fn fmt<W: fmt::Write>(&self, f: &mut fmt::Formatter<W>) -> fmt::Result {
        match self {
            FileError::Refused(fault) => fault.fmt(f),
            FileError::OutOfMemory => f.write_str("out of memory"),
        }
    }
}

impl Error for FileError {}

impl From<ReadFailed> for FileError {
    ghost from_gives = { λ _ e. e ≡ Refused ReadFault };

    fn from(_failed: ReadFailed) -> FileError {
        FileError::Refused(FileFault::Read)
    }
}

impl From<AllocError> for FileError {
    ghost from_gives = { λ _ e. e ≡ OutOfMemory };

    fn from(_error: AllocError) -> FileError {
        FileError::OutOfMemory
    }
}

impl<T: Drop> From<AllocFailed<T>> for FileError {
    ghost from_gives = { λ _ e. e ≡ OutOfMemory };

    fn from(_error: AllocFailed<T>) -> FileError {
        FileError::OutOfMemory
    }
}

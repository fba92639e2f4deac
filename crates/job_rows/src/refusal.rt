ghost use Rattle.std.specs.Prelude.{◌≡◌};
ghost use Rattle.job_rows.specs.Log.{code_of};
ghost use Rattle.job_rows.specs.declared.refusal.RecordError.TheVariants.{OutOfMemory};

use std::alloc::{AllocError, AllocFailed};
use std::error::Error;
use std::fmt;

/// Why a record refuses a command.
#[derive(Clone, Copy, Debug, PartialEq, Eq)]
pub enum RecordRefusal {
    /// R1: the store holds no record, or the row does not read.
    NotARecord,
    /// R2: the record has another version.
    WrongVersion,
    /// R3: no row has this key, or for a use no archived row.
    NoRow,
    /// R4: the store refused.
    Store,
    /// R5: no number is left for the next use of an archive.
    UsesSpent,
}

impl RecordRefusal {
    /// The refusal's code in reports, `R1` to `R5`.
    pub fn code(self) -> &'static str
        ensures { result.now ≡ code_of self }
    {
        match self {
            RecordRefusal::NotARecord => "R1",
            RecordRefusal::WrongVersion => "R2",
            RecordRefusal::NoRow => "R3",
            RecordRefusal::Store => "R4",
            RecordRefusal::UsesSpent => "R5",
        }
    }

    fn words(self) -> &'static str {
        match self {
            RecordRefusal::NotARecord => "the record does not read",
            RecordRefusal::WrongVersion => "the record has another version",
            RecordRefusal::NoRow => "no row has this key",
            RecordRefusal::Store => "the store of the record refused",
            RecordRefusal::UsesSpent => "no number is left for the use of an archive",
        }
    }
}

impl fmt::Display for RecordRefusal {
    fn fmt<W: fmt::Write>(&self, f: &mut fmt::Formatter<W>) -> fmt::Result {
        write!(f, "{}: {}", self.code(), self.words())
    }
}

impl Error for RecordRefusal {}

/// Why a command was not done.
#[derive(Clone, Copy, Debug, PartialEq, Eq)]
pub enum RecordError {
    Refused(RecordRefusal),
    OutOfMemory,
}

impl fmt::Display for RecordError {
    fn fmt<W: fmt::Write>(&self, f: &mut fmt::Formatter<W>) -> fmt::Result {
        match self {
            RecordError::Refused(refusal) => write!(f, "{refusal}"),
            RecordError::OutOfMemory => f.write_str("out of memory"),
        }
    }
}

impl Error for RecordError {}

impl From<AllocError> for RecordError {
    ghost from_gives = { λ _ e. e ≡ OutOfMemory };

    fn from(_: AllocError) -> RecordError {
        RecordError::OutOfMemory
    }
}

impl<T: Drop> From<AllocFailed<T>> for RecordError {
    ghost from_gives = { λ _ e. e ≡ OutOfMemory };

    fn from(_: AllocFailed<T>) -> RecordError {
        RecordError::OutOfMemory
    }
}

ghost use Rattle.std.specs.Prelude.{◌≡◌};
ghost use Rattle.job_record.specs.Log.{told_of};
ghost use Rattle.job_record.specs.Rows.{error_of};

use job_rows::{RecordError, RecordRefusal};
use sqlite::Error as StoreError;
use std::alloc::{AllocError, AllocFailed};
use std::fmt;

/// Why a command of the record was refused.
#[derive(Clone, Copy, Debug, PartialEq, Eq)]
pub enum RecordFault {
    /// R1: the store holds no record, or a text in it does not read.
    NotARecord,
    /// R2: the record is of another version.
    WrongVersion,
    /// R3: no row has this key, or for a use no archived row.
    NoRow,
    /// R4: the store refused.
    Store(StoreError),
    /// R5: no number is left for the next use of an archive.
    UsesSpent,
    OutOfMemory,
}

impl RecordFault {
    ghost use Rattle.std.specs.Prelude.{◌≡◌};
    ghost use Rattle.job_record.specs.Log.{code_of};

    /// The fault's short name, from `R1` to `R5`, or `OutOfMemory`.
    pub fn code(&self) -> &'static str
        ensures { result.now ≡ code_of self.now }
    {
        match self {
            RecordFault::NotARecord => "R1",
            RecordFault::WrongVersion => "R2",
            RecordFault::NoRow => "R3",
            RecordFault::Store(_) => "R4",
            RecordFault::UsesSpent => "R5",
            RecordFault::OutOfMemory => "OutOfMemory",
        }
    }
}

impl fmt::Display for RecordFault {
    fn fmt<W: fmt::Write>(&self, f: &mut fmt::Formatter<W>) -> fmt::Result {
        match self {
            RecordFault::NotARecord => f.write_str("R1: the store is no record"),
            RecordFault::WrongVersion => f.write_str("R2: the record has another version"),
            RecordFault::NoRow => f.write_str("R3: no row has this key"),
            RecordFault::Store(cause) => write!(f, "R4: {cause}"),
            RecordFault::UsesSpent => {
                f.write_str("R5: no number is left for the use of an archive")
            }
            RecordFault::OutOfMemory => f.write_str("out of memory"),
        }
    }
}

impl std::error::Error for RecordFault {}

impl From<AllocError> for RecordFault {
    ghost use Rattle.std.specs.Prelude.{◌≡◌};
    ghost use Rattle.job_record.specs.declared.fault.RecordFault.TheVariants.{OutOfMemory};

    ghost from_gives = { λ _ e. e ≡ OutOfMemory };

    fn from(_refused: AllocError) -> RecordFault {
        RecordFault::OutOfMemory
    }
}

impl<T: Drop> From<AllocFailed<T>> for RecordFault {
    ghost use Rattle.std.specs.Prelude.{◌≡◌};
    ghost use Rattle.job_record.specs.declared.fault.RecordFault.TheVariants.{OutOfMemory};

    ghost from_gives = { λ _ e. e ≡ OutOfMemory };

    fn from(_refused: AllocFailed<T>) -> RecordFault {
        RecordFault::OutOfMemory
    }
}

impl From<StoreError> for RecordFault {
    ghost use Rattle.std.specs.Prelude.{◌≡◌};
    ghost use Rattle.job_record.specs.declared.fault.RecordFault.TheVariants.{Store};

    ghost from_gives = { λ cause e. e ≡ Store cause };

    fn from(cause: StoreError) -> RecordFault {
        RecordFault::Store(cause)
    }
}

/// What the log says of a command: done, its refusal, or nothing if memory ran out.
pub fn told_of<T>(answer: &Result<T, RecordFault>) -> Option<Result<(), RecordRefusal>>
    ensures { result ≡ told_of answer.now }
{
    match answer {
        Ok(_) => Some(Ok(())),
        Err(RecordFault::NotARecord) => Some(Err(RecordRefusal::NotARecord)),
        Err(RecordFault::WrongVersion) => Some(Err(RecordRefusal::WrongVersion)),
        Err(RecordFault::NoRow) => Some(Err(RecordRefusal::NoRow)),
        Err(RecordFault::Store(_)) => Some(Err(RecordRefusal::Store)),
        Err(RecordFault::UsesSpent) => Some(Err(RecordRefusal::UsesSpent)),
        Err(RecordFault::OutOfMemory) => None,
    }
}

/// The fault without the store's own cause.
pub fn error_of(fault: RecordFault) -> RecordError
    ensures { result ≡ error_of fault }
{
    match fault {
        RecordFault::NotARecord => RecordError::Refused(RecordRefusal::NotARecord),
        RecordFault::WrongVersion => RecordError::Refused(RecordRefusal::WrongVersion),
        RecordFault::NoRow => RecordError::Refused(RecordRefusal::NoRow),
        RecordFault::Store(_) => RecordError::Refused(RecordRefusal::Store),
        RecordFault::UsesSpent => RecordError::Refused(RecordRefusal::UsesSpent),
        RecordFault::OutOfMemory => RecordError::OutOfMemory,
    }
}

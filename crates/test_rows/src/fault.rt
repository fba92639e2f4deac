use std::alloc::{AllocError, AllocFailed};
use std::fmt;

/// Why a row has no answer.
#[derive(Clone, Copy, Debug, Drop, PartialEq, Eq)]
pub enum RowFault {
    /// The line is no JSON object with a name and a call.
    NotARow,
    /// The program has no such call.
    UnknownCall,
    /// An argument is missing, or has another form than the call takes.
    BadArgument,
    OutOfMemory,
}

impl fmt::Display for RowFault {
    fn fmt<W: fmt::Write>(&self, f: &mut fmt::Formatter<W>) -> fmt::Result {
        f.write_str(match self {
            RowFault::NotARow => "no JSON object with a row and a call",
            RowFault::UnknownCall => "an unknown call",
            RowFault::BadArgument => "a bad argument",
            RowFault::OutOfMemory => "out of memory",
        })
    }
}

impl From<AllocError> for RowFault {
    fn from(_refused: AllocError) -> RowFault {
        RowFault::OutOfMemory
    }
}

impl<T: Drop> From<AllocFailed<T>> for RowFault {
    fn from(_refused: AllocFailed<T>) -> RowFault {
        RowFault::OutOfMemory
    }
}

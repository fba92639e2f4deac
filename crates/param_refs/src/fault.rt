ghost use Rattle.std.specs.Prelude.{◌≡◌};
ghost use Rattle.param_refs.specs.Codes.{code_of};
ghost use Rattle.param_refs.specs.declared.fault.RefError.TheVariants.{OutOfMemory};

use std::alloc::{AllocError, AllocFailed};
use std::error::Error;
use std::fmt;

/// Why a text is no template, or a template has no value.
#[derive(Clone, Copy, Debug, Drop, PartialEq, Eq)]
pub enum RefFault {
    /// P1: `${`, or a `$(` that begins no reference.
    NotAReference,
    /// P2: a backslash in a text that has `$(` or `${`.
    BackslashOut,
    /// P3: a first symbol that names nothing here.
    NoName,
    /// P4: a key that the object, File or Directory lacks.
    NoField,
    /// P5: a key or an index on a value that takes none.
    WrongKind,
    /// P6: an index past the end of a list or text.
    IndexOut,
}

impl RefFault {
    /// The fault's short name, from `P1` to `P6`.
    pub fn code(&self) -> &'static str
        ensures { result.now ≡ code_of self.now }
    {
        match self {
            RefFault::NotAReference => "P1",
            RefFault::BackslashOut => "P2",
            RefFault::NoName => "P3",
            RefFault::NoField => "P4",
            RefFault::WrongKind => "P5",
            RefFault::IndexOut => "P6",
        }
    }
}

impl fmt::Display for RefFault {
    fn fmt<W: fmt::Write>(&self, f: &mut fmt::Formatter<W>) -> fmt::Result {
        f.write_str(match self {
            RefFault::NotAReference => "the text has a `${`, or a `$(` that begins no reference",
            RefFault::BackslashOut => "a text with references has a backslash",
            RefFault::NoName => "the reference begins with an unknown name",
            RefFault::NoField => "the key is absent",
            RefFault::WrongKind => "the value takes no such key or index",
            RefFault::IndexOut => "the index is past the end",
        })
    }
}

impl Error for RefFault {}

/// What a call answers in place of a template or a value.
#[derive(Clone, Copy, Debug, Drop, PartialEq, Eq)]
pub enum RefError {
    /// The text is no template, or it has no value.
    Refused(RefFault),
    /// Nothing is said of the text or the values.
    OutOfMemory,
}

impl fmt::Display for RefError {
    fn fmt<W: fmt::Write>(&self, f: &mut fmt::Formatter<W>) -> fmt::Result {
        match self {
            RefError::Refused(fault) => fault.fmt(f),
            RefError::OutOfMemory => f.write_str("out of memory"),
        }
    }
}

impl Error for RefError {}

impl From<AllocError> for RefError {
    ghost from_gives = { λ _ e. e ≡ OutOfMemory };

    fn from(_error: AllocError) -> RefError {
        RefError::OutOfMemory
    }
}

impl<T: Drop> From<AllocFailed<T>> for RefError {
    ghost from_gives = { λ _ e. e ≡ OutOfMemory };

    fn from(_error: AllocFailed<T>) -> RefError {
        RefError::OutOfMemory
    }
}

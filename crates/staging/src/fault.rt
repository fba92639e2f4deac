//! Why a text is no pattern.
ghost use Rattle.std.specs.Prelude.{◌≡◌};
ghost use Rattle.staging.specs.Codes.{code_of};
ghost use Rattle.staging.specs.declared.fault.GlobError.TheVariants.{OutOfMemory};

use std::alloc::{AllocError, AllocFailed};
use std::error::Error;
use std::fmt;

/// Why a text is no pattern for output files.
#[derive(Clone, Copy, Debug, Drop, PartialEq, Eq)]
pub enum GlobFault {
    /// G1: a backslash.
    Backslash,
    /// G1: `[[:`, which begins a character class.
    CharacterClass,
    /// G1: a range whose last character comes before its first.
    FallingRange,
    /// G7: the pattern begins with `/`.
    Absolute,
    /// G7: a component is `..`.
    ParentFolder,
}

impl GlobFault {
    /// The fault's short name, `G1` or `G7`.
    pub fn code(&self) -> &'static str
        ensures { result.now ≡ code_of self.now }
    {
        match self {
            GlobFault::Backslash => "G1",
            GlobFault::CharacterClass => "G1",
            GlobFault::FallingRange => "G1",
            GlobFault::Absolute => "G7",
            GlobFault::ParentFolder => "G7",
        }
    }
}

impl fmt::Display for GlobFault {
    fn fmt<W: fmt::Write>(&self, f: &mut fmt::Formatter<W>) -> fmt::Result {
        f.write_str(match self {
            GlobFault::Backslash => "the pattern has a backslash",
            GlobFault::CharacterClass => "the pattern has a character class `[[:`",
            GlobFault::FallingRange => "a range of the pattern ends before it begins",
            GlobFault::Absolute => "the pattern is absolute",
            GlobFault::ParentFolder => "a component of the pattern is `..`",
        })
    }
}

impl Error for GlobFault {}

/// What `Pattern::read` answers in place of a pattern.
#[derive(Clone, Copy, Debug, Drop, PartialEq, Eq)]
pub enum GlobError {
    /// The text is no pattern.
    Refused(GlobFault),
    /// Nothing is said of the text.
    OutOfMemory,
}

impl fmt::Display for GlobError {
    fn fmt<W: fmt::Write>(&self, f: &mut fmt::Formatter<W>) -> fmt::Result {
        match self {
            GlobError::Refused(fault) => fault.fmt(f),
            GlobError::OutOfMemory => f.write_str("out of memory"),
        }
    }
}

impl Error for GlobError {}

impl From<AllocError> for GlobError {
    ghost from_gives = { λ _ e. e ≡ OutOfMemory };

    fn from(_error: AllocError) -> GlobError {
        GlobError::OutOfMemory
    }
}

impl<T: Drop> From<AllocFailed<T>> for GlobError {
    ghost from_gives = { λ _ e. e ≡ OutOfMemory };

    fn from(_error: AllocFailed<T>) -> GlobError {
        GlobError::OutOfMemory
    }
}

ghost use Rattle.std.specs.Prelude.{◌≡◌};
ghost use Rattle.link_values.specs.Codes.{code_of};
ghost use Rattle.link_values.specs.declared.fault.LinkError.TheVariants.{OutOfMemory};

use param_refs::{RefError, RefFault};
use std::alloc::{AllocError, AllocFailed};
use std::error::Error;
use std::fmt;

/// Why a link has no value.
#[derive(Clone, Copy, Debug, Drop, PartialEq, Eq)]
pub enum LinkFault {
    /// Each value is null where one has to be taken.
    NoneNonNull,
    /// Several values are not null where only one may be.
    SeveralNonNull,
    /// What decides whether a step is skipped is no boolean.
    NotABoolean,
    /// A reference of `valueFrom` or `when` has no value.
    Reference(RefFault),
}

impl LinkFault {
    /// The fault's short name, from L1 to L4.
    pub fn code(&self) -> &'static str
        ensures { result.now ≡ code_of self.now }
    {
        match self {
            LinkFault::NoneNonNull => "L1",
            LinkFault::SeveralNonNull => "L2",
            LinkFault::NotABoolean => "L3",
            LinkFault::Reference(_) => "L4",
        }
    }
}

impl fmt::Display for LinkFault {
    fn fmt<W: fmt::Write>(&self, f: &mut fmt::Formatter<W>) -> fmt::Result {
        f.write_str(match self {
            LinkFault::NoneNonNull => "each of the linked values is null",
            LinkFault::SeveralNonNull => "more than one of the linked values is not null",
            LinkFault::NotABoolean => "the value of `when` is no boolean",
            LinkFault::Reference(fault) => return fault.fmt(f),
        })
    }
}

impl Error for LinkFault {}

/// What a call answers in place of a value.
#[derive(Clone, Copy, Debug, Drop, PartialEq, Eq)]
pub enum LinkError {
    /// The link has no value.
    Refused(LinkFault),
    /// Nothing is said of the link.
    OutOfMemory,
}

impl fmt::Display for LinkError {
    fn fmt<W: fmt::Write>(&self, f: &mut fmt::Formatter<W>) -> fmt::Result {
        match self {
            LinkError::Refused(fault) => fault.fmt(f),
            LinkError::OutOfMemory => f.write_str("out of memory"),
        }
    }
}

impl Error for LinkError {}

impl From<AllocError> for LinkError {
    ghost from_gives = { λ _ e. e ≡ OutOfMemory };

    fn from(_refused: AllocError) -> LinkError {
        LinkError::OutOfMemory
    }
}

impl<T: Drop> From<AllocFailed<T>> for LinkError {
    ghost from_gives = { λ _ e. e ≡ OutOfMemory };

    fn from(_refused: AllocFailed<T>) -> LinkError {
        LinkError::OutOfMemory
    }
}

impl From<RefError> for LinkError {
    ghost use Rattle.link_values.specs.Refused.{of_reference};

    ghost from_gives = { λ error e. e ≡ of_reference error };

    fn from(error: RefError) -> LinkError {
        match error {
            RefError::Refused(fault) => LinkError::Refused(LinkFault::Reference(fault)),
            RefError::OutOfMemory => LinkError::OutOfMemory,
        }
    }
}

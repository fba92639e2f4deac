//! Why a job has no outputs.
ghost use Rattle.std.specs.Prelude.{◌≡◌};
ghost use Rattle.collected_outputs.specs.Codes.{code_of};
ghost use Rattle.collected_outputs.specs.declared.fault.CollectError.TheVariants.{OutOfMemory as no_memory};
ghost use Rattle.collected_outputs.specs.declared.fault.Stop.TheVariants.{OutOfMemory};

use param_refs::{RefError, RefFault};
use plain_data::Text;
use staging::{GlobError, GlobFault};
use std::alloc::{AllocError, AllocFailed};
use std::error::Error;
use std::fmt;

/// Why an output has no value.
#[derive(Clone, Copy, Debug, Drop, PartialEq, Eq)]
pub enum CollectFault {
    /// G1 or G7: a text is no pattern.
    Pattern(GlobFault),
    /// G1: a pattern's value is neither a text nor a list of texts.
    PatternNotText,
    /// G2: no file matches, and the type has no null.
    NoMatch,
    /// G2: a secondary file that is required is absent.
    SecondaryAbsent,
    /// G3: several files match, and the type has no list.
    TooMany,
    /// G4: a file whose contents are asked for is too long.
    TooLong,
    /// G5: the value doesn't fit the type, or the output object can't be read back.
    NotTyped,
    /// G6: `cwl.output.json` is no output object.
    BadOutputObject,
    /// G7: a File or Directory isn't one of the output folder's.
    NameOutside,
    /// G8: a reference has no value.
    Reference(RefFault),
    /// G9: contents that are asked for are no UTF-8.
    NotUtf8,
}

impl CollectFault {
    /// The fault's short name, from `G1` to `G9`.
    pub fn code(&self) -> &'static str
        ensures { result.now ≡ code_of self.now }
    {
        match self {
            CollectFault::Pattern(fault) => fault.code(),
            CollectFault::PatternNotText => "G1",
            CollectFault::NoMatch | CollectFault::SecondaryAbsent => "G2",
            CollectFault::TooMany => "G3",
            CollectFault::TooLong => "G4",
            CollectFault::NotTyped => "G5",
            CollectFault::BadOutputObject => "G6",
            CollectFault::NameOutside => "G7",
            CollectFault::Reference(_) => "G8",
            CollectFault::NotUtf8 => "G9",
        }
    }
}

impl fmt::Display for CollectFault {
    fn fmt<W: fmt::Write>(&self, f: &mut fmt::Formatter<W>) -> fmt::Result {
        match self {
            CollectFault::Pattern(fault) => fault.fmt(f),
            CollectFault::PatternNotText => f.write_str("a pattern is no text"),
            CollectFault::NoMatch => f.write_str("no file matches"),
            CollectFault::SecondaryAbsent => f.write_str("a required secondary file is absent"),
            CollectFault::TooMany => f.write_str("several files match, where one is meant"),
            CollectFault::TooLong => f.write_str("a file is too long for its contents to be read"),
            CollectFault::NotTyped => f.write_str("the value doesn't fit the type"),
            CollectFault::BadOutputObject => f.write_str("`cwl.output.json` is no output object"),
            CollectFault::NameOutside => {
                f.write_str("a File or Directory isn't in the output folder")
            }
            CollectFault::Reference(fault) => fault.fmt(f),
            CollectFault::NotUtf8 => f.write_str("the contents of a file are no UTF-8"),
        }
    }
}

impl Error for CollectFault {}

/// A fault, and the output that it was met at.
#[derive(Debug, Drop)]
pub struct OutputFault {
    /// None where the output object as a whole is at fault.
    pub output: Option<Text>,
    pub fault: CollectFault,
}

impl fmt::Display for OutputFault {
    fn fmt<W: fmt::Write>(&self, f: &mut fmt::Formatter<W>) -> fmt::Result {
        let fault = self.fault;
        match &self.output {
            None => write_whole(f, fault),
            Some(output) => {
                let name = output.as_str();
                write!(f, "output `{name}`: {fault}")
            }
        }
    }
}

fn write_whole<W: fmt::Write>(f: &mut fmt::Formatter<W>, fault: CollectFault) -> fmt::Result {
    match fault {
        CollectFault::NotTyped => f.write_str("the output object can't be read back from its JSON"),
        _ => write!(f, "{fault}"),
    }
}

impl Error for OutputFault {}

/// What `collect_outputs` answers in place of outputs.
#[derive(Debug, Drop)]
pub enum CollectError {
    /// The job has no outputs.
    Refused(OutputFault),
    /// Nothing is said of the job.
    OutOfMemory,
}

impl fmt::Display for CollectError {
    fn fmt<W: fmt::Write>(&self, f: &mut fmt::Formatter<W>) -> fmt::Result {
        match self {
            CollectError::Refused(fault) => fault.fmt(f),
            CollectError::OutOfMemory => f.write_str("out of memory"),
        }
    }
}

impl Error for CollectError {}

impl From<AllocError> for CollectError {
    ghost from_gives = { λ _ e. e ≡ no_memory };

    fn from(_error: AllocError) -> CollectError {
        CollectError::OutOfMemory
    }
}

/// What a step answers in place of a value, without the output's name.
#[derive(Clone, Copy, Drop)]
pub(crate) enum Stop {
    Refused(CollectFault),
    OutOfMemory,
}

impl From<AllocError> for Stop {
    ghost from_gives = { λ _ e. e ≡ OutOfMemory };

    fn from(_error: AllocError) -> Stop {
        Stop::OutOfMemory
    }
}

impl<T: Drop> From<AllocFailed<T>> for Stop {
    ghost from_gives = { λ _ e. e ≡ OutOfMemory };

    fn from(_error: AllocFailed<T>) -> Stop {
        Stop::OutOfMemory
    }
}

ghost use Rattle.std.specs.Prelude.{◌≡◌};
ghost use Rattle.scatter_shape.specs.Codes.{code_of};
ghost use Rattle.scatter_shape.specs.declared.refusal.ScatterError.TheVariants.{OutOfMemory};

use std::alloc::AllocError;
use std::error::Error;
use std::fmt;

/// Why a step is not scattered.
#[derive(Clone, Copy, Debug, Drop, PartialEq, Eq)]
pub enum ScatterFault {
    /// The lists of a dotproduct have different lengths.
    UnequalLengths,
    /// A scattered input is not a list.
    NotAList,
    /// There are more tuples than `MOST_TUPLES`.
    TooManyJobs,
}

impl ScatterFault {
    /// The fault's short name, from `S1` to `S3`.
    pub fn code(&self) -> &'static str
        ensures { result.now ≡ code_of self.now }
    {
        match self {
            ScatterFault::UnequalLengths => "S1",
            ScatterFault::NotAList => "S2",
            ScatterFault::TooManyJobs => "S3",
        }
    }
}

impl fmt::Display for ScatterFault {
    fn fmt<W: fmt::Write>(&self, f: &mut fmt::Formatter<W>) -> fmt::Result {
        f.write_str(match self {
            ScatterFault::UnequalLengths => "the scattered lists have different lengths",
            ScatterFault::NotAList => "a scattered input is not a list",
            ScatterFault::TooManyJobs => "the step has too many jobs",
        })
    }
}

impl Error for ScatterFault {}

/// What a call answers in place of lengths or tuples.
#[derive(Clone, Copy, Debug, Drop, PartialEq, Eq)]
pub enum ScatterError {
    /// The step is not scattered.
    Refused(ScatterFault),
    /// Nothing is said of the step.
    OutOfMemory,
}

impl fmt::Display for ScatterError {
    fn fmt<W: fmt::Write>(&self, f: &mut fmt::Formatter<W>) -> fmt::Result {
        match self {
            ScatterError::Refused(fault) => fault.fmt(f),
            ScatterError::OutOfMemory => f.write_str("out of memory"),
        }
    }
}

impl Error for ScatterError {}

impl From<AllocError> for ScatterError {
    ghost from_gives = { λ _ e. e ≡ OutOfMemory };

    fn from(_refused: AllocError) -> ScatterError {
        ScatterError::OutOfMemory
    }
}

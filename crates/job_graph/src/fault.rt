ghost use Rattle.std.specs.Prelude.{◌≡◌, IfOk};
ghost use Rattle.job_graph.specs.Codes.{code_of};
ghost use Rattle.job_graph.specs.declared.fault.UnfoldError.TheVariants.{OutOfMemory};

use crate::cause::Cause;
use cwl_value::{JobPlace, copy_job};
use std::alloc::{AllocError, Global};

/// Why a process has no result.
#[derive(Drop)]
pub enum UnfoldFault {
    /// There are more jobs, or more parents of jobs, than a graph may have.
    TooManyJobs,
    /// The equation at this place fails.
    Fault(JobPlace, Cause),
}

impl UnfoldFault {
    /// The fault's short name, U1 or U2.
    pub fn code(&self) -> &'static str
        ensures { result.now ≡ code_of self.now }
    {
        match self {
            UnfoldFault::TooManyJobs => "U1",
            UnfoldFault::Fault(_, _) => "U2",
        }
    }

    /// The same fault in memory of its own.
    pub fn clone_in(&self, alloc: Global) -> Result<UnfoldFault, AllocError>
        ensures { IfOk result (λ copy. copy ≡ self.now) }
    {
        match self {
            UnfoldFault::TooManyJobs => Ok(UnfoldFault::TooManyJobs),
            UnfoldFault::Fault(place, cause) => {
                let place = copy_job(alloc, place)?;
                Ok(UnfoldFault::Fault(place, cause.clone_in(alloc)?))
            }
        }
    }
}

/// What a call answers in place of an unfolding.
#[derive(Drop)]
pub enum UnfoldError {
    /// The process has no result.
    Refused(UnfoldFault),
    /// Nothing is said of the process.
    OutOfMemory,
}

impl From<AllocError> for UnfoldError {
    ghost from_gives = { λ _ e. e ≡ OutOfMemory };

    fn from(_refused: AllocError) -> UnfoldError {
        UnfoldError::OutOfMemory
    }
}

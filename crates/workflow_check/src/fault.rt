//! Why a process is not accepted.
ghost use Rattle.std.specs.Prelude.{◌≡◌, IfOk};
ghost use Rattle.workflow_check.specs.Codes.{code_of};
ghost use Rattle.workflow_check.specs.Faults.{IsErrorOf, IsInside, itself, put_first};
ghost use Rattle.workflow_check.specs.declared.fault.AcceptError.TheVariants.{OutOfMemory};

use plain_data::{Items, Text};
use std::alloc::{AllocError, Global};
use std::error::Error;
use std::fmt;

/// What is wrong with a link, or with how a step is run.
#[derive(Clone, Copy, Debug, Drop, PartialEq, Eq)]
pub enum LinkRule {
    /// A source names nothing that is there.
    NoSource,
    /// What the links give and what is asked for have no value in common.
    Disjoint,
    /// An input that has to have a value gets none.
    Unconnected,
    /// Steps wait for one another.
    Cycle,
    /// A scattered name is no input of the step.
    ScatterNotInput,
    /// Several inputs are scattered, and nothing says how.
    MethodMissing,
    /// A step lists an output that its process doesn't have.
    OutputUnknown,
}

/// What is wrong with a process, and where.
#[derive(Debug, Drop)]
pub struct LinkCheckFault {
    pub rule: LinkRule,
    /// The steps that lead there, the outermost first, then the input or output; of a cycle, the steps that lead to its workflow.
    pub place: Items<Text>,
}

/// Why a process is not accepted.
#[derive(Debug, Drop)]
pub enum AcceptError {
    Refused(LinkCheckFault),
    /// Nothing is said of the process.
    OutOfMemory,
}

impl LinkCheckFault {
    /// The fault's short name, K1 to K7.
    pub fn code(&self) -> &'static str
        ensures { result.now ≡ code_of self.now.rule }
    {
        match self.rule {
            LinkRule::NoSource => "K1",
            LinkRule::Disjoint => "K2",
            LinkRule::Unconnected => "K3",
            LinkRule::Cycle => "K4",
            LinkRule::ScatterNotInput => "K5",
            LinkRule::MethodMissing => "K6",
            LinkRule::OutputUnknown => "K7",
        }
    }
}

impl fmt::Display for LinkRule {
    fn fmt<W: fmt::Write>(&self, f: &mut fmt::Formatter<W>) -> fmt::Result {
        f.write_str(match self {
            LinkRule::NoSource => "a source names nothing that is there",
            LinkRule::Disjoint => "no value of the links is of the type",
            LinkRule::Unconnected => "nothing is linked to an input that has to have a value",
            LinkRule::Cycle => "steps wait for one another",
            LinkRule::ScatterNotInput => "the step scatters over what is none of its inputs",
            LinkRule::MethodMissing => "several inputs are scattered without a method",
            LinkRule::OutputUnknown => "the step's process has no such output",
        })
    }
}

impl fmt::Display for LinkCheckFault {
    fn fmt<W: fmt::Write>(&self, f: &mut fmt::Formatter<W>) -> fmt::Result {
        write!(f, "{}", self.rule)?;
        let mut gap = " at ";
        for id in self.place.as_slice() {
            write!(f, "{gap}{id}")?;
            gap = "/";
        }
        Ok(())
    }
}

impl Error for LinkCheckFault {}

impl From<AllocError> for AcceptError {
    ghost from_gives = { λ _ e. e ≡ OutOfMemory };

    fn from(_error: AllocError) -> AcceptError {
        AcceptError::OutOfMemory
    }
}

/// A fault of what is looked at itself.
pub(crate) fn refused(alloc: Global, rule: LinkRule) -> AcceptError
    ensures { IsErrorOf (itself rule) result }
{
    AcceptError::Refused(LinkCheckFault {
        rule,
        place: Items::new(alloc),
    })
}

/// The fault of what is inside the step, input or output of that id.
pub(crate) fn inside(
    alloc: Global,
    id: &Text,
    error: AcceptError,
) -> Result<AcceptError, AllocError>
    ensures { IfOk result (λ put. IsInside id.now error put) }
{
    match error {
        AcceptError::Refused(fault) => Ok(AcceptError::Refused(put_first(alloc, id, fault)?)),
        AcceptError::OutOfMemory => Err(AllocError),
    }
}

fn put_first(alloc: Global, id: &Text, fault: LinkCheckFault) -> Result<LinkCheckFault, AllocError>
    ensures { IfOk result (λ put. put ≡ put_first id.now fault) }
{
    let LinkCheckFault { rule, place } = fault;
    let first = id.copied(alloc)?;
    let mut ids = place.into_vec();
    ids.insert(0, first)?;
    Ok(LinkCheckFault {
        rule,
        place: Items::from_vec(ids),
    })
}

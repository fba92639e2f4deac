ghost use Rattle.std.specs.Prelude.{◌≡◌, IfOk};
ghost use Rattle.proc_host.specs.Faults.{code_of};
ghost use Rattle.proc_host.specs.declared.call.HostError.TheVariants.{OutOfMemory};

use crate::ChildEnd;
use command_line::Launch;
use plain_data::{Items, Text};
use staging::{Found, Measure, StagePlan, listing_in};
use std::alloc::{AllocError, AllocFailed, Global};
use std::error::Error;
use std::fmt;

/// What was asked of a host.
#[derive(Drop)]
pub enum HostRequest {
    /// To say what is at a path.
    Measure(Text),
    /// To lay out the folder of a job, by its number, from 1.
    Stage(StagePlan, u64),
    Start(Launch),
    Collect,
    /// To list a folder.
    Scan(Text),
    /// To read the first bytes of a file, at most so many.
    Head(Text, u64),
    /// To bring the files that were archived under a key, by a number for the folder that they are put in, from 1.
    Fetch(Text, u64, Items<Found>),
    /// To archive under a key what was found in a folder.
    Store(Text, Text, Items<Found>),
    Deliver(StagePlan),
    /// To remove what is archived under a key.
    Discard(Text),
}

/// The request of a fetch, in memory of its own.
pub fn fetch_request(
    alloc: Global,
    key: &Text,
    number: u64,
    files: &Items<Found>,
) -> Result<HostRequest, AllocError>
    ensures { IfOk result (λ request. request ≡ HostRequest.Fetch key.now number files.now) }
{
    let files = listing_in(alloc, files)?;
    Ok(HostRequest::Fetch(key.copied(alloc)?, number, files))
}

/// The request of a store, in memory of its own.
pub fn store_request(
    alloc: Global,
    key: &Text,
    folder: &Text,
    files: &Items<Found>,
) -> Result<HostRequest, AllocError>
    ensures { IfOk result (λ request. request ≡ HostRequest.Store key.now folder.now files.now) }
{
    let files = listing_in(alloc, files)?;
    let key = key.copied(alloc)?;
    Ok(HostRequest::Store(key, folder.copied(alloc)?, files))
}

/// What a host answered.
#[derive(Drop)]
pub enum HostAnswer {
    Done,
    Measured(Measure),
    /// The number of the new child's ticket.
    Started(u64),
    Ended(ChildEnd),
    Listed(Items<Found>),
    /// The first bytes of a file.
    FirstBytes(Items<u8>),
    /// Those that were there of the files that a fetch named, as they were.
    Fetched(Items<Found>),
    Failed(HostFault),
}

/// Which call failed.
#[derive(Clone, Copy, Debug, PartialEq, Eq)]
pub enum HostFault {
    Measure,
    Stage,
    Start,
    Collect,
    Scan,
    Head,
    Fetch,
    Store,
    Deliver,
    Discard,
}

impl HostFault {
    /// The fault's code in reports, `H1` to `H10`.
    pub fn code(self) -> &'static str
        ensures { result.now ≡ code_of self }
    {
        match self {
            HostFault::Measure => "H1",
            HostFault::Stage => "H2",
            HostFault::Start => "H3",
            HostFault::Collect => "H4",
            HostFault::Scan => "H5",
            HostFault::Head => "H6",
            HostFault::Fetch => "H7",
            HostFault::Store => "H8",
            HostFault::Deliver => "H9",
            HostFault::Discard => "H10",
        }
    }
}

/// Why a call gave no answer.
#[derive(Clone, Copy, Debug, PartialEq, Eq)]
pub enum HostError {
    Fault(HostFault),
    OutOfMemory,
}

impl fmt::Display for HostError {
    fn fmt<W: fmt::Write>(&self, f: &mut fmt::Formatter<W>) -> fmt::Result {
        match self {
            HostError::Fault(fault) => write!(f, "a call of the host failed ({})", fault.code()),
            HostError::OutOfMemory => write!(f, "out of memory"),
        }
    }
}

impl Error for HostError {}

impl From<AllocError> for HostError {
    ghost from_gives = { λ _ e. e ≡ OutOfMemory };

    fn from(_: AllocError) -> HostError {
        HostError::OutOfMemory
    }
}

impl<T: Drop> From<AllocFailed<T>> for HostError {
    ghost from_gives = { λ _ e. e ≡ OutOfMemory };

    fn from(_: AllocFailed<T>) -> HostError {
        HostError::OutOfMemory
    }
}

/// One line of a host's log.
#[derive(Drop)]
pub struct Entry {
    pub request: HostRequest,
    pub answer: HostAnswer,
}

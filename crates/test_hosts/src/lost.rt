//! The call of a host that failed, in the place of an answer.
ghost use Rattle.std.specs.Prelude.{◌≡◌, ◌++◌, List, length};
ghost use Rattle.test_hosts.specs.Told.{told, IsWithin};
ghost use Rattle.proc_host.specs.Log.{answer_behind_error, entries_of, IsOnly};
ghost use Rattle.proc_host.specs.declared.call.Entry.{Entry};

use proc_host::{HostError, HostFault, HostRequest};
use std::mem;

/// A call that failed: how many entries were in the log before it, what was asked, and the fault that was answered.
#[derive(Drop)]
pub struct Lost {
    pub at: usize,
    pub request: HostRequest,
    pub fault: HostFault,
}

/// How a call fails.
#[derive(Clone, Copy, Debug, PartialEq, Eq)]
pub enum Loss {
    /// By its own fault, which the log tells.
    Fault,
    /// Out of memory, of which a log has no entry.
    Memory,
}

/// Fails a call after so many entries. One call has a fault, and each other one runs out of memory.
pub fn lose(
    lost: &mut Option<Lost>,
    loss: Loss,
    at: usize,
    request: HostRequest,
    fault: HostFault,
) -> HostError
    ensures logged { (passed : List Entry) → at ≡ length passed
        → told lost.new passed
        ≡ told lost.old passed ++ entries_of request (answer_behind_error result) }
    ensures within { (passed : List Entry) → at ≡ length passed → IsWithin lost.old passed
        → IsWithin lost.new passed }
    ensures own { IsOnly fault result }
{
    if loss == Loss::Memory || lost.is_some() {
        mem::drop(request);
        return HostError::OutOfMemory;
    }
    *lost = Some(Lost { at, request, fault });
    HostError::Fault(fault)
}

/// Whether this call is the one to fail. It is counted.
pub fn is_due(left: &mut Option<u64>) -> bool {
    match *left {
        None => false,
        Some(0) => {
            *left = None;
            true
        }
        Some(count) => {
            *left = Some(count - 1);
            false
        }
    }
}

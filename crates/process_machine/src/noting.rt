//! The entries of the log.
ghost use Rattle.std.specs.Prelude.{◌≡◌, ◌++◌, ◌∷◌, ◌<◌, [], OnOk, vec_len, vec_capacity};
ghost use Rattle.proc_host.specs.Log.{answer_behind, answer_behind_error, entries_of, FailsOnlyBy, IsOnly};

use crate::trouble::Trouble;
use proc_host::{Entry, HostAnswer, HostError, HostFault, HostRequest};
use std::alloc::AllocError;

/// Makes room for one element more.
pub(crate) fn make_room<T>(list: &mut Vec<T>) -> Result<(), AllocError>
    ensures items { list.new.items ≡ list.old.items }
    ensures room { OnOk result (vec_len list.new < vec_capacity list.new) }
{
    list.reserve(1)?;
    Ok(())
}

/// Adds an element where there is room for it.
pub(crate) fn add<T: Drop>(list: &mut Vec<T>, item: T)
    requires { vec_len list.old < vec_capacity list.old }
    ensures { list.new.items ≡ list.old.items ++ item ∷ [] }
{
    list.push(item).unwrap();
}

/// Adds an entry where there is room for it.
pub(crate) fn note(log: &mut Vec<Entry>, request: HostRequest, answer: HostAnswer)
    requires { vec_len log.old < vec_capacity log.old }
    ensures { log.new.items ≡ log.old.items ++ record { request = request; answer = answer } ∷ [] }
{
    add(log, Entry { request, answer });
}

/// Notes that a call failed, where there is room; out of memory is not noted.
pub(crate) fn refused(
    log: &mut Vec<Entry>,
    request: HostRequest,
    fault: HostFault,
    trouble: Trouble,
) -> HostError
    requires { vec_len log.old < vec_capacity log.old }
    ensures logged { log.new.items ≡ log.old.items
        ++ entries_of request (answer_behind_error result) }
    ensures own { IsOnly fault result }
{
    match trouble {
        Trouble::OutOfMemory => HostError::OutOfMemory,
        Trouble::Failed | Trouble::Hindered(_) => {
            note(log, request, HostAnswer::Failed(fault));
            HostError::Fault(fault)
        }
    }
}

/// What was done, or what went wrong, as a call answers it, with its entry.
pub(crate) fn told(
    log: &mut Vec<Entry>,
    request: HostRequest,
    fault: HostFault,
    outcome: Result<(), Trouble>,
) -> Result<(), HostError>
    requires { vec_len log.old < vec_capacity log.old }
    ensures logged { log.new.items ≡ log.old.items
        ++ entries_of request (answer_behind (λ _. HostAnswer.Done) result) }
    ensures own { FailsOnlyBy fault result }
{
    match outcome {
        Ok(()) => {
            note(log, request, HostAnswer::Done);
            Ok(())
        }
        Err(trouble) => Err(refused(log, request, fault, trouble)),
    }
}

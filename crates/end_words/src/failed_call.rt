//! The call of a host that failed.
ghost use Rattle.std.specs.Prelude.{◌≡◌, IfOk, option_copied};
ghost use Rattle.std.specs.List.{find};
ghost use Rattle.end_words.specs.FailedCalls as spec;

use plain_data::Text;
use proc_host::{Entry, HostAnswer, HostFault, HostRequest};
use std::alloc::{AllocError, Global};

/// What the first call that failed so was about: the path that it looked at, or the program that it was to start.
pub fn failed_on(alloc: Global, log: &[Entry], fault: HostFault) -> Result<Option<Text>, AllocError>
    ensures { IfOk result (λ name. name ≡ spec.failed_on log.now fault) }
{
    match failed_call(log, fault) {
        Some(entry) => named_in(alloc, &entry.request),
        None => Ok(None),
    }
}

fn failed_call(log: &[Entry], fault: HostFault) -> Option<&Entry>
    ensures { option_copied result ≡ find (λ entry. spec.is_failure fault entry.answer) log.now }
{
    log.iter().find(|entry| is_failure(fault, &entry.answer))
}

fn is_failure(fault: HostFault, answer: &HostAnswer) -> bool
    ensures { result ≡ spec.is_failure fault answer.now }
{
    match answer {
        HostAnswer::Failed(other) => other.code() == fault.code(),
        _ => false,
    }
}

fn named_in(alloc: Global, request: &HostRequest) -> Result<Option<Text>, AllocError>
    ensures { IfOk result (λ name. name ≡ spec.named_in request.now) }
{
    match request {
        HostRequest::Measure(path) | HostRequest::Scan(path) | HostRequest::Head(path, _) => {
            Ok(Some(path.copied(alloc)?))
        }
        HostRequest::Start(launch) => copy_of(alloc, launch.words.get(0)),
        HostRequest::Stage(_, _)
        | HostRequest::Collect
        | HostRequest::Fetch(_, _, _)
        | HostRequest::Store(_, _, _)
        | HostRequest::Deliver(_)
        | HostRequest::Discard(_) => Ok(None),
    }
}

fn copy_of(alloc: Global, text: Option<&Text>) -> Result<Option<Text>, AllocError>
    ensures { IfOk result (λ copy. copy ≡ option_copied text.entry) }
{
    match text {
        Some(text) => Ok(Some(text.copied(alloc)?)),
        None => Ok(None),
    }
}

//! One question to the host.
ghost use Rattle.std.specs.Prelude.{◌≡◌, ◌≢◌, ◌++◌, [], IfOk, OnErr};
ghost use Rattle.proc_host.specs.Answers.{CanAnswer, flying_with};
ghost use Rattle.proc_host.specs.Log.{answer_behind, answer_behind_error, starts};
ghost use Rattle.workflow_engine.specs.inner.Held.{Covers};
ghost use Rattle.workflow_engine.specs.inner.Numbered.{IsNumbered};
ghost use Rattle.workflow_engine.specs.Gains.{answered, gained_by};

use crate::tickets::close_ended;
use command_line::Launch;
use plain_data::Items;
use proc_host::{Host, HostAnswer, HostError, HostRequest, Ticket};
use staging::{Found, Measure};
use std::alloc::AllocError;

/// Calls the host as a run asks, and keeps the tickets of the children that run. An `Err` leaves the log and the
/// children as they were.
pub(crate) fn ask<H: Host>(
    host: &mut H,
    request: &HostRequest,
    held: &mut Vec<Ticket>,
) -> Result<HostAnswer, AllocError>
    requires flying { request.now ≡ HostRequest.Collect → H.running host.old ≢ [] }
    requires covered { Covers held.old.items (H.running host.old) }
    ensures logged { H.log host.new ≡ H.log host.old ++ gained_by request.now result }
    ensures answers { IfOk result (CanAnswer (H.running host.old) request.now) }
    ensures running { IfOk result (λ answer. H.running host.new
        ≡ flying_with (H.running host.old) answer) }
    ensures numbered { IfOk result (IsNumbered (starts (H.log host.old))) }
    ensures kept { OnErr result (H.running host.new ≡ H.running host.old) }
    ensures covered { Covers held.new.items (H.running host.new) }
{
    match request {
        HostRequest::Measure(path) => measured(host.measure(path)),
        HostRequest::Stage(plan, number) => done(host.stage(plan, *number)),
        HostRequest::Start(launch) => start(host, launch, held),
        HostRequest::Collect => collect(host, held),
        HostRequest::Scan(folder) => listed(host.scan(folder)),
        HostRequest::Head(path, limit) => read(host.head(path, *limit)),
        HostRequest::Fetch(key, number, files) => fetched(host.fetch(key, *number, files)),
        HostRequest::Store(key, folder, files) => done(host.store(key, folder, files)),
        HostRequest::Deliver(plan) => done(host.deliver(plan)),
        HostRequest::Discard(key) => done(host.discard(key)),
    }
}

#[tactic(auto, using(crate::proofs::Covers::covers_started))]
fn start<H: Host>(
    host: &mut H,
    launch: &Launch,
    held: &mut Vec<Ticket>,
) -> Result<HostAnswer, AllocError>
    requires covered { Covers held.old.items (H.running host.old) }
    ensures logged { H.log host.new ≡ H.log host.old
        ++ gained_by (HostRequest.Start launch.now) result }
    ensures answers { IfOk result (CanAnswer (H.running host.old) (HostRequest.Start launch.now)) }
    ensures running { IfOk result (λ answer. H.running host.new
        ≡ flying_with (H.running host.old) answer) }
    ensures numbered { IfOk result (IsNumbered (starts (H.log host.old))) }
    ensures kept { OnErr result (H.running host.new ≡ H.running host.old) }
    ensures covered { Covers held.new.items (H.running host.new) }
{
    held.reserve(1)?;
    match host.start(launch) {
        Ok(ticket) => {
            let number = ticket.number();
            held.push(ticket).unwrap();
            Ok(HostAnswer::Started(number))
        }
        Err(error) => failed(error),
    }
}

fn collect<H: Host>(host: &mut H, held: &mut Vec<Ticket>) -> Result<HostAnswer, AllocError>
    requires flying { H.running host.old ≢ [] }
    requires covered { Covers held.old.items (H.running host.old) }
    ensures logged { H.log host.new ≡ H.log host.old ++ gained_by HostRequest.Collect result }
    ensures answers { IfOk result (CanAnswer (H.running host.old) HostRequest.Collect) }
    ensures running { IfOk result (λ answer. H.running host.new
        ≡ flying_with (H.running host.old) answer) }
    ensures numbered { IfOk result (IsNumbered (starts (H.log host.old))) }
    ensures kept { OnErr result (H.running host.new ≡ H.running host.old) }
    ensures covered { Covers held.new.items (H.running host.new) }
{
    match host.collect() {
        Ok(ending) => {
            close_ended(host, held, ending.ticket);
            Ok(HostAnswer::Ended(ending))
        }
        Err(error) => failed(error),
    }
}

fn done(outcome: Result<(), HostError>) -> Result<HostAnswer, AllocError>
    ensures { result ≡ answered (answer_behind (λ _. HostAnswer.Done) outcome) }
{
    match outcome {
        Ok(()) => Ok(HostAnswer::Done),
        Err(error) => failed(error),
    }
}

/// What the host answered to a measure.
pub(crate) fn measured(outcome: Result<Measure, HostError>) -> Result<HostAnswer, AllocError>
    ensures { result ≡ answered (answer_behind (λ measure. HostAnswer.Measured measure) outcome) }
{
    match outcome {
        Ok(measure) => Ok(HostAnswer::Measured(measure)),
        Err(error) => failed(error),
    }
}

fn read(outcome: Result<Items<u8>, HostError>) -> Result<HostAnswer, AllocError>
    ensures { result ≡ answered (answer_behind (λ bytes. HostAnswer.FirstBytes bytes) outcome) }
{
    match outcome {
        Ok(bytes) => Ok(HostAnswer::FirstBytes(bytes)),
        Err(error) => failed(error),
    }
}

fn listed(outcome: Result<Items<Found>, HostError>) -> Result<HostAnswer, AllocError>
    ensures { result ≡ answered (answer_behind (λ found. HostAnswer.Listed found) outcome) }
{
    match outcome {
        Ok(found) => Ok(HostAnswer::Listed(found)),
        Err(error) => failed(error),
    }
}

fn fetched(outcome: Result<Items<Found>, HostError>) -> Result<HostAnswer, AllocError>
    ensures { result ≡ answered (answer_behind (λ found. HostAnswer.Fetched found) outcome) }
{
    match outcome {
        Ok(found) => Ok(HostAnswer::Fetched(found)),
        Err(error) => failed(error),
    }
}

fn failed(error: HostError) -> Result<HostAnswer, AllocError>
    ensures { result ≡ answered (answer_behind_error error) }
{
    match error {
        HostError::Fault(fault) => Ok(HostAnswer::Failed(fault)),
        HostError::OutOfMemory => Err(AllocError),
    }
}

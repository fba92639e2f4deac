//! What the machine asks, as long as it only looks: what the input files are, and which rows the record has.
ghost use Rattle.std.specs.Prelude.{◌≡◌, ◌<◌, ◌++◌, [], true, false, IfErr, IfOk, OnErr, OnOk};
ghost use Rattle.proc_host.specs.Answers.{CanAnswer};
ghost use Rattle.run_core.specs.Core.{IsAtRest};
ghost use Rattle.run_rules.specs.Answers.{MayAnswer};
ghost use Rattle.run_rules.specs.PlannedFirst.{is_look};
ghost use Rattle.run_rules.specs.declared.outcome.RunFault.{RunFault as Fault};
ghost use Rattle.workflow_engine.specs.ByMap.{KeepsToMap};
ghost use Rattle.workflow_engine.specs.Gains.{commands_by, entries_by, gained_by};
ghost use Rattle.workflow_engine.specs.inner.Looks.{IsMeasure, Looks};
ghost use Rattle.workflow_engine.specs.inner.Mapped.{pairs_by};

use crate::ask::measured;
use crate::ask_record::ask_record;
use crate::drive::tell;
use crate::watch::Watch;
use cwl_value::JobPlace;
use job_rows::Record;
use proc_host::{Host, HostAnswer, HostRequest};
use run_core::{Answer, RecordRequest, Request, RunCore, RunFault};
use std::alloc::AllocError;

/// Asks what the machine asks, until that is no look. An `Err` is that memory ran out, and then it asks nothing more.
pub(crate) fn look<H: Host, R: Record, W: Watch>(
    host: &mut H,
    rows: &mut R,
    core: &mut RunCore<'_>,
    watcher: &mut W,
) -> Result<(), RunFault>
    requires { IsAtRest core.old }
    ensures looks { Looks (H.log host.old) (H.log host.new) (R.log rows.old) (R.log rows.new)
        (R.is_sound rows.old) (R.is_sound rows.new) (R.holds rows.old) (R.holds rows.new)
        core.old core.new }
    ensures running { H.running host.new ≡ H.running host.old }
    ensures rest { OnOk result (IsAtRest core.new) }
    ensures done { OnOk result (is_look core.new.asks ≡ false) }
    ensures err { IfErr result (λ fault. fault ≡ Fault.OutOfMemory) }
    ensures finished { OnErr result (core.new.asks ≡ Request.Finished) }
{
    while is_look(core.next()) {
        look_once(host, rows, core, watcher)?;
    }
    Ok(())
}

/// Asks for what the machine looks at next.
fn look_once<H: Host, R: Record, W: Watch>(
    host: &mut H,
    rows: &mut R,
    core: &mut RunCore<'_>,
    watcher: &mut W,
) -> Result<(), RunFault>
    requires look { is_look core.old.asks ≡ true }
    requires rest { IsAtRest core.old }
    ensures looks { Looks (H.log host.old) (H.log host.new) (R.log rows.old) (R.log rows.new)
        (R.is_sound rows.old) (R.is_sound rows.new) (R.holds rows.old) (R.holds rows.new)
        core.old core.new }
    ensures running { H.running host.new ≡ H.running host.old }
    ensures steps { core.new.steps_left < core.old.steps_left }
    ensures rest { OnOk result (IsAtRest core.new) }
    ensures err { IfErr result (λ fault. fault ≡ Fault.OutOfMemory) }
    ensures finished { OnErr result (core.new.asks ≡ Request.Finished) }
{
    let told = ask_look(host, rows, core.next(), core.known(), watcher);
    tell(core, told)
}

/// Whether a request changes nothing.
fn is_look(request: &Request) -> bool
    ensures { result ≡ is_look request.now }
{
    matches!(
        request,
        Request::Host(_, HostRequest::Measure(_)) | Request::Record(_, RecordRequest::Find(_))
    )
}

/// Asks the host or the record, and tells the watcher. An `Err` leaves both logs as they were.
fn ask_look<H: Host, R: Record, W: Watch>(
    host: &mut H,
    rows: &mut R,
    asks: &Request,
    known: usize,
    watcher: &mut W,
) -> Result<Answer, AllocError>
    requires { is_look asks.now ≡ true }
    ensures logged { H.log host.new ≡ H.log host.old ++ entries_by asks.now result }
    ensures recorded { R.log rows.new ≡ R.log rows.old ++ commands_by asks.now result }
    ensures by_map { KeepsToMap (R.is_sound rows.old) (R.is_sound rows.new) (R.holds rows.old)
        (R.holds rows.new) (pairs_by asks.now result) }
    ensures answers { IfOk result (MayAnswer [] asks.now) }
    ensures running { H.running host.new ≡ H.running host.old }
{
    match asks {
        Request::Host(place, request) => measure(host, place, request, known, watcher),
        Request::Record(place, request) => match ask_record(rows, request) {
            Ok(answer) => {
                watcher.recalls(place, request, &answer, known);
                Ok(Answer::Record(answer))
            }
            Err(error) => Err(error),
        },
        Request::Finished => unreachable!(),
    }
}

/// Asks the host what is at a path, and tells the watcher of the question and of the answer.
fn measure<H: Host, W: Watch>(
    host: &mut H,
    place: &JobPlace,
    request: &HostRequest,
    known: usize,
    watcher: &mut W,
) -> Result<Answer, AllocError>
    requires { IsMeasure request.now }
    ensures logged { H.log host.new ≡ H.log host.old
        ++ entries_by (Request.Host place.now request.now) result }
    ensures recorded { commands_by (Request.Host place.now request.now) result ≡ [] }
    ensures answers { IfOk result (MayAnswer [] (Request.Host place.now request.now)) }
    ensures running { H.running host.new ≡ H.running host.old }
{
    watcher.asks(place, request, known);
    match measured_at(host, request) {
        Ok(answer) => {
            watcher.answers(place, &answer);
            Ok(Answer::Host(answer))
        }
        Err(error) => Err(error),
    }
}

/// What is at a path, as the host says.
fn measured_at<H: Host>(host: &mut H, request: &HostRequest) -> Result<HostAnswer, AllocError>
    requires { IsMeasure request.now }
    ensures logged { H.log host.new ≡ H.log host.old ++ gained_by request.now result }
    ensures answers { IfOk result (CanAnswer [] request.now) }
    ensures running { H.running host.new ≡ H.running host.old }
{
    match request {
        HostRequest::Measure(path) => measured(host.measure(path)),
        _ => unreachable!(),
    }
}

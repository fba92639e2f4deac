//! What the machine asks next, asked of the host or of the record.
ghost use Rattle.std.specs.Prelude.{◌≡◌, ◌≢◌, ◌++◌, [], IfOk, OnErr};
ghost use Rattle.job_graph.specs.Words.{JobPlace};
ghost use Rattle.job_reuse.specs.Form.{AreInForm};
ghost use Rattle.proc_host.specs.Log.{starts};
ghost use Rattle.proc_host.specs.declared.call.HostRequest.TheVariants.{Collect};
ghost use Rattle.run_rules.specs.Answers.{MayAnswer, flying_after};
ghost use Rattle.workflow_engine.specs.Gains.{commands_by, entries_by};
ghost use Rattle.workflow_engine.specs.inner.Held.{Covers};
ghost use Rattle.workflow_engine.specs.inner.Mapped.{ArePut, KeepsToMapIfRead, pairs_by};
ghost use Rattle.workflow_engine.specs.inner.Numbered.{NumbersNext};

use crate::ask::ask;
use crate::ask_record::ask_record;
use crate::watch::Watch;
use cwl_value::JobPlace;
use job_rows::Record;
use proc_host::{Host, HostRequest, Ticket};
use run_core::{Answer, Request};
use std::alloc::AllocError;

/// Asks the host or the record, and tells the watcher. An `Err` leaves both logs and the children as they were.
pub(crate) fn ask_next<H: Host, R: Record, W: Watch>(
    host: &mut H,
    rows: &mut R,
    asks: &Request,
    known: usize,
    held: &mut Vec<Ticket>,
    watcher: &mut W,
) -> Result<Answer, AllocError>
    requires some { asks.now ≢ Request.Finished }
    requires flying { (place : JobPlace) → asks.now ≡ Request.Host place Collect
        → H.running host.old ≢ [] }
    requires covered { Covers held.old.items (H.running host.old) }
    ensures logged { H.log host.new ≡ H.log host.old ++ entries_by asks.now result }
    ensures recorded { R.log rows.new ≡ R.log rows.old ++ commands_by asks.now result }
    ensures by_map { KeepsToMapIfRead (R.is_sound rows.old) (R.is_sound rows.new) (R.holds rows.old)
        (R.holds rows.new) (pairs_by asks.now result) }
    ensures form { ArePut AreInForm (pairs_by asks.now result) }
    ensures answers { IfOk result (MayAnswer (H.running host.old) asks.now) }
    ensures running { IfOk result (λ answer. H.running host.new
        ≡ flying_after (H.running host.old) answer) }
    ensures numbered { IfOk result (NumbersNext (starts (H.log host.old))) }
    ensures kept { OnErr result (H.running host.new ≡ H.running host.old) }
    ensures covered { Covers held.new.items (H.running host.new) }
{
    match asks {
        Request::Host(place, request) => ask_host(host, place, request, known, held, watcher),
        Request::Record(place, request) => match ask_record(rows, request) {
            Ok(answer) => {
                watcher.recalls(place, request, &answer, known);
                Ok(Answer::Record(answer))
            }
            Err(error) => Err(error),
        },
        Request::Finished => unreachable!(),
    }
}

/// Asks the host, and tells the watcher of the question and of the answer.
fn ask_host<H: Host, W: Watch>(
    host: &mut H,
    place: &JobPlace,
    request: &HostRequest,
    known: usize,
    held: &mut Vec<Ticket>,
    watcher: &mut W,
) -> Result<Answer, AllocError>
    requires flying { request.now ≡ Collect → H.running host.old ≢ [] }
    requires covered { Covers held.old.items (H.running host.old) }
    ensures logged { H.log host.new ≡ H.log host.old
        ++ entries_by (Request.Host place.now request.now) result }
    ensures recorded { commands_by (Request.Host place.now request.now) result ≡ [] }
    ensures answers { IfOk result
        (MayAnswer (H.running host.old) (Request.Host place.now request.now)) }
    ensures running { IfOk result (λ answer. H.running host.new
        ≡ flying_after (H.running host.old) answer) }
    ensures numbered { IfOk result (NumbersNext (starts (H.log host.old))) }
    ensures kept { OnErr result (H.running host.new ≡ H.running host.old) }
    ensures covered { Covers held.new.items (H.running host.new) }
{
    watcher.asks(place, request, known);
    match ask(host, request, held) {
        Ok(answer) => {
            watcher.answers(place, &answer);
            Ok(Answer::Host(answer))
        }
        Err(error) => Err(error),
    }
}

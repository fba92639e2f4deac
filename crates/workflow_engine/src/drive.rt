//! A whole run on a host and a record.
ghost use Rattle.std.specs.Prelude.{◌≡◌, ◌++◌, [], None, IfErr, OnErr, OnOk};
ghost use Rattle.job_reuse.specs.Form.{AreInForm};
ghost use Rattle.proc_host.specs.Log.{starts};
ghost use Rattle.run_core.specs.Core.{IsLost};
ghost use Rattle.run_rules.specs.Limits.{IsWithinLimits};
ghost use Rattle.run_rules.specs.Answers.{AreAnswers};
ghost use Rattle.run_rules.specs.Recorded.{lines_of};
ghost use Rattle.run_rules.specs.Reports.{entries_of};
ghost use Rattle.run_rules.specs.declared.outcome.RunFault.{RunFault as Fault};
ghost use Rattle.workflow_check.specs.Checked.{fault_in};
ghost use Rattle.workflow_engine.specs.Blame.{BlamesRecord, HasRisingTickets, IsHostsFault};
ghost use Rattle.workflow_engine.specs.inner.Held.{Covers};
ghost use Rattle.workflow_engine.specs.inner.Mapped.{ArePut, KeepsToMapIfRead};
ghost use Rattle.workflow_engine.specs.inner.Numbered.{AreNumbered};
ghost use Rattle.workflow_engine.specs.inner.Told.{IsTold, MayBeTold};
ghost use Rattle.workflow_engine.specs.ByMap.{RunsByMap};

use crate::ask_next::ask_next;
use crate::tickets::close_all;
use crate::watch::Watch;
use cwl_value::Value;
use document_links::Process;
use job_rows::Record;
use plain_data::Keyed;
use plan_checker::each_has_least;
use proc_host::{Host, Ticket};
use run_core::{Answer, Options, Report, Request, RunCore, RunFault};
use std::alloc::{AllocError, Global};
use std::mem;

/// Runs an accepted process on an input object.
///
/// What the logs of the host and of the record gain is a run of the process, and the report is what that run comes to: the
/// delivered output object, a permanent failure with its place and cause, a temporary failure, the host's fault with the
/// tickets that nobody waits for any more, or the record's refusal. `Err(OutOfMemory)` says only that an allocation failed;
/// what was asked is a valid prefix of a run, after which only the ends of children were waited for.
///
/// The record is asked for the row of each job whose tool lets an earlier result be used, and to keep the row of each that was
/// computed. As long as what it is kept on returns what was written, each of its answers is by its map, and the map at the end is
/// that of the start after the commands that were done, with no condition on rows: each that a run puts is read back
/// (`run_rules::rows_put_are_kept`). If a fault of the record is a row that it gave, that row isn't one of its
/// job's tool (`run_rules::faults_came_of_answers`).
///
/// The tickets of its children rise, so no place is started more often than once and its retries
/// (`run_rules::no_place_is_started_too_often`).
///
/// The watcher is told of each question to the host or to the record, and of each answer, as they come.
pub fn run<H: Host, R: Record, W: Watch>(
    alloc: Global,
    host: &mut H,
    rows: &mut R,
    process: &Process,
    inputs: &Keyed<Value>,
    options: Options,
    watcher: &mut W,
) -> Result<Report, RunFault>
    requires idle { H.running host.old ≡ [] }
    requires accepted { fault_in process.now ≡ None }
    requires limits { IsWithinLimits options }
    ensures run { RunsByMap (H.log host.old) (H.log host.new) (R.log rows.old) (R.log rows.new)
        (R.is_sound rows.old) (R.is_sound rows.new) (R.holds rows.old) (R.holds rows.new)
        process.now inputs.now options result }
    // A fault is the host's only where its failures rose, by this very fault.
    ensures fault { IfErr result (IsHostsFault (H.log host.old) (H.log host.new)) }
    ensures rising { IfErr result HasRisingTickets }
    // A fault of the record, and each note of one, has its line in the record's log.
    ensures record { BlamesRecord (R.log rows.old) (R.log rows.new) result }
    ensures closed { H.running host.new ≡ [] }
{
    each_has_least();
    let mut core = RunCore::new(alloc, process, inputs, options)?;
    let mut held = Vec::new(alloc);
    drive(host, rows, &mut core, &mut held, watcher);
    close_all(host, held);
    core.finish()
}

/// Asks what the machine asks, until it asks nothing more. Where the host or the record runs out of memory, the machine is
/// told so, and asks for the ends of the children in flight alone.
fn drive<H: Host, R: Record, W: Watch>(
    host: &mut H,
    rows: &mut R,
    core: &mut RunCore<'_>,
    held: &mut Vec<Ticket>,
    watcher: &mut W,
)
    requires first { core.old.transcript ≡ [] }
    requires flying { core.old.flying ≡ H.running host.old }
    requires covered { Covers held.old.items (H.running host.old) }
    ensures setting { core.new.setting ≡ core.old.setting }
    ensures logged { H.log host.new ≡ H.log host.old ++ entries_of core.new.transcript }
    ensures recorded { R.log rows.new ≡ R.log rows.old ++ lines_of core.new.transcript }
    ensures by_map { KeepsToMapIfRead (R.is_sound rows.old) (R.is_sound rows.new) (R.holds rows.old)
        (R.holds rows.new) core.new.transcript }
    ensures answers { AreAnswers core.new.transcript }
    ensures form { ArePut AreInForm core.new.transcript }
    ensures numbered { AreNumbered (starts (H.log host.old)) (entries_of core.new.transcript) }
    ensures finished { core.new.asks ≡ Request.Finished }
    ensures covered { Covers held.new.items (H.running host.new) }
{
    while !matches!(core.next(), Request::Finished) {
        let told = ask_next(host, rows, core.next(), core.known(), held, watcher);
        mem::drop(tell(core, told));
    }
}

/// Tells the machine what was answered, or that the one who was asked ran out of memory. An `Err` is that the machine asks nothing
/// more, since memory ran out: `finish` says so too.
pub(crate) fn tell(core: &mut RunCore<'_>, told: Result<Answer, AllocError>) -> Result<(), RunFault>
    requires { MayBeTold core.old told }
    ensures told { IsTold core.old told core.new }
    ensures ok { OnOk result (IsLost core.new → ⊥) }
    ensures err { IfErr result (λ fault. fault ≡ Fault.OutOfMemory) }
    ensures finished { OnErr result (core.new.asks ≡ Request.Finished) }
{
    match told {
        Ok(answer) => core.take(answer),
        Err(AllocError) => core.give_up(),
    }
}

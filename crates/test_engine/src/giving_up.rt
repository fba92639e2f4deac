//! Runs that give up, since memory ran out outside of the machine.
ghost use Rattle.std.specs.Prelude.{◌≡◌, IfOk, OnOk};
ghost use Rattle.proc_host.specs.Answers.{CanAnswer};
ghost use Rattle.run_rules.specs.Answers.{MayAnswer};
ghost use Rattle.run_rules.specs.declared.request.Request.{Request as Asks};

use crate::alone::{Chance, drive_for, ended, take_answer};
use crate::end::put_end;
use crate::run::{Case, core_of};
use proc_host::{HostAnswer, HostRequest};
use run_core::{Answer, Report, Request, RunCore, RunFault};
use std::alloc::Global;
use std::mem;
use test_rows::{AnswerText, Row, RowFault};

// After how many answers a run gives up, and how often at once.
#[derive(Clone, Copy)]
struct Giving {
    after: u64,
    times: u64,
}

/// Writes how the run of a row ends that gives up after so many answers, and how many ends of children it waits for then.
pub fn put_answer(
    alloc: Global,
    row: &Row,
    case: &Case,
    out: &mut AnswerText,
) -> Result<(), RowFault> {
    let giving = Giving {
        after: row.natural("after")?,
        times: row.natural("times")?,
    };
    let mut core = core_of(alloc, row, case, false)?;
    match waits_after(alloc, &mut core, giving) {
        Ok(count) => {
            let end = core.finish();
            put_waited(alloc, out, &end, count);
            mem::drop(end);
            Ok(())
        }
        Err(fault) => {
            mem::drop(core);
            Err(fault)
        }
    }
}

fn put_waited(alloc: Global, out: &mut AnswerText, end: &Result<Report, RunFault>, count: u64) {
    out.put("{\"waited\":");
    out.put_natural(count);
    out.put(",\"end\":");
    match end {
        Err(RunFault::OutOfMemory) => out.put("\"OutOfMemory\""),
        _ => put_end(alloc, out, end),
    }
    out.put("}");
}

/// Gives up after so many answers, and returns how many ends of children are waited for then. There has to be a request
/// that is left unanswered.
fn waits_after(alloc: Global, core: &mut RunCore<'_>, giving: Giving) -> Result<u64, RowFault>
    ensures { OnOk result (core.new.asks ≡ Asks.Finished) }
{
    let mut chance = Chance::new(0);
    drive_for(alloc, core, &mut chance, giving.after)?;
    for _ in 0..giving.times {
        if matches!(core.next(), Request::Finished) {
            return Err(RowFault::BadArgument);
        }
        let _told = core.give_up();
    }
    waits(core, &mut chance)
}

/// Answers each request with the end of a child, and returns how many there were. Another request is a bad argument.
fn waits(core: &mut RunCore<'_>, chance: &mut Chance) -> Result<u64, RowFault>
    ensures { OnOk result (core.new.asks ≡ Asks.Finished) }
{
    let mut count: u64 = 0;
    while !matches!(core.next(), Request::Finished) {
        let answer = end_asked_for(core.next(), core.in_flight(), chance)?;
        let _told = take_answer(core, answer);
        count = count.saturating_add(1);
    }
    Ok(count)
}

/// The end of a child, where that is what is asked for.
fn end_asked_for(asks: &Request, flying: &[u64], chance: &mut Chance) -> Result<Answer, RowFault>
    ensures { IfOk result (MayAnswer flying.now asks.now) }
{
    match asks {
        Request::Host(_, request) => Ok(Answer::Host(end_of_one(request, flying, chance)?)),
        _ => Err(RowFault::BadArgument),
    }
}

/// The end of a child, where the host is asked for one.
fn end_of_one(
    request: &HostRequest,
    flying: &[u64],
    chance: &mut Chance,
) -> Result<HostAnswer, RowFault>
    ensures { IfOk result (CanAnswer flying.now request.now) }
{
    match request {
        HostRequest::Collect => Ok(ended(flying, chance)),
        _ => Err(RowFault::BadArgument),
    }
}

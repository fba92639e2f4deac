//! A run over real processes and files, and a record.
ghost use Rattle.std.specs.Prelude.{IfOk, None, Ok, [], ◌≡◌};
ghost use Rattle.program_words.specs.RunWords.{wish_of_run};
ghost use Rattle.run_call.specs.Runs.{IsRanOver, IsRunExit, IsRunTold};
ghost use Rattle.run_given.specs.Named.{AreNamed, IsReady};
ghost use Rattle.run_rules.specs.Limits.{IsWithinLimits};
ghost use Rattle.workflow_check.specs.Checked.{fault_in};
ghost use Rattle.run_call.specs.Seen.{seen};

use crate::watched::Watched;
use end_words::{Exit, RunEnd, exit_of_run};
use job_rows::Record;
use process_machine::{Deaf, Hear, Heard, Machine, World};
use program_words::{Listen, RunWords, Savings, Silent, Teller, Telling};
use run_core::Options;
use run_facts::KeyParts;
use run_given::{Call, Given, Places};
use run_setup::{guarded_machine, memory_of, options_of};
use run_watch::{Adviser, Asked, Jobs, Memory, Speaker, TakeNear, Voice, noted};
use std::alloc::AllocError;
use std::cell::RefCell;
use std::io::Write;
use std::mem;
use std::process::Stdio;
use std::rt::Clock;
use workflow_engine::run;

/// Runs on a machine that works in these places, and asks a record of which nothing was asked. It had these jobs, if they are wanted.
pub fn on_machine<R: World, K: Record, E: Write>(
    rt: &R,
    given: &Given,
    places: &Places,
    call: &Call<'_>,
    recorded: &[KeyParts],
    rows: &mut K,
    err: &mut E,
) -> Result<RunEnd, AllocError>
where
    R::File: Into<Stdio>,
    requires ready { IsReady call.now.here.now (wish_of_run call.now.words.now) given.now }
    requires named { AreNamed call.now.here.now (wish_of_run call.now.words.now) places.now }
    ensures told { IsRunTold call.now.words.now.telling (E.contents err.old) (E.contents err.new) }
    ensures end { IfOk result (λ end. IsRunExit (wish_of_run call.now.words.now) call.now.path.now
        (seen K.Record rows.old) (seen K.Record rows.new) end.exit end.left) }
{
    let options = options_of(rt.alloc(), places, call)?;
    let host = guarded_machine(rt, given, places, call.words)?;
    let end = told_of(rt, host, given, options, call.words, recorded, rows, err)?;
    end.leaving(rt.alloc(), call.words, &places.work)
}

/// Runs, and says when the jobs start and end. If each has lines, what the children write to standard error is shown too.
fn told_of<R: World, K: Record, E: Write>(
    rt: &R,
    mut host: Machine<R>,
    given: &Given,
    options: Options,
    words: &RunWords,
    recorded: &[KeyParts],
    rows: &mut K,
    err: &mut E,
) -> Result<RunEnd, AllocError>
where
    R::File: Into<Stdio>,
    requires idle { host.running ≡ [] }
    requires accepted { fault_in given.now.process ≡ None }
    requires limits { IsWithinLimits options }
    ensures told { IsRunTold words.now.telling (E.contents err.old) (E.contents err.new) }
    ensures exit { IfOk result (λ end. IsRanOver given.now.process given.now.inputs options
        (seen K.Record rows.old) (seen K.Record rows.new) end.exit) }
{
    match words.telling {
        Telling::Nothing => {
            let memory = memory_of(words, recorded);
            ended(rt, host, Deaf, given, options, &mut Silent, memory, rows)
        }
        Telling::Lines => {
            host.show_messages();
            let teller = Teller::new(rt.alloc(), err, words.telling, words.launcher);
            let memory = memory_of(words, recorded);
            told_aloud(rt, host, given, options, teller, memory, rows)
        }
        Telling::OneLine | Telling::Objects => {
            let teller = Teller::new(rt.alloc(), err, words.telling, words.launcher);
            told_by(rt, host, given, options, teller, words, rows)
        }
    }
}

fn told_by<R: World, K: Record, E: Write>(
    rt: &R,
    host: Machine<R>,
    given: &Given,
    options: Options,
    mut teller: Teller<'_, E>,
    words: &RunWords,
    rows: &mut K,
) -> Result<RunEnd, AllocError>
where
    R::File: Into<Stdio>,
    requires idle { host.running ≡ [] }
    requires accepted { fault_in given.now.process ≡ None }
    requires limits { IsWithinLimits options }
    ensures { IfOk result (λ end. IsRanOver given.now.process given.now.inputs options
        (seen K.Record rows.old) (seen K.Record rows.new) end.exit) }
{
    let memory = memory_of(words, &[]);
    let end = ended(rt, host, Deaf, given, options, &mut teller, memory, rows);
    teller.finish(counted_in(words, &end));
    mem::drop(teller);
    end
}

// What became of the jobs, if that is not said among the words at the end of the program.
fn counted_in<'a>(words: &RunWords, end: &'a Result<RunEnd, AllocError>) -> Option<&'a Savings> {
    match end {
        Ok(end) if !words.explain => end.savings.as_ref(),
        _ => None,
    }
}

// The lines on the jobs and those of their commands are written by one writer.
fn told_aloud<R: World, K: Record, E: Write>(
    rt: &R,
    host: Machine<R>,
    given: &Given,
    options: Options,
    teller: Teller<'_, E>,
    memory: Memory<'_>,
    rows: &mut K,
) -> Result<RunEnd, AllocError>
where
    R::File: Into<Stdio>,
    requires idle { host.running ≡ [] }
    requires accepted { fault_in given.now.process ≡ None }
    requires limits { IsWithinLimits options }
    ensures { IfOk result (λ end. IsRanOver given.now.process given.now.inputs options
        (seen K.Record rows.old) (seen K.Record rows.new) end.exit) }
{
    let voice = RefCell::new(Voice::new(rt.alloc(), teller));
    let hearer = Speaker::new(&voice);
    let mut listener = Speaker::new(&voice);
    let end = ended(
        rt,
        host,
        hearer,
        given,
        options,
        &mut listener,
        memory,
        rows,
    );
    mem::drop(listener);
    mem::drop(voice);
    end
}

fn ended<R: World, H: Hear + Drop, K: Record, L: Listen + TakeNear>(
    rt: &R,
    host: Machine<R>,
    hearer: H,
    given: &Given,
    options: Options,
    listener: &mut L,
    memory: Memory<'_>,
    rows: &mut K,
) -> Result<RunEnd, AllocError>
where
    R::File: Into<Stdio>,
    requires idle { host.running ≡ [] }
    requires accepted { fault_in given.now.process ≡ None }
    requires limits { IsWithinLimits options }
    ensures { IfOk result (λ end. IsRanOver given.now.process given.now.inputs options
        (seen K.Record rows.old) (seen K.Record rows.new) end.exit) }
{
    let asked = Asked::new(rt.alloc(), &given.hints);
    let mut host = Heard::new(host, hearer, Adviser::new(&asked));
    let jobs = Jobs::new(rt, listener, memory);
    let mut watched = Watched {
        jobs,
        asked: &asked,
    };
    let report = run(
        rt.alloc(),
        &mut host,
        rows,
        &given.process,
        &given.inputs,
        options,
        &mut watched,
    );
    let exit = exit_of_run(rt.alloc(), host.machine().log(), report);
    let savings = savings_of(&exit, &mut watched.jobs);
    let end = noted(
        rt,
        host.machine(),
        given,
        watched.jobs.traces(),
        exit,
        savings,
    );
    // Times that can't be kept are read anew by the next run.
    let _kept = host.machine().keep_times();
    mem::drop(watched);
    mem::drop(host);
    mem::drop(asked);
    end
}

/// What became of the jobs of a run, if it succeeded.
fn savings_of<R: AllocGlobal + Clock, L: Listen + TakeNear>(
    exit: &Result<Exit, AllocError>,
    jobs: &mut Jobs<'_, R, L>,
) -> Option<Savings> {
    match exit {
        Ok(Exit::Output(_)) => {
            jobs.succeed();
            jobs.savings()
        }
        _ => None,
    }
}

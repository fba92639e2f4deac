//! One run over real children and real files, where a call of the host may fail: how it ended, and what it left.
ghost use Rattle.std.specs.Prelude.{◌≡◌, [], IfOk};
ghost use Rattle.run_rules.specs.Limits.{IsWithinLimits};

use crate::end::put_end;
use crate::run::{Case, Paths, end_over, options_at};
use crate::runs::failure_of;
use job_rows::{Command, Entry as Asked, MemoryRecord, Record};
use plain_data::Text;
use proc_host::{Entry, Host, HostAnswer};
use process_machine::Machine;
use run_core::{Options, Outcome, Report, RunFault};
use std::alloc::Global;
use std::{fs, mem};
use test_hosts::answers::put_numbers;
use test_hosts::failing::Failing;
use test_hosts::lost::Loss;
use test_hosts::machine::paths::put_measured;
use test_hosts::machine::place::{below, done, machine};
use test_rows::{AnswerText, Row, RowFault};

/// What a row's runs are of, and the folder that they have below the row's.
#[derive(Drop)]
pub struct Trial<'a> {
    pub rt: &'a HostRuntime,
    pub row: &'a Row,
    pub case: &'a Case,
    pub folder: &'a str,
}

/// A run's own folders in that of its trial, and how many calls of its host are answered before one fails, where one does.
#[derive(Drop)]
pub struct Leg<'a> {
    pub work: &'a str,
    pub outdir: &'a str,
    pub left: Option<u64>,
}

/// How a run ended, and what it left.
#[derive(Drop)]
pub struct Ended {
    pub counts: Counts,
    pub texts: EndTexts,
    /// What is at its OUTDIR, as JSON.
    pub found: String,
}

/// What happened in a run, counted.
#[derive(Clone, Copy)]
pub struct Counts {
    /// How many calls its host answered or failed, but for the one that was failed for the row.
    pub calls: u64,
    /// How many children ended.
    pub children: u64,
    /// How many rows it put.
    pub rows: u64,
}

/// What a run reported at its end.
#[derive(Drop)]
pub struct EndTexts {
    /// The code of its fault, or the name of its outcome with its notes.
    pub end: String,
    /// Its report, as JSON; of a fault nothing.
    pub report: String,
}

/// Runs a trial's process over this record.
pub fn end_of_run(
    trial: &Trial<'_>,
    rows: &mut MemoryRecord,
    leg: &Leg<'_>,
) -> Result<Ended, RowFault> {
    work_made(trial, leg)?;
    let mut host = host_of(trial, leg)?;
    let before = puts(rows.log());
    let texts = texts_on(trial, rows, leg, &mut host);
    let counts = counts_of(host.passed(), rows.log(), before);
    mem::drop(host);
    with_found(trial, leg, counts, texts?)
}

fn work_made(trial: &Trial<'_>, leg: &Leg<'_>) -> Result<(), RowFault> {
    let work = below(trial.rt.alloc(), trial.folder, leg.work)?;
    done(fs::create_dir(trial.rt, work.as_str()))
}

/// The counts of a run from these logs, where so many rows were put before it.
fn counts_of(passed: &[Entry], asked: &[Asked], before: u64) -> Counts {
    Counts {
        calls: passed.len() as u64,
        children: ends(passed),
        rows: puts(asked).saturating_sub(before),
    }
}

/// How a run ended, with what is at its OUTDIR.
fn with_found(
    trial: &Trial<'_>,
    leg: &Leg<'_>,
    counts: Counts,
    texts: EndTexts,
) -> Result<Ended, RowFault> {
    let found = found_at(trial, leg)?;
    Ok(Ended {
        counts,
        texts,
        found,
    })
}

fn options_of(trial: &Trial<'_>, leg: &Leg<'_>) -> Result<Options, RowFault>
    ensures { IfOk result IsWithinLimits }
{
    let alloc = trial.rt.alloc();
    let paths = Paths {
        work: below(alloc, trial.folder, leg.work)?,
        outdir: below(alloc, trial.folder, leg.outdir)?,
        path_env: Text::from_text(alloc, "/usr/bin:/bin")?,
    };
    options_at(trial.row, true, paths)
}

fn host_of<'a>(trial: &Trial<'a>, leg: &Leg<'_>) -> Result<Failing<&'a HostRuntime>, RowFault>
    ensures { IfOk result (λ host. host.running ≡ []) }
{
    let alloc = trial.rt.alloc();
    let work = below(alloc, trial.folder, leg.work)?;
    let archive = below(alloc, trial.folder, "archive")?;
    let outdir = below(alloc, trial.folder, leg.outdir)?;
    let inner = Machine::new(trial.rt, work, Some(archive), outdir);
    Ok(Failing::new(alloc, inner, leg.left, loss_of(trial.row)))
}

/// How the row's calls fail: out of memory where it says so.
fn loss_of(row: &Row) -> Loss {
    match row.find("memory") {
        Some(_) => Loss::Memory,
        None => Loss::Fault,
    }
}

fn texts_on<H: Host, K: Record>(
    trial: &Trial<'_>,
    rows: &mut K,
    leg: &Leg<'_>,
    host: &mut H,
) -> Result<EndTexts, RowFault>
    requires { H.running host.old ≡ [] }
{
    let options = options_of(trial, leg)?;
    texts_over(trial.rt.alloc(), trial.case, rows, host, options)
}

fn texts_over<H: Host, K: Record>(
    alloc: Global,
    case: &Case,
    rows: &mut K,
    host: &mut H,
    options: Options,
) -> Result<EndTexts, RowFault>
    requires idle { H.running host.old ≡ [] }
    requires limits { IsWithinLimits options }
{
    let end = end_over(alloc, case, host, rows, options);
    let texts = texts_of(alloc, &end);
    mem::drop(end);
    texts
}

fn texts_of(alloc: Global, end: &Result<Report, RunFault>) -> Result<EndTexts, RowFault> {
    let mut report = AnswerText::new(alloc);
    if end.is_ok() {
        put_end(alloc, &mut report, end);
    }
    let mut words = AnswerText::new(alloc);
    put_words(&mut words, end);
    let report = report.finish()?;
    let end = words.finish()?;
    Ok(EndTexts { end, report })
}

/// How many rows were put.
fn puts(log: &[Asked]) -> u64 {
    let mut count: u64 = 0;
    for asked in log {
        if asked.command == Command::Put && asked.answer.is_ok() {
            count = count.saturating_add(1);
        }
    }
    count
}

/// How many children ended by themselves.
fn ends(log: &[Entry]) -> u64 {
    let mut count: u64 = 0;
    for entry in log {
        if matches!(entry.answer, HostAnswer::Ended(_)) {
            count = count.saturating_add(1);
        }
    }
    count
}

/// Writes the code of a run's fault, with the tickets that nobody waits for any more; or the name of its outcome, with what was noted.
fn put_words(out: &mut AnswerText, end: &Result<Report, RunFault>) {
    match end {
        Ok(report) => put_report(out, report),
        Err(RunFault::Host(fault, running)) => {
            out.put(fault.code());
            if !running.is_empty() {
                out.put(" ");
                put_numbers(out, running.as_slice());
            }
        }
        Err(RunFault::Record(refusal)) => out.put(refusal.code()),
        Err(RunFault::Mismatch(_)) => out.put("Mismatch"),
        Err(RunFault::TooManyJobs) => out.put("TooManyJobs"),
        Err(RunFault::OutOfMemory) => out.put("OutOfMemory"),
    }
}

fn put_report(out: &mut AnswerText, report: &Report) {
    out.put(match &report.outcome {
        Outcome::Success(_) => "success",
        Outcome::PermanentFail(_, _) => "permanentFail",
        Outcome::TemporaryFail(_) => "temporaryFail",
    });
    for note in report.notes.as_slice() {
        let (call, code) = failure_of(&note.kind);
        out.put(", ");
        out.put(call);
        out.put(" ");
        out.put(code);
    }
}

fn found_at(trial: &Trial<'_>, leg: &Leg<'_>) -> Result<String, RowFault> {
    let outdir = below(trial.rt.alloc(), trial.folder, leg.outdir)?;
    let mut host = machine(trial.rt, trial.folder)?;
    let mut out = AnswerText::new(trial.rt.alloc());
    put_measured(&mut host, &outdir, &mut out);
    mem::drop(host);
    out.finish()
}

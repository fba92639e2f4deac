//! Runs over real children and real files in which each call of the host fails in turn.

use crate::run::{Case, case_at};
use crate::trial::{Ended, Leg, Trial, end_of_run};
use job_rows::MemoryRecord;
use std::{fs, mem};
use test_hosts::machine::place::{done, made, prepared, removed};
use test_rows::{AnswerText, Row, RowFault};

/// A run in which a call of the host fails, where one does, and after it one over the same record and archive in which none does.
#[derive(Drop)]
struct Tried {
    first: Ended,
    again: Ended,
}

/// What all runs of a row came to.
#[derive(Clone, Copy)]
struct Kept {
    whole: bool,
    rows: bool,
    again: bool,
}

/// How a row's run ends where its first, its second, .. its last call of the host fails, with how many rows it put. `whole` says that its OUTDIR
/// has nothing then, or all; `rows` that it put no more rows than children ended; `again` that the run after it ends as one
/// that nothing failed, with the same in OUTDIR. Where the row is `warm`, a run that nothing fails comes before each.
pub fn answer(rt: &HostRuntime, row: &Row) -> Result<String, RowFault> {
    let place = made(rt)?;
    let told = told_of(rt, row, place.as_str());
    removed(rt, place.as_str())?;
    told
}

fn told_of(rt: &HostRuntime, row: &Row, place: &str) -> Result<String, RowFault> {
    prepared(rt, row, place)?;
    let location = format!(in rt.alloc(); "file://{place}/inputs.json")?;
    let case = case_at(rt.alloc(), row, location.as_str())?;
    let told = told_with(rt, row, place, &case);
    mem::drop(case);
    told
}

fn told_with(rt: &HostRuntime, row: &Row, place: &str, case: &Case) -> Result<String, RowFault> {
    let folder = format!(in rt.alloc(); "{place}/run")?;
    told_by(&Trial {
        rt,
        row,
        case,
        folder: folder.as_str(),
    })
}

fn told_by(trial: &Trial<'_>) -> Result<String, RowFault> {
    let whole = both_runs(trial, None)?;
    let told = told_beside(trial, &whole);
    mem::drop(whole);
    told
}

fn told_beside(trial: &Trial<'_>, whole: &Tried) -> Result<String, RowFault> {
    let mut kept = Kept {
        whole: true,
        rows: true,
        again: is_as(&whole.again, &whole.first),
    };
    let mut out = AnswerText::new(trial.rt.alloc());
    out.put("{\"ends\":[");
    for left in 0..whole.first.counts.calls {
        kept = kept_after(trial, left, kept, &whole.first, &mut out)?;
    }
    out.put("]");
    put_kept(&mut out, kept);
    out.put("}");
    out.finish()
}

fn kept_after(
    trial: &Trial<'_>,
    left: u64,
    kept: Kept,
    whole: &Ended,
    out: &mut AnswerText,
) -> Result<Kept, RowFault> {
    let tried = both_runs(trial, Some(left))?;
    put_end(out, &tried.first);
    let kept = kept_with(kept, &tried, whole);
    mem::drop(tried);
    Ok(kept)
}

fn put_end(out: &mut AnswerText, ended: &Ended) {
    out.put_comma();
    out.put("[");
    out.put_quoted(ended.texts.end.as_str());
    out.put(",");
    out.put_natural(ended.counts.rows);
    out.put("]");
}

fn put_kept(out: &mut AnswerText, kept: Kept) {
    out.put(",\"whole\":");
    out.put_flag(kept.whole);
    out.put(",\"rows\":");
    out.put_flag(kept.rows);
    out.put(",\"again\":");
    out.put_flag(kept.again);
}

fn kept_with(kept: Kept, tried: &Tried, whole: &Ended) -> Kept {
    let found = tried.first.found.as_str();
    let counts = tried.first.counts;
    Kept {
        whole: kept.whole && (is_nothing(found) || found == whole.found.as_str()),
        rows: kept.rows && counts.rows <= counts.children,
        again: kept.again && is_as(&tried.again, whole),
    }
}

fn is_nothing(found: &str) -> bool {
    found == "null" || found == "[]"
}

fn is_as(again: &Ended, whole: &Ended) -> bool {
    again.texts.report.as_str() == whole.texts.report.as_str()
        && again.found.as_str() == whole.found.as_str()
}

/// A run over a new record and archive whose host fails the call after so many, or none, and the run after it.
fn both_runs(trial: &Trial<'_>, left: Option<u64>) -> Result<Tried, RowFault> {
    archive_made(trial)?;
    let mut rows = MemoryRecord::new(trial.rt.alloc(), None);
    let tried = tried_over(trial, left, &mut rows);
    mem::drop(rows);
    match done(fs::remove_dir_all(trial.rt, trial.folder)) {
        Ok(()) => tried,
        Err(fault) => {
            mem::drop(tried);
            Err(fault)
        }
    }
}

fn archive_made(trial: &Trial<'_>) -> Result<(), RowFault> {
    let archive = format!(in trial.rt.alloc(); "{}/archive", trial.folder)?;
    done(fs::create_dir_all(trial.rt, archive.as_str()))
}

fn tried_over(
    trial: &Trial<'_>,
    left: Option<u64>,
    rows: &mut MemoryRecord,
) -> Result<Tried, RowFault> {
    if trial.row.find("warm").is_some() {
        let before = end_of_run(trial, rows, &leg("before", "results-before", None))?;
        mem::drop(before);
    }
    let first = end_of_run(trial, rows, &leg("work", "results", left))?;
    match end_of_run(trial, rows, &leg("again", "results", None)) {
        Ok(again) => Ok(Tried { first, again }),
        Err(fault) => {
            mem::drop(first);
            Err(fault)
        }
    }
}

fn leg<'a>(work: &'a str, outdir: &'a str, left: Option<u64>) -> Leg<'a> {
    Leg { work, outdir, left }
}

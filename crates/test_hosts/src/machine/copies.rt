use crate::machine::archives::{text_at, text_of};
use crate::machine::child::put_folder;
use crate::machine::listing::put_fault;
use crate::machine::place::{below, scripted};
use crate::machine::shell::put_said;
use plain_data::{Items, Keyed, Text};
use proc_host::{Host, HostError};
use process_machine::{Hindrance, Machine, Undelivered, World};
use serde_json::Value as Json;
use staging::{Move, StagePlan};
use std::alloc::Global;
use std::mem;
use std::process::Stdio;
use test_rows::{AnswerText, Row, RowFault};

/// Writes what a stage or a delivery of these moves answers, once these paths were measured, these folders scanned and the script `then`
/// has run, and what the row's folder holds then.
pub fn put_told<R: World>(
    rt: &HostRuntime,
    host: &mut Machine<R>,
    row: &Row,
    place: &str,
    out: &mut AnswerText,
) -> Result<(), RowFault>
where
    R::File: Into<Stdio>,
{
    look_at_all(rt.alloc(), host, row, place)?;
    scripted(rt, row, "then", place)?;
    put_copied(rt.alloc(), host, row, place, out)?;
    if row.find("why").is_some() {
        put_why(host, place, out);
    }
    if row.find("sh").is_some() {
        out.put(",\"sh\":");
        put_said(rt, row.text("sh")?, place, out)?;
    }
    out.put("}");
    Ok(())
}

fn put_copied<H: Host>(
    alloc: Global,
    host: &mut H,
    row: &Row,
    place: &str,
    out: &mut AnswerText,
) -> Result<(), RowFault> {
    let folder = Text::from_text(alloc, place)?;
    let plan = plan_of(alloc, row, place)?;
    copy(host, row, &plan, &folder, out);
    mem::drop(plan);
    Ok(())
}

// Adds what could not be copied, why, and what is not as it was told, where that is why.
fn put_why<R: World>(host: &Machine<R>, place: &str, out: &mut AnswerText) {
    out.put(",\"why\":");
    match host.undelivered() {
        None => out.put("null"),
        Some(
            Undelivered {
                target,
                why,
                changed,
            },
        ) => {
            out.put("[");
            put_name(target, place, out);
            out.put(",");
            out.put_quoted(hindrance_name(*why));
            if let Some(path) = changed {
                out.put(",");
                put_name(path, place, out);
            }
            out.put("]");
        }
    }
}

fn put_name(path: &Text, place: &str, out: &mut AnswerText) {
    out.put_quoted(path.as_str().strip_prefix(place).unwrap_or(""));
}

fn hindrance_name(why: Hindrance) -> &'static str {
    match why {
        Hindrance::Given => "Given",
        Hindrance::Guarded => "Guarded",
        Hindrance::Taken => "Taken",
        Hindrance::Forbidden => "Forbidden",
        Hindrance::Full => "Full",
        Hindrance::Changed => "Changed",
        Hindrance::TooLong => "TooLong",
        Hindrance::Other => "Other",
    }
}

fn look_at_all<H: Host>(
    alloc: Global,
    host: &mut H,
    row: &Row,
    place: &str,
) -> Result<(), RowFault> {
    if row.find("measured").is_some() {
        for name in row.list("measured")? {
            measure(host, &below(alloc, place, text_of(name)?)?)?;
        }
    }
    if row.find("scanned").is_some() {
        for name in row.list("scanned")? {
            scan(host, &below(alloc, place, text_of(name)?)?)?;
        }
    }
    Ok(())
}

fn measure<H: Host>(host: &mut H, path: &Text) -> Result<(), RowFault> {
    match host.measure(path) {
        Ok(_) => Ok(()),
        Err(_) => Err(RowFault::BadArgument),
    }
}

fn scan<H: Host>(host: &mut H, folder: &Text) -> Result<(), RowFault> {
    match host.scan(folder) {
        Ok(_) => Ok(()),
        Err(_) => Err(RowFault::BadArgument),
    }
}

fn copy<H: Host>(host: &mut H, row: &Row, plan: &StagePlan, folder: &Text, out: &mut AnswerText) {
    out.put("{\"call\":");
    match copied(host, row, plan) {
        Ok(()) => out.put_quoted("done"),
        Err(error) => put_fault(out, error),
    }
    out.put(",\"found\":");
    put_folder(host, folder, out);
}

fn copied<H: Host>(host: &mut H, row: &Row, plan: &StagePlan) -> Result<(), HostError> {
    match row.natural("number") {
        Ok(number) => host.stage(plan, number),
        Err(_) => host.deliver(plan),
    }
}

fn plan_of(alloc: Global, row: &Row, place: &str) -> Result<StagePlan, RowFault> {
    let mut moves = Items::new(alloc);
    for pair in row.list("moves")? {
        moves.push(move_of(alloc, pair, place)?)?;
    }
    Ok(StagePlan {
        moves,
        value: Keyed::new(alloc),
    })
}

fn move_of(alloc: Global, pair: &Json, place: &str) -> Result<Move, RowFault> {
    let source = text_at(pair, 0)?;
    let target = text_at(pair, 1)?;
    Ok(Move {
        source: below(alloc, place, source)?,
        target: below(alloc, place, target)?,
    })
}

use crate::machine::listing::{put_fault, put_listing};
use crate::machine::place::below;
use crate::machine::shell::put_said;
use crate::script::listing_of;
use plain_data::{Items, Text};
use proc_host::{Host, HostError};
use serde_json::Value as Json;
use staging::Found;
use std::alloc::Global;
use std::mem;
use test_rows::{AnswerText, Row, RowFault};

/// Writes what a row's steps answer, one after the other, of a host that keeps its archive in the row's `archive`, where the row has one.
///
/// A step is `{"scan":FOLDER}`, the listing of a folder; `{"files":LISTING}`; `{"store":[KEY,FOLDER]}` and `{"fetch":[KEY,NUMBER]}`,
/// both of the files that were listed last; `{"discard":KEY}`; or `{"sh":SCRIPT}`, which answers what the shell writes.
pub fn put_told<H: Host>(
    rt: &HostRuntime,
    host: &mut H,
    row: &Row,
    place: &str,
    out: &mut AnswerText,
) -> Result<(), RowFault> {
    let steps = row.list("steps")?;
    let mut files = Items::new(rt.alloc());
    out.put("[");
    for step in steps {
        out.put_comma();
        take_step(rt, host, step, place, &mut files, out)?;
    }
    out.put("]");
    Ok(())
}

fn take_step<H: Host>(
    rt: &HostRuntime,
    host: &mut H,
    step: &Json,
    place: &str,
    files: &mut Items<Found>,
    out: &mut AnswerText,
) -> Result<(), RowFault> {
    if let Some(folder) = step.get("scan") {
        let folder = below(rt.alloc(), place, text_of(folder)?)?;
        put_scanned(host, &folder, files, out);
    } else if let Some(listing) = step.get("files") {
        mem::drop(mem::replace(files, listing_of(rt.alloc(), listing)?));
        put_listing(out, files.as_slice());
    } else if let Some(script) = step.get("sh") {
        put_said(rt, text_of(script)?, place, out)?;
    } else {
        take_call(rt.alloc(), host, step, place, files, out)?;
    }
    Ok(())
}

fn take_call<H: Host>(
    alloc: Global,
    host: &mut H,
    step: &Json,
    place: &str,
    files: &Items<Found>,
    out: &mut AnswerText,
) -> Result<(), RowFault> {
    if let Some(store) = step.get("store") {
        let key = Text::from_text(alloc, text_at(store, 0)?)?;
        let folder = below(alloc, place, text_at(store, 1)?)?;
        put_done(host.store(&key, &folder, files), out);
        return Ok(());
    }
    if let Some(key) = step.get("discard") {
        put_done(host.discard(&Text::from_text(alloc, text_of(key)?)?), out);
        return Ok(());
    }
    let fetch = step.get("fetch").ok_or(RowFault::BadArgument)?;
    let key = Text::from_text(alloc, text_at(fetch, 0)?)?;
    let number = fetch.get(1).and_then(|number| number.as_u64());
    put_fetched(
        host.fetch(&key, number.ok_or(RowFault::BadArgument)?, files),
        out,
    );
    Ok(())
}

fn put_scanned<H: Host>(
    host: &mut H,
    folder: &Text,
    files: &mut Items<Found>,
    out: &mut AnswerText,
) {
    match host.scan(folder) {
        Ok(found) => {
            put_listing(out, found.as_slice());
            mem::drop(mem::replace(files, found));
        }
        Err(error) => put_fault(out, error),
    }
}

pub fn put_done(outcome: Result<(), HostError>, out: &mut AnswerText) {
    match outcome {
        Ok(()) => out.put_quoted("done"),
        Err(error) => put_fault(out, error),
    }
}

pub fn put_fetched(outcome: Result<Items<Found>, HostError>, out: &mut AnswerText) {
    match outcome {
        Ok(found) => put_listing(out, found.as_slice()),
        Err(error) => put_fault(out, error),
    }
}

/// The text at an index of a list.
pub fn text_at(list: &Json, index: usize) -> Result<&str, RowFault> {
    text_of(list.get(index).ok_or(RowFault::BadArgument)?)
}

/// The text of a value that is one.
pub fn text_of(json: &Json) -> Result<&str, RowFault> {
    json.as_str().ok_or(RowFault::BadArgument)
}

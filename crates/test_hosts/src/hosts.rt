use crate::answers::put_numbers;
use crate::copies::put_scripted;
use crate::machine::archives::{put_done, put_fetched};
use crate::machine::child::put_folder;
use crate::machine::children::close_all;
use crate::machine::listing::{put_code, put_fault};
use crate::machine::paths::put_head;
use crate::machine::place::empty_plan;
use crate::requests::put_requests;
use crate::script::{host_by, listing_of};
use command_line::Launch;
use plain_data::{Items, Text};
use proc_host::{ChildEnd, Host, Scripted, Ticket};
use std::alloc::{AllocError, Global};
use std::mem;
use test_rows::{AnswerText, Row, RowFault};

/// Writes what a scripted host answers to the row's calls, one after the other: `measure`, `stage`, `start`, `collect`, `scan`,
/// `head` (of three bytes at most), `fetch` and `store` (both of the row's `files`), `deliver`, `discard`, and `close` for the ticket
/// that was started last.
pub fn put_answer(alloc: Global, row: &Row, out: &mut AnswerText) -> Result<(), RowFault> {
    let mut host = host_by(alloc, row, "script")?;
    let mut held = Vec::new(alloc);
    let put = put_answers(alloc, row, &mut host, &mut held, out);
    close_all(&mut host, held);
    mem::drop(host);
    put
}

fn put_answers(
    alloc: Global,
    row: &Row,
    host: &mut Scripted,
    held: &mut Vec<Ticket>,
    out: &mut AnswerText,
) -> Result<(), RowFault> {
    out.put("{\"answers\":[");
    for call in row.list("calls")? {
        out.put_comma();
        let call = call.as_str().unwrap_or("?");
        match call {
            "collect" => put_collected(host, out)?,
            _ => put_call(alloc, row, call, host, held, out)?,
        }
    }
    out.put("],\"asked\":");
    put_requests(alloc, out, host.log());
    out.put(",\"left\":");
    put_numbers(out, host.running());
    out.put(",\"unsaid\":");
    out.put_natural(host.script_left().len() as u64);
    out.put("}");
    Ok(())
}

/// Writes what a host answers to a call that takes no child in flight.
fn put_call<H: Host>(
    alloc: Global,
    row: &Row,
    call: &str,
    host: &mut H,
    held: &mut Vec<Ticket>,
    out: &mut AnswerText,
) -> Result<(), RowFault> {
    match call {
        "measure" => put_measured(alloc, host, out),
        "stage" | "deliver" => {
            put_copied(alloc, call, host, out);
            Ok(())
        }
        "start" => put_started(alloc, host, held, out),
        "scan" => {
            put_folder(host, &Text::from_text(alloc, "w/j1/out")?, out);
            Ok(())
        }
        "head" => {
            put_head(host, &Text::from_text(alloc, "/d/a")?, 3, out);
            Ok(())
        }
        "fetch" => put_fetch(alloc, row, host, out),
        "store" => put_store(alloc, row, host, out),
        "discard" => {
            put_done(host.discard(&Text::from_text(alloc, "k")?), out);
            Ok(())
        }
        "close" => put_closed(host, held, out),
        _ => Err(RowFault::BadArgument),
    }
}

/// Writes what a stage or a delivery of nothing answers.
fn put_copied<H: Host>(alloc: Global, call: &str, host: &mut H, out: &mut AnswerText) {
    let plan = empty_plan(alloc);
    let done = match call {
        "stage" => host.stage(&plan, 1),
        _ => host.deliver(&plan),
    };
    mem::drop(plan);
    put_done(done, out);
}

fn put_started<H: Host>(
    alloc: Global,
    host: &mut H,
    held: &mut Vec<Ticket>,
    out: &mut AnswerText,
) -> Result<(), RowFault> {
    held.reserve(1)?;
    let launch = echo(alloc)?;
    match host.start(&launch) {
        Ok(ticket) => {
            out.put_natural(ticket.number());
            held.push(ticket).unwrap();
        }
        Err(error) => put_fault(out, error),
    }
    mem::drop(launch);
    Ok(())
}

fn put_collected(host: &mut Scripted, out: &mut AnswerText) -> Result<(), RowFault> {
    if host.running().is_empty() {
        return Err(RowFault::BadArgument);
    }
    match host.collect() {
        Ok(end) => put_child_end(out, end),
        Err(error) => put_fault(out, error),
    }
    Ok(())
}

fn put_child_end(out: &mut AnswerText, end: ChildEnd) {
    out.put("[");
    out.put_natural(end.ticket);
    out.put(",");
    put_code(out, end.code);
    out.put(",");
    out.put_natural(end.millis);
    out.put("]");
}

fn put_fetch<H: Host>(
    alloc: Global,
    row: &Row,
    host: &mut H,
    out: &mut AnswerText,
) -> Result<(), RowFault> {
    let key = Text::from_text(alloc, "k")?;
    let files = listing_of(alloc, row.json("files")?)?;
    put_fetched(host.fetch(&key, 1, &files), out);
    mem::drop(files);
    Ok(())
}

fn put_store<H: Host>(
    alloc: Global,
    row: &Row,
    host: &mut H,
    out: &mut AnswerText,
) -> Result<(), RowFault> {
    let key = Text::from_text(alloc, "k")?;
    let folder = Text::from_text(alloc, "w/j1/out")?;
    let files = listing_of(alloc, row.json("files")?)?;
    put_done(host.store(&key, &folder, &files), out);
    mem::drop(files);
    Ok(())
}

fn put_measured<H: Host>(
    alloc: Global,
    host: &mut H,
    out: &mut AnswerText,
) -> Result<(), RowFault> {
    let path = Text::from_text(alloc, "/d/a")?;
    match host.measure(&path) {
        Ok(measure) => put_scripted(out, &measure),
        Err(error) => put_fault(out, error),
    }
    Ok(())
}

fn put_closed<H: Host>(
    host: &mut H,
    held: &mut Vec<Ticket>,
    out: &mut AnswerText,
) -> Result<(), RowFault> {
    match held.pop() {
        Some(ticket) => {
            host.close(ticket);
            out.put_quoted("closed");
            Ok(())
        }
        None => Err(RowFault::BadArgument),
    }
}

/// The launch of `echo hi`.
fn echo(alloc: Global) -> Result<Launch, AllocError> {
    let stdout = Text::from_text(alloc, "out.txt")?;
    let dir = Text::from_text(alloc, "w/j1/out")?;
    let mut words = Items::new(alloc);
    words.push(Text::from_text(alloc, "echo")?)?;
    words.push(Text::from_text(alloc, "hi")?)?;
    Ok(Launch {
        words,
        env: Items::new(alloc),
        stdin: None,
        stdout: Some(stdout),
        stderr: None,
        dir,
    })
}

use crate::machine::child::{launch_with, words_in};
use crate::machine::listing::{put_code, put_fault};
use crate::machine::place::stage_nothing;
use proc_host::{ChildEnd, Host, Ticket};
use process_machine::{Machine, World};
use serde_json::Value as Json;
use std::alloc::Global;
use std::mem;
use std::process::Stdio;
use std::rt::Clock;
use std::time::Duration;
use test_rows::{AnswerText, Row, RowFault};

/// Writes the tickets and exit codes of several children at once, in the order in which they are collected. The first is
/// collected a little after the last was started.
pub fn put_told<R: World>(
    rt: &HostRuntime,
    host: &mut Machine<R>,
    row: &Row,
    place: &str,
    out: &mut AnswerText,
)
where
    R::File: Into<Stdio>,
{
    if let Err(error) = stage_nothing(rt.alloc(), host) {
        return put_fault(out, error);
    }
    let mut held = Vec::new(rt.alloc());
    match start_all(rt.alloc(), host, row, place, &mut held) {
        Ok(()) => {
            rt.sleep(Duration::from_millis(300));
            collect_all(host, held.len(), out);
        }
        Err(fault) => out.fail(fault),
    }
    close_all(host, held);
}

fn start_all<H: Host>(
    alloc: Global,
    host: &mut H,
    row: &Row,
    place: &str,
    held: &mut Vec<Ticket>,
) -> Result<(), RowFault> {
    for child in row.list("children")? {
        held.reserve(1)?;
        match start(alloc, host, row, place, child)? {
            Some(ticket) => held.push(ticket).unwrap(),
            None => return Err(RowFault::BadArgument),
        }
    }
    Ok(())
}

fn start<H: Host>(
    alloc: Global,
    host: &mut H,
    row: &Row,
    place: &str,
    child: &Json,
) -> Result<Option<Ticket>, RowFault> {
    let words = words_in(alloc, child.as_array().ok_or(RowFault::BadArgument)?)?;
    let launch = launch_with(alloc, row, place, words)?;
    let started = host.start(&launch).ok();
    mem::drop(launch);
    Ok(started)
}

fn collect_all<R: World>(host: &mut Machine<R>, count: usize, out: &mut AnswerText)
where
    R::File: Into<Stdio>,
{
    out.put("[");
    for _ in 0..count {
        if host.running().is_empty() {
            return out.fail(RowFault::BadArgument);
        }
        out.put_comma();
        match host.collect() {
            Ok(ending) => put_end(out, &ending),
            Err(error) => put_fault(out, error),
        }
    }
    out.put("]");
}

fn put_end(out: &mut AnswerText, ending: &ChildEnd) {
    out.put("[");
    out.put_natural(ending.ticket);
    out.put(",");
    put_code(out, ending.code);
    out.put("]");
}

/// Closes all these tickets.
pub fn close_all<H: Host>(host: &mut H, mut held: Vec<Ticket>) {
    while let Some(ticket) = held.pop() {
        host.close(ticket);
    }
    held.destroy_empty();
}

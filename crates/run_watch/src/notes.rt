//! What is said of the job or the input that failed, and of the result that could not be delivered.

use crate::traces::Traces;
use collected_outputs::OutputFault;
use command_line::{BuildFault, Launch};
use cwl_process::Tool;
use end_notes::{
    add_ending, add_listing, add_mismatch, add_obstacle, add_output, add_remarks, add_start,
    add_step, add_tool, add_uncopied, misfit_lines, missing_lines, secondary_lines, tool_of,
};
use end_words::{
    Counted, Exit, Fault, Named, add_over_budget, add_tally, add_undiscarded, add_unput,
    add_unstored, add_untouched, ended_with, failed_jobs, failed_too, more_words, other_failures,
    tally_of, unkept_for_room,
};
use job_graph::Cause as NoValue;
use plain_data::Text;
use proc_host::{ChildEnd, Entry, HostFault};
use process_machine::{Machine, World, last_lines, messages_file};
use program_words::{ending, line_of};
use run_facts::{end_of, launch_with, listing_of, moves_in};
use run_given::Given;
use run_rules::{Cause, CollectCause};
use staging::Found;
use std::alloc::{AllocError, Global};
use std::mem;

/// The place of the process itself, as JSON text.
const ROOT: &str = "\"main\"";

/// Of how many further jobs whose command failed something is said.
const MOST_BLOCKS: usize = 10;

/// Returns lines on what failed. Of a job they have its command, how it ended, the last that it said, and if an output is lacking its
/// pattern and what is there; of an input of the process its value or file; of a reference the text that it stands in; of a call of the host
/// the place of the job, and where a program was looked for or what is in a folder that can't be listed; of a delivery the result that is
/// lacking, why, and where it lies. Of a run that failed they also say which other commands failed, with the same of each, and what became
/// of its jobs in numbers, and of any run what it has ignored. If memory runs out there are none.
pub fn notes_on<R: World>(
    rt: &R,
    host: &Machine<R>,
    given: &Given,
    traces: &Traces<'_>,
    exit: &Exit,
) -> Vec<String> {
    let mut lines = Vec::new(rt.alloc());
    match add_notes(rt, host, given, traces, exit, &mut lines) {
        Ok(()) => lines,
        Err(AllocError) => Vec::new(rt.alloc()),
    }
}

fn add_notes<R: World>(
    rt: &R,
    host: &Machine<R>,
    given: &Given,
    traces: &Traces<'_>,
    exit: &Exit,
    lines: &mut Vec<String>,
) -> Result<(), AllocError> {
    add_own(rt, host, given, traces, exit, lines)?;
    let failed = failed_in(rt.alloc(), given, traces, exit)?;
    let added = add_of_run(rt, host, traces, failed.as_slice(), exit, lines);
    mem::drop(failed);
    added?;
    match traces.memory {
        Some(memory) => add_remarks(rt, given, memory.document, memory.inputs, lines),
        None => Ok(()),
    }
}

// Adds what is said of the other jobs, what could not be kept, and what became of all.
fn add_of_run<R: World>(
    rt: &R,
    host: &Machine<R>,
    traces: &Traces<'_>,
    failed: &[u64],
    exit: &Exit,
    lines: &mut Vec<String>,
) -> Result<(), AllocError> {
    add_others(rt, host, traces, failed, exit, lines)?;
    add_unkept(rt.alloc(), host, traces, lines)?;
    match traces.memory {
        Some(memory) if matches!(exit, Exit::Permanent(_, _) | Exit::Temporary(_)) => {
            add_counts(rt.alloc(), traces, failed, exit, memory.keeps, lines)
        }
        _ => Ok(()),
    }
}

/// Returns a line on the jobs whose files there was no room for, if that is why they were not kept. If memory runs out there is none.
pub fn unkept_on<R: World>(alloc: Global, host: &Machine<R>, traces: &Traces<'_>) -> Option<Text> {
    let archive = archive_of(traces);
    unkept_for_room(alloc, &traces.unstored, archive, host.unstored()).unwrap_or(None)
}

// Adds which jobs could not be kept for later runs, and why, and what could not be noted or removed of those that are kept.
fn add_unkept<R: World>(
    alloc: Global,
    host: &Machine<R>,
    traces: &Traces<'_>,
    lines: &mut Vec<String>,
) -> Result<(), AllocError> {
    let archive = archive_of(traces);
    add_unstored(alloc, &traces.unstored, archive, host.unstored(), lines)?;
    add_over_budget(alloc, traces.over_budget(), lines)?;
    add_unput(alloc, &traces.unput, traces.refusal, lines)?;
    add_untouched(alloc, &traces.untouched, traces.use_refusal, lines)?;
    add_undiscarded(alloc, &traces.undiscarded, archive, lines)
}

// The name of the archive or of the cache.
fn archive_of<'a>(traces: &Traces<'a>) -> Option<&'a str> {
    match &traces.memory {
        Some(memory) => memory.archive,
        None => None,
    }
}

// Adds what is said of what the end names.
fn add_own<R: World>(
    rt: &R,
    host: &Machine<R>,
    given: &Given,
    traces: &Traces<'_>,
    exit: &Exit,
    lines: &mut Vec<String>,
) -> Result<(), AllocError> {
    match exit {
        Exit::Permanent(place, cause) => {
            add_failure(rt, host, given, traces, place.as_str(), cause, lines)
        }
        Exit::Temporary(place) => add_job(rt, host, traces.ticket_at(place.as_str()), lines),
        Exit::Mismatch(place) => add_forgotten(rt, host, traces, place.as_str(), lines),
        Exit::Fault(Fault::Host(HostFault::Deliver, _)) => add_delivery(rt.alloc(), host, lines),
        Exit::Fault(Fault::Host(fault, _)) => add_call(rt, host, traces, *fault, lines),
        _ => Ok(()),
    }
}

// Adds what is said of the job or the input that failed.
fn add_failure<R: World>(
    rt: &R,
    host: &Machine<R>,
    given: &Given,
    traces: &Traces<'_>,
    place: &str,
    cause: &Cause,
    lines: &mut Vec<String>,
) -> Result<(), AllocError> {
    match cause {
        Cause::Equation(cause) if place == ROOT => {
            add_input(rt.alloc(), host.log(), given, cause, lines)
        }
        Cause::Equation(NoValue::Reference(_)) => {
            add_step(rt.alloc(), &given.process, place, lines)
        }
        Cause::Build(BuildFault::Reference(_)) => {
            add_tool(rt.alloc(), &given.process, place, lines)
        }
        Cause::Collect(CollectCause::Output(fault)) => {
            let tool = tool_of(&given.process, place);
            add_lacking(rt, host, traces.ticket_at(place), tool, fault, lines)
        }
        Cause::Exit(_) | Cause::Collect(_) => add_job(rt, host, traces.ticket_at(place), lines),
        _ => Ok(()),
    }
}

// ---- a call of the host

// The place of the job that it was for, and what hindered it.
fn add_call<R: World>(
    rt: &R,
    host: &Machine<R>,
    traces: &Traces<'_>,
    fault: HostFault,
    lines: &mut Vec<String>,
) -> Result<(), AllocError> {
    add_place(rt.alloc(), traces.failed_at(fault), lines)?;
    match fault {
        HostFault::Start => add_start(rt, host.log(), host.launcher(), host.unstarted(), lines),
        HostFault::Stage => match host.undelivered() {
            Some(missed) => add_uncopied(rt.alloc(), missed, lines),
            None => Ok(()),
        },
        HostFault::Scan => add_obstacle(rt.alloc(), host.unlisted(), lines),
        _ => Ok(()),
    }
}

// Adds the place of a job, if that is not the process itself.
fn add_place(
    alloc: Global,
    place: Option<&Text>,
    lines: &mut Vec<String>,
) -> Result<(), AllocError> {
    match place {
        Some(place) if place.as_str() != ROOT => {
            lines.push(format!(in alloc; "at {place}")?)?;
            Ok(())
        }
        _ => Ok(()),
    }
}

// ---- an input

fn add_input(
    alloc: Global,
    log: &[Entry],
    given: &Given,
    cause: &NoValue,
    lines: &mut Vec<String>,
) -> Result<(), AllocError> {
    let found = match cause {
        NoValue::Kind(input) => misfit_lines(alloc, given, input)?,
        NoValue::Missing(input) => missing_lines(alloc, log, given, input)?,
        NoValue::Secondary(input) => secondary_lines(alloc, log, given, input)?,
        _ => return Ok(()),
    };
    for line in found {
        lines.push(line)?;
    }
    Ok(())
}

// ---- a job

fn add_job<R: World>(
    rt: &R,
    host: &Machine<R>,
    ticket: Option<&u64>,
    lines: &mut Vec<String>,
) -> Result<(), AllocError> {
    let Some(ticket) = ticket else {
        return Ok(());
    };
    match (
        launch_with(host.log(), *ticket),
        end_of(host.log(), *ticket),
    ) {
        (Some(launch), Some(end)) => add_child(rt, launch, &end, host.signal_of(*ticket), lines),
        _ => Ok(()),
    }
}

// The same, the pattern of an output or what it refers to, and what the job left.
fn add_lacking<R: World>(
    rt: &R,
    host: &Machine<R>,
    ticket: Option<&u64>,
    tool: Option<&Tool>,
    fault: &OutputFault,
    lines: &mut Vec<String>,
) -> Result<(), AllocError> {
    add_job(rt, host, ticket, lines)?;
    if let Some(tool) = tool {
        add_output(rt.alloc(), tool, fault, lines)?;
    }
    match ticket {
        Some(ticket) => add_listing(rt.alloc(), host.log(), *ticket, lines),
        None => Ok(()),
    }
}

// The same, which of its files are not those of its row, and how that is forgotten.
fn add_forgotten<R: World>(
    rt: &R,
    host: &Machine<R>,
    traces: &Traces<'_>,
    place: &str,
    lines: &mut Vec<String>,
) -> Result<(), AllocError> {
    let ticket = traces.ticket_at(place);
    add_job(rt, host, ticket, lines)?;
    let Some(row) = traces.row_at(place) else {
        return Ok(());
    };
    let (record, keeps) = match &traces.memory {
        Some(memory) => (memory.record, memory.keeps),
        None => (None, false),
    };
    let left = left_by(host.log(), ticket);
    add_mismatch(rt.alloc(), row, left, record, keeps, lines)
}

// What was in the output folder of a child.
fn left_by<'a>(log: &'a [Entry], ticket: Option<&u64>) -> Option<&'a [Found]> {
    let launch = launch_with(log, *ticket?)?;
    listing_of(log, launch.dir.as_str())
}

fn add_child<R: World>(
    rt: &R,
    launch: &Launch,
    end: &ChildEnd,
    signal: Option<i32>,
    lines: &mut Vec<String>,
) -> Result<(), AllocError> {
    let alloc = rt.alloc();
    lines.push(launch_line(alloc, launch)?)?;
    lines.push(end_line(alloc, end)?)?;
    add_ending(alloc, end.code, signal, lines)?;
    add_messages(rt, launch, lines)
}

fn launch_line(alloc: Global, launch: &Launch) -> Result<String, AllocError> {
    let command = line_of(alloc, launch)?;
    format!(in alloc; "command: {command}")
}

fn end_line(alloc: Global, end: &ChildEnd) -> Result<String, AllocError> {
    let (how, millis) = (ending(alloc, end.code)?, end.millis);
    format!(in alloc; "ended: {how}, {millis} ms")
}

fn add_messages<R: World>(
    rt: &R,
    launch: &Launch,
    lines: &mut Vec<String>,
) -> Result<(), AllocError> {
    let Some(path) = messages_file(rt.alloc(), launch)? else {
        return Ok(());
    };
    match last_lines(rt, path.as_str()) {
        Some(last) if !last.is_empty() => add_last(rt.alloc(), last.as_str(), lines),
        _ => Ok(()),
    }
}

// Each line stands behind a line end.
fn add_last(alloc: Global, last: &str, lines: &mut Vec<String>) -> Result<(), AllocError> {
    lines.push(String::from_str(alloc, "the last on standard error:")?)?;
    for line in last.split('\n').skip(1) {
        lines.push(String::from_str(alloc, line)?)?;
    }
    Ok(())
}

// ---- the other jobs of a run that failed

// The tickets of the children that failed.
fn failed_in(
    alloc: Global,
    given: &Given,
    traces: &Traces<'_>,
    exit: &Exit,
) -> Result<Vec<u64>, AllocError> {
    match exit {
        Exit::Permanent(_, _) | Exit::Temporary(_) => {
            failed_jobs(
                alloc,
                &given.process,
                &traces.tickets,
                traces.ends.as_slice(),
            )
        }
        _ => Ok(Vec::new(alloc)),
    }
}

// The child of the job that the end names.
fn named_by(traces: &Traces<'_>, exit: &Exit) -> Option<u64> {
    match exit {
        Exit::Permanent(place, _) | Exit::Temporary(place) => {
            traces.ticket_at(place.as_str()).copied()
        }
        _ => None,
    }
}

// Adds what is said of the children that failed but for the one that the end names.
fn add_others<R: World>(
    rt: &R,
    host: &Machine<R>,
    traces: &Traces<'_>,
    failed: &[u64],
    exit: &Exit,
    lines: &mut Vec<String>,
) -> Result<(), AllocError> {
    let others = other_failures(rt.alloc(), failed, named_by(traces, exit))?;
    for ticket in others.iter().take(MOST_BLOCKS) {
        if let Some(ended) = ended_with(traces.ends.as_slice(), *ticket) {
            lines.push(failed_too(rt.alloc(), &ended.place)?)?;
            add_job(rt, host, Some(&ended.ticket), lines)?;
        }
    }
    let more = others.len().saturating_sub(MOST_BLOCKS) as u64;
    if more > 0 {
        lines.push(more_words(rt.alloc(), more)?)?;
    }
    Ok(())
}

// Adds what became of the jobs.
fn add_counts(
    alloc: Global,
    traces: &Traces<'_>,
    failed: &[u64],
    exit: &Exit,
    keeps: bool,
    lines: &mut Vec<String>,
) -> Result<(), AllocError> {
    let named = match (named_by(traces, exit), exit) {
        (Some(ticket), _) => Named::Child(ticket),
        (None, Exit::Permanent(_, Cause::Equation(_))) => Named::Step,
        _ => Named::Job,
    };
    let counted = Counted {
        known: traces.counts.known as u64,
        before: traces.kept_before(),
        started: traces.tickets.len() as u64,
        kept: if keeps { Some(traces.kept()) } else { None },
    };
    add_tally(alloc, &tally_of(&counted, failed, named), lines)
}

// ---- a delivery

fn add_delivery<R: World>(
    alloc: Global,
    host: &Machine<R>,
    lines: &mut Vec<String>,
) -> Result<(), AllocError> {
    let Some(missed) = host.undelivered() else {
        return Ok(());
    };
    add_uncopied(alloc, missed, lines)?;
    if let Some(source) = source_of(host.log(), &missed.target) {
        lines.push(format!(in alloc; "it lies at {source}")?)?;
    }
    Ok(())
}

// Where the result lies that the last call was to bring to this target.
fn source_of<'a>(log: &'a [Entry], target: &Text) -> Option<&'a Text> {
    let moves = moves_in(log.last()?)?;
    for planned in moves {
        if planned.target.equals(target) {
            return Some(&planned.source);
        }
    }
    None
}

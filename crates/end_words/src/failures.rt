//! The jobs of a run whose command failed.
ghost use Rattle.std.specs.Prelude.{◌≡◌, ◌==◌, IfOk, filter, find, option_copied, string_bytes};
ghost use Rattle.end_words.specs.Failures as spec;

use cwl_value::JobPlace;
use document_links::Process;
use plain_data::{Keyed, Text};
use proc_host::{ExitClass, classify};
use run_facts::tool_at;
use std::alloc::{AllocError, Global};

/// A child that has ended: its job's place, which is JSON text too, and its exit code if no signal ended it.
#[derive(Drop)]
pub struct Ended {
    pub place: Text,
    pub job: JobPlace,
    pub ticket: u64,
    pub code: Option<i32>,
}

/// The tickets of the children that were the last ones of their jobs, by what `last` has under the places, and failed by the exit codes
/// of their tools: in the order of their ends.
pub fn failed_jobs(
    alloc: Global,
    process: &Process,
    last: &Keyed<u64>,
    ends: &[Ended],
) -> Result<Vec<u64>, AllocError>
    ensures { IfOk result (λ tickets. tickets.items
        ≡ spec.failed_jobs process.now last.now ends.now) }
{
    let mut tickets = Vec::new(alloc);
    for ended in ends {
        if is_failed(process, last, ended) {
            tickets.push(ended.ticket)?;
        }
    }
    Ok(tickets)
}

// Whether this is the end of a job's last child, and a failure.
fn is_failed(process: &Process, last: &Keyed<u64>, ended: &Ended) -> bool
    ensures { result ≡ spec.is_failed process.now last.now ended.now }
{
    is_last(last, ended) && fails(process, ended)
}

fn is_last(last: &Keyed<u64>, ended: &Ended) -> bool
    ensures { result ≡ spec.is_last last.now ended.now }
{
    match last.get(ended.place.as_str()) {
        Some(ticket) => *ticket == ended.ticket,
        None => false,
    }
}

fn fails(process: &Process, ended: &Ended) -> bool
    ensures { result ≡ spec.fails process.now ended.now }
{
    match tool_at(process, ended.job.as_slice()) {
        Some(tool) => is_failure(classify(&tool.exit_codes, ended.code)),
        None => false,
    }
}

fn is_failure(class: ExitClass) -> bool
    ensures { result ≡ spec.is_failure class }
{
    match class {
        ExitClass::Success => false,
        ExitClass::Temporary | ExitClass::Permanent => true,
    }
}

/// Those of the tickets that are not this one.
pub fn other_failures(
    alloc: Global,
    failed: &[u64],
    named: Option<u64>,
) -> Result<Vec<u64>, AllocError>
    ensures { IfOk result (λ others. others.items ≡ filter (spec.is_other named) failed.now) }
{
    let mut others = Vec::new(alloc);
    for ticket in failed {
        if is_other(named, *ticket) {
            others.push(*ticket)?;
        }
    }
    Ok(others)
}

fn is_other(named: Option<u64>, ticket: u64) -> bool
    ensures { result ≡ spec.is_other named ticket }
{
    match named {
        Some(one) => one != ticket,
        None => true,
    }
}

/// The end of the child that has this ticket.
pub fn ended_with(ends: &[Ended], ticket: u64) -> Option<&Ended>
    ensures { option_copied result ≡ find (λ ended. ended.ticket == ticket) ends.now }
{
    ends.iter().find(|ended| ended.ticket == ticket)
}

/// The line before what is said of one more job whose command failed.
pub fn failed_too(alloc: Global, place: &Text) -> Result<String, AllocError>
    ensures { IfOk result (λ line. string_bytes line ≡ spec.failed_too place.now) }
{
    format!(in alloc; "the command of {place} failed too")
}

/// The line behind the last one of which something is said, if there are so many more.
pub fn more_words(alloc: Global, more: u64) -> Result<String, AllocError>
    ensures { IfOk result (λ line. string_bytes line ≡ spec.more_words more) }
{
    format!(in alloc; ".. and {more} more")
}

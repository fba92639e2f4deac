//! What a host's log tells of the calls that it answered.
ghost use Rattle.std.specs.Prelude.{◌≡◌, option_copied};
ghost use Rattle.std.specs.List.{find};
ghost use Rattle.run_facts.specs.PastCalls as spec;

use command_line::Launch;
use proc_host::{ChildEnd, Entry, HostAnswer, HostRequest};
use staging::{Found, Measure, Move};

/// The launch of the child that has this ticket.
pub fn launch_with(log: &[Entry], ticket: u64) -> Option<&Launch>
    ensures { option_copied result ≡ spec.launch_with log.now ticket }
{
    match start_of(log, ticket) {
        Some(entry) => launch_in(entry),
        None => None,
    }
}

fn start_of(log: &[Entry], ticket: u64) -> Option<&Entry>
    ensures { option_copied result ≡ find (λ entry. spec.starts ticket entry) log.now }
{
    log.iter().find(|entry| starts(entry, ticket))
}

fn starts(entry: &Entry, ticket: u64) -> bool
    ensures { result ≡ spec.starts ticket entry.now }
{
    match &entry.answer {
        HostAnswer::Started(other) => *other == ticket,
        _ => false,
    }
}

/// The launch that a call asked for.
pub fn launch_in(entry: &Entry) -> Option<&Launch>
    ensures { option_copied result ≡ spec.launch_in entry.now }
{
    match &entry.request {
        HostRequest::Start(launch) => Some(launch),
        _ => None,
    }
}

/// How the child ended that has this ticket.
pub fn end_of(log: &[Entry], ticket: u64) -> Option<ChildEnd>
    ensures { result ≡ spec.end_of log.now ticket }
{
    match ending_of(log, ticket) {
        Some(entry) => end_in(entry),
        None => None,
    }
}

fn ending_of(log: &[Entry], ticket: u64) -> Option<&Entry>
    ensures { option_copied result ≡ find (λ entry. spec.ends ticket entry) log.now }
{
    log.iter().find(|entry| ends(entry, ticket))
}

fn ends(entry: &Entry, ticket: u64) -> bool
    ensures { result ≡ spec.ends ticket entry.now }
{
    match &entry.answer {
        HostAnswer::Ended(end) => end.ticket == ticket,
        _ => false,
    }
}

fn end_in(entry: &Entry) -> Option<ChildEnd>
    ensures { result ≡ spec.end_in entry.now }
{
    match &entry.answer {
        HostAnswer::Ended(end) => Some(*end),
        _ => None,
    }
}

/// What was in a folder when it was listed first.
pub fn listing_of<'a>(log: &'a [Entry], folder: &str) -> Option<&'a [Found]>
    ensures { option_copied result ≡ spec.listing_of log.now folder.now }
{
    match scan_of(log, folder) {
        Some(entry) => listing_in(entry),
        None => None,
    }
}

fn scan_of<'a>(log: &'a [Entry], folder: &str) -> Option<&'a Entry>
    ensures { option_copied result ≡ find (λ entry. spec.lists folder.now entry) log.now }
{
    log.iter().find(|entry| lists(entry, folder))
}

fn lists(entry: &Entry, folder: &str) -> bool
    ensures { result ≡ spec.lists folder.now entry.now }
{
    match &entry.request {
        HostRequest::Scan(path) => path.as_str() == folder,
        _ => false,
    }
}

fn listing_in(entry: &Entry) -> Option<&[Found]>
    ensures { option_copied result ≡ spec.listing_in entry.now }
{
    match &entry.answer {
        HostAnswer::Listed(found) => Some(found.as_slice()),
        _ => None,
    }
}

/// What was found at a path when it was measured first.
pub fn measure_of<'a>(log: &'a [Entry], path: &str) -> Option<&'a Measure>
    ensures { option_copied result ≡ spec.measure_of log.now path.now }
{
    match look_at(log, path) {
        Some(entry) => measure_in(entry),
        None => None,
    }
}

fn look_at<'a>(log: &'a [Entry], path: &str) -> Option<&'a Entry>
    ensures { option_copied result ≡ find (λ entry. spec.measures path.now entry) log.now }
{
    log.iter().find(|entry| measures(entry, path))
}

fn measures(entry: &Entry, path: &str) -> bool
    ensures { result ≡ spec.measures path.now entry.now }
{
    match &entry.request {
        HostRequest::Measure(other) => other.as_str() == path,
        _ => false,
    }
}

fn measure_in(entry: &Entry) -> Option<&Measure>
    ensures { option_copied result ≡ spec.measure_in entry.now }
{
    match &entry.answer {
        HostAnswer::Measured(measure) => Some(measure),
        _ => None,
    }
}

/// The copies that a call asked for.
pub fn moves_in(entry: &Entry) -> Option<&[Move]>
    ensures { option_copied result ≡ spec.moves_in entry.now }
{
    match &entry.request {
        HostRequest::Stage(plan, _) | HostRequest::Deliver(plan) => Some(plan.moves.as_slice()),
        _ => None,
    }
}

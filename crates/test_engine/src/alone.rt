//! The machine alone: its requests are answered here, with no host, no record and no children.
//!
//! Each input file is there and has one byte. No job has a row. Each job leaves one file `o` behind, whose size and sum its
//! place decides alone.
ghost use Rattle.std.specs.Prelude.{◌≡◌, ◌≢◌, ◌≤◌, true, IfOk, OnOk};
ghost use Rattle.proc_host.specs.Answers.{CanAnswer};
ghost use Rattle.proc_host.specs.declared.call.HostRequest.{HostRequest as Call};
ghost use Rattle.proc_host.specs.Tickets.{IsFresh};
ghost use Rattle.run_core.specs.Core.{Took};
ghost use Rattle.run_rules.specs.Answers.{CanTell, MayAnswer};
ghost use Rattle.run_rules.specs.declared.request.Request.{Request as Asks};

use collected_outputs::are_paths;
use cwl_value::{JobPlace, place_text};
use plain_data::{Items, Text};
use proc_host::{ChildEnd, HostAnswer, HostFault, HostRequest};
use run_core::{Answer, RecordAnswer, RecordRequest, Request, RunCore, RunFault};
use staging::{Found, Measure};
use std::alloc::{AllocError, Global};
use test_rows::RowFault;

/// Which of the children in flight ends next, and the number of the last that was started.
#[derive(Drop)]
pub struct Chance {
    state: u64,
    started: u64,
}

impl Chance {
    /// Numbers that differ from one `seed` to another.
    pub fn new(seed: u64) -> Chance {
        Chance {
            state: seed.wrapping_mul(MULTIPLIER).wrapping_add(INCREMENT),
            started: 0,
        }
    }

    /// The next number of a linear congruential generator (Knuth's MMIX), by its upper half.
    pub fn next(&mut self) -> u64 {
        self.state = self.state.wrapping_mul(MULTIPLIER).wrapping_add(INCREMENT);
        self.state >> 32
    }

    /// A number below this one; 0 where it is 0.
    pub fn below(&mut self, limit: u64) -> u64
        ensures { result ≤ limit }
    {
        if limit == 0 {
            return 0;
        }
        self.next() % limit
    }
}

const MULTIPLIER: u64 = 6_364_136_223_846_793_005;

const INCREMENT: u64 = 1_442_695_040_888_963_407;

/// Answers what a machine asks, until it asks nothing more.
pub fn drive(alloc: Global, core: &mut RunCore<'_>, chance: &mut Chance) -> Result<(), RowFault>
    ensures { OnOk result (core.new.asks ≡ Asks.Finished) }
{
    while !matches!(core.next(), Request::Finished) {
        let answer = answer_next(alloc, core.next(), core.in_flight(), chance)?;
        if take_answer(core, answer).is_err() {
            return Err(RowFault::OutOfMemory);
        }
    }
    Ok(())
}

/// Answers what a machine asks, and so many questions to its host at most.
pub fn drive_for(
    alloc: Global,
    core: &mut RunCore<'_>,
    chance: &mut Chance,
    most: u64,
) -> Result<(), RowFault> {
    let mut left = most;
    while !matches!(core.next(), Request::Finished) {
        if matches!(core.next(), Request::Host(_, _)) {
            if left == 0 {
                return Ok(());
            }
            left -= 1;
        }
        let answer = answer_next(alloc, core.next(), core.in_flight(), chance)?;
        if take_answer(core, answer).is_err() {
            return Err(RowFault::OutOfMemory);
        }
    }
    Ok(())
}

/// An answer to what a machine asks next.
pub fn answer_next(
    alloc: Global,
    asks: &Request,
    flying: &[u64],
    chance: &mut Chance,
) -> Result<Answer, AllocError>
    requires { asks.now ≢ Asks.Finished }
    ensures { IfOk result (MayAnswer flying.now asks.now) }
{
    match asks {
        Request::Host(place, request) => {
            Ok(Answer::Host(answer_to(alloc, place, request, flying, chance)?))
        }
        Request::Record(_, request) => Ok(Answer::Record(told(alloc, request))),
        Request::Finished => unreachable!(),
    }
}

/// What a record without a row tells.
fn told(alloc: Global, request: &RecordRequest) -> RecordAnswer
    ensures { CanTell request.now result }
{
    match request {
        RecordRequest::Find(_) => RecordAnswer::Found(None),
        RecordRequest::Put(_) => RecordAnswer::Put(Items::new(alloc)),
        RecordRequest::Touch(_) => RecordAnswer::Done,
        RecordRequest::DropArchive(_) => RecordAnswer::Done,
    }
}

/// Takes an answer that the call can give.
pub fn take_answer(core: &mut RunCore<'_>, answer: Answer) -> Result<(), RunFault>
    requires { MayAnswer core.old.flying core.old.asks answer }
    ensures { Took core.old answer result core.new }
{
    core.take(answer)
}

/// An answer to what a machine asks its host.
pub fn answer_to(
    alloc: Global,
    place: &JobPlace,
    request: &HostRequest,
    flying: &[u64],
    chance: &mut Chance,
) -> Result<HostAnswer, AllocError>
    ensures { IfOk result (CanAnswer flying.now request.now) }
{
    match request {
        HostRequest::Measure(_) => Ok(HostAnswer::Measured(one_byte(alloc)?)),
        HostRequest::Stage(_, _) => Ok(HostAnswer::Done),
        HostRequest::Start(_) => Ok(started(flying, chance)),
        HostRequest::Collect => Ok(ended(flying, chance)),
        HostRequest::Scan(_) => Ok(listed(left_at(alloc, place)?)),
        HostRequest::Head(_, _) => Ok(HostAnswer::FirstBytes(Items::new(alloc))),
        HostRequest::Fetch(_, _, _) => Ok(HostAnswer::Fetched(Items::new(alloc))),
        HostRequest::Store(_, _, _) => Ok(HostAnswer::Done),
        HostRequest::Deliver(_) => Ok(HostAnswer::Done),
        HostRequest::Discard(_) => Ok(HostAnswer::Done),
    }
}

// What a scan answers that found this: each name has to be a path.
fn listed(found: Items<Found>) -> HostAnswer
    ensures { (flying : _) (folder : _) → CanAnswer flying (Call.Scan folder) result }
{
    if are_paths(found.as_slice()) {
        HostAnswer::Listed(found)
    } else {
        HostAnswer::Failed(HostFault::Scan)
    }
}

/// What is at the path of an input file.
pub fn one_byte(alloc: Global) -> Result<Measure, AllocError> {
    let sum = Text::from_text(alloc, "86f7e437faa5a7fce15d1ddcb9eaeaea377667b8")?;
    Ok(Measure::File { size: 1, sum })
}

// A ticket that no child in flight has.
fn started(flying: &[u64], chance: &mut Chance) -> HostAnswer
    ensures { (launch : _) → CanAnswer flying.now (Call.Start launch) result }
{
    let ticket = chance.started.wrapping_add(1);
    if !is_fresh(ticket, flying) {
        return HostAnswer::Failed(HostFault::Start);
    }
    chance.started = ticket;
    HostAnswer::Started(ticket)
}

// Whether no child in flight has this ticket.
#[tactic(auto, using(crate::proofs::Fresh::other_kept))]
fn is_fresh(ticket: u64, flying: &[u64]) -> bool
    ensures { result ≡ true → IsFresh ticket flying.now }
{
    for other in flying {
        if *other == ticket {
            return false;
        }
    }
    true
}

/// The end of one of the children in flight.
pub fn ended(flying: &[u64], chance: &mut Chance) -> HostAnswer
    ensures { CanAnswer flying.now Call.Collect result }
{
    let count = flying.len();
    if count == 0 {
        return HostAnswer::Failed(HostFault::Collect);
    }
    let ticket = flying[chance.next() as usize % count];
    HostAnswer::Ended(ChildEnd {
        ticket,
        code: Some(0),
        millis: 1,
    })
}

/// What the job at a place left behind.
pub fn left_at(alloc: Global, place: &JobPlace) -> Result<Items<Found>, AllocError> {
    let size = number_of(alloc, place)?;
    let name = Text::from_text(alloc, "o")?;
    let sum = Text::from_string(format!(in alloc; "{size:040}")?);
    let mut found = Items::new(alloc);
    found.push(Found {
        name,
        is_dir: false,
        size,
        sum,
    })?;
    Ok(found)
}

// A number below a million that a place decides: its text in base 31.
fn number_of(alloc: Global, place: &JobPlace) -> Result<u64, AllocError> {
    let text = place_text(alloc, place)?;
    let mut number: u64 = 0;
    for byte in text.as_str().as_bytes() {
        number = number.wrapping_mul(31).wrapping_add(u64::from(*byte)) % 1_000_000;
    }
    Ok(number)
}

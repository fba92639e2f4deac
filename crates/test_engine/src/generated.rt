//! Runs of generated workflows, in which each plan is compared with the best of all plans.
ghost use Rattle.std.specs.Prelude.{◌≡◌, ◌≢◌, IfOk, IfSome, OnOk};
ghost use Rattle.proc_host.specs.Answers.{CanAnswer};
ghost use Rattle.run_rules.specs.Answers.{CanTell, MayAnswer};
ghost use Rattle.run_rules.specs.declared.request.Request.{Request as Asks};

use crate::alone::{Chance, answer_to, take_answer};
use crate::cheapest::least_cost;
use crate::generator::row_of;
use crate::run::{Case, case_of, core_of};
use cwl_value::JobPlace;
use job_rows::{MemoryRecord, Record, Row as Kept};
use plain_data::{Items, Text};
use plan_checker::{Charges, Graph, Plan, check, read_certificate, write_certificate};
use proc_host::{HostAnswer, HostRequest};
use run_core::{Answer, Outcome, RecordAnswer, RecordRequest, Report, Request, RunCore, RunFault};
use staging::listing_in;
use std::alloc::{AllocError, Global};
use std::mem;
use test_rows::{AnswerText, Row, RowFault};

/// How many plans were compared, and how many of them differ.
#[derive(Clone, Copy)]
struct Seen {
    compared: u64,
    differ: u64,
}

const NOTHING: Seen = Seen {
    compared: 0,
    differ: 0,
};

/// Compares the plan of each planning point in the runs of so many generated workflows (`workflows`). Writes whether there were at least so
/// many plans (`at_least`), each of which has another certificate than the one before it, and how many differ: those whose certificate `check`
/// does not take, once it was written and read, and those that cost more or less than the best of all plans of their graph. Each workflow is
/// run twice over one record, which forgets some rows and archives, and gives each row a cost of its own.
pub fn put_answer(alloc: Global, row: &Row, out: &mut AnswerText) -> Result<(), RowFault> {
    let workflows = row.natural("workflows")?;
    let at_least = row.natural("at_least")?;
    let mut seen = NOTHING;
    for number in 0..workflows {
        seen = seen_with(seen, seen_at(alloc, number)?);
    }
    out.put("{\"enough\":");
    out.put_flag(at_least <= seen.compared);
    out.put(",\"differ\":");
    out.put_natural(seen.differ);
    out.put("}");
    Ok(())
}

fn seen_with(seen: Seen, other: Seen) -> Seen {
    Seen {
        compared: seen.compared.saturating_add(other.compared),
        differ: seen.differ.saturating_add(other.differ),
    }
}

/// What is seen of the two runs of the workflow of a number.
fn seen_at(alloc: Global, number: u64) -> Result<Seen, RowFault> {
    let mut chance = Chance::new(number);
    let row = row_of(alloc, &mut chance)?;
    let seen = seen_of(alloc, &row, &mut chance);
    mem::drop(row);
    seen
}

fn seen_of(alloc: Global, row: &Row, chance: &mut Chance) -> Result<Seen, RowFault> {
    let case = case_of(alloc, row)?;
    let mut rows = MemoryRecord::new(alloc, None);
    let first = seen_once(alloc, row, &case, chance, &mut rows);
    let second = seen_once(alloc, row, &case, chance, &mut rows);
    mem::drop(case);
    mem::drop(rows);
    Ok(seen_with(first?, second?))
}

fn seen_once(
    alloc: Global,
    row: &Row,
    case: &Case,
    chance: &mut Chance,
    rows: &mut MemoryRecord,
) -> Result<Seen, RowFault> {
    let mut core = core_of(alloc, row, case, true)?;
    match followed(alloc, &mut core, chance, rows) {
        Ok(seen) => {
            ended(core)?;
            Ok(seen)
        }
        Err(fault) => {
            mem::drop(core);
            Err(fault)
        }
    }
}

/// Each generated run succeeds.
fn ended(core: RunCore<'_>) -> Result<(), RowFault>
    requires { core.asks ≡ Asks.Finished }
{
    let end = core.finish();
    let succeeds = succeeds(&end);
    mem::drop(end);
    if succeeds {
        Ok(())
    } else {
        Err(RowFault::BadArgument)
    }
}

fn succeeds(end: &Result<Report, RunFault>) -> bool {
    match end {
        Ok(report) => matches!(report.outcome, Outcome::Success(_)),
        Err(_) => false,
    }
}

/// Answers what a machine asks until it asks nothing more, and compares each plan.
fn followed(
    alloc: Global,
    core: &mut RunCore<'_>,
    chance: &mut Chance,
    rows: &mut MemoryRecord,
) -> Result<Seen, RowFault>
    ensures { OnOk result (core.new.asks ≡ Asks.Finished) }
{
    let mut seen = NOTHING;
    let mut last = String::new(alloc);
    while !matches!(core.next(), Request::Finished) {
        let keeps = Keeps::Most;
        let answer = answer_with(alloc, core.next(), core.in_flight(), chance, rows, keeps)?;
        if take_answer(core, answer).is_err() {
            return Err(RowFault::OutOfMemory);
        }
        seen = seen_with(seen, seen_now(alloc, core, &mut last)?);
    }
    Ok(seen)
}

/// Compares the plan in force, where its certificate is not this last one.
fn seen_now(alloc: Global, core: &RunCore<'_>, last: &mut String) -> Result<Seen, RowFault> {
    match core.plan_now() {
        None => Ok(NOTHING),
        Some((graph, plan, charges)) => compared(alloc, graph, plan, charges, last),
    }
}

fn compared(
    alloc: Global,
    graph: &Graph,
    plan: &Plan,
    charges: &Charges,
    last: &mut String,
) -> Result<Seen, RowFault> {
    match check(graph, plan, charges) {
        Ok(_) => {
            let text = write_certificate(alloc, graph, plan, charges)?;
            Ok(seen_in(alloc, graph, text, last))
        }
        Err(_) => Ok(Seen {
            compared: 1,
            differ: 1,
        }),
    }
}

fn seen_in(alloc: Global, graph: &Graph, text: String, last: &mut String) -> Seen {
    if text.as_str() == last.as_str() {
        mem::drop(text);
        return NOTHING;
    }
    let cost = cost_in(alloc, text.as_bytes());
    *last = text;
    Seen {
        compared: 1,
        differ: u64::from(cost.is_none() || cost != least_cost(graph.vertices())),
    }
}

/// The cost of the plan of a certificate, where it is one.
fn cost_in(alloc: Global, text: &[u8]) -> Option<u64> {
    let read = read_certificate(alloc, text);
    let cost = match &read {
        Ok((graph, plan, charges)) => check(graph, plan, charges).ok(),
        Err(_) => None,
    };
    mem::drop(read);
    cost
}

/// Which rows a record keeps that are put.
#[derive(Clone, Copy)]
pub enum Keeps {
    /// Each one with its archive, at a cost above that of any fetch.
    All,
    /// Four of five with another cost, and the archives of most of these.
    Most,
}

/// An answer to what a machine asks next, where the record answers for itself and each file that was archived is there.
pub fn answer_with(
    alloc: Global,
    asks: &Request,
    flying: &[u64],
    chance: &mut Chance,
    rows: &mut MemoryRecord,
    keeps: Keeps,
) -> Result<Answer, AllocError>
    requires { asks.now ≢ Asks.Finished }
    ensures { IfOk result (MayAnswer flying.now asks.now) }
{
    match asks {
        Request::Host(place, request) => {
            Ok(Answer::Host(answer_of_host(alloc, place, request, flying, chance)?))
        }
        Request::Record(_, request) => {
            Ok(Answer::Record(told(alloc, request, chance, rows, keeps)?))
        }
        Request::Finished => unreachable!(),
    }
}

/// The same of what it asks its host: files are fetched as they were.
fn answer_of_host(
    alloc: Global,
    place: &JobPlace,
    request: &HostRequest,
    flying: &[u64],
    chance: &mut Chance,
) -> Result<HostAnswer, AllocError>
    ensures { IfOk result (CanAnswer flying.now request.now) }
{
    match request {
        HostRequest::Fetch(_, _, files) => Ok(HostAnswer::Fetched(listing_in(alloc, files)?)),
        _ => answer_to(alloc, place, request, flying, chance),
    }
}

/// What the record tells.
fn told(
    alloc: Global,
    request: &RecordRequest,
    chance: &mut Chance,
    rows: &mut MemoryRecord,
    keeps: Keeps,
) -> Result<RecordAnswer, AllocError>
    ensures { IfOk result (CanTell request.now) }
{
    match request {
        RecordRequest::Find(key) => Ok(RecordAnswer::Found(found_in(rows, key))),
        RecordRequest::Put(row) => {
            let gone = keep(alloc, row, chance, rows, keeps)?;
            Ok(RecordAnswer::Put(gone))
        }
        RecordRequest::Touch(key) => {
            let _touched = rows.touch(key);
            Ok(RecordAnswer::Done)
        }
        RecordRequest::DropArchive(key) => {
            let _dropped = rows.drop_archive(key);
            Ok(RecordAnswer::Done)
        }
    }
}

/// The row of a key, if the record gives one.
fn found_in(rows: &mut MemoryRecord, key: &Text) -> Option<Kept>
    ensures { IfSome result (λ row. row.key ≡ key.now) }
{
    match rows.find(key) {
        Ok(found) => found,
        Err(_) => None,
    }
}

/// A cost above that of any fetch of what a job leaves: that is less than a million bytes.
const DEAR: u64 = 100;

// The keys that are without their archive by what is put of the row.
fn keep<K: Record>(
    alloc: Global,
    row: &Kept,
    chance: &mut Chance,
    rows: &mut K,
    keeps: Keeps,
) -> Result<Items<Text>, AllocError> {
    match keeps {
        Keeps::All => keep_at(alloc, row, DEAR, row.archived, rows),
        Keeps::Most => keep_some(alloc, row, chance, rows),
    }
}

fn keep_some<K: Record>(
    alloc: Global,
    row: &Kept,
    chance: &mut Chance,
    rows: &mut K,
) -> Result<Items<Text>, AllocError> {
    if chance.below(5) == 0 {
        return Ok(Items::new(alloc));
    }
    let cost = 1 + chance.below(12);
    let archived = chance.below(4) > 0;
    keep_at(alloc, row, cost, archived, rows)
}

fn keep_at<K: Record>(
    alloc: Global,
    row: &Kept,
    cost: u64,
    archived: bool,
    rows: &mut K,
) -> Result<Items<Text>, AllocError> {
    let mut kept = row.clone_in(alloc)?;
    kept.cost = cost;
    kept.archived = archived;
    let put = rows.put(&kept);
    mem::drop(kept);
    match put {
        Ok(gone) => Ok(gone),
        Err(_) => Ok(Items::new(alloc)),
    }
}

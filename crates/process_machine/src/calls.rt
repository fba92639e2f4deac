//! The calls of a host: each makes room for its entry, acts, and adds the entry.
ghost use Rattle.std.specs.Prelude.{◌≡◌, ◌≤◌, ◌++◌, ◌∷◌, [], length, IfOk, OnOk, OnErr, IsTrue, Contains};
ghost use Rattle.collected_outputs.specs.Listing.{are_paths};
ghost use Rattle.proc_host.specs.Answers.{are_among};
ghost use Rattle.proc_host.specs.Log.{answer_behind, entries_of, FailsOnlyBy};

use crate::archive::fetch_folder;
use crate::clearing::clear_job;
use crate::collecting::{Killed, next_end};
use crate::delivering::deliver_all;
use crate::discarding::discard_all;
use crate::fetching::fetch_all;
use crate::heads::head_of;
use crate::hearing::Hear;
use crate::layout::{joined, lay_out};
use crate::listing::listing_of;
use crate::measuring::measure_of;
use crate::missed::{Missed, Undelivered};
use crate::noting::{add, make_room, note, refused, told};
use crate::past::{Past, Places};
use crate::spawning::{Flying, spawned};
use crate::storing::store_all;
use crate::tree::Others;
use crate::trouble::{Hindrance, Trouble};
use crate::trusting::Sums;
use crate::unlisted::{NoListing, Unlisted};
use crate::world::World;
use command_line::{Launch, Variable};
use plain_data::{Items, Text};
use proc_host::{
    ChildEnd, Entry, HostAnswer, HostError, HostFault, HostRequest, fetch_request, store_request,
};
use staging::{Found, Measure, StagePlan, listing_in};
use std::mem;
use std::process::Stdio;

pub(crate) fn measure<R: World>(
    rt: &R,
    log: &mut Vec<Entry>,
    places: &mut Places,
    sums: &mut Sums,
    path: &Text,
) -> Result<Measure, HostError>
    ensures logged { log.new.items ≡ log.old.items
        ++ entries_of (HostRequest.Measure path.now)
        (answer_behind (λ measure. HostAnswer.Measured measure) result) }
    ensures own { FailsOnlyBy HostFault.Measure result }
{
    make_room(log)?;
    let request = HostRequest::Measure(path.copied(rt.alloc())?);
    match measured_twice(rt, places, sums, log.len(), path) {
        Ok((measure, noted)) => {
            note(log, request, HostAnswer::Measured(noted));
            Ok(measure)
        }
        Err(trouble) => Err(refused(log, request, HostFault::Measure, trouble)),
    }
}

/// Lays out the folder of a job. Where an input can't be copied, it is told which, and why, as far as there is room to tell it.
pub(crate) fn stage<R: World>(
    rt: &R,
    log: &mut Vec<Entry>,
    places: &Places,
    work: &str,
    plan: &StagePlan,
    number: u64,
    hindered: &mut Option<Undelivered>,
) -> Result<(), HostError>
    ensures logged { log.new.items ≡ log.old.items
        ++ entries_of (HostRequest.Stage plan.now number)
        (answer_behind (λ _. HostAnswer.Done) result) }
    ensures own { FailsOnlyBy HostFault.Stage result }
{
    make_room(log)?;
    let request = HostRequest::Stage(plan.clone_in(rt.alloc())?, number);
    let mut missed = Missed::new();
    let past = Past {
        log: log.as_slice(),
        places,
    };
    let outcome = lay_out(rt, past, work, plan, number, &mut missed);
    let found = missed.told(rt.alloc(), plan.moves.as_slice(), outcome);
    mem::drop(mem::replace(hindered, found));
    told(log, request, HostFault::Stage, outcome)
}

/// Starts the child of a launch by a launcher, which is told what is advised, under this ticket. Its messages are to be handed on or not where no
/// file takes them. Where it can't be started, it is told why, as far as the system says so.
pub(crate) fn start<R: World>(
    rt: &R,
    log: &mut Vec<Entry>,
    running: &mut Vec<u64>,
    flying: &mut Vec<Flying<R::Started, R::File>>,
    launcher: &[Text],
    advice: &[Variable],
    launch: &Launch,
    ticket: u64,
    shows: bool,
    unstarted: &mut Option<Hindrance>,
) -> Result<(), HostError>
where
    R::File: Into<Stdio>,
    ensures logged { log.new.items ≡ log.old.items
        ++ entries_of (HostRequest.Start launch.now) (answer_behind (λ _. HostAnswer.Started ticket)
        result) }
    ensures own { FailsOnlyBy HostFault.Start result }
    ensures running { OnOk result (running.new.items ≡ running.old.items ++ ticket ∷ []) }
    ensures err { OnErr result (running.new.items ≡ running.old.items) }
{
    make_room(running)?;
    make_room(flying)?;
    let child = begin(rt, log, launcher, advice, launch, ticket, shows, unstarted)?;
    add(running, ticket);
    add(flying, child);
    Ok(())
}

fn begin<R: World>(
    rt: &R,
    log: &mut Vec<Entry>,
    launcher: &[Text],
    advice: &[Variable],
    launch: &Launch,
    ticket: u64,
    shows: bool,
    unstarted: &mut Option<Hindrance>,
) -> Result<Flying<R::Started, R::File>, HostError>
where
    R::File: Into<Stdio>,
    ensures logged { log.new.items ≡ log.old.items
        ++ entries_of (HostRequest.Start launch.now) (answer_behind (λ _. HostAnswer.Started ticket)
        result) }
    ensures own { FailsOnlyBy HostFault.Start result }
{
    make_room(log)?;
    let request = HostRequest::Start(launch.clone_in(rt.alloc())?);
    match spawned(rt, launcher, advice, launch, ticket, shows) {
        Ok(child) => {
            note(log, request, HostAnswer::Started(ticket));
            Ok(child)
        }
        Err(trouble) => {
            *unstarted = told_by_system(trouble);
            Err(refused(log, request, HostFault::Start, trouble))
        }
    }
}

fn told_by_system(trouble: Trouble) -> Option<Hindrance> {
    match trouble {
        Trouble::Hindered(why) => Some(why),
        Trouble::Failed | Trouble::OutOfMemory => None,
    }
}

pub(crate) fn collect<R: World, H: Hear>(
    rt: &R,
    log: &mut Vec<Entry>,
    flying: &mut Vec<Flying<R::Started, R::File>>,
    killed: &mut Vec<Killed>,
    running: &[u64],
    hearer: &mut H,
) -> Result<ChildEnd, HostError>
    ensures logged { log.new.items ≡ log.old.items
        ++ entries_of HostRequest.Collect (answer_behind (λ ending. HostAnswer.Ended ending)
        result) }
    ensures own { FailsOnlyBy HostFault.Collect result }
    ensures child { IfOk result (λ ending. Contains running.now ending.ticket) }
{
    make_room(log)?;
    match ended_of(rt, flying, killed, running, hearer) {
        Ok(ending) => {
            note(log, HostRequest::Collect, HostAnswer::Ended(ending));
            Ok(ending)
        }
        Err(trouble) => Err(refused(log, HostRequest::Collect, HostFault::Collect, trouble)),
    }
}

/// Lists a folder. Where it is the folder `out` of a job in a work folder that is named, the job's `in` and `tmp` are removed.
///
/// What is neither a file nor a folder is left out. Where there is no listing, it is told what was in the way, as far as there is room
/// to tell it.
pub(crate) fn scan<R: World>(
    rt: &R,
    log: &mut Vec<Entry>,
    places: &mut Places,
    work: Option<&str>,
    folder: &Text,
    unlisted: &mut Option<Unlisted>,
) -> Result<Items<Found>, HostError>
    ensures logged { log.new.items ≡ log.old.items
        ++ entries_of (HostRequest.Scan folder.now)
        (answer_behind (λ found. HostAnswer.Listed found) result) }
    ensures own { FailsOnlyBy HostFault.Scan result }
    ensures paths { IfOk result (λ found. IsTrue (are_paths found)) }
{
    make_room(log)?;
    let request = HostRequest::Scan(folder.copied(rt.alloc())?);
    match listed_twice(rt, places, log.len(), work, folder, unlisted) {
        Ok((listed, noted)) => {
            note(log, request, HostAnswer::Listed(noted));
            Ok(listed)
        }
        Err(trouble) => Err(refused(log, request, HostFault::Scan, trouble)),
    }
}

pub(crate) fn head<R: World>(
    rt: &R,
    log: &mut Vec<Entry>,
    path: &Text,
    limit: u64,
) -> Result<Items<u8>, HostError>
    ensures logged { log.new.items ≡ log.old.items
        ++ entries_of (HostRequest.Head path.now limit)
        (answer_behind (λ bytes. HostAnswer.FirstBytes bytes) result) }
    ensures own { FailsOnlyBy HostFault.Head result }
    ensures within { IfOk result (λ bytes. length bytes ≤ limit) }
{
    make_room(log)?;
    let request = HostRequest::Head(path.copied(rt.alloc())?, limit);
    match read_twice(rt, path, limit) {
        Ok((bytes, noted)) => {
            note(log, request, HostAnswer::FirstBytes(noted));
            Ok(bytes)
        }
        Err(trouble) => Err(refused(log, request, HostFault::Head, trouble)),
    }
}

pub(crate) fn fetch<R: World>(
    rt: &R,
    log: &mut Vec<Entry>,
    places: &mut Places,
    work: &str,
    archive: Option<&str>,
    key: &Text,
    number: u64,
    files: &Items<Found>,
) -> Result<Items<Found>, HostError>
    ensures logged { log.new.items ≡ log.old.items
        ++ entries_of (HostRequest.Fetch key.now number files.now)
        (answer_behind (λ found. HostAnswer.Fetched found) result) }
    ensures own { FailsOnlyBy HostFault.Fetch result }
    ensures among { IfOk result (λ found. IsTrue (are_among files.now found)) }
{
    make_room(log)?;
    let request = fetch_request(rt.alloc(), key, number, files)?;
    match fetched_twice(rt, places, log.len(), work, archive, key, number, files) {
        Ok((found, noted)) => {
            note(log, request, HostAnswer::Fetched(noted));
            Ok(found)
        }
        Err(trouble) => Err(refused(log, request, HostFault::Fetch, trouble)),
    }
}

pub(crate) fn store<R: World>(
    rt: &R,
    log: &mut Vec<Entry>,
    archive: Option<&str>,
    key: &Text,
    folder: &Text,
    files: &Items<Found>,
    unstored: &mut Option<Hindrance>,
) -> Result<(), HostError>
    ensures logged { log.new.items ≡ log.old.items
        ++ entries_of (HostRequest.Store key.now folder.now files.now)
        (answer_behind (λ _. HostAnswer.Done) result) }
    ensures own { FailsOnlyBy HostFault.Store result }
{
    make_room(log)?;
    let request = store_request(rt.alloc(), key, folder, files)?;
    let outcome = store_all(rt, archive, key.as_str(), folder.as_str(), files.as_slice());
    note_unstored(unstored, outcome);
    told(log, request, HostFault::Store, outcome)
}

// Keeps what hindered the first store that failed.
fn note_unstored(unstored: &mut Option<Hindrance>, outcome: Result<(), Trouble>) {
    if let (None, Err(trouble)) = (*unstored, outcome) {
        *unstored = told_by_system(trouble);
    }
}

/// Copies results. Where one can't be copied, it is told which, and why, as far as there is room to tell it.
pub(crate) fn deliver<R: World>(
    rt: &R,
    log: &mut Vec<Entry>,
    places: &Places,
    guarded: &[Text],
    outdir: &str,
    plan: &StagePlan,
    hindered: &mut Option<Undelivered>,
) -> Result<(), HostError>
    ensures logged { log.new.items ≡ log.old.items
        ++ entries_of (HostRequest.Deliver plan.now) (answer_behind (λ _. HostAnswer.Done) result) }
    ensures own { FailsOnlyBy HostFault.Deliver result }
{
    make_room(log)?;
    let request = HostRequest::Deliver(plan.clone_in(rt.alloc())?);
    let mut missed = Missed::new();
    let past = Past {
        log: log.as_slice(),
        places,
    };
    let outcome = deliver_all(
        rt,
        past,
        guarded,
        plan.moves.as_slice(),
        outdir,
        &mut missed,
    );
    let found = missed.told(rt.alloc(), plan.moves.as_slice(), outcome);
    mem::drop(mem::replace(hindered, found));
    told(log, request, HostFault::Deliver, outcome)
}

/// Removes what is archived under a key.
pub(crate) fn discard<R: World>(
    rt: &R,
    log: &mut Vec<Entry>,
    archive: Option<&str>,
    key: &Text,
) -> Result<(), HostError>
    ensures logged { log.new.items ≡ log.old.items
        ++ entries_of (HostRequest.Discard key.now) (answer_behind (λ _. HostAnswer.Done) result) }
    ensures own { FailsOnlyBy HostFault.Discard result }
{
    make_room(log)?;
    let request = HostRequest::Discard(key.copied(rt.alloc())?);
    let outcome = discard_all(rt, archive, key.as_str());
    told(log, request, HostFault::Discard, outcome)
}

// The next end of a child whose ticket was not closed.
fn ended_of<R: World, H: Hear>(
    rt: &R,
    flying: &mut Vec<Flying<R::Started, R::File>>,
    killed: &mut Vec<Killed>,
    running: &[u64],
    hearer: &mut H,
) -> Result<ChildEnd, Trouble>
    ensures { IfOk result (λ ending. Contains running.now ending.ticket) }
{
    let ending = next_end(rt, flying, killed, hearer)?;
    if running.contains(&ending.ticket) {
        Ok(ending)
    } else {
        Err(Trouble::Failed)
    }
}

// A listing for the caller, and a copy for the log, whose entry of this index is to have it.
fn listed_twice<R: World>(
    rt: &R,
    places: &mut Places,
    index: usize,
    work: Option<&str>,
    folder: &Text,
    unlisted: &mut Option<Unlisted>,
) -> Result<(Items<Found>, Items<Found>), Trouble>
    ensures same { IfOk result (λ pair. pair.0 ≡ pair.1) }
    ensures paths { IfOk result (λ pair. IsTrue (are_paths pair.0)) }
{
    let listed = listed_or_why(rt, folder, unlisted)?;
    let noted = listing_in(rt.alloc(), &listed)?;
    places.note(rt.alloc(), folder.as_str(), index)?;
    if let Some(work) = work {
        // What can't be removed is in nobody's way.
        let _cleared = clear_job(rt, work, folder.as_str(), noted.as_slice());
    }
    Ok((listed, noted))
}

// Lists a folder, or tells what was in the way.
fn listed_or_why<R: World>(
    rt: &R,
    folder: &Text,
    unlisted: &mut Option<Unlisted>,
) -> Result<Items<Found>, Trouble>
    ensures { IfOk result (λ found. IsTrue (are_paths found)) }
{
    let (outcome, met) = match listing_of(rt, folder.as_str(), Others::LeftOut, &mut Sums::read()) {
        Ok(found) => (Ok(found), None),
        Err(NoListing::Met(met)) => (Err(Trouble::Failed), Some(met)),
        Err(NoListing::OutOfMemory) => (Err(Trouble::OutOfMemory), None),
    };
    mem::drop(mem::replace(unlisted, met));
    outcome
}

// What was fetched for the caller, and a copy for the log, whose entry of this index is to have it.
fn fetched_twice<R: World>(
    rt: &R,
    places: &mut Places,
    index: usize,
    work: &str,
    archive: Option<&str>,
    key: &Text,
    number: u64,
    files: &Items<Found>,
) -> Result<(Items<Found>, Items<Found>), Trouble>
    ensures same { IfOk result (λ pair. pair.0 ≡ pair.1) }
    ensures among { IfOk result (λ pair. IsTrue (are_among files.now pair.0)) }
{
    let found = fetch_all(rt, archive, key.as_str(), work, number, files.as_slice())?;
    let noted = listing_in(rt.alloc(), &found)?;
    let folder = fetch_folder(rt.alloc(), work, number)?;
    let out = joined(rt.alloc(), folder.as_str(), "out")?;
    places.note(rt.alloc(), out.as_str(), index)?;
    Ok((found, noted))
}

// A measure for the caller, and a copy for the log, whose entry of this index is to have it.
fn measured_twice<R: World>(
    rt: &R,
    places: &mut Places,
    sums: &mut Sums,
    index: usize,
    path: &Text,
) -> Result<(Measure, Measure), Trouble>
    ensures { IfOk result (λ pair. pair.0 ≡ pair.1) }
{
    let measure = measure_of(rt, path.as_str(), sums)?;
    let noted = measure.clone_in(rt.alloc())?;
    places.note(rt.alloc(), path.as_str(), index)?;
    Ok((measure, noted))
}

// The first bytes of a file for the caller, and a copy for the log.
fn read_twice<R: World>(rt: &R, path: &Text, limit: u64) -> Result<(Items<u8>, Items<u8>), Trouble>
    ensures same { IfOk result (λ pair. pair.0 ≡ pair.1) }
    ensures within { IfOk result (λ pair. length pair.0 ≤ limit) }
{
    let bytes = head_of(rt, path.as_str(), limit)?;
    let noted = Items::from_vec(Vec::from_slice(rt.alloc(), bytes.as_slice())?);
    Ok((bytes, noted))
}

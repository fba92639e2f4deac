ghost use Rattle.std.specs.Prelude.{◌≡◌, ◌≤◌, ◌+◌, ◌++◌, ◌∷◌, ◌↔◌, ℕ, List, [], IfOk, OnOk, OnErr, IfSome, IfNone, IsTrue, bytes_eq, length, nat_le, slice_get, Contains};
ghost use Rattle.std.specs.List.{list_any};
ghost use Rattle.collected_outputs.specs.Listing.{are_paths};
ghost use Rattle.proc_host.specs.Answers.{are_among as among};
ghost use Rattle.proc_host.specs.Log.{answer_behind, answer_behind_error, entries_of, starts, FailsOnlyBy, IsOnly};
ghost use Rattle.proc_host.specs.Tickets.{IsFresh, running_after, without};
ghost use Rattle.proc_host.specs.Script.{Answers, after, can_end};
ghost use Rattle.proc_host.specs.declared.child.ChildEnd.{ChildEnd};
ghost use Rattle.staging.specs.declared.found.Found.{Found};
ghost use Rattle.staging.specs.declared.measure.Measure.{Measure};

use crate::noting::{bytes_in, note_fetch, note_head, note_measure, note_scan, note_start};
use crate::{
    ChildEnd, Entry, Host, HostAnswer, HostError, HostFault, HostRequest, Reply, Ticket,
    fetch_request, store_request,
};
use collected_outputs::are_paths;
use command_line::Launch;
use plain_data::{Items, Text};
use staging::{Found, Measure, StagePlan, listing_in};
use std::alloc::{AllocError, Global};
use std::marker::Model;

/// A host that answers from a list, for tests and for showing a run.
///
/// Ticket numbers count its starts, from 1. A call that the script doesn't answer next fails, and so does a
/// collect of a child that doesn't run, or before `least_started` children were started, and a scan if a
/// name that is listed is no path below the folder. A call that fails leaves the script where it is.
#[derive(Drop)]
pub struct Scripted {
    alloc: Global,
    script: Vec<Reply>,
    // how many replies were given
    given: usize,
    log: Vec<Entry>,
    running: Vec<u64>,
    started: u64,
    least_started: u64,
}

impl Model for Scripted {
    ghost use Rattle.std.specs.Prelude.{drop};
    ghost use Rattle.proc_host.specs.Script.{ScriptState, IsInStep};
    ghost use Rattle.cwl_value.specs.contracts.value.Value as value;
    ghost use Rattle.std.specs.Coded.{codes};

    ghost Value = { ScriptState };

    ghost coded = { Prim.hlevel (codes, value.the_row.coded) };

    ghost view = { λ fields. record {
      script = drop fields.given fields.script.items;
      log = fields.log.items;
      running = fields.running.items;
      started = fields.started;
      least_started = fields.least_started;
    } };

    ghost invariant = { λ fields.
        IsInStep fields.script.items fields.given fields.log.items fields.running.items fields.started };
}

impl Scripted {
    /// A host with nothing behind it: no entries and no children.
    pub fn new(alloc: Global, script: Items<Reply>, least_started: u64) -> Scripted
        ensures { result
            ≡ record {
              script = script;
              log = [];
              running = [];
              started = 0;
              least_started = least_started;
            } }
    {
        Scripted {
            alloc,
            script: script.into_vec(),
            given: 0,
            log: Vec::new(alloc),
            running: Vec::new(alloc),
            started: 0,
            least_started,
        }
    }

    /// What was asked and answered so far, oldest first.
    pub fn log(&self) -> &[Entry]
        ensures { result.now ≡ self.now.log }
    {
        self.log.as_slice()
    }

    /// The tickets of the children that run.
    pub fn running(&self) -> &[u64]
        ensures { result.now ≡ self.now.running }
    {
        self.running.as_slice()
    }

    /// What the script has still to say.
    pub fn script_left(&self) -> &[Reply]
        ensures { result.now ≡ self.now.script }
    {
        &self.script[self.given..]
    }

    // Whether the script answers a start next.
    fn says_start(&self) -> bool
        ensures { IsTrue result ↔ (slice_get self.now.script 0 ≡ Some Reply.Start) }
    {
        matches!(self.script.get(self.given), Some(Reply::Start))
    }

    // The end that the script tells next, where it can be told now.
    fn next_end(&self) -> Option<ChildEnd>
        ensures told { IfSome result (λ ending. slice_get self.now.script 0
            ≡ Some (Reply.Collect ending)) }
        ensures runs { IfSome result (λ ending. Contains self.now.running ending.ticket) }
        ensures can { IfSome result (λ ending. IsTrue (can_end self.now ending)) }
        ensures none { IfNone result ((ending : ChildEnd) → slice_get self.now.script 0
            ≡ Some (Reply.Collect ending)
            → IsTrue (can_end self.now ending) → ⊥) }
    {
        let Some(Reply::Collect(ending)) = self.script.get(self.given) else {
            return None;
        };
        let ending = *ending;
        if self.running.contains(&ending.ticket) && self.least_started <= self.started {
            return Some(ending);
        }
        None
    }

    // The listing that the script tells next, if what it lists stands below the folder.
    fn next_listing(&self) -> Result<Option<Items<Found>>, AllocError>
        ensures told { IfOk result (λ next. IfSome next (λ found. slice_get self.now.script 0
            ≡ Some (Reply.Scan found))) }
        ensures paths { IfOk result (λ next. IfSome next (λ found. IsTrue (are_paths found))) }
        ensures none { IfOk result (λ next. IfNone next ((found : List Found)
            → slice_get self.now.script 0 ≡ Some (Reply.Scan found)
            → IsTrue (are_paths found) → ⊥)) }
    {
        let Some(Reply::Scan(found)) = self.script.get(self.given) else {
            return Ok(None);
        };
        if !are_paths(found.as_slice()) {
            return Ok(None);
        }
        let listed = listing_in(self.alloc, found)?;
        Ok(Some(listed))
    }

    // What the script next says that there is.
    fn next_measure(&self) -> Result<Option<Measure>, AllocError>
        ensures told { IfOk result (λ next. IfSome next (λ measure. slice_get self.now.script 0
            ≡ Some (Reply.Measure measure))) }
        ensures none { IfOk result (λ next. IfNone next ((measure : Measure)
            → slice_get self.now.script 0 ≡ Some (Reply.Measure measure) → ⊥)) }
    {
        let Some(Reply::Measure(measure)) = self.script.get(self.given) else {
            return Ok(None);
        };
        Ok(Some(measure.clone_in(self.alloc)?))
    }

    // The first bytes that the script tells next, where they are no more than were asked for.
    fn next_head(&self, limit: u64) -> Result<Option<Items<u8>>, AllocError>
        ensures told { IfOk result (λ next. IfSome next (λ bytes. slice_get self.now.script 0
            ≡ Some (Reply.Head bytes))) }
        ensures within { IfOk result (λ next. IfSome next (λ bytes. length bytes ≤ limit)) }
        ensures none { IfOk result (λ next. IfNone next ((bytes : List ℕ)
            → slice_get self.now.script 0 ≡ Some (Reply.Head bytes)
            → IsTrue (nat_le (length bytes) limit) → ⊥)) }
    {
        let Some(Reply::Head(bytes)) = self.script.get(self.given) else {
            return Ok(None);
        };
        if bytes.len() as u64 > limit {
            return Ok(None);
        }
        Ok(Some(bytes_in(self.alloc, bytes)?))
    }

    // What the script says next that there is of these files, where it is of these.
    fn next_fetch(&self, files: &Items<Found>) -> Result<Option<Items<Found>>, AllocError>
        ensures told { IfOk result (λ next. IfSome next (λ found. slice_get self.now.script 0
            ≡ Some (Reply.Fetch found))) }
        ensures among { IfOk result (λ next. IfSome next (λ found.
            IsTrue (among files.now found))) }
        ensures none { IfOk result (λ next. IfNone next ((found : List Found)
            → slice_get self.now.script 0 ≡ Some (Reply.Fetch found)
            → IsTrue (among files.now found) → ⊥)) }
    {
        let Some(Reply::Fetch(found)) = self.script.get(self.given) else {
            return Ok(None);
        };
        if !are_among(files.as_slice(), found.as_slice()) {
            return Ok(None);
        }
        let fetched = listing_in(self.alloc, found)?;
        Ok(Some(fetched))
    }

    // Notes that a call failed.
    fn refuse(&mut self, request: HostRequest, fault: HostFault) -> HostError
        ensures refused { self.new ≡ after self.old request (answer_behind_error result) }
        ensures own { IsOnly fault result }
    {
        match self.log.push(Entry {
            request,
            answer: HostAnswer::Failed(fault),
        }) {
            Ok(()) => HostError::Fault(fault),
            Err(_) => HostError::OutOfMemory,
        }
    }
}

// Whether each of what was found has the name of one of these files.
fn are_among(files: &[Found], found: &[Found]) -> bool
    ensures { result ≡ among files.now found.now }
{
    found.iter().all(|entry| has_name(files, &entry.name))
}

fn has_name(files: &[Found], name: &Text) -> bool
    ensures { result ≡ list_any (λ file. bytes_eq file.name name.now) files.now }
{
    files.iter().any(|file| file.name == *name)
}

// Takes a ticket out of the running ones.
fn remove(running: &mut Vec<u64>, number: u64)
    ensures { running.new.items ≡ without number running.old.items }
{
    running.retain(|other| *other != number);
}

impl Host for Scripted {
    ghost log = { λ state. state.log };

    ghost running = { λ state. state.running };

    fn measure(&mut self, path: &Text) -> Result<Measure, HostError>
        ensures logged { self.new.log ≡ self.old.log
            ++ entries_of (HostRequest.Measure path.now)
            (answer_behind (λ measure. HostAnswer.Measured measure) result) }
        ensures own { FailsOnlyBy HostFault.Measure result }
        ensures running { self.new.running ≡ self.old.running }
        ensures scripted { Answers self.old (HostRequest.Measure path.now)
            (answer_behind (λ measure. HostAnswer.Measured measure) result) self.new }
    {
        let Some(measure) = self.next_measure()? else {
            let request = HostRequest::Measure(path.copied(self.alloc)?);
            return Err(self.refuse(request, HostFault::Measure));
        };
        note_measure(self.alloc, &mut self.log, path, &measure)?;
        self.given += 1;
        Ok(measure)
    }

    fn stage(&mut self, plan: &StagePlan, number: u64) -> Result<(), HostError>
        ensures logged { self.new.log ≡ self.old.log
            ++ entries_of (HostRequest.Stage plan.now number)
            (answer_behind (λ _. HostAnswer.Done) result) }
        ensures own { FailsOnlyBy HostFault.Stage result }
        ensures running { self.new.running ≡ self.old.running }
        ensures scripted { Answers self.old (HostRequest.Stage plan.now number)
            (answer_behind (λ _. HostAnswer.Done) result) self.new }
    {
        let request = HostRequest::Stage(plan.clone_in(self.alloc)?, number);
        if let Some(Reply::Stage) = self.script.get(self.given) {
            self.log.push(Entry {
                request,
                answer: HostAnswer::Done,
            })?;
            self.given += 1;
            return Ok(());
        }
        Err(self.refuse(request, HostFault::Stage))
    }

    fn start(&mut self, launch: &Launch) -> Result<Ticket, HostError>
        ensures logged { self.new.log ≡ self.old.log
            ++ entries_of (HostRequest.Start launch.now)
            (answer_behind (λ ticket. HostAnswer.Started ticket) result) }
        ensures own { FailsOnlyBy HostFault.Start result }
        ensures fresh { IfOk result (λ ticket. IsFresh ticket self.old.running) }
        ensures started { self.new.running ≡ running_after self.old.running result }
        ensures numbered { IfOk result (λ ticket. ticket ≡ starts self.old.log + 1) }
        ensures scripted { Answers self.old (HostRequest.Start launch.now)
            (answer_behind (λ ticket. HostAnswer.Started ticket) result) self.new }
    {
        let request = HostRequest::Start(launch.clone_in(self.alloc)?);
        if !self.says_start() {
            return Err(self.refuse(request, HostFault::Start));
        }
        let number = self.started + 1;
        note_start(&mut self.log, &mut self.running, request, number)?;
        self.started = number;
        self.given += 1;
        Ok(Ticket::new(number))
    }

    fn collect(&mut self) -> Result<ChildEnd, HostError>
        ensures logged { self.new.log ≡ self.old.log
            ++ entries_of HostRequest.Collect (answer_behind (λ ending. HostAnswer.Ended ending)
            result) }
        ensures own { FailsOnlyBy HostFault.Collect result }
        ensures child { IfOk result (λ ending. Contains self.old.running ending.ticket) }
        ensures running { self.new.running ≡ self.old.running }
        ensures scripted { Answers self.old HostRequest.Collect
            (answer_behind (λ ending. HostAnswer.Ended ending) result) self.new }
    {
        let Some(ending) = self.next_end() else {
            return Err(self.refuse(HostRequest::Collect, HostFault::Collect));
        };
        self.log.push(Entry {
            request: HostRequest::Collect,
            answer: HostAnswer::Ended(ending),
        })?;
        self.given += 1;
        Ok(ending)
    }

    fn scan(&mut self, folder: &Text) -> Result<Items<Found>, HostError>
        ensures logged { self.new.log ≡ self.old.log
            ++ entries_of (HostRequest.Scan folder.now)
            (answer_behind (λ found. HostAnswer.Listed found) result) }
        ensures own { FailsOnlyBy HostFault.Scan result }
        ensures paths { IfOk result (λ found. IsTrue (are_paths found)) }
        ensures running { self.new.running ≡ self.old.running }
        ensures scripted { Answers self.old (HostRequest.Scan folder.now)
            (answer_behind (λ found. HostAnswer.Listed found) result) self.new }
    {
        let Some(listed) = self.next_listing()? else {
            let request = HostRequest::Scan(folder.copied(self.alloc)?);
            return Err(self.refuse(request, HostFault::Scan));
        };
        note_scan(self.alloc, &mut self.log, folder, &listed)?;
        self.given += 1;
        Ok(listed)
    }

    fn head(&mut self, path: &Text, limit: u64) -> Result<Items<u8>, HostError>
        ensures logged { self.new.log ≡ self.old.log
            ++ entries_of (HostRequest.Head path.now limit)
            (answer_behind (λ bytes. HostAnswer.FirstBytes bytes) result) }
        ensures own { FailsOnlyBy HostFault.Head result }
        ensures within { IfOk result (λ bytes. length bytes ≤ limit) }
        ensures running { self.new.running ≡ self.old.running }
        ensures scripted { Answers self.old (HostRequest.Head path.now limit)
            (answer_behind (λ bytes. HostAnswer.FirstBytes bytes) result) self.new }
    {
        let Some(bytes) = self.next_head(limit)? else {
            let request = HostRequest::Head(path.copied(self.alloc)?, limit);
            return Err(self.refuse(request, HostFault::Head));
        };
        note_head(self.alloc, &mut self.log, path, limit, &bytes)?;
        self.given += 1;
        Ok(bytes)
    }

    fn fetch(
        &mut self,
        key: &Text,
        number: u64,
        files: &Items<Found>,
    ) -> Result<Items<Found>, HostError>
        ensures logged { self.new.log ≡ self.old.log
            ++ entries_of (HostRequest.Fetch key.now number files.now)
            (answer_behind (λ found. HostAnswer.Fetched found) result) }
        ensures own { FailsOnlyBy HostFault.Fetch result }
        ensures among { IfOk result (λ found. IsTrue (among files.now found)) }
        ensures running { self.new.running ≡ self.old.running }
        ensures scripted { Answers self.old (HostRequest.Fetch key.now number files.now)
            (answer_behind (λ found. HostAnswer.Fetched found) result) self.new }
    {
        let request = fetch_request(self.alloc, key, number, files)?;
        let Some(found) = self.next_fetch(files)? else {
            return Err(self.refuse(request, HostFault::Fetch));
        };
        note_fetch(self.alloc, &mut self.log, request, &found)?;
        self.given += 1;
        Ok(found)
    }

    fn store(&mut self, key: &Text, folder: &Text, files: &Items<Found>) -> Result<(), HostError>
        ensures logged { self.new.log ≡ self.old.log
            ++ entries_of (HostRequest.Store key.now folder.now files.now)
            (answer_behind (λ _. HostAnswer.Done) result) }
        ensures own { FailsOnlyBy HostFault.Store result }
        ensures running { self.new.running ≡ self.old.running }
        ensures scripted { Answers self.old (HostRequest.Store key.now folder.now files.now)
            (answer_behind (λ _. HostAnswer.Done) result) self.new }
    {
        let request = store_request(self.alloc, key, folder, files)?;
        if let Some(Reply::Store) = self.script.get(self.given) {
            self.log.push(Entry {
                request,
                answer: HostAnswer::Done,
            })?;
            self.given += 1;
            return Ok(());
        }
        Err(self.refuse(request, HostFault::Store))
    }

    fn deliver(&mut self, plan: &StagePlan) -> Result<(), HostError>
        ensures logged { self.new.log ≡ self.old.log
            ++ entries_of (HostRequest.Deliver plan.now)
            (answer_behind (λ _. HostAnswer.Done) result) }
        ensures own { FailsOnlyBy HostFault.Deliver result }
        ensures running { self.new.running ≡ self.old.running }
        ensures scripted { Answers self.old (HostRequest.Deliver plan.now)
            (answer_behind (λ _. HostAnswer.Done) result) self.new }
    {
        let request = HostRequest::Deliver(plan.clone_in(self.alloc)?);
        if let Some(Reply::Deliver) = self.script.get(self.given) {
            self.log.push(Entry {
                request,
                answer: HostAnswer::Done,
            })?;
            self.given += 1;
            return Ok(());
        }
        Err(self.refuse(request, HostFault::Deliver))
    }

    fn discard(&mut self, key: &Text) -> Result<(), HostError>
        ensures logged { self.new.log ≡ self.old.log
            ++ entries_of (HostRequest.Discard key.now)
            (answer_behind (λ _. HostAnswer.Done) result) }
        ensures own { FailsOnlyBy HostFault.Discard result }
        ensures running { self.new.running ≡ self.old.running }
        ensures scripted { Answers self.old (HostRequest.Discard key.now)
            (answer_behind (λ _. HostAnswer.Done) result) self.new }
    {
        let request = HostRequest::Discard(key.copied(self.alloc)?);
        if let Some(Reply::Discard) = self.script.get(self.given) {
            self.log.push(Entry {
                request,
                answer: HostAnswer::Done,
            })?;
            self.given += 1;
            return Ok(());
        }
        Err(self.refuse(request, HostFault::Discard))
    }

    fn close(&mut self, ticket: Ticket)
        ensures logged { self.new.log ≡ self.old.log }
        ensures closed { self.new.running ≡ without ticket self.old.running }
        ensures scripted { self.new
            ≡ record self.old { running = without ticket self.old.running } }
    {
        let number = ticket.spend();
        remove(&mut self.running, number);
    }
}

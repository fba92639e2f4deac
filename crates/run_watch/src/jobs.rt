//! What becomes of the jobs of a run.

use crate::hearing::TakeNear;
use crate::memory::Memory;
use crate::nearby::Nearby;
use crate::traces::{Holding, Traces};
use cwl_value::{JobPlace, copy_job};
use end_words::{Ended, place_in};
use job_rows::Row;
use plain_data::{Items, Keyed, Text};
use proc_host::{ChildEnd, HostAnswer, HostRequest};
use program_words::{Counts, Listen, Longest, Recalled, Savings, Why, reason_for};
use run_rules::{RecordAnswer, RecordRequest};
use std::alloc::{AllocError, Global};
use std::rt::Clock;
use std::time::Instant;

/// A child that runs, its job's place, also as JSON text, and since how many milliseconds after the start of the run.
#[derive(Drop)]
struct Running {
    ticket: u64,
    place: Text,
    job: JobPlace,
    since: u64,
}

/// What the record said of a job.
#[derive(Drop)]
struct InRecord {
    recalled: Recalled,
    // the key under which it was looked for, in a run that could load it: a key has all values of the inputs, and can be long
    key: Option<Text>,
}

/// Keeps what becomes of each job, under its place as JSON text, and hands it to a listener. What there is no room for is left out.
#[derive(Drop)]
pub struct Jobs<'a, R: AllocGlobal + Clock, L: Listen + TakeNear> {
    rt: &'a R,
    alloc: Global,
    listener: &'a mut L,
    memory: Memory<'a>,
    nearby: Nearby<'a>,
    // when the run began, if the clock can be read
    start: Option<Instant>,
    // how many jobs were known at the last question
    known: usize,
    // what the record said
    recalled: Keyed<InRecord>,
    // the keys whose archives are not what their rows have
    altered: Keyed<bool>,
    // the job whose files were fetched last, until the run goes on with them
    fetched: Option<Text>,
    // the children that run, in the order of their starts
    running: Vec<Running>,
    traces: Traces<'a>,
    // the jobs whose command has ended, or whose files were loaded
    done: Keyed<bool>,
    loaded: u64,
    // what it took to compute the jobs that this run did not compute
    gained: u64,
    // how many files and folders go to the output folder
    delivered: u64,
    // whether nothing was left out
    is_whole: bool,
}

impl<'a, R: AllocGlobal + Clock, L: Listen + TakeNear> Jobs<'a, R, L> {
    /// Begins, as the run does.
    pub fn new(rt: &'a R, listener: &'a mut L, memory: Memory<'a>) -> Jobs<'a, R, L> {
        let alloc = rt.alloc();
        Jobs {
            rt,
            alloc,
            listener,
            memory,
            nearby: Nearby::new(alloc, memory.recorded),
            start: Instant::now(rt).ok(),
            known: 0,
            recalled: Keyed::new(alloc),
            altered: Keyed::new(alloc),
            fetched: None,
            running: Vec::new(alloc),
            traces: Traces::new(alloc, Some(memory)),
            done: Keyed::new(alloc),
            loaded: 0,
            gained: 0,
            delivered: 0,
            is_whole: true,
        }
    }

    /// What is known of jobs by their places.
    pub fn traces(&self) -> &Traces<'a> {
        &self.traces
    }

    /// Takes note that the run has succeeded: jobs of which it needed nothing are named, and what computing them took was saved.
    pub fn succeed(&mut self) {
        let settled = self.settle();
        self.note(settled);
        for (place, found) in self.recalled.as_slice() {
            if !self.done.contains(place.as_str()) {
                self.gained = self.gained.saturating_add(found.recalled.cost);
                self.listener.omitted(place);
            }
        }
    }

    /// What became of the jobs of a run that has just ended, if a line is to say it.
    pub fn savings(&self) -> Option<Savings> {
        if !self.memory.counts || !self.is_whole {
            return None;
        }
        Some(Savings {
            jobs: self.known as u64,
            loaded: self.loaded,
            computed: self.traces.tickets.len() as u64,
            millis: self.age()?,
            gained: self.gained,
            delivered: self.delivered,
            could_load: self.memory.remembers,
            kept: self.kept_if_not_all(),
        })
    }

    /// Takes note of a question before it is asked of the host, for the job at this place, and of how many jobs are known by then.
    pub fn note_asked(&mut self, place: &JobPlace, request: &HostRequest, known: usize) {
        self.known = known;
        let noted = self.note_question(place, request);
        self.note(noted);
        self.traces.counts = self.counts();
    }

    /// Takes note of the answer to the question before it.
    pub fn note_answered(&mut self, place: &JobPlace, answer: &HostAnswer) {
        let noted = self.note_answer(place, answer);
        self.note(noted);
        self.traces.counts = self.counts();
    }

    /// Takes note of a command to the record, of its answer, and of how many jobs were known before it.
    pub fn note_recalled(
        &mut self,
        place: &JobPlace,
        request: &RecordRequest,
        answer: &RecordAnswer,
        known: usize,
    ) {
        self.known = known;
        let noted = self.note_record(place, request, answer);
        self.note(noted);
        self.traces.counts = self.counts();
    }

    // How many jobs have a row from this run, with their files if an archive is kept: if one that was to be kept couldn't be.
    fn kept_if_not_all(&self) -> Option<u64> {
        let traces = &self.traces;
        if traces.unstored.are_some() || traces.unput.are_some() || traces.over_budget() > 0 {
            Some(traces.kept())
        } else {
            None
        }
    }

    // The milliseconds since the start of the run.
    fn age(&self) -> Option<u64> {
        let time = self.start?.elapsed(self.rt).ok()?;
        Some(u64::try_from(time.as_millis()).unwrap_or(u64::MAX))
    }

    fn note(&mut self, noted: Result<(), AllocError>) {
        if noted.is_err() {
            self.is_whole = false;
        }
    }

    fn counts(&self) -> Counts {
        Counts {
            done: self.done.len(),
            known: self.known,
            running: self.running.len(),
        }
    }

    fn note_question(&mut self, place: &JobPlace, request: &HostRequest) -> Result<(), AllocError> {
        self.settle()?;
        match request {
            HostRequest::Start(launch) => {
                let place = place_in(self.alloc, place)?;
                let (reason, counts) = (self.reason(&place), self.counts());
                self.listener.starts(&place, launch, reason, counts);
                Ok(())
            }
            HostRequest::Deliver(plan) => {
                self.delivered = plan.moves.len() as u64;
                Ok(())
            }
            _ => Ok(()),
        }
    }

    // Why a job is computed, in a run that could have loaded it.
    fn reason(&self, place: &Text) -> Option<Why> {
        if !self.memory.remembers {
            return None;
        }
        let keeps = self.memory.keeps;
        match self.recalled.get(place.as_str()) {
            None => Some(reason_for(None, keeps, false)),
            Some(found) => Some(reason_for(Some(&found.recalled), keeps, self.is_altered(found))),
        }
    }

    // Whether what was fetched under its key was not what the row has.
    fn is_altered(&self, found: &InRecord) -> bool {
        match &found.key {
            None => false,
            Some(key) => self.altered.contains(key.as_str()),
        }
    }

    fn note_answer(&mut self, place: &JobPlace, answer: &HostAnswer) -> Result<(), AllocError> {
        match answer {
            HostAnswer::Started(ticket) => self.note_start(place, *ticket),
            HostAnswer::Ended(end) => self.note_end(end),
            HostAnswer::Fetched(_) => {
                self.fetched = Some(place_in(self.alloc, place)?);
                Ok(())
            }
            HostAnswer::Failed(fault) => self.traces.fail(self.alloc, place, *fault),
            _ => Ok(()),
        }
    }

    fn note_start(&mut self, place: &JobPlace, ticket: u64) -> Result<(), AllocError> {
        let job = copy_job(self.alloc, place)?;
        let place = place_in(self.alloc, place)?;
        self.traces
            .tickets
            .insert(place.copied(self.alloc)?, ticket)?;
        let age = self.age().unwrap_or(0);
        self.running.push(Running {
            ticket,
            place,
            job,
            since: age,
        })?;
        let counts = self.counts();
        let longest = longest_of(self.running.as_slice(), age);
        if let Some(child) = self.running.last() {
            self.listener
                .started(&child.place, child.ticket, counts, longest);
        }
        Ok(())
    }

    fn note_end(&mut self, end: &ChildEnd) -> Result<(), AllocError> {
        let Some(Running { place, job, .. }) = self.child_of(end.ticket) else {
            return Ok(());
        };
        self.done.insert(place.copied(self.alloc)?, true)?;
        let age = self.age().unwrap_or(0);
        let counts = self.counts();
        let longest = longest_of(self.running.as_slice(), age);
        self.listener.ended(&place, end, counts, longest);
        self.traces.ends.push(Ended {
            place,
            job,
            ticket: end.ticket,
            code: end.code,
        })?;
        Ok(())
    }

    // Takes the child of a ticket out of the running ones.
    fn child_of(&mut self, ticket: u64) -> Option<Running> {
        let index = self
            .running
            .iter()
            .position(|child| child.ticket == ticket)?;
        Some(self.running.remove(index))
    }

    fn note_record(
        &mut self,
        place: &JobPlace,
        request: &RecordRequest,
        answer: &RecordAnswer,
    ) -> Result<(), AllocError> {
        match (request, answer) {
            (RecordRequest::Find(key), RecordAnswer::Found(row)) => {
                self.settle()?;
                self.recall(place, key, row)
            }
            (RecordRequest::Touch(_), RecordAnswer::Refused(refusal)) => {
                self.settle()?;
                self.traces.use_refusal = refusal.code();
                self.traces.untouched.add(self.alloc, place)
            }
            (RecordRequest::DropArchive(key), _) => {
                // what was fetched last is not what its row has
                self.fetched = None;
                self.altered.insert(key.copied(self.alloc)?, true)?;
                self.traces.lose(self.alloc, key, Holding::Unkept)
            }
            (RecordRequest::Put(row), _) => {
                self.settle()?;
                self.note_put(place, row, answer)
            }
            _ => self.settle(),
        }
    }

    fn note_put(
        &mut self,
        place: &JobPlace,
        row: &Row,
        answer: &RecordAnswer,
    ) -> Result<(), AllocError> {
        match answer {
            RecordAnswer::Put(gone) => self.note_row(row, gone),
            RecordAnswer::Refused(refusal) => {
                self.traces.refusal = refusal.code();
                self.traces.unput.add(self.alloc, place)
            }
            _ => Ok(()),
        }
    }

    // A run without a record keeps nothing for later ones. One without an archive keeps rows alone, so it loses nothing with the files of
    // others.
    fn note_row(&mut self, row: &Row, gone: &Items<Text>) -> Result<(), AllocError> {
        if !self.memory.remembers {
            return Ok(());
        }
        let is_kept = row.archived || !self.memory.keeps;
        self.traces.hold_one_more(self.alloc, &row.key, is_kept)?;
        if self.memory.keeps {
            for key in gone.as_slice() {
                self.traces.lose(self.alloc, key, Holding::OverBudget)?;
            }
        }
        Ok(())
    }

    fn recall(
        &mut self,
        place: &JobPlace,
        key: &Text,
        row: &Option<Row>,
    ) -> Result<(), AllocError> {
        let place = place_in(self.alloc, place)?;
        if let Some(row) = row {
            self.traces.keep_row(self.alloc, &place, row)?;
        }
        let near = self.nearby.lines_on(key, row.is_some())?;
        if !near.as_str().is_empty() {
            self.listener.take_near(place.copied(self.alloc)?, near);
        }
        let key = if self.memory.remembers {
            Some(key.copied(self.alloc)?)
        } else {
            None
        };
        let recalled = recalled_of(row);
        self.recalled.insert(place, InRecord { recalled, key })?;
        Ok(())
    }

    // Takes note that the run goes on with what was fetched last.
    fn settle(&mut self) -> Result<(), AllocError> {
        match self.fetched.take() {
            None => Ok(()),
            Some(place) => self.note_load(&place),
        }
    }

    fn note_load(&mut self, place: &Text) -> Result<(), AllocError> {
        let cost = match self.recalled.get(place.as_str()) {
            None => 0,
            Some(found) => found.recalled.cost,
        };
        self.loaded = self.loaded.saturating_add(1);
        self.gained = self.gained.saturating_add(cost);
        self.done.insert(place.copied(self.alloc)?, true)?;
        let age = self.age().unwrap_or(0);
        let counts = self.counts();
        let longest = longest_of(self.running.as_slice(), age);
        self.listener.loaded(place, counts, longest);
        Ok(())
    }
}

// Of the children that run the one that was started first, so many milliseconds after the start of the run.
fn longest_of(running: &[Running], age: u64) -> Option<Longest<'_>> {
    let child = running.first()?;
    Some(Longest {
        place: child.place.as_str(),
        seconds: age.saturating_sub(child.since) / 1_000,
    })
}

fn recalled_of(row: &Option<Row>) -> Recalled {
    match row {
        None => Recalled {
            has_row: false,
            is_archived: false,
            cost: 0,
        },
        Some(row) => Recalled {
            has_row: true,
            is_archived: row.archived,
            cost: row.cost,
        },
    }
}

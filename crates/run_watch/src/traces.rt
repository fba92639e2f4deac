//! What a run left that speaks of its jobs.

use crate::memory::Memory;
use cwl_value::JobPlace;
use end_notes::Remembered;
use end_words::{Ended, Misses, place_in};
use job_rows::Row;
use plain_data::{Keyed, Text};
use proc_host::HostFault;
use program_words::Counts;
use std::alloc::{AllocError, Global};

/// How many files of rows are kept.
const FILES_KEPT: usize = 4_096;

/// How the jobs are held that were put under a key.
#[derive(Clone, Copy, Drop, PartialEq, Eq)]
pub enum Holding {
    /// With their files if an archive is kept.
    Kept,
    /// Their files could not be stored, or are not what they were.
    Unkept,
    /// The budget had no room for their files.
    OverBudget,
}

/// The jobs of this run that were put under a key.
#[derive(Drop)]
struct Held {
    jobs: u64,
    holding: Holding,
}

/// What a run left that speaks of its jobs, whose places are JSON text.
#[derive(Drop)]
pub struct Traces<'a> {
    /// What is known of the call, if its files are to be named.
    pub memory: Option<Memory<'a>>,
    /// How many jobs there were, and how many of them have ended.
    pub counts: Counts,
    /// The ticket of the last child of each job.
    pub tickets: Keyed<u64>,
    /// The children that have ended, in the order of their ends.
    pub ends: Vec<Ended>,
    // the jobs of which the record had files
    archived: Keyed<bool>,
    // for the code of each fault of the host the first job that met it
    failures: Keyed<Text>,
    // what the record had of jobs, while there is room for their files
    rows: Keyed<Remembered>,
    room: usize,
    // under each key that was put what became of its jobs
    held: Keyed<Held>,
    /// The jobs whose files could not be stored.
    pub unstored: Misses,
    /// The jobs whose rows the record refused, and the code of the last refusal.
    pub unput: Misses,
    pub refusal: &'static str,
    /// The jobs whose use the record refused to note, and the code of the last such refusal.
    pub untouched: Misses,
    pub use_refusal: &'static str,
    /// The jobs after which files could not be removed from the archive.
    pub undiscarded: Misses,
}

impl<'a> Traces<'a> {
    pub fn new(alloc: Global, memory: Option<Memory<'a>>) -> Traces<'a> {
        Traces {
            memory,
            counts: Counts {
                done: 0,
                known: 0,
                running: 0,
            },
            tickets: Keyed::new(alloc),
            ends: Vec::new(alloc),
            archived: Keyed::new(alloc),
            failures: Keyed::new(alloc),
            rows: Keyed::new(alloc),
            room: FILES_KEPT,
            held: Keyed::new(alloc),
            unstored: Misses::none(),
            unput: Misses::none(),
            refusal: "",
            untouched: Misses::none(),
            use_refusal: "",
            undiscarded: Misses::none(),
        }
    }

    /// What the record had of the job at a place.
    pub fn row_at(&self, place: &str) -> Option<&Remembered> {
        self.rows.get(place)
    }

    pub fn keep_row(&mut self, alloc: Global, place: &Text, row: &Row) -> Result<(), AllocError> {
        if row.archived {
            self.archived.insert(place.copied(alloc)?, true)?;
        }
        // (a row without files takes room too)
        let size = row.files.len().saturating_add(1);
        if size <= self.room {
            self.room -= size;
            let kept = Remembered::of(alloc, row)?;
            self.rows.insert(place.copied(alloc)?, kept)?;
        }
        Ok(())
    }

    /// The ticket of the last child of the job at a place.
    pub fn ticket_at(&self, place: &str) -> Option<&u64> {
        self.tickets.get(place)
    }

    /// Takes note that a call of the host failed so for the job at a place.
    pub fn fail(
        &mut self,
        alloc: Global,
        place: &JobPlace,
        fault: HostFault,
    ) -> Result<(), AllocError> {
        match fault {
            HostFault::Store => self.unstored.add(alloc, place)?,
            HostFault::Discard => self.undiscarded.add(alloc, place)?,
            _ => {}
        }
        if self.failures.contains(fault.code()) {
            return Ok(());
        }
        let code = Text::from_text(alloc, fault.code())?;
        self.failures.insert(code, place_in(alloc, place)?)?;
        Ok(())
    }

    /// The place of the first job for which a call of the host failed so.
    pub fn failed_at(&self, fault: HostFault) -> Option<&Text> {
        self.failures.get(fault.code())
    }

    /// How many jobs of this run the record has without their files, since the budget had no room for them.
    pub fn over_budget(&self) -> u64 {
        self.jobs_held(Holding::OverBudget)
    }

    /// How many jobs of this run are kept for later ones.
    pub fn kept(&self) -> u64 {
        self.jobs_held(Holding::Kept)
    }

    /// How many jobs were kept by earlier runs, and have not been computed again.
    pub fn kept_before(&self) -> u64 {
        let mut jobs: u64 = 0;
        for (place, _) in self.archived.as_slice() {
            if !self.tickets.contains(place.as_str()) {
                jobs = jobs.saturating_add(1);
            }
        }
        jobs
    }

    fn jobs_held(&self, holding: Holding) -> u64 {
        let mut jobs: u64 = 0;
        for (_, held) in self.held.as_slice() {
            if held.holding == holding {
                jobs = jobs.saturating_add(held.jobs);
            }
        }
        jobs
    }

    pub fn hold_one_more(
        &mut self,
        alloc: Global,
        key: &Text,
        is_kept: bool,
    ) -> Result<(), AllocError> {
        let jobs = match self.held.get(key.as_str()) {
            None => 0,
            Some(held) => held.jobs,
        };
        let holding = if is_kept {
            Holding::Kept
        } else {
            Holding::Unkept
        };
        let jobs = jobs.saturating_add(1);
        self.held
            .insert(key.copied(alloc)?, Held { jobs, holding })?;
        Ok(())
    }

    // The files of a key are not kept any longer.
    pub fn lose(&mut self, alloc: Global, key: &Text, holding: Holding) -> Result<(), AllocError> {
        if let Some(Held { jobs, .. }) = self.held.get(key.as_str()) {
            let jobs = *jobs;
            self.held
                .insert(key.copied(alloc)?, Held { jobs, holding })?;
        }
        Ok(())
    }
}

//! What has become of each job.
ghost use Rattle.std.specs.Prelude.{◌≡◌, ◌<◌, ◌+◌, ◌^◌, ℕ, [], OnOk, MatchOption, length, map};
ghost use Rattle.std.specs.List.{list_all};
ghost use Rattle.job_graph.specs.KnownJobs.{known_of};
ghost use Rattle.run_core.specs.inner.JobStates.{IsLowest, NoneReady, NoneWaits, brought_in, given_up_in, loaded_in, missed_in, is_ready, is_there, staged_in, state_at, waits_in};

use crate::planning::is_computed;
use job_graph::KnownJob;
use plan_checker::Mark;
use std::alloc::{AllocError, Global};
use std::marker::Model;

/// What has become of a job.
#[derive(Drop)]
pub(crate) struct JobState {
    /// Whether it is still to be staged: it never was, or it failed temporarily and may be tried again.
    pub waits: bool,
    /// Whether its outputs are at hand.
    pub at_hand: bool,
    /// Whether a fetch of its files was asked for.
    pub tried: bool,
    /// The number of the folders that it was staged in last, or its files were fetched to; 0 where there are none.
    pub folder: u64,
    /// Whether these are of a fetch.
    pub fetched: bool,
    /// How often it failed temporarily.
    pub gave_up: u64,
}

/// What has become of the jobs, by number. A job past the last of these was never touched.
#[derive(Drop)]
pub(crate) struct JobStates {
    states: Vec<JobState>,
    /// No job below this number waits, so the next to be staged is looked for from here on.
    lowest: usize,
}

impl Model for JobStates {
    ghost use Rattle.std.specs.Prelude.{List};
    ghost use Rattle.std.specs.Coded.{coded_list};
    ghost use Rattle.run_core.specs.contracts.job_states.JobState as state;
    ghost use Rattle.run_core.specs.declared.job_states.JobState.{JobState};
    ghost use Rattle.run_core.specs.inner.LowestWaiting.{IsLookedFor};

    ghost Value = { List JobState };

    ghost coded = { coded_list state.the_row.coded };

    ghost view = { λ fields. fields.states.items };

    ghost invariant = { IsLookedFor };
}

impl JobStates {
    /// No job was touched.
    pub(crate) fn new(alloc: Global) -> JobStates
        ensures { result ≡ [] }
    {
        JobStates {
            states: Vec::new(alloc),
            lowest: 0,
        }
    }

    /// The states of the jobs that were touched, by number.
    pub(crate) fn as_slice(&self) -> &[JobState]
        ensures { result.now ≡ self.now }
    {
        self.states.as_slice()
    }

    /// How often the job failed temporarily.
    pub(crate) fn tries(&self, number: usize) -> u64
        requires { number < length self.now }
        ensures { result ≡ (state_at self.now number).gave_up }
    {
        self.states[number].gave_up
    }

    /// The number of the folders that the job was staged in last.
    pub(crate) fn folder_of(&self, number: usize) -> u64
        requires { number < length self.now }
        ensures { result ≡ (state_at self.now number).folder }
    {
        self.states[number].folder
    }

    /// The lowest of the known jobs that waits, is computed by a plan of these marks, and whose parents are at hand.
    pub(crate) fn first_ready(&mut self, known: &[KnownJob<'_>], marks: &[Mark]) -> Option<usize>
        ensures same { self.new ≡ self.old }
        ensures found { MatchOption result
            (NoneReady marks.now (map known_of known.now) self.old (length known.now))
            (IsLowest marks.now (map known_of known.now) self.old) }
    {
        while self.lowest < self.states.len() && !self.states[self.lowest].waits {
            self.lowest += 1;
        }
        first_ready(self.states.as_slice(), self.lowest, known, marks)
    }

    /// The job has these folders, and waits no more.
    pub(crate) fn stage(&mut self, number: usize, folder: u64) -> Result<(), AllocError>
        ensures { OnOk result (self.new ≡ staged_in number folder self.old) }
    {
        self.reach(number)?;
        let state = &mut self.states[number];
        state.waits = false;
        state.folder = folder;
        state.fetched = false;
        Ok(())
    }

    /// The outputs of the job are at hand.
    pub(crate) fn bring(&mut self, number: usize)
        requires { number < length self.old }
        ensures { self.new ≡ brought_in number self.old }
    {
        self.states[number].at_hand = true;
    }

    /// The files of the job were fetched to the folder of this number, and it waits no more.
    pub(crate) fn load(&mut self, number: usize, folder: u64) -> Result<(), AllocError>
        ensures { OnOk result (self.new ≡ loaded_in number folder self.old) }
    {
        self.reach(number)?;
        let state = &mut self.states[number];
        state.waits = false;
        state.at_hand = true;
        state.tried = true;
        state.folder = folder;
        state.fetched = true;
        Ok(())
    }

    /// What was fetched for the job is not what its row has, and it waits still.
    pub(crate) fn miss(&mut self, number: usize) -> Result<(), AllocError>
        ensures { OnOk result (self.new ≡ missed_in number self.old) }
    {
        self.reach(number)?;
        self.states[number].tried = true;
        Ok(())
    }

    /// Whether the outputs of the job are at hand.
    pub(crate) fn is_there(&self, number: usize) -> bool
        ensures { result ≡ is_there self.now number }
    {
        is_there(self.states.as_slice(), number)
    }

    /// Whether the job waits.
    pub(crate) fn waits(&self, number: usize) -> bool
        ensures { result ≡ waits_in self.now number }
    {
        waits(self.states.as_slice(), number)
    }

    /// The job failed temporarily once more, and waits again.
    pub(crate) fn give_up(&mut self, number: usize)
        requires within { number < length self.old }
        requires few { (state_at self.old number).gave_up + 1 < 2 ^ 64 }
        ensures { self.new ≡ given_up_in number self.old }
    {
        let state = &mut self.states[number];
        state.gave_up += 1;
        state.waits = true;
        if number < self.lowest {
            self.lowest = number;
        }
    }

    /// Adds jobs that were never touched, up to the one of this number.
    fn reach(&mut self, number: usize) -> Result<(), AllocError>
        ensures reached { OnOk result (number < length self.new) }
        ensures same { (folder : ℕ) → staged_in number folder self.new
            ≡ staged_in number folder self.old }
        ensures loaded { (folder : ℕ) → loaded_in number folder self.new
            ≡ loaded_in number folder self.old }
        ensures missed { missed_in number self.new ≡ missed_in number self.old }
    {
        while self.states.len() <= number {
            self.states.push(JobState {
                waits: true,
                at_hand: false,
                tried: false,
                folder: 0,
                fetched: false,
                gave_up: 0,
            })?;
        }
        Ok(())
    }
}

/// The first of the known jobs, from a number on, that waits, is computed and whose parents are at hand; below that number none
/// waits.
fn first_ready(
    states: &[JobState],
    from: usize,
    known: &[KnownJob<'_>],
    marks: &[Mark],
) -> Option<usize>
    requires { NoneWaits states.now from }
    ensures { MatchOption result
        (NoneReady marks.now (map known_of known.now) states.now (length known.now))
        (IsLowest marks.now (map known_of known.now) states.now) }
{
    for number in from..known.len() {
        if is_ready(states, marks, known, number) {
            return Some(number);
        }
    }
    None
}

/// Whether the known job of a number waits, is computed and its parents are at hand.
fn is_ready(states: &[JobState], marks: &[Mark], known: &[KnownJob<'_>], number: usize) -> bool
    requires { number < length known.now }
    ensures { result ≡ is_ready marks.now (map known_of known.now) states.now number }
{
    waits(states, number)
        && (is_computed(marks, number) && are_there(states, known[number].parents.as_slice()))
}

fn waits(states: &[JobState], number: usize) -> bool
    ensures { result ≡ waits_in states.now number }
{
    match states.get(number) {
        Some(state) => state.waits,
        None => true,
    }
}

/// Whether the outputs of the jobs of these numbers are at hand.
fn are_there(states: &[JobState], jobs: &[usize]) -> bool
    ensures { result ≡ list_all (is_there states.now) jobs.now }
{
    for job in jobs {
        if !is_there(states, *job) {
            return false;
        }
    }
    true
}

fn is_there(states: &[JobState], number: usize) -> bool
    ensures { result ≡ is_there states.now number }
{
    match states.get(number) {
        Some(state) => state.at_hand,
        None => false,
    }
}

//! The host itself.
ghost use Rattle.std.specs.Prelude.{◌≡◌, ◌++◌, ◌+◌, [], IfOk, Contains};
ghost use Rattle.proc_host.specs.Log.{answer_behind, entries_of, FailsOnlyBy, starts};
ghost use Rattle.proc_host.specs.Tickets.{IsFresh, running_after, without};

use crate::calls;
use crate::collecting::Killed;
use crate::hearing::{Deaf, Hear};
use crate::missed::Undelivered;
use crate::past::Places;
use crate::spawning::Flying;
use crate::trouble::Hindrance;
use crate::trusting::Sums;
use crate::unlisted::Unlisted;
use crate::world::World;
use command_line::{Launch, Variable};
use plain_data::{Items, Text};
use proc_host::{ChildEnd, Entry, Host, HostAnswer, HostError, HostFault, HostRequest, Ticket};
use staging::{Found, Measure, StagePlan};
use std::alloc::{AllocError, Global};
use std::marker::Model;
use std::mem;
use std::process::Stdio;

/// A host over real processes and files.
///
/// It writes below its work folder, its archive and its output folder, and the file of times that are trusted, and nowhere else. A child that nobody waits for any more
/// runs on.
#[derive(Drop)]
pub struct Machine<R: World> {
    rt: R,
    work: Text,
    // the folder of the archive, where one is kept
    archive: Option<Text>,
    outdir: Text,
    log: Vec<Entry>,
    places: Places,
    running: Vec<u64>,
    // the children that were not collected yet, oldest first
    flying: Vec<Flying<R::Started, R::File>>,
    started: u64,
    // those that a signal ended, as far as there was room
    killed: Vec<Killed>,
    // whether messages that no file takes are handed on as they come
    shows: bool,
    // whether the folders `in` and `tmp` of jobs stay
    keeps: bool,
    // paths at which no delivery puts anything
    guarded: Items<Text>,
    // the words that stand before each command
    launcher: Items<Text>,
    // how the sums of what is measured are come by
    sums: Sums,
    // of the last stage or delivery
    hindered: Option<Undelivered>,
    // of the last start
    unstarted: Option<Hindrance>,
    // of the last scan
    unlisted: Option<Unlisted>,
    // of the first store that the system refused
    unstored: Option<Hindrance>,
}

impl<R: World> Model for Machine<R> {
    ghost use Rattle.process_machine.specs.Machine.{MachineState, IsInStep};
    ghost use Rattle.cwl_value.specs.contracts.value.Value as value;
    ghost use Rattle.std.specs.Coded.{codes};

    ghost Value = { MachineState };

    ghost coded = { Prim.hlevel (codes, value.the_row.coded) };

    ghost view = { λ fields. record { log = fields.log.items; running = fields.running.items; guarded = fields.guarded; launcher = fields.launcher } };

    ghost invariant = { λ fields. IsInStep fields.log.items fields.running.items fields.started };
}

impl<R: World> Machine<R> {
    /// A machine whose jobs have their folders in `work`, which has to be there, whose jobs' outputs are archived in `archive`, and
    /// whose outputs are delivered to `outdir`. These are paths from the root, since children run in folders of their own. Without an
    /// archive each fetch, store and discard fails.
    pub fn new(rt: R, work: Text, archive: Option<Text>, outdir: Text) -> Machine<R>
        ensures { result ≡ record { log = []; running = []; guarded = []; launcher = [] } }
    {
        let alloc = rt.alloc();
        Machine {
            rt,
            work,
            archive,
            outdir,
            log: Vec::new(alloc),
            places: Places::new(alloc),
            running: Vec::new(alloc),
            flying: Vec::new(alloc),
            started: 0,
            killed: Vec::new(alloc),
            shows: false,
            keeps: false,
            guarded: Items::new(alloc),
            launcher: Items::new(alloc),
            sums: Sums::read(),
            hindered: None,
            unstarted: None,
            unlisted: None,
            unstored: None,
        }
    }

    /// From now on what a child writes to the file `stderr` in the folder of its job is handed on to the hearer of the machine as it
    /// comes.
    pub fn show_messages(&mut self)
        ensures { self.new ≡ self.old }
    {
        self.shows = true;
    }

    /// From now on the folders `in` and `tmp` of a job stay when its outputs are listed.
    pub fn keep_folders(&mut self)
        ensures { self.new ≡ self.old }
    {
        self.keeps = true;
    }

    /// From now on no delivery replaces what is at one of these paths, where a link stands for what it leads to, or puts anything there: it
    /// fails, and copies nothing. They take the place of those that were guarded before.
    pub fn guard(&mut self, paths: Items<Text>)
        ensures { self.new ≡ record self.old { guarded = paths } }
    {
        mem::drop(mem::replace(&mut self.guarded, paths));
    }

    /// From now on these words stand before those of each launch, so the first of them names the program that is started: it is to start the
    /// command behind it. They take the place of those that stood there before; without words each command is started itself. What a `Heard`
    /// tells the launcher, the command behind it does not see.
    pub fn launch_by(&mut self, words: Items<Text>)
        ensures { self.new ≡ record self.old { launcher = words } }
    {
        mem::drop(mem::replace(&mut self.launcher, words));
    }

    /// From now on a file that is measured is not read if its device, its number, its size and its times are as an earlier machine noted them
    /// with its sum in the table of this file. What is read is noted in its place.
    pub fn trust_times(&mut self, file: Text) -> Result<(), AllocError>
        ensures { self.new ≡ self.old }
    {
        let sums = Sums::trusting(&self.rt, file)?;
        mem::drop(mem::replace(&mut self.sums, sums));
        Ok(())
    }

    /// Writes the table of times that are trusted, if they are, and says whether that could be done.
    pub fn keep_times(&self) -> bool {
        self.sums.keep(&self.rt).is_ok()
    }

    /// The words that stand before those of each launch.
    pub fn launcher(&self) -> &[Text]
        ensures { result.now ≡ self.now.launcher }
    {
        self.launcher.as_slice()
    }

    /// What the last stage or delivery could not copy, and why, where that is known.
    pub fn undelivered(&self) -> Option<&Undelivered> {
        self.hindered.as_ref()
    }

    /// What hindered the last start that failed, where the system says so.
    pub fn unstarted(&self) -> Option<Hindrance> {
        self.unstarted
    }

    /// What kept the last scan from a listing, and why, where that is known.
    pub fn unlisted(&self) -> Option<&Unlisted> {
        self.unlisted.as_ref()
    }

    /// What hindered the first store that failed, where the system says so.
    pub fn unstored(&self) -> Option<Hindrance> {
        self.unstored
    }

    /// The signal that ended the child of a ticket, if one did, as far as there was room to keep it.
    pub fn signal_of(&self, ticket: u64) -> Option<i32> {
        let killed = self.killed.iter().find(|one| one.ticket == ticket)?;
        Some(killed.signal)
    }

    /// What was asked and answered so far, oldest first.
    pub fn log(&self) -> &[Entry]
        ensures { result.now ≡ self.now.log }
    {
        self.log.as_slice()
    }

    /// The tickets that were started and not closed yet.
    pub fn running(&self) -> &[u64]
        ensures { result.now ≡ self.now.running }
    {
        self.running.as_slice()
    }

    /// The memory that its calls take.
    pub(crate) fn alloc(&self) -> Global {
        self.rt.alloc()
    }

    /// Collects, as `Host::collect` says, and hands on what the children write meanwhile.
    pub(crate) fn collect_heard<H: Hear>(&mut self, hearer: &mut H) -> Result<ChildEnd, HostError>
        ensures logged { self.new.log ≡ self.old.log
            ++ entries_of HostRequest.Collect (answer_behind (λ ending. HostAnswer.Ended ending)
            result) }
        ensures own { FailsOnlyBy HostFault.Collect result }
        ensures child { IfOk result (λ ending. Contains self.old.running ending.ticket) }
        ensures running { self.new.running ≡ self.old.running }
    {
        calls::collect(
            &self.rt,
            &mut self.log,
            &mut self.flying,
            &mut self.killed,
            &self.running,
            hearer,
        )
    }
}

impl<R: World> Machine<R>
where
    R::File: Into<Stdio>,
{
    /// Starts a child, as `Host::start` says, whose launcher is told what is advised.
    pub(crate) fn start_advised(
        &mut self,
        advice: &[Variable],
        launch: &Launch,
    ) -> Result<Ticket, HostError>
        ensures logged { self.new.log ≡ self.old.log
            ++ entries_of (HostRequest.Start launch.now)
            (answer_behind (λ ticket. HostAnswer.Started ticket) result) }
        ensures own { FailsOnlyBy HostFault.Start result }
        ensures fresh { IfOk result (λ ticket. IsFresh ticket self.old.running) }
        ensures started { self.new.running ≡ running_after self.old.running result }
        ensures numbered { IfOk result (λ ticket. ticket ≡ starts self.old.log + 1) }
    {
        let ticket = self.started + 1;
        calls::start(
            &self.rt,
            &mut self.log,
            &mut self.running,
            &mut self.flying,
            self.launcher.as_slice(),
            advice,
            launch,
            ticket,
            self.shows,
            &mut self.unstarted,
        )?;
        self.started = ticket;
        Ok(Ticket::new(ticket))
    }
}

impl<R: World> Host for Machine<R>
where
    R::File: Into<Stdio>,
{
    ghost log = { λ state. state.log };

    ghost running = { λ state. state.running };

    fn measure(&mut self, path: &Text) -> Result<Measure, HostError> {
        calls::measure(
            &self.rt,
            &mut self.log,
            &mut self.places,
            &mut self.sums,
            path,
        )
    }

    fn stage(&mut self, plan: &StagePlan, number: u64) -> Result<(), HostError> {
        calls::stage(
            &self.rt,
            &mut self.log,
            &self.places,
            self.work.as_str(),
            plan,
            number,
            &mut self.hindered,
        )
    }

    fn start(&mut self, launch: &Launch) -> Result<Ticket, HostError> {
        self.start_advised(&[], launch)
    }

    fn collect(&mut self) -> Result<ChildEnd, HostError> {
        self.collect_heard(&mut Deaf)
    }

    fn scan(&mut self, folder: &Text) -> Result<Items<Found>, HostError> {
        let work = cleared_below(&self.work, self.keeps);
        calls::scan(
            &self.rt,
            &mut self.log,
            &mut self.places,
            work,
            folder,
            &mut self.unlisted,
        )
    }

    fn head(&mut self, path: &Text, limit: u64) -> Result<Items<u8>, HostError> {
        calls::head(&self.rt, &mut self.log, path, limit)
    }

    fn fetch(
        &mut self,
        key: &Text,
        number: u64,
        files: &Items<Found>,
    ) -> Result<Items<Found>, HostError> {
        calls::fetch(
            &self.rt,
            &mut self.log,
            &mut self.places,
            self.work.as_str(),
            path_in(&self.archive),
            key,
            number,
            files,
        )
    }

    fn store(&mut self, key: &Text, folder: &Text, files: &Items<Found>) -> Result<(), HostError> {
        calls::store(
            &self.rt,
            &mut self.log,
            path_in(&self.archive),
            key,
            folder,
            files,
            &mut self.unstored,
        )
    }

    fn deliver(&mut self, plan: &StagePlan) -> Result<(), HostError> {
        calls::deliver(
            &self.rt,
            &mut self.log,
            &self.places,
            self.guarded.as_slice(),
            self.outdir.as_str(),
            plan,
            &mut self.hindered,
        )
    }

    fn discard(&mut self, key: &Text) -> Result<(), HostError> {
        calls::discard(&self.rt, &mut self.log, path_in(&self.archive), key)
    }

    fn close(&mut self, ticket: Ticket) {
        let number = ticket.spend();
        remove(&mut self.running, number);
        self.flying.retain(|child| child.ticket != number);
    }
}

// Takes a ticket out of the running ones.
fn remove(running: &mut Vec<u64>, number: u64)
    ensures { running.new.items ≡ without number running.old.items }
{
    running.retain(|other| *other != number);
}

// The work folder, where the folders `in` and `tmp` of its jobs are removed.
fn cleared_below(work: &Text, keeps: bool) -> Option<&str> {
    if keeps { None } else { Some(work.as_str()) }
}

fn path_in(archive: &Option<Text>) -> Option<&str> {
    match archive {
        Some(archive) => Some(archive.as_str()),
        None => None,
    }
}

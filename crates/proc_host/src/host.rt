ghost use Rattle.std.specs.Prelude.{◌≡◌, ◌≢◌, ◌≤◌, ◌+◌, ◌++◌, List, ℕ, [], length, IfOk, IsTrue, Contains};
ghost use Rattle.collected_outputs.specs.Listing.{are_paths};
ghost use Rattle.proc_host.specs.declared.call.Entry.{Entry};
ghost use Rattle.proc_host.specs.Answers.{are_among, fault_of};
ghost use Rattle.proc_host.specs.Log.{answer_behind, entries_of, starts, FailsOnlyBy};
ghost use Rattle.proc_host.specs.Tickets.{IsFresh, running_after, without};

use crate::{ChildEnd, HostAnswer, HostError, HostFault, HostRequest, Ticket};
use command_line::Launch;
use plain_data::{Items, Text};
use staging::{Found, Measure, StagePlan};

/// The world of a run: its files and its children.
///
/// Each call makes room for its entry in the log, acts, and adds the entry. One that runs out of
/// memory adds none and changes nothing that is told of here.
pub trait Host {
    /// What was asked and answered so far, oldest first.
    ghost log: { Self → List Entry };

    /// The tickets that were started and not closed yet.
    ghost running: { Self → List ℕ };

    /// Returns what is at a path. A link is taken as what it points to.
    fn measure(&mut self, path: &Text) -> Result<Measure, HostError>
        ensures logged { log self.new ≡ log self.old
            ++ entries_of (HostRequest.Measure path.now)
            (answer_behind (λ measure. HostAnswer.Measured measure) result) }
        ensures own { FailsOnlyBy (fault_of (HostRequest.Measure path.now)) result }
        ensures running { running self.new ≡ running self.old };

    /// Lays out the folder of a job: each move copies a file or a folder to its target.
    fn stage(&mut self, plan: &StagePlan, number: u64) -> Result<(), HostError>
        ensures logged { log self.new ≡ log self.old
            ++ entries_of (HostRequest.Stage plan.now number)
            (answer_behind (λ _. HostAnswer.Done) result) }
        ensures own { FailsOnlyBy (fault_of (HostRequest.Stage plan.now number)) result }
        ensures running { running self.new ≡ running self.old };

    /// Starts a child. Ticket numbers count the successful starts of a host from 1.
    fn start(&mut self, launch: &Launch) -> Result<Ticket, HostError>
        ensures logged { log self.new ≡ log self.old
            ++ entries_of (HostRequest.Start launch.now)
            (answer_behind (λ ticket. HostAnswer.Started ticket) result) }
        ensures own { FailsOnlyBy (fault_of (HostRequest.Start launch.now)) result }
        ensures fresh { IfOk result (λ ticket. IsFresh ticket (running self.old)) }
        ensures started { running self.new ≡ running_after (running self.old) result }
        ensures numbered { IfOk result (λ ticket. ticket ≡ starts (log self.old) + 1) };

    /// Waits for the end of a child that runs. Its ticket is still to be closed.
    fn collect(&mut self) -> Result<ChildEnd, HostError>
        requires { running self.old ≢ [] }
        ensures logged { log self.new ≡ log self.old
            ++ entries_of HostRequest.Collect (answer_behind (λ ending. HostAnswer.Ended ending)
            result) }
        ensures own { FailsOnlyBy (fault_of HostRequest.Collect) result }
        ensures child { IfOk result (λ ending. Contains (running self.old) ending.ticket) }
        ensures running { running self.new ≡ running self.old };

    /// Lists what is below a folder, by paths that begin there.
    fn scan(&mut self, folder: &Text) -> Result<Items<Found>, HostError>
        ensures logged { log self.new ≡ log self.old
            ++ entries_of (HostRequest.Scan folder.now)
            (answer_behind (λ found. HostAnswer.Listed found) result) }
        ensures own { FailsOnlyBy (fault_of (HostRequest.Scan folder.now)) result }
        ensures paths { IfOk result (λ found. IsTrue (are_paths found)) }
        ensures running { running self.new ≡ running self.old };

    /// Reads the first bytes of a file, at most `limit`.
    fn head(&mut self, path: &Text, limit: u64) -> Result<Items<u8>, HostError>
        ensures logged { log self.new ≡ log self.old
            ++ entries_of (HostRequest.Head path.now limit)
            (answer_behind (λ bytes. HostAnswer.FirstBytes bytes) result) }
        ensures own { FailsOnlyBy (fault_of (HostRequest.Head path.now limit)) result }
        ensures within { IfOk result (λ bytes. length bytes ≤ limit) }
        ensures running { running self.new ≡ running self.old };

    /// Copies what was archived under a key to the folder of this number, and tells which of these files were there, as they were.
    fn fetch(
        &mut self,
        key: &Text,
        number: u64,
        files: &Items<Found>,
    ) -> Result<Items<Found>, HostError>
        ensures logged { log self.new ≡ log self.old
            ++ entries_of (HostRequest.Fetch key.now number files.now)
            (answer_behind (λ found. HostAnswer.Fetched found) result) }
        ensures own { FailsOnlyBy (fault_of (HostRequest.Fetch key.now number files.now)) result }
        ensures among { IfOk result (λ found. IsTrue (are_among files.now found)) }
        ensures running { running self.new ≡ running self.old };

    /// Archives these files of a folder under a key, in the place of what was archived under it before.
    fn store(&mut self, key: &Text, folder: &Text, files: &Items<Found>) -> Result<(), HostError>
        ensures logged { log self.new ≡ log self.old
            ++ entries_of (HostRequest.Store key.now folder.now files.now)
            (answer_behind (λ _. HostAnswer.Done) result) }
        ensures own { FailsOnlyBy (fault_of (HostRequest.Store key.now folder.now files.now))
            result }
        ensures running { running self.new ≡ running self.old };

    /// Copies a run's outputs to where they are wanted.
    fn deliver(&mut self, plan: &StagePlan) -> Result<(), HostError>
        ensures logged { log self.new ≡ log self.old
            ++ entries_of (HostRequest.Deliver plan.now)
            (answer_behind (λ _. HostAnswer.Done) result) }
        ensures own { FailsOnlyBy (fault_of (HostRequest.Deliver plan.now)) result }
        ensures running { running self.new ≡ running self.old };

    /// Removes what is archived under a key. If nothing is, there is nothing to do.
    fn discard(&mut self, key: &Text) -> Result<(), HostError>
        ensures logged { log self.new ≡ log self.old
            ++ entries_of (HostRequest.Discard key.now)
            (answer_behind (λ _. HostAnswer.Done) result) }
        ensures own { FailsOnlyBy (fault_of (HostRequest.Discard key.now)) result }
        ensures running { running self.new ≡ running self.old };

    /// Spends a ticket, without memory. A child that still runs under it is no longer watched.
    fn close(&mut self, ticket: Ticket)
        ensures logged { log self.new ≡ log self.old }
        ensures closed { running self.new ≡ without ticket (running self.old) };
}

//! What follows from the definitions alone, for code that drives a host.
ghost use Rattle.std.specs.Prelude.{◌≡◌, ◌+◌, ◌∷◌, ◌++◌, [], ℕ, List, Option};
ghost use Rattle.proc_host.specs.declared.call.Entry.{Entry};
ghost use Rattle.proc_host.specs.declared.call.HostAnswer.{HostAnswer};
ghost use Rattle.proc_host.specs.declared.call.HostRequest.{HostRequest};
ghost use Rattle.proc_host.specs.Log.{entries_of, failures, faults_in};
ghost use Rattle.proc_host.specs.Tickets.{IsFresh, without};

/// A log's failures rise by one with the entry of a call that failed, and with no other.
pub fn failures_count_faults()
    ensures { (log : List Entry) (request : HostRequest) (answer : Option HostAnswer)
        → failures (log ++ entries_of request answer) ≡ failures log + faults_in answer }
{}

/// Closing the ticket that a start has added leaves the children that ran before.
pub fn closing_undoes_starting()
    ensures { (ticket : ℕ) (running : List ℕ) → IsFresh ticket running
        → without ticket (running ++ ticket ∷ []) ≡ running }
{}

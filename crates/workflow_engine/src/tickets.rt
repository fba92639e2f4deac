//! The tickets of the children that run.
ghost use Rattle.std.specs.Prelude.{◌≡◌, ◌==◌, [], Contains, position};
ghost use Rattle.proc_host.specs.Tickets.{without};
ghost use Rattle.workflow_engine.specs.inner.Held.{Covers};

use proc_host::{Host, Ticket};

/// Spends the ticket of a child that has ended.
pub(crate) fn close_ended<H: Host>(host: &mut H, held: &mut Vec<Ticket>, number: u64)
    requires covered { Covers held.old.items (H.running host.old) }
    requires runs { Contains (H.running host.old) number }
    ensures logged { H.log host.new ≡ H.log host.old }
    ensures closed { H.running host.new ≡ without number (H.running host.old) }
    ensures covered { Covers held.new.items (H.running host.new) }
{
    if let Some(index) = index_of(held, number) {
        host.close(held.remove(index));
    }
}

fn index_of(held: &[Ticket], number: u64) -> Option<usize>
    ensures { result ≡ position (λ ticket. ticket == number) held.now }
{
    held.iter().position(|ticket| ticket.number() == number)
}

/// Spends every ticket, so that no child is watched any more.
#[tactic(auto, using(crate::proofs::Covers::covers_popped, crate::proofs::Covers::covers_none))]
pub(crate) fn close_all<H: Host>(host: &mut H, mut held: Vec<Ticket>)
    requires covered { Covers held.items (H.running host.old) }
    ensures logged { H.log host.new ≡ H.log host.old }
    ensures closed { H.running host.new ≡ [] }
{
    while let Some(ticket) = held.pop() {
        host.close(ticket);
    }
    held.destroy_empty();
}

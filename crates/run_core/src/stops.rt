//! What the machine does once a call has failed, and while children in flight end after memory ran out.
ghost use Rattle.std.specs.Prelude.{◌≡◌, IfOk, OnErr};
ghost use Rattle.run_core.specs.declared.state.Phase.{Phase as Waits};
ghost use Rattle.run_core.specs.inner.Follows.{AfterFailure, Drains, IsForKnown, IsReadyFor};

use crate::archiving::unarchived;
use crate::choice::pick;
use crate::course::note_fault;
use crate::discarding::undiscarded;
use crate::state::{Course, Given, Phase, Turn};
use crate::turn::{ended, lost};
use crate::{Request, RunFault};
use plain_data::Items;
use proc_host::{ChildEnd, HostFault};
use std::alloc::{AllocError, Global};
use std::mem;

/// A call failed: it settles the end, or is late, unless files were to be archived, or discarded. After a failed collect nobody waits for
/// the children in flight any more.
pub(crate) fn failed(
    alloc: Global,
    given: &Given<'_>,
    course: &mut Course<'_>,
    asks: &Request,
    phase: Phase,
    fault: HostFault,
) -> Result<Turn, AllocError>
    requires ready { IsReadyFor course.old phase }
    requires known { IsForKnown course.old phase }
    ensures is { IfOk result (λ next. AfterFailure given.now course.old asks.now phase fault next
        course.new) }
    ensures flying { OnErr result (course.new.tickets.items ≡ course.old.tickets.items) }
    ensures going { OnErr result (phase ≡ Waits.Draining → ⊥) }
{
    match phase {
        Phase::Collecting => {
            let running = mem::replace(&mut course.tickets, Vec::new(alloc));
            Ok(ended(Err(RunFault::Host(fault, Items::from_vec(running)))))
        }
        Phase::Draining => {
            course.tickets.clear();
            Ok(lost(alloc, course))
        }
        Phase::Storing(number, row) => unarchived(alloc, course, number, row, fault),
        Phase::Discarding(number, left) => undiscarded(alloc, given, course, number, left, fault),
        phase => {
            mem::drop(phase);
            note_fault(alloc, course, asks, fault)?;
            pick(alloc, given, course)
        }
    }
}

/// A child has ended after memory ran out.
pub(crate) fn drained(alloc: Global, course: &mut Course<'_>, ending: &ChildEnd) -> Turn
    ensures { Drains course.old ending.now result course.new }
{
    let ticket = ending.ticket;
    course.tickets.retain(|one| *one != ticket);
    lost(alloc, course)
}

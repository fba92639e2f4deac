//! Steps that wait for one another (K4).
ghost use Rattle.std.specs.Prelude.{◌≡◌, None, OnOk, IfOk, IfErr, IfSome};
ghost use Rattle.workflow_check.specs.Faults.{IsErrorOf};
ghost use Rattle.workflow_check.specs.Order.{is_cyclic, order_fault};

use crate::circles::is_circle;
use crate::fault::{AcceptError, LinkRule, refused};
use crate::ranks::some_late;
use crate::rounds::by_rounds;
use crate::search::{Search, walk_steps};
use cwl_process::Entries;
use document_links::Step;
use plain_data::Text;
use std::alloc::{AllocError, Global};

/// Looks whether the steps can be put in an order in which each comes after those that it is linked to.
pub(crate) fn check_order(alloc: Global, steps: &Entries<Step>) -> Result<(), AcceptError>
    ensures ok { OnOk result (order_fault steps.now ≡ None) }
    ensures err { IfErr result (IsErrorOf (order_fault steps.now)) }
{
    if is_cyclic(alloc, steps.as_slice())? {
        return Err(refused(alloc, LinkRule::Cycle));
    }
    Ok(())
}

/// Looks whether steps wait for one another: by what a search finds, which is checked, and by rounds where that shows nothing.
fn is_cyclic(alloc: Global, steps: &[(Text, Step)]) -> Result<bool, AllocError>
    ensures { IfOk result (λ cyclic. cyclic ≡ is_cyclic steps.now) }
{
    match searched(alloc, steps)? {
        Some(cyclic) => Ok(cyclic),
        None => by_rounds(alloc, steps),
    }
}

fn searched(alloc: Global, steps: &[(Text, Step)]) -> Result<Option<bool>, AllocError>
    ensures { IfOk result (λ found. IfSome found (λ cyclic. cyclic ≡ is_cyclic steps.now)) }
{
    let found = walk_steps(alloc, steps)?;
    Ok(shown(&found, steps))
}

/// What the search shows: a circle of links, or an order of the steps. No proof speaks of the search, so what it found is looked at here.
fn shown(found: &Search<'_>, steps: &[(Text, Step)]) -> Option<bool>
    ensures { IfSome result (λ cyclic. cyclic ≡ is_cyclic steps.now) }
{
    match found.back {
        Some(link) => {
            if is_circle(steps, found.states.as_slice(), link) {
                Some(true)
            } else {
                None
            }
        }
        None => {
            if some_late(&found.ranks, steps) {
                None
            } else {
                Some(false)
            }
        }
    }
}

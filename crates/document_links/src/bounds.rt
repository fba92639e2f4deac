//! How many processes there are, and how many workflows are inside one another: counted before any is built.
ghost use Rattle.std.specs.Prelude.{◌≡◌, None, Ok, IfOk, IfErr, map};
ghost use Rattle.serde_json.specs.View.{view};
ghost use Rattle.document_table.specs.Entries.{entry_seen};
ghost use Rattle.document_links.specs.Bounds.{at_target, left, run_left, step_left, steps_left, workflow_left};
ghost use Rattle.document_links.specs.Defaults.{defaults_fault};
ghost use Rattle.document_links.specs.Homes.{home_seen};
ghost use Rattle.document_links.specs.Library.{finds_in};
ghost use Rattle.document_links.specs.Refused.{IsOwnFaultOf, IsWalkErrorOf};
ghost use Rattle.document_links.specs.Targets.{document_at, item_in, leads_in};
ghost use Rattle.document_table.specs.Packed.{item_named};

use crate::defaults::defaults_fault;
use crate::fault::LinkFault;
use crate::home::Home;
use crate::library::Library;
use crate::target::{document_at, item_in};
use crate::walk::{WalkError, WalkFault, elsewhere, within};
use cwl_process::is_workflow;
use document_table::{Kind, entries, has_hash};
use serde_json::Value;
use std::alloc::Global;
use url::Url;

/// How many workflows may be inside one another.
pub const MOST_WORKFLOWS: usize = 16;

/// How many processes there may be, where each that is named counts wherever it is named.
pub const MOST_PROCESSES: usize = 4096;

/// For how many processes there is room after those of this one, where there is room for so many, and so many workflows may
/// be inside one another.
#[cycle(bounds)]
pub(crate) fn left(
    alloc: Global,
    library: &Library,
    levels: usize,
    room: usize,
    home: Home<'_>,
    value: &Value,
) -> Result<usize, WalkError>
    ensures ok { IfOk result
        (λ n. left (leads_in library.now) levels room (home_seen home.entry) (view value.now)
        ≡ Ok n) }
    ensures err { IfErr result
        (IsWalkErrorOf
        (left (leads_in library.now) levels room (home_seen home.entry) (view value.now))) }
{
    if room == 0 {
        return Err(WalkError::Refused(WalkFault::Other(LinkFault::TooMany)));
    }
    if is_workflow(value) {
        if levels == 0 {
            return Err(WalkError::Refused(WalkFault::Other(LinkFault::TooDeep)));
        }
        return workflow_left(alloc, library, levels - 1, room - 1, home, value);
    }
    check_defaults(alloc, home.url, Kind::ToolInput, "inputs", value)?;
    Ok(room - 1)
}

#[cycle(bounds)]
fn workflow_left(
    alloc: Global,
    library: &Library,
    levels: usize,
    room: usize,
    home: Home<'_>,
    value: &Value,
) -> Result<usize, WalkError>
    ensures ok { IfOk result (λ n. workflow_left (left (leads_in library.now) levels)
        (leads_in library.now) room (home_seen home.entry) (view value.now) ≡ Ok n) }
    ensures err { IfErr result (IsWalkErrorOf (workflow_left (left (leads_in library.now) levels)
        (leads_in library.now) room (home_seen home.entry) (view value.now))) }
{
    check_defaults(alloc, home.url, Kind::WorkflowInput, "inputs", value)?;
    let Some(found) = value.get("steps") else {
        return Ok(room);
    };
    let all = entries(alloc, Kind::Step, found)?;
    let left = steps_left(alloc, library, levels, room, home, all.as_slice());
    within(alloc, "steps", left)
}

#[cycle(bounds)]
fn steps_left(
    alloc: Global,
    library: &Library,
    levels: usize,
    room: usize,
    home: Home<'_>,
    all: &[(&str, &Value)],
) -> Result<usize, WalkError>
    ensures ok { IfOk result (λ n. steps_left (left (leads_in library.now) levels)
        (leads_in library.now) room (home_seen home.entry) (map entry_seen all.now) ≡ Ok n) }
    ensures err { IfErr result (IsWalkErrorOf (steps_left (left (leads_in library.now) levels)
        (leads_in library.now) room (home_seen home.entry) (map entry_seen all.now))) }
{
    let mut still = room;
    for entry in all {
        let left = step_left(alloc, library, levels, still, home, entry.1);
        still = within(alloc, entry.0, left)?;
    }
    Ok(still)
}

#[cycle(bounds)]
fn step_left(
    alloc: Global,
    library: &Library,
    levels: usize,
    room: usize,
    home: Home<'_>,
    value: &Value,
) -> Result<usize, WalkError>
    ensures ok { IfOk result (λ n. step_left (left (leads_in library.now) levels)
        (leads_in library.now) room (home_seen home.entry) (view value.now) ≡ Ok n) }
    ensures err { IfErr result (IsWalkErrorOf (step_left (left (leads_in library.now) levels)
        (leads_in library.now) room (home_seen home.entry) (view value.now))) }
{
    check_defaults(alloc, home.url, Kind::StepInput, "in", value)?;
    let Some(found) = value.get("run") else {
        return Ok(room);
    };
    let left = run_left(alloc, library, levels, room, home, found);
    within(alloc, "run", left)
}

#[cycle(bounds)]
#[tactic(auto, unfolding(crate::specs::Targets::leads_in))]
fn run_left(
    alloc: Global,
    library: &Library,
    levels: usize,
    room: usize,
    home: Home<'_>,
    value: &Value,
) -> Result<usize, WalkError>
    ensures ok { IfOk result (λ n. run_left (left (leads_in library.now) levels)
        (leads_in library.now) room (home_seen home.entry) (view value.now) ≡ Ok n) }
    ensures err { IfErr result (IsWalkErrorOf (run_left (left (leads_in library.now) levels)
        (leads_in library.now) room (home_seen home.entry) (view value.now))) }
{
    let Some(name) = value.as_str() else {
        return left(alloc, library, levels, room, home, value);
    };
    if has_hash(name) {
        return item_left(alloc, library, levels, room, home, name);
    }
    document_left(alloc, library, levels, room, home, name)
}

/// For how many processes there is room after the item of that name.
#[cycle(bounds)]
fn item_left(
    alloc: Global,
    library: &Library,
    levels: usize,
    room: usize,
    home: Home<'_>,
    name: &str,
) -> Result<usize, WalkError>
    ensures ok { IfOk result (λ n. at_target
        (item_in library.now (home_seen home.entry) name.now
        (item_named name.now (view home.entry.document.now.json)))
        (left (leads_in library.now) levels room) ≡ Ok n) }
    ensures err { IfErr result (IsWalkErrorOf (at_target
        (item_in library.now (home_seen home.entry) name.now
        (item_named name.now (view home.entry.document.now.json)))
        (left (leads_in library.now) levels room))) }
{
    let item = item_in(alloc, library, home, name)?;
    let left = left(alloc, library, levels, room, home, item.process);
    elsewhere(alloc, home.url, item.index, left)
}

/// For how many processes there is room after what the document of that name stands for.
#[cycle(bounds)]
fn document_left(
    alloc: Global,
    library: &Library,
    levels: usize,
    room: usize,
    home: Home<'_>,
    name: &str,
) -> Result<usize, WalkError>
    ensures ok { IfOk result (λ n. at_target
        (document_at (finds_in library.now) home.entry.url.now name.now)
        (left (leads_in library.now) levels room) ≡ Ok n) }
    ensures err { IfErr result (IsWalkErrorOf (at_target
        (document_at (finds_in library.now) home.entry.url.now name.now)
        (left (leads_in library.now) levels room))) }
{
    let (url, document) = document_at(alloc, library, home.url, name)?;
    let root = document.root();
    let other = Home {
        url: &url,
        document,
    };
    let left = left(alloc, library, levels, room, other, root.process);
    elsewhere(alloc, &url, root.index, left)
}

/// Checks that the defaults of the objects in a field have paths.
fn check_defaults(
    alloc: Global,
    base: &Url,
    kind: Kind,
    name: &str,
    value: &Value,
) -> Result<(), WalkError>
    ensures ok { IfOk result
        (λ _. defaults_fault base.now kind name.now (view value.now) ≡ None) }
    ensures err { IfErr result
        (IsOwnFaultOf (defaults_fault base.now kind name.now (view value.now))) }
{
    match defaults_fault(alloc, base, kind, name, value)? {
        None => Ok(()),
        Some(fault) => Err(WalkError::Refused(WalkFault::Own(fault))),
    }
}

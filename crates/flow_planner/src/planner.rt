//! The planner.

ghost use Rattle.std.specs.Prelude.{List, ◌+◌, ◌*◌, ◌<◌, ◌≤◌, ◌^◌, IfOk, OnOk, IsTrue, length};
ghost use Rattle.plan_checker.specs.Charges.{AreFair};
ghost use Rattle.plan_checker.specs.declared.vertex.Vertex.{Vertex};
ghost use Rattle.plan_checker.specs.Least.{IsLeast};
ghost use Rattle.plan_checker.specs.Certificate.{IsCertificate};
ghost use Rattle.flow_planner.specs.Network.{Separates};
ghost use Rattle.flow_planner.specs.inner.Network.{AreFlowing};

use crate::error::OutOfMemory;
use crate::greatest::greatest;
use crate::mend::mended;
use level_graphs::Phases;
use plain_data::Items;
use plan_checker::{Broken, Charges, Graph, Mark, Plan, check};
use std::alloc::{AllocError, Global};

/// No charges: nothing flows.
fn nothing(alloc: Global) -> Charges
    ensures { (graph : List Vertex) → AreFlowing graph result }
{
    Charges {
        enter: Items::new(alloc),
        through: Items::new(alloc),
        pay: Items::new(alloc),
        pass: Items::new(alloc),
    }
}

/// The charges of an earlier graph, mended; none if they aren't fair.
fn start_again(alloc: Global, graph: &Graph, last: &Charges) -> Result<Charges, AllocError>
    ensures { IfOk result (AreFlowing graph.now) }
{
    let start = mended(alloc, graph.vertices(), last)?;
    if are_fair(alloc, graph, &start)? {
        return Ok(start);
    }
    Ok(nothing(alloc))
}

/// Whether charges are fair: nothing but the cost is wrong with the plan that computes everything.
fn are_fair(alloc: Global, graph: &Graph, charges: &Charges) -> Result<bool, AllocError>
    ensures { IfOk result (λ fair. IsTrue fair → AreFair graph.now charges.now) }
{
    let marks = vec![in alloc; Mark::Compute; graph.vertices().len()]?;
    let plan = Plan {
        marks: Items::from_vec(marks),
    };
    match check(graph, &plan, charges) {
        Ok(_) => Ok(true),
        Err(broken) => Ok(matches!(broken, Broken::Sum(_, _))),
    }
}

/// The Least plan of a graph, and charges that certify it.
///
/// It fails only as out of memory. Since a graph has one Least plan, the plan is one function of the graph; the
/// charges are some that certify it.
pub fn plan(alloc: Global, graph: &Graph) -> Result<(Plan, Charges), OutOfMemory>
    ensures least { IfOk result (λ made. IsLeast graph.now made.0.marks) }
    ensures certified { IfOk result (λ made. IsCertificate graph.now made.0.marks made.1) }
{
    let mut phases = Phases::new();
    plan_counted(alloc, graph, &mut phases)
}

/// The same, with a count of the phases: for each level graph that is built, `phases` counts one more.
///
/// There is one at least, and at most two for each vertex and one: with each phase more arcs lie between the source and
/// the sink, and no more of them than there are nodes. The last one doesn't reach the sink: the plan is what it
/// separates.
pub fn plan_counted(
    alloc: Global,
    graph: &Graph,
    phases: &mut Phases,
) -> Result<(Plan, Charges), OutOfMemory>
    requires { phases.old.count ≤ 2 ^ 63 }
    ensures least { IfOk result (λ made. IsLeast graph.now made.0.marks) }
    ensures certified { IfOk result (λ made. IsCertificate graph.now made.0.marks made.1) }
    ensures separated { IfOk result (λ made. Separates graph.now made.1 made.0.marks) }
    ensures phases { phases.new.count ≤ phases.old.count + 2 * length graph.now + 1 }
    ensures counted { OnOk result (phases.old.count < phases.new.count) }
{
    let start = nothing(alloc);
    Ok(greatest(alloc, graph.vertices(), &start, phases)?)
}

/// The Least plan of a graph, and charges that certify it, from the charges of an earlier graph.
///
/// Vertices may have been added at the end, loads and needs may be others. The plan is that of `plan`, whatever the
/// earlier charges are.
pub fn plan_again(
    alloc: Global,
    graph: &Graph,
    last: &Charges,
) -> Result<(Plan, Charges), OutOfMemory>
    ensures least { IfOk result (λ made. IsLeast graph.now made.0.marks) }
    ensures certified { IfOk result (λ made. IsCertificate graph.now made.0.marks made.1) }
{
    let start = start_again(alloc, graph, last)?;
    let mut phases = Phases::new();
    Ok(greatest(alloc, graph.vertices(), &start, &mut phases)?)
}

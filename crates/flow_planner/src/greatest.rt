//! A greatest flow of a graph, and what its last level graph shows: the Least plan.

ghost use Rattle.std.specs.Prelude.{◌≡◌, ◌+◌, ◌*◌, ◌<◌, ◌≤◌, ◌^◌, IfOk, OnOk, length, slice_index, vec_len};
ghost use Rattle.plan_checker.specs.Graph.{IsGraph};
ghost use Rattle.plan_checker.specs.Plan.{mark};
ghost use Rattle.plan_checker.specs.Charges.{AreFair};
ghost use Rattle.flow_planner.specs.Network.{Separates, shown};
ghost use Rattle.flow_planner.specs.inner.Network.{AreFlowing, AreShown};

use crate::flows::charges_of;
use crate::network::network_of;
use level_graphs::{Levels, Phases, send_all};
use plain_data::Items;
use plan_checker::{Charges, MOST_VERTICES, Mark, Plan, Vertex};
use std::alloc::{AllocError, Global};

/// A greatest flow that begins with these charges, and the plan that the last level graph shows.
pub fn greatest(
    alloc: Global,
    vertices: &[Vertex],
    start: &Charges,
    phases: &mut Phases,
) -> Result<(Plan, Charges), AllocError>
    requires graph { IsGraph vertices.now }
    requires few { length vertices.now ≤ MOST_VERTICES }
    requires flowing { AreFlowing vertices.now start.now }
    requires room { phases.old.count ≤ 2 ^ 63 }
    ensures made { IfOk result (λ made. AreFair vertices.now made.1
        × Separates vertices.now made.1 made.0.marks) }
    ensures phases { phases.new.count ≤ phases.old.count + 2 * length vertices.now + 1 }
    ensures counted { OnOk result (phases.old.count < phases.new.count) }
{
    let mut network = network_of(alloc, vertices, start)?;
    let levels = send_all(alloc, &mut network, phases)?;
    let plan = plan_of(alloc, &levels, vertices.len())?;
    Ok((plan, charges_of(alloc, &network, vertices)?))
}

/// The plan that levels show.
fn plan_of(alloc: Global, levels: &Levels, jobs: usize) -> Result<Plan, AllocError>
    requires nodes { vec_len levels.now.of ≡ 2 * jobs + 2 }
    requires few { jobs ≤ MOST_VERTICES }
    ensures { IfOk result (λ plan. AreShown jobs levels.now.of.items plan.marks jobs) }
{
    let mut marks = Items::new(alloc);
    for job in 0..jobs {
        marks.push(mark_at(levels, jobs, job))?;
    }
    Ok(Plan { marks })
}

/// What is done with a job, by which of its nodes have a level.
fn mark_at(levels: &Levels, jobs: usize, job: usize) -> Mark
    requires nodes { vec_len levels.now.of ≡ 2 * jobs + 2 }
    requires few { jobs ≤ MOST_VERTICES }
    requires job { job < jobs }
    ensures { result ≡ shown (slice_index levels.now.of.items job)
        (slice_index levels.now.of.items (jobs + job)) }
{
    if levels.at(jobs + job) != 0 {
        Mark::Compute
    } else if levels.at(job) != 0 {
        Mark::Load
    } else {
        Mark::Prune
    }
}

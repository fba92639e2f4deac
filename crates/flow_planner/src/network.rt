//! The network in which charges of a graph flow.
//!
//! Nodes are numbered: first each job's first node, then each job's second node, then the source and the sink.

ghost use Rattle.std.specs.Prelude.{◌≡◌, ◌≢◌, ◌+◌, ◌*◌, ◌<◌, ◌≤◌, IfOk, OnOk, length, slice_index, vec_len};
ghost use Rattle.plan_checker.specs.Graph.{vertex, IsGraph};
ghost use Rattle.plan_checker.specs.Charges.{passes};
ghost use Rattle.level_graphs.specs.Arcs.{IsNetwork};
ghost use Rattle.flow_planner.specs.inner.Network.{AreFlowing, IsFlowNetwork, IsLaid, IsBuilt, IsPartBuilt};

use level_graphs::Network;
use plan_checker::{Charges, MOST_VERTICES, Vertex};
use std::alloc::{AllocError, Global};

/// More than all that can flow.
pub const NO_BOUND: u64 = 1_000_000_000_000_000_000;

/// The amount in this place; 0 past the end.
pub fn amount_at(amounts: &[u64], place: usize) -> u64
    ensures { result ≡ slice_index amounts.now place }
{
    amounts.get(place).copied().unwrap_or(0)
}

/// What a job passes to the parent in a slot.
pub fn pass_at(charges: &Charges, job: usize, slot: usize) -> u64
    ensures { result ≡ slice_index (passes charges.now job) slot }
{
    match charges.pass.get(job) {
        Some(passes) => amount_at(passes.as_slice(), slot),
        None => 0,
    }
}

/// The network of a graph, in which these charges flow.
pub fn network_of(
    alloc: Global,
    vertices: &[Vertex],
    start: &Charges,
) -> Result<Network, AllocError>
    requires graph { IsGraph vertices.now }
    requires few { length vertices.now ≤ MOST_VERTICES }
    requires flowing { AreFlowing vertices.now start.now }
    ensures { IfOk result (IsBuilt vertices.now start.now (length vertices.now)) }
{
    let jobs = vertices.len();
    let mut network = Network::new(alloc, 2 * jobs + 2, 2 * jobs, 2 * jobs + 1)?;
    for job in 0..jobs {
        add_job(&mut network, vertices, start, job)?;
        add_passes(&mut network, vertices, start, job)?;
    }
    Ok(network)
}

/// Adds the arcs of a job, but for what it passes on: what enters, what goes through and what is paid.
fn add_job(
    network: &mut Network,
    vertices: &[Vertex],
    start: &Charges,
    job: usize,
) -> Result<(), AllocError>
    requires graph { IsGraph vertices.now }
    requires few { length vertices.now ≤ MOST_VERTICES }
    requires flowing { AreFlowing vertices.now start.now }
    requires job { job < length vertices.now }
    requires network { IsBuilt vertices.now start.now job network.old }
    ensures { OnOk result (IsPartBuilt vertices.now start.now job 0 network.new) }
{
    let jobs = vertices.len();
    let vertex = &vertices[job];
    let most = if vertex.needed { NO_BOUND } else { 0 };
    let enter = amount_at(start.enter.as_slice(), job);
    lay(network, 2 * jobs, job, most, enter)?;
    let through = amount_at(start.through.as_slice(), job);
    lay(
        network,
        job,
        jobs + job,
        vertex.load.unwrap_or(NO_BOUND),
        through,
    )?;
    let pay = amount_at(start.pay.as_slice(), job);
    lay(network, jobs + job, 2 * jobs + 1, vertex.compute, pay)
}

/// Adds an arc to each parent of a job.
fn add_passes(
    network: &mut Network,
    vertices: &[Vertex],
    start: &Charges,
    job: usize,
) -> Result<(), AllocError>
    requires graph { IsGraph vertices.now }
    requires few { length vertices.now ≤ MOST_VERTICES }
    requires flowing { AreFlowing vertices.now start.now }
    requires job { job < length vertices.now }
    requires network { IsPartBuilt vertices.now start.now job 0 network.old }
    ensures { OnOk result (IsBuilt vertices.now start.now (job + 1) network.new) }
{
    let computed = vertices.len() + job;
    let parents = vertices[job].parents.as_slice();
    for slot in 0..parents.len() {
        let amount = pass_at(start, job, slot);
        lay(network, computed, parents[slot], NO_BOUND, amount)?;
    }
    Ok(())
}

/// Adds an arc along which so much flows already, and its reverse.
fn lay(
    network: &mut Network,
    from: usize,
    to: usize,
    capacity: u64,
    amount: u64,
) -> Result<(), AllocError>
    requires network { IsNetwork network.old }
    requires from { from < vec_len network.old.last }
    requires to { to < vec_len network.old.last }
    requires apart { from ≡ network.old.source → to ≢ network.old.sink }
    requires back { to ≡ network.old.source → from ≢ network.old.sink }
    requires amount { amount ≤ capacity }
    ensures network { OnOk result (IsNetwork network.new) }
    ensures laid { OnOk result (IsLaid network.old.arcs.items network.new.arcs.items from to
        capacity amount) }
    ensures nodes { vec_len network.new.last ≡ vec_len network.old.last }
    ensures source { network.new.source ≡ network.old.source }
    ensures sink { network.new.sink ≡ network.old.sink }
{
    let number = network.arcs.len();
    network.join(from, to, capacity)?;
    network.push(number, amount);
    Ok(())
}

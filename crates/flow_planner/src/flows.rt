//! What flows in a network, read off it as charges.

ghost use Rattle.std.specs.Prelude.{◌≡◌, ◌+◌, ◌*◌, ◌<◌, ◌≤◌, IfOk, length, vec_len};
ghost use Rattle.plan_checker.specs.Graph.{IsGraph};
ghost use Rattle.level_graphs.specs.Arcs.{room_at};
ghost use Rattle.flow_planner.specs.Network.{first_arc};
ghost use Rattle.flow_planner.specs.inner.Network.{AreFlows, AreRows, IsRow};

use level_graphs::Network;
use plain_data::Items;
use plan_checker::{Charges, Vertex};
use std::alloc::{AllocError, Global};

/// What flows in the network of a graph. A job's arcs come in the order in which they were added.
pub fn charges_of(
    alloc: Global,
    network: &Network,
    vertices: &[Vertex],
) -> Result<Charges, AllocError>
    requires graph { IsGraph vertices.now }
    requires arcs { length network.now.arcs.items ≡ first_arc vertices.now (length vertices.now) }
    ensures enter { IfOk result (λ charges. AreFlows vertices.now network.now.arcs.items 0
        charges.enter (length vertices.now)) }
    ensures through { IfOk result (λ charges. AreFlows vertices.now network.now.arcs.items 2
        charges.through (length vertices.now)) }
    ensures pay { IfOk result (λ charges. AreFlows vertices.now network.now.arcs.items 4 charges.pay
        (length vertices.now)) }
    ensures pass { IfOk result (λ charges. AreRows vertices.now network.now.arcs.items charges.pass
        (length vertices.now)) }
{
    Ok(Charges {
        enter: flows(alloc, network, vertices, 0)?,
        through: flows(alloc, network, vertices, 2)?,
        pay: flows(alloc, network, vertices, 4)?,
        pass: rows(alloc, network, vertices)?,
    })
}

/// What flows along the arc this far behind the first one of each job.
fn flows(
    alloc: Global,
    network: &Network,
    vertices: &[Vertex],
    place: usize,
) -> Result<Items<u64>, AllocError>
    requires graph { IsGraph vertices.now }
    requires place { place ≤ 4 }
    requires arcs { length network.now.arcs.items ≡ first_arc vertices.now (length vertices.now) }
    ensures { IfOk result (λ amounts. AreFlows vertices.now network.now.arcs.items place amounts
        (length vertices.now)) }
{
    let mut amounts = Vec::with_capacity(alloc, vertices.len())?;
    let mut first = 0;
    for vertex in vertices {
        amounts.push(network.arc(first + place + 1).room)?;
        first += 6 + 2 * vertex.parents.len();
    }
    Ok(Items::from_vec(amounts))
}

/// What flows from each job to its parents.
fn rows(
    alloc: Global,
    network: &Network,
    vertices: &[Vertex],
) -> Result<Items<Items<u64>>, AllocError>
    requires graph { IsGraph vertices.now }
    requires arcs { length network.now.arcs.items ≡ first_arc vertices.now (length vertices.now) }
    ensures { IfOk result (λ rows. AreRows vertices.now network.now.arcs.items rows
        (length vertices.now)) }
{
    let mut rows = Vec::with_capacity(alloc, vertices.len())?;
    let mut first = 0;
    for vertex in vertices {
        let parents = vertex.parents.len();
        rows.push(row(alloc, network, first + 6, parents)?)?;
        first += 6 + 2 * parents;
    }
    Ok(Items::from_vec(rows))
}

/// What flows along so many arcs from this one on.
fn row(
    alloc: Global,
    network: &Network,
    first: usize,
    parents: usize,
) -> Result<Items<u64>, AllocError>
    requires { first + 2 * parents ≤ length network.now.arcs.items }
    ensures { IfOk result (λ row. IsRow network.now.arcs.items first row parents) }
{
    let mut row = Vec::with_capacity(alloc, parents)?;
    for parent in 0..parents {
        row.push(network.arc(first + 2 * parent + 1).room)?;
    }
    Ok(Items::from_vec(row))
}

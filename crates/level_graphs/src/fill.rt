//! All that can flow, by phases: a level graph, and all that goes down it.

ghost use Rattle.std.specs.Prelude.{◌≡◌, ◌+◌, ◌<◌, ◌≤◌, ◌^◌, IfOk, OnOk, vec_len};
ghost use Rattle.level_graphs.specs.Arcs.{IsNetwork};
ghost use Rattle.level_graphs.specs.Levels.{IsLevelGraph};
ghost use Rattle.level_graphs.specs.Flow.{IsCut, IsFlow};

use crate::blocking::Blocking;
use crate::levels::Levels;
use crate::network::Network;
use crate::phases::Phases;
use std::alloc::{AllocError, Global};

/// Sends all that can flow, in fewer phases than there are nodes, and gives the level graph that doesn't reach the sink
/// then.
pub fn send_all(
    alloc: Global,
    network: &mut Network,
    phases: &mut Phases,
) -> Result<Levels, AllocError>
    requires network { IsNetwork network.old }
    requires count { phases.old.count ≤ 2 ^ 63 }
    ensures network { IsNetwork network.new }
    ensures last { network.new.last ≡ network.old.last }
    ensures source { network.new.source ≡ network.old.source }
    ensures sink { network.new.sink ≡ network.old.sink }
    ensures nodes { IfOk result (λ levels. vec_len levels.of ≡ vec_len network.old.last) }
    ensures levels { IfOk result (λ levels. IsLevelGraph network.new.arcs.items network.old.source
        network.old.sink levels.of.items) }
    ensures none { OnOk result (IsCut network.new.arcs.items network.old.source network.old.sink) }
    ensures flow { IsFlow network.old.arcs.items network.new.arcs.items network.old.source
        network.old.sink }
    ensures phases { phases.new.count + 1 ≤ phases.old.count + vec_len network.old.last }
    ensures counted { OnOk result (phases.old.count < phases.new.count) }
{
    let nodes = network.last.len();
    let mut levels = Levels::new(alloc, nodes)?;
    let mut blocking = Blocking::new(alloc, nodes)?;
    while levels.build(network, phases)? {
        blocking.block(network, &levels);
    }
    Ok(levels)
}

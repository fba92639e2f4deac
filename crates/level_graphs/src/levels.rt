//! The level graph: the fewest open arcs that lead to each node.

ghost use Rattle.std.specs.Prelude.{◌≡◌, ℕ, ◌+◌, ◌-◌, ◌<◌, ◌≤◌, ◌^◌, ◌++◌, ◌∷◌, [], MatchBool, IfOk, OnOk, replicate, slice_index, slice_set, vec_len};
ghost use Rattle.level_graphs.specs.Arcs.{tail_of, head_of, room_at, IsNetwork};
ghost use Rattle.level_graphs.specs.Levels.{IsLevelGraph};
ghost use Rattle.level_graphs.specs.inner.Rounds.{IsRound, Extends, IsSeen};

use crate::network::Network;
use crate::phases::Phases;
use std::alloc::{AllocError, Global};

/// How far each node is from the source.
#[derive(Debug, Drop)]
pub struct Levels {
    /// One more than the fewest open arcs from the source; 0 where none lead there.
    pub of: Vec<usize>,
    /// The nodes in the order in which they were reached.
    queue: Vec<usize>,
}

/// The nodes of one level: where they stand in the queue. Those of the next level stand behind them.
#[derive(Clone, Copy, Debug)]
struct Round {
    level: usize,
    start: usize,
    end: usize,
}

impl Levels {
    /// Levels of so many nodes, none of which was reached.
    pub fn new(alloc: Global, nodes: usize) -> Result<Levels, AllocError>
        ensures { IfOk result (λ levels. vec_len levels.of ≡ nodes) }
    {
        Ok(Levels {
            of: vec![in alloc; 0; nodes]?,
            queue: Vec::with_capacity(alloc, nodes)?,
        })
    }

    /// The level of a node; 0 where it wasn't reached.
    pub fn at(&self, node: usize) -> usize
        requires { node < vec_len self.now.of }
        ensures { result ≡ slice_index self.now.of.items node }
    {
        self.of[node]
    }

    /// Counts open arcs from the source, as far as the sink's level; whether they lead to the sink. It is one phase.
    pub fn build(&mut self, network: &Network, phases: &mut Phases) -> Result<bool, AllocError>
        requires network { IsNetwork network.now }
        requires nodes { vec_len self.old.of ≡ vec_len network.now.last }
        requires count { phases.old.count < 2 ^ 64 - 1 }
        ensures phase { phases.new.count ≡ phases.old.count + 1 }
        ensures nodes { vec_len self.new.of ≡ vec_len self.old.of }
        ensures levels { OnOk result (IsLevelGraph network.now.arcs.items network.now.source
            network.now.sink self.new.of.items) }
        ensures reached { IfOk result
            (λ reached. MatchBool reached (0 < slice_index self.new.of.items network.now.sink)
            (slice_index self.new.of.items network.now.sink ≡ 0)) }
        ensures few { OnOk result (slice_index self.new.of.items network.now.sink
            ≤ vec_len self.new.of) }
    {
        phases.tick();
        let mut round = self.first_round(network)?;
        while round.start < round.end {
            if self.of[network.sink] != 0 {
                return Ok(true);
            }
            self.look_from_all(network, round)?;
            round = Round {
                level: round.level + 1,
                start: round.end,
                end: self.queue.len(),
            };
        }
        Ok(self.of[network.sink] != 0)
    }

    /// Reaches the source alone.
    fn first_round(&mut self, network: &Network) -> Result<Round, AllocError>
        requires network { IsNetwork network.now }
        requires nodes { vec_len self.old.of ≡ vec_len network.now.last }
        ensures nodes { vec_len self.new.of ≡ vec_len self.old.of }
        ensures round { IfOk result (λ round. IsRound network.now self.new round
            × (round.end ≡ vec_len self.new.queue)) }
    {
        self.clear();
        self.reach(network.source, 1)?;
        Ok(Round {
            level: 1,
            start: 0,
            end: 1,
        })
    }

    /// Forgets all levels, and keeps the memory.
    fn clear(&mut self)
        ensures of { self.new.of.items ≡ replicate (vec_len self.old.of) 0 }
        ensures nodes { vec_len self.new.of ≡ vec_len self.old.of }
        ensures queue { self.new.queue.items ≡ [] }
    {
        self.of.fill(0);
        self.queue.clear();
    }

    /// Reaches each node to which an open arc leads from a node of this level, and that wasn't reached before.
    fn look_from_all(&mut self, network: &Network, round: Round) -> Result<(), AllocError>
        requires network { IsNetwork network.now }
        requires round { IsRound network.now self.old round }
        ensures nodes { vec_len self.new.of ≡ vec_len self.old.of }
        ensures round { OnOk result (IsRound network.now self.new round) }
        ensures seen { OnOk result ((p : ℕ) → round.start ≤ p → p < round.end
            → IsSeen network.now self.new (slice_index self.new.queue.items p)) }
    {
        for place in round.start..round.end {
            let node = self.queue[place];
            self.look_from(network, round, node)?;
        }
        Ok(())
    }

    /// Reaches each node to which an open arc leads from this one, and that wasn't reached before.
    fn look_from(&mut self, network: &Network, round: Round, node: usize) -> Result<(), AllocError>
        requires network { IsNetwork network.now }
        requires round { IsRound network.now self.old round }
        requires level { slice_index self.old.of.items node ≡ round.level }
        ensures nodes { vec_len self.new.of ≡ vec_len self.old.of }
        ensures round { OnOk result (IsRound network.now self.new round) }
        ensures more { OnOk result (Extends self.old self.new) }
        ensures seen { OnOk result (IsSeen network.now self.new node) }
    {
        let mut next = network.last_from(node);
        while next != 0 {
            self.look_along(network, round, next - 1)?;
            next = network.arc(next - 1).next;
        }
        Ok(())
    }

    /// Reaches the node to which an arc leads, where the arc is open and the node wasn't reached before.
    fn look_along(
        &mut self,
        network: &Network,
        round: Round,
        number: usize,
    ) -> Result<(), AllocError>
        requires network { IsNetwork network.now }
        requires round { IsRound network.now self.old round }
        requires arc { number < vec_len network.now.arcs }
        requires level { slice_index self.old.of.items (tail_of network.now.arcs.items number)
            ≡ round.level }
        ensures nodes { vec_len self.new.of ≡ vec_len self.old.of }
        ensures round { OnOk result (IsRound network.now self.new round) }
        ensures more { OnOk result (Extends self.old self.new) }
        ensures seen { OnOk result (0 < room_at network.now.arcs.items number → 1
            ≤ slice_index self.new.of.items (head_of network.now.arcs.items number)) }
    {
        let arc = network.arc(number);
        if arc.room == 0 {
            return Ok(());
        }
        if self.of[arc.to] != 0 {
            return Ok(());
        }
        self.reach(arc.to, round.level + 1)?;
        Ok(())
    }

    /// Reaches a node.
    fn reach(&mut self, node: usize, level: usize) -> Result<(), AllocError>
        requires { node < vec_len self.old.of }
        ensures nodes { vec_len self.new.of ≡ vec_len self.old.of }
        ensures of { OnOk result (self.new.of.items ≡ slice_set self.old.of.items node level) }
        ensures queue { OnOk result (self.new.queue.items ≡ self.old.queue.items ++ node ∷ []) }
    {
        self.queue.push(node)?;
        self.of[node] = level;
        Ok(())
    }
}

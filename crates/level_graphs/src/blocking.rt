//! A blocking flow: what is sent down a level graph until no way down it is open.
//!
//! Ways are looked for from the sink back to the source, since all that the level graph has leads on from the source.
//! Each node keeps its current arc: no open way comes by the arcs that it has passed.

ghost use Rattle.std.specs.Prelude.{◌≡◌, ◌≢◌, ℕ, ◌+◌, ◌-◌, ◌<◌, ◌≤◌, MatchBool, IfOk, IfSome, IfNone, sum, length, slice_index, slice_set, vec_len};
ghost use Rattle.level_graphs.specs.Arcs.{arc_at, head_of, room_at, reverse_of, IsNetwork};
ghost use Rattle.level_graphs.specs.Levels.{IsLevelGraph};
ghost use Rattle.level_graphs.specs.Blocked.{IsBlocked, AreSentDown};
ghost use Rattle.level_graphs.specs.Flow.{IsFlow};
ghost use Rattle.level_graphs.specs.inner.Search.{left_of, IsArcFrom, ArePassed, IsWayBack, IsSearch, IsWay, AreSentAlong};

use crate::levels::Levels;
use crate::network::{Network, reverse};
use std::alloc::{AllocError, Global};

/// A search for ways down a level graph.
#[derive(Debug, Drop)]
pub struct Blocking {
    /// The current arc of each node, counted from 1: it leads from the node, and its reverse may lead there.
    current: Vec<usize>,
    /// The arcs of a path to the sink: at the place of each level, the one that leads from there to the next level.
    path: Vec<usize>,
}

/// Whether the reverse of an arc is open and comes from this level.
fn is_way_back(network: &Network, levels: &Levels, before: usize, number: usize) -> bool
    requires network { IsNetwork network.now }
    requires nodes { vec_len levels.now.of ≡ vec_len network.now.last }
    requires arc { number < vec_len network.now.arcs }
    ensures { MatchBool result (IsWayBack network.now.arcs.items levels.now.of.items before number)
        (IsWayBack network.now.arcs.items levels.now.of.items before number → ⊥) }
{
    if levels.at(network.arc(number).to) != before {
        return false;
    }
    network.arc(reverse(number)).room != 0
}

impl Blocking {
    /// A search in a network of so many nodes.
    pub fn new(alloc: Global, nodes: usize) -> Result<Blocking, AllocError>
        ensures current { IfOk result (λ blocking. vec_len blocking.current ≡ nodes) }
        ensures path { IfOk result (λ blocking. vec_len blocking.path ≡ nodes) }
    {
        Ok(Blocking {
            current: vec![in alloc; 0; nodes]?,
            path: vec![in alloc; 0; nodes]?,
        })
    }

    /// Sends all that goes down the levels.
    pub fn block(&mut self, network: &mut Network, levels: &Levels)
        requires network { IsNetwork network.old }
        requires current { vec_len self.old.current ≡ vec_len network.old.last }
        requires path { vec_len self.old.path ≡ vec_len network.old.last }
        requires nodes { vec_len levels.now.of ≡ vec_len network.old.last }
        requires levels { IsLevelGraph network.old.arcs.items network.old.source network.old.sink
            levels.now.of.items }
        requires reached { 0 < slice_index levels.now.of.items network.old.sink }
        requires few { slice_index levels.now.of.items network.old.sink ≤ vec_len levels.now.of }
        ensures network { IsNetwork network.new }
        ensures nodes { network.new.last ≡ network.old.last }
        ensures source { network.new.source ≡ network.old.source }
        ensures sink { network.new.sink ≡ network.old.sink }
        ensures current { vec_len self.new.current ≡ vec_len self.old.current }
        ensures path { vec_len self.new.path ≡ vec_len self.old.path }
        ensures sent { AreSentDown network.old.arcs.items network.new.arcs.items
            levels.now.of.items }
        ensures flow { IsFlow network.old.arcs.items network.new.arcs.items network.old.source
            network.old.sink }
        ensures blocked { IsBlocked network.new.arcs.items levels.now.of.items network.old.source
            network.old.sink }
    {
        self.current.copy_from_slice(network.last.as_slice());
        let mut node = network.sink;
        while let Some(next) = self.step(network, levels, node) {
            node = next;
        }
    }

    /// Goes one arc back to the source, or sends more where it has come there, or leaves a node that no way leads to: the
    /// node where it is then. None where no way is left.
    fn step(&mut self, network: &mut Network, levels: &Levels, node: usize) -> Option<usize>
        requires network { IsNetwork network.old }
        requires search { IsSearch network.old levels.now.of.items self.old node }
        ensures network { IsNetwork network.new }
        ensures nodes { network.new.last ≡ network.old.last }
        ensures source { network.new.source ≡ network.old.source }
        ensures sink { network.new.sink ≡ network.old.sink }
        ensures current { vec_len self.new.current ≡ vec_len self.old.current }
        ensures path { vec_len self.new.path ≡ vec_len self.old.path }
        ensures sent { AreSentDown network.old.arcs.items network.new.arcs.items
            levels.now.of.items }
        ensures flow { IsFlow network.old.arcs.items network.new.arcs.items network.old.source
            network.old.sink }
        ensures search { IfSome result (λ next. IsSearch network.new levels.now.of.items self.new
            next) }
        ensures fewer { IfSome result (λ next. left_of self.new levels.now.of.items next
            < left_of self.old levels.now.of.items node) }
        ensures blocked { IfNone result (IsBlocked network.new.arcs.items levels.now.of.items
            network.old.source network.old.sink) }
    {
        if node == network.source {
            let full = self.send(network, levels.at(network.sink));
            return Some(self.leave(network, full));
        }
        if let Some(before) = self.advance(network, levels, node) {
            return Some(before);
        }
        if node == network.sink {
            return None;
        }
        Some(self.leave(network, levels.at(node)))
    }

    /// Goes on to the next open arc that leads to a node from the level before, and gives the node that it comes from.
    fn advance(&mut self, network: &Network, levels: &Levels, node: usize) -> Option<usize>
        requires network { IsNetwork network.now }
        requires search { IsSearch network.now levels.now.of.items self.old node }
        requires other { node ≢ network.now.source }
        ensures search { IfSome result (λ before. IsSearch network.now levels.now.of.items self.new
            before) }
        ensures level { IfSome result (λ before. slice_index levels.now.of.items before + 1
            ≡ slice_index levels.now.of.items node) }
        ensures still { IfNone result (IsSearch network.now levels.now.of.items self.new node) }
        ensures dead { IfNone result (slice_index self.new.current.items node ≡ 0) }
        ensures fewer { sum self.new.current.items ≤ sum self.old.current.items }
        ensures current { vec_len self.new.current ≡ vec_len self.old.current }
        ensures path { vec_len self.new.path ≡ vec_len self.old.path }
    {
        let before = levels.at(node) - 1;
        let next = self.next_way(network, levels, node, before);
        self.current[node] = next;
        if next == 0 {
            return None;
        }
        self.path[before] = reverse(next - 1);
        Some(network.arc(next - 1).to)
    }

    /// The next arc from a node whose reverse is open and comes from the level before, counted from 1; 0 where there is
    /// none.
    fn next_way(&self, network: &Network, levels: &Levels, node: usize, before: usize) -> usize
        requires network { IsNetwork network.now }
        requires search { IsSearch network.now levels.now.of.items self.now node }
        requires before { before + 1 ≡ slice_index levels.now.of.items node }
        ensures from { IsArcFrom network.now.arcs.items node result }
        ensures fewer { result ≤ slice_index self.now.current.items node }
        ensures passed { ArePassed network.now.arcs.items levels.now.of.items self.now.current.items
            network.now.source node result }
        ensures way { 0 < result → IsWayBack network.now.arcs.items levels.now.of.items before
            (result - 1) }
    {
        let mut next = self.current[node];
        while next != 0 {
            if is_way_back(network, levels, before, next - 1) {
                return next;
            }
            next = network.arc(next - 1).next;
        }
        0
    }

    /// Passes the arc at a place of the path, and gives the node that it leads to.
    fn leave(&mut self, network: &Network, place: usize) -> usize
        requires network { IsNetwork network.now }
        requires place { place < vec_len self.old.path }
        requires arc { slice_index self.old.path.items place < vec_len network.now.arcs }
        requires current { vec_len self.old.current ≡ vec_len network.now.last }
        ensures node { result
            ≡ head_of network.now.arcs.items (slice_index self.old.path.items place) }
        ensures current { self.new.current.items
            ≡ slice_set self.old.current.items result
            (arc_at network.now.arcs.items
            (reverse_of (slice_index self.old.path.items place))).next }
        ensures path { self.new.path.items ≡ self.old.path.items }
    {
        let arc = self.path[place];
        let node = network.arc(arc).to;
        self.current[node] = network.arc(reverse(arc)).next;
        node
    }

    /// Sends what the path from the source has room for, and gives the last place whose arc is full then.
    fn send(&self, network: &mut Network, top: usize) -> usize
        requires network { IsNetwork network.old }
        requires some { 1 < top }
        requires top { top ≤ vec_len self.now.path }
        requires way { IsWay network.old.arcs.items self.now.path.items network.old.source
            network.old.sink top }
        ensures network { IsNetwork network.new }
        ensures nodes { network.new.last ≡ network.old.last }
        ensures source { network.new.source ≡ network.old.source }
        ensures sink { network.new.sink ≡ network.old.sink }
        ensures sent { AreSentAlong network.old.arcs.items network.new.arcs.items
            self.now.path.items top }
        ensures flow { IsFlow network.old.arcs.items network.new.arcs.items network.old.source
            network.old.sink }
        ensures some { 1 ≤ result }
        ensures place { result < top }
        ensures full { room_at network.new.arcs.items (slice_index self.now.path.items result) ≡ 0 }
    {
        let full = self.tightest(network, top);
        let most = network.arc(self.path[full]).room;
        self.push_all(network, top, most);
        full
    }

    /// The last place of the path whose arc has the least room.
    fn tightest(&self, network: &Network, top: usize) -> usize
        requires some { 1 < top }
        requires top { top ≤ vec_len self.now.path }
        requires way { IsWay network.now.arcs.items self.now.path.items network.now.source
            network.now.sink top }
        ensures some { 1 ≤ result }
        ensures place { result < top }
        ensures least { (j : ℕ) → 1 ≤ j → j < top
            → room_at network.now.arcs.items (slice_index self.now.path.items result)
            ≤ room_at network.now.arcs.items (slice_index self.now.path.items j) }
    {
        let mut full = 1;
        let mut most = network.arc(self.path[1]).room;
        for place in 2..top {
            let room = network.arc(self.path[place]).room;
            if room <= most {
                most = room;
                full = place;
            }
        }
        full
    }

    /// Sends so much more along each arc of the path from the source.
    fn push_all(&self, network: &mut Network, top: usize, amount: u64)
        requires network { IsNetwork network.old }
        requires some { 1 < top }
        requires top { top ≤ vec_len self.now.path }
        requires way { IsWay network.old.arcs.items self.now.path.items network.old.source
            network.old.sink top }
        requires room { (j : ℕ) → 1 ≤ j → j < top → amount
            ≤ room_at network.old.arcs.items (slice_index self.now.path.items j) }
        ensures network { IsNetwork network.new }
        ensures nodes { network.new.last ≡ network.old.last }
        ensures source { network.new.source ≡ network.old.source }
        ensures sink { network.new.sink ≡ network.old.sink }
        ensures sent { AreSentAlong network.old.arcs.items network.new.arcs.items
            self.now.path.items top }
        ensures flow { IsFlow network.old.arcs.items network.new.arcs.items network.old.source
            network.old.sink }
        ensures rooms { (j : ℕ) → 1 ≤ j → j < top
            → room_at network.new.arcs.items (slice_index self.now.path.items j)
            ≤ room_at network.old.arcs.items (slice_index self.now.path.items j) - amount }
    {
        for place in 1..top {
            network.push(self.path[place], amount);
        }
    }
}

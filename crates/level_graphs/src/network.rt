//! Nodes and arcs, and how much more can flow along each arc.
//!
//! Each arc lies beside its reverse, which has room for what flows along the arc, so the number of one tells the other.

ghost use Rattle.std.specs.Prelude.{◌≡◌, ◌≢◌, ◌+◌, ◌<◌, [], IfOk, OnOk, slice_index, vec_len};
ghost use Rattle.level_graphs.specs.Arcs.{arc_at, pushed, reverse_of, IsNetwork, HasArcs};

use std::alloc::{AllocError, Global};

/// An arc of a network.
#[derive(Clone, Copy, Debug)]
pub struct Arc {
    /// The node that it leads to.
    pub to: usize,
    /// How much more can flow along it.
    pub room: u64,
    /// The arc before it from the same node, counted from 1; 0 where there is none.
    pub next: usize,
}

/// Arcs, each beside its reverse, and the last arc from each node, counted from 1.
#[derive(Debug, Drop)]
pub struct Network {
    pub arcs: Vec<Arc>,
    pub last: Vec<usize>,
    /// Where all that flows comes from.
    pub source: usize,
    /// Where all that flows goes to.
    pub sink: usize,
}

/// The arc beside an arc: an even number and the next one are a pair.
pub fn reverse(arc: usize) -> usize
    ensures { result ≡ reverse_of arc }
{
    if arc % 2 == 0 { arc + 1 } else { arc - 1 }
}

impl Network {
    /// A network of so many nodes without arcs.
    pub fn new(
        alloc: Global,
        nodes: usize,
        source: usize,
        sink: usize,
    ) -> Result<Network, AllocError>
        requires source { source < nodes }
        requires sink { sink < nodes }
        requires ends { source ≢ sink }
        ensures network { IfOk result IsNetwork }
        ensures arcs { IfOk result (λ network. network.arcs.items ≡ []) }
        ensures nodes { IfOk result (λ network. vec_len network.last ≡ nodes) }
        ensures source { IfOk result (λ network. network.source ≡ source) }
        ensures sink { IfOk result (λ network. network.sink ≡ sink) }
    {
        Ok(Network {
            arcs: Vec::new(alloc),
            last: vec![in alloc; 0; nodes]?,
            source,
            sink,
        })
    }

    /// Adds an arc with so much room, and its reverse, along which nothing can flow yet.
    pub fn join(&mut self, from: usize, to: usize, room: u64) -> Result<(), AllocError>
        requires network { IsNetwork self.old }
        requires from { from < vec_len self.old.last }
        requires to { to < vec_len self.old.last }
        requires apart { from ≡ self.old.source → to ≢ self.old.sink }
        requires back { to ≡ self.old.source → from ≢ self.old.sink }
        ensures network { OnOk result (IsNetwork self.new) }
        ensures arcs { OnOk result (HasArcs self.old.arcs.items self.new.arcs.items from to room) }
        ensures nodes { vec_len self.new.last ≡ vec_len self.old.last }
        ensures source { self.new.source ≡ self.old.source }
        ensures sink { self.new.sink ≡ self.old.sink }
    {
        let number = self.arcs.len();
        let next = self.last[from];
        self.arcs.push(Arc { to, room, next })?;
        self.last[from] = number + 1;
        let next = self.last[to];
        self.arcs.push(Arc {
            to: from,
            room: 0,
            next,
        })?;
        self.last[to] = number + 2;
        Ok(())
    }

    /// Sends so much more along an arc.
    pub fn push(&mut self, arc: usize, amount: u64)
        requires network { IsNetwork self.old }
        requires arc { arc < vec_len self.old.arcs }
        ensures network { IsNetwork self.new }
        ensures arcs { self.new.arcs.items ≡ pushed self.old.arcs.items arc amount }
        ensures nodes { self.new.last ≡ self.old.last }
        ensures source { self.new.source ≡ self.old.source }
        ensures sink { self.new.sink ≡ self.old.sink }
    {
        let back = reverse(arc);
        let held = self.arc(arc);
        self.arcs[arc] = Arc {
            to: held.to,
            room: held.room.saturating_sub(amount),
            next: held.next,
        };
        let held = self.arc(back);
        self.arcs[back] = Arc {
            to: held.to,
            room: held.room.saturating_add(amount),
            next: held.next,
        };
    }

    /// The arc of this number.
    pub fn arc(&self, number: usize) -> Arc
        requires { number < vec_len self.now.arcs }
        ensures { result ≡ arc_at self.now.arcs.items number }
    {
        self.arcs[number]
    }

    /// The last arc from a node, counted from 1; 0 where there is none.
    pub fn last_from(&self, node: usize) -> usize
        requires { node < vec_len self.now.last }
        ensures { result ≡ slice_index self.now.last.items node }
    {
        self.last[node]
    }
}

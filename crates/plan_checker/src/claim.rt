//! What is to be checked, and each rule at one vertex.

ghost use Rattle.std.specs.Prelude.{◌≡◌, ℕ, ◌<◌, ◌^◌, ◌↔◌, length, sum, IsTrue, All, slice_index};
ghost use Rattle.plan_checker.specs.Graph.{vertex, FitsAt};
ghost use Rattle.plan_checker.specs.Plan.{mark};
ghost use Rattle.plan_checker.specs.Charges.{passes, received};

use crate::broken::Broken;
use crate::charges::Charges;
use crate::graph::Graph;
use crate::plan::{Mark, Plan};
use crate::vertex::Vertex;

/// What is claimed: that these charges show this plan of the graph to be a cheapest one.
#[derive(Clone, Copy)]
pub struct Claim<'a> {
    pub graph: &'a Graph,
    pub plan: &'a Plan,
    pub charges: &'a Charges,
}

/// The rules that are looked at vertex by vertex, in their order.
#[derive(Clone, Copy)]
pub enum Rule {
    /// What is needed isn't pruned.
    Needed,
    /// What is loaded can be.
    Loadable,
    /// What is computed has its parents.
    Parents,
    /// What is charged for its own sake is needed.
    Entering,
    /// What goes through is at most the load cost.
    Loading,
    /// What is paid is at most the compute cost.
    Paying,
    /// What comes in goes through.
    ComingIn,
    /// What goes through comes out.
    GoingOut,
}

impl Claim<'_> {
    ghost use Rattle.plan_checker.specs.inner.Claim.{graph_of, marks_of, charges_of, IsBroken, IsSized, SettlesParents, IsFirstPruned};

    pub fn vertex(&self, i: usize) -> &Vertex
        requires { i < length (graph_of self.now) }
        ensures value { result.now ≡ vertex (graph_of self.now) i }
        ensures fits { FitsAt (graph_of self.now) i }
    {
        &self.graph.vertices()[i]
    }

    pub fn mark(&self, i: usize) -> Mark
        requires { i < length (marks_of self.now) }
        ensures { result ≡ mark (marks_of self.now) i }
    {
        self.plan.marks.as_slice()[i]
    }

    pub fn enter(&self, i: usize) -> u64
        requires { i < length (charges_of self.now).enter }
        ensures { result ≡ slice_index (charges_of self.now).enter i }
    {
        self.charges.enter.as_slice()[i]
    }

    pub fn through(&self, i: usize) -> u64
        requires { i < length (charges_of self.now).through }
        ensures { result ≡ slice_index (charges_of self.now).through i }
    {
        self.charges.through.as_slice()[i]
    }

    pub fn pay(&self, i: usize) -> u64
        requires { i < length (charges_of self.now).pay }
        ensures { result ≡ slice_index (charges_of self.now).pay i }
    {
        self.charges.pay.as_slice()[i]
    }

    pub fn passes(&self, i: usize) -> &[u64]
        requires { i < length (charges_of self.now).pass }
        ensures { result.now ≡ passes (charges_of self.now) i }
    {
        self.charges.pass.as_slice()[i].as_slice()
    }

    pub fn is_needed_pruned(&self, i: usize) -> bool
        requires there { i < length (graph_of self.now) }
        requires sized { IsSized self.now }
        ensures { IsTrue result ↔ IsBroken self.now (Broken.NeededPruned i) }
    {
        self.vertex(i).needed && self.is_pruned(i)
    }

    pub fn has_no_load(&self, i: usize) -> bool
        requires there { i < length (graph_of self.now) }
        requires sized { IsSized self.now }
        ensures { IsTrue result ↔ IsBroken self.now (Broken.NoLoad i) }
    {
        self.vertex(i).load.is_none() && matches!(self.mark(i), Mark::Load)
    }

    pub fn enters_not_needed(&self, i: usize) -> bool
        requires there { i < length (graph_of self.now) }
        requires sized { IsSized self.now }
        ensures { IsTrue result ↔ IsBroken self.now (Broken.EnterNotNeeded i) }
    {
        !self.vertex(i).needed && self.enter(i) != 0
    }

    pub fn is_over_load(&self, i: usize) -> bool
        requires there { i < length (graph_of self.now) }
        requires sized { IsSized self.now }
        ensures { IsTrue result ↔ IsBroken self.now (Broken.ThroughOverLoad i) }
    {
        match self.vertex(i).load {
            Some(load) => load < self.through(i),
            None => false,
        }
    }

    pub fn is_over_compute(&self, i: usize) -> bool
        requires there { i < length (graph_of self.now) }
        requires sized { IsSized self.now }
        ensures { IsTrue result ↔ IsBroken self.now (Broken.PayOverCompute i) }
    {
        self.vertex(i).compute < self.pay(i)
    }

    pub fn has_other_in(&self, i: usize) -> bool
        requires there { i < length (graph_of self.now) }
        requires sized { IsSized self.now }
        ensures { IsTrue result ↔ IsBroken self.now (Broken.InNotThrough i) }
    {
        u128::from(self.enter(i)) + self.graph.received(self.charges, i)
            != u128::from(self.through(i))
    }

    pub fn has_other_out(&self, i: usize) -> bool
        requires there { i < length (graph_of self.now) }
        requires sized { IsSized self.now }
        ensures { IsTrue result ↔ IsBroken self.now (Broken.ThroughNotOut i) }
    {
        u128::from(self.through(i)) != u128::from(self.pay(i)) + wide_sum(self.passes(i))
    }

    /// The first pruned parent of a computed vertex.
    pub fn pruned_parent(&self, i: usize) -> Option<usize>
        requires there { i < length (graph_of self.now) }
        requires sized { IsSized self.now }
        ensures { SettlesParents self.now i result }
    {
        if !self.is_computed(i) {
            return None;
        }
        self.first_pruned(self.vertex(i).parents.as_slice())
    }

    fn first_pruned(&self, vertices: &[usize]) -> Option<usize>
        requires { All (λ i. i < length (marks_of self.now)) vertices.now }
        ensures { IsFirstPruned self.now vertices.now result }
    {
        for vertex in vertices {
            if self.is_pruned(*vertex) {
                return Some(*vertex);
            }
        }
        None
    }

    fn is_computed(&self, i: usize) -> bool
        requires { i < length (marks_of self.now) }
        ensures { IsTrue result ↔ (mark (marks_of self.now) i ≡ Mark.Compute) }
    {
        matches!(self.mark(i), Mark::Compute)
    }

    fn is_pruned(&self, i: usize) -> bool
        requires { i < length (marks_of self.now) }
        ensures { IsTrue result ↔ (mark (marks_of self.now) i ≡ Mark.Prune) }
    {
        matches!(self.mark(i), Mark::Prune)
    }
}

/// The sum of some amounts, which may not fit in 64 bits.
fn wide_sum(amounts: &[u64]) -> u128
    ensures sum { result ≡ sum amounts.now }
    ensures small { result < 2 ^ 127 }
{
    let mut sum = 0;
    for amount in amounts {
        sum += u128::from(*amount);
    }
    sum
}

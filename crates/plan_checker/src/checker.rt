//! The check of a certificate.

ghost use Rattle.std.specs.Prelude.{◌≡◌, ℕ, ◌<◌, ◌≤◌, ◌^◌, ◌↔◌, length, sum, IsTrue, IfOk, OnOk, IfErr, EachIndex};
ghost use Rattle.plan_checker.specs.Graph.{vertex, Fits, IsGraph};
ghost use Rattle.plan_checker.specs.Plan.{cost, cost_of};
ghost use Rattle.plan_checker.specs.Charges.{passes, IsCounted};
ghost use Rattle.plan_checker.specs.Certificate.{IsCertificate};
ghost use Rattle.plan_checker.specs.Least.{IsCheapest};
ghost use Rattle.plan_checker.specs.Broken.{IsFirstBroken};
ghost use Rattle.plan_checker.specs.inner.Claim.{graph_of, marks_of, charges_of, number, Decides, IsSized, KeepsRules, Settles, SettlesAt};

use crate::broken::Broken;
use crate::charges::Charges;
use crate::claim::{Claim, Rule};
use crate::graph::{Graph, MOST_COST};
use crate::plan::{Mark, Plan};
use crate::vertex::Vertex;

/// Checks that these charges show this plan of the graph to be a cheapest one: its cost, or the first rule that is broken.
/// It takes no memory, and time in proportion to the vertices and their parents.
pub fn check(graph: &Graph, plan: &Plan, charges: &Charges) -> Result<u64, Broken>
    ensures certified { IfOk result (λ total. IsCertificate graph.now plan.now.marks charges.now
        × (total ≡ cost graph.now plan.now.marks)) }
    ensures cheapest { OnOk result (IsCheapest graph.now plan.now.marks) }
    ensures broken { IfErr result (IsFirstBroken graph.now plan.now.marks charges.now) }
{
    let claim = Claim {
        graph,
        plan,
        charges,
    };
    count(&claim)?;
    look(&claim, Rule::Needed)?;
    look(&claim, Rule::Loadable)?;
    look(&claim, Rule::Parents)?;
    look(&claim, Rule::Entering)?;
    look(&claim, Rule::Loading)?;
    look(&claim, Rule::Paying)?;
    look(&claim, Rule::ComingIn)?;
    look(&claim, Rule::GoingOut)?;
    balance(&claim)
}

/// Whether all that is claimed has the sizes that the graph asks for.
fn count(claim: &Claim) -> Result<(), Broken>
    ensures { Settles claim.now 1 result }
{
    if claim.plan.marks.len() != claim.graph.vertices().len() {
        return Err(Broken::MarkCount);
    }
    if !has_entries(claim) {
        return Err(Broken::ChargeCount);
    }
    Ok(())
}

/// Whether there is one entry of each kind for each vertex, and one pass for each of its parents.
fn has_entries(claim: &Claim) -> bool
    ensures { IsTrue result ↔ IsCounted (graph_of claim.now) (charges_of claim.now) }
{
    let count = claim.graph.vertices().len();
    claim.charges.enter.len() == count
        && claim.charges.through.len() == count
        && claim.charges.pay.len() == count
        && claim.charges.pass.len() == count
        && has_passes(claim)
}

/// Whether each vertex has one pass for each of its parents.
fn has_passes(claim: &Claim) -> bool
    requires { length (charges_of claim.now).pass ≡ length (graph_of claim.now) }
    ensures { IsTrue result
        ↔ EachIndex (graph_of claim.now) (λ i. length (passes (charges_of claim.now) i)
        ≡ length (vertex (graph_of claim.now) i).parents) }
{
    for (i, vertex) in claim.graph.vertices().iter().enumerate() {
        if claim.passes(i).len() != vertex.parents.len() {
            return false;
        }
    }
    true
}

/// Looks at a rule at each vertex, from the lowest on.
fn look(claim: &Claim, rule: Rule) -> Result<(), Broken>
    requires { KeepsRules claim.now (number rule) }
    ensures { Settles claim.now (number rule) result }
{
    for i in 0..claim.graph.vertices().len() {
        if let Some(broken) = broken_at(claim, rule, i) {
            return Err(broken);
        }
    }
    Ok(())
}

/// What breaks a rule at a vertex.
fn broken_at(claim: &Claim, rule: Rule, i: usize) -> Option<Broken>
    requires there { i < length (graph_of claim.now) }
    requires sized { IsSized claim.now }
    ensures { SettlesAt claim.now (number rule) i result }
{
    match rule {
        Rule::Needed => claim.is_needed_pruned(i).then_some(Broken::NeededPruned(i)),
        Rule::Loadable => claim.has_no_load(i).then_some(Broken::NoLoad(i)),
        Rule::Parents => claim
            .pruned_parent(i)
            .map(|parent| Broken::ParentPruned(i, parent)),
        Rule::Entering => claim
            .enters_not_needed(i)
            .then_some(Broken::EnterNotNeeded(i)),
        Rule::Loading => claim.is_over_load(i).then_some(Broken::ThroughOverLoad(i)),
        Rule::Paying => claim
            .is_over_compute(i)
            .then_some(Broken::PayOverCompute(i)),
        Rule::ComingIn => claim.has_other_in(i).then_some(Broken::InNotThrough(i)),
        Rule::GoingOut => claim.has_other_out(i).then_some(Broken::ThroughNotOut(i)),
    }
}

/// Compares the plan's cost with the value of the charges.
fn balance(claim: &Claim) -> Result<u64, Broken>
    requires { KeepsRules claim.now 10 }
    ensures decided { Decides claim.now result }
    ensures cheapest { OnOk result (IsCheapest (graph_of claim.now) (marks_of claim.now)) }
{
    let total = plan_cost(claim.graph.vertices(), claim.plan.marks.as_slice());
    let worth = value(claim.charges.enter.as_slice());
    if total != worth {
        return Err(Broken::Sum(total, worth));
    }
    Ok(total)
}

/// What a plan costs.
fn plan_cost(vertices: &[Vertex], marks: &[Mark]) -> u64
    requires counted { length marks.now ≡ length vertices.now }
    requires graph { IsGraph vertices.now }
    ensures { result ≡ cost vertices.now marks.now }
{
    let mut total = 0;
    for (i, vertex) in vertices.iter().enumerate() {
        total += vertex_cost(vertex, marks[i]);
    }
    total
}

/// What a vertex costs under a mark.
fn vertex_cost(vertex: &Vertex, mark: Mark) -> u64
    requires { (number : ℕ) × (entries : ℕ) × Fits number entries vertex.now }
    ensures value { result ≡ cost_of vertex.now mark }
    ensures small { result ≤ MOST_COST }
{
    match mark {
        Mark::Load => vertex.load.unwrap_or(0),
        Mark::Compute => vertex.compute,
        Mark::Prune => 0,
    }
}

/// What the charges are worth.
fn value(enter: &[u64]) -> u64
    requires { sum enter.now < 2 ^ 64 }
    ensures { result ≡ sum enter.now }
{
    enter.iter().sum()
}

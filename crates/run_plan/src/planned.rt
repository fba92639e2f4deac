//! The plan of the jobs that are known.
ghost use Rattle.std.specs.Prelude.{◌≡◌, All, IfErr, IfOk, length};
ghost use Rattle.job_graph.specs.PresentJobGraph.{AreWithin, present_job_graph};
ghost use Rattle.job_graph.specs.Unfolding.{Blames};
ghost use Rattle.plan_checker.specs.Certificate.{IsCertificate};
ghost use Rattle.plan_checker.specs.Least.{IsLeast};
ghost use Rattle.plan_keeper.specs.Apart.{AreApart};
ghost use Rattle.plan_keeper.specs.Kept.{IsKeptApart};
ghost use Rattle.run_plan.specs.Planned.{IsPlanOf};

use crate::flags::flags_of;
use crate::kept::KeptPlan;
use flow_planner::{OutOfMemory, plan, plan_again};
use job_graph::{Costs, UnfoldError, Unfolding};
use plan_checker::{Charges, Graph, Plan};
use plan_keeper::{Planned, keep_apart, kept_is_planned, plan_cost};
use std::alloc::{AllocError, Global};
use std::mem;

/// Makes the present job graph of the jobs that are known, each with its costs, and plans it; faster where there are charges of
/// a plan before. After a refused `learn` it answers that refusal.
pub fn plan_for(
    alloc: Global,
    known: &Unfolding<'_>,
    costs: &[Costs],
    last: Option<&Charges>,
) -> Result<KeptPlan, UnfoldError>
    requires each { length costs.now ≡ length known.now.known }
    requires within { All AreWithin costs.now }
    ensures ok { IfOk result (IsPlanOf
        (present_job_graph known.now.learned known.now.known known.now.outs costs.now)) }
    ensures err { IfErr result (Blames known.now.refused) }
{
    let graph = known.graph(costs)?;
    Ok(planned_graph(alloc, graph, last)?)
}

/// Plans a graph: the plan is read off where the vertices stand apart.
fn planned_graph(
    alloc: Global,
    graph: Graph,
    last: Option<&Charges>,
) -> Result<KeptPlan, AllocError>
    ensures { IfOk result (IsPlanOf graph) }
{
    kept_is_planned();
    match keep_apart(alloc, graph)? {
        Ok(made) => planned_apart(alloc, made),
        Err(graph) => planned_whole(alloc, graph, last),
    }
}

/// Keeps the plan of vertices that stand apart.
fn planned_apart(alloc: Global, made: Planned) -> Result<KeptPlan, AllocError>
    requires { IsKeptApart made }
    ensures { IfOk result (λ kept. kept ≡ made) }
{
    let needed = flags_of(alloc, made.graph.vertices())?;
    Ok(KeptPlan::apart(made, needed))
}

/// Plans a graph whose vertices don't stand apart.
fn planned_whole(
    alloc: Global,
    graph: Graph,
    last: Option<&Charges>,
) -> Result<KeptPlan, AllocError>
    requires { ¬ AreApart graph }
    ensures { IfOk result (IsPlanOf graph) }
{
    match plan_of(alloc, &graph, last) {
        Ok((plan, charges)) => Ok(KeptPlan::whole(costed(graph, plan, charges))),
        Err(OutOfMemory) => {
            mem::drop(graph);
            Err(AllocError)
        }
    }
}

/// The Least plan of a graph, with charges.
fn plan_of(
    alloc: Global,
    graph: &Graph,
    last: Option<&Charges>,
) -> Result<(Plan, Charges), OutOfMemory>
    ensures least { IfOk result (λ made. IsLeast graph.now made.0.marks) }
    ensures certified { IfOk result (λ made. IsCertificate graph.now made.0.marks made.1) }
{
    match last {
        None => plan(alloc, graph),
        Some(charges) => plan_again(alloc, graph, charges),
    }
}

/// A certificate of a graph with its cost.
fn costed(graph: Graph, plan: Plan, charges: Charges) -> Planned
    requires least { IsLeast graph plan.marks }
    requires certified { IsCertificate graph plan.marks charges }
    ensures { IsPlanOf graph result }
{
    let cost = plan_cost(&graph, &plan);
    Planned {
        graph,
        plan,
        charges,
        cost,
    }
}

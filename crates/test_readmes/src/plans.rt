//! Samples on plans: flows, plans, certificates, their words.
ghost use Rattle.std.specs.Prelude.{◌≡◌, length};
ghost use Rattle.plan_checker.specs.Charges.{IsCounted};

use flow_planner::{OutOfMemory, plan, plan_again};
use level_graphs::{Network, Phases, send_all};
use plain_data::Text;
use plan_checker::{
    CertificateError, Charges, Graph, GraphError, Plan, Vertex, check, read_certificate,
    write_certificate,
};
use plan_keeper::{add_vertex, keep_apart, plan_apart, plan_cost};
use plan_words::{Known, plan_lines, plan_picture, plan_reasons, waiting_line};
use std::alloc::{AllocError, Global};

/// The sample of `plan_checker`.
pub fn read_and_checked(alloc: Global, bytes: &[u8]) -> Result<(), CertificateError> {
    let (graph, plan, charges) = read_certificate(alloc, bytes)?;
    if let Ok(cost) = check(&graph, &plan, &charges) { // no valid plan costs less; Err: the first broken rule, with its vertex
        let text = write_certificate(alloc, &graph, &plan, &charges)?;
    }
    Ok(())
}

/// The sample of `flow_planner`.
pub fn cheapest_plan(alloc: Global, graph: &Graph, changed: &Graph) -> Result<(), OutOfMemory> {
    let (first, charges) = plan(alloc, graph)?; // graph: plan_checker's Graph
    let cost = check(graph, &first, &charges); // Ok(cost): certified
    let (second, more) = plan_again(alloc, changed, &charges)?; // a graph that has changed a little
    Ok(())
}

/// The sample of `level_graphs`.
pub fn flow_by_levels(alloc: Global) -> Result<(), AllocError> {
    let mut network = Network::new(alloc, 4, 2, 3)?; // four nodes: 0, 1, the source 2, the sink 3
    network.join(2, 0, 5)?; // an arc with room 5 from the source to node 0
    network.join(0, 1, 3)?;
    network.join(1, 3, 4)?;
    let mut phases = Phases::new();
    let levels = send_all(alloc, &mut network, &mut phases)?;
    let left = network.arc(0).room; // 2: three went along the first arc
    let apart = levels.at(3); // 0: no open arcs lead to the sink any more
    Ok(())
}

/// A sample of `plan_keeper`.
pub fn plan_that_stands_apart(alloc: Global, graph: &Graph) -> Result<(), AllocError> {
    if let Some((plan, charges)) = plan_apart(alloc, graph)? { // None: what is computed by itself has costly parents
        let cost = plan_cost(graph, &plan);
    }
    Ok(())
}

/// A sample of `plan_keeper`.
pub fn kept_plan(alloc: Global, graph: Graph, vertex: Vertex) -> Result<(), GraphError> {
    if let Ok(kept) = keep_apart(alloc, graph)? { // Err: the graph, given back
        let kept = add_vertex(alloc, kept, vertex)?; // None: the vertex doesn't stand apart; plan from nothing
    }
    Ok(())
}

/// The sample of `plan_words`.
pub fn plan_in_words(
    alloc: Global,
    cost: u64,
    graph: &Graph,
    plan: &Plan,
    charges: &Charges,
    known: &[Known],
    near: &[Text],
    places: &[Text],
    names: &[Text],
) -> Result<(), AllocError>
    requires marks { length plan.now.marks ≡ length graph.now }
    requires charges { IsCounted graph.now charges.now }
    requires known { length known.now ≡ length graph.now }
    requires near { length near.now ≡ length graph.now }
    requires places { length places.now ≡ length graph.now }
{
    let lines = plan_lines(alloc, cost, plan, places)?; // "cost 4\n0 P \"main/a\"\n1 L \"main/c\"\n"
    let reasons = plan_reasons(alloc, graph, plan, known, near, places)?; // known: what a run knows of each job
    let waiting = waiting_line(alloc, names)?; // "2 steps wait for these: sort, merge\n": the names of steps of which the plan doesn't know all jobs
    let picture = plan_picture(alloc, cost, graph, plan, charges, places)?; // `dot -Tsvg` makes an SVG of it
    Ok(())
}

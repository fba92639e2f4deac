//! Generated graphs, each with its number.

mod every_plan;
mod generator;

use every_plan::{cheapest, cost_of};
use flow_planner::{plan, plan_again};
use generator::{apart, changed, larger, small};
use plan_checker::{Charges, Graph, Plan, check};
use plan_keeper::{plan_apart, plan_cost};
use std::alloc::Global;
use std::mem;
use std::test::Fail;

/// Whether the plan of a small graph is what all its cheapest plans do.
fn is_least_of_all(alloc: Global, number: u64) -> Result<bool, Fail> {
    let graph = small(alloc, number)?;
    let best = cheapest(alloc, graph.vertices())?;
    let (plan, charges) = plan(alloc, &graph)?;
    let common = best.common.as_slice();
    Ok(
        plan.marks.as_slice() == common
            && check(&graph, &plan, &charges) == Ok(best.cost)
            && cost_of(graph.vertices(), common) == Some(best.cost),
    )
}

/// Whether a certified plan is the one that `plan` finds.
fn is_plan(alloc: Global, graph: &Graph, other: &(Plan, Charges)) -> Result<bool, Fail> {
    let made = plan(alloc, graph)?;
    let is_same = made.0.marks.as_slice() == other.0.marks.as_slice()
        && check(graph, &made.0, &made.1) == check(graph, &other.0, &other.1);
    mem::drop(made);
    Ok(is_same)
}

/// The charges of a larger graph's plan.
fn charges_before(alloc: Global, number: u64) -> Result<Charges, Fail> {
    let graph = larger(alloc, number)?;
    let made = plan(alloc, &graph);
    mem::drop(graph);
    let (_, charges) = made?;
    Ok(charges)
}

/// Whether a graph's plan is found from the charges of the graph that it was before it changed.
fn is_found_again(alloc: Global, number: u64) -> Result<bool, Fail> {
    let graph = changed(alloc, number)?;
    let again = plan_from_last(alloc, &graph, number)?;
    let is_same = is_plan(alloc, &graph, &again);
    mem::drop(again);
    mem::drop(graph);
    is_same
}

/// A graph's plan from the charges of the graph that it was before it changed.
fn plan_from_last(alloc: Global, graph: &Graph, number: u64) -> Result<(Plan, Charges), Fail> {
    let last = charges_before(alloc, number)?;
    let again = plan_again(alloc, graph, &last);
    mem::drop(last);
    Ok(again?)
}

/// Whether the plan that is read off a graph is the one that `plan` finds, and costs what its check says.
fn is_read_off(alloc: Global, number: u64) -> Result<bool, Fail> {
    let graph = apart(alloc, number)?;
    let Some(made) = plan_apart(alloc, &graph)? else {
        return Ok(false);
    };
    let is_same = is_plan(alloc, &graph, &made)?
        && check(&graph, &made.0, &made.1) == Ok(plan_cost(&graph, &made.0));
    mem::drop(made);
    mem::drop(graph);
    Ok(is_same)
}

#[test]
fn plans_of_small_graphs_are_the_least(rt: HostRuntime) -> Result<(), Fail> {
    for number in 0..400 {
        let is_least = is_least_of_all(rt.alloc(), number)?;
        assert!(rt; is_least, "graph {number}");
    }
    Ok(())
}

#[test]
fn plans_again_are_plans(rt: HostRuntime) -> Result<(), Fail> {
    for number in 0..300 {
        let is_one = is_found_again(rt.alloc(), number)?;
        assert!(rt; is_one, "graph {number}");
    }
    Ok(())
}

#[test]
fn plans_that_are_read_off_are_plans(rt: HostRuntime) -> Result<(), Fail> {
    for number in 0..300 {
        let is_one = is_read_off(rt.alloc(), number)?;
        assert!(rt; is_one, "graph {number}");
    }
    Ok(())
}

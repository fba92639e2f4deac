//! How long a plan, its check, and a plan from earlier charges take.

use anyhow::{Result, anyhow};
use flow_planner::{plan, plan_again};
use plan_checker::{Charges, Graph, Plan, check};
use std::mem;
use std::time::Instant;

/// Prints the cost of the Least plan.
pub fn cost(rt: &HostRuntime, graph: &Graph) -> Result<()> {
    let (plan, charges) = plan(rt.alloc(), graph)?;
    let cost = certified(graph, &plan, &charges)?;
    println!(rt; "cost {cost}")?;
    Ok(())
}

/// Prints the microseconds of `plan`, of `check`, and of `plan_again` where nothing has changed, and the cost.
pub fn times(rt: &HostRuntime, graph: &Graph) -> Result<()> {
    let anew = anew(rt, graph)?;
    println!(rt; "plan {anew}")?;
    let (plan, charges) = plan(rt.alloc(), graph)?;
    checked(rt, graph, &plan, &charges)
}

fn checked(rt: &HostRuntime, graph: &Graph, plan: &Plan, charges: &Charges) -> Result<()> {
    let start = Instant::now(rt)?;
    let cost = certified(graph, plan, charges)?;
    let check = start.elapsed(rt)?.as_micros();
    let again = again(rt, graph, charges)?;
    println!(rt; "cost {cost}\ncheck {check}\nagain {again}")?;
    Ok(())
}

/// What a plan costs that these charges certify.
fn certified(graph: &Graph, plan: &Plan, charges: &Charges) -> Result<u64> {
    check(graph, plan, charges).map_err(|broken| anyhow!("{broken:?}"))
}

/// The microseconds of `plan`.
pub fn anew(rt: &HostRuntime, graph: &Graph) -> Result<u128> {
    let start = Instant::now(rt)?;
    let made = plan(rt.alloc(), graph)?;
    since(rt, start, made)
}

/// The microseconds of `plan_again` from these charges.
pub fn again(rt: &HostRuntime, graph: &Graph, last: &Charges) -> Result<u128> {
    let start = Instant::now(rt)?;
    let made = plan_again(rt.alloc(), graph, last)?;
    since(rt, start, made)
}

fn since(rt: &HostRuntime, start: Instant, made: (Plan, Charges)) -> Result<u128> {
    let took = start.elapsed(rt);
    mem::drop(made);
    Ok(took?.as_micros())
}

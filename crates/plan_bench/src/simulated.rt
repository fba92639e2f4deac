//! The planning points of a simulated run, and how long its plans take.

use crate::run::Run;
use crate::times;
use anyhow::Result;
use flow_planner::plan_again;
use plain_data::Items;
use plan_checker::{Charges, Graph, MOST_VERTICES, Plan, Vertex, write_certificate};
use std::alloc::{AllocError, Global};
use std::mem;
use std::time::Instant;

/// More planning points than a run has: a job is fetched once, or started and ended.
const MOST_POINTS: usize = 2 * MOST_VERTICES + 1;

/// How often a time is taken; the least one counts.
const TURNS: usize = 5;

/// How many planning points there were, and the microseconds of what was done at them.
#[derive(Clone, Copy)]
struct Totals {
    points: u64,
    graphs: u128,
    anew: u128,
    again: u128,
}

const NOTHING: Totals = Totals {
    points: 0,
    graphs: 0,
    anew: 0,
    again: 0,
};

/// Plans at each planning point, from nothing and from the charges of the point before, and prints how long all of it
/// took: the graphs, the plans from nothing, and the plans from charges.
pub fn whole(rt: &HostRuntime, jobs: &[Vertex]) -> Result<()> {
    let mut run = Run::new(rt.alloc(), jobs)?;
    let mut last = no_charges(rt.alloc());
    let mut totals = NOTHING;
    for _ in 0..MOST_POINTS {
        if !goes_on(rt, jobs, &mut run, &mut last, &mut totals)? {
            break;
        }
    }
    print(rt, totals)
}

fn print(rt: &HostRuntime, totals: Totals) -> Result<()> {
    let Totals {
        points,
        graphs,
        anew,
        again,
    } = totals;
    println!(rt; "points {points}\ngraphs {graphs}\nplan {anew}\nagain {again}")?;
    Ok(())
}

/// Goes as far as this planning point, counted from 0, prints its graph, and tells how long a plan from the charges of the
/// point before takes.
pub fn until(rt: &HostRuntime, jobs: &[Vertex], point: usize) -> Result<()> {
    let mut run = Run::new(rt.alloc(), jobs)?;
    let mut last = no_charges(rt.alloc());
    let mut totals = NOTHING;
    for _ in 0..point.min(MOST_POINTS) {
        if !goes_on(rt, jobs, &mut run, &mut last, &mut totals)? {
            break;
        }
    }
    let graph = graph_now(rt, jobs, &mut run, &mut totals)?;
    told(rt, &graph, &last)
}

/// Plans at the next planning point, and does what the plan says: whether there is more to do.
fn goes_on(
    rt: &HostRuntime,
    jobs: &[Vertex],
    run: &mut Run,
    last: &mut Charges,
    totals: &mut Totals,
) -> Result<bool> {
    let graph = graph_now(rt, jobs, run, totals)?;
    let plan = plan_now(rt, &graph, last, totals)?;
    Ok(run.step(jobs, &plan))
}

/// The graph at a planning point.
fn graph_now(
    rt: &HostRuntime,
    jobs: &[Vertex],
    run: &mut Run,
    totals: &mut Totals,
) -> Result<Graph> {
    run.learn(jobs)?;
    let vertices = run.vertices(rt.alloc(), jobs)?;
    let start = Instant::now(rt)?;
    let graph = Graph::new(rt.alloc(), vertices)?;
    totals.graphs = totals.graphs.saturating_add(start.elapsed(rt)?.as_micros());
    totals.points = totals.points.saturating_add(1);
    Ok(graph)
}

/// The plan at a planning point; its charges take the place of those of the point before.
fn plan_now(
    rt: &HostRuntime,
    graph: &Graph,
    last: &mut Charges,
    totals: &mut Totals,
) -> Result<Plan> {
    let anew = times::anew(rt, graph)?;
    let start = Instant::now(rt)?;
    let (plan, charges) = plan_again(rt.alloc(), graph, last)?;
    let again = start.elapsed(rt)?.as_micros();
    mem::drop(mem::replace(last, charges));
    totals.anew = totals.anew.saturating_add(anew);
    totals.again = totals.again.saturating_add(again);
    Ok(plan)
}

/// What is printed and told of a planning point.
fn told(rt: &HostRuntime, graph: &Graph, last: &Charges) -> Result<()> {
    write(rt, graph, last)?;
    tell(rt, graph, last)
}

/// Prints a graph with its plan, as a certificate.
fn write(rt: &HostRuntime, graph: &Graph, last: &Charges) -> Result<()> {
    let (plan, charges) = plan_again(rt.alloc(), graph, last)?;
    let text = write_certificate(rt.alloc(), graph, &plan, &charges)?;
    print!(rt; "{text}")?;
    Ok(())
}

/// Tells the microseconds of a plan from these charges.
fn tell(rt: &HostRuntime, graph: &Graph, last: &Charges) -> Result<()> {
    let mut least = u128::MAX;
    for _ in 0..TURNS {
        least = least.min(times::again(rt, graph, last)?);
    }
    eprintln!(rt; "changed {least}")?;
    Ok(())
}

fn no_charges(alloc: Global) -> Charges {
    Charges {
        enter: Items::new(alloc),
        through: Items::new(alloc),
        pay: Items::new(alloc),
        pass: Items::new(alloc),
    }
}

//! Plans the graph of a certificate: the program that `bench/plan` measures.
//!
//! It reads a certificate from the standard input, and leaves its plan and charges aside. Without an argument it plans
//! the graph, checks what was planned, and prints the cost; with `times` it also prints the microseconds that planning,
//! checking, and planning again from the charges took. With `run` it simulates a run of the jobs (`run.rt`), plans at
//! each planning point, and prints how long all plans took; with a number behind it, it goes as far as that planning
//! point, prints its graph as a certificate, and tells the times of that point on the standard error.
#![tactic(auto)]

mod run;
mod simulated;
mod times;

use anyhow::{Result, bail};
use plan_checker::{Graph, read_certificate};
use std::env;
use std::io::Read;

fn main(rt: HostRuntime) -> Result<()> {
    let graph = graph_of(&rt)?;
    let mut words = env::args(&rt)?;
    let _program = words.next();
    match (words.next(), words.next()) {
        (Some(verb), Some(point)) => until(&rt, &graph, verb.as_str(), point.as_str()),
        (Some(verb), None) => measured(&rt, &graph, verb.as_str()),
        _ => times::cost(&rt, &graph),
    }
}

fn graph_of(rt: &HostRuntime) -> Result<Graph> {
    let mut text = Vec::new(rt.alloc());
    rt.stdin().read_to_end(&mut text)?;
    let (graph, _, _) = read_certificate(rt.alloc(), text.as_slice())?;
    Ok(graph)
}

fn measured(rt: &HostRuntime, graph: &Graph, verb: &str) -> Result<()> {
    match verb {
        "times" => times::times(rt, graph),
        "run" => simulated::whole(rt, graph.vertices()),
        _ => bail!("times, run, or run POINT"),
    }
}

fn until(rt: &HostRuntime, graph: &Graph, verb: &str, point: &str) -> Result<()> {
    match verb {
        "run" => simulated::until(rt, graph.vertices(), point.parse::<usize>()?),
        _ => bail!("times, run, or run POINT"),
    }
}

//! A picture of a plan, in Graphviz's language.
ghost use Rattle.std.specs.Prelude.{◌≡◌, ◌<◌, ◌++◌, length, All, IfOk, OnOk, string_bytes};
ghost use Rattle.plan_checker.specs.Charges.{IsCounted, passes};
ghost use Rattle.plan_checker.specs.Graph.{vertex};
ghost use Rattle.plan_words.specs.Picture.{arrow, arrow_end, arrow_ends, arrows, costs_text, escaped, escaped_char, job_node, look, node_start, picture, rim, title};

use crate::parts::{is_same, job_at, mark_at, parents_at, place_at};
use plain_data::Text;
use plan_checker::{Charges, Graph, Mark, Plan, Vertex};
use std::alloc::{AllocError, Global};

/// Draws a plan as a graph in Graphviz's language: a node for each job, by its mark, with its place and its costs; an
/// arrow from each parent, with what is passed to it. An arrow between jobs of different marks is dashed.
pub fn plan_picture(
    alloc: Global,
    cost: u64,
    graph: &Graph,
    plan: &Plan,
    charges: &Charges,
    places: &[Text],
) -> Result<Text, AllocError>
    requires marks { length plan.now.marks ≡ length graph.now }
    requires charges { IsCounted graph.now charges.now }
    requires places { length places.now ≡ length graph.now }
    ensures { IfOk result (λ text. text
        ≡ picture cost graph.now plan.now.marks charges.now places.now) }
{
    let mut text = title(alloc, cost)?;
    for number in 0..places.len() {
        push_node(&mut text, graph, plan, places, number)?;
        push_arrows(&mut text, graph, plan, charges, number)?;
    }
    text.push_str("}\n")?;
    Ok(Text::from_string(text))
}

fn title(alloc: Global, cost: u64) -> Result<String, AllocError>
    ensures { IfOk result (λ text. string_bytes text ≡ title cost) }
{
    format!(in alloc;
        "digraph plan {{\ngraph [label=\"cost {cost}\", rankdir=LR]\nnode [style=filled]\n"
    )
}

// The node of a job.
fn push_node(
    text: &mut String,
    graph: &Graph,
    plan: &Plan,
    places: &[Text],
    number: usize,
) -> Result<(), AllocError>
    requires job { number < length graph.now }
    requires mark { number < length plan.now.marks }
    requires place { number < length places.now }
    ensures { OnOk result (string_bytes text.new ≡ string_bytes text.old
        ++ job_node graph.now plan.now.marks places.now number) }
{
    let job = job_at(graph, number);
    push_start(text, number)?;
    push_escaped(text, place_at(places, number).as_str())?;
    push_costs(text, job)?;
    push_look(text, mark_at(plan, number), job.needed)
}

fn push_start(text: &mut String, number: usize) -> Result<(), AllocError>
    ensures { OnOk result (string_bytes text.new ≡ string_bytes text.old ++ node_start number) }
{
    write!(text, "{number} [label=\"")
}

fn push_costs(text: &mut String, job: &Vertex) -> Result<(), AllocError>
    ensures { OnOk result (string_bytes text.new ≡ string_bytes text.old ++ costs_text job.now) }
{
    let compute = job.compute;
    match job.load {
        Some(load) => write!(text, "\\nload {load}, compute {compute}\""),
        None => write!(text, "\\nload -, compute {compute}\""),
    }
}

fn push_look(text: &mut String, mark: Mark, needed: bool) -> Result<(), AllocError>
    ensures { OnOk result (string_bytes text.new ≡ string_bytes text.old
        ++ look mark ++ rim needed) }
{
    text.push_str(look_of(mark))?;
    text.push_str(if needed { ", peripheries=2]\n" } else { "]\n" })
}

fn look_of(mark: Mark) -> &'static str
    ensures { result.now ≡ look mark }
{
    match mark {
        Mark::Load => ", shape=cylinder, fillcolor=lightblue",
        Mark::Compute => ", shape=box, fillcolor=palegreen",
        Mark::Prune => ", shape=ellipse, fillcolor=gray90",
    }
}

fn push_escaped(text: &mut String, shown: &str) -> Result<(), AllocError>
    ensures { OnOk result (string_bytes text.new ≡ string_bytes text.old ++ escaped shown.now) }
{
    for c in shown.chars() {
        push_char(text, c)?;
    }
    Ok(())
}

fn push_char(text: &mut String, c: char) -> Result<(), AllocError>
    ensures { OnOk result (string_bytes text.new ≡ string_bytes text.old ++ escaped_char c) }
{
    match c {
        '"' => text.push_str("\\\""),
        '\\' => text.push_str("\\\\"),
        '&' => text.push_str("&amp;"),
        _ => text.push(c),
    }
}

// The arrows to a job.
fn push_arrows(
    text: &mut String,
    graph: &Graph,
    plan: &Plan,
    charges: &Charges,
    number: usize,
) -> Result<(), AllocError>
    requires job { number < length graph.now }
    requires marks { length plan.now.marks ≡ length graph.now }
    requires charges { IsCounted graph.now charges.now }
    ensures { OnOk result (string_bytes text.new ≡ string_bytes text.old
        ++ arrows plan.now.marks number (vertex graph.now number).parents
        (passes charges.now number)) }
{
    let amounts = passes_of(charges, number);
    push_each(text, plan, number, parents_at(graph, number), amounts)
}

// An arrow to a job from each of these.
fn push_each(
    text: &mut String,
    plan: &Plan,
    child: usize,
    parents: &[usize],
    amounts: &[u64],
) -> Result<(), AllocError>
    requires child { child < length plan.now.marks }
    requires below { All (λ parent. parent < child) parents.now }
    requires amounts { length amounts.now ≡ length parents.now }
    ensures { OnOk result (string_bytes text.new ≡ string_bytes text.old
        ++ arrows plan.now.marks child parents.now amounts.now) }
{
    for i in 0..parents.len() {
        push_arrow(text, plan, parents[i], child, amounts[i])?;
    }
    Ok(())
}

fn passes_of(charges: &Charges, number: usize) -> &[u64]
    requires { number < length charges.now.pass }
    ensures { result.now ≡ passes charges.now number }
{
    charges.pass.as_slice()[number].as_slice()
}

fn push_arrow(
    text: &mut String,
    plan: &Plan,
    parent: usize,
    child: usize,
    amount: u64,
) -> Result<(), AllocError>
    requires parent { parent < length plan.now.marks }
    requires child { child < length plan.now.marks }
    ensures { OnOk result (string_bytes text.new ≡ string_bytes text.old
        ++ arrow plan.now.marks parent child amount) }
{
    let end = arrow_end(is_same(mark_at(plan, parent), mark_at(plan, child)));
    push_ends(text, parent, child, amount)?;
    text.push_str(end)
}

fn push_ends(text: &mut String, parent: usize, child: usize, amount: u64) -> Result<(), AllocError>
    ensures { OnOk result (string_bytes text.new ≡ string_bytes text.old
        ++ arrow_ends parent child amount) }
{
    write!(text, "{parent} -> {child} [label=\"{amount}\"")
}

fn arrow_end(is_inside: bool) -> &'static str
    ensures { result.now ≡ arrow_end is_inside }
{
    if is_inside {
        "]\n"
    } else {
        ", style=dashed, color=red]\n"
    }
}

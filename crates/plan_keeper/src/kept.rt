//! Plans of vertices that stand apart, which are kept while their graphs change at one vertex after the other.
//!
//! Such a vertex has its mark and its charges by itself; only the parents of what is computed are marked for its sake. So a
//! change of one vertex changes no more than its own mark and charges, and the marks of its parents.

ghost use Rattle.std.specs.Prelude.{◌≡◌, ◌≤◌, ◌<◌, ◌∷◌, ◌++◌, ◌↔◌, [], All, Contains, IfErr, IfOk, IfSome, IsSome, IsTrue, length, slice_index, slice_set};
ghost use Rattle.plan_checker.specs.Graph.{IsGraph, IsRefusedLast, vertex};
ghost use Rattle.plan_checker.specs.declared.plan.Mark.TheVariants.{Compute};
ghost use Rattle.plan_keeper.specs.Apart.{AreApart, StandsApart, alone, charge, no_passes};
ghost use Rattle.plan_keeper.specs.Kept.{AreRemarked, IsKeptApart, IsLeft, IsMarkApart, IsRemarked, freed, uncharged};
ghost use Rattle.plan_keeper.specs.Loads.{LoadsFor};

use crate::apart::{charge_of, load_parents, mark_alone, plan_apart, stands_apart, zeros};
use crate::cost::plan_cost;
use crate::planned::Planned;
use plain_data::Items;
use plan_checker::{Charges, Graph, GraphError, MOST_COST, Mark, Plan, Vertex};
use std::alloc::{AllocError, Global};
use std::mem;

/// Plans a graph in which each vertex that is computed by itself has free parents alone; gives another graph back.
pub fn keep_apart(alloc: Global, graph: Graph) -> Result<Result<Planned, Graph>, AllocError>
    ensures kept { IfOk result (λ found. IfOk found (λ kept.
        IsKeptApart kept × (kept.graph ≡ graph))) }
    ensures given_back { IfOk result (λ found. IfErr found (λ back.
        (¬ AreApart graph) × (back ≡ graph))) }
{
    let Some((plan, charges)) = plan_apart(alloc, &graph)? else {
        return Ok(Err(graph));
    };
    let cost = plan_cost(&graph, &plan);
    Ok(Ok(Planned {
        graph,
        plan,
        charges,
        cost,
    }))
}

/// Makes a vertex free, as that of a job that has ended, and brings its plan up to date.
pub fn free_vertex(alloc: Global, planned: &mut Planned, number: usize, compute: u64, needed: bool)
    requires kept { IsKeptApart planned.old }
    requires there { number < length planned.old.graph }
    requires compute { (1 ≤ compute) × (compute ≤ MOST_COST) }
    ensures kept { IsKeptApart planned.new }
    ensures freed { planned.new.graph ≡ slice_set planned.old.graph number
        (freed (vertex planned.old.graph number) compute needed) }
{
    let was = mark_alone(&planned.graph.vertices()[number]);
    planned.graph.set(number, Some(0), compute, needed);
    planned.cost -= uncharge(alloc, &mut planned.charges, number);
    let mut marks = mem::replace(&mut planned.plan.marks, Items::new(alloc)).into_vec();
    remark(&mut marks, &planned.graph, number, was);
    mem::drop(mem::replace(&mut planned.plan.marks, Items::from_vec(marks)));
}

/// Takes away the charges of a vertex, and returns what they were.
fn uncharge(alloc: Global, charges: &mut Charges, number: usize) -> u64
    requires enter { number < length charges.old.enter }
    requires through { number < length charges.old.through }
    requires pay { number < length charges.old.pay }
    ensures charged { result ≡ slice_index charges.old.enter number }
    ensures taken { charges.new ≡ uncharged charges.old number }
{
    let charged = charges.enter.as_slice()[number];
    clear(alloc, &mut charges.enter, number);
    clear(alloc, &mut charges.through, number);
    clear(alloc, &mut charges.pay, number);
    charged
}

/// Sets an amount to nothing.
fn clear(alloc: Global, amounts: &mut Items<u64>, number: usize)
    requires { number < length amounts.old }
    ensures { amounts.new ≡ slice_set amounts.old number 0 }
{
    let mut held = mem::replace(amounts, Items::new(alloc)).into_vec();
    held[number] = 0;
    mem::drop(mem::replace(amounts, Items::from_vec(held)));
}

/// Marks a vertex anew where it was marked otherwise by itself, and its parents where it was computed: no child of it is
/// computed then.
fn remark(marks: &mut Vec<Mark>, graph: &Graph, number: usize, was: Mark)
    requires counted { length marks.old.items ≡ length graph.now }
    requires there { number < length graph.now }
    requires left { was ≡ Compute → IsLeft graph.now number }
    ensures remarked { IsRemarked graph.now marks.old.items marks.new.items number was }
    ensures within { IsGraph graph.now }
{
    let vertex = &graph.vertices()[number];
    let own = mark_alone(vertex);
    if was == Mark::Compute {
        marks[number] = own;
        remark_all(marks, graph, vertex.parents.as_slice());
    } else if was != own {
        marks[number] = mark_now(graph, number);
    }
}

/// Marks vertices anew.
fn remark_all(marks: &mut Vec<Mark>, graph: &Graph, numbers: &[usize])
    requires counted { length marks.old.items ≡ length graph.now }
    requires there { All (λ number. number < length graph.now) numbers.now }
    ensures { AreRemarked graph.now marks.old.items marks.new.items numbers.now
        (length numbers.now) }
{
    for place in 0..numbers.len() {
        let number = numbers[place];
        marks[number] = mark_now(graph, number);
    }
}

/// The mark of a vertex: it is loaded where a child of it is computed, and else marked by itself. What is loaded by itself needs
/// no look at its children.
fn mark_now(graph: &Graph, number: usize) -> Mark
    requires { number < length graph.now }
    ensures { IsMarkApart graph.now number result }
{
    let own = mark_alone(&graph.vertices()[number]);
    if own == Mark::Load || is_left(graph, number) {
        own
    } else {
        Mark::Load
    }
}

/// Whether no child of this vertex is computed.
fn is_left(graph: &Graph, number: usize) -> bool
    requires { number < length graph.now }
    ensures { IsTrue result ↔ IsLeft graph.now number }
{
    let vertices = graph.vertices();
    for child in graph.children(number) {
        if mark_alone(&vertices[child.vertex]) == Mark::Compute {
            return false;
        }
    }
    true
}

/// Adds a vertex after the others, where it isn't computed by itself or has free parents alone, and plans it; none where it isn't so.
pub fn add_vertex(
    alloc: Global,
    planned: Planned,
    vertex: Vertex,
) -> Result<Option<Planned>, GraphError>
    requires { IsKeptApart planned }
    ensures apart { IfOk result (λ found. IsSome found ↔ StandsApart planned.graph vertex) }
    ensures kept { IfOk result (λ found. IfSome found (λ kept.
        IsKeptApart kept × (kept.graph ≡ planned.graph ++ vertex ∷ []))) }
    ensures refused { IfErr result (IsRefusedLast planned.graph vertex) }
{
    if !stands_apart(planned.graph.vertices(), &vertex) {
        return Ok(None);
    }
    let Planned {
        graph,
        plan,
        charges,
        cost,
    } = planned;
    let graph = graph.with(vertex)?;
    let vertices = graph.vertices();
    let added = &vertices[vertices.len() - 1];
    let plan = with_mark(plan, added)?;
    let charges = with_charge(alloc, charges, added)?;
    let cost = cost + charge_of(added);
    Ok(Some(Planned {
        graph,
        plan,
        charges,
        cost,
    }))
}

/// Marks one more vertex, and its parents as loaded where it is computed.
fn with_mark(plan: Plan, vertex: &Vertex) -> Result<Plan, AllocError>
    requires { All (λ parent. parent < length plan.marks) vertex.now.parents }
    ensures { IfOk result (λ made. LoadsFor (plan.marks ++ alone vertex.now ∷ []) made.marks
        vertex.now.parents (alone vertex.now)) }
{
    let mut marks = plan.marks.into_vec();
    marks.push(mark_alone(vertex))?;
    load_parents(&mut marks, vertex);
    Ok(Plan {
        marks: Items::from_vec(marks),
    })
}

/// Charges one more vertex.
fn with_charge(alloc: Global, charges: Charges, vertex: &Vertex) -> Result<Charges, AllocError>
    ensures { IfOk result (λ made. made ≡ record {
      enter = charges.enter ++ charge vertex.now ∷ [];
      through = charges.through ++ charge vertex.now ∷ [];
      pay = charges.pay ++ charge vertex.now ∷ [];
      pass = charges.pass ++ no_passes vertex.now ∷ [];
    }) }
{
    let amount = charge_of(vertex);
    let row = zeros(alloc, vertex.parents.as_slice())?;
    let Charges {
        mut enter,
        mut through,
        mut pay,
        mut pass,
    } = charges;
    enter.push(amount)?;
    through.push(amount)?;
    pay.push(amount)?;
    pass.push(row)?;
    Ok(Charges {
        enter,
        through,
        pay,
        pass,
    })
}

//! The plan of the jobs that are known, where few were touched since the last one.
ghost use Rattle.std.specs.Prelude.{◌≡◌, ◌≢◌, ◌≤◌, ◌↔◌, ◌⊎◌, ℕ, ◌+◌, ◌-◌, ◌<◌, ◌++◌, IfErr, IfOk, IfSome, IsSome, IsTrue, MatchOption, None, OnOk, Some, false, length, map, slice_index_or, slice_set};
ghost use Rattle.job_graph.specs.PresentJobGraph.{AreWithin, needed_among, present_job_graph};
ghost use Rattle.job_graph.specs.Unfolding.{Blames};
ghost use Rattle.job_graph.specs.declared.fault.UnfoldError.{UnfoldError};
ghost use Rattle.plan_checker.specs.Graph.{vertex};
ghost use Rattle.plan_keeper.specs.Kept.{IsKeptApart};
ghost use Rattle.run_plan.specs.Brought.{AreFree, AreFreeing, CanBeBrought, IsGraphApart, StaysApart};
ghost use Rattle.run_plan.specs.inner.Again.{IsBrought, vertex_of, vertices_of};
ghost use Rattle.run_plan.specs.Planned.{IsPlanOf};
ghost use Rattle.run_plan.specs.Touched.{AreOfFirst, costs_after, costs_in, graph_in, patched};
ghost use Rattle.run_plan.specs.inner.Flagged.{AreFlaggedBelow, HaveParents, IsFlaggedEither, IsFlaggedOrFree, IsFreedAs, parents_at};
ghost use Rattle.run_plan.specs.inner.Kept.{flags_in};

use crate::again::{added, bring_one};
use crate::flags::first_other;
use crate::kept::KeptPlan;
use job_graph::{Costs, KnownJob, UnfoldError, Unfolding};
use plain_data::Items;
use plan_checker::{MOST_COST, Vertex};
use plan_keeper::{Planned, kept_is_planned};
use std::alloc::{AllocError, Global};
use std::mem;

/// Plans the present job graph of the jobs that are known by the last plan, and takes that away. Its graph must be one of the first
/// of these jobs. They cost what they do there, but for these that have changed, each with its number; the later jobs have these costs.
/// Returns the last plan, brought up to date, where it can be; else no plan, and then `plan_on` makes it anew. After a refused `learn`
/// it answers that refusal, and the last plan stays.
pub fn plan_touched(
    alloc: Global,
    known: &mut Unfolding<'_>,
    changed: &[(usize, Costs)],
    later: &[Costs],
    last: &mut Option<KeptPlan>,
) -> Result<Option<KeptPlan>, UnfoldError>
    requires each { length (graph_in last.old) + length later.now ≡ length known.old.known }
    requires first { AreOfFirst (graph_in last.old) known.old.known }
    ensures ok { IfOk result (λ found. IfSome found (IsPlanOf (present_job_graph known.old.learned
        known.old.known known.old.outs
        (costs_after (graph_in last.old) changed.now later.now)))) }
    ensures brought { IfOk result (λ found. IsSome found
        ↔ (AreFreeing (map costs_in (graph_in last.old)) changed.now
        × CanBeBrought last.old (present_job_graph known.old.learned known.old.known known.old.outs
        (costs_after (graph_in last.old) changed.now later.now)))) }
    ensures taken { OnOk result (last.new ≡ None) }
    ensures goes_on { OnOk result (known.old.refused ≡ None) }
    ensures err { IfErr result (Blames known.old.refused) }
    ensures known { known.new ≡ known.old }
    ensures stays { IfErr result (λ error. error ≢ UnfoldError.OutOfMemory
        → last.new ≡ last.old) }
{
    let needed = known.needed()?;
    match apart_of(mem::replace(last, None)) {
        None => Ok(None),
        Some(apart) => {
            let found = plan_few(alloc, known, changed, later, needed, apart)?;
            Ok(found)
        }
    }
}

/// The plan, if there is one that can be brought up to date, and whether each vertex of its graph is needed.
fn apart_of(last: Option<KeptPlan>) -> Option<(Planned, Vec<bool>)>
    ensures kept { IfSome result (λ kept. IsKeptApart kept.0 × (kept.0.graph ≡ graph_in last)
        × (kept.1.items ≡ flags_in kept.0.graph)) }
    ensures exact { MatchOption result ((graph : _) → ¬ CanBeBrought last graph)
        (λ kept. (graph : _) → CanBeBrought last graph ↔ StaysApart kept.0.graph graph) }
{
    match last {
        None => None,
        Some(kept) => match kept.into_apart() {
            Ok(kept) => Some(kept),
            Err(made) => {
                mem::drop(made);
                None
            }
        },
    }
}

/// Brings the plan before up to date, which has these flags.
fn plan_few(
    alloc: Global,
    known: &Unfolding<'_>,
    changed: &[(usize, Costs)],
    later: &[Costs],
    needed: Vec<bool>,
    apart: (Planned, Vec<bool>),
) -> Result<Option<KeptPlan>, AllocError>
    requires kept { IsKeptApart apart.0 }
    requires flags { apart.1.items ≡ flags_in apart.0.graph }
    requires each { length apart.0.graph + length later.now ≡ length known.now.known }
    requires first { AreOfFirst apart.0.graph known.now.known }
    requires needed { needed.items
        ≡ needed_among known.now.learned known.now.outs known.now.known }
    ensures ok { IfOk result (λ found. IfSome found (IsPlanOf (present_job_graph known.now.learned
        known.now.known known.now.outs (costs_after apart.0.graph changed.now later.now)))) }
    ensures brought { IfOk result (λ found. IsSome found
        ↔ (AreFreeing (map costs_in apart.0.graph) changed.now
        × StaysApart apart.0.graph (present_job_graph known.now.learned
        known.now.known known.now.outs (costs_after apart.0.graph changed.now later.now)))) }
{
    kept_is_planned();
    let (made, flags) = apart;
    let before = flags.as_slice();
    match brought(
        alloc,
        made,
        before,
        known.known(),
        changed,
        later,
        needed.as_slice(),
    )? {
        Some(made) => Ok(Some(KeptPlan::apart(made, needed))),
        None => Ok(None),
    }
}

/// The plan before, brought up to date; none where that can't be.
fn brought(
    alloc: Global,
    made: Planned,
    before: &[bool],
    known: &[KnownJob<'_>],
    changed: &[(usize, Costs)],
    later: &[Costs],
    needed: &[bool],
) -> Result<Option<Planned>, AllocError>
    requires kept { IsKeptApart made }
    requires before { before.now ≡ flags_in made.graph }
    requires each { length made.graph + length later.now ≡ length known.now }
    requires parents { HaveParents known.now made.graph }
    requires needed { length needed.now ≡ length known.now }
    ensures made { IfOk result (λ found. IfSome found (λ more. IsKeptApart more
        × (more.graph ≡ vertices_of known.now (costs_after made.graph changed.now later.now)
        needed.now))) }
    ensures found { IfOk result (λ found. IsSome found
        ↔ (AreFreeing (map costs_in made.graph) changed.now × StaysApart made.graph
        (vertices_of known.now (costs_after made.graph changed.now later.now) needed.now))) }
{
    let mut made = made;
    if !bring_changed(alloc, &mut made, known, changed, needed) {
        return Ok(None);
    }
    if !bring_flags(alloc, &mut made, before, known, needed) {
        return Ok(None);
    }
    add_later(alloc, made, known, later, needed)
}

/// Brings the costs up to date that have changed. Returns whether they are.
fn bring_changed(
    alloc: Global,
    made: &mut Planned,
    known: &[KnownJob<'_>],
    changed: &[(usize, Costs)],
    needed: &[bool],
) -> bool
    requires kept { IsKeptApart made.old }
    requires known { length made.old.graph ≤ length known.now }
    requires parents { HaveParents known.now made.old.graph }
    requires needed { length needed.now ≡ length known.now }
    ensures kept { IsKeptApart made.new }
    ensures count { length made.new.graph ≡ length made.old.graph }
    ensures parents { IsTrue result → HaveParents known.now made.new.graph }
    ensures costs { IsTrue result → map costs_in made.new.graph
        ≡ patched (map costs_in made.old.graph) changed.now }
    ensures exact { IsTrue result ↔ AreFreeing (map costs_in made.old.graph) changed.now }
    ensures freed { IsTrue result → (n : ℕ) → (vertex made.new.graph n
        ≡ vertex made.old.graph n) ⊎ IsFreedAs needed.now made.new.graph n }
{
    for one in changed {
        if !bring_costs(alloc, made, known, one.0, one.1, needed) {
            return false;
        }
    }
    true
}

/// Brings the costs of a vertex up to date, if there is one of this number. Returns whether they are.
#[tactic(auto, using(crate::proofs::FewBrought::costs_past, crate::proofs::FewBrought::nothing_there, crate::proofs::FewBrought::costs_kept))]
fn bring_costs(
    alloc: Global,
    made: &mut Planned,
    known: &[KnownJob<'_>],
    number: usize,
    costs: Costs,
    needed: &[bool],
) -> bool
    requires kept { IsKeptApart made.old }
    requires known { length made.old.graph ≤ length known.now }
    requires parents { HaveParents known.now made.old.graph }
    requires needed { length needed.now ≡ length known.now }
    ensures kept { IsKeptApart made.new }
    ensures count { length made.new.graph ≡ length made.old.graph }
    ensures parents { IsTrue result → HaveParents known.now made.new.graph }
    ensures costs { IsTrue result → map costs_in made.new.graph
        ≡ slice_set (map costs_in made.old.graph) number costs }
    ensures exact { IsTrue result ↔ (AreFree costs
        ⊎ (slice_index_or (map costs_in made.old.graph) number costs ≡ costs)) }
    ensures freed { IsTrue result → (n : ℕ) → (vertex made.new.graph n
        ≡ vertex made.old.graph n) ⊎ IsFreedAs needed.now made.new.graph n }
{
    if number >= made.graph.vertices().len() {
        return true;
    }
    if costs_are(made, number, costs) {
        return true;
    }
    if !are_free(costs) {
        return false;
    }
    bring_one(
        alloc,
        made,
        number,
        parents_of(known, number),
        costs,
        needed[number],
    )
}

/// Whether a vertex has these costs.
fn costs_are(made: &Planned, number: usize, costs: Costs) -> bool
    requires { number < length made.now.graph }
    ensures { IsTrue result ↔ (slice_index_or (map costs_in made.now.graph) number costs ≡ costs) }
{
    let vertex = &made.graph.vertices()[number];
    vertex.load == costs.load && vertex.compute == costs.compute
}

/// Whether these are the costs of a free vertex.
fn are_free(costs: Costs) -> bool
    ensures { IsTrue result ↔ AreFree costs }
{
    costs.load == Some(0) && 1 <= costs.compute && costs.compute <= MOST_COST
}

/// Brings the vertices up to date that are needed no more; each one is needed as it was before, or as it is now. Returns whether they are.
fn bring_flags(
    alloc: Global,
    made: &mut Planned,
    before: &[bool],
    known: &[KnownJob<'_>],
    needed: &[bool],
) -> bool
    requires kept { IsKeptApart made.old }
    requires before { length before.now ≡ length made.old.graph }
    requires either { (n : ℕ) → n < length made.old.graph
        → IsFlaggedEither before.now needed.now made.old.graph n }
    requires known { length made.old.graph ≤ length known.now }
    requires parents { HaveParents known.now made.old.graph }
    requires needed { length needed.now ≡ length known.now }
    ensures kept { IsKeptApart made.new }
    ensures count { length made.new.graph ≡ length made.old.graph }
    ensures costs { IsTrue result → map costs_in made.new.graph
        ≡ map costs_in made.old.graph }
    ensures flagged { IsTrue result → AreFlaggedBelow known.now needed.now made.new.graph
        (length made.old.graph) }
    ensures exact { IsTrue result ↔ ((n : ℕ) → n < length made.old.graph
        → IsFlaggedOrFree needed.now made.old.graph n) }
{
    let mut number = first_other(before, needed, 0);
    while number < before.len() {
        if !bring_flag(alloc, made, known, needed, number) {
            return false;
        }
        number = first_other(before, needed, number + 1);
    }
    true
}

/// Brings a vertex up to date that costs what it did. Returns whether it is.
fn bring_flag(
    alloc: Global,
    made: &mut Planned,
    known: &[KnownJob<'_>],
    needed: &[bool],
    number: usize,
) -> bool
    requires kept { IsKeptApart made.old }
    requires there { number < length made.old.graph }
    requires known { length made.old.graph ≤ length known.now }
    requires parents { (vertex made.old.graph number).parents ≡ parents_at known.now number }
    requires needed { length needed.now ≡ length known.now }
    ensures kept { IsKeptApart made.new }
    ensures count { length made.new.graph ≡ length made.old.graph }
    ensures brought { IsTrue result → IsBrought made.old.graph made.new.graph number
        (vertex_of (parents_at known.now number) (costs_in (vertex made.old.graph number))
        (slice_index_or needed.now number false)) }
    ensures exact { IsTrue result ↔ IsFlaggedOrFree needed.now made.old.graph number }
{
    let vertex = &made.graph.vertices()[number];
    if is_flagged(vertex, needed[number]) {
        return true;
    }
    let costs = costs_in(vertex);
    bring_one(
        alloc,
        made,
        number,
        parents_of(known, number),
        costs,
        needed[number],
    )
}

/// Whether a vertex is needed or not as this says.
fn is_flagged(vertex: &Vertex, needed: bool) -> bool
    ensures same { IsTrue result → vertex.now
        ≡ vertex_of vertex.now.parents (costs_in vertex.now) needed }
    ensures exact { IsTrue result ↔ (vertex.now.needed ≡ needed) }
{
    vertex.needed == needed
}

/// What a vertex costs.
fn costs_in(vertex: &Vertex) -> Costs
    ensures { result ≡ costs_in vertex.now }
{
    Costs {
        load: vertex.load,
        compute: vertex.compute,
    }
}

/// Adds the vertices of the later jobs.
fn add_later(
    alloc: Global,
    made: Planned,
    known: &[KnownJob<'_>],
    later: &[Costs],
    needed: &[bool],
) -> Result<Option<Planned>, AllocError>
    requires kept { IsKeptApart made }
    requires flagged { AreFlaggedBelow known.now needed.now made.graph (length made.graph) }
    requires each { length made.graph + length later.now ≡ length known.now }
    requires needed { length needed.now ≡ length known.now }
    ensures made { IfOk result (λ found. IfSome found (λ more. IsKeptApart more
        × (more.graph ≡ vertices_of known.now (map costs_in made.graph ++ later.now)
        needed.now))) }
    ensures found { IfOk result (λ found. IsSome found
        ↔ IsGraphApart (vertices_of known.now (map costs_in made.graph ++ later.now)
        needed.now)) }
{
    let mut made = made;
    let count = made.graph.vertices().len();
    for index in 0..later.len() {
        let vertex = later_vertex(alloc, known, needed, count + index, later[index])?;
        match added(alloc, made, vertex)? {
            Some(more) => made = more,
            None => return Ok(None),
        }
    }
    Ok(Some(made))
}

/// The vertex of a later job.
fn later_vertex(
    alloc: Global,
    known: &[KnownJob<'_>],
    needed: &[bool],
    number: usize,
    costs: Costs,
) -> Result<Vertex, AllocError>
    requires known { number < length known.now }
    requires needed { length needed.now ≡ length known.now }
    ensures { IfOk result (λ vertex. vertex ≡ vertex_of (parents_at known.now number) costs
        (slice_index_or needed.now number false)) }
{
    let parents = Vec::from_slice(alloc, parents_of(known, number))?;
    Ok(Vertex {
        load: costs.load,
        compute: costs.compute,
        parents: Items::from_vec(parents),
        needed: needed[number],
    })
}

/// The numbers of the parents of a known job.
fn parents_of<'k>(known: &'k [KnownJob<'_>], number: usize) -> &'k [usize]
    requires { number < length known.now }
    ensures { result.now ≡ parents_at known.now number }
{
    known[number].parents.as_slice()
}

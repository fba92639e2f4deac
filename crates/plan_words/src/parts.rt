//! What belongs to a job, by its number.
ghost use Rattle.std.specs.Prelude.{◌≡◌, ◌<◌, length, All};
ghost use Rattle.plan_checker.specs.Graph.{FitsAt, vertex};
ghost use Rattle.plan_checker.specs.Plan.{mark};
ghost use Rattle.plan_words.specs.Lines.{place};
ghost use Rattle.plan_words.specs.Marks.{is_same};

use plain_data::Text;
use plan_checker::{Graph, Mark, Plan, Vertex};

pub fn job_at(graph: &Graph, number: usize) -> &Vertex
    requires { number < length graph.now }
    ensures value { result.now ≡ vertex graph.now number }
    ensures fits { FitsAt graph.now number }
{
    &graph.vertices()[number]
}

/// The jobs that a job reads.
pub fn parents_at(graph: &Graph, number: usize) -> &[usize]
    requires { number < length graph.now }
    ensures value { result.now ≡ (vertex graph.now number).parents }
    ensures below { All (λ parent. parent < number) result.now }
{
    job_at(graph, number).parents.as_slice()
}

pub fn mark_at(plan: &Plan, number: usize) -> Mark
    requires { number < length plan.now.marks }
    ensures { result ≡ mark plan.now.marks number }
{
    plan.marks.as_slice()[number]
}

pub fn place_at(places: &[Text], number: usize) -> &Text
    requires { number < length places.now }
    ensures { result.now ≡ place places.now number }
{
    &places[number]
}

/// Whether two marks are the same.
pub fn is_same(one: Mark, other: Mark) -> bool
    ensures { result ≡ is_same one other }
{
    match one {
        Mark::Load => matches!(other, Mark::Load),
        Mark::Compute => matches!(other, Mark::Compute),
        Mark::Prune => matches!(other, Mark::Prune),
    }
}

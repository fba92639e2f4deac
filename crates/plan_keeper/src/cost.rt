//! What a plan costs.

ghost use Rattle.std.specs.Prelude.{◌≡◌, ℕ, ◌≤◌, length};
ghost use Rattle.plan_checker.specs.Graph.{Fits, IsGraph};
ghost use Rattle.plan_checker.specs.Plan.{cost, cost_of};

use plan_checker::{Graph, MOST_COST, Mark, Plan, Vertex};

/// What a plan of a graph costs: a sum over its vertices.
pub fn plan_cost(graph: &Graph, plan: &Plan) -> u64
    requires { length plan.now.marks ≡ length graph.now }
    ensures { result ≡ cost graph.now plan.now.marks }
{
    cost_of_marks(graph.vertices(), plan.marks.as_slice())
}

fn cost_of_marks(vertices: &[Vertex], marks: &[Mark]) -> u64
    requires counted { length marks.now ≡ length vertices.now }
    requires graph { IsGraph vertices.now }
    ensures { result ≡ cost vertices.now marks.now }
{
    let mut total = 0;
    for (i, vertex) in vertices.iter().enumerate() {
        total += vertex_cost(vertex, marks[i]);
    }
    total
}

/// What a vertex costs under a mark.
fn vertex_cost(vertex: &Vertex, mark: Mark) -> u64
    requires { (number : ℕ) × (entries : ℕ) × Fits number entries vertex.now }
    ensures value { result ≡ cost_of vertex.now mark }
    ensures small { result ≤ MOST_COST }
{
    match mark {
        Mark::Load => vertex.load.unwrap_or(0),
        Mark::Compute => vertex.compute,
        Mark::Prune => 0,
    }
}

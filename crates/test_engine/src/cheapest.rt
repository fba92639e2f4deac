//! The least that a graph costs, found by trying each plan.
ghost use Rattle.std.specs.Prelude.{◌≤◌};

use plan_checker::Vertex;

/// The most vertices of a graph whose plans are tried.
pub const MOST_TRIED: usize = 16;

/// The least cost of a graph of few vertices over all its plans. None where it has more vertices, or no plan.
///
/// A plan is settled by which vertices it computes: of the others it loads those that are needed, or are parents of a vertex that it
/// computes, and prunes the rest.
pub fn least_cost(vertices: &[Vertex]) -> Option<u64> {
    if vertices.len() > MOST_TRIED {
        return None;
    }
    let mut least: Option<u64> = None;
    for computed in 0..sets_of(vertices.len()) {
        least = match (least, cost_of(vertices, computed)) {
            (Some(least), Some(cost)) => Some(least.min(cost)),
            (None, cost) => cost,
            (least, None) => least,
        };
    }
    least
}

// How many sets of so many vertices there are. A set is a number, with a bit for each vertex.
fn sets_of(count: usize) -> u64
    requires { count ≤ 16 }
{
    1 << count
}

/// What it costs to compute just these vertices, where the others that are wanted can be loaded. Each vertex is met after all that read it.
fn cost_of(vertices: &[Vertex], computed: u64) -> Option<u64> {
    let mut cost: u64 = 0;
    let mut wanted: u64 = 0;
    for number in (0..vertices.len()).rev() {
        let vertex = &vertices[number];
        if has(computed, number) {
            cost = cost.saturating_add(vertex.compute);
            wanted = with_all(wanted, vertex.parents.as_slice());
        } else if vertex.needed || has(wanted, number) {
            cost = cost.saturating_add(vertex.load?);
        }
    }
    Some(cost)
}

fn with_all(set: u64, numbers: &[usize]) -> u64 {
    let mut set = set;
    for number in numbers {
        if *number < MOST_TRIED {
            set |= 1 << *number;
        }
    }
    set
}

fn has(set: u64, number: usize) -> bool {
    number < MOST_TRIED && (set >> number) % 2 == 1
}

//! What it costs to have a job's outputs.
ghost use Rattle.std.specs.Prelude.{◌≤◌};
ghost use Rattle.job_graph.specs.LoadCosts.{IsLoadCost};

use plan_checker::MOST_COST;

/// The costs of a known job: each is at most `plan_checker::MOST_COST`, and computing costs 1 at least.
#[derive(Clone, Copy, Debug, Drop)]
pub struct Costs {
    /// What it costs to load the job's outputs, where they can be loaded.
    pub load: Option<u64>,
    /// What it costs to compute the job, once its parents' outputs are there.
    pub compute: u64,
}

/// Returns what it costs to load files of so many bytes in all: the base, and the bytes over the rate, rounded up.
pub fn load_cost(base: u64, rate: u64, bytes: u64) -> u64
    requires base { base ≤ MOST_COST }
    requires rate { (1 ≤ rate) × (rate ≤ MOST_COST) }
    ensures { IsLoadCost base rate bytes result }
{
    base.saturating_add(bytes.div_ceil(rate)).min(MOST_COST)
}

//! What it costs to have the outputs of a job, as a run knows it.
ghost use Rattle.std.specs.Prelude.{◌≡◌, ◌≤◌, ◌↔◌, Bool, IsTrue, None, option_copied};
ghost use Rattle.std.specs.Option.{ForSome};
ghost use Rattle.job_graph.specs.PresentJobGraph.{AreWithin};
ghost use Rattle.run_plan.specs.Costs.{LoadRates, cost_to_compute, cost_to_load, costs_of, load_cost_of};

use job_graph::{Costs, load_cost};
use job_reuse::file_bytes;
use job_rows::Row;
use plan_checker::MOST_COST;
use std::marker::Model;

/// What a job is taken to cost that was never seen to run.
pub const UNKNOWN_COST: u64 = 1000;

/// What loading costs: a base for each load, and 1 for each so many bytes.
#[derive(Drop)]
pub struct Rates {
    base: u64,
    rate: u64,
}

impl Model for Rates {
    ghost use Rattle.run_plan.specs.Costs.{AreRates, LoadRates};

    ghost Value = { LoadRates };

    ghost view = { λ fields. record { base = fields.base; rate = fields.rate } };

    ghost invariant = { λ fields. AreRates (record { base = fields.base; rate = fields.rate }) };
}

impl Rates {
    /// What any load costs, and how many bytes are loaded for a cost of 1.
    pub fn new(base: u64, rate: u64) -> Rates
        requires base { base ≤ MOST_COST }
        requires rate { (1 ≤ rate) × (rate ≤ MOST_COST) }
        ensures { result ≡ record { base = base; rate = rate } }
    {
        Rates { base, rate }
    }

    /// The same rates.
    pub fn copied(&self) -> Rates
        ensures { result ≡ self.now }
    {
        Rates {
            base: self.base,
            rate: self.rate,
        }
    }

    /// Whether these are the same rates.
    pub fn are(&self, other: &Rates) -> bool
        ensures { IsTrue result ↔ self.now ≡ other.now }
    {
        self.base == other.base && self.rate == other.rate
    }

    /// Returns what it costs to load files of so many bytes in all.
    fn cost(&self, bytes: u64) -> u64
        ensures cost { result ≡ cost_to_load self.now bytes }
        ensures within { result ≤ MOST_COST }
    {
        load_cost(self.base, self.rate, bytes)
    }
}

/// What a run knows of a job.
#[derive(Clone, Copy, Drop)]
pub struct Standing<'r> {
    /// Whether it is in flight, or its outputs are at hand.
    pub held: bool,
    /// Whether the files of its row can be fetched.
    pub archived: bool,
    /// The row that was found for it.
    pub row: Option<&'r Row>,
}

/// Returns the costs of a job: what is held loads at nothing, and what is archived by the bytes of its row's files; to compute
/// it costs what its row says.
pub fn costs_of(standing: Standing<'_>, rates: &Rates) -> Costs
    ensures costs { result ≡ costs_of rates.now standing.entry.held standing.entry.archived
        (option_copied standing.entry.row) }
    ensures within { AreWithin result }
{
    Costs {
        load: load_of(standing, rates),
        compute: compute_of(standing.row),
    }
}

/// Returns the costs of a job without a row: nothing of it can be loaded but what is held. Most jobs of a first run are such.
pub fn costs_without_row(held: bool) -> Costs
    ensures costs { (rates : LoadRates) (archived : Bool) → result
        ≡ costs_of rates held archived None }
    ensures within { AreWithin result }
{
    Costs {
        load: if held { Some(0) } else { None },
        compute: UNKNOWN_COST,
    }
}

fn load_of(standing: Standing<'_>, rates: &Rates) -> Option<u64>
    ensures cost { result ≡ load_cost_of rates.now standing.entry.held standing.entry.archived
        (option_copied standing.entry.row) }
    ensures within { ForSome result (λ cost. cost ≤ MOST_COST) }
{
    if standing.held {
        return Some(0);
    }
    match standing.row {
        Some(row) if standing.archived => Some(rates.cost(file_bytes(row))),
        _ => None,
    }
}

fn compute_of(row: Option<&Row>) -> u64
    ensures cost { result ≡ cost_to_compute (option_copied row.entry) }
    ensures within { (1 ≤ result) × (result ≤ MOST_COST) }
{
    match row {
        None => UNKNOWN_COST,
        Some(row) => row.cost.clamp(1, MOST_COST),
    }
}

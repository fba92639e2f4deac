//! Laws of rows: each is the contract of a function that does nothing.
ghost use Rattle.job_rows.specs.Storable.{OutputsReadBack};
ghost use Rattle.job_rows.specs.InStep.{StaysInStep, AlwaysKeepsBudget};

/// Outputs that a record keeps are read back from their JSON as they were.
#[tactic(auto, using(crate::proofs::ReadBack::outputs_read_back))]
pub fn outputs_read_back()
    ensures { OutputsReadBack }
{}

/// Each command leaves the rows and the archives of a record in step: a row is archived where its key has an archive.
#[tactic(auto, using(crate::proofs::InStep::stays_in_step))]
pub fn archives_stay_in_step()
    ensures { StaysInStep }
{}

/// A row that is put leaves the archives within the budget, and as many of them as it can: the oldest go first.
pub fn budget_is_kept()
    ensures { AlwaysKeepsBudget }
{}

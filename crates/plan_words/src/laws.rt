//! Why the reasons are right: each law is the contract of a function that does nothing.
ghost use Rattle.plan_words.specs.Laws.{ComputedCostLess, DearLoadsSpareParents, NoComputedJobReadsPruned};

/// What a valid plan does without is read by no job that is computed: each job that reads it is loaded or not needed itself.
pub fn no_computed_job_reads_what_is_pruned()
    ensures { NoComputedJobReadsPruned }
{}

/// A job that a Least plan computes though it could be loaded takes less time to compute.
pub fn computed_jobs_cost_less()
    ensures { ComputedCostLess }
{}

/// If a cheapest plan loads a job that takes less time to compute, it does without something that the job reads.
pub fn dear_loads_spare_parents()
    ensures { DearLoadsSpareParents }
{}

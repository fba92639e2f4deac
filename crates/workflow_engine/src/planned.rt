//! What is planned before anything is done.
use cwl_value::JobPlace;
use plain_data::Items;
use plan_checker::{Charges, Graph, Plan};
use run_core::{Cause, RunFault};
use std::alloc::AllocError;

/// The first plan of a run: the graph of the jobs that are known before anything is started, and what is done with each.
#[derive(Drop)]
pub struct Planned {
    /// The places of the known jobs, by their numbers: one for each vertex of the graph.
    pub places: Items<JobPlace>,
    pub graph: Graph,
    pub plan: Plan,
    /// They certify that no plan costs less.
    pub charges: Charges,
    pub cost: u64,
}

/// Why there is no first plan.
#[derive(Drop)]
pub enum PlanFault {
    /// The process fails before anything is started: an equation at this place has no value.
    Failed(JobPlace, Cause),
    /// The host or the record failed, there are too many jobs, or memory ran out.
    Run(RunFault),
}

impl From<RunFault> for PlanFault {
    ghost use Rattle.workflow_engine.specs.declared.planned.PlanFault.TheVariants.{Run};
    ghost use Rattle.std.specs.Prelude.{◌≡◌};

    ghost from_gives = { λ fault made. made ≡ Run fault };

    fn from(fault: RunFault) -> PlanFault {
        PlanFault::Run(fault)
    }
}

impl From<AllocError> for PlanFault {
    ghost use Rattle.workflow_engine.specs.declared.planned.PlanFault.TheVariants.{Run};
    ghost use Rattle.run_rules.specs.declared.outcome.RunFault.TheVariants.{OutOfMemory};
    ghost use Rattle.std.specs.Prelude.{◌≡◌};

    ghost from_gives = { λ _ made. made ≡ Run OutOfMemory };

    fn from(_error: AllocError) -> PlanFault {
        PlanFault::Run(RunFault::OutOfMemory)
    }
}

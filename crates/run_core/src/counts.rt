//! How the plans of a run came to be.
ghost use Rattle.std.specs.Prelude.{◌≡◌, ◌+◌, ◌<◌, ◌^◌};
ghost use Rattle.run_core.specs.inner.Planning.{counted};

/// How many plans were brought up to date, and how many were made anew.
#[derive(Clone, Copy, Debug, Drop)]
pub struct PlanCounts {
    pub brought: u64,
    pub anew: u64,
}

/// Before any plan.
pub(crate) const NO_PLANS: PlanCounts = PlanCounts {
    brought: 0,
    anew: 0,
};

/// One more plan, which came to be so.
pub(crate) fn counted(brought: bool, counts: PlanCounts) -> PlanCounts
    requires { counts.brought + counts.anew + 1 < 2 ^ 64 }
    ensures { result ≡ counted brought counts }
{
    let mut counts = counts;
    if brought {
        counts.brought += 1;
    } else {
        counts.anew += 1;
    }
    counts
}

//! What holds of all kept plans.

ghost use Rattle.plan_keeper.specs.Laws.{KeptIsPlanned};

/// A plan that is kept of vertices that stand apart is the Least plan, and its charges certify it.
pub fn kept_is_planned()
    ensures { KeptIsPlanned }
{}

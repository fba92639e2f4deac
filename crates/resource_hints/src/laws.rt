//! What follows from the definitions.
ghost use Rattle.resource_hints.specs.Laws.{ElseTheHintAroundCounts, OwnHintCounts, ProcessesHideHintsAround, StepsHideHintsAround};

/// The most specific hint counts, as a whole: a tool's own one, or else the one around it, and inside of a process or step with one nothing
/// that is asked further out.
pub fn the_nearest_hint_counts()
    ensures own { OwnHintCounts }
    ensures around { ElseTheHintAroundCounts }
    ensures processes { ProcessesHideHintsAround }
    ensures steps { StepsHideHintsAround }
{}

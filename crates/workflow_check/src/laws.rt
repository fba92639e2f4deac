//! What follows of the steps of an accepted workflow.
ghost use Rattle.std.specs.Prelude.{◌≡◌, ◌↔◌, None, true, false};
ghost use Rattle.document_links.specs.declared.process.Step.{Step};
ghost use Rattle.document_links.specs.declared.process.Process as process;
ghost use Rattle.document_links.specs.declared.process.Workflow.{Workflow, out-Workflow};
ghost use Rattle.workflow_check.specs.Checked.{fault_in};
ghost use Rattle.workflow_check.specs.Order.{is_cyclic};
ghost use Rattle.workflow_check.specs.Scope.{Named};
ghost use Rattle.workflow_check.specs.Sound.{HasCircle, HasOrder, IsSound};

/// Says that steps without K4 can be put in an order, in which each comes after those that its sources name. So none leads back to
/// itself.
pub fn steps_have_an_order()
    ensures { (steps : Named Step) → is_cyclic steps ≡ false → HasOrder steps }
{}

/// Says what is known of an accepted workflow: each source leads to what is there, scattered names are entries of their step with a
/// method where several are, each step lists outputs that its process has, and the steps have an order. Its steps' processes
/// are accepted ones.
pub fn accepted_workflows_are_sound()
    ensures { (w : Workflow) → fault_in (process.Workflow w) ≡ None → IsSound (out-Workflow w) }
{}

/// Says that K4 is a circle: it is there exactly where a way along the links leads from a step back to itself.
pub fn cycles_are_circles()
    ensures { (steps : Named Step) → (is_cyclic steps ≡ true) ↔ HasCircle steps }
{}

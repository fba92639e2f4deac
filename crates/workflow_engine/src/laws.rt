//! What follows from the definitions alone: each law is the contract of a function that does nothing.
ghost use Rattle.std.specs.Prelude.{◌≡◌, List};
ghost use Rattle.job_graph.specs.Words.{JobPlace};
ghost use Rattle.plan_checker.specs.declared.plan.Mark.{Mark};
ghost use Rattle.plan_checker.specs.declared.vertex.Vertex.{Vertex};
ghost use Rattle.run_rules.specs.PlannedFirst.{PlansFirst};
ghost use Rattle.run_rules.specs.Plans.{PlansSoFar};
ghost use Rattle.run_rules.specs.Events.{Progress};
ghost use Rattle.run_rules.specs.Run.{IsRunSoFar};
ghost use Rattle.run_rules.specs.declared.request.Pair.{Pair};
ghost use Rattle.run_rules.specs.declared.setting.Setting.{Setting};

/// Says that what `plan_only` shows is what `run` begins with: of any run that was told the same so far, the graph that was planned last
/// and the plan in force are those of the first plan after these looks.
pub fn runs_begin_with_the_first_plan()
    ensures { (setting : Setting) (t : List Pair) (f : Progress) (plans : PlansSoFar)
        (places : List JobPlace) (graph : List Vertex) (marks : List Mark)
        → PlansFirst setting t places graph marks → IsRunSoFar setting t f plans
        → (plans.graph ≡ graph) × (plans.marks ≡ marks) }
{}

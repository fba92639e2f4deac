//! What follows from the definitions alone, for any run: each law is the contract of a function that
//! does nothing, or only calls laws of `job_graph` and `job_reuse`.
ghost use Rattle.std.specs.Prelude.{◌≡◌, ◌≢◌, ◌+◌, ◌≤◌, ◌↔◌, ℕ, true, List, [], ◌∷◌, ◌++◌, Ok, Some, None, Contains, IsSome, is_some, length};
ghost use Rattle.run_rules.specs.declared.request.Pair.{Pair};
ghost use Rattle.run_rules.specs.declared.request.RecordAnswer.{RecordAnswer};
ghost use Rattle.run_rules.specs.declared.request.RecordRequest.TheVariants.{Put};
ghost use Rattle.run_rules.specs.declared.request.Request.{Request};
ghost use Rattle.run_rules.specs.declared.setting.Setting.{Setting};
ghost use Rattle.cwl_value.specs.Texts.{ReadsAs};
ghost use Rattle.cwl_value.specs.declared.value.Value.{Value};
ghost use Rattle.cwl_value.specs.declared.value.Value.TheVariants as value;
ghost use Rattle.document_links.specs.Library.{Documents};
ghost use Rattle.document_links.specs.ProcessOf.{IsItsProcess};
ghost use Rattle.document_links.specs.declared.process.Process.{Process};
ghost use Rattle.document_links.specs.declared.process.Process as process;
ghost use Rattle.file_values.specs.Resolved.{resolved};
ghost use Rattle.url.specs.Parts.{Parts};
ghost use Rattle.run_rules.specs.declared.setting.Options.{Options};
ghost use Rattle.cwl_process.specs.declared.tool.Tool.{Tool};
ghost use Rattle.input_files.specs.Measured.{Measures};
ghost use Rattle.cwl_value.specs.Erased.{erased, fields_erased};
ghost use Rattle.job_graph.specs.Apart.{ids_differ};
ghost use Rattle.job_graph.specs.Equations.{walker};
ghost use Rattle.job_graph.specs.Eval.{World};
ghost use Rattle.job_graph.specs.Jobs.{Job};
ghost use Rattle.job_graph.specs.Made.{any_made};
ghost use Rattle.job_graph.specs.LoadCosts.{IsLoadCost};
ghost use Rattle.job_graph.specs.Unfold.{Resolved, outputs_at, too_many_jobs, unfolded};
ghost use Rattle.job_graph.specs.Words.{Fields, JobPlace};
ghost use Rattle.workflow_check.specs.Checked.{fault_in};
ghost use Rattle.job_reuse.specs.Form.{AreInForm};
ghost use Rattle.job_rows.specs.Storable.{IsKept};
ghost use Rattle.job_rows.specs.declared.row.Row.{Row};
ghost use Rattle.run_rules.specs.Allowed.{Allowed, IsBusy};
ghost use Rattle.run_rules.specs.Answers.{AreAnswers};
ghost use Rattle.run_rules.specs.Costs.{cost_to_load};
ghost use Rattle.run_rules.specs.Delivered.{located, object_of};
ghost use Rattle.run_rules.specs.End.{End, succeeds_with};
ghost use Rattle.run_rules.specs.EndsSo.{EndsSo, IsDelivered};
ghost use Rattle.run_rules.specs.Events.{Event, Progress, in_flight, is_at_hand, is_held, measures, resolved as resolved_places, unfolding_at};
ghost use Rattle.run_rules.specs.Honest.{IsHonest, Means};
ghost use Rattle.plan_checker.specs.declared.plan.Mark.{Mark};
ghost use Rattle.plan_checker.specs.declared.plan.Mark.TheVariants.{Compute};
ghost use Rattle.run_rules.specs.Blame.{Rise, given_tickets};
ghost use Rattle.run_rules.specs.HowOften.{is_fetch_of, is_start_of, times};
ghost use Rattle.run_rules.specs.OfAnswers.{EndIsOf, NoteIsOf};
ghost use Rattle.run_rules.specs.Reports.{IsRight, entries_of, notes_of, report_of};
ghost use Rattle.run_rules.specs.declared.outcome.Note.{Note};
ghost use Rattle.run_rules.specs.Parents.{HasParentAt};
ghost use Rattle.run_rules.specs.Followed.{FollowsCheapest};
ghost use Rattle.run_rules.specs.PlannedFirst.{are_looks};
ghost use Rattle.run_rules.specs.Plans.{PlansSoFar, is_planning, mark_at, plan_note};
ghost use Rattle.run_rules.specs.Run.{IsRun, IsRunSoFar};
ghost use Rattle.run_rules.specs.Scene.{NothingWasMadeBefore, Scene, scene_of};
ghost use Rattle.run_rules.specs.RanWell.{HasOutputs};
ghost use Rattle.run_rules.specs.Steps.{command};
ghost use Rattle.run_rules.specs.UnderKey.{IsUnderKey};

use job_graph::{
    failed_jobs_fail_eval, faults_fail_eval, known_jobs_agree, known_places_differ,
    results_are_eval, results_learned_each_job,
};
use job_reuse::collected_outputs_are_kept;

/// In a run that ends in success the outputs of each known job came from a child that was started for the job at its place and
/// ended well, or from a row that the record had of it.
pub fn success_has_each_job()
    ensures { (setting : Setting) (t : List Pair) (outputs delivered : Fields)
        (run : IsRun setting t (succeeds_with outputs delivered)) (job : Job)
        → Contains (unfolding_at (scene_of setting) run.happened.events).jobs job
        → HasOutputs t job.place job.tool.exit_codes }
{
    known_places_differ();
    results_learned_each_job();
}

/// Of any scene: a run comes to one end.
pub fn one_end()
    ensures { (s : Scene) (f : Progress) (marks : List Mark) (one other : End)
        → EndsSo s f marks one → EndsSo s f marks other → one ≡ other }
{}

/// Of any scene: where a run has come to its end, nothing may be asked any more. There is no second delivery, and no collect
/// after one that failed.
pub fn nothing_follows_the_end()
    ensures { (s : Scene) (f : Progress) (marks : List Mark) (end : End) (request : Request)
        → EndsSo s f marks end → Allowed s f marks request → ⊥ }
{}

/// A lone tool is one job without parents, so no run of it has too many jobs.
pub fn a_lone_tool_is_within_limits()
    ensures { (tool : Tool) (given : Fields) (measures : Measures) (known : List Resolved)
        → (unfolded (walker (process.Tool tool) given measures) known).fault ≢ Some too_many_jobs }
{}

/// In each world where all that happened in a run is as the world says, its end is right: a success is the value of
/// the process there, on the input files as they were measured, and where it failed permanently the process has none. No
/// two steps of a workflow have one id: documents are read so.
pub fn an_honest_run_ends_rightly()
    ensures { (setting : Setting) (t : List Pair) (end : End) (run : IsRun setting t end)
        (world : World)
        → ids_differ setting.process ≡ true → IsHonest setting world run.happened.events
        → Means setting (measures run.happened.events) world end }
{
    known_jobs_agree();
    results_are_eval();
    faults_fail_eval();
    failed_jobs_fail_eval();
}

/// And so is what is reported of it: without places, the output object of a success is the value of the process.
pub fn an_honest_run_is_reported_rightly()
    ensures { (setting : Setting) (t : List Pair) (end : End) (run : IsRun setting t end)
        (world : World)
        → ids_differ setting.process ≡ true → IsHonest setting world run.happened.events
        → IsRight setting (measures run.happened.events) world
        (report_of run.plans.notes run.happened.events end) }
{
    known_jobs_agree();
    results_are_eval();
    faults_fail_eval();
    failed_jobs_fail_eval();
}

/// What is reported of a success is its value: without their places, the outputs as they were delivered are the outputs,
/// in the order of their names.
pub fn delivery_keeps_the_value()
    ensures { (s : Scene) (es : List Event) (outputs delivered : Fields)
        → IsDelivered s es outputs delivered → erased (located delivered)
        ≡ object_of (fields_erased outputs) }
{}

/// Says that what made a File or Directory in the inputs of a known job is a parent of the job, that is, a job that was known
/// before it; of each run before which nothing was made. So where jobs are staged, all that is in their inputs is at hand
/// (`MayStage`).
pub fn makers_are_parents()
    ensures { (setting : Setting) (t : List Pair) (f : Progress) (plans : PlansSoFar) (job : Job)
        (maker : JobPlace)
        → IsRunSoFar setting t f plans → NothingWasMadeBefore (scene_of setting)
        → Contains (unfolding_at (scene_of setting) f.events).jobs job
        → any_made maker job.inputs ≡ true
        → HasParentAt (unfolding_at (scene_of setting) f.events).jobs job maker }
{
    known_places_differ();
}

/// Says that no file of a process that was read from documents, on inputs that were read from text, is said to be made by a
/// job before any ran.
pub fn nothing_read_was_made_before()
    ensures { (bytes : List ℕ) (base : Parts) (docs : Documents) (process : Process)
        (text : List ℕ) (at : Parts) (read : Value) (inputs : Fields) (options : Options)
        → IsItsProcess bytes base docs process → ReadsAs text (Ok read)
        → resolved at read ≡ Ok (value.Fields inputs)
        → NothingWasMadeBefore (scene_of (record {
          process = process;
          inputs = inputs;
          options = options;
        })) }
{}

/// Says that what it costs to load is one number: the base and the bytes over the rate, rounded up, the whole held to the
/// highest cost.
pub fn load_costs_are_rounded_up()
    ensures { (base rate bytes cost : ℕ) → 1 ≤ rate → IsLoadCost base rate bytes cost
        ↔ (cost ≡ cost_to_load base rate bytes) }
{}

/// Says that no plan in force computes a job that is held: to load it costs nothing.
pub fn no_held_job_is_computed()
    ensures { (setting : Setting) (t : List Pair) (f : Progress) (plans : PlansSoFar) (job : Job)
        → IsRunSoFar setting t f plans → is_planning (scene_of setting) f ≡ true
        → Contains (unfolding_at (scene_of setting) f.events).jobs job
        → is_held f.events job.place ≡ true
        → mark_at (scene_of setting) plans.marks f.events job.place ≢ Compute }
{
    known_places_differ();
}

/// Says that the files of no place are fetched twice.
pub fn no_place_is_fetched_twice()
    ensures { (setting : Setting) (t : List Pair) (f : Progress) (plans : PlansSoFar)
        (place : JobPlace)
        → IsRunSoFar setting t f plans → times (is_fetch_of place) t ≤ 1 }
{
    known_places_differ();
}

/// Says that no place is started more often than once and its retries, where the tickets of children rise as a host's do.
pub fn no_place_is_started_too_often()
    ensures { (setting : Setting) (t : List Pair) (f : Progress) (plans : PlansSoFar)
        (place : JobPlace)
        → IsRunSoFar setting t f plans → Rise (given_tickets (entries_of t))
        → times (is_start_of place) t ≤ 1 + setting.options.retries }
{}

/// Says that a run follows cheapest plans: the first pairs of a run are a run so far, and where they end at a planning point, the
/// plan that is followed from there on obeys the rules of plans, and no plan for the present job graph costs less. Its cost is
/// noted.
pub fn plans_followed_are_cheapest()
    ensures { (setting : Setting) (front rest : List Pair) (f : Progress) (plans : PlansSoFar)
        → IsRunSoFar setting (front ++ rest) f plans
        → FollowsCheapest setting front plans.notes }
{}

/// Says that after looks alone, measures and finds, there is one plan where a plan is made at all: that of the first planning
/// point.
pub fn looks_make_one_plan()
    ensures { (setting : Setting) (t : List Pair) (f : Progress) (plans : PlansSoFar)
        → IsRunSoFar setting t f plans → are_looks t ≡ true
        → is_planning (scene_of setting) f ≡ true
        → plans.notes ≡ plan_note (length t) plans.graph plans.marks ∷ [] }
{}

/// Says that nothing is left undone where nothing more can be fetched or staged and no child is in flight: each known job is
/// resolved.
pub fn nothing_is_left_undone()
    ensures { (setting : Setting) (t : List Pair) (f : Progress) (plans : PlansSoFar) (job : Job)
        → 1 ≤ setting.options.slots → IsRunSoFar setting t f plans
        → IsBusy (scene_of setting) f plans.marks → in_flight f.events ≡ []
        → Contains (unfolding_at (scene_of setting) f.events).jobs job
        → is_some (outputs_at (resolved_places f.events) job.place) ≡ true }
{
    known_places_differ();
}

/// Says that in a success the outputs of each job that made a file of the result are at hand: its child gave them in this run,
/// or they were fetched.
pub fn delivered_files_are_at_hand()
    ensures { (setting : Setting) (t : List Pair) (outputs delivered : Fields)
        (run : IsRun setting t (succeeds_with outputs delivered)) (job : Job)
        → 1 ≤ setting.options.slots
        → Contains (unfolding_at (scene_of setting) run.happened.events).jobs job
        → any_made job.place outputs ≡ true → is_at_hand run.happened.events job.place ≡ true }
{
    known_places_differ();
}

/// Says that no run invents a fault. Each one that a run ends with, and each one that it notes, came of an answer: of a call that
/// failed so, of a command that the record refused so, or of a row that isn't one of the tool of its job.
pub fn faults_came_of_answers()
    ensures ends { (setting : Setting) (t : List Pair) (end : End) (run : IsRun setting t end)
        → EndIsOf (scene_of setting) t run.happened.events end }
    ensures notes { (setting : Setting) (t : List Pair) (f : Progress) (plans : PlansSoFar)
        (note : Note)
        → IsRunSoFar setting t f plans → Contains (notes_of f.events) note → NoteIsOf t note }
{}

/// Says that each row that a run asks the record to put, or may ask it to put next, is such as a record keeps and reads back, if each
/// answer before was one that its call can give: outputs are collected from what stands below the job's folder. That outputs are in
/// form is known of any values, since their types say it (`job_reuse::in_form`).
pub fn rows_put_are_kept()
    ensures put { (setting : Setting) (t : List Pair) (f : Progress) (plans : PlansSoFar)
        (place : JobPlace) (row : Row) (told : RecordAnswer)
        → IsRunSoFar setting t f plans → AreAnswers t → Contains t (command place (Put row) told)
        → AreInForm row.outputs → IsKept row.outputs }
    ensures next { (setting : Setting) (t : List Pair) (f : Progress) (plans : PlansSoFar)
        (place : JobPlace) (row : Row)
        → IsRunSoFar setting t f plans → AreAnswers t
        → Allowed (scene_of setting) f plans.marks (Request.Record place (Put row))
        → AreInForm row.outputs → IsKept row.outputs }
{
    collected_outputs_are_kept();
}

/// Says that each command to the record for the job at a place is about the key of that job, and that its files are fetched and
/// archived under it, if each answer before was one that its call can give: a row that is found has the key that was asked for.
pub fn keys_are_those_of_the_jobs()
    ensures asked { (setting : Setting) (t : List Pair) (f : Progress) (plans : PlansSoFar)
        (pair : Pair)
        → IsRunSoFar setting t f plans → AreAnswers t → Contains t pair
        → IsUnderKey (scene_of setting) f.events pair.request }
    ensures next { (setting : Setting) (t : List Pair) (f : Progress) (plans : PlansSoFar)
        (request : Request)
        → IsRunSoFar setting t f plans → AreAnswers t
        → Allowed (scene_of setting) f plans.marks request
        → IsUnderKey (scene_of setting) f.events request }
{}

/// Says that an accepted process has its result once each known job is resolved and no equation fails: no step waits for what
/// never comes.
pub fn accepted_processes_give_results()
    ensures { (process : Process) (given : Fields) (measures : Measures) (learned : List Resolved)
        → fault_in process ≡ None → ids_differ process ≡ true
        → (unfolded (walker process given measures) learned).fault ≡ None
        → ((job : Job) → Contains (unfolded (walker process given measures) learned).jobs job
        → is_some (outputs_at learned job.place) ≡ true)
        → IsSome (unfolded (walker process given measures) learned).result }
{}

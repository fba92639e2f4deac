//! What follows from the definitions alone, for any process: each law is the contract of a function that does nothing.
ghost use Rattle.std.specs.Prelude.{ℕ, ◌≡◌, ◌++◌, ◌∷◌, [], true, List, map, find, Ok, Some, None, is_some, Contains};
ghost use Rattle.std.specs.List.{IsDistinct};
ghost use Rattle.cwl_process.specs.declared.tool.Tool.{Tool};
ghost use Rattle.cwl_value.specs.Erased.{fields_erased};
ghost use Rattle.cwl_value.specs.Texts.{ReadsAs};
ghost use Rattle.cwl_value.specs.declared.value.Value.{Value};
ghost use Rattle.cwl_value.specs.declared.value.Value.TheVariants as value;
ghost use Rattle.document_links.specs.Library.{Documents};
ghost use Rattle.document_links.specs.ProcessOf.{IsItsProcess};
ghost use Rattle.document_links.specs.declared.process.Process.{Process};
ghost use Rattle.file_values.specs.Resolved.{resolved};
ghost use Rattle.input_files.specs.Measured.{Measures};
ghost use Rattle.url.specs.Parts.{Parts};
ghost use Rattle.job_graph.specs.declared.cause.Cause.{Cause};
ghost use Rattle.job_graph.specs.Words.{Fields, JobPlace, is_same_place};
ghost use Rattle.job_graph.specs.Jobs.{Job, Made, Walker, met_job, result_in};
ghost use Rattle.job_graph.specs.Equations.{walker};
ghost use Rattle.job_graph.specs.Made.{any_made};
ghost use Rattle.job_graph.specs.Unfold.{Fault, Known, Resolved, fault_at, is_at, known_from, made_by, outputs_at, unfolded};
ghost use Rattle.job_graph.specs.Eval.{Key, World, eval};
ghost use Rattle.job_graph.specs.Agrees.{Agrees, AgreesKnown};
ghost use Rattle.job_graph.specs.Apart.{ids_differ};
ghost use Rattle.job_graph.specs.Beside.{is_one_open};
ghost use Rattle.job_graph.specs.Makers.{AreNamed, AreUnmade, HasUnmadeDefaults, IsLearned, IsLearnedJob};
ghost use Rattle.job_graph.specs.More.{IsFront, IsGrown, StaysOn};

/// Says that jobs which are known stay, in their order, when more is learned; of any walk.
pub fn known_jobs_stay()
    ensures { (walks : Walker) (learned later : List Resolved)
        → IsFront (unfolded walks learned).jobs (unfolded walks (learned ++ later)).jobs }
{}

/// Says that the first fault stays when more is learned; of any walk.
pub fn faults_stay()
    ensures { (walks : Walker) (learned later : List Resolved) (fault : Fault)
        → (unfolded walks learned).fault ≡ Some fault → (unfolded walks (learned ++ later)).fault
        ≡ Some fault }
{}

/// Says that nothing more is known when a job of a scattered step is learned while another job of the step is open.
pub fn open_jobs_hold_back()
    ensures { (process : Process) (given : Fields) (measures : Measures) (learned : List Resolved)
        (one : Resolved)
        → ids_differ process ≡ true → (unfolded (walker process given measures) learned).fault
        ≡ None
        → is_one_open learned one.place (unfolded (walker process given measures) learned).jobs
        ≡ true
        → unfolded (walker process given measures) (learned ++ one ∷ [])
        ≡ unfolded (walker process given measures) learned }
{}

/// Says that a walk, where more is known of the jobs that it meets, meets no less, in the same order, and that the outputs
/// that were known stay.
pub fn more_is_met()
    ensures { (process : Process) (given : Fields) (measures : Measures) (made more : Made)
        → StaysOn made more (walker process given measures made).met
        → IsGrown (walker process given measures made) (walker process given measures more) }
{}

/// Says that the result stays where more is known.
pub fn results_stay()
    ensures { (process : Process) (given : Fields) (measures : Measures) (made more : Made)
        (outputs : Fields)
        → StaysOn made more (walker process given measures made).met
        → result_in made (walker process given measures made) ≡ Some outputs
        → result_in more (walker process given measures more) ≡ Some outputs }
{}

/// Says that the result stays when more is learned.
pub fn learned_results_stay()
    ensures { (process : Process) (given : Fields) (measures : Measures)
        (learned later : List Resolved) (outputs : Fields)
        → (unfolded (walker process given measures) learned).result ≡ Some outputs
        → (unfolded (walker process given measures) (learned ++ later)).result ≡ Some outputs }
{}

/// Says that the result is what computing every job gives, in each world that agrees with what was learned.
pub fn results_are_eval()
    ensures { (key : Tool → Fields → Key) (world : World) (process : Process) (given : Fields)
        (measures : Measures)
        (learned : List Resolved) (outputs : Fields)
        → Agrees key world (walker process given measures) learned
        → (unfolded (walker process given measures) learned).result ≡ Some outputs
        → eval key world process given measures ≡ Some (fields_erased outputs) }
{}

/// Says that computing every job fails where an equation does, in each world that agrees with what was learned.
pub fn faults_fail_eval()
    ensures { (key : Tool → Fields → Key) (world : World) (process : Process) (given : Fields)
        (measures : Measures)
        (learned : List Resolved) (place : JobPlace) (cause : Cause)
        → Agrees key world (walker process given measures) learned
        → (unfolded (walker process given measures) learned).fault ≡ Some (fault_at place cause)
        → eval key world process given measures ≡ None }
{}

/// Says that jobs which are known are at different places; of any walk.
pub fn known_places_differ()
    ensures { (walks : Walker) (learned : List Resolved)
        → IsDistinct is_same_place (map (λ (job : Job). job.place) (unfolded walks learned).jobs) }
{}

/// Says that a job which is met is the one that is known at its place, in each process where no two steps of a workflow have
/// one id.
pub fn met_jobs_are_known()
    ensures { (process : Process) (given : Fields) (measures : Measures) (learned : List Resolved)
        (job : Job)
        → ids_differ process ≡ true
        → Contains (walker process given measures (made_by learned)).met (met_job job)
        → find (is_at job.place) (unfolded (walker process given measures) learned).jobs
        ≡ Some job }
{}

/// Says that each job that is known is met again.
pub fn known_jobs_are_met()
    ensures { (process : Process) (given : Fields) (measures : Measures) (learned : List Resolved)
        (job : Job)
        → Contains (unfolded (walker process given measures) learned).jobs job
        → Contains (walker process given measures (made_by learned)).met (met_job job) }
{}

/// Says that a world which agrees with the known jobs does so with those that are met.
pub fn known_jobs_agree()
    ensures { (key : Tool → Fields → Key) (world : World) (process : Process) (given : Fields)
        (measures : Measures)
        (learned : List Resolved)
        → ids_differ process ≡ true → AgreesKnown key world (walker process given measures) learned
        → Agrees key world (walker process given measures) learned }
{}

/// Says that computing every job fails where a known job does, in each world that agrees with what was learned.
pub fn failed_jobs_fail_eval()
    ensures { (key : Tool → Fields → Key) (world : World) (process : Process) (given : Fields)
        (measures : Measures)
        (learned : List Resolved) (job : Job)
        → Agrees key world (walker process given measures) learned
        → Contains (unfolded (walker process given measures) learned).jobs job
        → world (key job.tool job.inputs) ≡ None
        → eval key world process given measures ≡ None }
{}

/// Says that each known job was learned where there is a result.
pub fn results_learned_each_job()
    ensures { (process : Process) (given : Fields) (measures : Measures) (learned : List Resolved)
        (outputs : Fields) (job : Job)
        → (unfolded (walker process given measures) learned).result ≡ Some outputs
        → Contains (unfolded (walker process given measures) learned).jobs job
        → is_some (outputs_at learned job.place) ≡ true }
{}

/// Says that what made a File or Directory in the inputs of a known job was learned, where no job made what is given and
/// what defaults hold, and the outputs that were learned are named.
pub fn makers_are_learned()
    ensures { (process : Process) (given : Fields) (measures : Measures) (learned : List Resolved)
        → AreUnmade given → HasUnmadeDefaults process → AreNamed learned
        → (job : Job) → Contains (unfolded (walker process given measures) learned).jobs job
        → (maker : JobPlace) → any_made maker job.inputs ≡ true → IsLearned learned maker }
{}

/// Says that each parent of a known job is a known job whose outputs were learned, on the same terms.
pub fn parents_are_learned()
    ensures { (process : Process) (given : Fields) (measures : Measures) (learned : List Resolved)
        → AreUnmade given → HasUnmadeDefaults process → AreNamed learned
        → (known : Known) (parent : ℕ)
        → Contains (known_from [] (unfolded (walker process given measures) learned).jobs) known
        → Contains known.parents parent
        → IsLearnedJob learned (unfolded (walker process given measures) learned).jobs parent }
{}

/// Says that no job made what the defaults of a process hold that was read from documents.
pub fn read_defaults_are_unmade()
    ensures { (bytes : List ℕ) (base : Parts) (docs : Documents) (process : Process)
        → IsItsProcess bytes base docs process → HasUnmadeDefaults process }
{}

/// Says that no job made what an object holds that was read from text and whose files are at paths.
pub fn read_inputs_are_unmade()
    ensures { (bytes : List ℕ) (base : Parts) (read : Value) (given : Fields)
        → ReadsAs bytes (Ok read) → resolved base read ≡ Ok (value.Fields given) → AreUnmade given }
{}

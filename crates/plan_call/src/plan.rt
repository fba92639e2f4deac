//! The plan of a run of the user's own process: what it would load, compute and not need.
ghost use Rattle.std.specs.Prelude.{◌≡◌, false, None, Some, IfOk};
ghost use Rattle.run_rules.specs.Limits.{IsWithinLimits};
ghost use Rattle.workflow_check.specs.Checked.{fault_in};
ghost use Rattle.run_given.specs.Caches.{is_twofold, record_of as file_of_record};
ghost use Rattle.plan_call.specs.Plans.{IsEndOfPlan, IsPlanned};
ghost use Rattle.program_words.specs.RunWords.{wish_of_run};
ghost use Rattle.run_given.specs.Named.{IsReady};

use crate::looks::Looks;
use crate::plan_texts::exit_of_plan;
use end_notes::stopped_call;
use end_words::RunEnd;
use job_rows::{MemoryRecord, Record};
use process_machine::{Machine, World};
use program_words::PlanWords;
use record_program::Records;
use run_core::Options;
use run_given::{
    Call, Given, Places, here_of, places_of, ready_of, record_of, without_folder, without_record,
};
use run_setup::{machine_of, options_of};
use run_watch::{KeptJobs, Traces, is_kept, kept_in, noted};
use std::alloc::AllocError;
use std::mem;
use std::process::Stdio;
use std::rt::Env;
use workflow_engine::{Unwatched, plan_only};

/// Plans a run of the process of a document on an input object, by the record that the words name. Nothing is made, started, fetched or
/// kept.
pub fn end_of_plan<R: World + Env + Input + Records>(
    rt: &R,
    words: &PlanWords,
    path: &str,
) -> Result<RunEnd, AllocError>
where
    R::File: Into<Stdio>,
    ensures end { IfOk result (λ end. IsEndOfPlan (wish_of_run words.now.run) words.now.dot path.now
        end.exit) }
    ensures left { IfOk result (λ end. end.left ≡ None) }
{
    match here_of(rt) {
        Ok(here) => {
            let call = Call {
                here: here.as_str(),
                words: &words.run,
                path,
            };
            match ready_of(rt, &call) {
                Ok(given) => {
                    let end = over_record(rt, &given, &call, words.dot);
                    mem::drop(given);
                    end
                }
                Err(stop) => stopped_call(rt, stop, &call),
            }
        }
        Err(error) => without_folder(rt.alloc(), &error),
    }
}

/// Plans by the record that the words name if it is there, or by one without rows.
fn over_record<R: World + Records>(
    rt: &R,
    given: &Given,
    call: &Call<'_>,
    dot: bool,
) -> Result<RunEnd, AllocError>
where
    R::File: Into<Stdio>,
    requires ready { IsReady call.now.here.now (wish_of_run call.now.words.now) given.now }
    requires one { is_twofold (wish_of_run call.now.words.now) ≡ false }
    ensures end { IfOk result (λ end. IsEndOfPlan (wish_of_run call.now.words.now) dot
        call.now.path.now end.exit) }
    ensures left { IfOk result (λ end. end.left ≡ None) }
{
    match record_of(rt.alloc(), call.words)? {
        Some(file) if is_kept(rt, file.as_str()) => in_file(rt, given, call, file.as_str(), dot),
        _ => in_memory(rt, given, call, dot),
    }
}

fn in_memory<R: World>(
    rt: &R,
    given: &Given,
    call: &Call<'_>,
    dot: bool,
) -> Result<RunEnd, AllocError>
where
    R::File: Into<Stdio>,
    requires ready { IsReady call.now.here.now (wish_of_run call.now.words.now) given.now }
    requires one { is_twofold (wish_of_run call.now.words.now) ≡ false }
    ensures end { IfOk result (λ end. IsEndOfPlan (wish_of_run call.now.words.now) dot
        call.now.path.now end.exit) }
    ensures left { IfOk result (λ end. end.left ≡ None) }
{
    let mut rows = MemoryRecord::new(rt.alloc(), None);
    let kept = KeptJobs::none(rt.alloc());
    by_rows(rt, given, call, &kept, &mut rows, dot)
}

fn in_file<R: World + Records>(
    rt: &R,
    given: &Given,
    call: &Call<'_>,
    file: &str,
    dot: bool,
) -> Result<RunEnd, AllocError>
where
    R::File: Into<Stdio>,
    requires ready { IsReady call.now.here.now (wish_of_run call.now.words.now) given.now }
    requires one { is_twofold (wish_of_run call.now.words.now) ≡ false }
    requires file { file_of_record (wish_of_run call.now.words.now) ≡ Some file.now }
    ensures end { IfOk result (λ end. IsEndOfPlan (wish_of_run call.now.words.now) dot
        call.now.path.now end.exit) }
    ensures left { IfOk result (λ end. end.left ≡ None) }
{
    let kept = kept_in(rt, file, call.words.explain);
    match rt.see_record(file) {
        Ok(mut rows) => {
            let end = by_rows(rt, given, call, &kept, &mut rows, dot);
            mem::drop(rt.close_record(rows));
            end
        }
        Err(fault) => without_record(rt.alloc(), fault, file),
    }
}

/// Plans by the rows of a record that had these jobs.
fn by_rows<R: World, K: Record>(
    rt: &R,
    given: &Given,
    call: &Call<'_>,
    kept: &KeptJobs,
    rows: &mut K,
    dot: bool,
) -> Result<RunEnd, AllocError>
where
    R::File: Into<Stdio>,
    requires ready { IsReady call.now.here.now (wish_of_run call.now.words.now) given.now }
    requires one { is_twofold (wish_of_run call.now.words.now) ≡ false }
    ensures end { IfOk result (λ end. IsEndOfPlan (wish_of_run call.now.words.now) dot
        call.now.path.now end.exit) }
    ensures left { IfOk result (λ end. end.left ≡ None) }
{
    let places = places_of(rt.alloc(), call)?;
    let options = options_of(rt.alloc(), &places, call)?;
    with_machine(rt, given, options, &places, kept, rows, dot)
}

fn with_machine<R: World, K: Record>(
    rt: &R,
    given: &Given,
    options: Options,
    places: &Places,
    kept: &KeptJobs,
    rows: &mut K,
    dot: bool,
) -> Result<RunEnd, AllocError>
where
    R::File: Into<Stdio>,
    requires accepted { fault_in given.now.process ≡ None }
    requires limits { IsWithinLimits options }
    ensures exit { IfOk result (λ end. IsPlanned given.now.process given.now.inputs options dot
        end.exit) }
    ensures left { IfOk result (λ end. end.left ≡ None) }
{
    match machine_of(rt, places, false) {
        Ok(host) => planned(rt, host, given, options, kept, rows, dot),
        Err(error) => {
            mem::drop(options);
            Err(error)
        }
    }
}

/// Plans on a machine that looks at files alone.
fn planned<R: World, K: Record>(
    rt: &R,
    mut host: Machine<R>,
    given: &Given,
    options: Options,
    kept: &KeptJobs,
    rows: &mut K,
    dot: bool,
) -> Result<RunEnd, AllocError>
where
    R::File: Into<Stdio>,
    requires accepted { fault_in given.now.process ≡ None }
    requires limits { IsWithinLimits options }
    ensures exit { IfOk result (λ end. IsPlanned given.now.process given.now.inputs options dot
        end.exit) }
    ensures left { IfOk result (λ end. end.left ≡ None) }
{
    let mut looks = Looks::new(rt.alloc(), kept.parts.as_slice(), rows);
    let made = plan_only(
        rt.alloc(),
        &mut host,
        &mut looks,
        &given.process,
        &given.inputs,
        options,
        &mut Unwatched,
    );
    let exit = exit_of_plan(
        rt.alloc(),
        host.log(),
        &given.process,
        made,
        looks.answers(),
        kept,
        dot,
    );
    let traces = Traces::new(rt.alloc(), None);
    let end = noted(rt, &host, given, &traces, exit, None);
    mem::drop(traces);
    mem::drop(looks);
    mem::drop(host);
    end
}

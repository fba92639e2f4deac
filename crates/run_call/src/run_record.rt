//! The record that a run asks.
ghost use Rattle.std.specs.Prelude.{IfOk, None, false, Ok, Some, [], ◌≡◌};
ghost use Rattle.run_given.specs.Caches.{is_twofold, record_of as file_of_record};
ghost use Rattle.program_words.specs.RunWords.{wish_of_run};
ghost use Rattle.run_given.specs.Named.{IsReady};
ghost use Rattle.run_call.specs.Runs.{IsEndLike, IsEndOfRun, IsRunTold};

use crate::folders::on_disk;
use end_words::RunEnd;
use job_record::RecordFault;
use job_rows::MemoryRecord;
use process_machine::World;
use program_words::{Telling, budget_of};
use record_program::{Records, is_unwritable};
use run_given::{Call, Given, make_cache, record_of, without_record};
use run_watch::{is_kept, kept_in};
use std::alloc::{AllocError, Global};
use std::io::Write;
use std::mem;
use std::process::Stdio;

/// Runs over the record that the words name, itself or by a cache, or over one that is kept in memory alone and ends with the run.
pub fn with_record<R: World + Records, E: Write>(
    rt: &R,
    given: &Given,
    call: &Call<'_>,
    err: &mut E,
) -> Result<RunEnd, AllocError>
where
    R::File: Into<Stdio>,
    requires ready { IsReady call.now.here.now (wish_of_run call.now.words.now) given.now }
    requires one { is_twofold (wish_of_run call.now.words.now) ≡ false }
    ensures told { IsRunTold call.now.words.now.telling (E.contents err.old) (E.contents err.new) }
    ensures end { IfOk result (λ end. IsEndOfRun R.Records R.Kept.Record rt.now
        (wish_of_run call.now.words.now) call.now.path.now end.exit end.left) }
{
    match record_of(rt.alloc(), call.words)? {
        None => in_memory(rt, given, call, err),
        Some(file) => {
            let end = in_file(rt, given, call, file.as_str(), err);
            mem::drop(file);
            end
        }
    }
}

fn in_memory<R: World + Records, E: Write>(
    rt: &R,
    given: &Given,
    call: &Call<'_>,
    err: &mut E,
) -> Result<RunEnd, AllocError>
where
    R::File: Into<Stdio>,
    requires ready { IsReady call.now.here.now (wish_of_run call.now.words.now) given.now }
    requires one { is_twofold (wish_of_run call.now.words.now) ≡ false }
    requires unnamed { file_of_record (wish_of_run call.now.words.now) ≡ None }
    ensures told { IsRunTold call.now.words.now.telling (E.contents err.old) (E.contents err.new) }
    ensures end { IfOk result (λ end. IsEndOfRun R.Records R.Kept.Record rt.now
        (wish_of_run call.now.words.now) call.now.path.now end.exit end.left) }
{
    let mut rows = MemoryRecord::new(rt.alloc(), budget_of(call.words));
    let end = on_disk(rt, given, call, &[], &mut rows, err);
    mem::drop(rows);
    end
}

/// Runs over the record of the file that is named, and holds it until the run has ended. What it has is read first, if it is to be said how jobs
/// differ from that: to read a file that is held would let it go.
fn in_file<R: World + Records, E: Write>(
    rt: &R,
    given: &Given,
    call: &Call<'_>,
    file: &str,
    err: &mut E,
) -> Result<RunEnd, AllocError>
where
    R::File: Into<Stdio>,
    requires ready { IsReady call.now.here.now (wish_of_run call.now.words.now) given.now }
    requires one { is_twofold (wish_of_run call.now.words.now) ≡ false }
    requires file { file_of_record (wish_of_run call.now.words.now) ≡ Some file.now }
    ensures told { IsRunTold call.now.words.now.telling (E.contents err.old) (E.contents err.new) }
    ensures end { IfOk result (λ end. IsEndOfRun R.Records R.Kept.Record rt.now
        (wish_of_run call.now.words.now) call.now.path.now end.exit end.left) }
{
    make_cache(rt, call.words);
    let tells = matches!(call.words.telling, Telling::Lines);
    let recorded = kept_in(rt, file, tells && is_kept(rt, file));
    match opened_of(rt, file, budget_of(call.words)) {
        Ok((mut rows, is_copy)) => {
            let jobs = recorded.parts.as_slice();
            let end = on_disk(rt, given, call, jobs, &mut rows, err);
            mem::drop(rt.close_record(rows));
            kept_unless(rt.alloc(), is_copy, file, end)
        }
        Err(fault) => without_record(rt.alloc(), fault, file),
    }
}

/// Opens the record of a file, or a copy of it if that may be read and not written, and says whether it is a copy. A budget wants the record
/// itself.
fn opened_of<R: Records>(
    rt: &R,
    file: &str,
    budget: Option<u64>,
) -> Result<(R::Kept, bool), RecordFault>
    ensures opened { IfOk result (λ opened. R.opens rt.now file.now budget opened.0) }
    ensures unasked { IfOk result (λ opened. R.Kept.log opened.0 ≡ []) }
{
    match rt.open_record(file, budget) {
        Ok(rows) => Ok((rows, false)),
        Err(fault) => copy_of(rt, file, budget, fault),
    }
}

fn copy_of<R: Records>(
    rt: &R,
    file: &str,
    budget: Option<u64>,
    fault: RecordFault,
) -> Result<(R::Kept, bool), RecordFault>
    ensures opened { IfOk result (λ opened. R.opens rt.now file.now budget opened.0) }
    ensures unasked { IfOk result (λ opened. R.Kept.log opened.0 ≡ []) }
{
    if budget.is_some() || !is_unwritable(&fault) {
        return Err(fault);
    }
    match rt.see_record(file) {
        Ok(rows) => Ok((rows, true)),
        Err(_) => Err(fault),
    }
}

/// Adds that nothing of a run is kept, if it asked a copy of its record.
fn kept_unless(
    alloc: Global,
    is_copy: bool,
    file: &str,
    end: Result<RunEnd, AllocError>,
) -> Result<RunEnd, AllocError>
    ensures { IfOk result (λ told. IsEndLike end told.exit told.left) }
{
    let end = end?;
    if is_copy {
        return end.unwritten(alloc, file);
    }
    Ok(end)
}

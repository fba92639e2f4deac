//! A run in its folders.
ghost use Rattle.std.specs.Prelude.{IfOk, Ok};
ghost use Rattle.program_words.specs.RunWords.{wish_of_run};
ghost use Rattle.run_given.specs.Named.{IsReady};
ghost use Rattle.run_call.specs.Runs.{IsEndLike, IsRunExit, IsRunTold};
ghost use Rattle.run_call.specs.Seen.{seen};

use crate::on_machine::on_machine;
use end_words::RunEnd;
use job_rows::Record;
use process_machine::World;
use program_words::RunWords;
use run_facts::KeyParts;
use run_given::{
    Call, Given, Places, leave, make_work, outdir_for, places_of, without_outdir, without_work,
};
use std::alloc::AllocError;
use std::io::Write;
use std::process::Stdio;
use std::{fs, mem};

/// Makes the work folder, runs over a record, which had these jobs if they are wanted, and removes the folder if that is possible, unless it
/// is to stay. An output folder that was made, and into which nothing was delivered, is removed again.
pub fn on_disk<R: World, K: Record, E: Write>(
    rt: &R,
    given: &Given,
    call: &Call<'_>,
    recorded: &[KeyParts],
    rows: &mut K,
    err: &mut E,
) -> Result<RunEnd, AllocError>
where
    R::File: Into<Stdio>,
    requires { IsReady call.now.here.now (wish_of_run call.now.words.now) given.now }
    ensures told { IsRunTold call.now.words.now.telling (E.contents err.old) (E.contents err.new) }
    ensures end { IfOk result (λ end. IsRunExit (wish_of_run call.now.words.now) call.now.path.now
        (seen K.Record rows.old) (seen K.Record rows.new) end.exit end.left) }
{
    let places = places_of(rt.alloc(), call)?;
    let opened = match make_work(rt, &places) {
        Ok(opened) => opened,
        Err(trouble) => {
            let end = without_work(rt, trouble, &places.work);
            mem::drop(places);
            return end;
        }
    };
    match outdir_for(rt, &given.process, &places.outdir) {
        Ok(is_new) => {
            let end = on_machine(rt, given, &places, call, recorded, rows, err);
            if is_new {
                let _removed = fs::remove_dir(rt, places.outdir.as_str());
            }
            left_as_said(rt, opened, places, call.words, end)
        }
        Err(trouble) => {
            let end = without_outdir(rt.alloc(), trouble, &places.outdir);
            left_as_said(rt, opened, places, call.words, end)
        }
    }
}

/// Closes the work folder, and leaves it or removes it, as the end says. If memory ran out it stays if that was asked for.
fn left_as_said<R: World>(
    rt: &R,
    opened: R::File,
    places: Places,
    words: &RunWords,
    end: Result<RunEnd, AllocError>,
) -> Result<RunEnd, AllocError>
    ensures { IfOk result (λ left. IsEndLike end left.exit left.left) }
{
    mem::drop(opened);
    match end {
        Ok(mut end) => {
            leave(rt, &places.work, end.left.is_some(), &mut end.notes);
            mem::drop(places);
            Ok(end)
        }
        Err(error) => {
            let stays = words.keep || words.keep_failed;
            leave(rt, &places.work, stays, &mut Vec::new(rt.alloc()));
            mem::drop(places);
            Err(error)
        }
    }
}

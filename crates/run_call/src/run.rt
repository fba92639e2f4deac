//! A run of the user's own process, over real processes and files.
ghost use Rattle.std.specs.Prelude.{IfOk, Ok};
ghost use Rattle.program_words.specs.RunWords.{wish_of_run};
ghost use Rattle.run_call.specs.Runs.{IsEndOfRun, IsRunTold};

use crate::run_record::with_record;
use end_notes::stopped_call;
use end_words::RunEnd;
use process_machine::World;
use program_words::RunWords;
use record_program::Records;
use run_given::{Call, here_of, ready_of, without_folder};
use std::alloc::AllocError;
use std::io::Write;
use std::mem;
use std::process::Stdio;
use std::rt::Env;

/// Runs the process of a document on an input object, in a work folder that is made for it and removed again, and with the record that
/// the words name.
pub fn end_of_process<R: World + Env + Input + Records, E: Write>(
    rt: &R,
    words: &RunWords,
    path: &str,
    err: &mut E,
) -> Result<RunEnd, AllocError>
where
    R::File: Into<Stdio>,
    ensures told { IsRunTold words.now.telling (E.contents err.old) (E.contents err.new) }
    ensures end { IfOk result (λ end. IsEndOfRun R.Records R.Kept.Record rt.now
        (wish_of_run words.now) path.now end.exit end.left) }
{
    match here_of(rt) {
        Ok(here) => {
            let call = Call {
                here: here.as_str(),
                words,
                path,
            };
            match ready_of(rt, &call) {
                Ok(given) => {
                    let end = with_record(rt, &given, &call, err);
                    mem::drop(given);
                    end
                }
                Err(stop) => stopped_call(rt, stop, &call),
            }
        }
        Err(error) => without_folder(rt.alloc(), &error),
    }
}

//! The end of a call that has nothing to run.
ghost use Rattle.std.specs.Prelude.{◌≡◌, None, IfOk};

use crate::advice::advice_on;
use end_words::RunEnd;
use process_machine::World;
use run_given::{Call, Stop, stopped};
use std::alloc::AllocError;

/// Returns the end of a call that has nothing to run, which leaves nothing, with lines on what would do.
pub fn stopped_call<R: World>(rt: &R, stop: Stop, call: &Call<'_>) -> Result<RunEnd, AllocError>
    ensures exit { IfOk result (λ end. stop ≡ Stop.Early end.exit) }
    ensures left { IfOk result (λ end. end.left ≡ None) }
{
    let exit = stopped(stop)?;
    let notes = advice_on(rt, &exit, call);
    Ok(RunEnd::with_notes(exit, notes))
}

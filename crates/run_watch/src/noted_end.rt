//! The end of a run, with what is noted of it.
ghost use Rattle.std.specs.Prelude.{◌≡◌, None, Ok, IfOk};

use crate::notes::{notes_on, unkept_on};
use crate::traces::Traces;
use end_words::{Exit, RunEnd};
use process_machine::{Machine, World};
use program_words::Savings;
use run_given::Given;
use std::alloc::AllocError;

/// Adds what is said of a failure, and of a success.
pub fn noted<R: World>(
    rt: &R,
    host: &Machine<R>,
    given: &Given,
    traces: &Traces<'_>,
    exit: Result<Exit, AllocError>,
    savings: Option<Savings>,
) -> Result<RunEnd, AllocError>
    ensures exit { IfOk result (λ end. exit ≡ Ok end.exit) }
    ensures left { IfOk result (λ end. end.left ≡ None) }
{
    let exit = exit?;
    let notes = notes_on(rt, host, given, traces, &exit);
    let unkept = unkept_on(rt.alloc(), host, traces);
    Ok(RunEnd {
        exit,
        left: None,
        notes,
        savings,
        unkept,
    })
}

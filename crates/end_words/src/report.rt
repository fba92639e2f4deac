ghost use Rattle.std.specs.Prelude.{◌≡◌, IfOk};
ghost use Rattle.end_words.specs.RunEnds.{fault_exit, outcome_exit, place_json, run_exit};

use crate::exit::{Exit, Fault};
use crate::failed_call::failed_on;
use cwl_value::{JobPlace, Value, canonical_text, place_text};
use plain_data::Text;
use proc_host::Entry;
use program_words::visible_text;
use run_rules::{Cause, Outcome, Report, RunFault};
use std::alloc::{AllocError, Global};
use std::mem;

/// Says how a run ends the program, over whose host this is the log.
pub fn exit_of_run(
    alloc: Global,
    log: &[Entry],
    run: Result<Report, RunFault>,
) -> Result<Exit, AllocError>
    ensures { IfOk result (λ exit. exit ≡ run_exit log.now run) }
{
    match run {
        Ok(report) => {
            let Report {
                outcome,
                plans,
                notes,
            } = report;
            mem::drop(plans);
            mem::drop(notes);
            of_outcome(alloc, outcome)
        }
        Err(fault) => {
            let told = of_fault(alloc, log, &fault);
            mem::drop(fault);
            told
        }
    }
}

fn of_outcome(alloc: Global, outcome: Outcome) -> Result<Exit, AllocError>
    ensures { IfOk result (λ exit. exit ≡ outcome_exit outcome) }
{
    match outcome {
        Outcome::Success(outputs) => of_outputs(alloc, outputs),
        Outcome::PermanentFail(place, cause) => of_failure(alloc, place, cause),
        Outcome::TemporaryFail(place) => {
            let text = place_in(alloc, &place);
            mem::drop(place);
            Ok(Exit::Temporary(text?))
        }
    }
}

fn of_outputs(alloc: Global, outputs: Value) -> Result<Exit, AllocError>
    ensures { IfOk result (λ exit. exit ≡ outcome_exit (Outcome.Success outputs)) }
{
    let line = canonical_text(alloc, &outputs);
    mem::drop(outputs);
    Ok(Exit::Output(line?))
}

/// Says how a job's permanent failure ends the program.
pub fn of_failure(alloc: Global, place: JobPlace, cause: Cause) -> Result<Exit, AllocError>
    ensures { IfOk result (λ exit. exit ≡ outcome_exit (Outcome.PermanentFail place cause)) }
{
    let text = place_in(alloc, &place);
    mem::drop(place);
    match text {
        Ok(text) => Ok(Exit::Permanent(text, cause)),
        Err(error) => {
            mem::drop(cause);
            Err(error)
        }
    }
}

/// Writes a job's place as JSON text. A character that moves, hides or turns others on a terminal is escaped there, as JSON allows.
pub fn place_in(alloc: Global, place: &JobPlace) -> Result<Text, AllocError>
    ensures { IfOk result (λ text. text ≡ place_json place.now) }
{
    let text = canonical_text(alloc, &Value::Text(place_text(alloc, place)?))?;
    visible_text(alloc, &text)
}

/// Says how a run without an outcome ends the program, over whose host this is the log.
pub fn of_fault(alloc: Global, log: &[Entry], fault: &RunFault) -> Result<Exit, AllocError>
    ensures { IfOk result (λ told. told ≡ fault_exit log.now fault.now) }
{
    match fault {
        RunFault::Host(fault, _) => {
            let name = failed_on(alloc, log, *fault)?;
            Ok(Exit::Fault(Fault::Host(*fault, name)))
        }
        RunFault::Record(refusal) => Ok(Exit::Fault(Fault::Record(*refusal))),
        RunFault::Mismatch(place) => Ok(Exit::Mismatch(place_in(alloc, place)?)),
        RunFault::TooManyJobs => Ok(Exit::Fault(Fault::TooManyJobs)),
        RunFault::OutOfMemory => Ok(Exit::Fault(Fault::OutOfMemory)),
    }
}

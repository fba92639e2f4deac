//! What is said of a process, and of inputs for it, in place of a run.
ghost use Rattle.std.specs.Prelude.{◌≡◌, None, IfOk, option_map};
ghost use Rattle.document_links.specs.declared.process.Process.{out-Process};
ghost use Rattle.program_words.specs.RunWords.{wish_of_run};
ghost use Rattle.show_call.specs.Showings as spec;

use crate::process_forms::{lines_of, template_of};
use crate::tool_command::exit_of_command;
use document_links::Process;
use end_notes::{add_foreseen, add_remarks, misfit_lines, stopped_call};
use end_words::{Exit, RunEnd, of_failure};
use job_graph::Cause as NoValue;
use plain_data::{Items, Text};
use process_machine::World;
use program_words::{RunWords, Shows};
use run_facts::first_misfit;
use run_given::{Call, Given, file_of, given_of, here_of, without_folder};
use run_rules::Cause;
use std::alloc::{AllocError, Global};
use std::mem;
use std::rt::Env;

/// Reads the process of a document, and its inputs, and ends the program with what is to be shown of them. Nothing is made or started.
pub fn end_of_showing<R: World + Env + Input>(
    rt: &R,
    words: &RunWords,
    path: &str,
) -> Result<RunEnd, AllocError>
    ensures end { IfOk result (λ end. spec.IsEndOfShowing (wish_of_run words.now) path.now
        end.exit) }
    ensures left { IfOk result (λ end. end.left ≡ None) }
{
    match here_of(rt) {
        Ok(here) => {
            let call = Call {
                here: here.as_str(),
                words,
                path,
            };
            match given_of(rt, &call) {
                Ok(given) => {
                    let end = of_given(rt, &given, &call);
                    mem::drop(given);
                    end
                }
                Err(stop) => stopped_call(rt, stop, &call),
            }
        }
        Err(error) => without_folder(rt.alloc(), &error),
    }
}

fn of_given<R: World>(rt: &R, given: &Given, call: &Call<'_>) -> Result<RunEnd, AllocError>
    ensures end { IfOk result (λ end. spec.IsShown call.now.here.now
        (wish_of_run call.now.words.now) call.now.path.now given.now end.exit) }
    ensures left { IfOk result (λ end. end.left ≡ None) }
{
    match misfit_of(given, call.words) {
        None => of_shown(rt, given, call),
        Some(input) => of_misfit(rt.alloc(), given, input),
    }
}

// What is shown, and what is known to be wrong with it where that is asked for.
fn of_shown<R: World>(rt: &R, given: &Given, call: &Call<'_>) -> Result<RunEnd, AllocError>
    ensures end { IfOk result (λ end. spec.IsAskedShown call.now.words.now.shows given.now
        (spec.first_runtime call.now.here.now (wish_of_run call.now.words.now) call.now.path.now)
        end.exit) }
    ensures left { IfOk result (λ end. end.left ≡ None) }
{
    let notes = remarks_on(rt, given, call)?;
    let exit = exit_of(rt.alloc(), given, call)?;
    Ok(RunEnd::with_notes(exit, notes))
}

// What is known to be wrong with a process, and what of it is ignored, where that is asked for.
fn remarks_on<R: World>(rt: &R, given: &Given, call: &Call<'_>) -> Result<Vec<String>, AllocError> {
    let mut lines = Vec::new(rt.alloc());
    if call.words.shows == Shows::Lines {
        let file = file_of(call.words.inputs);
        add_foreseen(rt.alloc(), &given.process, &mut lines)?;
        add_remarks(rt, given, call.words.document, file, &mut lines)?;
    }
    Ok(lines)
}

// The first input whose value has to fit and does not.
fn misfit_of<'a>(given: &'a Given, words: &RunWords) -> Option<&'a Text>
    ensures { option_map (λ input. input.now) result
        ≡ spec.misfit_of (wish_of_run words.now) given.now }
{
    if is_checked(words) {
        return first_misfit(&given.process, &given.inputs);
    }
    None
}

fn is_checked(words: &RunWords) -> bool
    ensures { result ≡ spec.is_checked words.now.shows (wish_of_run words.now).inputs }
{
    match words.shows {
        Shows::Command => true,
        _ => words.inputs.is_some(),
    }
}

// An input has no value that fits.
fn of_misfit(alloc: Global, given: &Given, input: &Text) -> Result<RunEnd, AllocError>
    ensures end { IfOk result (λ end. end.exit
        ≡ spec.failed (Cause.Equation (NoValue.Kind input.now))) }
    ensures left { IfOk result (λ end. end.left ≡ None) }
{
    let notes = misfit_lines(alloc, given, input)?;
    let cause = Cause::Equation(NoValue::Kind(input.copied(alloc)?));
    let exit = of_failure(alloc, Items::new(alloc), cause)?;
    Ok(RunEnd::with_notes(exit, notes))
}

// What is to be shown of a process and its inputs.
fn exit_of(alloc: Global, given: &Given, call: &Call<'_>) -> Result<Exit, AllocError>
    ensures { IfOk result (spec.IsAskedShown call.now.words.now.shows given.now
        (spec.first_runtime call.now.here.now (wish_of_run call.now.words.now) call.now.path.now)) }
{
    match call.words.shows {
        Shows::Command => exit_of_tool(alloc, given, call),
        Shows::Template => Ok(Exit::Output(template_of(alloc, &given.process)?)),
        Shows::Lines | Shows::Outputs => Ok(Exit::Output(lines_of(alloc, &given.process)?)),
    }
}

// The command of a tool; of a workflow its lines.
fn exit_of_tool(alloc: Global, given: &Given, call: &Call<'_>) -> Result<Exit, AllocError>
    ensures { IfOk result (spec.IsCommandShown (out-Process given.now.process) given.now
        (spec.first_runtime call.now.here.now (wish_of_run call.now.words.now) call.now.path.now)) }
{
    match &given.process {
        Process::Tool(tool) => exit_of_command(alloc, tool, &given.inputs, call),
        Process::Workflow(_) => Ok(Exit::Output(lines_of(alloc, &given.process)?)),
    }
}

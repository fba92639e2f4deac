ghost use Rattle.std.specs.Prelude.{◌≡◌, ◌≢◌, None, Ok, IfOk, IfErr, OnOk, OnErr, map, string_bytes};
ghost use Rattle.clap.specs.Words.{HasKind, fault_of, kind_of};
ghost use Rattle.program_words.specs.CommandLine.{command_line};
ghost use Rattle.end_words.specs.Told.{IsTold, Says};
ghost use Rattle.cwl_program.specs.Tells.{Explains, IsEndOf, LeadsTo, Tells, asks_why, telling_of};
ghost use Rattle.run_call.specs.Runs.{IsRunTold};

use crate::certificate::exit_of_check;
use crate::demo::exit_of_demo;
use crate::standard_output::StandardOutput;
use crate::usual_words::{answer_words, processors_of};
use clap::Error;
use clap::error::ErrorKind;
use end_words::{Exit, Fault, RunEnd, explain_exit, put_left, put_notes, put_savings, put_unkept};
use given_words::{with_budget, with_preference, with_slots};
use plan_call::end_of_plan;
use process_machine::World;
use program_words::{
    Choice, Shows, Telling, add_explain_word, add_terminal_words, choice_of, name_json_word,
};
use record_call::exit_of_record;
use record_program::{Ending, Records};
use run_call::end_of_process;
use show_call::end_of_showing;
use std::alloc::{AllocError, Global};
use std::env::VarError;
use std::io::{IsTerminal, Stdout, Write};
use std::process::{ExitCode, Stdio};
use std::rt::Env;
use std::{env, io, mem};

/// The status of a fault, and of a command line that is refused.
const FAULT: u8 = 3;

/// Runs the program on its arguments, `PATH` (empty if it is absent), standard output and standard error. If standard error is
/// a terminal it adds `--explain`, and for a run `--progress`; on one whose `TERM` is `dumb`, and if `DEPAROHI_EXPLAIN` is 1,
/// `--explain` alone.
///
/// A word that is no UTF-8 ends with status 3.
pub fn program(rt: HostRuntime) -> ExitCode {
    let status = match given_to(&rt) {
        Ok((words, path)) => main_run(
            &rt,
            words.as_slice(),
            path.as_str(),
            &mut output_of(&rt),
            &mut rt.stderr(),
        ),
        Err(error) => unstarted(&error, &mut rt.stderr()),
    };
    ExitCode::from(status)
}

fn output_of(rt: &HostRuntime) -> StandardOutput<Stdout> {
    let out = rt.stdout();
    let is_terminal = out.is_terminal();
    StandardOutput::new(rt.alloc(), out, is_terminal)
}

// The words and `PATH`, which is empty if it is absent or no UTF-8.
fn given_to(rt: &HostRuntime) -> io::Result<(Vec<String>, String)> {
    let words = words(rt)?;
    match env::var(rt, "PATH") {
        Ok(path) => Ok((words, path)),
        Err(VarError::OutOfMemory) => Err(io::Error::from(AllocError)),
        Err(_) => Ok((words, String::new(rt.alloc()))),
    }
}

// Says why the words can't be read.
fn unstarted<E: Write>(error: &io::Error, err: &mut E) -> u8 {
    let _told = match error.kind() {
        io::ErrorKind::OutOfMemory => writeln!(err, "fault: OutOfMemory"),
        _ => writeln!(err, "error: the command line: {error}"),
    };
    FAULT
}

fn words(rt: &HostRuntime) -> io::Result<Vec<String>> {
    let given: Vec<String> = env::args(rt)?.collect(rt.alloc())?;
    let settled = with_slots(rt.alloc(), given.as_slice(), processors_of(rt))?;
    mem::drop(given);
    let preferred = with_preference(rt.alloc(), settled.as_slice())?;
    mem::drop(settled);
    let counted = with_budget(rt.alloc(), preferred.as_slice())?;
    mem::drop(preferred);
    let mut words = name_json_word(rt.alloc(), counted.as_slice())?;
    mem::drop(counted);
    let is_terminal = rt.stderr().is_terminal();
    if is_terminal && !is_set(rt, "TERM", "dumb") {
        add_terminal_words(rt.alloc(), &mut words)?;
    } else if is_terminal || is_set(rt, "DEPAROHI_EXPLAIN", "1") {
        add_explain_word(rt.alloc(), &mut words)?;
    }
    Ok(words)
}

// Whether a variable of the environment has this value.
fn is_set(rt: &HostRuntime, name: &str, value: &str) -> bool {
    match env::var(rt, name) {
        Ok(found) => found.as_str() == value,
        Err(_) => false,
    }
}

/// Runs the whole program over two writers, for these words (the program's name first) and this `PATH` for children.
///
/// Returns the exit status: 0 success, 1 a permanent failure or a broken certificate, 2 a temporary failure, 33 a refused
/// document, input or certificate, 3 any other fault. A write that fails ends with 3, and so do words of `--explain` for which
/// there is no memory. With `run --verbose` or `--progress` the errors also take what is said of the jobs while the run goes on.
pub fn main_run<R: World + Env + Input + Records, O: Write, E: Write>(
    rt: &R,
    words: &[String],
    path: &str,
    out: &mut O,
    err: &mut E,
) -> u8
where
    R::File: Into<Stdio>,
    ensures { Tells R.Records R.Kept.Record rt.now (map (λ word. string_bytes word) words.now)
        path.now (O.contents out.old) (O.contents out.new) (E.contents err.old)
        (E.contents err.new) result }
{
    match end_of(rt, words, path, err) {
        Ok(end) => {
            let status = say(rt.alloc(), &end, out, err);
            mem::drop(end);
            status
        }
        Err(error) => explain(&error, words, out, err),
    }
}

/// How the program ends, and whether that is to be explained in words.
#[derive(Drop)]
struct End {
    run: RunEnd,
    explains: bool,
    // what was said of its jobs
    telling: Telling,
}

/// Says how the program ends.
fn say<O: Write, E: Write>(alloc: Global, end: &End, out: &mut O, err: &mut E) -> u8
    ensures { Says end.now.run.exit end.now.run.left end.now.run.savings end.now.run.unkept
        end.now.explains
        (O.contents out.old) (O.contents out.new) (E.contents err.old) (E.contents err.new) result }
{
    match tell(alloc, end, out, err) {
        Ok(()) => end.run.exit.status(),
        Err(error) => {
            tell_unwritten(end, &error, err);
            FAULT
        }
    }
}

// Says that standard output did not take what goes there, if that is to be explained.
fn tell_unwritten<E: Write>(end: &End, error: &io::Error, err: &mut E) {
    let is_of_memory = matches!(error.kind(), io::ErrorKind::OutOfMemory);
    let is_for_output = matches!(
        &end.run.exit,
        Exit::Output(_) | Exit::Plan(_) | Exit::Broken(_) | Exit::Record(Ending::Rows(_))
    );
    if end.explains && !is_of_memory && is_for_output {
        let _told = writeln!(err, "standard output can't be written: {error}");
    }
}

// Writes the line of an end, and behind it the words that it is to be explained in, the notes on it, what became of the jobs, and where the
// work folder is. If it is not to be explained, what could not be kept follows alone.
fn tell<O: Write, E: Write>(alloc: Global, end: &End, out: &mut O, err: &mut E) -> io::Result<()>
    ensures { OnOk result (IsTold end.now.run.exit end.now.run.left end.now.run.savings
        end.now.run.unkept
        (O.contents out.old) (O.contents out.new) (E.contents err.old) (E.contents err.new)
        end.now.explains) }
{
    end.run.exit.print(out, err)?;
    if end.explains {
        let notes = end.run.notes.as_slice();
        explain_exit(alloc, &end.run.exit, notes, err)?;
        put_notes(alloc, &end.run.exit, notes, err)?;
        put_savings(alloc, &end.run.exit, &end.run.savings, err)?;
        return put_left(alloc, &end.run.left, err);
    }
    put_unkept(alloc, &end.run.exit, &end.run.unkept, err)
}

/// Returns the end that the words lead to, or `clap`'s error. What becomes of the jobs of a run is said on the errors if the words want it.
#[tactic(auto, using(crate::specs::Tells::unread))]
fn end_of<R: World + Env + Input + Records, E: Write>(
    rt: &R,
    words: &[String],
    path: &str,
    err: &mut E,
) -> Result<End, Error>
where
    R::File: Into<Stdio>,
    ensures ok { IfOk result (λ end. LeadsTo R.Records R.Kept.Record rt.now
        (map (λ word. string_bytes word) words.now) path.now
        end.run.exit end.run.left end.explains end.telling) }
    ensures told { IfOk result (λ end. IsRunTold end.telling (E.contents err.old)
        (E.contents err.new)) }
    ensures untold { OnErr result (E.contents err.new ≡ E.contents err.old) }
    ensures other { IfErr result (λ e. kind_of e ≢ ErrorKind.OutOfMemory) }
    ensures err { IfErr result
        (HasKind (fault_of command_line (map (λ word. string_bytes word) words.now))) }
{
    let alloc = rt.alloc();
    match choice_of(alloc, words) {
        Ok(choice) => Ok(End {
            run: end_or_fault(alloc, end_of_choice(rt, &choice, path, err)),
            explains: asks_why(&choice),
            telling: telling_of(&choice),
        }),
        Err(error) if matches!(error.kind(), ErrorKind::OutOfMemory) => Ok(End {
            run: RunEnd::bare(alloc, Exit::Fault(Fault::OutOfMemory)),
            explains: false,
            telling: Telling::Nothing,
        }),
        Err(error) => Err(error),
    }
}

fn end_of_choice<R: World + Env + Input + Records, E: Write>(
    rt: &R,
    choice: &Choice,
    path: &str,
    err: &mut E,
) -> Result<RunEnd, AllocError>
where
    R::File: Into<Stdio>,
    ensures end { IfOk result (λ end. IsEndOf R.Records R.Kept.Record rt.now path.now choice.now
        end.exit end.left) }
    ensures told { IsRunTold (telling_of choice.now) (E.contents err.old) (E.contents err.new) }
{
    match choice {
        Choice::Demo(_) => bare(rt.alloc(), exit_of_demo(rt.alloc(), path)),
        Choice::Check(file, _) => bare(rt.alloc(), exit_of_check(rt, file)),
        Choice::Run(words) => match words.shows {
            Shows::Outputs => end_of_process(rt, words, path, err),
            _ => end_of_showing(rt, words, path),
        },
        Choice::Plan(words) => end_of_plan(rt, words, path),
        Choice::Record(words) => bare(rt.alloc(), exit_of_record(rt, words)),
    }
}

// An end of which nothing else is said.
fn bare(alloc: Global, exit: Result<Exit, AllocError>) -> Result<RunEnd, AllocError>
    ensures exit { IfOk result (λ end. exit ≡ Ok end.exit) }
    ensures left { IfOk result (λ end. end.left ≡ None) }
{
    Ok(RunEnd::bare(alloc, exit?))
}

/// Whether the choice asks for words on what went wrong.
fn asks_why(choice: &Choice) -> bool
    ensures { result ≡ asks_why choice.now }
{
    match choice {
        Choice::Demo(explains) => *explains,
        Choice::Check(_, explains) => *explains,
        Choice::Run(words) => words.explain,
        Choice::Plan(words) => words.run.explain,
        Choice::Record(words) => words.explain,
    }
}

/// What the choice wants to be said of the jobs of a run.
fn telling_of(choice: &Choice) -> Telling
    ensures { result ≡ telling_of choice.now }
{
    match choice {
        Choice::Run(words) => words.telling,
        _ => Telling::Nothing,
    }
}

/// Out of memory ends the program as a fault.
fn end_or_fault(alloc: Global, ended: Result<RunEnd, AllocError>) -> RunEnd
    ensures ok { IfOk ended (λ end. result ≡ end) }
    ensures err { OnErr ended (result.exit ≡ Exit.Fault Fault.OutOfMemory) }
    ensures bare { OnErr ended (result.left ≡ None) }
{
    match ended {
        Ok(end) => end,
        Err(AllocError) => RunEnd::bare(alloc, Exit::Fault(Fault::OutOfMemory)),
    }
}

/// Help goes to the output, with status 0; what is wrong with the words to the errors, and behind it what other words do here.
fn explain<O: Write, E: Write>(error: &Error, words: &[String], out: &mut O, err: &mut E) -> u8
    ensures { Explains (kind_of error.now) (O.contents out.old) (O.contents out.new)
        (E.contents err.old) (E.contents err.new) result }
{
    if error.use_stderr() {
        let _told = write!(err, "{error}");
        answer_words(words, err);
        return FAULT;
    }
    match write!(out, "{error}") {
        Ok(()) => 0,
        Err(_) => FAULT,
    }
}

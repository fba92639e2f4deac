//! What went wrong, in words (`--explain`).
ghost use Rattle.std.specs.Prelude.{◌≡◌, IfOk, OnOk, string_bytes};
ghost use Rattle.std.specs.Io.KnownBytes.{Appends};
ghost use Rattle.end_words.specs.Told.{AreNotes, HasLine, HasLines, IsExplained, IsLeftTold, IsPut, IsSavingsTold, IsUnkeptTold, left_words, unkept_words};

use crate::exit::{Exit, Fault, PlanTexts, Refusal, Unreadable};
use command_line::BuildFault;
use cwl_value::ValueRefusal;
use job_graph::Cause as NoValue;
use param_refs::RefFault;
use plain_data::Text;
use plan_checker::Broken;
use proc_host::HostFault;
use process_machine::Hindrance;
use program_words::{Savings, add_word, cut, savings_line, visible};
use record_program::{Ending, fault_words as record_words};
use run_facts::WorkTrouble;
use run_rules::{Cause, CollectCause};
use std::alloc::{AllocError, Global};
use std::io;
use std::io::Write;

/// The place of the process itself, as JSON text.
const ROOT: &str = "\"main\"";

/// Writes a line that says what went wrong and where, or why a plan is as it is; nothing of another end in which nothing went wrong. If
/// the first of the notes says all of it (`is_led`), it is that line.
pub fn explain_exit<E: Write>(
    alloc: Global,
    exit: &Exit,
    notes: &[String],
    err: &mut E,
) -> io::Result<()>
    ensures { OnOk result (IsExplained exit.now (E.contents err.old) (E.contents err.new)) }
{
    match exit {
        Exit::Output(_) => Ok(()),
        Exit::Plan(texts) => put_reasons(texts, err),
        Exit::Broken(broken) => put_words(alloc, broken_words(alloc, *broken)?.as_str(), err),
        Exit::Record(ending) => explain_ending(alloc, ending, err),
        Exit::Refused(refusal) => {
            put_words(alloc, refusal_words(alloc, refusal, notes)?.as_str(), err)
        }
        Exit::Permanent(place, cause) => {
            put_words(
                alloc,
                cause_words(alloc, place, cause, notes)?.as_str(),
                err,
            )
        }
        Exit::Temporary(place) => put_words(alloc, temporary_words(alloc, place)?.as_str(), err),
        Exit::Mismatch(place) => put_words(alloc, mismatch_words(alloc, place)?.as_str(), err),
        Exit::Fault(fault) => put_words(alloc, fault_words(alloc, fault)?.as_str(), err),
    }
}

fn put_reasons<E: Write>(texts: &PlanTexts, err: &mut E) -> io::Result<()>
    ensures { OnOk result (Appends (E.contents err.old) (E.contents err.new) texts.now.reasons) }
{
    let reasons = &texts.reasons;
    write!(err, "{reasons}")
}

// Writes a line that says why a record can't be shown; nothing if it is.
fn explain_ending<E: Write>(alloc: Global, ending: &Ending, err: &mut E) -> io::Result<()>
    ensures { OnOk result (IsExplained (Exit.Record ending.now) (E.contents err.old)
        (E.contents err.new)) }
{
    match ending {
        Ending::Rows(_) => Ok(()),
        Ending::Input => put_words(
            alloc,
            "the file is not there, is a folder, or can't be looked at",
            err,
        ),
        Ending::Record(fault) => put_words(alloc, record_words(alloc, *fault)?.as_str(), err),
    }
}

/// Writes the lines on what failed, but for one that stands in place of the words, and those on what a run has ignored; none behind a
/// plan and behind the rows of a record.
pub fn put_notes<E: Write>(
    alloc: Global,
    exit: &Exit,
    notes: &[String],
    err: &mut E,
) -> io::Result<()>
    ensures { OnOk result (AreNotes exit.now (E.contents err.old) (E.contents err.new)) }
{
    match exit {
        Exit::Plan(_) | Exit::Record(_) => Ok(()),
        _ => put_lines(alloc, behind_words(exit, notes), err),
    }
}

// The lines that stand behind the words.
fn behind_words<'a>(exit: &Exit, notes: &'a [String]) -> &'a [String] {
    match notes {
        [_, rest @ ..] if is_led(exit) => rest,
        _ => notes,
    }
}

// Whether the first line on an end says what its words would, with the place: of an input object that is refused, and of an input of the
// process itself that is lacking or of another type.
fn is_led(exit: &Exit) -> bool {
    match exit {
        Exit::Refused(Refusal::Inputs(_)) => true,
        Exit::Permanent(place, Cause::Equation(NoValue::Kind(_))) => place.as_str() == ROOT,
        _ => false,
    }
}

fn put_lines<E: Write>(alloc: Global, lines: &[String], err: &mut E) -> io::Result<()>
    ensures { OnOk result (HasLines (E.contents err.old) (E.contents err.new)) }
{
    for line in lines {
        put_line(alloc, line.as_str(), err)?;
    }
    Ok(())
}

/// Writes what became of the jobs of a run that succeeded, if it speaks of them.
pub fn put_savings<E: Write>(
    alloc: Global,
    exit: &Exit,
    savings: &Option<Savings>,
    err: &mut E,
) -> io::Result<()>
    ensures { OnOk result (IsSavingsTold exit.now savings.now (E.contents err.old)
        (E.contents err.new)) }
{
    match exit {
        Exit::Output(_) => match savings {
            None => Ok(()),
            Some(savings) => put_line(alloc, savings_line(alloc, savings)?.as_str(), err),
        },
        _ => Ok(()),
    }
}

/// Writes where the work folder is, if it stays.
pub fn put_left<E: Write>(alloc: Global, left: &Option<Text>, err: &mut E) -> io::Result<()>
    ensures { OnOk result (IsLeftTold left.now (E.contents err.old) (E.contents err.new)) }
{
    match left {
        None => Ok(()),
        Some(work) => put_line(alloc, left_words(alloc, work)?.as_str(), err),
    }
}

/// Writes what a run could not keep since there is no room, if it speaks of that.
pub fn put_unkept<E: Write>(
    alloc: Global,
    exit: &Exit,
    unkept: &Option<Text>,
    err: &mut E,
) -> io::Result<()>
    ensures { OnOk result (IsUnkeptTold exit.now unkept.now (E.contents err.old)
        (E.contents err.new)) }
{
    match exit {
        Exit::Plan(_) | Exit::Broken(_) | Exit::Record(_) => Ok(()),
        _ => match unkept {
            None => Ok(()),
            Some(what) => put_line(alloc, unkept_words(alloc, what.as_str())?.as_str(), err),
        },
    }
}

/// The line on what could not be kept.
pub(crate) fn unkept_words(alloc: Global, what: &str) -> Result<String, AllocError>
    ensures { IfOk result (λ words. string_bytes words ≡ unkept_words what.now) }
{
    format!(in alloc; "not kept: {what}")
}

fn left_words(alloc: Global, work: &Text) -> Result<String, AllocError>
    ensures { IfOk result (λ words. string_bytes words ≡ left_words work.now) }
{
    format!(in alloc; "the work folder {work} stays")
}

// Writes these words as a line, and of long ones their ends.
fn put_words<E: Write>(alloc: Global, words: &str, err: &mut E) -> io::Result<()>
    ensures { OnOk result (HasLine (E.contents err.old) (E.contents err.new)) }
{
    put_line(alloc, cut(alloc, words)?.as_str(), err)
}

// Writes a line as it is shown.
fn put_line<E: Write>(alloc: Global, line: &str, err: &mut E) -> io::Result<()>
    ensures { OnOk result (IsPut line.now (E.contents err.old) (E.contents err.new)) }
{
    let shown = visible(alloc, line)?;
    writeln!(err, "{shown}")
}

/// Why a text is no input object.
pub fn value_words(alloc: Global, refusal: ValueRefusal) -> Result<String, AllocError> {
    match refusal {
        ValueRefusal::NotWhole => String::from_str(alloc, "a number is not whole"),
        ValueRefusal::OutOfRange => String::from_str(alloc, "a number is out of range"),
        ValueRefusal::BadFile(field) => format!(in alloc; "a File or Directory has a bad {field}"),
        ValueRefusal::NotJson => String::from_str(alloc, "the text is not JSON"),
        ValueRefusal::OutOfMemory => String::from_str(alloc, "out of memory"),
        ValueRefusal::TooDeep => String::from_str(alloc, "the JSON nests too deep"),
    }
}

fn refusal_words(alloc: Global, refusal: &Refusal, notes: &[String]) -> Result<String, AllocError> {
    match refusal {
        Refusal::Document(fault) => format!(in alloc; "{fault}"),
        Refusal::Links(fault) => format!(in alloc; "{fault}"),
        Refusal::Inputs(refusal) => inputs_words(alloc, *refusal, notes.first()),
        Refusal::Location(fault) => format!(in alloc; "a document or an input file: {fault}"),
        Refusal::Certificate(line) => {
            format!(in alloc; "line {line} of the file is no line of a certificate")
        }
    }
}

fn inputs_words(
    alloc: Global,
    refusal: ValueRefusal,
    note: Option<&String>,
) -> Result<String, AllocError> {
    match note {
        Some(line) => String::from_str(alloc, line.as_str()),
        None => {
            let words = value_words(alloc, refusal)?;
            format!(in alloc; "the input object: {words}")
        }
    }
}

// The rules of certificates, each with the vertex that breaks it, and its line.
fn broken_words(alloc: Global, broken: Broken) -> Result<String, AllocError> {
    match broken {
        Broken::MarkCount => format!(in alloc; "the plan has not one mark for each vertex"),
        Broken::ChargeCount => {
            format!(in alloc;
                "the charges have not one entry for each vertex, or not one pass for each of its parents"
            )
        }
        Broken::Sum(cost, value) => {
            format!(in alloc; "the plan costs {cost}, and the charges come to {value}")
        }
        Broken::ParentPruned(i, parent) => {
            let line = line_of(i);
            format!(in alloc;
                "line {line}: vertex {i} is computed, and its parent {parent} is pruned"
            )
        }
        Broken::NeededPruned(i) => at_vertex(alloc, i, "is needed, and pruned"),
        Broken::NoLoad(i) => at_vertex(alloc, i, "is loaded, and can't be"),
        Broken::EnterNotNeeded(i) => {
            at_vertex(alloc, i, "is not needed, and something enters there")
        }
        Broken::ThroughOverLoad(i) => {
            at_vertex(alloc, i, "lets more through than its load cost")
        }
        Broken::PayOverCompute(i) => at_vertex(alloc, i, "pays more than its compute cost"),
        Broken::InNotThrough(i) => {
            at_vertex(alloc, i, "gets something else in all than goes through it")
        }
        Broken::ThroughNotOut(i) => {
            at_vertex(
                alloc,
                i,
                "pays and passes on something else in all than goes through it",
            )
        }
    }
}

fn at_vertex(alloc: Global, vertex: usize, words: &str) -> Result<String, AllocError> {
    let line = line_of(vertex);
    format!(in alloc; "line {line}: vertex {vertex} {words}")
}

// The line of a vertex in a certificate's text: two lines are before the first one.
fn line_of(vertex: usize) -> usize {
    vertex.saturating_add(3)
}

fn temporary_words(alloc: Global, place: &Text) -> Result<String, AllocError> {
    format!(in alloc;
        "the command of {place} ended by a signal, or with a code of `temporaryFailCodes`"
    )
}

fn cause_words(
    alloc: Global,
    place: &Text,
    cause: &Cause,
    notes: &[String],
) -> Result<String, AllocError> {
    match cause {
        Cause::Equation(NoValue::Kind(input)) if place.as_str() == ROOT => match notes.first() {
            Some(line) => String::from_str(alloc, line.as_str()),
            None => format!(in alloc; "the value of input `{input}` does not fit its type"),
        },
        Cause::Equation(cause) => equation_words(alloc, place, cause),
        Cause::Build(BuildFault::Reference(fault)) => {
            let more = known_names(*fault);
            format!(in alloc; "no command: {fault}{more}")
        }
        Cause::Build(fault) => format!(in alloc; "no command: {fault}"),
        Cause::Exit(Some(code)) => {
            format!(in alloc; "the command of {place} ended with code {code}")
        }
        Cause::Exit(None) => format!(in alloc; "the command of {place} ended by a signal"),
        Cause::Collect(CollectCause::Input(fault)) => format!(in alloc; "{fault}"),
        Cause::Collect(CollectCause::Output(fault)) => format!(in alloc; "no outputs: {fault}"),
    }
}

// What a reference may begin with, if it begins with another name.
fn known_names(fault: RefFault) -> &'static str {
    match fault {
        RefFault::NoName =>
            "; only `inputs`, `self` and `runtime` are known, and a command of the shell is not run",
        _ => "",
    }
}

// What a reference of a step may begin with, if it begins with another name.
fn names_of_steps(fault: RefFault) -> &'static str {
    match fault {
        RefFault::NoName => "; only `inputs` and `self` are known there",
        _ => "",
    }
}

// Of the inputs of a step the place is named.
fn equation_words(alloc: Global, place: &Text, cause: &NoValue) -> Result<String, AllocError> {
    match cause {
        NoValue::Missing(input) => {
            let input = input_at(alloc, place, input)?;
            format!(in alloc; "a File or Directory of {input} is absent, or of the other kind")
        }
        NoValue::Kind(input) => {
            let input = input_at(alloc, place, input)?;
            format!(in alloc; "{input} is null, or not of its type")
        }
        NoValue::Secondary(input) => {
            let input = input_at(alloc, place, input)?;
            let more = if place.as_str() == ROOT {
                ""
            } else {
                "; a workflow hands on those that its own input asks for"
            };
            format!(in alloc; "a file of {input} lacks a secondary file{more}")
        }
        NoValue::Link(fault) => format!(in alloc; "{fault}"),
        NoValue::Reference(fault) => {
            let more = names_of_steps(*fault);
            format!(in alloc; "a reference of `valueFrom` or `when` has no value: {fault}{more}")
        }
        NoValue::Scatter(fault) => format!(in alloc; "{fault}"),
    }
}

fn input_at(alloc: Global, place: &Text, input: &Text) -> Result<String, AllocError> {
    if place.as_str() == ROOT {
        return format!(in alloc; "input `{input}`");
    }
    format!(in alloc; "input `{input}` of {place}")
}

fn mismatch_words(alloc: Global, place: &Text) -> Result<String, AllocError> {
    let words =
        "gave other outputs than the record has of the same work, or failed: its tool is not deterministic";
    format!(in alloc;
        "the job at {place} {words}; `WorkReuse` with `enableReuse: false` keeps it out of the record"
    )
}

fn fault_words(alloc: Global, fault: &Fault) -> Result<String, AllocError> {
    match fault {
        Fault::Host(fault, name) => call_words(alloc, host_words(*fault), name.as_ref()),
        Fault::Record(refusal) => format!(in alloc; "{refusal}"),
        Fault::Unopened(file, fault) => {
            let why = record_words(alloc, *fault)?;
            format!(in alloc; "{file}: {why}")
        }
        Fault::Words => {
            String::from_str(
                alloc,
                "`--cache` has a record and an archive of its own, so it stands beside neither `--record` nor `--archive`",
            )
        }
        Fault::RecordWords => String::from_str(
            alloc,
            "`--budget` and `--check` need the folder of a cache; `--forget`, `--budget`, `--long` and `--check` can't be used with one another, and `--remove` only with `--check`",
        ),
        Fault::Folder => {
            String::from_str(alloc, "the name of the current folder can't be found")
        }
        Fault::Unread(name, why) => unread_words(alloc, name, *why),
        Fault::NoObject => String::from_str(alloc, "the value of the input file is no object"),
        Fault::Work(path, why) => work_words(alloc, path, *why),
        Fault::Outdir(path, why) => {
            let why = hindrance_words(*why);
            format!(in alloc; "the output folder {path} can't be used: {why}")
        }
        Fault::TooManyJobs => {
            String::from_str(
                alloc,
                "there are more jobs, or more links between them, than a run may have",
            )
        }
        Fault::OutOfMemory => String::from_str(alloc, "out of memory"),
    }
}

// Why the work folder could not be made, and what would do.
fn work_words(alloc: Global, path: &Text, why: WorkTrouble) -> Result<String, AllocError> {
    let mut remover = String::from_str(alloc, "rm -r ")?;
    add_word(&mut remover, path.as_str())?;
    match why {
        WorkTrouble::There => {
            format!(in alloc;
                "{path} is there already, and no run made it as its work folder: `--work` names another one"
            )
        }
        WorkTrouble::Kept => {
            format!(in alloc;
                "the work folder {path} is there already, since a run has left it: `{remover}` removes it"
            )
        }
        WorkTrouble::Left => {
            format!(in alloc;
                "the work folder {path} was left by a run that was interrupted: `{remover}` removes it"
            )
        }
        WorkTrouble::Busy => {
            format!(in alloc;
                "the work folder {path} is that of a run which still goes on: `--work` names another one"
            )
        }
        WorkTrouble::Elsewhere => {
            format!(in alloc;
                "the work folder {path} was made by a run on another computer, in another container or before this computer was started: if that run is over, `{remover}` removes it"
            )
        }
        WorkTrouble::Around => {
            format!(in alloc;
                "results or stored files would be in the work folder {path}, which is removed at the end: `--work` names another one"
            )
        }
        other => {
            let why = making_words(other);
            format!(in alloc; "the work folder {path} can't be made: {why}")
        }
    }
}

fn making_words(why: WorkTrouble) -> &'static str {
    match why {
        WorkTrouble::NoParent => "the folder that it is to be in is not there",
        WorkTrouble::Forbidden => "it is not allowed",
        WorkTrouble::Full => "there is no room",
        _ => "the system refuses it",
    }
}

/// What hinders the use of a folder or a file for results.
pub fn hindrance_words(why: Hindrance) -> &'static str {
    match why {
        Hindrance::Given => "a file that the run was given is there",
        Hindrance::Guarded =>
            "it is a file of the run's own: a document, the inputs, the record, or what stands beside that",
        Hindrance::Taken =>
            "a file is in the place of a folder, or a folder in the place of a file",
        Hindrance::Forbidden => "it is not allowed",
        Hindrance::Full => "there is no room",
        Hindrance::Changed => "what was to be copied has changed since it was looked at",
        Hindrance::TooLong => "the command, or one of its words, is longer than the system takes",
        Hindrance::Other => "the system refuses it",
    }
}

// Which call failed, and on what.
fn call_words(alloc: Global, words: &str, name: Option<&Text>) -> Result<String, AllocError> {
    match name {
        Some(name) => format!(in alloc; "{words}: {name}"),
        None => String::from_str(alloc, words),
    }
}

fn unread_words(alloc: Global, name: &Text, why: Unreadable) -> Result<String, AllocError> {
    match why {
        Unreadable::Absent => format!(in alloc; "there is no file {name}"),
        Unreadable::Forbidden => format!(in alloc; "the file {name} may not be read"),
        Unreadable::IsFolder => format!(in alloc; "{name} is a folder"),
        Unreadable::NoFile => format!(in alloc;
            "{name} is no regular file, and only those are read"
        ),
        Unreadable::TooLong(size) => {
            format!(in alloc; "the file {name} has {size} bytes, and at most 67108864 are read")
        }
        Unreadable::TooMuch => format!(in alloc;
            "the file {name} is not read, since the documents that steps name have more than 67108864 bytes together"
        ),
        Unreadable::Other => format!(in alloc; "the file {name} is not there, or can't be read"),
    }
}

fn host_words(fault: HostFault) -> &'static str {
    match fault {
        HostFault::Measure => "an input file can't be read, or is neither a file nor a folder",
        HostFault::Stage => "an input file can't be copied into the folder of a job",
        HostFault::Start => "the command can't be started",
        HostFault::Collect => "the end of a command can't be waited for",
        HostFault::Scan =>
            "the output folder of a job can't be read, or has what is neither a file nor a folder",
        HostFault::Head => "the contents of a file can't be read",
        HostFault::Fetch => "the kept files of an earlier job can't be read",
        HostFault::Store => "the output files of a job can't be kept",
        HostFault::Deliver => "an output file can't be copied into the output folder",
        HostFault::Discard => "the kept files of a job can't be removed",
    }
}

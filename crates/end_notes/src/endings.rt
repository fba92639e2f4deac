//! What an exit code of a shell speaks of, and an end by a signal.
ghost use Rattle.std.specs.Prelude.{◌≡◌, IfOk, string_bytes};
ghost use Rattle.end_notes.specs.Endings as spec;

use std::alloc::{AllocError, Global};

/// What a shell adds to the number of a signal.
const SHELL: i32 = 128;

/// Signals that end programs: the code of a shell whose command one ended, its number and name, and what it may come from.
static SIGNALS: [(i32, &str, &str); 13] = [
    (129, "1 (SIGHUP)", "its terminal was closed"),
    (130, "2 (SIGINT)", "somebody interrupted it"),
    (
        132,
        "4 (SIGILL)",
        "the program may be made for another processor",
    ),
    (134, "6 (SIGABRT)", "the program gave up"),
    (
        135,
        "7 (SIGBUS)",
        "a file that it uses was cut off, or the disk is full",
    ),
    (136, "8 (SIGFPE)", "a division by zero"),
    (137, "9 (SIGKILL)", "the system may have been out of memory"),
    (
        139,
        "11 (SIGSEGV)",
        "the program read or wrote where it may not, a segmentation fault",
    ),
    (141, "13 (SIGPIPE)", "what it wrote to was closed"),
    (
        143,
        "15 (SIGTERM)",
        "somebody ended it, or a batch system did",
    ),
    (
        152,
        "24 (SIGXCPU)",
        "the limit of processor time was reached",
    ),
    (
        153,
        "25 (SIGXFSZ)",
        "the limit of a file's size was reached",
    ),
    (
        159,
        "31 (SIGSYS)",
        "a call of the system that is not allowed",
    ),
];

const NO_PROGRAM: &str = "a shell ends with 127 if a program is not there";

const FORBIDDEN: &str = "a shell ends with 126 if a program is there and can't be executed";

const BY_SIGNAL: &str =
    "a signal comes from the system if memory runs out (SIGKILL), from a program that reads or writes where it may not (SIGSEGV) or gives up (SIGABRT), and from who ends it (SIGTERM)";

/// Adds a line on what an exit code says if it is a shell's, or on the signal, or on what signals come from if it is not known.
pub fn add_ending(
    alloc: Global,
    code: Option<i32>,
    signal: Option<i32>,
    lines: &mut Vec<String>,
) -> Result<(), AllocError> {
    match code {
        None => lines.push(killed_words(alloc, signal)?)?,
        Some(126) => lines.push(String::from_str(alloc, FORBIDDEN)?)?,
        Some(127) => lines.push(String::from_str(alloc, NO_PROGRAM)?)?,
        Some(code) => add_signal(alloc, code, lines)?,
    }
    Ok(())
}

fn add_signal(alloc: Global, code: i32, lines: &mut Vec<String>) -> Result<(), AllocError> {
    if let Some((signal, why)) = signal_of(code) {
        lines.push(format!(in alloc;
            "a shell ends with {code} if its command was killed by signal {signal}: {why}"
        )?)?;
    }
    Ok(())
}

// What ended a command that has no code.
fn killed_words(alloc: Global, signal: Option<i32>) -> Result<String, AllocError> {
    let Some(signal) = signal else {
        return String::from_str(alloc, BY_SIGNAL);
    };
    match signal_of(signal.saturating_add(SHELL)) {
        Some((name, why)) => killed_for(alloc, name, why),
        None => killed_by(alloc, signal),
    }
}

fn killed_for(alloc: Global, name: &str, why: &str) -> Result<String, AllocError>
    ensures { IfOk result (λ line. string_bytes line ≡ spec.killed_for name.now why.now) }
{
    format!(in alloc; "killed by signal {name}: {why}")
}

fn killed_by(alloc: Global, signal: i32) -> Result<String, AllocError>
    ensures { IfOk result (λ line. string_bytes line ≡ spec.killed_by signal) }
{
    format!(in alloc; "killed by signal {signal}")
}

// The number and name of a signal, and what it may come from, by the code of a shell.
fn signal_of(code: i32) -> Option<(&'static str, &'static str)> {
    for (shown, name, why) in SIGNALS.iter() {
        if code == *shown {
            return Some((*name, *why));
        }
    }
    None
}

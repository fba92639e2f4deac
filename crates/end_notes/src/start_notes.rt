//! What is said of a command that can't be started, of a file that can't be copied, of a folder that can't be listed, and of what a job
//! left.

use command_line::Launch;
use end_words::hindrance_words;
use plain_data::Text;
use proc_host::{Entry, HostAnswer, HostFault};
use process_machine::{Hindrance, Obstacle, Undelivered, Unlisted};
use program_words::add_word;
use run_facts::{launch_in, launch_with, listing_of};
use staging::Found;
use std::alloc::{AllocError, Global};
use std::os::unix::fs::PermissionsExt;
use std::rt::Files;
use std::{fs, io};

/// How many names of a folder are shown.
const MOST_NAMES: usize = 10;

/// The bits of a file's mode by which somebody may execute it.
const EXECUTES: u32 = 0o111;

/// Adds lines on a program that can't be started: the launcher if it is that, the folders that it was looked for in if it was named without
/// one, what is there, and what would do. If the command is too long, a line says that alone.
pub fn add_start<R: AllocGlobal + Files>(
    rt: &R,
    log: &[Entry],
    launcher: &[Text],
    why: Option<Hindrance>,
    lines: &mut Vec<String>,
) -> Result<(), AllocError> {
    if let Some(Hindrance::TooLong) = why {
        lines.push(String::from_str(rt.alloc(), hindrance_words(Hindrance::TooLong))?)?;
        return Ok(());
    }
    let Some(launch) = unstarted(log) else {
        return Ok(());
    };
    match (launcher.first(), launch.words.get(0)) {
        (Some(program), Some(_)) => {
            lines.push(format!(in rt.alloc();
                "the program that is started is its launcher's: {program}"
            )?)?;
            add_program(rt, launch, program.as_str(), lines)
        }
        (None, Some(program)) => add_program(rt, launch, program.as_str(), lines),
        (_, None) => Ok(()),
    }
}

fn add_program<R: AllocGlobal + Files>(
    rt: &R,
    launch: &Launch,
    program: &str,
    lines: &mut Vec<String>,
) -> Result<(), AllocError> {
    if program.contains('/') {
        add_named(rt, launch, program, lines)
    } else {
        add_sought(rt, launch, program, lines)
    }
}

/// Adds lines on what could not be copied, and on what has changed if that is why.
pub fn add_uncopied(
    alloc: Global,
    missed: &Undelivered,
    lines: &mut Vec<String>,
) -> Result<(), AllocError> {
    let (target, why) = (&missed.target, hindrance_words(missed.why));
    lines.push(format!(in alloc; "{target} is not written: {why}")?)?;
    if let Some(path) = &missed.changed {
        lines.push(format!(in alloc; "{path} is not as it was")?)?;
    }
    Ok(())
}

// The launch of the first start that failed.
fn unstarted(log: &[Entry]) -> Option<&Launch> {
    for entry in log {
        if matches!(entry.answer, HostAnswer::Failed(HostFault::Start)) {
            return launch_in(entry);
        }
    }
    None
}

// A program that is named without a folder.
fn add_sought<R: AllocGlobal + Files>(
    rt: &R,
    launch: &Launch,
    program: &str,
    lines: &mut Vec<String>,
) -> Result<(), AllocError> {
    let alloc = rt.alloc();
    let path = path_of(launch);
    lines.push(format!(in alloc; "it was looked for in {path}")?)?;
    add_words(alloc, program, lines)?;
    for folder in path.split(':') {
        add_forbidden(rt, format!(in alloc; "{folder}/{program}")?.as_str(), lines)?;
    }
    Ok(())
}

fn path_of(launch: &Launch) -> &str {
    for variable in launch.env.as_slice() {
        if variable.name.as_str() == "PATH" {
            return variable.text.as_str();
        }
    }
    ""
}

// Adds how a program and its arguments are written whose text is one word.
fn add_words(alloc: Global, program: &str, lines: &mut Vec<String>) -> Result<(), AllocError> {
    if !program.contains(' ') {
        return Ok(());
    }
    let mut list = String::new(alloc);
    for word in program.split(' ').filter(|word| !word.is_empty()) {
        if !list.is_empty() {
            list.push_str(", ")?;
        }
        list.push_str(format!(in alloc; "\"{word}\"")?.as_str())?;
    }
    lines.push(format!(in alloc;
        "a text of `baseCommand` is one word, blanks and all: several words are a list, as [{list}]"
    )?)?;
    Ok(())
}

// A program that is named with its folder, which counts from that of the job.
fn add_named<R: AllocGlobal + Files>(
    rt: &R,
    launch: &Launch,
    program: &str,
    lines: &mut Vec<String>,
) -> Result<(), AllocError> {
    let alloc = rt.alloc();
    let path = path_from(alloc, launch.dir.as_str(), program)?;
    match fs::metadata(rt, path.as_str()) {
        Ok(_) => add_forbidden(rt, path.as_str(), lines),
        Err(error) => match error.kind() {
            io::ErrorKind::NotFound => {
                lines.push(format!(in alloc; "there is no file {path}")?)?;
                Ok(())
            }
            _ => Ok(()),
        },
    }
}

fn path_from(alloc: Global, folder: &str, name: &str) -> Result<String, AllocError> {
    if name.starts_with('/') {
        return String::from_str(alloc, name);
    }
    format!(in alloc; "{folder}/{name}")
}

// Adds a line on a file that nobody may execute.
fn add_forbidden<R: AllocGlobal + Files>(
    rt: &R,
    path: &str,
    lines: &mut Vec<String>,
) -> Result<(), AllocError> {
    match fs::metadata(rt, path) {
        Ok(metadata) if metadata.is_file() && metadata.permissions().mode() & EXECUTES == 0 => {
            let mut remedy = String::from_str(rt.alloc(), "chmod +x ")?;
            add_word(&mut remedy, path)?;
            lines.push(format!(in rt.alloc();
                "{path} is there and may not be executed: `{remedy}` allows it"
            )?)?;
            Ok(())
        }
        _ => Ok(()),
    }
}

/// Adds a line on what kept a folder from being listed: the entry, and what it is.
pub fn add_obstacle(
    alloc: Global,
    unlisted: Option<&Unlisted>,
    lines: &mut Vec<String>,
) -> Result<(), AllocError> {
    let Some(Unlisted { path, why }) = unlisted else {
        return Ok(());
    };
    let why = obstacle_words(*why);
    lines.push(format!(in alloc; "{path}: {why}")?)?;
    Ok(())
}

fn obstacle_words(why: Obstacle) -> &'static str {
    match why {
        Obstacle::NotUtf8 => "a name in this folder is not UTF-8",
        Obstacle::TooDeep => "it is more than 32 folders deep",
        Obstacle::TooMany => "65,536 others are there before it, and no more are listed",
        Obstacle::OfNoKind => "it is a pipe, a socket, a device or a link to nothing",
        Obstacle::Forbidden => "it may not be looked at",
        Obstacle::Other => "it can't be looked at",
    }
}

/// Adds a line with what was in the output folder of the job whose child has this ticket.
pub fn add_listing(
    alloc: Global,
    log: &[Entry],
    ticket: u64,
    lines: &mut Vec<String>,
) -> Result<(), AllocError> {
    let Some(launch) = launch_with(log, ticket) else {
        return Ok(());
    };
    match listing_of(log, launch.dir.as_str()) {
        Some([]) => lines.push(String::from_str(alloc, "its output folder is empty")?)?,
        Some(found) => lines.push(names_of(alloc, found)?)?,
        None => {}
    }
    Ok(())
}

// The first names of a folder.
fn names_of(alloc: Global, found: &[Found]) -> Result<String, AllocError> {
    let mut words = String::from_str(alloc, "in its output folder:")?;
    for entry in found.iter().take(MOST_NAMES) {
        words.push_str(" ")?;
        words.push_str(entry.name.as_str())?;
    }
    if found.len() > MOST_NAMES {
        words.push_str(" ..")?;
    }
    Ok(words)
}

use plain_data::{Items, Keyed, Text};
use proc_host::{Host, HostError};
use process_machine::Machine;
use staging::StagePlan;
use std::alloc::{AllocError, Global};
use std::process::{Command, Stdio};
use std::{env, fs, mem};
use test_rows::{Row, RowFault};

/// The folder that a row works in, from the root.
pub fn made(rt: &HostRuntime) -> Result<String, RowFault> {
    let here = done(env::current_dir(rt))?;
    let place = format!(in rt.alloc(); "{}/row-work", here.as_path().display())?;
    done(fs::create_dir(rt, place.as_str()))?;
    Ok(place)
}

/// Removes the folder with all that is in it.
pub fn removed(rt: &HostRuntime, place: &str) -> Result<(), RowFault> {
    done(fs::remove_dir_all(rt, place))
}

/// A path below a folder.
pub fn below(alloc: Global, place: &str, name: &str) -> Result<Text, AllocError> {
    Ok(Text::from_string(format!(in alloc; "{place}/{name}")?))
}

/// Runs the row's `before`, a script of the shell, in its folder.
pub fn prepared(rt: &HostRuntime, row: &Row, place: &str) -> Result<(), RowFault> {
    scripted(rt, row, "before", place)
}

/// Runs the script of the shell that a row has under a name, where it has one, in its folder.
pub(crate) fn scripted(
    rt: &HostRuntime,
    row: &Row,
    name: &str,
    place: &str,
) -> Result<(), RowFault> {
    match row.find(name) {
        None => Ok(()),
        Some(_) => run_script(rt, row.text(name)?, place),
    }
}

fn run_script(rt: &HostRuntime, script: &str, place: &str) -> Result<(), RowFault> {
    let mut shell = Command::new(rt.alloc(), "/bin/sh")?;
    let succeeds = succeeds(rt, &mut shell, script, place);
    mem::drop(shell);
    match succeeds {
        Ok(true) => Ok(()),
        _ => Err(RowFault::BadArgument),
    }
}

fn succeeds(
    rt: &HostRuntime,
    shell: &mut Command,
    script: &str,
    place: &str,
) -> Result<bool, RowFault> {
    shell.arg("-c")?;
    shell.arg(script)?;
    shell.current_dir(place)?;
    shell.stdin(Stdio::null());
    Ok(done(shell.status(rt))?.success())
}

/// What was made or read for a row, which has no answer where that failed.
pub fn done<T, E: Drop>(outcome: Result<T, E>) -> Result<T, RowFault> {
    match outcome {
        Ok(value) => Ok(value),
        Err(_) => Err(RowFault::BadArgument),
    }
}

/// A host whose jobs' folders are right in the row's folder, and which delivers to `results` there.
pub fn machine<'a>(
    rt: &'a HostRuntime,
    place: &str,
) -> Result<Machine<&'a HostRuntime>, AllocError> {
    machine_with(rt, place, None)
}

/// The same with an archive in the row's `archive`, where the row has one.
pub(crate) fn machine_of<'a>(
    rt: &'a HostRuntime,
    row: &Row,
    place: &str,
) -> Result<Machine<&'a HostRuntime>, RowFault> {
    let archive = match row.find("archive") {
        None => None,
        Some(_) => Some(below(rt.alloc(), place, row.text("archive")?)?),
    };
    Ok(machine_with(rt, place, archive)?)
}

fn machine_with<'a>(
    rt: &'a HostRuntime,
    place: &str,
    archive: Option<Text>,
) -> Result<Machine<&'a HostRuntime>, AllocError> {
    let work = Text::from_text(rt.alloc(), place)?;
    let outdir = below(rt.alloc(), place, "results")?;
    Ok(Machine::new(rt, work, archive, outdir))
}

/// Stages the first job, into which nothing is copied.
pub(crate) fn stage_nothing<H: Host>(alloc: Global, host: &mut H) -> Result<(), HostError> {
    let plan = empty_plan(alloc);
    let staged = host.stage(&plan, 1);
    mem::drop(plan);
    staged
}

/// A plan that copies nothing.
pub fn empty_plan(alloc: Global) -> StagePlan {
    StagePlan {
        moves: Items::new(alloc),
        value: Keyed::new(alloc),
    }
}

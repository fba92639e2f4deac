use crate::machine::listing::{put_code, put_fault, put_listing};
use crate::machine::place::{below, stage_nothing};
use command_line::{Launch, Variable};
use plain_data::{Items, Text};
use proc_host::{ChildEnd, Host};
use process_machine::{Machine, World, last_lines, messages_file};
use serde_json::Value as Json;
use std::alloc::Global;
use std::mem;
use std::process::Stdio;
use test_rows::{AnswerText, Row, RowFault};

/// What a row wants to be told beside an end: the listing of a folder, and the last messages of the child.
#[derive(Drop)]
struct Wanted {
    listed: Option<Text>,
    last: bool,
}

/// Writes how a child of these words ended, what is in its output folder then, and after that what the row wants to be told.
pub fn put_told<R: World>(
    rt: &HostRuntime,
    host: &mut Machine<R>,
    row: &Row,
    place: &str,
    out: &mut AnswerText,
) -> Result<(), RowFault>
where
    R::File: Into<Stdio>,
{
    if row.find("keeps").is_some() {
        host.keep_folders();
    }
    let wanted = Wanted {
        listed: path_of(rt.alloc(), row, "listed", place)?,
        last: row.find("last").is_some(),
    };
    let launch = launch_of(rt.alloc(), row, place)?;
    run(rt, host, &launch, &wanted, out);
    mem::drop(launch);
    Ok(())
}

fn run<H: Host>(
    rt: &HostRuntime,
    host: &mut H,
    launch: &Launch,
    wanted: &Wanted,
    out: &mut AnswerText,
) {
    if let Err(error) = stage_nothing(rt.alloc(), host) {
        return put_fault(out, error);
    }
    let ticket = match host.start(launch) {
        Ok(ticket) => ticket,
        Err(error) => return put_fault(out, error),
    };
    let ended = host.collect();
    host.close(ticket);
    match ended {
        Ok(ending) => {
            put_end(host, &launch.dir, &ending, out);
            if let Some(folder) = &wanted.listed {
                out.put(",\"listed\":");
                put_folder(host, folder, out);
            }
            if wanted.last {
                put_last(rt, launch, out);
            }
            out.put("}");
        }
        Err(error) => put_fault(out, error),
    }
}

fn put_end<H: Host>(host: &mut H, folder: &Text, ending: &ChildEnd, out: &mut AnswerText) {
    out.put("{\"code\":");
    put_code(out, ending.code);
    out.put(",\"found\":");
    put_folder(host, folder, out);
}

// Adds the last messages of a launch, or null.
fn put_last(rt: &HostRuntime, launch: &Launch, out: &mut AnswerText) {
    out.put(",\"last\":");
    match messages_file(rt.alloc(), launch) {
        Ok(Some(file)) => match last_lines(rt, file.as_str()) {
            Some(lines) => out.put_quoted(lines.as_str()),
            None => out.put("null"),
        },
        Ok(None) => out.put("null"),
        Err(error) => out.fail(RowFault::from(error)),
    }
}

/// Adds what is below a folder.
pub fn put_folder<H: Host>(host: &mut H, folder: &Text, out: &mut AnswerText) {
    match host.scan(folder) {
        Ok(found) => put_listing(out, found.as_slice()),
        Err(error) => put_fault(out, error),
    }
}

fn launch_of(alloc: Global, row: &Row, place: &str) -> Result<Launch, RowFault> {
    let words = words_in(alloc, row.list("words")?)?;
    launch_with(alloc, row, place, words)
}

/// A launch of these words, with the row's environment and streams.
pub fn launch_with(
    alloc: Global,
    row: &Row,
    place: &str,
    words: Items<Text>,
) -> Result<Launch, RowFault> {
    let dir = below(alloc, place, "j1/out")?;
    let mut launch = Launch {
        words,
        env: Items::new(alloc),
        stdin: None,
        stdout: None,
        stderr: None,
        dir,
    };
    match fill(alloc, row, place, &mut launch) {
        Ok(()) => Ok(launch),
        Err(fault) => {
            mem::drop(launch);
            Err(fault)
        }
    }
}

/// Gives a launch the row's environment and streams, one after the other: none is alive where another one fails.
fn fill(alloc: Global, row: &Row, place: &str, launch: &mut Launch) -> Result<(), RowFault> {
    mem::drop(mem::replace(&mut launch.env, env_of(alloc, row)?));
    mem::drop(mem::replace(&mut launch.stdin, path_of(alloc, row, "stdin", place)?));
    mem::drop(mem::replace(&mut launch.stdout, name_of(alloc, row, "stdout")?));
    mem::drop(mem::replace(&mut launch.stderr, name_of(alloc, row, "stderr")?));
    Ok(())
}

/// Words, each a text.
pub fn words_in(alloc: Global, list: &[Json]) -> Result<Items<Text>, RowFault> {
    let mut words = Items::new(alloc);
    for word in list {
        words.push(text_of(alloc, word)?)?;
    }
    Ok(words)
}

fn env_of(alloc: Global, row: &Row) -> Result<Items<Variable>, RowFault> {
    let mut env = Items::new(alloc);
    for pair in row.list("env")? {
        let name = text_of(alloc, pair.get(0).ok_or(RowFault::BadArgument)?)?;
        let text = text_of(alloc, pair.get(1).ok_or(RowFault::BadArgument)?)?;
        env.push(Variable { name, text })?;
    }
    Ok(env)
}

fn text_of(alloc: Global, json: &Json) -> Result<Text, RowFault> {
    let text = json.as_str().ok_or(RowFault::BadArgument)?;
    Ok(Text::from_text(alloc, text)?)
}

fn name_of(alloc: Global, row: &Row, argument: &str) -> Result<Option<Text>, RowFault> {
    match row.find(argument) {
        None => Ok(None),
        Some(name) => Ok(Some(text_of(alloc, name)?)),
    }
}

// The file or folder of this argument, by its name in the row's folder.
fn path_of(
    alloc: Global,
    row: &Row,
    argument: &str,
    place: &str,
) -> Result<Option<Text>, RowFault> {
    match row.find(argument) {
        None => Ok(None),
        Some(_) => Ok(Some(below(alloc, place, row.text(argument)?)?)),
    }
}

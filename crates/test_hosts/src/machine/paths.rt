use crate::machine::child::put_folder;
use crate::machine::listing::{put_fault, put_measure};
use crate::machine::place::below;
use plain_data::Text;
use proc_host::Host;
use process_machine::{Machine, Obstacle, Unlisted, World, remove_folder};
use std::alloc::Global;
use std::process::Stdio;
use std::str;
use test_rows::{AnswerText, Row, RowFault};

/// Writes what a measure, a scan or a head of a path answers, and nothing of it is left behind.
pub fn put_told<R: World>(
    alloc: Global,
    host: &mut Machine<R>,
    row: &Row,
    place: &str,
    out: &mut AnswerText,
) -> Result<(), RowFault>
where
    R::File: Into<Stdio>,
{
    if row.find("why").is_none() {
        return put_called(alloc, host, row, place, out);
    }
    out.put("[");
    put_called(alloc, host, row, place, out)?;
    put_why(host, place, out);
    out.put("]");
    Ok(())
}

/// Writes whether a folder was removed, and what the row's folder holds then.
pub fn put_removed<H: Host>(
    rt: &HostRuntime,
    host: &mut H,
    row: &Row,
    place: &str,
    out: &mut AnswerText,
) -> Result<(), RowFault> {
    let path = below(rt.alloc(), place, row.text("path")?)?;
    let folder = Text::from_text(rt.alloc(), place)?;
    out.put("{\"call\":");
    out.put_quoted(match remove_folder(rt, path.as_str()) {
        Ok(()) => "done",
        Err(_) => "failed",
    });
    out.put(",\"found\":");
    put_folder(host, &folder, out);
    out.put("}");
    Ok(())
}

// Adds what kept a scan from a listing, and why.
fn put_why<R: World>(host: &Machine<R>, place: &str, out: &mut AnswerText) {
    match host.unlisted() {
        None => out.put(",null"),
        Some(Unlisted { path, why }) => {
            let name = path.as_str().strip_prefix(place).unwrap_or("");
            out.put(",[");
            out.put_quoted(name);
            out.put(",");
            out.put_quoted(obstacle_name(*why));
            out.put("]");
        }
    }
}

fn obstacle_name(why: Obstacle) -> &'static str {
    match why {
        Obstacle::NotUtf8 => "NotUtf8",
        Obstacle::TooDeep => "TooDeep",
        Obstacle::TooMany => "TooMany",
        Obstacle::OfNoKind => "OfNoKind",
        Obstacle::Forbidden => "Forbidden",
        Obstacle::Other => "Other",
    }
}

fn put_called<H: Host>(
    alloc: Global,
    host: &mut H,
    row: &Row,
    place: &str,
    out: &mut AnswerText,
) -> Result<(), RowFault> {
    let path = below(alloc, place, row.text("path")?)?;
    match row.call() {
        "measure" => put_measured(host, &path, out),
        "scan" => put_folder(host, &path, out),
        _ => put_head(host, &path, row.natural("limit")?, out),
    }
    Ok(())
}

/// Writes what is at a path.
pub fn put_measured<H: Host>(host: &mut H, path: &Text, out: &mut AnswerText) {
    match host.measure(path) {
        Ok(measure) => put_measure(out, &measure),
        Err(error) => put_fault(out, error),
    }
}

/// Writes first bytes that are a text; of others how many there are.
pub fn put_head<H: Host>(host: &mut H, path: &Text, limit: u64, out: &mut AnswerText) {
    match host.head(path, limit) {
        Ok(bytes) => put_bytes(out, bytes.as_slice()),
        Err(error) => put_fault(out, error),
    }
}

fn put_bytes(out: &mut AnswerText, bytes: &[u8]) {
    match str::from_utf8(bytes) {
        Ok(text) if bytes.len() < 100 => {
            out.put("[");
            out.put_quoted(text);
            out.put("]");
        }
        _ => out.put_natural(bytes.len() as u64),
    }
}

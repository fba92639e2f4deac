//! What `record` says of a file.

use crate::commands::disks_of;
use crate::opening::bytes_of;
use record_program::main_run;
use serde_json::Value as Json;
use std::alloc::Global;
use std::os::unix::fs::symlink;
use std::{fs, mem, str};
use test_rows::{AnswerText, Row, RowFault};

// The file of a row, which is made for it and removed again.
const FILE: &str = "row.db";

const LOG: &str = "row.db-wal";

// A folder with a link to it.
const FOLDER: &str = "linked";

const LINK: &str = "linked/row.db";

const LINK_LOG: &str = "linked/row.db-wal";

/// What `record` answers and writes of a file: one of a record after commands, of a database that SQL made, of bytes, or
/// the path `at`. And whether the file is as it was.
pub(crate) fn shown(rt: &HostRuntime, row: &Row) -> Result<String, RowFault> {
    let alloc = rt.alloc();
    if let Ok(path) = row.text("at") {
        return told(rt, row, path, &[]);
    }
    let bytes = made(alloc, row)?;
    let text = told_of(rt, row, bytes.as_slice());
    mem::drop(bytes);
    text
}

fn told_of(rt: &HostRuntime, row: &Row, bytes: &[u8]) -> Result<String, RowFault> {
    if fs::write(rt, FILE, bytes).is_err() || !is_ready(rt, row) {
        return Err(RowFault::BadArgument);
    }
    let text = match row.find("link") {
        None => told(rt, row, FILE, bytes),
        Some(_) => told_at_link(rt, row, bytes),
    };
    let _removed = fs::remove_file(rt, FILE);
    let _removed = fs::remove_file(rt, LOG);
    text
}

// What it answers and writes of a link to the file, and whether a log is left beside the file, and one beside the link.
fn told_at_link(rt: &HostRuntime, row: &Row, bytes: &[u8]) -> Result<String, RowFault> {
    let _made = fs::create_dir(rt, FOLDER);
    let _linked = symlink(rt, "../row.db", LINK);
    let text = told(rt, row, LINK, bytes);
    let file_log = fs::metadata(rt, LOG).is_ok();
    let link_log = fs::metadata(rt, LINK_LOG).is_ok();
    let _removed = fs::remove_file(rt, LINK);
    let _removed = fs::remove_file(rt, LINK_LOG);
    let _removed = fs::remove_dir(rt, FOLDER);
    Ok(format!(in rt.alloc();
        "[{},{{\"file_log\":{file_log},\"link_log\":{link_log}}}]",
        text?
    )?)
}

// Whether nobody may write the row's file any more, where the row has `read_only`.
fn is_ready(rt: &HostRuntime, row: &Row) -> bool {
    if row.find("read_only").is_none() {
        return true;
    }
    let Ok(metadata) = fs::metadata(rt, FILE) else {
        return false;
    };
    let mut permissions = metadata.permissions();
    permissions.set_readonly(true);
    fs::set_permissions(rt, FILE, permissions).is_ok()
}

// The bytes of the row's file.
fn made(alloc: Global, row: &Row) -> Result<Vec<u8>, RowFault> {
    match row.text("text") {
        Ok(text) => bytes_of(alloc, text, row.natural("times")?),
        Err(_) => {
            let disks = disks_of(alloc, row, "commands", None);
            let bytes = disks.bytes().to_vec(alloc);
            mem::drop(disks);
            Ok(bytes?)
        }
    }
}

fn told(rt: &HostRuntime, row: &Row, path: &str, bytes: &[u8]) -> Result<String, RowFault> {
    let alloc = rt.alloc();
    let mut out = Vec::new(alloc);
    let mut err = Vec::new(alloc);
    let forget = row.find("forget").and_then(Json::as_str);
    let status = main_run(rt, path, forget, &mut out, &mut err);
    let mut text = AnswerText::new(alloc);
    text.put("{\"status\":");
    text.put_whole(i64::from(status));
    text.put(",\"out\":");
    put_bytes(&mut text, out.as_slice());
    text.put(",\"err\":");
    put_bytes(&mut text, err.as_slice());
    text.put(",\"same\":");
    text.put_flag(is_same(rt, path, bytes));
    text.put("}");
    mem::drop(out);
    mem::drop(err);
    text.finish()
}

fn put_bytes(text: &mut AnswerText, bytes: &[u8]) {
    text.put_quoted(str::from_utf8(bytes).unwrap_or("?"));
}

// Whether the file has these bytes; nothing, where it is not there.
fn is_same(rt: &HostRuntime, path: &str, bytes: &[u8]) -> bool {
    match fs::read(rt, path) {
        Ok(found) => found.as_slice() == bytes,
        Err(_) => bytes.is_empty(),
    }
}

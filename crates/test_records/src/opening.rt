//! Records opened on stores that SQL has made, and on files of any bytes.

use crate::asks::put_fault;
use crate::commands::run;
use crate::store::{Disks, Store};
use serde_json::Value as Json;
use std::alloc::Global;
use std::mem;
use test_rows::{AnswerText, Row, RowFault};

/// How the store opens as a record that the row's SQL has made, what it then answers to the row's commands, and what the row's query
/// shows of it.
pub(crate) fn opened(alloc: Global, row: &Row) -> Result<String, RowFault> {
    let sql = row.text("sql")?;
    let query = row.text("show")?;
    let commands = row.list("commands")?;
    let mut out = AnswerText::new(alloc);
    out.put("[");
    let disks = Disks::fresh(alloc).run(alloc, sql, &mut out);
    let disks = told(alloc, disks, commands, &mut out);
    out.put(",");
    mem::drop(disks.run(alloc, query, &mut out));
    out.put("]");
    out.finish()
}

// Writes how the files open, and what the record answers, and gives them back.
fn told(alloc: Global, disks: Disks, commands: &[Json], out: &mut AnswerText) -> Disks {
    match disks.open(alloc, None) {
        Ok(store) => answered(alloc, store, commands, out),
        Err((fault, disks)) => {
            put_fault(out, fault);
            disks
        }
    }
}

fn answered(alloc: Global, store: Store, commands: &[Json], out: &mut AnswerText) -> Disks {
    let mut store = store;
    out.put("\"opened\"");
    for command in commands {
        out.put(",");
        run(alloc, &mut store, command, out);
    }
    store.close()
}

/// How files open whose database has these bytes, and whether the bytes are as they were.
pub(crate) fn opened_bytes(alloc: Global, row: &Row) -> Result<String, RowFault> {
    let bytes = bytes_of(alloc, row.text("text")?, row.natural("times")?)?;
    let mut out = AnswerText::new(alloc);
    match Disks::of_bytes(alloc, bytes.as_slice()) {
        Some(disks) => {
            out.put("[");
            let disks = told(alloc, disks, &[], &mut out);
            out.put(",");
            out.put_flag(disks.bytes() == bytes.as_slice());
            out.put("]");
        }
        None => out.put("?"),
    }
    out.finish()
}

/// The text so many times over.
pub(crate) fn bytes_of(alloc: Global, text: &str, times: u64) -> Result<Vec<u8>, RowFault> {
    let mut bytes = Vec::new(alloc);
    for _ in 0..times {
        bytes.extend_from_slice(text.as_bytes())?;
    }
    Ok(bytes)
}

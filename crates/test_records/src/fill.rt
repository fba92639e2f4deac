//! A record with many rows.

use crate::asks::Ask;
use crate::commands::{put, run};
use crate::store::{Disks, Store};
use serde_json::Value as Json;
use std::alloc::Global;
use std::mem;
use test_rows::{AnswerText, Row, RowFault};

// Numbers go in the order of multiples of this one, so that they lie far apart. No count here has it as a factor.
const STRIDE: u64 = 7_919;

/// The number below a count that has this place in the order.
pub(crate) fn number_at(place: u64, count: u64) -> u64 {
    place.wrapping_mul(STRIDE) % count.max(1)
}

/// Puts so many rows, forgets each third, opens the record again, and says how many rows it then should hold and whether
/// it lists just these.
pub(crate) fn filled(alloc: Global, row: &Row) -> Result<String, RowFault> {
    let count = row.natural("rows")?;
    let left = count - count.div_ceil(3);
    let found = listed(alloc, count)?;
    let wanted = others_text(alloc, count)?;
    let same = found.as_str() == wanted.as_str();
    Ok(format!(in alloc; "[{left},{same}]")?)
}

fn listed(alloc: Global, count: u64) -> Result<String, RowFault> {
    let mut found = AnswerText::new(alloc);
    match Disks::fresh(alloc).open(alloc, None) {
        Ok(store) => put_listed(alloc, changed(alloc, store, count), &mut found),
        Err((_fault, _disks)) => found.put("?"),
    }
    found.finish()
}

fn put_listed(alloc: Global, disks: Disks, out: &mut AnswerText) {
    match disks.open(alloc, None) {
        Ok(mut store) => store.ask(alloc, Ask::List, out),
        Err((_fault, _disks)) => out.put("?"),
    }
}

fn changed(alloc: Global, store: Store, count: u64) -> Disks {
    let mut store = store;
    let mut answers = AnswerText::new(alloc);
    for at in 0..count {
        put_at(alloc, &mut store, number_at(at, count), &mut answers);
    }
    for at in 0..count {
        if at % 3 == 0 {
            forget_at(alloc, &mut store, at, &mut answers);
        }
    }
    mem::drop(answers);
    store.close()
}

fn put_at(alloc: Global, store: &mut Store, at: u64, answers: &mut AnswerText) {
    if let Some(json) = json_of(alloc, row_text(alloc, at)) {
        put(alloc, store, &json, answers);
    }
}

fn forget_at(alloc: Global, store: &mut Store, at: u64, answers: &mut AnswerText) {
    if let Some(json) = json_of(alloc, forget_text(alloc, at)) {
        run(alloc, store, &json, answers);
    }
}

fn json_of(alloc: Global, text: Result<String, RowFault>) -> Option<Json> {
    match text {
        Ok(text) => Json::from_str(alloc, text.as_str()).ok(),
        Err(_) => None,
    }
}

fn forget_text(alloc: Global, at: u64) -> Result<String, RowFault> {
    Ok(format!(in alloc; "{{\"forget\":\"{at:08}\"}}")?)
}

// A row of its own for each number, as it is listed. Numbers with as many digits stand in the order of their texts.
fn row_text(alloc: Global, at: u64) -> Result<String, RowFault> {
    let archived = at % 5 == 0;
    let cost = at.saturating_add(1);
    let even = at % 2 == 0;
    Ok(format!(in alloc;
        "{{\"archived\":{archived},\"cost\":{cost},\"files\":[{{\"is_dir\":false,\"name\":\"out.txt\",\"size\":{at},\"sum\":\"a9993e364706816aba3e25717850c26c9cd0d89d\"}}],\"key\":\"{at:08}\",\"outputs\":{{\"even\":{even}}}}}"
    )?)
}

// The rows of the numbers below the count that three does not divide, in their order.
fn others_text(alloc: Global, count: u64) -> Result<String, RowFault> {
    let mut text = AnswerText::new(alloc);
    text.put("[");
    for at in 0..count {
        if at % 3 != 0 {
            text.put_comma();
            match row_text(alloc, at) {
                Ok(row) => text.put(row.as_str()),
                Err(_) => text.put("?"),
            }
        }
    }
    text.put("]");
    text.finish()
}

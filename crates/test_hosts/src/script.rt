ghost use Rattle.std.specs.Prelude.{◌≡◌, [], IfOk};

use plain_data::{Items, Text};
use proc_host::{ChildEnd, Reply, Scripted};
use serde_json::Value as Json;
use staging::{Found, Measure};
use std::alloc::Global;
use test_rows::{Row, RowFault};

/// A host that answers from the row's script of this name; it collects once `least_started` children were started, where the row says so.
pub fn host_by(alloc: Global, row: &Row, script: &str) -> Result<Scripted, RowFault>
    ensures { IfOk result (λ host. host.running ≡ []) }
{
    let least_started = natural_or(row, "least_started", 0)?;
    Ok(Scripted::new(alloc, script_of(alloc, row, script)?, least_started))
}

/// A number of the row, or this one if it has none.
pub fn natural_or(row: &Row, name: &str, absent: u64) -> Result<u64, RowFault> {
    if row.find(name).is_none() {
        return Ok(absent);
    }
    row.natural(name)
}

/// The script that a row has under a name.
fn script_of(alloc: Global, row: &Row, name: &str) -> Result<Items<Reply>, RowFault> {
    let mut script = Items::new(alloc);
    for reply in row.list(name)? {
        script.push(reply_of(alloc, reply)?)?;
    }
    Ok(script)
}

fn reply_of(alloc: Global, json: &Json) -> Result<Reply, RowFault> {
    if let Some(end) = json.get("ended") {
        return Ok(Reply::Collect(end_of(end)?));
    }
    if let Some(found) = json.get("found") {
        return Ok(Reply::Scan(listing_of(alloc, found)?));
    }
    if let Some(found) = json.get("fetched") {
        return Ok(Reply::Fetch(listing_of(alloc, found)?));
    }
    if let Some(measure) = json.get("measured") {
        return Ok(Reply::Measure(measure_of(alloc, measure)?));
    }
    if let Some(head) = json.get("head") {
        let head = head.as_str().ok_or(RowFault::BadArgument)?;
        return Ok(Reply::Head(Items::from_vec(head.as_bytes().to_vec(alloc)?)));
    }
    bare_reply(json).ok_or(RowFault::BadArgument)
}

/// A measure: null for nothing, `[SIZE,SUM]` for a file, and a listing for a folder.
fn measure_of(alloc: Global, json: &Json) -> Result<Measure, RowFault> {
    if json.is_null() {
        return Ok(Measure::Absent);
    }
    if let Some(found) = json.get("folder") {
        return Ok(Measure::Folder(listing_of(alloc, found)?));
    }
    let size = number_at(json, 0)?;
    let sum = text_at(alloc, json, 1)?;
    Ok(Measure::File { size, sum })
}

fn bare_reply(json: &Json) -> Option<Reply> {
    if json.get("staged").is_some() {
        return Some(Reply::Stage);
    }
    if json.get("started").is_some() {
        return Some(Reply::Start);
    }
    if json.get("stored").is_some() {
        return Some(Reply::Store);
    }
    if json.get("delivered").is_some() {
        return Some(Reply::Deliver);
    }
    json.get("discarded")?;
    Some(Reply::Discard)
}

fn end_of(json: &Json) -> Result<ChildEnd, RowFault> {
    Ok(ChildEnd {
        ticket: number_at(json, 0)?,
        code: code_of(json.get(1).ok_or(RowFault::BadArgument)?)?,
        millis: number_at(json, 2)?,
    })
}

/// An exit code, or null.
pub fn code_of(json: &Json) -> Result<Option<i32>, RowFault> {
    if json.is_null() {
        return Ok(None);
    }
    let code = json.as_i64().ok_or(RowFault::BadArgument)?;
    match i32::try_from(code) {
        Ok(code) => Ok(Some(code)),
        Err(_) => Err(RowFault::BadArgument),
    }
}

fn number_at(json: &Json, index: usize) -> Result<u64, RowFault> {
    let number = json.get(index).ok_or(RowFault::BadArgument)?;
    number.as_u64().ok_or(RowFault::BadArgument)
}

/// A text of a list.
pub fn text_at(alloc: Global, json: &Json, index: usize) -> Result<Text, RowFault> {
    let text = json.get(index).ok_or(RowFault::BadArgument)?;
    let text = text.as_str().ok_or(RowFault::BadArgument)?;
    Ok(Text::from_text(alloc, text)?)
}

/// A listing: for each file or folder its name, whether it is a folder, its size and its sum.
pub fn listing_of(alloc: Global, json: &Json) -> Result<Items<Found>, RowFault> {
    let mut listing = Items::new(alloc);
    for found in json.as_array().ok_or(RowFault::BadArgument)? {
        listing.push(found_of(alloc, found)?)?;
    }
    Ok(listing)
}

fn found_of(alloc: Global, json: &Json) -> Result<Found, RowFault> {
    let is_dir = json.get(1).ok_or(RowFault::BadArgument)?;
    let is_dir = is_dir.as_bool().ok_or(RowFault::BadArgument)?;
    let size = number_at(json, 2)?;
    let name = text_at(alloc, json, 0)?;
    let sum = text_at(alloc, json, 3)?;
    Ok(Found {
        name,
        is_dir,
        size,
        sum,
    })
}

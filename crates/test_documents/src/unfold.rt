//! Unfolds a process as its jobs end.
use crate::arguments::fields_of;
use crate::ends::add;
use crate::linked::process_of;
use crate::orders::of_orders;
use crate::process::put_key;
use crate::short::put_canonical;
use cwl_value::{JobPlace, Value, copy_job, place_text};
use document_links::Process;
use job_graph::{Cause, KnownJob, UnfoldError, UnfoldFault, Unfolding};
use plain_data::{Items, Keyed, Text};
use serde_json::Value as Json;
use std::alloc::{AllocError, Global};
use test_rows::{AnswerText, Row, RowFault};

/// `unfold` takes the ends of the jobs in one order, and `unfold_orders` in several.
pub(crate) fn answer(alloc: Global, row: &Row) -> Result<String, RowFault> {
    let process = process_of(alloc, row)?;
    let answer = match row.call() {
        "unfold" => of_ends(alloc, row, &process),
        _ => of_orders(alloc, row, &process),
    };
    drop(process);
    answer
}

/// The jobs that are known at once, those that each end adds, and then the result, or null; after a fault, its code with the
/// place and the cause.
fn of_ends(alloc: Global, row: &Row, process: &Process) -> Result<String, RowFault> {
    let inputs = inputs(alloc, row)?;
    unfolded(alloc, row, process, &inputs)
}

fn unfolded(
    alloc: Global,
    row: &Row,
    process: &Process,
    inputs: &Keyed<Value>,
) -> Result<String, RowFault> {
    let mut out = AnswerText::new(alloc);
    out.put("[");
    match Unfolding::new(alloc, process, inputs, Keyed::new(alloc)) {
        Ok(mut unfolding) => match row.list("ends") {
            Ok(ends) => learn_all(alloc, &mut out, &mut unfolding, ends),
            Err(fault) => out.fail(fault),
        },
        Err(error) => put_error(alloc, &mut out, &error),
    }
    out.put("]");
    out.finish()
}

/// The row's `inputs`; those under `lists` are lists of so many whole numbers from 0 on.
fn inputs(alloc: Global, row: &Row) -> Result<Keyed<Value>, RowFault> {
    let mut inputs = fields_of(alloc, row.json("inputs")?)?;
    put_lists(alloc, &mut inputs, row)?;
    Ok(inputs)
}

fn put_lists(alloc: Global, inputs: &mut Keyed<Value>, row: &Row) -> Result<(), RowFault> {
    if let Some(Json::Object(members)) = row.find("lists") {
        for (name, length) in members.iter() {
            let length = length.as_u64().ok_or(RowFault::BadArgument)?;
            let list = list_of(alloc, length)?;
            add(alloc, inputs, name.as_str(), list)?;
        }
    }
    Ok(())
}

fn list_of(alloc: Global, length: u64) -> Result<Value, RowFault> {
    let mut items = Items::new(alloc);
    let mut number: i64 = 0;
    for _ in 0..length {
        items.push(Value::Whole(number))?;
        number = number.saturating_add(1);
    }
    Ok(Value::of_items(items))
}

/// Learns the outputs of these ends, each a job's place and its outputs; a place that ends with `*` stands for all jobs
/// whose places begin so, in their order.
fn learn_all(alloc: Global, out: &mut AnswerText, unfolding: &mut Unfolding<'_>, ends: &[Json]) {
    put_new(alloc, out, unfolding, 0);
    for end in ends {
        if !is_learned(alloc, out, unfolding, end) {
            return;
        }
    }
    out.put(",");
    match unfolding.result() {
        None => out.put("null"),
        Some(outputs) => put_entries(alloc, out, outputs),
    }
}

/// Learns one end. Whether nothing is wrong with it.
fn is_learned(
    alloc: Global,
    out: &mut AnswerText,
    unfolding: &mut Unfolding<'_>,
    end: &Json,
) -> bool {
    match learn_end(alloc, out, unfolding, end) {
        Ok(flag) => flag,
        Err(fault) => {
            out.fail(fault);
            false
        }
    }
}

fn learn_end(
    alloc: Global,
    out: &mut AnswerText,
    unfolding: &mut Unfolding<'_>,
    end: &Json,
) -> Result<bool, RowFault> {
    let place = end
        .get(0)
        .and_then(|place| place.as_str())
        .ok_or(RowFault::BadArgument)?;
    let outputs = end.get(1).ok_or(RowFault::BadArgument)?;
    let places = places(alloc, unfolding, place)?;
    learn_places(alloc, out, unfolding, places.as_slice(), outputs)
}

fn learn_places(
    alloc: Global,
    out: &mut AnswerText,
    unfolding: &mut Unfolding<'_>,
    places: &[JobPlace],
    outputs: &Json,
) -> Result<bool, RowFault> {
    for place in places {
        let told = unfolding.known().len();
        match learned(alloc, unfolding, place, outputs)? {
            Ok(()) => put_new(alloc, out, unfolding, told),
            Err(error) => {
                put_error(alloc, out, &error);
                return Ok(false);
            }
        }
    }
    Ok(true)
}

fn learned(
    alloc: Global,
    unfolding: &mut Unfolding<'_>,
    place: &JobPlace,
    outputs: &Json,
) -> Result<Result<(), UnfoldError>, RowFault> {
    let place = copy_job(alloc, place)?;
    let outputs = fields_of(alloc, outputs)?;
    Ok(unfolding.learn(place, outputs))
}

/// The places of the known jobs that this text stands for.
fn places(
    alloc: Global,
    unfolding: &Unfolding<'_>,
    wanted: &str,
) -> Result<Vec<JobPlace>, RowFault> {
    let mut found = Vec::new(alloc);
    for known in unfolding.known() {
        put_wanted(alloc, &mut found, wanted, &known.job.place)?;
    }
    if found.is_empty() {
        return Err(RowFault::BadArgument);
    }
    Ok(found)
}

/// Adds the place, if the text stands for it.
fn put_wanted(
    alloc: Global,
    found: &mut Vec<JobPlace>,
    wanted: &str,
    place: &JobPlace,
) -> Result<(), AllocError> {
    let text = place_text(alloc, place)?;
    let wanted = is_wanted(wanted, text.as_str());
    drop(text);
    if wanted {
        found.push(copy_job(alloc, place)?)?;
    }
    Ok(())
}

fn is_wanted(wanted: &str, place: &str) -> bool {
    match wanted.strip_suffix('*') {
        None => wanted == place,
        Some(front) => place.starts_with(front),
    }
}

/// Puts the jobs from this number on.
fn put_new(alloc: Global, out: &mut AnswerText, unfolding: &Unfolding<'_>, told: usize) {
    let known = unfolding.known();
    out.put_comma();
    out.put("[");
    for number in told..known.len() {
        put_job(alloc, out, &known[number]);
    }
    out.put("]");
}

fn put_job(alloc: Global, out: &mut AnswerText, known: &KnownJob<'_>) {
    out.put_comma();
    out.put("[");
    put_place(alloc, out, &known.job.place);
    out.put(",");
    put_entries(alloc, out, known.job.inputs.as_slice());
    for parent in known.parents.as_slice() {
        out.put(",");
        out.put_natural(*parent as u64);
    }
    out.put("]");
}

fn put_place(alloc: Global, out: &mut AnswerText, place: &JobPlace) {
    match place_text(alloc, place) {
        Err(_refused) => out.fail(RowFault::OutOfMemory),
        Ok(text) => out.put_quoted(text.as_str()),
    }
}

/// Puts entries in braces, each value as canonical text.
fn put_entries(alloc: Global, out: &mut AnswerText, entries: &[(Text, Value)]) {
    out.put("{");
    for entry in entries {
        put_key(out, entry.0.as_str());
        put_canonical(alloc, out, &entry.1);
    }
    out.put("}");
}

pub(crate) fn put_error(alloc: Global, out: &mut AnswerText, error: &UnfoldError) {
    out.put_comma();
    match error {
        UnfoldError::Refused(UnfoldFault::TooManyJobs) => out.put("\"U1\""),
        UnfoldError::Refused(UnfoldFault::Fault(place, cause)) => {
            put_place(alloc, out, place);
            out.put(",\"");
            put_cause(out, cause);
            out.put("\"");
        }
        UnfoldError::OutOfMemory => out.fail(RowFault::OutOfMemory),
    }
}

fn put_cause(out: &mut AnswerText, cause: &Cause) {
    match cause {
        Cause::Missing(name) => put_named(out, "Missing ", name),
        Cause::Kind(name) => put_named(out, "Kind ", name),
        Cause::Secondary(name) => put_named(out, "Secondary ", name),
        Cause::Link(fault) => out.put(fault.code()),
        Cause::Reference(fault) => out.put(fault.code()),
        Cause::Scatter(fault) => out.put(fault.code()),
    }
}

fn put_named(out: &mut AnswerText, word: &str, name: &Text) {
    out.put(word);
    out.put(name.as_str());
}

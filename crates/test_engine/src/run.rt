//! What a row's run is of, and what it may use.
ghost use Rattle.std.specs.Prelude.{◌≡◌, ◌≤◌, ◌^◌, [], IfOk};
ghost use Rattle.run_rules.specs.Limits.{IsWithinLimits};

use cwl_value::{Value, from_json};
use document_links::{Docs, Document, Process, read_process};
use file_values::resolve;
use job_rows::Record;
use plain_data::{Items, Keyed, Text};
use proc_host::Host;
use run_core::{Options, Report, RunCore, RunFault};
use serde_json::Value as Json;
use std::alloc::Global;
use std::mem;
use test_hosts::machine::place::done;
use test_hosts::script::natural_or;
use test_rows::{Row, RowFault, json_text};
use url::Url;
use workflow_check::{Accepted, accept};
use workflow_engine::{Unwatched, run};

/// What a row's run is of.
#[derive(Drop)]
pub struct Case {
    pub process: Accepted,
    pub inputs: Keyed<Value>,
}

/// The row's process, where it is accepted, and its inputs.
pub fn case_of(alloc: Global, row: &Row) -> Result<Case, RowFault> {
    case_at(alloc, row, "file:///d/inputs.json")
}

/// The same, where the inputs stand in the file at this location.
pub fn case_at(alloc: Global, row: &Row, location: &str) -> Result<Case, RowFault> {
    let inputs = inputs_at(alloc, row, location)?;
    match accepted(alloc, row) {
        Ok(process) => Ok(Case { process, inputs }),
        Err(fault) => {
            mem::drop(inputs);
            Err(fault)
        }
    }
}

/// The process of the row's document, in a file of the folder `/d`; there is no other document.
fn accepted(alloc: Global, row: &Row) -> Result<Accepted, RowFault> {
    let text = json_text(alloc, row.json("document")?)?;
    let bytes = text.as_bytes().to_vec(alloc)?;
    let document = Document::read(alloc, Items::from_vec(bytes))?;
    let process = process_in(alloc, &document);
    mem::drop(document);
    done(accept(alloc, process?))
}

fn process_in(alloc: Global, document: &Document) -> Result<Process, RowFault> {
    let base = done(Url::parse(alloc, "file:///d/document.json"))?;
    let docs = Docs::of(alloc, Keyed::new(alloc))?;
    let process = done(read_process(alloc, document, &base, &docs));
    mem::drop(docs);
    mem::drop(base);
    process
}

/// The inputs of a row, in the file at this location.
fn inputs_at(alloc: Global, row: &Row, location: &str) -> Result<Keyed<Value>, RowFault> {
    let json = row.json("inputs")?;
    let base = done(Url::parse(alloc, location))?;
    let inputs = located(alloc, json, &base);
    mem::drop(base);
    inputs
}

fn located(alloc: Global, json: &Json, base: &Url) -> Result<Keyed<Value>, RowFault> {
    let value = done(from_json(alloc, json))?;
    match resolve(alloc, value, base) {
        Ok(Value::Fields(inputs)) => Ok(inputs),
        other => {
            mem::drop(other);
            Err(RowFault::BadArgument)
        }
    }
}

/// How a run of a case ends over a host and a record. It says nothing of the end, so that a caller over a host that is named is
/// checked sooner.
pub fn end_over<H: Host, K: Record>(
    alloc: Global,
    case: &Case,
    host: &mut H,
    rows: &mut K,
    options: Options,
) -> Result<Report, RunFault>
    requires idle { H.running host.old ≡ [] }
    requires limits { IsWithinLimits options }
{
    run(
        alloc,
        host,
        rows,
        case.process.as_process(),
        &case.inputs,
        options,
        &mut Unwatched,
    )
}

/// A machine for the run of a row.
pub fn core_of<'a>(
    alloc: Global,
    row: &Row,
    case: &'a Case,
    keep: bool,
) -> Result<RunCore<'a>, RowFault> {
    let options = options_with(alloc, row, keep)?;
    match RunCore::new(alloc, case.process.as_process(), &case.inputs, options) {
        Ok(core) => Ok(core),
        Err(fault) => {
            mem::drop(fault);
            Err(RowFault::OutOfMemory)
        }
    }
}

/// What the row's run may use: its `slots` and `retries`, which are 1 and 0 where it has none. It keeps an archive or not; a fetch
/// costs the row's `base`, or 1 where it has none, and 1 for each 100,000 bytes.
pub fn options_with(alloc: Global, row: &Row, keep: bool) -> Result<Options, RowFault>
    ensures { IfOk result IsWithinLimits }
{
    let paths = Paths {
        work: Text::from_text(alloc, "w")?,
        outdir: Text::from_text(alloc, "/out")?,
        path_env: Text::from_text(alloc, "/bin")?,
    };
    options_at(row, keep, paths)
}

/// The folders of a run, and where its children seek programs.
#[derive(Drop)]
pub struct Paths {
    pub work: Text,
    pub outdir: Text,
    pub path_env: Text,
}

const MOST_BASE: u64 = 1_000_000_000_000;

/// The same, with these folders.
pub fn options_at(row: &Row, keep: bool, paths: Paths) -> Result<Options, RowFault>
    ensures { IfOk result IsWithinLimits }
{
    let Ok((slots, retries, base)) = numbers_of(row) else {
        mem::drop(paths);
        return Err(RowFault::BadArgument);
    };
    if slots == 0 || slots > 64 || retries > 10 || base > MOST_BASE {
        mem::drop(paths);
        return Err(RowFault::BadArgument);
    }
    Ok(options(paths, slots, retries, base, keep))
}

fn numbers_of(row: &Row) -> Result<(u64, u64, u64), RowFault> {
    let slots = natural_or(row, "slots", 1)?;
    let retries = natural_or(row, "retries", 0)?;
    let base = natural_or(row, "base", 1)?;
    Ok((slots, retries, base))
}

fn options(paths: Paths, slots: u64, retries: u64, base: u64, keep: bool) -> Options
    requires least_slots { 1 ≤ slots }
    requires slots { slots ≤ 64 }
    requires retries { retries ≤ 10 }
    requires base { base ≤ 10 ^ 12 }
    ensures { IsWithinLimits result }
{
    let Paths {
        work,
        outdir,
        path_env,
    } = paths;
    Options {
        work,
        outdir,
        path_env,
        slots,
        retries,
        base,
        rate: 100_000,
        keep,
    }
}

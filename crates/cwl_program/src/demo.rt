//! The worked example.
ghost use Rattle.std.specs.Prelude.{◌≡◌, IfOk, IfErr, None};
ghost use Rattle.run_rules.specs.Limits.{IsWithinLimits};
ghost use Rattle.workflow_check.specs.Checked.{fault_in};
ghost use Rattle.cwl_program.specs.Demo as spec;
ghost use Rattle.run_call.specs.Runs.{IsRan};
ghost use Rattle.run_given.specs.Stops.{IsStop};

use cwl_value::Value;
use document_links::{Docs, Document, Process};
use end_words::{Exit, exit_of_run};
use job_rows::MemoryRecord;
use plain_data::{Items, Keyed, Text};
use proc_host::{Reply, Scripted};
use run_core::Options;
use run_given::{Given, Stop, accepted_of, base_of, inputs_at, stopped};
use staging::Found;
use std::alloc::{AllocError, Global};
use std::mem;
use workflow_engine::{Unwatched, run};

/// The folder that the example's files would be in.
const ROOT: &str = "/";

/// A tool that prints its text into a file, which is its output.
const DOCUMENT: &str =
    "{\"cwlVersion\":\"v1.2\",\"class\":\"CommandLineTool\",\"baseCommand\":\"printf\",\"stdout\":\"out.txt\",\"inputs\":{\"t\":{\"type\":\"string\",\"inputBinding\":{\"position\":1}}},\"outputs\":{\"out\":\"stdout\"}}";

const INPUTS: &str = "{\"t\":\"abc\"}";

/// The SHA-1 of the three bytes `abc` (FIPS 180-4).
const SUM: &str = "a9993e364706816aba3e25717850c26c9cd0d89d";

/// Runs the worked example over a host that answers from a script.
pub fn exit_of_demo(alloc: Global, path: &str) -> Result<Exit, AllocError>
    ensures { IfOk result (spec.IsDemoExit path.now) }
{
    match process_of(alloc) {
        Ok(process) => on_process(alloc, process, path),
        Err(stop) => stopped(stop),
    }
}

fn process_of(alloc: Global) -> Result<Process, Stop>
    ensures ok { IfOk result spec.IsDemoProcess }
    ensures err { IfErr result (IsStop spec.IsNoDemoProcess) }
{
    let base = base_of(alloc, ROOT, "hello.json")?;
    let document = document(alloc)?;
    let docs = Docs::of(alloc, Keyed::new(alloc))?;
    accepted_of(alloc, &document, &base, &docs, &Keyed::new(alloc))
}

fn document(alloc: Global) -> Result<Document, AllocError>
    ensures { IfOk result (λ document. document ≡ DOCUMENT.now) }
{
    Document::read(alloc, Items::from_vec(DOCUMENT.as_bytes().to_vec(alloc)?))
}

fn on_process(alloc: Global, process: Process, path: &str) -> Result<Exit, AllocError>
    requires { spec.IsDemoProcess process }
    ensures { IfOk result (spec.IsDemoExit path.now) }
{
    match inputs_of(alloc) {
        Ok(inputs) => {
            let given = Given {
                process,
                inputs,
                files: Items::new(alloc),
                hints: Keyed::new(alloc),
            };
            let exit = in_world(alloc, &given, path);
            mem::drop(given);
            exit
        }
        Err(stop) => {
            mem::drop(process);
            stopped(stop)
        }
    }
}

fn inputs_of(alloc: Global) -> Result<Keyed<Value>, Stop>
    ensures ok { IfOk result spec.IsDemoInputs }
    ensures err { IfErr result (IsStop spec.IsNoDemoInputs) }
{
    let base = base_of(alloc, ROOT, "inputs.json")?;
    inputs_at(alloc, INPUTS.as_bytes(), &base)
}

fn in_world(alloc: Global, given: &Given, path: &str) -> Result<Exit, AllocError>
    requires process { spec.IsDemoProcess given.now.process }
    requires inputs { spec.IsDemoInputs given.now.inputs }
    ensures { IfOk result (spec.IsDemoExit path.now) }
{
    let world = world_of(alloc, path)?;
    ended(alloc, given, world)
}

fn ended(alloc: Global, given: &Given, world: World) -> Result<Exit, AllocError>
    requires accepted { fault_in given.now.process ≡ None }
    requires limits { IsWithinLimits world.options }
    ensures { IfOk result (IsRan given.now.process given.now.inputs world.options) }
{
    let World { options, script } = world;
    let mut host = Scripted::new(alloc, script, 0);
    let mut rows = MemoryRecord::new(alloc, None);
    let report = run(
        alloc,
        &mut host,
        &mut rows,
        &given.process,
        &given.inputs,
        options,
        &mut Unwatched,
    );
    let exit = exit_of_run(alloc, host.log(), report);
    mem::drop(host);
    mem::drop(rows);
    exit
}

/// What the example's run is done with.
#[derive(Drop)]
struct World {
    options: Options,
    script: Items<Reply>,
}

fn world_of(alloc: Global, path: &str) -> Result<World, AllocError>
    ensures limits { IfOk result (λ world. IsWithinLimits world.options) }
    ensures options { IfOk result (λ world. world.options ≡ spec.demo_options path.now) }
{
    let options = options(alloc, path)?;
    let script = script(alloc)?;
    Ok(World { options, script })
}

/// Staged; started; ended well after a second; `out.txt` is there with three bytes; delivered.
fn script(alloc: Global) -> Result<Items<Reply>, AllocError> {
    let mut found = Items::new(alloc);
    found.push(Found {
        name: Text::from_text(alloc, "out.txt")?,
        is_dir: false,
        size: 3,
        sum: Text::from_text(alloc, SUM)?,
    })?;
    let mut script = Items::new(alloc);
    script.push(Reply::Stage)?;
    script.push(Reply::Start)?;
    script.push(Reply::Collect(proc_host::ChildEnd {
        ticket: 1,
        code: Some(0),
        millis: 1000,
    }))?;
    script.push(Reply::Scan(found))?;
    script.push(Reply::Deliver)?;
    Ok(script)
}

fn options(alloc: Global, path: &str) -> Result<Options, AllocError>
    ensures limits { IfOk result IsWithinLimits }
    ensures options { IfOk result (λ options. options ≡ spec.demo_options path.now) }
{
    Ok(Options {
        work: Text::from_text(alloc, "cwl-work")?,
        outdir: Text::from_text(alloc, "/out")?,
        path_env: Text::from_text(alloc, path)?,
        slots: 1,
        retries: 0,
        base: 1,
        rate: 100_000,
        keep: false,
    })
}

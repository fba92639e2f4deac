//! Samples on jobs: commands, outputs, the jobs of a process, their record.
ghost use Rattle.std.specs.Prelude.{◌≡◌, All, length};
ghost use Rattle.job_graph.specs.PresentJobGraph.{AreWithin};

use collected_outputs::{CollectError, LeftBehind, StreamNames, collect_outputs, heads_wanted};
use command_line::{BuildError, Runtime, build};
use cwl_process::Tool;
use cwl_value::{JobPlace, Value};
use document_links::Process;
use job_graph::{Costs, UnfoldError, Unfolding, input_paths, load_cost};
use job_key::key_text;
use job_reuse::{differs, file_bytes, files_agree, row_is_sound, row_of};
use job_rows::{Record, RecordError, Row};
use plain_data::{Items, Keyed, Text};
use staging::{Found, Measure};
use std::alloc::{AllocError, Global};

/// The sample of `command_line`.
pub fn job_of(
    alloc: Global,
    tool: &Tool,
    inputs: &Keyed<Value>,
    runtime: &Runtime,
) -> Result<(), BuildError> {
    let launch = build(alloc, tool, inputs, runtime)?; // runtime: outdir, tmpdir, path_env
    let words = launch.words.as_slice(); // printf, abc
    let file = &launch.stdout; // the file that an output of type stdout collects
    Ok(())
}

/// The sample of `collected_outputs`.
pub fn collected<'a>(
    alloc: Global,
    tool: &Tool,
    inputs: &'a Keyed<Value>,
    found: &'a [Found],
    heads: &'a Keyed<Items<u8>>,
) -> Result<(), CollectError> {
    let wanted = heads_wanted(alloc, tool, inputs, found)?; // names; read `head_limit(name)` bytes of each
    let streams = StreamNames {
        stdout: "out.txt",
        stderr: "",
    }; // the names that the launch has
    let left = LeftBehind {
        inputs,
        streams,
        found,
        heads,
    };
    let outputs = collect_outputs(alloc, tool, left)?;
    Ok(())
}

/// A sample of `job_graph`.
pub fn known_jobs(
    alloc: Global,
    process: &Process,
    inputs: &Keyed<Value>,
    measures: Keyed<Measure>,
) -> Result<(), UnfoldError> {
    let paths = input_paths(alloc, process, inputs)?; // what is measured before a run
    let unfolding = Unfolding::new(alloc, process, inputs, measures)?; // the jobs that can run at once, or U1, U2
    let known = unfolding.known(); // each with its place, tool, inputs and parents
    Ok(())
}

/// A sample of `job_graph`.
pub fn learned_outputs(
    unfolding: &mut Unfolding<'_>,
    place: JobPlace,
    outputs: Keyed<Value>,
) -> Result<(), UnfoldError> {
    unfolding.learn(place, outputs)?; // a job's outputs: more jobs are known
    let outputs = unfolding.result(); // None until the outputs of all jobs are known
    Ok(())
}

/// A sample of `job_graph`.
pub fn graph_of_jobs(unfolding: &mut Unfolding<'_>, costs: &[Costs]) -> Result<(), UnfoldError>
    requires each { length costs.now ≡ length unfolding.old.known }
    requires within { All AreWithin costs.now }
{
    let graph = unfolding.graph(costs)?; // the known jobs as a planner takes them, costs[n] those of known()[n]
    let needed = unfolding.needed()?; // which of them are needed, by that graph
    let cost = load_cost(1, 100_000, 250_000); // 4: what it costs to load files of so many bytes
    Ok(())
}

/// The sample of `job_key`.
pub fn job_as_text(alloc: Global, tool: &Tool, inputs: &Keyed<Value>) -> Result<(), AllocError> {
    let key = key_text(alloc, tool, inputs)?; // {"env":[],"inputs":{"n":5},"tool":{"baseCommand":"true","class":"CommandLineTool",..}}
    Ok(())
}

/// The sample of `job_rows`.
pub fn kept_row<R: Record>(record: &mut R, row: &Row) -> Result<(), RecordError> {
    let lost = record.put(row)?; // the keys that are without their archive by it
    let found = record.find(&row.key)?; // Some(row), unless somebody else writes into the record
    record.touch(&row.key)?; // its archive was used
    Ok(())
}

/// A sample of `job_reuse`.
pub fn compared_row(
    alloc: Global,
    tool: &Tool,
    row: &Row,
    fetched: &[Found],
    outputs: &Keyed<Value>,
) -> Result<(), AllocError> {
    let is_sound = row_is_sound(alloc, tool, row)?; // false is R1: what was found contradicts the tool, or itself
    let bytes = file_bytes(row); // what there is to load
    let agree = files_agree(row, fetched); // false: the archive is dropped, and the job computed
    let is_mismatch = differs(row, outputs); // true: nothing new is kept
    Ok(())
}

/// A sample of `job_reuse`.
pub fn new_row(key: Text, outputs: Keyed<Value>, files: Items<Found>, millis: u64) {
    let row = row_of(key, outputs, files, millis, true); // the row that is put
}

//! Where a run is: what its events have brought about so far, and what it waits for.

ghost use Rattle.std.proofs.Props.{props};
ghost use Rattle.std.specs.Prelude.{◌≡◌, ◌+◌, length, true};
ghost use Rattle.run_core.specs.inner.Fits.{Fits};
ghost use Rattle.run_core.specs.inner.Known.{known_in};
ghost use Rattle.run_plan.specs.Touched.{AreOfFirst, graph_in};

use crate::counts::PlanCounts;
use crate::found_rows::FoundRows;
use crate::job_states::JobStates;
use crate::touches::Touched;
use crate::{Cause, Note, Options, Outcome, PlanNote, Request, RunFault};
use cwl_value::Value;
use document_links::Process;
use job_graph::Unfolding;
use job_rows::Row;
use plain_data::{Items, Keyed, Text};
use proc_host::HostRequest;
use run_plan::{KeptPlan, Rates};
use staging::{Found, Measure};

/// What a run is of.
#[derive(Drop)]
pub(crate) struct Given<'a> {
    pub process: &'a Process,
    pub inputs: &'a Keyed<Value>,
    pub options: Options,
    /// What loading costs, by its options.
    pub rates: Rates,
    /// How many answers were taken, the one at hand among them.
    pub answers: u64,
}

/// What is kept of a started job until its outputs are collected.
#[derive(Drop)]
pub(crate) struct Kept {
    /// The inputs that its launch is of.
    pub inputs: Keyed<Value>,
    /// The names of the files that take its child's streams.
    pub stdout: Option<Text>,
    pub stderr: Option<Text>,
}

/// Input files that are measured.
#[derive(Drop)]
pub(crate) struct Measuring {
    /// The paths that are still to be measured; the last comes next.
    pub left: Items<Text>,
    /// What was measured, by path.
    pub measures: Keyed<Measure>,
}

/// Input files of a job whose contents are read.
#[derive(Drop)]
pub(crate) struct Filling {
    /// The staged inputs.
    pub staged: Keyed<Value>,
    /// The paths of the files that are still to be read; the last comes next.
    pub left: Items<Text>,
    /// The first bytes that were read, by path.
    pub heads: Keyed<Items<u8>>,
}

/// Files of a job's output folder whose first bytes are read.
#[derive(Drop)]
pub(crate) struct Reading {
    /// For how many milliseconds its child ran.
    pub millis: u64,
    /// All that was found in the folder.
    pub found: Items<Found>,
    /// The names of the files that are still to be read; the last comes next.
    pub left: Items<Text>,
    /// The first bytes that were read, by name.
    pub heads: Keyed<Items<u8>>,
}

/// What the open work on one job waits for.
#[derive(Drop)]
pub(crate) enum JobPhase {
    /// The first bytes of one of these input files.
    Filling(Filling),
    /// Its child's ticket.
    Starting(Kept),
    /// The entries of its output folder; its child ran for so many milliseconds.
    Scanning(Kept, u64),
    /// The first bytes of one of these output files.
    Reading(Kept, Reading),
}

/// What becomes of a job after an answer.
#[derive(Drop)]
pub(crate) enum JobNext {
    /// This is asked for it, and waited for.
    Asks(HostRequest, JobPhase),
    /// It gives no outputs.
    Fails(Cause),
    /// It gives these outputs, and this row is put, where there is one.
    Gives(Keyed<Value>, Option<Row>),
    /// It was to give what its row has, and these outputs are others.
    Differs(Keyed<Value>),
    /// It gives what its row has, and this row is put.
    Repeats(Row),
}

/// What the machine waits for.
#[derive(Drop)]
pub(crate) enum Phase {
    /// What is at the path of an input file.
    Measuring(Measuring),
    /// The row of the job of this number.
    Finding(usize),
    /// The files of the row of the job of this number.
    Fetching(usize),
    /// Whether it is noted that the archive of the row of the job of this number was used.
    Touching(usize),
    /// Whether it is noted that it is gone.
    Dropping(usize),
    /// Whether an archive is discarded for the job of this number; those of these keys are then, the last first.
    Discarding(usize, Items<Text>),
    /// The folders of the job of this number.
    Staging(usize),
    /// The open work on the job of this number.
    Working(usize, JobPhase),
    /// Whether the row of the job of this number is kept.
    Putting(usize),
    /// Whether the files of the job of this number are archived; its row, which is this but for that, is put then.
    Storing(usize, Row),
    /// The end of a child.
    Collecting,
    /// The result's files at their targets, which this output object names.
    Delivering(Value),
    /// The end of a child, after memory ran out.
    Draining,
    /// Nothing: this came of the process, and `finish` reports it.
    Ended(Result<Outcome, RunFault>),
}

/// What the machine asks, and waits for.
#[derive(Drop)]
pub(crate) struct Turn {
    pub asks: Request,
    pub phase: Phase,
}

/// A child in flight.
#[derive(Drop)]
pub(crate) struct Flight {
    /// The number of its job.
    pub job: usize,
    pub kept: Kept,
}

/// What a run has come to so far.
#[derive(Drop)]
pub(crate) struct Course<'a> {
    /// The tickets of the children in flight, in the order of their starts.
    pub tickets: Vec<u64>,
    /// Their jobs, in the same order.
    pub flights: Vec<Flight>,
    /// What has become of the known jobs. One that doesn't wait is in flight, or its outputs were collected, or the end
    /// is settled.
    pub jobs: JobStates,
    /// How many folders were made.
    pub folders: u64,
    /// The row of each known job below this number was looked for, where it may have one; of no other it was.
    pub looked_up: usize,
    /// The rows that were found.
    pub rows: FoundRows,
    /// The keys of the archives that are not what their rows have.
    pub lost: Vec<Text>,
    /// What went wrong without changing the end.
    pub notes: Vec<Note>,
    /// The plan in force, of the last planning point.
    pub planned: Option<KeptPlan>,
    /// The jobs that were touched since it was made.
    pub touched: Touched,
    /// What loading costs there, and whether archives are kept.
    pub rates: Rates,
    pub keep: bool,
    ghost fits: { Fits rates keep jobs lost.items rows touched planned } by { Prim.hlevel props },
    /// The cost of each plan, by planning point.
    pub plans: Vec<PlanNote>,
    /// How these plans came to be.
    pub counts: PlanCounts,
    ghost counted: { counts.brought + counts.anew ≡ length plans.items } by { Prim.hlevel props },
    /// The jobs that are known, once all input files are measured.
    pub known: Option<Unfolding<'a>>,
    /// Whether the graph of the plan in force is one of the first of them.
    pub of_first: bool,
    ghost first: { of_first ≡ true → AreOfFirst (graph_in planned) (known_in known) } by { Prim.hlevel props },
    /// The failure that settled the end.
    pub end: Option<Result<Outcome, RunFault>>,
}

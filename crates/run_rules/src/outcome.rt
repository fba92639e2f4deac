use collected_outputs::OutputFault;
use command_line::BuildFault;
use cwl_value::{JobPlace, Value};
use input_files::ContentsFault;
use job_rows::RecordRefusal;
use plain_data::Items;
use proc_host::HostFault;

/// What of a job's files is refused (G1 to G9).
#[derive(Drop)]
pub enum CollectCause {
    /// The contents of an input.
    Input(ContentsFault),
    /// What its child left, which is no output object.
    Output(OutputFault),
}

/// Why a job gives no outputs, and would give none if it were started again.
#[derive(Drop)]
pub enum Cause {
    /// An input of the process or of one of its steps has no value.
    Equation(job_graph::Cause),
    /// There is no launch for it.
    Build(BuildFault),
    /// Its child ended with this code.
    Exit(Option<i32>),
    /// What it reads or leaves is refused.
    Collect(CollectCause),
}

/// What came of a process (CWL v1.2, "Process status": success, permanentFailure, temporaryFailure).
#[derive(Drop)]
pub enum Outcome {
    /// The output object, each file at the location that it was delivered to.
    Success(Value),
    PermanentFail(JobPlace, Cause),
    TemporaryFail(JobPlace),
}

/// The cost of a plan, and how many answers came before it.
#[derive(Clone, Copy, Debug, Drop, PartialEq, Eq)]
pub struct PlanNote {
    pub after: u64,
    pub cost: u64,
}

/// What went wrong without changing the end, for the job at this place.
#[derive(Drop)]
pub struct Note {
    pub place: JobPlace,
    pub kind: NoteKind,
}

/// Which call it was that failed, and how.
#[derive(Drop)]
pub enum NoteKind {
    /// The record refused to keep the job's row.
    Put(RecordRefusal),
    /// The record refused to note that the archive of the job's row is gone.
    Drop(RecordRefusal),
    /// The record refused to note that the archive of the job's row was used.
    Touch(RecordRefusal),
    /// The host could not discard an archive that is of no use any more.
    Discard(HostFault),
    /// The host could not archive the job's files.
    Store(HostFault),
    /// Another call for the job failed once the end was settled, and no more was done for it.
    Late(HostFault),
}

/// What a whole run says.
#[derive(Drop)]
pub struct Report {
    pub outcome: Outcome,
    pub plans: Items<PlanNote>,
    pub notes: Items<Note>,
}

/// Why a run has no outcome.
#[derive(Drop)]
pub enum RunFault {
    /// The host's call failed; the tickets of the children that nobody waits for any more.
    Host(HostFault, Items<u64>),
    /// The record refused to give a row, or gave one that contradicts itself or its job's tool.
    Record(RecordRefusal),
    /// The job at this place was computed, and did not give what its row has: other outputs, or none.
    Mismatch(JobPlace),
    /// There are more jobs, or more parents of jobs, than a graph may have.
    TooManyJobs,
    /// Out of memory.
    OutOfMemory,
}

impl From<std::alloc::AllocError> for RunFault {
    ghost use Rattle.run_rules.specs.declared.outcome.RunFault.TheVariants.{OutOfMemory};
    ghost use Rattle.std.specs.Prelude.{◌≡◌};

    ghost from_gives = { λ _ fault. fault ≡ OutOfMemory };

    fn from(_error: std::alloc::AllocError) -> RunFault {
        RunFault::OutOfMemory
    }
}

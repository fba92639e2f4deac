use cwl_value::JobPlace;
use job_rows::{RecordRefusal, Row};
use plain_data::{Items, Text};
use proc_host::{HostAnswer, HostRequest};

/// A command to the record of jobs.
#[derive(Drop)]
pub enum RecordRequest {
    /// Which row is under this key?
    Find(Text),
    /// This row is kept under its key.
    Put(Row),
    /// The archive of this key was used.
    Touch(Text),
    /// The archive of this key is gone.
    DropArchive(Text),
}

/// What the record answers to a command.
#[derive(Drop)]
pub enum RecordAnswer {
    /// The row of the key that was looked up, if there is one.
    Found(Option<Row>),
    /// The row was put, and these keys are without their archive by it.
    Put(Items<Text>),
    /// It was done.
    Done,
    /// It was refused, and changed no row.
    Refused(RecordRefusal),
}

/// What a run asks next.
#[derive(Drop)]
pub enum Request {
    /// A call of the host's, for the job at this place; at the root where it is for the whole run.
    Host(JobPlace, HostRequest),
    /// A command to the record, for the job at this place.
    Record(JobPlace, RecordRequest),
    /// Nothing: the run has ended.
    Finished,
}

/// What a run is told.
#[derive(Drop)]
pub enum Answer {
    /// What the host answered to its call.
    Host(HostAnswer),
    /// What the record answered to its command.
    Record(RecordAnswer),
}

/// A request and its answer: one step of a run.
#[derive(Drop)]
pub struct Pair {
    pub request: Request,
    pub answer: Answer,
}

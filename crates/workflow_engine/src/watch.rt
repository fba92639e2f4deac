//! Who watches a run.

use cwl_value::JobPlace;
use proc_host::{HostAnswer, HostRequest};
use run_core::{RecordAnswer, RecordRequest};

/// Is told of each question to the host and to the record, and of each answer. What it does decides nothing of the run.
pub trait Watch {
    /// Takes note of a question before it is asked: the place of its job, and how many jobs are known by then. The wait for a child is
    /// of no job.
    fn asks(&mut self, place: &JobPlace, request: &HostRequest, known: usize);

    /// Takes note of the answer to the question before it.
    fn answers(&mut self, place: &JobPlace, answer: &HostAnswer);

    /// Takes note of a command to the record, for the job at this place, of its answer, and of how many jobs were known before it.
    fn recalls(
        &mut self,
        place: &JobPlace,
        request: &RecordRequest,
        answer: &RecordAnswer,
        known: usize,
    );
}

/// Watches nothing.
#[derive(Clone, Copy, Debug)]
pub struct Unwatched;

impl Watch for Unwatched {
    fn asks(&mut self, _place: &JobPlace, _request: &HostRequest, _known: usize) {}

    fn answers(&mut self, _place: &JobPlace, _answer: &HostAnswer) {}

    fn recalls(
        &mut self,
        _place: &JobPlace,
        _request: &RecordRequest,
        _answer: &RecordAnswer,
        _known: usize,
    ) {}
}

//! What becomes of the jobs of a run, as its engine tells it.

use cwl_value::JobPlace;
use proc_host::{HostAnswer, HostRequest};
use program_words::Listen;
use run_core::{RecordAnswer, RecordRequest};
use run_watch::{Adviser, Asked, Jobs, TakeNear};
use std::rt::Clock;
use workflow_engine::Watch;

/// Hands what the engine asks and hears to those who take note of the jobs, and the job of each command to who tells its launcher.
#[derive(Drop)]
pub struct Watched<'a, 'b, 'c, R: AllocGlobal + Clock, L: Listen + TakeNear> {
    pub jobs: Jobs<'a, R, L>,
    pub asked: &'b Asked<'c>,
}

impl<R: AllocGlobal + Clock, L: Listen + TakeNear> Watch for Watched<'_, '_, '_, R, L> {
    fn asks(&mut self, place: &JobPlace, request: &HostRequest, known: usize) {
        if let HostRequest::Start(_) = request {
            Adviser::new(self.asked).note(place);
        }
        self.jobs.note_asked(place, request, known);
    }

    fn answers(&mut self, place: &JobPlace, answer: &HostAnswer) {
        self.jobs.note_answered(place, answer);
    }

    fn recalls(
        &mut self,
        place: &JobPlace,
        request: &RecordRequest,
        answer: &RecordAnswer,
        known: usize,
    ) {
        self.jobs.note_recalled(place, request, answer, known);
    }
}

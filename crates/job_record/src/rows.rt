//! The record as a run asks it, with refusals that name no cause of the store.

ghost use Rattle.std.specs.Prelude.{◌≡◌};
ghost use Rattle.sqlite.specs.State.{HasCleanDisk};
ghost use Rattle.sqlite.specs.Held.{state};
ghost use Rattle.job_record.specs.Rows.{HoldsWithin, answered};

use crate::fault::{RecordFault, error_of};
use crate::record::JobRecord;
use job_rows::{Record, RecordError, Row};
use plain_data::{Items, Text};
use sqlite::Alter;

impl<S: Alter> Record for JobRecord<S> {
    ghost log = { λ kept. kept.log.items };

    ghost is_sound = { λ kept. HasCleanDisk (state S.Store kept.conn) };

    ghost holds = { λ kept map. HoldsWithin (state S.Store kept.conn) kept.space map };

    #[tactic(auto, using(crate::proofs::KeptRows::logs_answered))]
    fn find(&mut self, key: &Text) -> Result<Option<Row>, RecordError> {
        answered(JobRecord::find(self, key.as_str()))
    }

    #[tactic(auto, using(crate::proofs::KeptRows::logs_answered))]
    fn put(&mut self, row: &Row) -> Result<Items<Text>, RecordError> {
        answered(JobRecord::put(self, row))
    }

    #[tactic(auto, using(crate::proofs::KeptRows::logs_answered))]
    fn touch(&mut self, key: &Text) -> Result<(), RecordError> {
        answered(JobRecord::touch(self, key.as_str()))
    }

    #[tactic(auto, using(crate::proofs::KeptRows::logs_answered))]
    fn drop_archive(&mut self, key: &Text) -> Result<(), RecordError> {
        answered(JobRecord::drop_archive(self, key.as_str()))
    }
}

// What a command is answered, without the store's own cause.
fn answered<T>(answer: Result<T, RecordFault>) -> Result<T, RecordError>
    ensures { result ≡ answered answer }
{
    match answer {
        Ok(value) => Ok(value),
        Err(fault) => Err(error_of(fault)),
    }
}

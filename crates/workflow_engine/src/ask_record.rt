//! One question to the record.
ghost use Rattle.std.specs.Prelude.{◌≡◌, ◌++◌, IfOk};
ghost use Rattle.run_rules.specs.Answers.{CanTell};
ghost use Rattle.job_reuse.specs.Form.{AreInForm};
ghost use Rattle.job_rows.specs.Map.{RowMap};
ghost use Rattle.workflow_engine.specs.Gains.{done_by, found_by, kept_by, lines_by, refused_by};
ghost use Rattle.workflow_engine.specs.inner.Mapped.{IsPut, IsToldBy};

use job_reuse::in_form;
use job_rows::{Record, RecordError, Row};
use plain_data::{Items, Text};
use run_core::{RecordAnswer, RecordRequest};
use std::alloc::AllocError;

/// Gives the record a command, as a run asks. An `Err` leaves its log as it was.
pub(crate) fn ask_record<R: Record>(
    rows: &mut R,
    request: &RecordRequest,
) -> Result<RecordAnswer, AllocError>
    ensures logged { R.log rows.new ≡ R.log rows.old ++ lines_by request.now result }
    ensures answers { IfOk result (CanTell request.now) }
    ensures sound { R.is_sound rows.new → R.is_sound rows.old }
    ensures by_map { R.is_sound rows.new → (map : RowMap) → R.holds rows.old map
        → IsToldBy map request.now result (R.holds rows.new) }
    ensures form { IsPut AreInForm request.now }
{
    match request {
        RecordRequest::Find(key) => found(rows.find(key)),
        RecordRequest::Put(row) => {
            // What the types of values say reaches contracts once the values are looked at.
            in_form(&row.outputs);
            kept(rows.put(row))
        }
        RecordRequest::Touch(key) => done(rows.touch(key)),
        RecordRequest::DropArchive(key) => done(rows.drop_archive(key)),
    }
}

fn found(outcome: Result<Option<Row>, RecordError>) -> Result<RecordAnswer, AllocError>
    ensures { result ≡ found_by outcome }
{
    match outcome {
        Ok(row) => Ok(RecordAnswer::Found(row)),
        Err(error) => refused(error),
    }
}

fn kept(outcome: Result<Items<Text>, RecordError>) -> Result<RecordAnswer, AllocError>
    ensures { result ≡ kept_by outcome }
{
    match outcome {
        Ok(gone) => Ok(RecordAnswer::Put(gone)),
        Err(error) => refused(error),
    }
}

fn done(outcome: Result<(), RecordError>) -> Result<RecordAnswer, AllocError>
    ensures { result ≡ done_by outcome }
{
    match outcome {
        Ok(()) => Ok(RecordAnswer::Done),
        Err(error) => refused(error),
    }
}

fn refused(error: RecordError) -> Result<RecordAnswer, AllocError>
    ensures { result ≡ refused_by error }
{
    match error {
        RecordError::Refused(refusal) => Ok(RecordAnswer::Refused(refusal)),
        RecordError::OutOfMemory => Err(AllocError),
    }
}

//! What becomes of a job's collected outputs: its row is put, or they are not those of the row that was found.
ghost use Rattle.std.specs.Prelude.{◌≡◌, ◌↔◌, false, IsTrue, IfOk, option_copied};
ghost use Rattle.job_key.specs.Key.{key as its_key};
ghost use Rattle.job_reuse.specs.Rows.{made_row};
ghost use Rattle.run_core.specs.inner.Due.{DiffersAt, KeepsAt, told_in};

use crate::site::Site;
use crate::state::{JobNext, Reading};
use cwl_value::{Value, copy_fields};
use job_key::key_text;
use job_reuse::{differs, outputs_are_the_same_or_not, row_of};
use job_rows::Row;
use plain_data::Keyed;
use staging::listing_in;
use std::alloc::{AllocError, Global};
use std::mem;

/// What comes of outputs that were collected.
pub(crate) fn kept(
    alloc: Global,
    site: Site<'_, '_, '_>,
    reading: &Reading,
    outputs: Keyed<Value>,
) -> Result<JobNext, AllocError>
    ensures { IfOk result (KeepsAt site.entry reading.now.millis reading.now.found outputs) }
{
    if !site.tool.asked.reuse() {
        return Ok(JobNext::Gives(outputs, None));
    }
    outputs_are_the_same_or_not();
    if differs_from(site.row, &outputs) {
        return Ok(JobNext::Differs(outputs));
    }
    match row_for(alloc, site, reading, &outputs) {
        Ok(row) => Ok(given(site.row, outputs, row)),
        Err(error) => {
            mem::drop(outputs);
            Err(error)
        }
    }
}

/// The outputs are told, unless a row was found that has told them.
fn given(found: Option<&Row>, outputs: Keyed<Value>, row: Row) -> JobNext
    ensures { result ≡ told_in (option_copied found.entry) outputs row }
{
    match found {
        None => JobNext::Gives(outputs, Some(row)),
        Some(_) => {
            mem::drop(outputs);
            JobNext::Repeats(row)
        }
    }
}

/// Whether a row was found that has other outputs.
fn differs_from(row: Option<&Row>, outputs: &Keyed<Value>) -> bool
    ensures { IsTrue result ↔ DiffersAt (option_copied row.entry) outputs.now }
{
    match row {
        None => false,
        Some(row) => differs(row, outputs),
    }
}

/// The row that is put of the job.
fn row_for(
    alloc: Global,
    site: Site<'_, '_, '_>,
    reading: &Reading,
    outputs: &Keyed<Value>,
) -> Result<Row, AllocError>
    ensures { IfOk result (λ row. row ≡ made_row (its_key site.entry.tool.now site.entry.inputs.now)
        outputs.now reading.now.found reading.now.millis false) }
{
    let key = key_text(alloc, site.tool, site.inputs)?;
    let outputs = copy_fields(alloc, outputs)?;
    let files = listing_in(alloc, &reading.found)?;
    Ok(row_of(key, outputs, files, reading.millis, false))
}

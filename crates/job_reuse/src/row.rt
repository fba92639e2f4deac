//! The row that is put of a job.
ghost use Rattle.std.specs.Prelude.{◌≡◌};
ghost use Rattle.job_reuse.specs.Form.{AreInForm};
ghost use Rattle.job_reuse.specs.Rows.{held, made_row};

use crate::form::in_form;
use cwl_value::Value;
use job_rows::Row;
use plain_data::{Items, Keyed, Text};
use plan_checker::MOST_COST;
use staging::Found;

/// Makes the row of a job that was computed: its key, its outputs by name, what was found in its folder, how many milliseconds it
/// took, and whether its files were archived.
pub fn row_of(
    key: Text,
    outputs: Keyed<Value>,
    files: Items<Found>,
    millis: u64,
    archived: bool,
) -> Row
    ensures row { result ≡ made_row key outputs files millis archived }
    ensures form { AreInForm result.outputs }
{
    // What the types of values say reaches contracts where the values are looked at.
    in_form(&outputs);
    Row {
        key,
        outputs,
        files,
        cost: cost_of(millis),
        archived,
    }
}

// A job costs at least 1, and at most what a plan takes.
fn cost_of(millis: u64) -> u64
    ensures { result ≡ held millis }
{
    millis.clamp(1, MOST_COST)
}

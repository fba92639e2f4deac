//! The rows that the record has of the known jobs.
ghost use Rattle.std.specs.Prelude.{◌≡◌, ◌<◌, [], OnOk, length, option_copied};
ghost use Rattle.job_rows.specs.declared.row.Row.{Row as Found};
ghost use Rattle.run_core.specs.inner.FoundRows.{row_in, row_set};

use job_rows::Row;
use std::alloc::{AllocError, Global};
use std::marker::Model;

/// The rows that were found, by the numbers of their jobs. A job past the last of these has none.
#[derive(Drop)]
pub(crate) struct FoundRows {
    rows: Vec<Option<Row>>,
}

impl Model for FoundRows {
    ghost use Rattle.std.specs.Prelude.{List, Option};
    ghost use Rattle.std.specs.Coded.{coded_list, coded_option, codes};
    ghost use Rattle.cwl_value.specs.contracts.value.Value as value;
    ghost use Rattle.job_rows.specs.contracts.row.Row as row;
    ghost use Rattle.job_rows.specs.declared.row.Row.{Row};

    ghost Value = { List (Option Row) };

    ghost coded = { coded_list (coded_option row.the_row.coded) };

    ghost view = { λ fields. fields.rows.items };
}

impl FoundRows {
    /// No row was found.
    pub(crate) fn new(alloc: Global) -> FoundRows
        ensures { result ≡ [] }
    {
        FoundRows {
            rows: Vec::new(alloc),
        }
    }

    /// The row of the job of a number, if one was found.
    pub(crate) fn get(&self, number: usize) -> Option<&Row>
        ensures { option_copied result ≡ row_in self.now number }
    {
        match self.rows.get(number) {
            Some(Some(row)) => Some(row),
            _ => None,
        }
    }

    /// This row was found for the job of a number.
    pub(crate) fn set(&mut self, number: usize, row: Row) -> Result<(), AllocError>
        ensures { OnOk result (self.new ≡ row_set number row self.old) }
    {
        match self.reach(number) {
            Ok(()) => {
                self.rows[number] = Some(row);
                Ok(())
            }
            Err(error) => {
                drop(row);
                Err(error)
            }
        }
    }

    /// Adds jobs without a row, up to the one of this number.
    fn reach(&mut self, number: usize) -> Result<(), AllocError>
        ensures reached { OnOk result (number < length self.new) }
        ensures same { (row : Found) → row_set number row self.new ≡ row_set number row self.old }
    {
        while self.rows.len() <= number {
            self.rows.push(None)?;
        }
        Ok(())
    }
}

//! A job in its folders.

use crate::Options;
use cwl_process::Tool;
use cwl_value::Value;
use job_rows::Row;
use plain_data::Keyed;

/// A job in its folders: its tool and inputs, the row that was found for it, the number of the folders, and what it may use.
#[derive(Clone, Copy, Drop)]
pub(crate) struct Site<'a, 's, 'c> {
    pub tool: &'a Tool,
    pub inputs: &'c Keyed<Value>,
    pub row: Option<&'c Row>,
    pub folder: u64,
    pub options: &'s Options,
}

ghost use Rattle.std.specs.Prelude.{◌≡◌, IfOk};
ghost use Rattle.job_rows.specs.Map.{bytes_of};

use crate::archives::GREATEST_NUMBER;
use cwl_value::{Value, copy_fields};
use plain_data::{Items, Keyed, Text};
use staging::Found;
use std::alloc::{AllocError, Global};

/// What a record holds of one job.
#[derive(Drop)]
pub struct Row {
    /// What the job was run on (`job_key`).
    pub key: Text,
    /// The outputs by name. Each File and Directory has a `Url` as its place: its name below the job's output folder.
    pub outputs: Keyed<Value>,
    /// What stood in the job's output folder.
    pub files: Items<Found>,
    /// In milliseconds, from 1 to 10^12.
    pub cost: u64,
    /// Whether an archive of the files is kept.
    pub archived: bool,
}

impl Row {
    /// A copy in memory of its own.
    pub fn clone_in(&self, alloc: Global) -> Result<Row, AllocError>
        ensures { IfOk result (λ copy. copy ≡ self.now) }
    {
        let outputs = copy_fields(alloc, &self.outputs)?;
        Ok(Row {
            files: copy_files(alloc, &self.files)?,
            key: self.key.copied(alloc)?,
            outputs,
            cost: self.cost,
            archived: self.archived,
        })
    }

    /// How many bytes its files have together, held to the greatest number that a store has.
    pub fn bytes(&self) -> u64
        ensures { result ≡ bytes_of self.now }
    {
        let mut bytes: u64 = 0;
        for found in self.files.as_slice() {
            bytes = bytes.saturating_add(found.size);
        }
        bytes.min(GREATEST_NUMBER)
    }
}

fn copy_files(alloc: Global, files: &Items<Found>) -> Result<Items<Found>, AllocError>
    ensures { IfOk result (λ copy. copy ≡ files.now) }
{
    let mut copies = Items::from_vec(Vec::with_capacity(alloc, files.len())?);
    for found in files.as_slice() {
        copies.push(found.clone_in(alloc)?)?;
    }
    Ok(copies)
}

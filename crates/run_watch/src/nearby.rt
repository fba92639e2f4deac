//! What the record has that is near to the jobs of which it has no row.

use plain_data::{Items, Text};
use process_machine::World;
use program_words::near_words;
use record_program::{Listing, Records};
use run_facts::{KeyParts, nearest, parts_of};
use std::alloc::{AllocError, Global};
use std::{fs, io, mem};

/// For how many jobs of a run that is looked for.
const LOOKED_FOR: usize = 100;

/// Whether a file is opened as a record. Of one that is not there, and of one without a byte, a run would make a record; a plan makes none,
/// and takes it as one without rows.
pub fn is_kept<R: World>(rt: &R, file: &str) -> bool {
    match fs::metadata(rt, file) {
        Ok(found) => found.len() > 0,
        Err(error) => !matches!(error.kind(), io::ErrorKind::NotFound),
    }
}

/// Jobs that a record has: the parts of their keys, and what each took.
#[derive(Drop)]
pub struct KeptJobs {
    pub parts: Items<KeyParts>,
    pub costs: Items<u64>,
}

impl KeptJobs {
    pub fn none(alloc: Global) -> KeptJobs {
        KeptJobs {
            parts: Items::new(alloc),
            costs: Items::new(alloc),
        }
    }
}

/// The jobs that the record of a file has, if they are wanted. There are none if the record can't be listed: who opens it then says why, or
/// makes one.
pub fn kept_in<R: AllocGlobal + Records>(rt: &R, file: &str, are_wanted: bool) -> KeptJobs {
    if !are_wanted {
        return KeptJobs::none(rt.alloc());
    }
    match rt.see_rows(file) {
        Ok(listing) => match all_jobs(rt.alloc(), &listing) {
            Ok(kept) => kept,
            Err(_) => KeptJobs::none(rt.alloc()),
        },
        Err(ending) => {
            mem::drop(ending);
            KeptJobs::none(rt.alloc())
        }
    }
}

fn all_jobs(alloc: Global, listing: &Listing) -> Result<KeptJobs, AllocError> {
    let mut kept = KeptJobs::none(alloc);
    for row in listing.rows.as_slice() {
        if let Some(parts) = parts_of(alloc, row.key.as_str())? {
            kept.parts.push(parts)?;
            kept.costs.push(row.cost)?;
        }
    }
    Ok(kept)
}

/// Says of jobs that a record does not have how they differ from the nearest ones.
#[derive(Drop)]
pub struct Nearby<'k> {
    alloc: Global,
    kept: &'k [KeyParts],
    left: usize,
}

impl<'k> Nearby<'k> {
    pub fn new(alloc: Global, kept: &'k [KeyParts]) -> Nearby<'k> {
        Nearby {
            alloc,
            kept,
            left: LOOKED_FOR,
        }
    }

    /// Lines on the job of a key, or an empty text: also if it has a row, or was not among the first that have none.
    pub fn lines_on(&mut self, key: &Text, has_row: bool) -> Result<Text, AllocError> {
        if has_row || self.left == 0 || self.kept.is_empty() {
            return Ok(Text::from_string(String::new(self.alloc)));
        }
        self.left = self.left.saturating_sub(1);
        match parts_of(self.alloc, key.as_str())? {
            None => Ok(Text::from_string(String::new(self.alloc))),
            Some(own) => {
                let near = nearest(self.alloc, &own, self.kept)?;
                Ok(Text::from_string(near_words(self.alloc, &near)?))
            }
        }
    }
}

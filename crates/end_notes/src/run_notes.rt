//! What is said of a job that gave something else than the record has.

use hex::encode;
use job_rows::Row;
use plain_data::{Items, Text};
use program_words::add_word;
use sha1::Sha1;
use staging::Found;
use std::alloc::{AllocError, Global};

/// How many files are shown that differ.
const FILES_SHOWN: usize = 5;

const CAUSES: &str =
    "causes are another version of the program, a time, a path, a host name or a random number in a file, and files that are no inputs";

const PREFERRED: &str =
    "`--prefer-kept` loads the files that are kept of such a job, if they are there and right, and doesn't compute it again";

/// What the record has of a job.
#[derive(Drop)]
pub struct Remembered {
    /// The text of its key.
    pub key: Text,
    /// What stood in its output folder.
    pub files: Items<Found>,
}

impl Remembered {
    /// What this row has, in memory of its own.
    pub fn of(alloc: Global, row: &Row) -> Result<Remembered, AllocError> {
        let mut files = Items::new(alloc);
        for found in row.files.as_slice() {
            files.push(found.clone_in(alloc)?)?;
        }
        let key = row.key.copied(alloc)?;
        Ok(Remembered { key, files })
    }
}

/// Adds lines on a job that did not give what the record has: which files differ, if what it left was listed, what may be the cause,
/// how the record forgets it, if that is of this file or folder, and how the files that are kept are loaded, if any are.
pub fn add_mismatch(
    alloc: Global,
    was: &Remembered,
    now: Option<&[Found]>,
    record: Option<&str>,
    keeps: bool,
    lines: &mut Vec<String>,
) -> Result<(), AllocError> {
    if let Some(now) = now {
        add_differences(alloc, was.files.as_slice(), now, lines)?;
    }
    lines.push(String::from_str(alloc, CAUSES)?)?;
    if let Some(record) = record {
        add_remedy(alloc, was.key.as_str(), record, lines)?;
    }
    if keeps {
        lines.push(String::from_str(alloc, PREFERRED)?)?;
    }
    Ok(())
}

fn add_differences(
    alloc: Global,
    was: &[Found],
    now: &[Found],
    lines: &mut Vec<String>,
) -> Result<(), AllocError> {
    let mut count: usize = 0;
    for old in was {
        if count >= FILES_SHOWN {
            return Ok(());
        }
        if let Some(words) = difference_of(alloc, old, now)? {
            lines.push(words)?;
            count = count.saturating_add(1);
        }
    }
    Ok(())
}

// How what is there now differs from a file.
fn difference_of(alloc: Global, old: &Found, now: &[Found]) -> Result<Option<String>, AllocError> {
    let (name, was) = (&old.name, &old.sum);
    for new in now {
        if new.name.equals(name) {
            let is = &new.sum;
            return if is.equals(was) {
                Ok(None)
            } else {
                Ok(Some(format!(in alloc; "{name} had the SHA-1 {was}, and has {is}")?))
            };
        }
    }
    Ok(Some(format!(in alloc; "{name} is not there now")?))
}

fn add_remedy(
    alloc: Global,
    key: &str,
    record: &str,
    lines: &mut Vec<String>,
) -> Result<(), AllocError> {
    let sum = encode(alloc, Sha1::digest(key.as_bytes()))?;
    let mut command = format!(in alloc; "deparohi record --forget {sum} ")?;
    add_word(&mut command, record)?;
    lines.push(format!(in alloc;
        "`{command}` forgets what the record has, if what is there now is right"
    )?)?;
    Ok(())
}

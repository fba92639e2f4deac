//! What is said of jobs that a run could not keep for later runs, and of what it could not note or remove of those that are kept.

use crate::explaining::{hindrance_words, unkept_words};
use crate::report::place_in;
use cwl_value::JobPlace;
use plain_data::Text;
use process_machine::Hindrance;
use std::alloc::{AllocError, Global};

/// The archive of a run that doesn't say its name.
const ARCHIVE: &str = "the archive";

/// Jobs that missed the same: the first one's place as JSON text, and how many there are.
#[derive(Drop)]
pub struct Misses {
    first: Option<Text>,
    count: u64,
}

impl Misses {
    pub fn none() -> Misses {
        Misses {
            first: None,
            count: 0,
        }
    }

    pub fn are_some(&self) -> bool {
        self.count > 0
    }

    /// Takes note of one more job.
    pub fn add(&mut self, alloc: Global, place: &JobPlace) -> Result<(), AllocError> {
        if self.first.is_none() {
            self.first = Some(place_in(alloc, place)?);
        }
        self.count = self.count.saturating_add(1);
        Ok(())
    }
}

/// Adds a line on the jobs whose files could not be stored in this archive or cache, and what hindered it.
pub fn add_unstored(
    alloc: Global,
    missed: &Misses,
    archive: Option<&str>,
    why: Option<Hindrance>,
    lines: &mut Vec<String>,
) -> Result<(), AllocError> {
    if let Some(what) = unstored(alloc, missed, archive, why)? {
        lines.push(unkept_words(alloc, what.as_str())?)?;
    }
    Ok(())
}

/// Returns what that line says if there is no room for files: then it is said though no words are asked for.
pub fn unkept_for_room(
    alloc: Global,
    missed: &Misses,
    archive: Option<&str>,
    why: Option<Hindrance>,
) -> Result<Option<Text>, AllocError> {
    match why {
        Some(Hindrance::Full) => {
            let what = unstored(alloc, missed, archive, why)?;
            Ok(what.map(Text::from_string))
        }
        _ => Ok(None),
    }
}

fn unstored(
    alloc: Global,
    missed: &Misses,
    archive: Option<&str>,
    why: Option<Hindrance>,
) -> Result<Option<String>, AllocError> {
    let Some(jobs) = jobs_in(alloc, missed)? else {
        return Ok(None);
    };
    let place = archive.unwrap_or(ARCHIVE);
    let mut what = format!(in alloc; "{jobs}, whose files could not be stored in {place}")?;
    if let Some(why) = why {
        what.push_str(": ")?;
        what.push_str(hindrance_words(why))?;
    }
    Ok(Some(what))
}

/// Adds a line on so many jobs, whose files the record did not keep since its budget is spent.
pub fn add_over_budget(
    alloc: Global,
    jobs: u64,
    lines: &mut Vec<String>,
) -> Result<(), AllocError> {
    let words = match jobs {
        0 => return Ok(()),
        1 => String::from_str(alloc, "1 job")?,
        jobs => format!(in alloc; "{jobs} jobs")?,
    };
    let what = format!(in alloc; "{words}, for whose files the budget has no room")?;
    lines.push(unkept_words(alloc, what.as_str())?)?;
    Ok(())
}

/// Adds a line on the jobs whose rows the record refused, by a refusal of this code.
pub fn add_unput(
    alloc: Global,
    missed: &Misses,
    code: &str,
    lines: &mut Vec<String>,
) -> Result<(), AllocError> {
    let Some(jobs) = jobs_in(alloc, missed)? else {
        return Ok(());
    };
    lines.push(format!(in alloc; "not kept: {jobs}, whose rows the record refused: {code}")?)?;
    Ok(())
}

/// Adds a line on the jobs whose files were loaded and whose use the record refused to note, by a refusal of this code.
pub fn add_untouched(
    alloc: Global,
    missed: &Misses,
    code: &str,
    lines: &mut Vec<String>,
) -> Result<(), AllocError> {
    let Some(jobs) = jobs_in(alloc, missed)? else {
        return Ok(());
    };
    lines.push(format!(in alloc; "not noted: {jobs}, whose use the record refused: {code}")?)?;
    Ok(())
}

/// Adds a line on the jobs after which files could not be removed from this archive or cache.
pub fn add_undiscarded(
    alloc: Global,
    missed: &Misses,
    archive: Option<&str>,
    lines: &mut Vec<String>,
) -> Result<(), AllocError> {
    let Some(jobs) = jobs_in(alloc, missed)? else {
        return Ok(());
    };
    let place = archive.unwrap_or(ARCHIVE);
    lines.push(format!(in alloc;
        "not removed: files in {place} that are kept no more, after {jobs}"
    )?)?;
    Ok(())
}

// The first job, and how many more there are.
fn jobs_in(alloc: Global, missed: &Misses) -> Result<Option<String>, AllocError> {
    let Some(first) = &missed.first else {
        return Ok(None);
    };
    let words = match missed.count {
        0 | 1 => String::from_str(alloc, first.as_str())?,
        2 => format!(in alloc; "{first} and 1 more job")?,
        count => {
            let more = count.saturating_sub(1);
            format!(in alloc; "{first} and {more} more jobs")?
        }
    };
    Ok(Some(words))
}

//! What is at a path.

use crate::listing::listing_of;
use crate::tree::Others;
use crate::trouble::Trouble;
use crate::trusting::Sums;
use crate::world::World;
use file_values::FileSum;
use staging::Measure;
use std::fs::Metadata;
use std::{fs, io};

/// Measures what is at a path: nothing, a file with its size and sum, or a folder with all that is below it. A link is
/// taken as what it points to.
///
/// A link that leads nowhere, a pipe or a device, and what can't be read or listed are trouble.
pub(crate) fn measure_of<R: World>(
    rt: &R,
    path: &str,
    sums: &mut Sums,
) -> Result<Measure, Trouble> {
    match fs::metadata(rt, path) {
        Ok(metadata) => measure_as(rt, path, &metadata, sums),
        Err(error) => {
            // Where nothing is met at a path, there is nothing, or a link that leads nowhere.
            if is_absence(&error) && !is_link(rt, path)? {
                Ok(Measure::Absent)
            } else {
                Err(trouble_of(&error))
            }
        }
    }
}

fn measure_as<R: World>(
    rt: &R,
    path: &str,
    met: &Metadata,
    sums: &mut Sums,
) -> Result<Measure, Trouble> {
    if met.is_dir() {
        Ok(Measure::Folder(listing_of(rt, path, Others::Refused, sums)?))
    } else if met.is_file() {
        let FileSum { sum, size } = sums.sum_at(rt, path, met.len())?;
        Ok(Measure::File { size, sum })
    } else {
        Err(Trouble::Failed)
    }
}

fn is_link<R: World>(rt: &R, path: &str) -> Result<bool, Trouble> {
    match fs::symlink_metadata(rt, path) {
        Ok(_) => Ok(true),
        Err(error) if is_absence(&error) => Ok(false),
        Err(error) => Err(trouble_of(&error)),
    }
}

// Whether an error says that nothing is there: a name is absent, or is below a file.
fn is_absence(error: &io::Error) -> bool {
    matches!(
        error.kind(),
        io::ErrorKind::NotFound | io::ErrorKind::NotADirectory
    )
}

fn trouble_of(error: &io::Error) -> Trouble {
    match error.kind() {
        io::ErrorKind::OutOfMemory => Trouble::OutOfMemory,
        _ => Trouble::Failed,
    }
}

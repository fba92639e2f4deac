//! What is removed of a job's folder once its outputs are listed.

use crate::layout::joined;
use crate::removing::remove_folder;
use crate::trouble::{Trouble, or_trouble};
use staging::Found;
use std::fs;
use std::rt::Files;

/// Removes the folders `in` and `tmp` of a job, whose folder `out` was listed: nobody reads them any more. What can't be removed stays.
///
/// Both stay where anything that was listed is a link, since it may lead into them, and is read and copied as what it leads to. The
/// folders of no other job, and of none in another work folder, are removed.
pub(crate) fn clear_job<R: AllocGlobal + Files + Clone + Drop>(
    rt: &R,
    work: &str,
    folder: &str,
    found: &[Found],
) -> Result<(), Trouble> {
    match job_of(folder, work) {
        Some(job) if !has_link(rt, folder, found)? => {
            remove_part(rt, job, "in")?;
            remove_part(rt, job, "tmp")
        }
        _ => Ok(()),
    }
}

// The folder of the job whose folder `out` has this path.
fn job_of<'a>(folder: &'a str, work: &str) -> Option<&'a str> {
    let job = folder.strip_suffix("/out")?;
    let number = job.strip_prefix(work)?.strip_prefix("/j")?;
    let is_number = !number.is_empty() && number.bytes().all(|byte| byte.is_ascii_digit());
    if is_number { Some(job) } else { None }
}

// Whether the folder, or anything that was listed of it, is a link.
fn has_link<R: AllocGlobal + Files>(
    rt: &R,
    folder: &str,
    found: &[Found],
) -> Result<bool, Trouble> {
    if is_link(rt, folder)? {
        return Ok(true);
    }
    for entry in found {
        let path = joined(rt.alloc(), folder, entry.name.as_str())?;
        if is_link(rt, path.as_str())? {
            return Ok(true);
        }
    }
    Ok(false)
}

fn is_link<R: Files>(rt: &R, path: &str) -> Result<bool, Trouble> {
    Ok(or_trouble(fs::symlink_metadata(rt, path))?.is_symlink())
}

fn remove_part<R: AllocGlobal + Files + Clone + Drop>(
    rt: &R,
    job: &str,
    name: &str,
) -> Result<(), Trouble> {
    let part = joined(rt.alloc(), job, name)?;
    let _removed = remove_folder(rt, part.as_str());
    Ok(())
}

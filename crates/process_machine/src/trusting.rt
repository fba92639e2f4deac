//! Sums of files: each is read, or what an earlier machine noted of it stands for it.

use crate::summing::sum_left;
use crate::trouble::Trouble;
use crate::world::World;
use file_values::FileSum;
use plain_data::Text;
use std::alloc::AllocError;
use std::fs::Metadata;
use std::os::unix::fs::MetadataExt;
use std::time::{SystemTime, UNIX_EPOCH};
use std::{fs, io, mem};
use trusted_times::{Moment, Stamp, Times};

/// How sums of files are come by.
#[derive(Drop)]
pub(crate) struct Sums {
    trusted: Option<Trusted>,
}

// A table of times, and the file that it is kept in.
#[derive(Drop)]
struct Trusted {
    file: Text,
    times: Times,
}

impl Sums {
    /// Each file is read.
    pub(crate) fn read() -> Sums {
        Sums { trusted: None }
    }

    /// A file is not read if the table of this file has its sum, and if it is as it was then. If there is no such table it begins empty.
    pub(crate) fn trusting<R: World>(rt: &R, file: Text) -> Result<Sums, AllocError> {
        let times = times_in(rt, file.as_str())?;
        let trusted = Some(Trusted { file, times });
        Ok(Sums { trusted })
    }

    /// Returns the size and the sum of the file at a path, which the system says has so many bytes.
    pub(crate) fn sum_at<R: World>(
        &mut self,
        rt: &R,
        path: &str,
        size: u64,
    ) -> Result<FileSum, Trouble> {
        match &mut self.trusted {
            None => sum_at(rt, path, size),
            Some(trusted) => trusted_sum_at(rt, &mut trusted.times, path, size),
        }
    }

    /// Writes the table back, if there is one and if the system allows it.
    pub(crate) fn keep<R: World>(&self, rt: &R) -> Result<(), Trouble> {
        match &self.trusted {
            None => Ok(()),
            Some(trusted) => written(rt, &trusted.times, trusted.file.as_str()),
        }
    }
}

/// Reads the file at a path, once, and sums it. It is best read if it has so many bytes.
pub(crate) fn sum_at<R: World>(rt: &R, path: &str, size: u64) -> Result<FileSum, Trouble> {
    let mut reader = fs::open(rt, path)?;
    match sum_left(rt.alloc(), &mut reader, size) {
        // Why a file that is open can't be read is not told.
        Err(Trouble::Hindered(_)) => Err(Trouble::Failed),
        outcome => outcome,
    }
}

fn times_in<R: World>(rt: &R, file: &str) -> Result<Times, AllocError> {
    let read = match fs::read_to_string(rt, file) {
        Ok(text) => Times::read(rt.alloc(), text.as_str())?,
        Err(error) if error.kind() == io::ErrorKind::OutOfMemory => return Err(AllocError),
        Err(_) => None,
    };
    match read {
        Some(times) => Ok(times),
        None => Ok(Times::new(rt.alloc())),
    }
}

// A file beside the table takes its place, so that no half of it is ever read.
fn written<R: World>(rt: &R, times: &Times, file: &str) -> Result<(), Trouble> {
    let text = times.text(rt.alloc())?;
    let new = format!(in rt.alloc(); "{file}.new")?;
    fs::write(rt, new.as_str(), text.as_str())?;
    mem::drop(text);
    Ok(fs::rename(rt, new.as_str(), file)?)
}

fn trusted_sum_at<R: World>(
    rt: &R,
    times: &mut Times,
    path: &str,
    size: u64,
) -> Result<FileSum, Trouble> {
    let now = seconds(rt);
    let Some(stamp) = stamp_at(rt, path) else {
        return sum_at(rt, path, size);
    };
    if let Some(sum) = times.sum_at(path, &stamp) {
        return Ok(FileSum {
            sum: sum.copied(rt.alloc())?,
            size: stamp.size,
        });
    }
    let found = sum_at(rt, path, size)?;
    if found.size == stamp.size && is_still(rt, path, &stamp) {
        times.note(rt.alloc(), path, stamp, found.sum.copied(rt.alloc())?, now)?;
    }
    Ok(found)
}

// The seconds since 1970; none by a clock that can't be read, and then no file has settled.
fn seconds<R: World>(rt: &R) -> u64 {
    match SystemTime::now(rt) {
        Ok(now) => now
            .duration_since(UNIX_EPOCH)
            .map_or(0, |age| age.as_secs()),
        Err(_) => 0,
    }
}

fn is_still<R: World>(rt: &R, path: &str, stamp: &Stamp) -> bool {
    match stamp_at(rt, path) {
        Some(now) => now.is(stamp),
        None => false,
    }
}

fn stamp_at<R: World>(rt: &R, path: &str) -> Option<Stamp> {
    match fs::metadata(rt, path) {
        Ok(metadata) => stamp_of(&metadata),
        Err(_) => None,
    }
}

// A file system that gives no numbers tells no files apart.
fn stamp_of(metadata: &Metadata) -> Option<Stamp> {
    if metadata.ino() == 0 {
        return None;
    }
    Some(Stamp {
        device: metadata.dev(),
        number: metadata.ino(),
        size: metadata.size(),
        modified: moment_of(metadata.mtime(), metadata.mtime_nsec())?,
        changed: moment_of(metadata.ctime(), metadata.ctime_nsec())?,
    })
}

fn moment_of(seconds: i64, nanos: i64) -> Option<Moment> {
    Some(Moment {
        seconds: u64::try_from(seconds).ok()?,
        nanos: u64::try_from(nanos).ok()?,
    })
}

//! A file and its log, looked at before the store opens them.
ghost use Rattle.std.specs.Prelude.{◌≤◌, IfOk, length};

use crate::head::{
    HEADER, Head, LOG_HEADER, LogHead, head_of, is_bare_log, is_too_long, log_of, refusal_of,
};
use job_record::RecordFault;
use sqlite::{Error, ErrorCode};
use std::io::Read;
use std::rt::Files;
use std::{fs, io};

const CANNOT_OPEN: RecordFault = RecordFault::Store(Error::SqliteFailure(ErrorCode::CannotOpen));

/// A file that may be opened.
#[derive(Drop)]
pub struct Look {
    head: Head,
    log: String,
    log_head: LogHead,
}

impl Look {
    /// Whether nothing of a database is there.
    pub fn is_empty(&self) -> bool {
        matches!(self.head, Head::Blank) && matches!(self.log_head, LogHead::Absent)
    }

    /// Returns the name of the log that an opening makes beside the file.
    pub fn new_log(&self) -> Option<&str> {
        match self.log_head {
            LogHead::Absent => Some(self.log.as_str()),
            _ => None,
        }
    }
}

/// Looks at a file and at its log, and refuses what no record is.
pub fn looked<R: AllocGlobal + Files>(rt: &R, file: &str) -> Result<Look, RecordFault> {
    let head = head_at(rt, file)?;
    refuse_length(rt, file)?;
    let log = log_name(rt, file)?;
    let log_head = log_at(rt, log.as_str())?;
    match refusal_of(head, log_head) {
        Some(fault) => Err(fault),
        None => Ok(Look {
            head,
            log,
            log_head,
        }),
    }
}

// No record has so many rows: such a file has no bytes in most of its pages, or holds something else.
fn refuse_length<R: AllocGlobal + Files>(rt: &R, file: &str) -> Result<(), RecordFault> {
    match fs::metadata(rt, file) {
        Ok(found) if is_too_long(found.len()) => Err(RecordFault::NotARecord),
        Ok(_) => Ok(()),
        Err(error) => Err(of_io(&error)),
    }
}

/// The same, if the file may be absent.
pub fn looked_if_there<R: AllocGlobal + Files>(
    rt: &R,
    file: &str,
) -> Result<Option<Look>, RecordFault> {
    match fs::metadata(rt, file) {
        Err(error) if error.kind() == io::ErrorKind::NotFound => Ok(None),
        _ => Ok(Some(looked(rt, file)?)),
    }
}

/// Removes the log that an opening has made, while the files are held. One that another program has committed to since the look stays.
pub fn remove_log<R: AllocGlobal + Files>(rt: &R, new_log: Option<&str>) {
    if let Some(log) = new_log {
        remove_if_bare(rt, log);
    }
}

fn remove_if_bare<R: AllocGlobal + Files>(rt: &R, log: &str) {
    if let Ok(found) = fs::metadata(rt, log) {
        if is_bare_log(found.len()) {
            let _removed = fs::remove_file(rt, log);
        }
    }
}

fn head_at<R: AllocGlobal + Files>(rt: &R, file: &str) -> Result<Head, RecordFault> {
    let mut bytes = [0; HEADER];
    let count = first_bytes(rt, file, &mut bytes)?;
    Ok(head_of(&bytes[..count]))
}

/// As in SQLite, the log lies beside the file that a link leads to.
pub fn log_name<R: AllocGlobal + Files>(rt: &R, file: &str) -> Result<String, RecordFault> {
    match fs::canonicalize(rt, file) {
        Ok(path) => Ok(format!(in rt.alloc(); "{}-wal", path.as_str())?),
        Err(error) => Err(of_io(&error)),
    }
}

fn log_at<R: AllocGlobal + Files>(rt: &R, log: &str) -> Result<LogHead, RecordFault> {
    match fs::symlink_metadata(rt, log) {
        Ok(_) => log_in(rt, log),
        Err(error) if error.kind() == io::ErrorKind::NotFound => Ok(LogHead::Absent),
        Err(error) => Err(of_io(&error)),
    }
}

fn log_in<R: AllocGlobal + Files>(rt: &R, log: &str) -> Result<LogHead, RecordFault> {
    let mut bytes = [0; LOG_HEADER];
    let count = first_bytes(rt, log, &mut bytes)?;
    Ok(log_of(&bytes[..count]))
}

fn first_bytes<R: AllocGlobal + Files>(
    rt: &R,
    path: &str,
    bytes: &mut [u8],
) -> Result<usize, RecordFault>
    ensures { IfOk result (λ count. count ≤ length bytes.old) }
{
    match read_first(rt, path, bytes) {
        Ok(count) => Ok(count),
        Err(error) => Err(of_io(&error)),
    }
}

// Reads what a regular file begins with. No other is opened, since a pipe would wait.
fn read_first<R: AllocGlobal + Files>(rt: &R, path: &str, bytes: &mut [u8]) -> io::Result<usize>
    ensures { IfOk result (λ count. count ≤ length bytes.old) }
{
    if !fs::metadata(rt, path)?.is_file() {
        return Err(io::ErrorKind::Unsupported.into());
    }
    let mut file = fs::File::open(rt, path)?;
    file.read(bytes)
}

fn of_io(error: &io::Error) -> RecordFault {
    match error.kind() {
        io::ErrorKind::OutOfMemory => RecordFault::OutOfMemory,
        _ => CANNOT_OPEN,
    }
}

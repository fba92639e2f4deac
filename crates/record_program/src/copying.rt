//! A copy of the files of a database, for whoever can't hold the files themselves.
ghost use Rattle.std.specs.Prelude.{◌≡◌};
ghost use Rattle.record_program.specs.Copying as spec;

use crate::head::LOG_HEADER;
use crate::look::log_name;
use job_record::RecordFault;
use sqlite::{Error, ErrorCode};
use std::io::Read;
use std::os::unix::fs::{DirBuilderExt, PermissionsExt};
use std::rt::{Env, Files};
use std::{env, fs, io};

/// How many folders are tried, of which others may have some.
const MOST_NAMES: u32 = 10_000;

/// How often the files are copied, if their log is begun anew meanwhile.
const MOST_TRIES: u32 = 5;

/// What the files of a copy may be used for: their owner reads and writes them.
const OWNERS: u32 = 0o600;

/// Files in a folder of their own, which nobody else may look into.
#[derive(Drop)]
pub struct CopiedFiles {
    folder: String,
    file: String,
    log: String,
}

impl CopiedFiles {
    pub fn file(&self) -> &str {
        self.file.as_str()
    }

    /// Removes the files. Those that are open stay so until they are let go.
    pub fn remove<R: Files>(&self, rt: &R) {
        let _file = fs::remove_file(rt, self.file.as_str());
        let _log = fs::remove_file(rt, self.log.as_str());
        let _folder = fs::remove_dir(rt, self.folder.as_str());
    }
}

/// Whether a record could be looked at in a copy: another holds its file, or it may not be written.
pub fn may_be_copied(fault: &RecordFault) -> bool
    ensures { result ≡ spec.may_be_copied fault.now }
{
    is_unwritable(fault)
        || matches!(
            fault,
            RecordFault::Store(Error::SqliteFailure(ErrorCode::DatabaseBusy))
        )
}

/// Whether the file of a record could not be opened to be read and written, or made.
pub fn is_unwritable(fault: &RecordFault) -> bool
    ensures { result ≡ spec.is_unwritable fault.now }
{
    matches!(
        fault,
        RecordFault::Store(Error::SqliteFailure(ErrorCode::CannotOpen))
    )
}

/// Copies the files of a database as they are now. Only a file is read: a pipe would be waited for.
pub fn copied<R: AllocGlobal + Files + Env>(rt: &R, file: &str) -> io::Result<CopiedFiles> {
    if !fs::metadata(rt, file)?.is_file() {
        return Err(io::ErrorKind::InvalidInput.into());
    }
    let folder = new_folder(rt)?;
    let copy = copy_in(rt, folder)?;
    match fill(rt, file, &copy) {
        Ok(()) => Ok(copy),
        Err(error) => {
            copy.remove(rt);
            Err(error)
        }
    }
}

fn copy_in<R: AllocGlobal>(rt: &R, folder: String) -> io::Result<CopiedFiles> {
    Ok(CopiedFiles {
        file: format!(in rt.alloc(); "{folder}/jobs.db")?,
        log: format!(in rt.alloc(); "{folder}/jobs.db-wal")?,
        folder,
    })
}

// Makes a folder among those for temporary files.
fn new_folder<R: AllocGlobal + Files + Env>(rt: &R) -> io::Result<String> {
    let place = env::temp_dir(rt)?;
    for number in 0..MOST_NAMES {
        let folder = format!(in rt.alloc(); "{}/deparohi-record-{number}", place.as_str())?;
        match fs::DirBuilder::new()
            .mode(0o700)
            .create(rt, folder.as_str())
        {
            Ok(()) => return Ok(folder),
            Err(error) if error.kind() == io::ErrorKind::AlreadyExists => {}
            Err(error) => return Err(error),
        }
    }
    Err(io::ErrorKind::AlreadyExists.into())
}

// A run commits to its log alone, until it writes the log into the file and begins it anew. If the log begins as it did, all that the run
// had committed is in the two copies: the file first, since what is written into it is in the log still.
fn fill<R: AllocGlobal + Files>(rt: &R, file: &str, copy: &CopiedFiles) -> io::Result<()> {
    let log = log_of(rt, file)?;
    for _ in 0..MOST_TRIES {
        let begun = beginning(rt, log.as_str())?;
        copy_file(rt, file, copy.file.as_str())?;
        if begun.is_some() {
            copy_file(rt, log.as_str(), copy.log.as_str())?;
        }
        if begun == beginning(rt, log.as_str())? {
            return Ok(());
        }
    }
    Err(io::ErrorKind::ResourceBusy.into())
}

// The copy of a file that may not be written can be.
fn copy_file<R: Files>(rt: &R, from: &str, to: &str) -> io::Result<()> {
    fs::copy(rt, from, to)?;
    fs::set_permissions(rt, to, fs::Permissions::from_mode(OWNERS))
}

fn log_of<R: AllocGlobal + Files>(rt: &R, file: &str) -> io::Result<String> {
    match log_name(rt, file) {
        Ok(log) => Ok(log),
        Err(_) => Err(io::ErrorKind::NotFound.into()),
    }
}

// The header of a log, if there is one.
fn beginning<R: AllocGlobal + Files>(rt: &R, log: &str) -> io::Result<Option<[u8; LOG_HEADER]>> {
    let mut bytes = [0; LOG_HEADER];
    match fs::File::open(rt, log) {
        Ok(mut opened) => {
            let _count = opened.read(&mut bytes)?;
            Ok(Some(bytes))
        }
        Err(error) if error.kind() == io::ErrorKind::NotFound => Ok(None),
        Err(error) => Err(error),
    }
}

//! The output folder, before anything is run.
ghost use Rattle.std.specs.Prelude.{◌≡◌, true, None, IfOk, OnErr};
ghost use Rattle.run_facts.specs.Holding.{can_hold_files};

use document_links::Process;
use end_words::{Exit, Fault, RunEnd};
use plain_data::Text;
use process_machine::{Hindrance, World};
use run_facts::can_hold_files;
use std::alloc::{AllocError, Global};
use std::{fs, io};

/// The name of a folder that is made in the output folder, and removed at once, to see that this can be done.
const PROBE: &str = ".deparohi";

/// Why the output folder can't be used.
#[derive(Clone, Copy, Debug, PartialEq, Eq)]
pub enum NoOutdir {
    Hindered(Hindrance),
    OutOfMemory,
}

impl From<AllocError> for NoOutdir {
    fn from(_error: AllocError) -> NoOutdir {
        NoOutdir::OutOfMemory
    }
}

impl From<io::Error> for NoOutdir {
    fn from(error: io::Error) -> NoOutdir {
        match error.kind() {
            io::ErrorKind::OutOfMemory => NoOutdir::OutOfMemory,
            kind => NoOutdir::Hindered(hindrance_of(kind)),
        }
    }
}

fn hindrance_of(kind: io::ErrorKind) -> Hindrance {
    match kind {
        io::ErrorKind::AlreadyExists | io::ErrorKind::NotADirectory => Hindrance::Taken,
        io::ErrorKind::PermissionDenied | io::ErrorKind::ReadOnlyFilesystem => {
            Hindrance::Forbidden
        }
        io::ErrorKind::StorageFull | io::ErrorKind::QuotaExceeded => Hindrance::Full,
        _ => Hindrance::Other,
    }
}

/// Looks at the output folder if an output of the process can be or hold a File or Directory: makes it if it is absent, and else sees
/// that it can be written to. Returns whether it was made.
pub fn outdir_for<R: World>(rt: &R, process: &Process, outdir: &Text) -> Result<bool, NoOutdir>
    ensures { OnErr result (can_hold_files process.now ≡ true) }
{
    if !can_hold_files(process) {
        return Ok(false);
    }
    usable(rt, outdir)
}

fn usable<R: World>(rt: &R, outdir: &Text) -> Result<bool, NoOutdir> {
    let is_new = fs::metadata(rt, outdir.as_str()).is_err();
    fs::create_dir_all(rt, outdir.as_str())?;
    if !is_new {
        try_out(rt, outdir)?;
    }
    Ok(is_new)
}

fn try_out<R: World>(rt: &R, outdir: &Text) -> Result<(), NoOutdir> {
    let probe = format!(in rt.alloc(); "{outdir}/{PROBE}")?;
    match fs::create_dir(rt, probe.as_str()) {
        Ok(()) => {
            let _removed = fs::remove_dir(rt, probe.as_str());
            Ok(())
        }
        // Another run tries it out.
        Err(error) if error.kind() == io::ErrorKind::AlreadyExists => Ok(()),
        Err(error) => Err(NoOutdir::from(error)),
    }
}

/// The end of a program that can't use its output folder.
pub fn without_outdir(alloc: Global, trouble: NoOutdir, outdir: &Text) -> Result<RunEnd, AllocError>
    ensures exit { IfOk result (λ end. (why : Hindrance) × (end.exit
        ≡ Exit.Fault (Fault.Outdir outdir.now why))) }
    ensures left { IfOk result (λ end. end.left ≡ None) }
{
    match trouble {
        NoOutdir::OutOfMemory => Err(AllocError),
        NoOutdir::Hindered(why) => {
            let fault = Fault::Outdir(outdir.copied(alloc)?, why);
            Ok(RunEnd::bare(alloc, Exit::Fault(fault)))
        }
    }
}

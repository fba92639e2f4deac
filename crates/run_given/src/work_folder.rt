//! The mark of a work folder, and what it says if the folder is in the way.
ghost use Rattle.std.specs.Prelude.{◌≡◌, None, IfOk};

use crate::given::Places;
use crate::reading::bytes_of_file;
use end_words::{Exit, Fault, RunEnd};
use plain_data::Text;
use process_machine::{World, remove_folder};
use run_facts::{KEPT, WorkTrouble, mark_of, number_in, trouble_of};
use std::alloc::{AllocError, Global};
use std::fs::DirBuilder;
use std::os::unix::fs::DirBuilderExt;
use std::path::Path;
use std::{fs, io, str};

/// The file in a work folder that says which process made it.
const MARK: &str = "made-by";

/// Who else may look into a work folder: nobody, since private files are copied into it.
const OWNER_ALONE: u32 = 0o700;

/// Why there is no work folder.
pub enum NoWork {
    Refused(io::ErrorKind),
    /// Results or stored files would be in it.
    Around,
}

/// Makes the work folder, and marks it as made by this process. Where results or stored files would be in it, it is removed again: it does
/// not outlive the run. So it is where it can't be opened.
///
/// What is opened is to be held until the folder is removed: that takes a file of the process's own to be open, and there may be room for no
/// other.
pub fn make_work<R: World>(rt: &R, places: &Places) -> Result<R::File, NoWork> {
    let mut folder = DirBuilder::new();
    folder.mode(OWNER_ALONE);
    if let Err(error) = folder.create(rt, places.work.as_str()) {
        return Err(NoWork::Refused(error.kind()));
    }
    let made = opened_alone(rt, places);
    match &made {
        Ok(_) => {
            if let Some(mark) = own_mark(rt) {
                put_mark(rt, &places.work, mark.as_str());
            }
        }
        Err(_) => {
            let _removed = fs::remove_dir(rt, places.work.as_str());
        }
    }
    made
}

fn opened_alone<R: World>(rt: &R, places: &Places) -> Result<R::File, NoWork> {
    if is_around(rt, places) {
        return Err(NoWork::Around);
    }
    match fs::open(rt, places.work.as_str()) {
        Ok(opened) => Ok(opened),
        Err(error) => Err(NoWork::Refused(error.kind())),
    }
}

// Nothing was in the work folder before it was made, so what would be in it is not there yet.
fn is_around<R: World>(rt: &R, places: &Places) -> bool {
    match fs::canonicalize(rt, places.work.as_str()) {
        Ok(work) => {
            leads_into(rt, &places.outdir, work.as_path())
                || match &places.archive {
                    Some(archive) => leads_into(rt, archive, work.as_path()),
                    None => false,
                }
        }
        Err(_) => false,
    }
}

// By the nearest folder on the way that is there: a path may lead through links.
fn leads_into<R: World>(rt: &R, path: &Text, folder: Path<'_>) -> bool {
    for place in Path::new(path.as_str()).ancestors() {
        if let Ok(place) = fs::canonicalize(rt, place.as_str()) {
            return place.as_path().starts_with(folder);
        }
    }
    false
}

// Marks a work folder, if that can be done.
fn put_mark<R: World>(rt: &R, work: &Text, mark: &str) {
    if let Ok(path) = mark_path(rt, work) {
        let _put = fs::write(rt, path.as_str(), mark);
    }
}

fn mark_path<R: World>(rt: &R, work: &Text) -> Result<String, AllocError> {
    format!(in rt.alloc(); "{work}/{MARK}")
}

/// Marks the work folder if it stays, and removes it if not. Where it can't be removed, that is noted.
pub fn leave<R: World>(rt: &R, work: &Text, stays: bool, notes: &mut Vec<String>) {
    if stays {
        put_mark(rt, work, KEPT);
    } else if let Err(error) = remove_folder(rt, work.as_str()) {
        if error.kind() != io::ErrorKind::NotFound {
            let _noted = note_unremoved(rt.alloc(), work, &error, notes);
        }
    }
}

fn note_unremoved(
    alloc: Global,
    work: &Text,
    error: &io::Error,
    notes: &mut Vec<String>,
) -> Result<(), AllocError> {
    notes.push(format!(in alloc; "the work folder {work} can't be removed: {error}")?)?;
    Ok(())
}

/// The end of a program that can't make its work folder.
pub fn without_work<R: World>(rt: &R, trouble: NoWork, work: &Text) -> Result<RunEnd, AllocError>
    ensures exit { IfOk result (λ end. (why : WorkTrouble) × (end.exit
        ≡ Exit.Fault (Fault.Work work.now why))) }
    ensures left { IfOk result (λ end. end.left ≡ None) }
{
    let why = match trouble {
        NoWork::Refused(io::ErrorKind::OutOfMemory) => return Err(AllocError),
        NoWork::Refused(kind) => work_trouble(rt, work, kind),
        NoWork::Around => WorkTrouble::Around,
    };
    let fault = Fault::Work(work.copied(rt.alloc())?, why);
    Ok(RunEnd::bare(rt.alloc(), Exit::Fault(fault)))
}

// Why the work folder could not be made.
fn work_trouble<R: World>(rt: &R, work: &Text, kind: io::ErrorKind) -> WorkTrouble {
    match kind {
        io::ErrorKind::AlreadyExists => trouble_there(rt, work),
        io::ErrorKind::NotFound | io::ErrorKind::NotADirectory => WorkTrouble::NoParent,
        io::ErrorKind::PermissionDenied | io::ErrorKind::ReadOnlyFilesystem => {
            WorkTrouble::Forbidden
        }
        io::ErrorKind::StorageFull | io::ErrorKind::QuotaExceeded => WorkTrouble::Full,
        _ => WorkTrouble::Other,
    }
}

fn trouble_there<R: World>(rt: &R, work: &Text) -> WorkTrouble {
    match (mark_in(rt, work), own_mark(rt)) {
        (Some(mark), Some(own)) => match stat_for(rt, mark.as_str()) {
            Some(stat) => trouble_of(mark.as_str(), own.as_str(), Some(stat.as_str())),
            None => trouble_of(mark.as_str(), own.as_str(), None),
        },
        _ => WorkTrouble::There,
    }
}

fn mark_in<R: World>(rt: &R, work: &Text) -> Option<String> {
    let path = mark_path(rt, work).ok()?;
    text_at(rt, path.as_str())
}

// What is said of the process that a mark names.
fn stat_for<R: World>(rt: &R, mark: &str) -> Option<String> {
    let number = number_in(mark)?;
    let path = format!(in rt.alloc(); "/proc/{number}/stat").ok()?;
    text_at(rt, path.as_str())
}

// The mark of this process, if the system says what it has.
fn own_mark<R: World>(rt: &R) -> Option<String> {
    let stat = text_at(rt, "/proc/self/stat")?;
    let boot = text_at(rt, "/proc/sys/kernel/random/boot_id")?;
    let space = fs::read_link(rt, "/proc/self/ns/pid").ok()?;
    let mark = mark_of(
        rt.alloc(),
        stat.as_str(),
        boot.trim_end(),
        space.as_path().as_str(),
    );
    mark.ok()
}

fn text_at<R: World>(rt: &R, path: &str) -> Option<String> {
    let bytes = bytes_of_file(rt, path).ok()?;
    let text = str::from_utf8(bytes.as_slice()).ok()?;
    String::from_str(rt.alloc(), text).ok()
}

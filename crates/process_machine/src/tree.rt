//! What is below a folder, by names and kinds.
ghost use Rattle.std.specs.Prelude.{◌≡◌, Ok, None, IfErr, IsErr};
ghost use Rattle.process_machine.specs.Listing as spec;

use crate::layout::joined;
use crate::unlisted::{NoListing, Obstacle};
use plain_data::Text;
use std::alloc::{AllocError, Global};
use std::fs::{DirEntry, Metadata, ReadDir};
use std::rt::Files;
use std::{fs, io};

const MOST_LEVELS: usize = 32;

const MOST_ENTRIES: usize = 65_536;

/// A file or a folder that is below another folder.
#[derive(Drop)]
pub(crate) struct Below {
    /// The path below that folder, its components joined by `/`.
    pub name: Text,
    pub is_dir: bool,
    /// The bytes of a file, as the system tells them.
    pub size: u64,
}

/// How a pipe, a socket, a device and a link that leads nowhere are taken: they are neither files nor folders.
#[derive(Clone, Copy, Debug, PartialEq, Eq)]
pub(crate) enum Others {
    LeftOut,
    Refused,
}

// A folder that is met: where it is, and its name below the first folder, whose own name is empty.
#[derive(Clone, Copy, Drop)]
struct Branch<'a> {
    path: &'a str,
    name: &'a str,
}

/// Returns all that is below a folder, by name, so that each folder comes before what is in it. A link is taken as what it
/// points to.
///
/// A name that is no UTF-8, more than 32 levels or 65,536 entries, and a folder that can't be read are refused, and so is what is
/// neither a file nor a folder, where that is not left out.
pub(crate) fn tree_below<R: AllocGlobal + Files + Clone + Drop>(
    rt: &R,
    folder: &str,
    others: Others,
) -> Result<Vec<Below>, NoListing> {
    let mut tree = Vec::new(rt.alloc());
    add_all(rt, folder, others, &mut tree)?;
    tree.sort_unstable_by(|one, other| one.name.cmp(&other.name));
    Ok(tree)
}

// Adds the entries of a folder, and of each folder below it.
fn add_all<R: AllocGlobal + Files + Clone + Drop>(
    rt: &R,
    folder: &str,
    others: Others,
    tree: &mut Vec<Below>,
) -> Result<(), NoListing> {
    add_entries(rt, folder, "", others, tree)?;
    for index in 0..MOST_ENTRIES {
        if index >= tree.len() {
            return Ok(());
        }
        if let Some(name) = subfolder_at(rt.alloc(), tree, index)? {
            add_entries(rt, folder, name.as_str(), others, tree)?;
        }
    }
    Ok(())
}

// The name of the folder at an index; none where there is a file, or nothing.
fn subfolder_at(alloc: Global, tree: &[Below], index: usize) -> Result<Option<Text>, AllocError> {
    match tree.get(index) {
        Some(entry) if entry.is_dir => Ok(Some(entry.name.copied(alloc)?)),
        _ => Ok(None),
    }
}

// Adds the entries of the folder that has this name below the first folder.
fn add_entries<R: AllocGlobal + Files + Clone + Drop>(
    rt: &R,
    folder: &str,
    name: &str,
    others: Others,
    tree: &mut Vec<Below>,
) -> Result<(), NoListing> {
    let path = if name.is_empty() {
        String::from_str(rt.alloc(), folder)?
    } else {
        joined(rt.alloc(), folder, name)?
    };
    let branch = Branch {
        path: path.as_str(),
        name,
    };
    add_entries_at(rt, branch, others, tree)
}

fn add_entries_at<R: AllocGlobal + Files + Clone + Drop>(
    rt: &R,
    branch: Branch<'_>,
    others: Others,
    tree: &mut Vec<Below>,
) -> Result<(), NoListing> {
    for entry in opened(rt, branch.path)? {
        match entry {
            Ok(entry) => add_entry(rt, branch.name, &entry, others, tree)?,
            Err(error) => return Err(without_entry(rt.alloc(), branch.path, &error)),
        }
    }
    Ok(())
}

fn opened<R: AllocGlobal + Files + Clone + Drop>(
    rt: &R,
    folder: &str,
) -> Result<ReadDir<R>, NoListing>
    ensures { IfErr result (spec.IsOn folder.now) }
{
    match fs::read_dir(rt, folder) {
        Ok(entries) => Ok(entries),
        Err(error) => Err(NoListing::of(rt.alloc(), folder, &error)),
    }
}

// The next entry of this folder could not be read, or its name can't be told.
fn without_entry(alloc: Global, folder: &str, error: &io::Error) -> NoListing
    ensures { spec.IsOn folder.now result }
{
    match error.kind() {
        io::ErrorKind::InvalidFilename => NoListing::at(alloc, folder, Obstacle::NotUtf8),
        _ => NoListing::of(alloc, folder, error),
    }
}

// Adds an entry of the folder of this name.
fn add_entry<R: AllocGlobal + Files>(
    rt: &R,
    folder: &str,
    entry: &DirEntry<R>,
    others: Others,
    tree: &mut Vec<Below>,
) -> Result<(), NoListing> {
    match kind_at(rt, entry.path().as_str(), others)? {
        Some(met) => {
            let name = name_below(rt.alloc(), folder, entry.file_name())?;
            add_below(rt.alloc(), entry.path().as_str(), name, &met, tree)
        }
        None => Ok(()),
    }
}

// Adds what is at a path, under its name, where no limit is passed.
fn add_below(
    alloc: Global,
    path: &str,
    name: Text,
    met: &Metadata,
    tree: &mut Vec<Below>,
) -> Result<(), NoListing> {
    match limit_passed(name.as_str(), tree.len()) {
        Some(why) => Err(NoListing::at(alloc, path, why)),
        None => Ok(tree.push(Below {
            name,
            is_dir: met.is_dir(),
            size: met.len(),
        })?),
    }
}

// The folder or file at a path; nothing where it is left out.
fn kind_at<R: AllocGlobal + Files>(
    rt: &R,
    path: &str,
    others: Others,
) -> Result<Option<Metadata>, NoListing>
    ensures { IfErr result (spec.IsOn path.now) }
{
    match fs::metadata(rt, path) {
        Ok(metadata) => kind_of(rt.alloc(), path, metadata, others),
        Err(error) if leads_nowhere(error.kind()) => of_no_kind(rt.alloc(), path, others),
        Err(error) => Err(NoListing::of(rt.alloc(), path, &error)),
    }
}

fn kind_of(
    alloc: Global,
    path: &str,
    met: Metadata,
    others: Others,
) -> Result<Option<Metadata>, NoListing>
    ensures { IfErr result (spec.IsOn path.now) }
{
    if met.is_dir() || met.is_file() {
        Ok(Some(met))
    } else {
        of_no_kind(alloc, path, others)
    }
}

fn of_no_kind(alloc: Global, path: &str, others: Others) -> Result<Option<Metadata>, NoListing>
    ensures left { others ≡ Others.LeftOut → result ≡ Ok None }
    ensures refused { others ≡ Others.Refused → IsErr result }
    ensures on { IfErr result (spec.IsOn path.now) }
{
    match others {
        Others::LeftOut => Ok(None),
        Others::Refused => Err(NoListing::at(alloc, path, Obstacle::OfNoKind)),
    }
}

// Whether a link leads to nothing. That a path is too long says nothing of what is there.
fn leads_nowhere(error: io::ErrorKind) -> bool {
    matches!(
        error,
        io::ErrorKind::NotFound | io::ErrorKind::NotADirectory | io::ErrorKind::FilesystemLoop
    )
}

// The limit that an entry of this name passes, before which so many were met.
fn limit_passed(name: &str, before: usize) -> Option<Obstacle>
    ensures { result ≡ spec.limit_passed name.now before }
{
    if before >= MOST_ENTRIES {
        Some(Obstacle::TooMany)
    } else if levels_of(name) > MOST_LEVELS {
        Some(Obstacle::TooDeep)
    } else {
        None
    }
}

/// Whether there is a folder at a path, and no link to one.
pub(crate) fn is_own_folder<R: Files>(rt: &R, path: &str) -> bool {
    match fs::symlink_metadata(rt, path) {
        Ok(metadata) => metadata.is_dir(),
        Err(_) => false,
    }
}

fn name_below(alloc: Global, folder: &str, name: &str) -> Result<Text, AllocError> {
    if folder.is_empty() {
        return Text::from_text(alloc, name);
    }
    Ok(Text::from_string(joined(alloc, folder, name)?))
}

// How many components a name has.
fn levels_of(name: &str) -> usize
    ensures { result ≡ spec.levels name.now }
{
    name.split('/').count()
}

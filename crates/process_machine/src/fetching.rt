//! How archived files are fetched.
ghost use Rattle.std.specs.Prelude.{◌≡◌, [], None, true, IfOk, IfSome, IsTrue};
ghost use Rattle.proc_host.specs.Answers.{are_among};

use crate::archive::{fetch_folder, key_folders, leads_below};
use crate::cut_off::clear_stores;
use crate::entries::{Source, take_all};
use crate::layout::joined;
use crate::making::{keep_attributes, made_anew, make_folder_as, make_private};
use crate::summing::copy_told;
use crate::trouble::Trouble;
use crate::world::World;
use plain_data::{Items, Text};
use staging::Found;
use std::alloc::{AllocError, Global};
use std::fs::{File, FileType, OpenFile};
use std::io::{Read, Take, Write};
use std::{fs, io, mem};

// What was archived under a key, and where it is copied to.
#[derive(Drop)]
struct Archived<'a, R: World> {
    rt: &'a R,
    folder: &'a str,
    target: &'a str,
}

/// What is at a path of an archive. A link, a pipe and a device count as nothing: a store puts none there.
#[derive(Clone, Copy, Debug, PartialEq, Eq)]
enum Kind {
    Absent,
    File,
    Folder,
}

/// Copies what is there of these files and folders, of those that were archived under a key, to the folder `out` in the folder of
/// this number, which is made and has to be absent. Tells what was there, as it was, in the order of these files.
///
/// No link of the archive is followed, and what has a name that does not lead below its folder is not there.
pub(crate) fn fetch_all<R: World>(
    rt: &R,
    archive: Option<&str>,
    key: &str,
    work: &str,
    number: u64,
    files: &[Found],
) -> Result<Items<Found>, Trouble>
    ensures { IfOk result (λ found. IsTrue (are_among files.now found)) }
{
    let Some(archive) = archive else {
        return Err(Trouble::Failed);
    };
    let folders = key_folders(rt.alloc(), archive, key)?;
    clear_stores(rt, &folders)?;
    let target = made_folder(rt, work, number)?;
    let archived = Archived {
        rt,
        folder: folders.own.as_str(),
        target: target.as_str(),
    };
    take_all(rt.alloc(), &archived, files)
}

// The folder `out` in the folder of this number, both made.
fn made_folder<R: World>(rt: &R, work: &str, number: u64) -> Result<String, Trouble> {
    let folder = fetch_folder(rt.alloc(), work, number)?;
    make_private(rt, folder.as_str())?;
    let out = joined(rt.alloc(), folder.as_str(), "out")?;
    fs::create_dir(rt, out.as_str())?;
    Ok(out)
}

impl<R: World> Source for Archived<'_, R> {
    ghost there = { λ _ _. None };

    fn take(&self, file: &Found) -> Result<Option<Found>, Trouble> {
        let name = file.name.as_str();
        let kind = kind_below(self.rt, self.folder, name)?;
        if kind == Kind::Absent {
            return Ok(None);
        }
        let from = joined(self.rt.alloc(), self.folder, name)?;
        let found = copied(self.rt, kind, from.as_str(), file, self.target);
        mem::drop(from);
        Ok(Some(found?))
    }
}

// Copies what is there, of this kind, and tells it under its name.
fn copied<R: World>(
    rt: &R,
    kind: Kind,
    from: &str,
    file: &Found,
    target: &str,
) -> Result<Found, Trouble>
    ensures { IfOk result (λ found. found.name ≡ file.now.name) }
{
    match kind {
        Kind::Folder => {
            make_folder_as(rt, from, target, file.name.as_str())?;
            Ok(folder_named(rt.alloc(), &file.name)?)
        }
        _ => copy_file(rt, from, file, target),
    }
}

// Of a longer file than was stored one byte more is read. So it is told as another one, and its end is not waited for.
fn copy_file<R: World>(rt: &R, from: &str, file: &Found, target: &str) -> Result<Found, Trouble>
    ensures { IfOk result (λ found. found.name ≡ file.now.name) }
{
    let mut reader = File::open(rt, from)?.take(file.size.saturating_add(1));
    let found = copy_from(rt, &mut reader, &file.name, file.size, target);
    mem::drop(reader);
    found
}

fn copy_from<R: World>(
    rt: &R,
    reader: &mut Take<R::File>,
    name: &Text,
    size: u64,
    target: &str,
) -> Result<Found, Trouble>
    ensures { IfOk result (λ found. found.name ≡ name.now) }
{
    let mut writer = made_anew(rt, target, name.as_str())?;
    let found = fill(rt.alloc(), name, size, reader, &mut writer);
    mem::drop(writer);
    found
}

fn fill<F: Read + Write + OpenFile>(
    alloc: Global,
    name: &Text,
    size: u64,
    reader: &mut Take<F>,
    writer: &mut F,
) -> Result<Found, Trouble>
    ensures { IfOk result (λ found. found.name ≡ name.now) }
{
    let found = copy_told(alloc, name, size, reader, writer)?;
    keep_attributes(reader.get_ref(), writer)?;
    Ok(found)
}

fn folder_named(alloc: Global, name: &Text) -> Result<Found, AllocError>
    ensures { IfOk result (λ found. found ≡ record {
      name = name.now;
      is_dir = true;
      size = 0;
      sum = [];
    }) }
{
    let sum = Text::from_text(alloc, "")?;
    Ok(Found {
        name: name.copied(alloc)?,
        is_dir: true,
        size: 0,
        sum,
    })
}

// What is there under a name below a folder, where neither the folder nor anything on the way is a link.
fn kind_below<R: World>(rt: &R, folder: &str, name: &str) -> Result<Kind, Trouble> {
    if !leads_below(name) {
        return Ok(Kind::Absent);
    }
    let mut path = String::from_str(rt.alloc(), folder)?;
    let kind = kind_along(rt, &mut path, name);
    mem::drop(path);
    kind
}

// The same by the path of the folder, which goes on with each part of the name.
fn kind_along<R: World>(rt: &R, path: &mut String, name: &str) -> Result<Kind, Trouble> {
    let mut kind = kind_at(rt, path.as_str())?;
    for part in name.split('/') {
        if kind != Kind::Folder {
            return Ok(Kind::Absent);
        }
        path.push('/')?;
        path.push_str(part)?;
        kind = kind_at(rt, path.as_str())?;
    }
    Ok(kind)
}

fn kind_at<R: World>(rt: &R, path: &str) -> Result<Kind, Trouble> {
    match fs::symlink_metadata(rt, path) {
        Ok(metadata) => Ok(kind_of(metadata.file_type())),
        Err(error) if leads_nowhere(error.kind()) => Ok(Kind::Absent),
        Err(error) => Err(Trouble::from(error)),
    }
}

fn kind_of(found: FileType) -> Kind {
    if found.is_dir() {
        Kind::Folder
    } else if found.is_file() {
        Kind::File
    } else {
        Kind::Absent
    }
}

// Whether nothing is at a path, or nothing can be at it.
fn leads_nowhere(error: io::ErrorKind) -> bool {
    matches!(
        error,
        io::ErrorKind::NotFound
            | io::ErrorKind::NotADirectory
            | io::ErrorKind::InvalidFilename
            | io::ErrorKind::InvalidInput
    )
}

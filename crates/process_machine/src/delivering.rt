//! Results, and the files that no result replaces.

use crate::identity::{FileId, file_at, file_behind, id_of, is_id, names};
use crate::layout::{copy_all, joined};
use crate::missed::Missed;
use crate::past::{Known, Past, name_in};
use crate::trouble::{Hindrance, Trouble};
use crate::world::World;
use plain_data::Text;
use proc_host::{Entry, HostAnswer, HostRequest};
use staging::{Found, Measure, Move};
use std::alloc::{AllocError, Global};
use std::collections::BTreeMap;
use std::fs;

// What a move puts at a path.
#[derive(Drop)]
struct Written {
    from: String,
    to: String,
    // The file or link that is there.
    there: Option<FileId>,
    // The index of the move.
    index: usize,
}

/// Copies results to their targets, each of which has to be below this folder. A folder goes into one that is at its target.
///
/// What was measured is what the run was given. Where one of these files, or a guarded one, is where a result is put nothing is copied, since
/// it would be replaced; nor where a guarded file would be. A result that is at its target already stays as it is. Where a copy fails,
/// `missed` tells which.
pub(crate) fn deliver_all<R: World>(
    rt: &R,
    past: Past<'_>,
    guarded: &[Text],
    moves: &[Move],
    below: &str,
    missed: &mut Missed,
) -> Result<(), Trouble> {
    match spoiling(rt, past, guarded, moves)? {
        Some((index, why)) => {
            missed.at = Some(index);
            Err(Trouble::Hindered(why))
        }
        None => copy_all(rt, past, moves, below, missed),
    }
}

// The index of a move that may not be made, and why.
fn spoiling<R: World>(
    rt: &R,
    past: Past<'_>,
    guarded: &[Text],
    moves: &[Move],
) -> Result<Option<(usize, Hindrance)>, Trouble> {
    let written = written_by(rt, past, moves)?;
    let met = met_by(rt.alloc(), written.as_slice())?;
    if spoiled(rt, past, guarded, &met, written.as_slice())?.is_none() {
        return Ok(None);
    }
    // A result may be what is at its target: only now is it worth a look at each.
    let replaced = replaced_by(rt, written.as_slice())?;
    spoiled(rt, past, guarded, &replaced, written.as_slice())
}

// The index of a move that would replace one of these files, or make something, against what was given or is guarded, and why.
fn spoiled<R: World>(
    rt: &R,
    past: Past<'_>,
    guarded: &[Text],
    replaced: &BTreeMap<FileId, usize>,
    written: &[Written],
) -> Result<Option<(usize, Hindrance)>, Trouble> {
    Ok(match measured_among(rt, past.log, replaced)? {
        Some(index) => Some((index, Hindrance::Given)),
        None => {
            let index = guarded_among(rt, guarded, replaced, written);
            index.map(|index| (index, Hindrance::Guarded))
        }
    })
}

// What is put where: each target, and all in a folder that goes into one which is there.
fn written_by<R: World>(
    rt: &R,
    past: Past<'_>,
    moves: &[Move],
) -> Result<Vec<Written>, AllocError> {
    let mut written = Vec::new(rt.alloc());
    for (index, planned) in moves.iter().enumerate() {
        let (source, target) = (planned.source.as_str(), planned.target.as_str());
        if add_written(rt, source, target, index, &mut written)? {
            add_entries(rt, past, planned, index, &mut written)?;
        }
    }
    Ok(written)
}

fn add_entries<R: World>(
    rt: &R,
    past: Past<'_>,
    planned: &Move,
    index: usize,
    written: &mut Vec<Written>,
) -> Result<(), AllocError> {
    let source = planned.source.as_str();
    let Some(Known::Folder(found, folder)) = past.known_at(source) else {
        return Ok(());
    };
    for entry in found {
        if let Some(name) = name_in(entry, folder) {
            let from = joined(rt.alloc(), source, name)?;
            let to = joined(rt.alloc(), planned.target.as_str(), name)?;
            let _is_folder = add_written(rt, from.as_str(), to.as_str(), index, written)?;
        }
    }
    Ok(())
}

// Adds what is put at a target, and returns whether a folder is there.
fn add_written<R: World>(
    rt: &R,
    from: &str,
    to: &str,
    index: usize,
    written: &mut Vec<Written>,
) -> Result<bool, AllocError> {
    let (is_folder, there) = match fs::symlink_metadata(rt, to) {
        Ok(met) if met.is_dir() => (true, None),
        Ok(met) => (false, id_of(&met)),
        Err(_) => (false, None),
    };
    let from = String::from_str(rt.alloc(), from)?;
    let to = String::from_str(rt.alloc(), to)?;
    written.push(Written {
        from,
        to,
        there,
        index,
    })?;
    Ok(is_folder)
}

// The files and links where something is put, each with the index of its move.
fn met_by(alloc: Global, written: &[Written]) -> Result<BTreeMap<FileId, usize>, AllocError> {
    let mut met = BTreeMap::new(alloc);
    for it in written {
        if let Some(id) = it.there {
            let _other = met.insert(id, it.index)?;
        }
    }
    Ok(met)
}

// The same, if that is not the result itself.
fn replaced_by<R: World>(
    rt: &R,
    written: &[Written],
) -> Result<BTreeMap<FileId, usize>, AllocError> {
    let mut replaced = BTreeMap::new(rt.alloc());
    for it in written {
        if let Some(id) = replaced_at(rt, it.from.as_str(), it.to.as_str()) {
            let _other = replaced.insert(id, it.index)?;
        }
    }
    Ok(replaced)
}

fn replaced_at<R: World>(rt: &R, from: &str, to: &str) -> Option<FileId> {
    match fs::symlink_metadata(rt, to) {
        Ok(met) if !met.is_dir() && !names(rt, from, file_behind(rt, from), &met) => id_of(&met),
        _ => None,
    }
}

// The index of a move that would replace a file that was measured.
fn measured_among<R: World>(
    rt: &R,
    log: &[Entry],
    replaced: &BTreeMap<FileId, usize>,
) -> Result<Option<usize>, Trouble> {
    if replaced.is_empty() {
        return Ok(None);
    }
    for entry in log {
        if let Some(index) = index_of_measured(rt, entry, replaced)? {
            return Ok(Some(index));
        }
    }
    Ok(None)
}

// The index for what is at a measured path, or below it.
fn index_of_measured<R: World>(
    rt: &R,
    entry: &Entry,
    replaced: &BTreeMap<FileId, usize>,
) -> Result<Option<usize>, Trouble> {
    let Entry { request, answer } = entry;
    let (HostRequest::Measure(path), HostAnswer::Measured(measure)) = (request, answer) else {
        return Ok(None);
    };
    let path = path.as_str();
    match (index_at(rt, path, replaced), measure) {
        (None, Measure::Folder(found)) => index_below(rt, path, found.as_slice(), replaced),
        (index, _) => Ok(index),
    }
}

fn index_below<R: World>(
    rt: &R,
    folder: &str,
    found: &[Found],
    replaced: &BTreeMap<FileId, usize>,
) -> Result<Option<usize>, Trouble> {
    for entry in found {
        let path = joined(rt.alloc(), folder, entry.name.as_str())?;
        if let Some(index) = index_at(rt, path.as_str(), replaced) {
            return Ok(Some(index));
        }
    }
    Ok(None)
}

// The index for what is at a path, or what the link that is there leads to.
fn index_at<R: World>(rt: &R, path: &str, replaced: &BTreeMap<FileId, usize>) -> Option<usize> {
    match fs::symlink_metadata(rt, path) {
        Ok(met) => match index_for(id_of(&met), replaced) {
            None if met.is_symlink() => index_for(file_behind(rt, path), replaced),
            index => index,
        },
        Err(_) => None,
    }
}

fn index_for(found: Option<FileId>, replaced: &BTreeMap<FileId, usize>) -> Option<usize> {
    replaced.get(&found?).copied()
}

// The index of a move that would replace what is at a guarded path, or put anything there.
fn guarded_among<R: World>(
    rt: &R,
    guarded: &[Text],
    replaced: &BTreeMap<FileId, usize>,
    written: &[Written],
) -> Option<usize> {
    for path in guarded {
        let path = path.as_str();
        // What is at the path is known by its number, and what is not there by its name.
        let index = match file_at(rt, path) {
            Some(_) => index_at(rt, path, replaced),
            None => index_making(rt, path, written),
        };
        if index.is_some() {
            return index;
        }
    }
    None
}

// The index of a move that would make something at a path.
fn index_making<R: World>(rt: &R, path: &str, written: &[Written]) -> Option<usize> {
    let (folder, name) = match path.rsplit_once('/') {
        Some((folder, name)) => (or_root(folder), name),
        None => (".", path),
    };
    let id = file_behind(rt, folder)?;
    for it in written {
        if makes(rt, it.to.as_str(), id, name) {
            return Some(it.index);
        }
    }
    None
}

// Whether a target, or a folder on the way to it, would be the entry of this name in this folder.
fn makes<R: World>(rt: &R, target: &str, id: FileId, name: &str) -> bool {
    for (at, _) in target.rmatch_indices('/') {
        if let Some((folder, rest)) = target.split_at_checked(at) {
            if goes_on_by(rest, name) && is_id(file_behind(rt, or_root(folder)), id) {
                return true;
            }
        }
    }
    false
}

// In front of what is in the root folder nothing stands.
fn or_root(folder: &str) -> &str {
    if folder.is_empty() { "/" } else { folder }
}

// Whether what follows a folder in a path begins with this name.
fn goes_on_by(rest: &str, name: &str) -> bool {
    let Some(rest) = rest.strip_prefix('/') else {
        return false;
    };
    match rest.strip_prefix(name) {
        Some(rest) => rest.is_empty() || rest.starts_with('/'),
        None => false,
    }
}

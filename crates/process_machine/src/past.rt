//! What calls told of paths.

use plain_data::Text;
use proc_host::{Entry, HostAnswer};
use staging::{Found, Measure};
use std::alloc::{AllocError, Global};
use std::collections::BTreeMap;

/// Where the log tells of the paths that were measured and listed, and of the folders that were fetched to: under each path the index
/// of its last entry.
#[derive(Drop)]
pub(crate) struct Places {
    entries: BTreeMap<String, usize>,
}

/// The log, and where it tells of which path.
#[derive(Clone, Copy, Drop)]
pub(crate) struct Past<'a> {
    pub log: &'a [Entry],
    pub places: &'a Places,
}

/// What is known of a path.
#[derive(Clone, Copy, Drop)]
pub(crate) enum Known<'a> {
    /// A file, by its size and SHA-1.
    File(u64, &'a Text),
    /// A folder: below it is what goes on from this name in a listing; from the empty one goes on all.
    Folder(&'a [Found], &'a str),
    /// A folder that the path is below was listed, and there was nothing.
    Nothing,
}

impl Places {
    pub(crate) fn new(alloc: Global) -> Places {
        Places {
            entries: BTreeMap::new(alloc),
        }
    }

    /// Notes that the entry of this index tells of a path.
    pub(crate) fn note(
        &mut self,
        alloc: Global,
        path: &str,
        index: usize,
    ) -> Result<(), AllocError> {
        let path = String::from_str(alloc, trimmed(path))?;
        let _older = self.entries.insert(path, index)?;
        Ok(())
    }

    fn index_at(&self, path: &str) -> Option<usize> {
        self.entries.get(path).copied()
    }

    // The entry on the nearest folder above a path, and the name of the path below that folder.
    fn index_above<'a>(&self, path: &'a str) -> Option<(usize, &'a str)> {
        for (at, _) in path.rmatch_indices('/') {
            if let Some(index) = self.index_at(path.get(..at)?) {
                return Some((index, path.get(at.saturating_add(1)..)?));
            }
        }
        None
    }
}

impl<'a> Past<'a> {
    /// What was told last of a path, or of the nearest folder above it of which anything was told.
    pub(crate) fn known_at(&self, path: &'a str) -> Option<Known<'a>> {
        let path = trimmed(path);
        if let Some(index) = self.places.index_at(path) {
            return known_by(self.answer(index)?);
        }
        let (index, name) = self.places.index_above(path)?;
        match known_by(self.answer(index)?)? {
            Known::Folder(found, _) => Some(known_in(found, name)),
            _ => None,
        }
    }

    fn answer(&self, index: usize) -> Option<&'a HostAnswer> {
        Some(&self.log.get(index)?.answer)
    }
}

/// What a measure tells of its path.
pub(crate) fn known_of(measure: &Measure) -> Option<Known<'_>> {
    match measure {
        Measure::Absent => None,
        Measure::File { size, sum } => Some(Known::File(*size, sum)),
        Measure::Folder(found) => Some(Known::Folder(found.as_slice(), "")),
    }
}

/// The name by which an entry goes on from a folder of the same listing; none of another entry.
pub(crate) fn name_in<'a>(entry: &'a Found, folder: &str) -> Option<&'a str> {
    let name = entry.name.as_str();
    if folder.is_empty() {
        return Some(name);
    }
    name.strip_prefix(folder)?.strip_prefix('/')
}

fn known_by(answer: &HostAnswer) -> Option<Known<'_>> {
    match answer {
        HostAnswer::Measured(measure) => known_of(measure),
        HostAnswer::Listed(found) | HostAnswer::Fetched(found) => {
            Some(Known::Folder(found.as_slice(), ""))
        }
        _ => None,
    }
}

// What has this name in a listing.
fn known_in<'a>(found: &'a [Found], name: &'a str) -> Known<'a> {
    // A listing is by name; what was fetched is in the order in which a row has it.
    let entry = match found.binary_search_by(|entry| entry.name.as_str().cmp(name)) {
        Ok(index) => found.get(index),
        Err(_) => found.iter().find(|entry| entry.name.as_str() == name),
    };
    match entry {
        Some(entry) if entry.is_dir => Known::Folder(found, name),
        Some(entry) => Known::File(entry.size, &entry.sum),
        None => Known::Nothing,
    }
}

fn trimmed(path: &str) -> &str {
    path.trim_end_matches('/')
}

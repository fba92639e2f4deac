//! Why a folder has no listing.
ghost use Rattle.process_machine.specs.Listing as spec;

use crate::trouble::{Hindrance, Trouble};
use plain_data::Text;
use std::alloc::{AllocError, AllocFailed, Global};
use std::io;

/// What kept a folder from being listed: an entry or a folder, by its path, and why.
#[derive(Drop)]
pub struct Unlisted {
    pub path: Text,
    pub why: Obstacle,
}

/// Why an entry can't stand in a listing, or a folder has none.
#[derive(Clone, Copy, Debug, PartialEq, Eq)]
pub enum Obstacle {
    /// A name in this folder is no UTF-8.
    NotUtf8,
    /// It is more than 32 levels below the folder that is listed.
    TooDeep,
    /// 65,536 others were met before it.
    TooMany,
    /// It is neither a file nor a folder.
    OfNoKind,
    /// The system does not allow it to be looked at, or read.
    Forbidden,
    Other,
}

/// Why there is no listing.
#[derive(Drop)]
pub(crate) enum NoListing {
    Met(Unlisted),
    OutOfMemory,
}

impl NoListing {
    /// This is so at a path, as far as there is room to tell it.
    pub(crate) fn at(alloc: Global, path: &str, why: Obstacle) -> NoListing
        ensures { spec.IsAt path.now why result }
    {
        match Text::from_text(alloc, path) {
            Ok(path) => NoListing::Met(Unlisted { path, why }),
            Err(AllocError) => NoListing::OutOfMemory,
        }
    }

    /// The system says this of a path.
    pub(crate) fn of(alloc: Global, path: &str, error: &io::Error) -> NoListing
        ensures { spec.IsOn path.now result }
    {
        NoListing::unread(alloc, path, Trouble::of(error))
    }

    /// The file at a path could not be read.
    pub(crate) fn unread(alloc: Global, path: &str, trouble: Trouble) -> NoListing
        ensures { spec.IsOn path.now result }
    {
        match trouble {
            Trouble::OutOfMemory => NoListing::OutOfMemory,
            Trouble::Hindered(Hindrance::Forbidden) => {
                NoListing::at(alloc, path, Obstacle::Forbidden)
            }
            Trouble::Hindered(_) | Trouble::Failed => NoListing::at(alloc, path, Obstacle::Other),
        }
    }
}

impl From<AllocError> for NoListing {
    fn from(_: AllocError) -> NoListing {
        NoListing::OutOfMemory
    }
}

impl<T: Drop> From<AllocFailed<T>> for NoListing {
    fn from(_: AllocFailed<T>) -> NoListing {
        NoListing::OutOfMemory
    }
}

impl From<NoListing> for Trouble {
    fn from(fault: NoListing) -> Trouble {
        match fault {
            NoListing::OutOfMemory => Trouble::OutOfMemory,
            NoListing::Met(met) => met.why.trouble(),
        }
    }
}

impl Obstacle {
    fn trouble(self) -> Trouble {
        match self {
            Obstacle::Forbidden => Trouble::Hindered(Hindrance::Forbidden),
            _ => Trouble::Failed,
        }
    }
}

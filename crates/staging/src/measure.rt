//! What stands at a path.
ghost use Rattle.std.specs.Prelude.{◌≡◌, IfOk};

use crate::copying::listing_in;
use crate::found::Found;
use plain_data::{Items, Text};
use std::alloc::{AllocError, Global};

/// What stands at a path, a link taken as what it points to.
#[derive(Debug, Drop)]
pub enum Measure {
    /// Nothing does.
    Absent,
    File {
        /// In bytes.
        size: u64,
        /// The SHA-1 of the bytes in lower case hexadecimal.
        sum: Text,
    },
    /// A folder, with all that is below it: each name is a path below the folder, its components joined by `/`.
    Folder(Items<Found>),
}

impl Measure {
    /// A copy in memory of its own.
    pub fn clone_in(&self, alloc: Global) -> Result<Measure, AllocError>
        ensures { IfOk result (λ copy. copy ≡ self.now) }
    {
        match self {
            Measure::Absent => Ok(Measure::Absent),
            Measure::File { size, sum } => Ok(Measure::File {
                size: *size,
                sum: sum.copied(alloc)?,
            }),
            Measure::Folder(found) => Ok(Measure::Folder(listing_in(alloc, found)?)),
        }
    }
}

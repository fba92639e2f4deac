ghost use Rattle.std.specs.Prelude.{◌≡◌, IfOk};

use plain_data::Text;
use std::alloc::{AllocError, Global};

/// A file or a folder that stands in a scanned folder.
#[derive(Debug, Drop)]
pub struct Found {
    /// The path below the scanned folder, its components joined by `/`.
    pub name: Text,
    pub is_dir: bool,
    /// In bytes; 0 for a folder.
    pub size: u64,
    /// The SHA-1 of the bytes in lower case hexadecimal; empty for a folder.
    pub sum: Text,
}

impl Found {
    /// A copy in memory of its own.
    pub fn clone_in(&self, alloc: Global) -> Result<Found, AllocError>
        ensures { IfOk result (λ copy. copy ≡ self.now) }
    {
        Ok(Found {
            name: self.name.copied(alloc)?,
            is_dir: self.is_dir,
            size: self.size,
            sum: self.sum.copied(alloc)?,
        })
    }
}

//! The files that were read, by their paths.
ghost use Rattle.std.specs.Prelude.{◌≡◌, ◌&&◌, List, ℕ, Some, OnOk, bytes_eq, option_map, if◌then◌else◌};
ghost use Rattle.std.specs.BTreeMap.{get_by_text};
ghost use Rattle.trusted_times.specs.Times.{has_settled, sum_under};

use crate::stamp::Stamp;
use plain_data::Text;
use std::alloc::{AllocError, Global};
use std::collections::BTreeMap;

/// What the system told of a file when it was read, and the sum of its bytes.
#[derive(Drop)]
pub struct Seen {
    pub stamp: Stamp,
    pub sum: Text,
}

/// Files that were read, by their paths.
#[derive(Drop)]
pub struct Times {
    pub seen: BTreeMap<String, Seen>,
}

impl Times {
    /// Returns a table of no file.
    pub fn new(alloc: Global) -> Times {
        Times {
            seen: BTreeMap::new(alloc),
        }
    }

    /// Returns the sum that was noted for the file at a path, if the system told this of it then.
    pub fn sum_at(&self, path: &str, stamp: &Stamp) -> Option<&Text>
        ensures { option_map (λ sum. sum.now) result
            ≡ sum_under (get_by_text self.now.seen path.now) stamp.now }
    {
        match self.seen.get(path) {
            Some(seen) if seen.stamp.is(stamp) => Some(&seen.sum),
            _ => None,
        }
    }

    /// Notes the sum of a file that was read at a path, at a moment in seconds since 1970, in the place of what was noted before. A file
    /// that had not settled by then isn't noted.
    #[tactic(auto, using(std::proofs::lemmas::Map::Text::text_keys))]
    pub fn note(
        &mut self,
        alloc: Global,
        path: &str,
        stamp: Stamp,
        sum: Text,
        now: u64,
    ) -> Result<(), AllocError>
        ensures { OnOk result ((other : List ℕ) → get_by_text self.new.seen other
            ≡ (if bytes_eq other path.now && has_settled stamp now
            then Some (record { stamp = stamp; sum = sum })
            else get_by_text self.old.seen other)) }
    {
        if stamp.has_settled(now) {
            let path = String::from_str(alloc, path)?;
            let _older = self.seen.insert(path, Seen { stamp, sum })?;
        }
        Ok(())
    }
}

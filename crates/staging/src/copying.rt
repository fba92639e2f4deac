//! Copies of plans and listings.
ghost use Rattle.std.specs.Prelude.{◌≡◌, IfOk};

use crate::found::Found;
use crate::plan::{Move, StagePlan};
use cwl_value::copy_fields;
use plain_data::Items;
use std::alloc::{AllocError, Global};

/// A copy of a listing in memory of its own.
pub fn listing_in(alloc: Global, listing: &Items<Found>) -> Result<Items<Found>, AllocError>
    ensures { IfOk result (λ copy. copy ≡ listing.now) }
{
    let mut copies = Vec::new(alloc);
    for found in listing.as_slice() {
        copies.push(found.clone_in(alloc)?)?;
    }
    Ok(Items::from_vec(copies))
}

impl Move {
    /// A copy in memory of its own.
    pub fn clone_in(&self, alloc: Global) -> Result<Move, AllocError>
        ensures { IfOk result (λ copy. copy ≡ self.now) }
    {
        Ok(Move {
            source: self.source.copied(alloc)?,
            target: self.target.copied(alloc)?,
        })
    }
}

impl StagePlan {
    /// A copy. Lists of its values have a further owner, and the rest is in new memory.
    pub fn clone_in(&self, alloc: Global) -> Result<StagePlan, AllocError>
        ensures { IfOk result (λ copy. copy ≡ self.now) }
    {
        let mut moves = Vec::new(alloc);
        for planned in self.moves.as_slice() {
            moves.push(planned.clone_in(alloc)?)?;
        }
        let moves = Items::from_vec(moves);
        let value = copy_fields(alloc, &self.value)?;
        Ok(StagePlan { moves, value })
    }
}

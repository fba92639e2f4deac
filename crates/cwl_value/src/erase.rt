//! Copies without places.
ghost use Rattle.std.specs.Prelude.{◌≡◌, IfOk};
ghost use Rattle.cwl_value.specs.Erased.{erased as erased_of};

use crate::place::Place;
use crate::placing::{Placing, placed};
use crate::value::Value;
use std::alloc::{AllocError, Global};

struct NoPlace;

impl Placing for NoPlace {
    ghost use Rattle.cwl_value.specs.Erased.{no_place};

    ghost goes = { λ _. no_place };

    fn place(&self, _alloc: Global, _place: &Place) -> Result<Place, AllocError> {
        Ok(Place::Nowhere)
    }
}

/// The value with each place in it made `Nowhere`, so that two values that differ in places alone are equal.
pub fn erased(alloc: Global, value: &Value) -> Result<Value, AllocError>
    ensures { IfOk result (λ bare. bare ≡ erased_of value.now) }
{
    placed(alloc, &NoPlace, value)
}

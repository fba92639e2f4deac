ghost use Rattle.std.specs.Prelude.{◌≡◌, IfOk, MatchResult};

use std::alloc::{AllocError, Global};
use std::marker::Model;
use std::rc::Rc;

/// A value that several owners have, which contracts see as the value alone. It is freed with its last owner.
#[derive(Drop)]
pub struct Shared<T> {
    held: Rc<T>,
}

impl<T> Model for Shared<T> {
    ghost Value = { T };

    ghost coded = { T.code };

    ghost view = { λ fields. fields.held.value };
}

impl<T> Shared<T> {
    pub fn as_ref(&self) -> &T
        ensures { result.now ≡ self.now }
    {
        self.held.as_ref()
    }
}

impl<T: Drop> Shared<T> {
    /// The value, with one owner.
    pub fn new(alloc: Global, value: T) -> Result<Shared<T>, AllocError>
        ensures { IfOk result (λ shared. shared ≡ value) }
    {
        let held = Rc::new(alloc, value)?;
        Ok(Shared { held })
    }

    /// Returns a further owner of the same value, which isn't copied. Refused only where there are too many owners to count.
    pub fn share(&self) -> Result<Shared<T>, AllocError>
        ensures { IfOk result (λ shared. shared ≡ self.now) }
    {
        let held = self.held.clone()?;
        Ok(Shared { held })
    }

    /// The value, where this is its only owner; else this owner.
    pub fn try_unwrap(self) -> Result<T, Shared<T>>
        ensures { MatchResult result (λ value. value ≡ self) (λ shared. shared ≡ self) }
    {
        let Shared { held } = self;
        match Rc::try_unwrap(held) {
            Ok(value) => Ok(value),
            Err(held) => Err(Shared { held }),
        }
    }
}

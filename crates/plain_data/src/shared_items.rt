ghost use Rattle.std.specs.Prelude.{◌≡◌, ◌<◌, [], length, slice_get, ◌↔◌, IsTrue, IfOk, IfSome, OnSome, MatchResult};
ghost use Rattle.std.specs.Option.{option_copied};

use crate::{Items, Shared};
use std::alloc::{AllocError, Global};
use std::marker::Model;

/// Items that one owner has or several share, which contracts see as the list of their elements.
#[derive(Drop)]
pub struct SharedItems<T> {
    held: Held<T>,
}

#[derive(Drop)]
enum Held<T> {
    One(Items<T>),
    Many(Shared<Items<T>>),
}

impl<T> Model for SharedItems<T> {
    ghost use Rattle.std.specs.Prelude.{List};
    ghost use Rattle.std.specs.Coded.{coded_list};

    ghost Value = { List T };

    ghost coded = { coded_list T.code };

    ghost use Rattle.plain_data.specs.Held.{items_held};

    ghost view = { λ fields. items_held fields.held };
}

impl<T> SharedItems<T> {
    /// The same items with one owner, without memory.
    pub fn from_items(items: Items<T>) -> SharedItems<T>
        ensures { result ≡ items }
    {
        SharedItems {
            held: Held::One(items),
        }
    }

    pub fn as_items(&self) -> &Items<T>
        ensures { result.now ≡ self.now }
    {
        match &self.held {
            Held::One(items) => items,
            Held::Many(shared) => shared.as_ref(),
        }
    }

    pub fn as_slice(&self) -> &[T]
        ensures { result.now ≡ self.now }
    {
        self.as_items().as_slice()
    }

    pub fn len(&self) -> usize
        ensures { result ≡ length self.now }
    {
        self.as_items().len()
    }

    pub fn is_empty(&self) -> bool
        ensures { IsTrue result ↔ (self.now ≡ []) }
    {
        self.as_items().is_empty()
    }

    /// The element at an index, or `None` past the end.
    pub fn get(&self, index: usize) -> Option<&T>
        ensures value { option_copied result ≡ slice_get self.now index }
        ensures within { OnSome result (index < length self.now) }
    {
        self.as_items().get(index)
    }
}

impl<T: Drop> SharedItems<T> {
    /// The items, where this is their only owner; else this owner. Takes no memory.
    pub fn into_items(self) -> Result<Items<T>, SharedItems<T>>
        ensures { MatchResult result (λ items. items ≡ self) (λ kept. kept ≡ self) }
    {
        let SharedItems { held } = self;
        match held {
            Held::One(items) => Ok(items),
            Held::Many(shared) => match shared.try_unwrap() {
                Ok(items) => Ok(items),
                Err(shared) => Err(SharedItems {
                    held: Held::Many(shared),
                }),
            },
        }
    }

    /// The same items, so that further owners can be made of them.
    pub fn shared(self, alloc: Global) -> Result<SharedItems<T>, AllocError>
        ensures { IfOk result (λ shared. shared ≡ self) }
    {
        let SharedItems { held } = self;
        match held {
            Held::One(items) => Ok(SharedItems {
                held: Held::Many(Shared::new(alloc, items)?),
            }),
            Held::Many(shared) => Ok(SharedItems {
                held: Held::Many(shared),
            }),
        }
    }

    /// A further owner of the same items, which aren't copied; none where they have one owner alone.
    pub fn another(&self) -> Result<Option<SharedItems<T>>, AllocError>
        ensures { IfOk result (λ found. IfSome found (λ other. other ≡ self.now)) }
    {
        match &self.held {
            Held::One(_) => Ok(None),
            Held::Many(shared) => {
                let held = Held::Many(shared.share()?);
                Ok(Some(SharedItems { held }))
            }
        }
    }
}

//! Items by the text that each goes under.
ghost use Rattle.std.specs.Prelude.{◌≡◌, ℕ, List, [], ◌∷◌, ◌++◌, if◌then◌else◌, OnOk, bytes_eq, unwrap_or};
ghost use Rattle.input_files.specs.inner.Grouped.{items_under};

use plain_data::Items;
use std::alloc::{AllocError, Global};
use std::collections::BTreeMap;

/// Items under texts, each text's in the order in which they came.
#[derive(Drop)]
pub(crate) struct Grouped<'k, T> {
    held: BTreeMap<&'k str, Items<T>>,
}

impl<'k, T: Drop> Grouped<'k, T> {
    pub(crate) fn new(alloc: Global) -> Grouped<'k, T>
        ensures { (text : List ℕ) → items_under result text ≡ [] }
    {
        Grouped {
            held: BTreeMap::new(alloc),
        }
    }

    /// Adds an item under a text.
    pub(crate) fn add(&mut self, alloc: Global, text: &'k str, item: T) -> Result<(), AllocError>
        ensures { OnOk result ((other : List ℕ) → items_under self.new other
            ≡ (if bytes_eq text.now other then items_under self.old other
            ++ item ∷ [] else items_under self.old other)) }
    {
        let mut items = or_none(alloc, self.held.remove(text));
        items.push(item)?;
        drop(self.held.insert(text, items)?);
        Ok(())
    }

    /// The items under a text.
    pub(crate) fn under(&self, text: &str) -> &[T]
        ensures { result.now ≡ items_under self.now text.now }
    {
        match self.held.get(text) {
            None => &[],
            Some(items) => items.as_slice(),
        }
    }
}

fn or_none<T>(alloc: Global, found: Option<Items<T>>) -> Items<T>
    ensures { result ≡ unwrap_or found [] }
{
    match found {
        None => Items::new(alloc),
        Some(items) => items,
    }
}

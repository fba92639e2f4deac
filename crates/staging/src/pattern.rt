ghost use Rattle.std.specs.Prelude.{◌≡◌, ◌∷◌, []};
ghost use Rattle.staging.specs.Glob.{is_folder};

use crate::item::PatternItem;
use plain_data::Items;
use std::marker::Model;

/// A pattern for names. Contracts see it as the list of its items, from left to right.
#[derive(Drop)]
pub struct Pattern {
    pub(crate) items: Items<PatternItem>,
}

impl Model for Pattern {
    ghost use Rattle.std.specs.Prelude.{List};
    ghost use Rattle.staging.specs.declared.item.PatternItem.{PatternItem};

    ghost Value = { List PatternItem };

    ghost view = { λ pattern. pattern.items };
}

impl Pattern {
    /// Checks whether the pattern is `.`, which stands for the output folder itself.
    pub fn is_folder(&self) -> bool
        ensures { result ≡ is_folder self.now }
    {
        let items = self.items.as_slice();
        match items.split_first() {
            None => false,
            Some((first, rest)) => rest.is_empty() && is_period(first),
        }
    }
}

fn is_period(item: &PatternItem) -> bool
    ensures { result ≡ is_folder (item.now ∷ []) }
{
    match item {
        PatternItem::Literal(character) => *character == '.',
        _ => false,
    }
}

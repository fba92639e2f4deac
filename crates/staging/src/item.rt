//! What a pattern is made of, and the characters that each part takes.
ghost use Rattle.std.specs.Prelude.{◌≡◌};
ghost use Rattle.std.specs.List.{list_any};
ghost use Rattle.staging.specs.Glob.{takes, may_take, covers, is_member, is_run};

use plain_data::Items;

/// The characters from `low` to `high`, both included.
#[derive(Drop)]
pub struct CharRange {
    pub low: char,
    pub high: char,
}

/// `[..]`, or with `negated` `[!..]`.
#[derive(Drop)]
pub struct Bracket {
    pub negated: bool,
    /// A member that stands alone is a range of one character.
    pub ranges: Items<CharRange>,
}

/// One part of a pattern.
#[derive(Drop)]
pub enum PatternItem {
    /// Stands for itself.
    Literal(char),
    /// `?`
    One,
    /// `*`
    Run,
    /// `[..]` or `[!..]`
    OneOf(Bracket),
}

impl CharRange {
    fn covers(&self, character: char) -> bool
        ensures { result ≡ covers character self.now }
    {
        self.low <= character && character <= self.high
    }
}

impl Bracket {
    fn has_member(&self, character: char) -> bool
        ensures { result ≡ is_member self.now character }
    {
        let is_listed = self.lists(character);
        if self.negated { !is_listed } else { is_listed }
    }

    fn lists(&self, character: char) -> bool
        ensures { result ≡ list_any (covers character) self.now.ranges }
    {
        let ranges = self.ranges.as_slice();
        ranges.iter().any(|range| range.covers(character))
    }
}

impl PatternItem {
    /// Checks whether this is `*`.
    pub(crate) fn is_run(&self) -> bool
        ensures { result ≡ is_run self.now }
    {
        matches!(self, PatternItem::Run)
    }

    /// Checks whether this takes the character as the only one; `front` says that a component begins with it.
    pub(crate) fn takes(&self, front: bool, character: char) -> bool
        ensures { result ≡ takes front self.now character }
    {
        match self {
            PatternItem::Literal(own) => *own == character,
            PatternItem::One => may_take(front, character),
            PatternItem::Run => false,
            PatternItem::OneOf(bracket) => {
                may_take(front, character) && bracket.has_member(character)
            }
        }
    }
}

/// Checks that a character is one that `*`, `?` and brackets may take.
pub(crate) fn may_take(front: bool, character: char) -> bool
    ensures { result ≡ may_take front character }
{
    character != '/' && !(front && character == '.')
}

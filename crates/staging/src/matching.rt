//! Which names a pattern matches.
ghost use Rattle.std.specs.Prelude.{◌≡◌, ◌↔◌, IsTrue, IfSome, MatchOption, true};
ghost use Rattle.std.specs.Str.{chars};
ghost use Rattle.staging.specs.Glob.{Glob, may_begin};
ghost use Rattle.staging.specs.inner.Steps.{IsStep, TakesOneMore};

use crate::characters::first_char;
use crate::item::{PatternItem, may_take};
use crate::pattern::Pattern;

/// How far pattern and name have been read.
#[derive(Clone, Copy, Drop)]
pub(crate) struct Place<'n> {
    /// The index of the next item.
    at: usize,
    /// What is left of the name.
    rest: &'n str,
    /// A component begins here.
    front: bool,
}

/// What comes next at a place.
#[derive(Drop)]
pub(crate) enum Step<'n> {
    /// Pattern and name have both come to their end.
    Ended,
    /// The rest of the pattern doesn't match the rest of the name.
    Stuck,
    /// An item takes one character.
    Taken(Place<'n>),
    /// A `*` begins, here with no character.
    Starred(Place<'n>),
}

impl Pattern {
    /// Checks whether the pattern matches a name: a path below the output folder, its components joined by `/`.
    ///
    /// A `*` first takes as little as it can. Where the pattern doesn't go on, the last `*` takes one character more; no
    /// earlier one has to, since what the last `*` could reach from a later place it reaches from here too.
    pub fn matches(&self, name: &str) -> bool
        ensures { IsTrue result ↔ Glob true self.now (chars name.now) }
    {
        let items = self.items.as_slice();
        let mut here = Place {
            at: 0,
            rest: name,
            front: true,
        };
        let mut star = None;
        loop {
            match next_step(items, here) {
                Step::Ended => return true,
                Step::Taken(next) => here = next,
                Step::Starred(next) => {
                    star = Some(next);
                    here = next;
                }
                Step::Stuck => {
                    let Some(next) = later(star) else {
                        return false;
                    };
                    star = Some(next);
                    here = next;
                }
            }
        }
    }
}

// The place after a `*` that takes one character more.
fn later(star: Option<Place<'_>>) -> Option<Place<'_>>
    ensures { TakesOneMore star.entry result }
{
    let star = star?;
    let (character, rest) = first_char(star.rest)?;
    if !may_take(star.front, character) {
        return None;
    }
    Some(Place {
        at: star.at,
        rest,
        front: false,
    })
}

fn next_step<'n>(items: &[PatternItem], here: Place<'n>) -> Step<'n>
    ensures { IsStep items.now here.entry result }
{
    let Some(item) = items.get(here.at) else {
        return match first_char(here.rest) {
            None => Step::Ended,
            Some(_) => Step::Stuck,
        };
    };
    if item.is_run() {
        return if may_begin(here) {
            Step::Starred(Place {
                at: here.at + 1,
                rest: here.rest,
                front: here.front,
            })
        } else {
            Step::Stuck
        };
    }
    let Some((character, rest)) = first_char(here.rest) else {
        return Step::Stuck;
    };
    if !item.takes(here.front, character) {
        return Step::Stuck;
    }
    Step::Taken(Place {
        at: here.at + 1,
        rest,
        front: character == '/',
    })
}

// Checks that no period stands at the front of a component here.
fn may_begin(here: Place<'_>) -> bool
    ensures { result ≡ may_begin here.entry.front (chars here.entry.rest.now) }
{
    match first_char(here.rest) {
        Some((character, _)) => !(here.front && character == '.'),
        None => true,
    }
}

//! What stands between brackets.
ghost use Rattle.std.specs.Prelude.{◌≡◌, ◌+◌, ◌≤◌, ◌<◌, ◌∷◌, [], false, length, IfOk, MatchOption};
ghost use Rattle.std.specs.Str.{chars};
ghost use Rattle.staging.specs.Reading.{has_close, closes_later, is_closed, Ranges};
ghost use Rattle.staging.specs.inner.Scans.{inside_of, ClosesAt, BracketThen, MembersThen, RangeThen};

use crate::characters::{after, first_char};
use crate::item::{Bracket, CharRange};
use plain_data::Items;
use std::alloc::{AllocError, Global};

/// So many characters of a text: what is left between the brackets.
#[derive(Clone, Copy, Drop)]
pub(crate) struct Inside<'t> {
    text: &'t str,
    left: usize,
}

/// The bracket that has been opened before a text, and what follows its `]`; none where it isn't closed.
pub(crate) fn bracket(alloc: Global, text: &str) -> Result<Option<(Bracket, &str)>, AllocError>
    ensures exact { IfOk result (λ found. MatchOption found (is_closed (chars text.now)
        ≡ false) (λ taken. BracketThen (chars text.now) taken.0 (chars taken.1.now))) }
    ensures shorter { IfOk result (λ found. MatchOption found (is_closed (chars text.now)
        ≡ false) (λ taken. length taken.1.now ≤ length text.now)) }
{
    if let Some(listed) = after(text, '!') {
        return match members(alloc, listed)? {
            None => Ok(None),
            Some((ranges, rest)) => Ok(Some((
                Bracket {
                    negated: true,
                    ranges,
                },
                rest,
            ))),
        };
    }
    match members(alloc, text)? {
        None => Ok(None),
        Some((ranges, rest)) => Ok(Some((
            Bracket {
                negated: false,
                ranges,
            },
            rest,
        ))),
    }
}

// The members up to the `]`, which may itself be the first, and what follows it.
fn members(alloc: Global, text: &str) -> Result<Option<(Items<CharRange>, &str)>, AllocError>
    ensures exact { IfOk result (λ found. MatchOption found (closes_later (chars text.now)
        ≡ false) (λ taken. MembersThen (chars text.now) taken.0 (chars taken.1.now))) }
    ensures shorter { IfOk result (λ found. MatchOption found (closes_later (chars text.now)
        ≡ false) (λ taken. length taken.1.now ≤ length text.now)) }
{
    let Some((first, others)) = first_char(text) else {
        return Ok(None);
    };
    if first == '/' {
        return Ok(None);
    }
    let Some((count, rest)) = close(others) else {
        return Ok(None);
    };
    let inside = Inside {
        text,
        left: count + 1,
    };
    let ranges = ranges(alloc, inside)?;
    Ok(Some((ranges, rest)))
}

// How many characters stand before the next `]` of the component, and what follows it.
fn close(text: &str) -> Option<(usize, &str)>
    ensures exact { MatchOption result (has_close (chars text.now)
        ≡ false) (λ found. ClosesAt (chars text.now) found.0 (chars found.1.now)) }
    ensures shorter { MatchOption result (has_close (chars text.now)
        ≡ false) (λ found. found.0 + length found.1.now < length text.now) }
{
    let mut count = 0usize;
    let mut rest = text;
    while let Some((character, after)) = first_char(rest) {
        if character == ']' {
            return Some((count, after));
        }
        if character == '/' {
            return None;
        }
        count += 1;
        rest = after;
    }
    None
}

fn ranges(alloc: Global, inside: Inside<'_>) -> Result<Items<CharRange>, AllocError>
    ensures { IfOk result (Ranges (inside_of inside.entry)) }
{
    let mut ranges = Items::new(alloc);
    let mut rest = inside;
    while let Some((range, after)) = first_range(rest) {
        ranges.push(range)?;
        rest = after;
    }
    Ok(ranges)
}

// The range, or the member that stands alone, at the front.
fn first_range(inside: Inside<'_>) -> Option<(CharRange, Inside<'_>)>
    ensures exact { MatchOption result (inside_of inside.entry
        ≡ []) (λ taken. RangeThen (inside_of inside.entry) taken.0 (inside_of taken.1)) }
    ensures shorter { MatchOption result (inside_of inside.entry ≡ []) (λ taken. taken.1.left
        < inside.entry.left) }
{
    let (low, rest) = first_inside(inside)?;
    if let Some((hyphen, dashed)) = first_inside(rest) {
        if hyphen == '-' {
            if let Some((high, rest)) = first_inside(dashed) {
                return Some((CharRange { low, high }, rest));
            }
        }
    }
    Some((CharRange { low, high: low }, rest))
}

fn first_inside(inside: Inside<'_>) -> Option<(char, Inside<'_>)>
    ensures exact { MatchOption result (inside_of inside.entry
        ≡ []) (λ taken. inside_of inside.entry ≡ taken.0 ∷ inside_of taken.1) }
    ensures shorter { MatchOption result (inside_of inside.entry ≡ []) (λ taken. taken.1.left
        < inside.entry.left) }
{
    if inside.left == 0 {
        return None;
    }
    let (character, text) = first_char(inside.text)?;
    Some((
        character,
        Inside {
            text,
            left: inside.left - 1,
        },
    ))
}

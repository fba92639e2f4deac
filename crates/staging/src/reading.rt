//! From a text to its pattern.
ghost use Rattle.std.specs.Prelude.{◌≡◌, ◌<◌, ◌≤◌, ◌∷◌, [], Ok, true, length, IfOk, IfErr, MatchOption};
ghost use Rattle.std.specs.List.{list_any};
ghost use Rattle.std.specs.Str.{chars};
ghost use Rattle.staging.specs.Reading.{body, has_falling, is_falling, Reads, IsReading, Refuses};
ghost use Rattle.staging.specs.inner.Scans.{ItemThen, single_item, none_closed};

use crate::bracket::bracket;
use crate::characters::{after, first_char, is_empty};
use crate::fault::{GlobError, GlobFault};
use crate::item::{CharRange, PatternItem};
use crate::pattern::Pattern;
use crate::syntax::fault_of;
use plain_data::Items;
use std::alloc::{AllocError, Global};

impl Pattern {
    /// Reads a pattern for paths below the output folder.
    ///
    /// A leading `./` and a last `/` are dropped. Of several faults the leftmost is answered, and a range that falls last.
    pub fn read(alloc: Global, text: &str) -> Result<Pattern, GlobError>
        ensures ok { IfOk result (λ pattern. IsReading (chars text.now) (Ok pattern)) }
        ensures err { IfErr result (Refuses (chars text.now)) }
    {
        let body = body(text);
        if let Some(fault) = fault_of(body) {
            return Err(GlobError::Refused(fault));
        }
        let items = items(alloc, body)?;
        if has_falling(items.as_slice()) {
            return Err(GlobError::Refused(GlobFault::FallingRange));
        }
        Ok(Pattern { items })
    }
}

// A text without a leading `./`, where something follows it.
fn body(text: &str) -> &str
    ensures { chars result.now ≡ body (chars text.now) }
{
    let Some(rest) = after(text, '.') else {
        return text;
    };
    let Some(rest) = after(rest, '/') else {
        return text;
    };
    if is_empty(rest) { text } else { rest }
}

fn items(alloc: Global, text: &str) -> Result<Items<PatternItem>, AllocError>
    ensures { IfOk result (Reads (chars text.now)) }
{
    let mut items = Items::new(alloc);
    let mut rest = text;
    let mut unclosed = false;
    while let Some((item, after, still)) = first_item(alloc, rest, unclosed)? {
        items.push(item)?;
        rest = after;
        unclosed = still;
    }
    Ok(items)
}

// The item at the front of a text, and what follows it; none at the end, and none for a last `/`. Both flags say that no
// further bracket of this component is closed, so that its end is looked for once in a component and not at each `[`.
fn first_item(
    alloc: Global,
    text: &str,
    unclosed: bool,
) -> Result<Option<(PatternItem, &str, bool)>, AllocError>
    requires { unclosed ≡ true → none_closed (chars text.now) ≡ true }
    ensures exact { IfOk result (λ found. MatchOption found (Reads (chars text.now) [])
        (λ taken. ItemThen (chars text.now) taken.0 (chars taken.1.now))) }
    ensures shorter { IfOk result (λ found. MatchOption found (Reads (chars text.now) [])
        (λ taken. length taken.1.now < length text.now)) }
    ensures unclosed { IfOk result (λ found. MatchOption found (Reads (chars text.now) [])
        (λ taken. taken.2 ≡ true → none_closed (chars taken.1.now) ≡ true)) }
{
    let Some((first, rest)) = first_char(text) else {
        return Ok(None);
    };
    if first == '/' && is_empty(rest) {
        return Ok(None);
    }
    if first == '[' {
        return Ok(Some(opened(alloc, rest, unclosed)?));
    }
    Ok(Some((single(first), rest, unclosed && first != '/')))
}

// An item of one character that isn't `[`.
fn single(character: char) -> PatternItem
    ensures { result ≡ single_item character }
{
    match character {
        '*' => PatternItem::Run,
        '?' => PatternItem::One,
        _ => PatternItem::Literal(character),
    }
}

// The item that begins with a `[`, where `text` follows it.
fn opened(
    alloc: Global,
    text: &str,
    unclosed: bool,
) -> Result<(PatternItem, &str, bool), AllocError>
    requires { unclosed ≡ true → none_closed (91 ∷ chars text.now) ≡ true }
    ensures exact { IfOk result (λ taken. ItemThen (91 ∷ chars text.now) taken.0
        (chars taken.1.now)) }
    ensures shorter { IfOk result (λ taken. length taken.1.now ≤ length text.now) }
    ensures unclosed { IfOk result (λ taken. taken.2 ≡ true → none_closed (chars taken.1.now)
        ≡ true) }
{
    if unclosed {
        return Ok((PatternItem::Literal('['), text, true));
    }
    match bracket(alloc, text)? {
        None => Ok((PatternItem::Literal('['), text, true)),
        Some((bracket, rest)) => Ok((PatternItem::OneOf(bracket), rest, false)),
    }
}

fn has_falling(items: &[PatternItem]) -> bool
    ensures { result ≡ list_any has_falling items.now }
{
    items.iter().any(|item| item_falls(item))
}

fn item_falls(item: &PatternItem) -> bool
    ensures { result ≡ has_falling item.now }
{
    match item {
        PatternItem::OneOf(bracket) => has_falling_range(bracket.ranges.as_slice()),
        _ => false,
    }
}

fn has_falling_range(ranges: &[CharRange]) -> bool
    ensures { result ≡ list_any is_falling ranges.now }
{
    ranges.iter().any(|range| range.high < range.low)
}

//! What is at the front of a text: symbols, segments and references.
ghost use Rattle.std.specs.Prelude.{◌≡◌, ◌≢◌, ℕ, ◌<◌, List, ◌++◌, ◌∷◌, false, codes, IfOk, IfErr, MatchOption};
ghost use Rattle.std.specs.Char.{is_ascii_digit};
ghost use Rattle.std.specs.List.{list_all};
ghost use Rattle.param_refs.specs.Grammar.{is_symbol_byte, is_number, BeginsNone};
ghost use Rattle.param_refs.specs.inner.Scans.{starts_symbol, IsSymbolLength, SymbolThen, QuotedThen, IsQuote, NoQuotes, NoQuoted, NumberThen, NoNumber, segment_of, SegmentThen, NoSegment, SegmentsThen, ReferenceThen};
ghost use Rattle.param_refs.specs.declared.fault.RefFault.{RefFault};
ghost use Rattle.param_refs.specs.declared.fault.RefFault.TheVariants.{NotAReference};
ghost use Rattle.param_refs.specs.declared.fault.RefError.TheVariants.{Refused};

use crate::fault::{RefError, RefFault};
use crate::opening::has_backslash;
use crate::template::{Reference, Segment};
use plain_data::{Items, Text};
use std::alloc::{AllocError, Global};

/// Takes the reference off a text that begins with one, once `$(` is off, and gives what follows it.
pub(crate) fn reference(alloc: Global, text: &str) -> Result<(Reference, &str), RefError>
    ensures ok { IfOk result (λ taken. ReferenceThen (codes "$(" ++ text.now) taken.0 taken.1.now) }
    ensures err { IfErr result (λ e. (fault : RefFault) → e ≡ Refused fault
        → (fault ≡ NotAReference) × BeginsNone (codes "$(" ++ text.now)) }
{
    let Some((symbol, rest)) = symbol(text) else {
        return Err(RefError::Refused(RefFault::NotAReference));
    };
    let (segments, rest) = segments(alloc, rest)?;
    let Some(rest) = past(rest, ')') else {
        return Err(RefError::Refused(RefFault::NotAReference));
    };
    let symbol = Text::from_text(alloc, symbol)?;
    Ok((Reference { symbol, segments }, rest))
}

// All segments at the front of a text.
fn segments(alloc: Global, text: &str) -> Result<(Items<Segment>, &str), AllocError>
    ensures { IfOk result (λ taken. SegmentsThen text.now taken.0 taken.1.now) }
{
    let mut found = Items::new(alloc);
    let mut rest = text;
    while let Some((segment, after)) = segment(alloc, rest)? {
        found.push(segment)?;
        rest = after;
    }
    Ok((found, rest))
}

fn segment(alloc: Global, text: &str) -> Result<Option<(Segment, &str)>, AllocError>
    ensures { IfOk result (λ taken. MatchOption taken (NoSegment text.now)
        (λ t. SegmentThen text.now t.0 t.1.now)) }
{
    match first_piece(text) {
        None => Ok(None),
        Some((piece, rest)) => Ok(Some((piece.owned(alloc)?, rest))),
    }
}

/// A segment inside the text that it was read from.
#[derive(Drop)]
pub(crate) enum Piece<'t> {
    Key(&'t str),
    Index(&'t str),
}

impl Piece<'_> {
    fn owned(&self, alloc: Global) -> Result<Segment, AllocError>
        ensures { IfOk result (λ segment. segment ≡ segment_of self.now) }
    {
        match self {
            Piece::Key(key) => Ok(Segment::Key(Text::from_text(alloc, key)?)),
            Piece::Index(digits) => Ok(Segment::Index(Text::from_text(alloc, digits)?)),
        }
    }
}

// The segment at the front of a text, and what follows it.
fn first_piece(text: &str) -> Option<(Piece<'_>, &str)>
    ensures { MatchOption result (NoSegment text.now)
        (λ t. SegmentThen text.now (segment_of t.0) t.1.now) }
{
    if let Some(rest) = past(text, '.') {
        let (symbol, rest) = symbol(rest)?;
        return Some((Piece::Key(symbol), rest));
    }
    let inside = past(text, '[')?;
    bracketed(inside)
}

// The segment whose bracket has been opened, and what follows it.
fn bracketed(text: &str) -> Option<(Piece<'_>, &str)>
    ensures { MatchOption result (NoSegment (91 ∷ text.now))
        (λ t. SegmentThen (91 ∷ text.now) (segment_of t.0) t.1.now) }
{
    if let Some(taken) = in_quotes(text, '\'') {
        return Some(taken);
    }
    if let Some(taken) = in_quotes(text, '"') {
        return Some(taken);
    }
    let (digits, rest) = number(text)?;
    Some((Piece::Index(digits), rest))
}

// The same for a text between quotes in the brackets.
fn in_quotes(text: &str, quote: char) -> Option<(Piece<'_>, &str)>
    requires { IsQuote quote }
    ensures { MatchOption result (NoQuotes quote text.now)
        (λ t. SegmentThen (91 ∷ text.now) (segment_of t.0) t.1.now) }
{
    let inside = past(text, quote)?;
    let (key, rest) = quoted(inside, quote)?;
    Some((Piece::Key(key), rest))
}

// The symbol at the front of a text, and what follows it.
fn symbol(text: &str) -> Option<(&str, &str)>
    ensures { MatchOption result (starts_symbol text.now
        ≡ false) (λ taken. SymbolThen text.now taken.0.now taken.1.now) }
{
    let length = symbol_length(text);
    if length == 0 {
        return None;
    }
    Some(text.split_at(length))
}

fn symbol_length(text: &str) -> usize
    ensures { IsSymbolLength text.now result }
{
    let bytes = text.as_bytes();
    for (at, byte) in bytes.iter().enumerate() {
        if !is_symbol_byte(*byte) {
            return at;
        }
    }
    bytes.len()
}

fn is_symbol_byte(byte: u8) -> bool
    ensures { result ≡ is_symbol_byte byte }
{
    byte.is_ascii_alphanumeric() || byte == b'_'
}

// A text up to its closing quote and bracket, and what follows them.
fn quoted(text: &str, quote: char) -> Option<(&str, &str)>
    requires { quote < 128 }
    ensures { MatchOption result (NoQuoted quote text.now)
        (λ taken. QuotedThen quote text.now taken.0.now taken.1.now) }
{
    let (key, after) = text.split_once(quote)?;
    let rest = past(after, ']')?;
    if has_backslash(key) {
        return None;
    }
    Some((key, rest))
}

// What is past this character, where a text begins with it.
fn past(text: &str, mark: char) -> Option<&str>
    requires { mark < 128 }
    ensures { MatchOption result ((rest : List ℕ) → text.now ≢ mark ∷ rest)
        (λ rest. text.now ≡ mark ∷ rest.now) }
{
    let bytes = text.as_bytes();
    if bytes.is_empty() || char::from(bytes[0]) != mark {
        return None;
    }
    let (_, rest) = text.split_at(1);
    Some(rest)
}

// Digits up to a closing bracket, and what follows it.
fn number(text: &str) -> Option<(&str, &str)>
    ensures { MatchOption result (NoNumber text.now)
        (λ taken. NumberThen text.now taken.0.now taken.1.now) }
{
    let (digits, rest) = text.split_once(']')?;
    if !is_number(digits) {
        return None;
    }
    Some((digits, rest))
}

fn is_number(text: &str) -> bool
    ensures { result ≡ is_number text.now }
{
    !text.is_empty() && are_digits(text)
}

fn are_digits(text: &str) -> bool
    ensures { result ≡ list_all is_ascii_digit text.now }
{
    text.as_bytes().iter().all(|byte| byte.is_ascii_digit())
}

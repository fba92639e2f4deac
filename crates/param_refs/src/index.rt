//! Indexes, as digits and into texts.
ghost use Rattle.std.specs.Prelude.{◌≡◌, ◌-◌, ◌^◌, min, IfOk, slice_get};
ghost use Rattle.std.specs.Char.{encode_utf8};
ghost use Rattle.std.specs.Str.{chars};
ghost use Rattle.param_refs.specs.Descent.{number_of, character};

use plain_data::Text;
use std::alloc::{AllocError, Global};

/// The number that digits stand for, or the greatest index where it is larger.
pub(crate) fn index_of(digits: &str) -> usize
    ensures { result ≡ min (number_of digits.now) (2 ^ 64 - 1) }
{
    let mut number = 0usize;
    for digit in digits.as_bytes() {
        number = number
            .saturating_mul(10)
            .saturating_add(usize::from(digit.saturating_sub(b'0')));
    }
    number
}

/// The character at an index of a text, as a text of its own.
pub(crate) fn character(
    alloc: Global,
    text: &Text,
    digits: &str,
) -> Result<Option<Text>, AllocError>
    ensures { IfOk result (λ found. found ≡ character text.now (number_of digits.now)) }
{
    let index = index_of(digits);
    let characters = text.as_str();
    if index >= text.len() {
        return Ok(None);
    }
    match char_at(characters, index) {
        None => Ok(None),
        Some(character) => {
            let single = single(alloc, character)?;
            Ok(Some(single))
        }
    }
}

fn single(alloc: Global, character: char) -> Result<Text, AllocError>
    ensures { IfOk result (λ text. text ≡ encode_utf8 character) }
{
    let mut text = String::new(alloc);
    text.push(character)?;
    Ok(Text::from_string(text))
}

fn char_at(text: &str, index: usize) -> Option<char>
    ensures { result ≡ slice_get (chars text.now) index }
{
    let mut left = index;
    for character in text.chars() {
        if left == 0 {
            return Some(character);
        }
        left -= 1;
    }
    None
}

//! Numbers in the text of a certificate, read.

ghost use Rattle.std.specs.Prelude.{◌≡◌, ◌≢◌, ℕ, ◌<◌, ◌++◌, List, MatchOption, All, slice_index};
ghost use Rattle.std.specs.Char.{IsAsciiDigit};
ghost use Rattle.std.specs.Fmt.{decimal};
ghost use Rattle.plan_checker.specs.Format.{IsSmall};
ghost use Rattle.plan_checker.specs.inner.Reading.{BeginsWithNumber, EndsNumber, NoNumber};

use std::str;

/// What follows this beginning, where a text has it.
pub fn after<'a>(text: &'a [u8], start: &[u8]) -> Option<&'a [u8]>
    ensures { MatchOption result ((rest : List ℕ) → text.now ≢ start.now ++ rest) (λ rest. text.now
        ≡ start.now ++ rest.now) }
{
    text.strip_prefix(start)
}

/// Reads a space and a number below 2^64 behind it, and gives what follows: no digit.
pub fn read_number(text: &[u8]) -> Option<(u64, &[u8])>
    ensures { MatchOption result (NoNumber text.now)
        (λ read. BeginsWithNumber text.now read.0 read.1.now) }
{
    let Some(text) = after(text, b" ".as_slice()) else {
        return None;
    };
    let (digits, rest) = split_digits(text);
    let Some(number) = number_of(digits) else {
        return None;
    };
    Some((number, rest))
}

/// The digits that a text begins with, and what follows them.
fn split_digits(text: &[u8]) -> (&[u8], &[u8])
    ensures parts { text.now ≡ result.0.now ++ result.1.now }
    ensures digits { All IsAsciiDigit result.0.now }
    ensures ends { EndsNumber result.1.now }
{
    let end = text
        .iter()
        .position(|byte| !byte.is_ascii_digit())
        .unwrap_or(text.len());
    text.split_at(end)
}

/// The number that these digits write without leading zeros.
#[tactic(auto, using(crate::proofs::ReadNumbers::none_empty, crate::proofs::ReadNumbers::none_plus, crate::proofs::ReadNumbers::none_padded, crate::proofs::ReadNumbers::zero_alone))]
fn number_of(digits: &[u8]) -> Option<u64>
    ensures { MatchOption result ((n : ℕ) → IsSmall n → digits.now ≢ decimal n) (λ n. digits.now
        ≡ decimal n) }
{
    if digits.is_empty() {
        return None;
    }
    let first = digits[0];
    if first == b'+' {
        return None;
    }
    if first != b'0' {
        return plain_number(digits);
    }
    if digits.len() != 1 {
        return None;
    }
    Some(0)
}

/// The number that these digits write, the first of which is no zero.
#[tactic(auto, using(crate::proofs::ReadNumbers::no_utf8, crate::proofs::ReadNumbers::parsed))]
fn plain_number(digits: &[u8]) -> Option<u64>
    requires no_sign { slice_index digits.now 0 ≢ 43 }
    requires no_zero { slice_index digits.now 0 ≢ 48 }
    ensures { MatchOption result ((n : ℕ) → IsSmall n → digits.now ≢ decimal n) (λ n. digits.now
        ≡ decimal n) }
{
    let Ok(text) = str::from_utf8(digits) else {
        return None;
    };
    let Ok(number) = text.parse() else {
        return None;
    };
    Some(number)
}

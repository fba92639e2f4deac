//! Foreign text as it is shown.
ghost use Rattle.std.specs.Prelude.{◌≡◌, ◌<◌, ◌++◌, ◌∷◌, [], IfOk, OnOk, string_bytes};
ghost use Rattle.program_words.specs.Visible as spec;

use plain_data::Text;
use std::alloc::{AllocError, Global};

/// The most characters that are shown of a word, and of a line.
const MOST_OF_WORD: usize = 200;

const MOST_OF_LINE: usize = 1_000;

/// What stands for the characters that are left out.
const GAP: &str = "...";

/// Returns a text with a code, as `\u001b`, for each control character and each one that turns the direction of writing.
pub fn visible(alloc: Global, text: &str) -> Result<String, AllocError>
    ensures { IfOk result (λ shown. string_bytes shown ≡ spec.visible text.now) }
{
    let mut shown = String::new(alloc);
    for c in text.chars() {
        add_shown(&mut shown, c)?;
    }
    Ok(shown)
}

/// The same, as a text.
pub fn visible_text(alloc: Global, text: &Text) -> Result<Text, AllocError>
    ensures { IfOk result (λ shown. shown ≡ spec.visible text.now) }
{
    Ok(Text::from_string(visible(alloc, text.as_str())?))
}

fn add_shown(shown: &mut String, c: char) -> Result<(), AllocError>
    ensures { OnOk result (string_bytes shown.new ≡ string_bytes shown.old ++ spec.shown_char c) }
{
    if is_hidden(c) {
        add_code(shown, c)
    } else {
        shown.push(c)
    }
}

/// Whether a character moves, hides or turns others when it is written to a terminal.
pub fn is_hidden(c: char) -> bool
    ensures { result ≡ spec.is_hidden c }
{
    is_control(c) || is_turning(c)
}

fn is_control(c: char) -> bool
    ensures { result ≡ spec.is_control c }
{
    c < ' ' || ('\u{7f}' <= c && c <= '\u{9f}')
}

fn is_turning(c: char) -> bool
    ensures { result ≡ spec.is_turning c }
{
    c == '\u{61c}'
        || ('\u{200e}' <= c && c <= '\u{200f}')
        || ('\u{202a}' <= c && c <= '\u{202e}')
        || ('\u{2066}' <= c && c <= '\u{2069}')
}

fn add_code(shown: &mut String, c: char) -> Result<(), AllocError>
    ensures { OnOk result (string_bytes shown.new ≡ string_bytes shown.old ++ spec.code_text c) }
{
    let code = c as u32;
    shown.push_str("\\u")?;
    add_digit(shown, code / 4096 % 16)?;
    add_digit(shown, code / 256 % 16)?;
    add_digit(shown, code / 16 % 16)?;
    add_digit(shown, code % 16)
}

fn add_digit(shown: &mut String, digit: u32) -> Result<(), AllocError>
    requires { digit < 16 }
    ensures { OnOk result (string_bytes shown.new ≡ string_bytes shown.old
        ++ spec.digit digit ∷ []) }
{
    shown.push(char::from(digit_of(digit as u8)))
}

fn digit_of(digit: u8) -> u8
    requires { digit < 16 }
    ensures value { result ≡ spec.digit digit }
    ensures ascii { result < 128 }
{
    if digit < 10 {
        b'0' + digit
    } else {
        b'W' + digit
    }
}

/// Returns a line in which each word of more than 200 characters has its middle left out, and the line its own if it has still more
/// than 1,000.
pub fn cut(alloc: Global, line: &str) -> Result<String, AllocError> {
    let words = with_short_words(alloc, line)?;
    short(alloc, words.as_str(), MOST_OF_LINE)
}

fn with_short_words(alloc: Global, line: &str) -> Result<String, AllocError> {
    let mut whole = String::new(alloc);
    for (index, word) in line.split(' ').enumerate() {
        if index > 0 {
            whole.push(' ')?;
        }
        let word = short(alloc, word, MOST_OF_WORD)?;
        whole.push_str(word.as_str())?;
    }
    Ok(whole)
}

// A text of at most so many characters: its beginning and its end, if it has more.
fn short(alloc: Global, text: &str, most: usize) -> Result<String, AllocError> {
    let count = text.chars().count();
    if count <= most {
        return String::from_str(alloc, text);
    }
    let half = most.saturating_sub(GAP.len()) / 2;
    ends_of(alloc, text, half, count.saturating_sub(half))
}

// The characters before one index, and those from another on.
fn ends_of(alloc: Global, text: &str, first: usize, last: usize) -> Result<String, AllocError> {
    let mut ends = String::new(alloc);
    for (index, c) in text.chars().enumerate() {
        if index == first {
            ends.push_str(GAP)?;
        }
        if index < first || index >= last {
            ends.push(c)?;
        }
    }
    Ok(ends)
}

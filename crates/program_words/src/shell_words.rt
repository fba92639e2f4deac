//! Commands as a shell would take them.
ghost use Rattle.std.specs.Prelude.{◌≡◌, ◌<◌, ◌+◌, ◌==◌, if◌then◌else◌, ◌∷◌, [], ◌++◌, codes, IfOk, OnOk, string_bytes};
ghost use Rattle.std.specs.Char.{encode_utf8};
ghost use Rattle.std.specs.List.{list_any, list_all};
ghost use Rattle.std.specs.Str.{chars};
ghost use Rattle.program_words.specs.ShellWords as spec;
ghost use Rattle.program_words.specs.Visible.{is_hidden};

use crate::shown::is_hidden;
use command_line::Launch;
use plain_data::Text;
use std::alloc::{AllocError, Global};

/// Returns the words of a launch in one line, with the files of its streams. A word with another character than letters, digits and
/// `%+,-./:=@_` is in single quotes; one with a control character, or one that turns the direction of writing, is in `$'..'`, so that the
/// line stays one.
pub fn line_of(alloc: Global, launch: &Launch) -> Result<String, AllocError>
    ensures read { IfOk result (λ line. spec.IsLineOf launch.now (string_bytes line)) }
    ensures shown { IfOk result (λ line. spec.IsShown (string_bytes line)) }
{
    let mut line = words_of(alloc, launch.words.as_slice())?;
    add_stream(&mut line, " <", &launch.stdin)?;
    add_stream(&mut line, " >", &launch.stdout)?;
    add_stream(&mut line, " 2>", &launch.stderr)?;
    Ok(line)
}

fn words_of(alloc: Global, words: &[Text]) -> Result<String, AllocError>
    ensures read { IfOk result (λ line. spec.AreRead words.now (string_bytes line)) }
    ensures shown { IfOk result (λ line. spec.IsShown (string_bytes line)) }
{
    let mut line = String::new(alloc);
    for (index, word) in words.iter().enumerate() {
        if index > 0 {
            line.push(' ')?;
        }
        add_word(&mut line, word.as_str())?;
    }
    Ok(line)
}

fn add_stream(line: &mut String, arrow: &str, name: &Option<Text>) -> Result<(), AllocError>
    requires { spec.IsShown arrow.now }
    ensures { OnOk result (spec.Adds (λ text. spec.IsRedirection arrow.now name.now text
        × spec.IsShown text) (string_bytes line.old) (string_bytes line.new)) }
{
    match name {
        None => Ok(()),
        Some(name) => {
            line.push_str(arrow)?;
            add_word(line, name.as_str())
        }
    }
}

/// Adds a word as a shell takes it.
pub fn add_word(line: &mut String, word: &str) -> Result<(), AllocError>
    ensures { OnOk result (spec.Adds (spec.IsTextOf word.now) (string_bytes line.old)
        (string_bytes line.new)) }
{
    if has_hidden(word) {
        return add_escaped(line, word);
    }
    if !word.is_empty() && is_bare(word) {
        return line.push_str(word);
    }
    add_quoted(line, word)
}

fn has_hidden(word: &str) -> bool
    ensures { result ≡ list_any is_hidden (chars word.now) }
{
    word.chars().any(is_hidden)
}

fn is_bare(word: &str) -> bool
    ensures { result ≡ list_all spec.is_bare word.now }
{
    word.as_bytes().iter().all(|byte| is_plain(*byte))
}

fn is_plain(byte: u8) -> bool
    ensures { result ≡ spec.is_bare byte }
{
    byte.is_ascii_alphanumeric() || matches!(byte, b'%' | b'+'..=b'/' | b':' | b'=' | b'@' | b'_')
}

// Adds a word in single quotes.
fn add_quoted(line: &mut String, word: &str) -> Result<(), AllocError>
    requires { spec.IsShown word.now }
    ensures { OnOk result (spec.Adds (spec.IsTextOf word.now) (string_bytes line.old)
        (string_bytes line.new)) }
{
    line.push('\'')?;
    for c in word.chars() {
        add_in_quotes(line, c)?;
    }
    line.push('\'')
}

// Adds a character inside single quotes; a single quote ends them, stands behind a backslash, and begins them anew.
fn add_in_quotes(line: &mut String, c: char) -> Result<(), AllocError>
    ensures { OnOk result (string_bytes line.new ≡ string_bytes line.old
        ++ (if c == 39 then codes "'\\''" else encode_utf8 c)) }
{
    if c == '\'' {
        line.push_str("'\\''")
    } else {
        line.push(c)
    }
}

// Adds a word in `$'..'`.
fn add_escaped(line: &mut String, word: &str) -> Result<(), AllocError>
    ensures { OnOk result (spec.Adds (spec.IsTextOf word.now) (string_bytes line.old)
        (string_bytes line.new)) }
{
    line.push_str("$'")?;
    for c in word.chars() {
        add_in_dollar_quotes(line, c)?;
    }
    line.push('\'')
}

// Adds a character inside `$'..'`, by its bytes if it would move, hide or turn others.
fn add_in_dollar_quotes(line: &mut String, c: char) -> Result<(), AllocError>
    ensures { OnOk result (spec.Adds (spec.IsWritten (encode_utf8 c)) (string_bytes line.old)
        (string_bytes line.new)) }
{
    if c == '\'' {
        return line.push_str("\\'");
    }
    if c == '\\' {
        return line.push_str("\\\\");
    }
    if is_hidden(c) {
        return add_bytes(line, c);
    }
    line.push(c)
}

// Adds a character by its bytes.
fn add_bytes(line: &mut String, c: char) -> Result<(), AllocError>
    ensures { OnOk result (spec.Adds (spec.IsWritten (encode_utf8 c)) (string_bytes line.old)
        (string_bytes line.new)) }
{
    let mut room = [0; 4];
    for byte in c.encode_utf8(&mut room).as_bytes() {
        add_byte(line, *byte)?;
    }
    Ok(())
}

// Adds a byte by three octal digits.
fn add_byte(line: &mut String, byte: u8) -> Result<(), AllocError>
    ensures { OnOk result (spec.Adds (spec.IsWritten (byte ∷ [])) (string_bytes line.old)
        (string_bytes line.new)) }
{
    line.push('\\')?;
    add_digit(line, byte / 64)?;
    add_digit(line, byte / 8 % 8)?;
    add_digit(line, byte % 8)
}

fn add_digit(line: &mut String, digit: u8) -> Result<(), AllocError>
    requires { digit < 8 }
    ensures { OnOk result (string_bytes line.new ≡ string_bytes line.old ++ (48 + digit) ∷ []) }
{
    line.push(char::from(b'0' + digit))
}

//! What is asked for unasked when standard error is a terminal.
ghost use Rattle.std.specs.Prelude.{◌≡◌, map, bytes_eq, OnOk, string_bytes};
ghost use Rattle.std.specs.List.{list_any};
ghost use Rattle.program_words.specs.Terminal as spec;

use std::alloc::{AllocError, Global};

/// Adds the words of a terminal behind the command: `--explain`, and for a run `--progress`. None is added that is there already.
pub fn add_terminal_words(alloc: Global, words: &mut Vec<String>) -> Result<(), AllocError>
    ensures { OnOk result (map string_bytes words.new.items
        ≡ spec.terminal_words (map string_bytes words.old.items)) }
{
    let (run, other) = (is_run(words), is_other(words));
    if run {
        add_word(alloc, words, "--progress")?;
    }
    if run || other {
        add_word(alloc, words, "--explain")?;
    }
    Ok(())
}

/// Adds `--explain` alone, in the same way.
pub fn add_explain_word(alloc: Global, words: &mut Vec<String>) -> Result<(), AllocError>
    ensures { OnOk result (map string_bytes words.new.items
        ≡ spec.explained_words (map string_bytes words.old.items)) }
{
    if is_run(words) || is_other(words) {
        add_word(alloc, words, "--explain")?;
    }
    Ok(())
}

pub(crate) fn is_run(words: &[String]) -> bool
    ensures { result ≡ spec.is_run (map string_bytes words.now) }
{
    matches!(command_of(words), "run")
}

fn is_other(words: &[String]) -> bool
    ensures { result ≡ spec.is_other (map string_bytes words.now) }
{
    matches!(command_of(words), "plan" | "check" | "record" | "demo")
}

// The word behind the program's name; none is the empty one.
fn command_of(words: &[String]) -> &str
    ensures { result.now ≡ spec.command_of (map string_bytes words.now) }
{
    match words.get(1) {
        None => "",
        Some(word) => word.as_str(),
    }
}

fn add_word(alloc: Global, words: &mut Vec<String>, word: &str) -> Result<(), AllocError>
    ensures { OnOk result (map string_bytes words.new.items
        ≡ spec.with_word word.now (map string_bytes words.old.items)) }
{
    if words.len() < 2 || has_word(words, word) {
        return Ok(());
    }
    let word = String::from_str(alloc, word)?;
    words.insert(2, word)?;
    Ok(())
}

pub(crate) fn has_word(words: &[String], word: &str) -> bool
    ensures { result ≡ list_any (λ other. bytes_eq other word.now) (map string_bytes words.now) }
{
    words.iter().any(|other| other.as_str() == word)
}

//! `--progress=json`, which is the option `--progress-json`.
ghost use Rattle.std.specs.Prelude.{◌≡◌, IfOk, map, string_bytes};
ghost use Rattle.program_words.specs.JsonWord as spec;

use crate::terminal::{has_word, is_run};
use std::alloc::{AllocError, Global};

/// Returns the words with `--progress-json` in the place of each `--progress=json` of a run, up to a word `--`.
pub fn name_json_word(alloc: Global, words: &[String]) -> Result<Vec<String>, AllocError>
    ensures { IfOk result (λ found. map string_bytes found.items
        ≡ spec.name_json_word (map string_bytes words.now)) }
{
    let mut found = Vec::new(alloc);
    for word in words {
        let word = next_word(alloc, found.as_slice(), word.as_str())?;
        found.push(word)?;
    }
    Ok(found)
}

// The word that comes behind these in place of this one.
fn next_word(alloc: Global, before: &[String], word: &str) -> Result<String, AllocError>
    ensures { IfOk result (λ next. string_bytes next
        ≡ spec.next_word (map string_bytes before.now) word.now) }
{
    if word == "--progress=json" && has_options(before) {
        return String::from_str(alloc, "--progress-json");
    }
    String::from_str(alloc, word)
}

fn has_options(words: &[String]) -> bool
    ensures { result ≡ spec.has_options (map string_bytes words.now) }
{
    is_run(words) && !has_word(words, "--")
}

//! The option that has what is kept loaded and not computed again.
ghost use Rattle.std.specs.Prelude.{◌≡◌, IfOk, OnOk, map, string_bytes};
ghost use Rattle.given_words.specs.Preference as spec;

use crate::slots::has_options;
use std::alloc::{AllocError, Global};

/// Returns the words with the cheapest loads, `--base=0` and `--rate=1000000000000`, in the place of `--prefer-kept`.
pub fn with_preference(alloc: Global, words: &[String]) -> Result<Vec<String>, AllocError>
    ensures { IfOk result (λ found. map string_bytes found.items
        ≡ spec.with_preference (map string_bytes words.now)) }
{
    let mut found = Vec::new(alloc);
    for word in words {
        add_next(alloc, &mut found, word.as_str())?;
    }
    Ok(found)
}

fn add_next(alloc: Global, found: &mut Vec<String>, word: &str) -> Result<(), AllocError>
    ensures { OnOk result (map string_bytes found.new.items
        ≡ spec.with_word (map string_bytes found.old.items) word.now) }
{
    if word == "--prefer-kept" && has_options(found.as_slice()) {
        found.push(String::from_str(alloc, "--base=0")?)?;
        found.push(String::from_str(alloc, "--rate=1000000000000")?)?;
        return Ok(());
    }
    found.push(String::from_str(alloc, word)?)?;
    Ok(())
}

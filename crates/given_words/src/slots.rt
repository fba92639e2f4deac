//! Options that ask for as many jobs side by side as there are processors.
ghost use Rattle.std.specs.Prelude.{◌≡◌, IfOk, bytes_eq, if◌then◌else◌, map, string_bytes};
ghost use Rattle.std.specs.List.{list_any};
ghost use Rattle.given_words.specs.Slots as spec;

use std::alloc::{AllocError, Global};

/// Returns the words with the number of processors if they ask for all of them.
pub fn with_slots(alloc: Global, words: &[String], count: u64) -> Result<Vec<String>, AllocError>
    ensures { IfOk result (λ found. map string_bytes found.items
        ≡ spec.with_slots count (map string_bytes words.now)) }
{
    let mut found = Vec::new(alloc);
    for word in words {
        let word = next_word(alloc, found.as_slice(), word.as_str(), count)?;
        found.push(word)?;
    }
    Ok(found)
}

// The word that comes behind these in place of this one.
fn next_word(alloc: Global, before: &[String], word: &str, count: u64) -> Result<String, AllocError>
    ensures { IfOk result (λ next. string_bytes next
        ≡ (if spec.has_options (map string_bytes before.now)
        then spec.slot_word count (map string_bytes before.now) word.now
        else word.now)) }
{
    if has_options(before) {
        return slot_word(alloc, before, word, count);
    }
    String::from_str(alloc, word)
}

fn slot_word(alloc: Global, before: &[String], word: &str, count: u64) -> Result<String, AllocError>
    ensures { IfOk result (λ next. string_bytes next
        ≡ spec.slot_word count (map string_bytes before.now) word.now) }
{
    if matches!(word, "--parallel" | "--slots=all") {
        return format!(in alloc; "--slots={count}");
    }
    if last_of(before) == "--slots" && word == "all" {
        return format!(in alloc; "{count}");
    }
    String::from_str(alloc, word)
}

// Whether the words are those of a command that takes slots, and options may follow.
pub(crate) fn has_options(words: &[String]) -> bool
    ensures { result ≡ spec.has_options (map string_bytes words.now) }
{
    takes_slots(words) && are_open(words)
}

// Whether no word says that options end.
pub(crate) fn are_open(words: &[String]) -> bool
    ensures { result ≡ spec.are_open (map string_bytes words.now) }
{
    !has_word(words, "--")
}

fn takes_slots(words: &[String]) -> bool
    ensures { result ≡ spec.takes_slots (map string_bytes words.now) }
{
    matches!(command_of(words), "run" | "plan")
}

// The word behind the program's name; none is the empty one.
pub(crate) fn command_of(words: &[String]) -> &str
    ensures { result.now ≡ spec.command_of (map string_bytes words.now) }
{
    match words.get(1) {
        None => "",
        Some(word) => word.as_str(),
    }
}

fn has_word(words: &[String], word: &str) -> bool
    ensures { result ≡ list_any (λ other. bytes_eq other word.now) (map string_bytes words.now) }
{
    words.iter().any(|other| other.as_str() == word)
}

/// The last word; none is the empty one.
pub(crate) fn last_of(words: &[String]) -> &str
    ensures { result.now ≡ spec.last_of (map string_bytes words.now) }
{
    match words.last() {
        None => "",
        Some(word) => word.as_str(),
    }
}

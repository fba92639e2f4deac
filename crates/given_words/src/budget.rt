//! How many bytes an option asks for, by a number with a suffix.
ghost use Rattle.std.specs.Prelude.{◌≡◌, ◌-◌, IfOk, MatchOption, drop, eqb, false, length, map, string_bytes, take, true};
ghost use Rattle.std.specs.List.{ends_with, starts_with};
ghost use Rattle.given_words.specs.Budget as spec;

use crate::processors::number_in;
use crate::slots::{are_open, command_of, last_of};
use std::alloc::{AllocError, Global};

/// Returns the words with a plain number in the place of one with a suffix k, M, G or T, which stands for a power of 1,000, behind
/// `--budget`.
pub fn with_budget(alloc: Global, words: &[String]) -> Result<Vec<String>, AllocError>
    ensures { IfOk result (λ found. map string_bytes found.items
        ≡ spec.with_budget (map string_bytes words.now)) }
{
    let mut found = Vec::new(alloc);
    for word in words {
        let word = next_word(alloc, found.as_slice(), word.as_str())?;
        found.push(word)?;
    }
    Ok(found)
}

// The word that comes behind these in place of this one.
fn next_word(alloc: Global, before: &[String], word: &str) -> Result<String, AllocError>
    ensures { IfOk result (λ next. string_bytes next
        ≡ spec.next_word (map string_bytes before.now) word.now) }
{
    if has_options(before) {
        return budget_word(alloc, before, word);
    }
    String::from_str(alloc, word)
}

// Whether the words are those of a command that takes a budget, and options may follow.
fn has_options(words: &[String]) -> bool
    ensures { result ≡ spec.has_options (map string_bytes words.now) }
{
    matches!(command_of(words), "run" | "plan" | "record") && are_open(words)
}

fn budget_word(alloc: Global, before: &[String], word: &str) -> Result<String, AllocError>
    ensures { IfOk result (λ next. string_bytes next
        ≡ spec.budget_word (map string_bytes before.now) word.now) }
{
    if let Some(text) = without_prefix(word, "--budget=") {
        let number = plain_number(alloc, text)?;
        return format!(in alloc; "--budget={number}");
    }
    if last_of(before) == "--budget" {
        return plain_number(alloc, word);
    }
    String::from_str(alloc, word)
}

// A number with a suffix written out; any other text stays as it is.
#[tactic(auto, unfolding(crate::specs::Budget::plain_number))]
fn plain_number(alloc: Global, text: &str) -> Result<String, AllocError>
    ensures { IfOk result (λ plain. string_bytes plain ≡ spec.plain_number text.now) }
{
    match bytes_in(text) {
        None => String::from_str(alloc, text),
        Some(bytes) => format!(in alloc; "{bytes}"),
    }
}

fn bytes_in(text: &str) -> Option<u128>
    ensures { result ≡ spec.bytes_in text.now }
{
    if let Some(number) = without_suffix(text, "k") {
        return counted(number, 1_000);
    }
    if let Some(number) = without_suffix(text, "M") {
        return counted(number, 1_000_000);
    }
    if let Some(number) = without_suffix(text, "G") {
        return counted(number, 1_000_000_000);
    }
    if let Some(number) = without_suffix(text, "T") {
        return counted(number, 1_000_000_000_000);
    }
    None
}

// What stands behind a prefix of a text.
fn without_prefix<'a>(text: &'a str, prefix: &str) -> Option<&'a str>
    ensures { MatchOption result (starts_with eqb text.now prefix.now ≡ false)
        (λ rest. (starts_with eqb text.now prefix.now ≡ true)
        × (rest.now ≡ drop (length prefix.now) text.now)) }
{
    text.strip_prefix(prefix)
}

// What stands before a suffix of a text.
fn without_suffix<'a>(text: &'a str, suffix: &str) -> Option<&'a str>
    ensures { MatchOption result (ends_with eqb text.now suffix.now ≡ false)
        (λ front. (ends_with eqb text.now suffix.now ≡ true)
        × (front.now ≡ take (length text.now - length suffix.now) text.now)) }
{
    text.strip_suffix(suffix)
}

// So many times the number of a text, if it is one.
fn counted(text: &str, factor: u64) -> Option<u128>
    ensures { result ≡ spec.counted text.now factor }
{
    let number = number_in(text)?;
    Some(u128::from(number) * u128::from(factor))
}

//! The line of `--progress`.
ghost use Rattle.std.specs.Prelude.{◌≡◌, ◌≤◌, ◌++◌, IfOk, OnOk, length, string_bytes};
ghost use Rattle.std.specs.Str.{chars};
ghost use Rattle.program_words.specs.Progress as spec;

use std::alloc::{AllocError, Global};

/// The most characters that are shown of a place, and how many of each end if it has more.
const MOST_OF_PLACE: usize = 21;

const EACH_END: usize = 9;

/// How many jobs are done, of how many that are known, and how many run.
#[derive(Clone, Copy, Debug, PartialEq, Eq)]
pub struct Counts {
    pub done: usize,
    pub known: usize,
    pub running: usize,
}

/// The job that runs longest: its place as JSON text, and for how many seconds.
#[derive(Clone, Copy, Debug)]
pub struct Longest<'a> {
    pub place: &'a str,
    pub seconds: u64,
}

/// The line.
pub(crate) fn progress_line(
    alloc: Global,
    counts: Counts,
    longest: Option<Longest<'_>>,
) -> Result<String, AllocError>
    ensures { IfOk result (λ line. string_bytes line ≡ spec.progress_line counts longest.entry) }
{
    match longest {
        None => counted(alloc, counts),
        Some(longest) => with_longest(alloc, counts, longest),
    }
}

// Those that are neither done nor running.
fn left_of(counts: Counts) -> usize
    ensures { result ≡ spec.left_of counts }
{
    counts
        .known
        .saturating_sub(counts.done)
        .saturating_sub(counts.running)
}

fn with_longest(alloc: Global, counts: Counts, longest: Longest<'_>) -> Result<String, AllocError>
    ensures { IfOk result (λ line. string_bytes line ≡ spec.with_longest counts longest.entry) }
{
    let counted = counted(alloc, counts)?;
    let place = in_short(alloc, longest.place)?;
    let seconds = longest.seconds;
    format!(in alloc; "{counted}; {place} {seconds} s")
}

fn counted(alloc: Global, counts: Counts) -> Result<String, AllocError>
    ensures { IfOk result (λ words. string_bytes words ≡ spec.counted counts) }
{
    let Counts {
        done,
        known,
        running,
    } = counts;
    let left = left_of(counts);
    format!(in alloc; "{done} of {known} jobs done, {running} running, {left} left")
}

// A text of at most 21 characters: its ends, if it has more.
fn in_short(alloc: Global, text: &str) -> Result<String, AllocError>
    ensures { IfOk result (λ short. string_bytes short ≡ spec.in_short text.now) }
{
    let all = chars_of(alloc, text)?;
    if all.len() <= MOST_OF_PLACE {
        return String::from_str(alloc, text);
    }
    ends_of(alloc, all.as_slice())
}

fn ends_of(alloc: Global, all: &[char]) -> Result<String, AllocError>
    requires { 18 ≤ length all.now }
    ensures { IfOk result (λ ends. string_bytes ends ≡ spec.ends_of all.now) }
{
    let mut ends = String::new(alloc);
    add_chars(&mut ends, &all[..EACH_END])?;
    ends.push_str("...")?;
    add_chars(&mut ends, &all[all.len() - EACH_END..])?;
    Ok(ends)
}

fn chars_of(alloc: Global, text: &str) -> Result<Vec<char>, AllocError>
    ensures { IfOk result (λ all. all.items ≡ chars text.now) }
{
    let mut all = Vec::new(alloc);
    for c in text.chars() {
        all.push(c)?;
    }
    Ok(all)
}

fn add_chars(text: &mut String, chars: &[char]) -> Result<(), AllocError>
    ensures { OnOk result (string_bytes text.new
        ≡ string_bytes text.old ++ spec.text_of chars.now) }
{
    for c in chars {
        text.push(*c)?;
    }
    Ok(())
}

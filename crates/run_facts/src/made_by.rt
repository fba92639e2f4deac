//! Which process made a work folder, and whether it still runs.
ghost use Rattle.std.specs.Prelude.{◌≡◌, IfOk, option_map, string_bytes};
ghost use Rattle.std.specs.List.{list_all};
ghost use Rattle.run_facts.specs.MadeBy as spec;

use std::alloc::{AllocError, Global};

/// The mark of a folder that a run has left on purpose.
pub const KEPT: &str = "kept";

/// How many words are between the name and the start in the `stat` of a process, where the name has a blank behind it.
const START_AFTER_NAME: usize = 20;

/// Why a work folder can't be made.
#[derive(Clone, Copy, Debug, Drop, PartialEq, Eq)]
pub enum WorkTrouble {
    /// Something is at its place that no run made.
    There,
    /// A run has left it on purpose.
    Kept,
    /// A run made it that was interrupted.
    Left,
    /// A run made it that still goes on.
    Busy,
    /// A run made it on another computer, in another container, or before this computer was started.
    Elsewhere,
    /// Results or stored files would be in it, and it is removed at the end.
    Around,
    /// The folder that it is to be in is not there.
    NoParent,
    Forbidden,
    Full,
    Other,
}

/// What is told of the process that made a folder: its number, when it started, and where such numbers count.
#[derive(Clone, Copy, Drop)]
struct Maker<'a> {
    number: &'a str,
    start: &'a str,
    scope: &'a str,
}

/// The mark of a process: its number and the time of its start, as its `stat` in `/proc` has them, the boot of the computer and the
/// space of process numbers (proc(5)).
pub fn mark_of(alloc: Global, stat: &str, boot: &str, space: &str) -> Result<String, AllocError>
    ensures { IfOk result (λ mark. string_bytes mark ≡ spec.mark_of stat.now boot.now space.now) }
{
    let number = before_space(stat);
    let start = start_in(stat);
    format!(in alloc; "{number} {start} {boot} {space}")
}

/// The number of the process that a mark names; none for a mark that names none.
pub fn number_in(mark: &str) -> Option<&str>
    ensures { option_map (λ number. number.now) result ≡ spec.number_in mark.now }
{
    let number = before_space(mark);
    if is_number(number) {
        return Some(number);
    }
    None
}

/// Why a folder with a mark is there: `own` is the mark of this process, and `stat` is what is told of the process that has the mark's
/// number, where there is one.
pub fn trouble_of(mark: &str, own: &str, stat: Option<&str>) -> WorkTrouble
    ensures { result ≡ spec.trouble_of mark.now own.now (option_map (λ text. text.now) stat.entry) }
{
    if mark == KEPT {
        return WorkTrouble::Kept;
    }
    let (maker, here) = (maker_in(mark), maker_in(own));
    if !is_number(maker.number) {
        return WorkTrouble::There;
    }
    if maker.scope != here.scope {
        return WorkTrouble::Elsewhere;
    }
    match stat {
        Some(stat) if start_in(stat) == maker.start => WorkTrouble::Busy,
        _ => WorkTrouble::Left,
    }
}

fn maker_in(mark: &str) -> Maker<'_>
    ensures number { result.number.now ≡ spec.word mark.now }
    ensures start { result.start.now ≡ spec.word (spec.rest mark.now) }
    ensures scope { result.scope.now ≡ spec.scope_of mark.now }
{
    let rest = after_space(mark);
    Maker {
        number: before_space(mark),
        start: before_space(rest),
        scope: after_space(rest),
    }
}

fn is_number(text: &str) -> bool
    ensures { result ≡ spec.is_number text.now }
{
    !text.is_empty() && has_digits_alone(text)
}

fn has_digits_alone(text: &str) -> bool
    ensures { result ≡ list_all spec.is_digit text.now }
{
    text.as_bytes().iter().all(|byte| is_digit(*byte))
}

fn is_digit(byte: u8) -> bool
    ensures { result ≡ spec.is_digit byte }
{
    matches!(byte, b'0'..=b'9')
}

// When a process started: the 22nd word of its `stat`. The second one is its name in parentheses.
fn start_in(stat: &str) -> &str
    ensures { result.now ≡ spec.start_in stat.now }
{
    let mut rest = after_name(stat);
    for done in 0..START_AFTER_NAME {
        rest = after_space(rest);
    }
    before_space(rest)
}

// What is behind the last parenthesis that closes; nothing where there is none. A name may have others in it.
fn after_name(stat: &str) -> &str
    ensures { result.now ≡ spec.after_name stat.now }
{
    match stat.rfind(')') {
        Some(at) => &stat[at + 1..],
        None => "",
    }
}

// The text before its first space; all of it where there is none.
fn before_space(text: &str) -> &str
    ensures { result.now ≡ spec.word text.now }
{
    match text.split_once(' ') {
        Some((word, _)) => word,
        None => text,
    }
}

// The text behind its first space; nothing where there is none.
fn after_space(text: &str) -> &str
    ensures { result.now ≡ spec.rest text.now }
{
    match text.split_once(' ') {
        Some((_, rest)) => rest,
        None => "",
    }
}

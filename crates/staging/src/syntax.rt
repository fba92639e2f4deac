//! The faults that a pattern's text shows before it is read.
ghost use Rattle.std.specs.Prelude.{◌≡◌, true};
ghost use Rattle.std.specs.Str.{chars};
ghost use Rattle.staging.specs.Reading.{ends_parent, begins_class, fault_at, fault_from, begins_with_slash, fault_of};

use crate::characters::first_char;
use crate::fault::GlobFault;

/// Returns the fault of a text without its leading `./`: that it is absolute, or else the leftmost one.
pub(crate) fn fault_of(text: &str) -> Option<GlobFault>
    ensures { result ≡ fault_of (chars text.now) }
{
    if begins_with_slash(text) {
        Some(GlobFault::Absolute)
    } else {
        leftmost_fault(text)
    }
}

fn begins_with_slash(text: &str) -> bool
    ensures { result ≡ begins_with_slash (chars text.now) }
{
    match first_char(text) {
        Some((first, _)) => first == '/',
        None => false,
    }
}

fn leftmost_fault(text: &str) -> Option<GlobFault>
    ensures { result ≡ fault_from true (chars text.now) }
{
    let mut front = true;
    let mut rest = text;
    while let Some((character, after)) = first_char(rest) {
        if let Some(fault) = fault_at(front, character, after) {
            return Some(fault);
        }
        front = character == '/';
        rest = after;
    }
    None
}

// The fault that begins with a character, where `after` follows it.
fn fault_at(front: bool, character: char, after: &str) -> Option<GlobFault>
    ensures { result ≡ fault_at front character (chars after.now) }
{
    if character == '\\' {
        Some(GlobFault::Backslash)
    } else if character == '[' && begins_class(after) {
        Some(GlobFault::CharacterClass)
    } else if front && character == '.' && ends_parent(after) {
        Some(GlobFault::ParentFolder)
    } else {
        None
    }
}

// Checks for `[:` at the front.
fn begins_class(text: &str) -> bool
    ensures { result ≡ begins_class (chars text.now) }
{
    let Some((first, rest)) = first_char(text) else {
        return false;
    };
    match first_char(rest) {
        None => false,
        Some((second, _)) => first == '[' && second == ':',
    }
}

// Checks for a period at the front after which the component ends.
fn ends_parent(text: &str) -> bool
    ensures { result ≡ ends_parent (chars text.now) }
{
    let Some((first, rest)) = first_char(text) else {
        return false;
    };
    match first_char(rest) {
        None => first == '.',
        Some((second, _)) => first == '.' && second == '/',
    }
}

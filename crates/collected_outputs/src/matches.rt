//! The names that patterns match.
ghost use Rattle.std.specs.Prelude.{◌≡◌, IfOk, OnOk};
ghost use Rattle.collected_outputs.specs.Matched.{AreMatched, AreOfAll, without_repeats};
ghost use Rattle.collected_outputs.specs.inner.Matches.{AddsThose, AddsOf};

use crate::listing::Entry;
use plain_data::{Items, Keyed, Text};
use staging::Pattern;
use std::alloc::{AllocError, Global};
use std::collections::BTreeSet;

/// The names that the patterns match: those of one pattern in the order of their bytes, and the patterns in their
/// order. A name that is matched again is not repeated.
pub(crate) fn matched_names(
    alloc: Global,
    listing: &Keyed<Entry>,
    patterns: &[Pattern],
) -> Result<Items<Text>, AllocError>
    ensures { IfOk result (AreMatched listing.now patterns.now) }
{
    let names = all_matches(alloc, listing, patterns)?;
    without_repeats(alloc, names.as_slice())
}

fn all_matches(
    alloc: Global,
    listing: &Keyed<Entry>,
    patterns: &[Pattern],
) -> Result<Items<Text>, AllocError>
    ensures { IfOk result (AreOfAll listing.now patterns.now) }
{
    let mut names = Items::new(alloc);
    for pattern in patterns {
        push_matches(alloc, listing, pattern, &mut names)?;
    }
    Ok(names)
}

// The output folder is matched by `.` alone, and nothing else is.
fn push_matches(
    alloc: Global,
    listing: &Keyed<Entry>,
    pattern: &Pattern,
    names: &mut Items<Text>,
) -> Result<(), AllocError>
    ensures { OnOk result (AddsOf listing.now pattern.now names.old names.new) }
{
    if pattern.is_folder() {
        return names.push(Text::from_text(alloc, ".")?);
    }
    push_found(alloc, listing, pattern, names)
}

fn push_found(
    alloc: Global,
    listing: &Keyed<Entry>,
    pattern: &Pattern,
    names: &mut Items<Text>,
) -> Result<(), AllocError>
    ensures { OnOk result (AddsThose listing.now pattern.now names.old names.new) }
{
    for entry in listing.as_slice() {
        if pattern.matches(entry.0.as_str()) {
            names.push(entry.0.copied(alloc)?)?;
        }
    }
    Ok(())
}

/// Each name once, where it stands first.
pub(crate) fn without_repeats(alloc: Global, names: &[Text]) -> Result<Items<Text>, AllocError>
    ensures { IfOk result (λ once. once ≡ without_repeats names.now) }
{
    let mut seen = BTreeSet::new(alloc);
    let mut once = Items::new(alloc);
    for name in names {
        if seen.insert(name.as_str())? {
            once.push(name.copied(alloc)?)?;
        }
    }
    Ok(once)
}

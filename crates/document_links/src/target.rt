//! What a step's name leads to.
ghost use Rattle.std.specs.Prelude.{◌≡◌, Ok, IfOk, IfErr, option_map};
ghost use Rattle.serde_json.specs.View.{view};
ghost use Rattle.document_table.specs.Entries.{IsProcess};
ghost use Rattle.cwl_process.specs.Documents.{item_fault};
ghost use Rattle.document_links.specs.Library.{finds_among, finds_in};
ghost use Rattle.document_links.specs.Refused.{IsWalkErrorOf};
ghost use Rattle.document_links.specs.Homes.{home, home_seen};
ghost use Rattle.document_links.specs.Targets.{document_at, found_at, item_at, item_else, item_in, item_or, led_by, run_of, run_seen, target};
ghost use Rattle.document_table.specs.Packed.{item_named, placed_seen, root_of};
ghost use Rattle.document_links.specs.inner.Sound.{AllProcesses, AllSound};

use crate::fault::LinkFault;
use crate::home::Home;
use crate::joining::{joined, url_text};
use crate::library::{Library, Reading};
use crate::walk::{WalkError, WalkFault};
use cwl_process::item_fault;
use document_table::{Cause, Indexed, Placed, has_hash, here};
use plain_data::{Keyed, Text};
use serde_json::Value;
use std::alloc::{AllocError, Global};
use url::Url;

/// A process that a step runs.
#[derive(Drop)]
pub enum Target<'d> {
    /// An object of the document that the step is in.
    Here(&'d Value),
    /// What the document of that URL stands for.
    There(Url, &'d Indexed),
}

/// Returns what a step runs that has this under `run`: the object there, or what its name leads to, if that is there and has no fault of
/// its own.
pub fn run_of<'d>(
    alloc: Global,
    library: &'d Library,
    home: Home<'d>,
    run: &'d Value,
) -> Result<Option<Target<'d>>, AllocError>
    ensures { IfOk result (λ found. option_map (run_seen (home_seen home.entry)) found
        ≡ run_of (finds_in library.now) (home_seen home.entry) (view run.now)) }
{
    match run.as_str() {
        None => Ok(Some(Target::Here(run))),
        Some(name) => named(alloc, library, home, name),
    }
}

#[tactic(auto, unfolding(crate::specs::Targets::target))]
fn named<'d>(
    alloc: Global,
    library: &'d Library,
    home: Home<'d>,
    name: &str,
) -> Result<Option<Target<'d>>, AllocError>
    ensures { IfOk result (λ found. option_map (run_seen (home_seen home.entry)) found
        ≡ led_by (target (finds_in library.now) (home_seen home.entry) name.now)) }
{
    if has_hash(name) {
        return match item_at(alloc, home, name) {
            Ok(item) => Ok(Some(Target::Here(item.process))),
            Err(WalkError::Refused(_)) => Ok(None),
            Err(WalkError::OutOfMemory) => Err(AllocError),
        };
    }
    match document_at(alloc, library, home.url, name) {
        Ok((url, document)) => Ok(Some(Target::There(url, document))),
        Err(WalkError::Refused(_)) => Ok(None),
        Err(WalkError::OutOfMemory) => Err(AllocError),
    }
}

/// The item of that name in a document, which has no fault of its own.
pub(crate) fn item_at<'d>(
    alloc: Global,
    home: Home<'d>,
    name: &str,
) -> Result<Placed<'d>, WalkError>
    ensures ok { IfOk result (λ item.
        item_at (home_seen home.entry) name.now
        (item_named name.now (view home.entry.document.now.json))
        ≡ Ok (home_seen home.entry, placed_seen item)) }
    ensures process { IfOk result (λ item. IsProcess (view item.process.now)) }
    ensures err { IfErr result (IsWalkErrorOf
        (item_at (home_seen home.entry) name.now
        (item_named name.now (view home.entry.document.now.json)))) }
{
    match home.document.item(name) {
        None => {
            let id = Text::from_text(alloc, name)?;
            Err(WalkError::Refused(WalkFault::Other(LinkFault::NoItem(id))))
        }
        Some(item) => sound_item(alloc, home, item),
    }
}

/// The item of that name. If it isn't there, the document that is at every URL stands in for it.
pub(crate) fn item_in<'d>(
    alloc: Global,
    library: &'d Library,
    home: Home<'d>,
    name: &str,
) -> Result<Placed<'d>, WalkError>
    ensures ok { IfOk result (λ item.
        item_in library.now (home_seen home.entry) name.now
        (item_named name.now (view home.entry.document.now.json))
        ≡ Ok (home_seen home.entry, placed_seen item)) }
    ensures err { IfErr result (IsWalkErrorOf
        (item_in library.now (home_seen home.entry) name.now
        (item_named name.now (view home.entry.document.now.json)))) }
{
    match library {
        Library::Any(document) => item_else(alloc, document, home, name),
        Library::Read(_) => item_at(alloc, home, name),
    }
}

fn item_else<'d>(
    alloc: Global,
    other: &'d Indexed,
    home: Home<'d>,
    name: &str,
) -> Result<Placed<'d>, WalkError>
    ensures ok { IfOk result (λ item.
        item_else (view other.now.json) (home_seen home.entry)
        (item_named name.now (view home.entry.document.now.json))
        ≡ Ok (home_seen home.entry, placed_seen item)) }
    ensures err { IfErr result (IsWalkErrorOf
        (item_else (view other.now.json) (home_seen home.entry)
        (item_named name.now (view home.entry.document.now.json)))) }
{
    let Some(item) = home.document.item(name) else {
        return Ok(other.root());
    };
    sound_item(alloc, home, item)
}

fn sound_item<'d>(alloc: Global, home: Home<'d>, item: Placed<'d>) -> Result<Placed<'d>, WalkError>
    ensures ok { IfOk result (λ found.
        item_or (home_seen home.entry) (placed_seen item.entry)
        (item_fault (placed_seen item.entry))
        ≡ Ok (home_seen home.entry, placed_seen found)) }
    ensures process { IfOk result (λ found. IsProcess (view found.process.now)) }
    ensures err { IfErr result (IsWalkErrorOf
        (item_or (home_seen home.entry) (placed_seen item.entry)
        (item_fault (placed_seen item.entry)))) }
{
    match item_fault(alloc, item)? {
        None => Ok(item),
        Some(fault) => {
            let text = Text::from_text(alloc, url_text(home.url))?;
            Err(WalkError::Refused(WalkFault::Other(LinkFault::Document(text, fault))))
        }
    }
}

/// The URL that a name has on a base, and its document.
pub(crate) fn document_at<'l>(
    alloc: Global,
    library: &'l Library,
    base: &Url,
    name: &str,
) -> Result<(Url, &'l Indexed), WalkError>
    ensures ok { IfOk result
        (λ t. document_at (finds_in library.now) base.now name.now
        ≡ Ok (home t.0 (view t.1.now.json), root_of (view t.1.now.json))) }
    ensures process { AllProcesses library.now
        → IfOk result (λ t. IsProcess (root_of (view t.1.now.json)).process) }
    ensures err { IfErr result
        (IsWalkErrorOf (document_at (finds_in library.now) base.now name.now)) }
{
    match joined(base, name)? {
        None => Err(WalkError::Refused(WalkFault::Own(here(alloc, Cause::WrongForm)))),
        Some(url) => found_at(alloc, library, url),
    }
}

fn found_at<'l>(
    alloc: Global,
    library: &'l Library,
    url: Url,
) -> Result<(Url, &'l Indexed), WalkError>
    ensures ok { IfOk result
        (λ t. found_at (finds_in library.now) url
        ≡ Ok (home t.0 (view t.1.now.json), root_of (view t.1.now.json))) }
    ensures process { AllProcesses library.now
        → IfOk result (λ t. IsProcess (root_of (view t.1.now.json)).process) }
    ensures err { IfErr result (IsWalkErrorOf (found_at (finds_in library.now) url)) }
{
    match library {
        Library::Any(document) => Ok((url, document)),
        Library::Read(readings) => read_at(alloc, readings, url),
    }
}

fn read_at<'l>(
    alloc: Global,
    readings: &'l Keyed<Reading>,
    url: Url,
) -> Result<(Url, &'l Indexed), WalkError>
    ensures ok { IfOk result
        (λ t. found_at (finds_among readings.now) url
        ≡ Ok (home t.0 (view t.1.now.json), root_of (view t.1.now.json))) }
    ensures process { AllSound readings.now
        → IfOk result (λ t. IsProcess (root_of (view t.1.now.json)).process) }
    ensures err { IfErr result (IsWalkErrorOf (found_at (finds_among readings.now) url)) }
{
    match readings.get(url_text(&url)) {
        None => {
            let text = Text::from_text(alloc, url_text(&url))?;
            Err(WalkError::Refused(WalkFault::Other(LinkFault::NotLoaded(text))))
        }
        Some(Reading::Sound(document)) => Ok((url, document)),
        Some(Reading::Wrong(fault)) => {
            let text = Text::from_text(alloc, url_text(&url))?;
            let fault = LinkFault::Document(text, fault.clone_in(alloc)?);
            Err(WalkError::Refused(WalkFault::Other(fault)))
        }
    }
}

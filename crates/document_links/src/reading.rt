//! Whole documents, with those that they name.
ghost use Rattle.std.specs.Prelude.{◌≡◌, ℕ, Ok, IfOk, IfErr};
ghost use Rattle.serde_json.specs.View.{view};
ghost use Rattle.document_table.specs.Entries.{IsProcess};
ghost use Rattle.document_table.specs.Packed.{root_of};
ghost use Rattle.cwl_process.specs.Documents as one;
ghost use Rattle.document_links.specs.Documents.{IsApart, IsErrorOf, IsLinked, IsNeeded, IsNotNeeding, IsOwnError, IsRefused, IsTogether, bounded_by};
ghost use Rattle.document_links.specs.Names.{alone};
ghost use Rattle.document_links.specs.ProcessOf.{IsItsProcess};
ghost use Rattle.document_links.specs.Targets.{leads_in};

use crate::bounds::{MOST_PROCESSES, MOST_WORKFLOWS, left};
use crate::docs::Docs;
use crate::document::Document;
use crate::fault::{LinkError, LinkFault};
use crate::home::Home;
use crate::joining::url_text;
use crate::library::{Library, Reading};
use crate::linking::linked;
use crate::names::document_urls;
use crate::process::Process;
use crate::walk::{WalkError, told_of};
use cwl_process::nothing_asked;
use document_table::Indexed;
use plain_data::{Items, Text};
use serde_json::Value;
use std::alloc::Global;
use url::Url;

/// The process of a document at that URL, with those that its steps name (CWL v1.2, Workflow Description, `WorkflowStep`).
///
/// Of several faults the first is answered: of the document itself, then in the order of its steps. C6 where a name is no URL on its document's
/// own, C9 where over 16 workflows are inside one another or over 4,096 processes come together, C10 where a document or an item isn't there.
#[tactic(auto, using(cwl_process::proofs::Forms::document_is_process))]
pub fn read_process(
    alloc: Global,
    document: &Document,
    base: &Url,
    docs: &Docs,
) -> Result<Process, LinkError>
    ensures ok { IfOk result (λ process. IsLinked document.now base.now docs.now process) }
    ensures process { IfOk result
        (λ process. IsItsProcess document.now base.now docs.now process) }
    ensures err { IfErr result (λ e. IsRefused e document.now base.now docs.now) }
{
    let found = own_document(alloc, document, base)?;
    together(alloc, base, docs, found)
}

/// The URLs of the documents that a document names, in the order of its steps, each once.
///
/// It refuses what `read_process` refuses whatever the other documents are: C1 to C8 of the document itself, and C9 if a process in the place of
/// each name already makes too many. It never refuses with C10: a name of an item that isn't there gives no URL.
pub fn needed_docs(alloc: Global, document: &Document, base: &Url) -> Result<Items<Text>, LinkError>
    ensures ok { IfOk result (λ urls. IsNeeded document.now base.now urls) }
    ensures err { IfErr result (λ e. IsNotNeeding e document.now base.now) }
{
    let found = own_document(alloc, document, base)?;
    check_alone(alloc, base, found)?;
    Ok(document_urls(alloc, base, found)?)
}

/// The process of a document, with those that its steps name.
#[tactic(auto, using(cwl_process::proofs::Forms::placed_is_process))]
fn together(
    alloc: Global,
    base: &Url,
    docs: &Docs,
    document: &Indexed,
) -> Result<Process, LinkError>
    requires { IsProcess (root_of (view document.now.json)).process }
    ensures ok { IfOk result
        (λ process. IsTogether (view document.now.json) base.now docs.now process) }
    ensures err { IfErr result (λ e. IsApart e (view document.now.json) base.now docs.now) }
{
    let library = docs.library();
    check_bounds(alloc, library, base, document)?;
    let home = Home {
        url: base,
        document,
    };
    Ok(linked(
        alloc,
        library,
        MOST_WORKFLOWS,
        home,
        &nothing_asked(),
        document.root().process,
    )?)
}

/// Checks the document with something empty in the place of each other one, and of each item that isn't there.
fn check_alone(alloc: Global, base: &Url, document: &Indexed) -> Result<(), LinkError>
    ensures ok { IfOk result
        (λ _. (n : ℕ) × (bounded_by alone base.now (view document.now.json) ≡ Ok n)) }
    ensures err { IfErr result (IsErrorOf (bounded_by alone base.now (view document.now.json))) }
{
    let library = Library::Any(Indexed::of(alloc, Value::Null)?);
    check_bounds(alloc, &library, base, document)
}

/// Checks that all that the document leads to is there, has no fault, and is within the bounds.
fn check_bounds(
    alloc: Global,
    library: &Library,
    base: &Url,
    document: &Indexed,
) -> Result<(), LinkError>
    ensures ok { IfOk result (λ _. (n : ℕ)
        × (bounded_by (leads_in library.now) base.now (view document.now.json) ≡ Ok n)) }
    ensures err { IfErr result
        (IsErrorOf (bounded_by (leads_in library.now) base.now (view document.now.json))) }
{
    let home = Home {
        url: base,
        document,
    };
    let root = document.root();
    match left(
        alloc,
        library,
        MOST_WORKFLOWS,
        MOST_PROCESSES,
        home,
        root.process,
    ) {
        Ok(_room) => Ok(()),
        Err(WalkError::Refused(fault)) => {
            Err(LinkError::Refused(told_of(alloc, base, root.index, fault)?))
        }
        Err(WalkError::OutOfMemory) => Err(LinkError::OutOfMemory),
    }
}

/// The document itself, where it has no fault.
fn own_document<'d>(
    alloc: Global,
    document: &'d Document,
    base: &Url,
) -> Result<&'d Indexed, LinkError>
    ensures ok { IfOk result (λ found. one.IsSound document.now (view found.now.json)) }
    ensures err { IfErr result (λ e. IsOwnError e document.now base.now) }
{
    match document.reading() {
        Reading::Sound(found) => Ok(found),
        Reading::Wrong(fault) => {
            let url = Text::from_text(alloc, url_text(base))?;
            Err(LinkError::Refused(LinkFault::Document(url, fault.clone_in(alloc)?)))
        }
    }
}

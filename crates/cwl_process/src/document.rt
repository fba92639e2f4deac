//! Whole documents: from bytes to a process, whose steps may name processes of other documents.
ghost use Rattle.std.specs.Prelude.{IfOk, IfErr};
ghost use Rattle.cwl_process.specs.Documents.{IsRefused, IsSound, IsUnlinked, item_fault, placed_together};
ghost use Rattle.document_table.specs.Packed.{placed_seen};
ghost use Rattle.std.specs.Prelude.{◌≡◌};
ghost use Rattle.serde_json.specs.View.{view};

use crate::acting::nothing_asked;
use crate::process::Process;
use crate::read_workflow::read_process;
use crate::together::process_fault;
use document_table::{
    DocumentError, DocumentFault, MOST_NESTING, Placed, in_item, placed_fault, read_document,
    root_of,
};
use serde_json::Value;
use std::alloc::{AllocError, Global};

/// The JSON of a document that has no fault of its own.
pub fn read_sound(alloc: Global, bytes: &[u8]) -> Result<Value, DocumentError>
    ensures ok { IfOk result (λ document. IsSound bytes.now (view document)) }
    ensures err { IfErr result (λ e. IsRefused e bytes.now) }
{
    let document = read_document(alloc, bytes)?;
    match placed_together(alloc, root_of(&document))? {
        Some(fault) => Err(DocumentError::Refused(fault)),
        None => Ok(document),
    }
}

/// What the fields of a process in its place say together that they may not.
fn placed_together(alloc: Global, placed: Placed<'_>) -> Result<Option<DocumentFault>, AllocError>
    ensures { IfOk result (λ found. found ≡ placed_together (placed_seen placed.entry)) }
{
    match process_fault(alloc, MOST_NESTING, placed.process)? {
        None => Ok(None),
        Some(fault) => Ok(Some(in_item(alloc, placed.index, fault)?)),
    }
}

/// Returns what is wrong first with an item of a document, where something is.
pub fn item_fault(alloc: Global, placed: Placed<'_>) -> Result<Option<DocumentFault>, AllocError>
    ensures { IfOk result (λ found. found ≡ item_fault (placed_seen placed.entry)) }
{
    match placed_fault(alloc, placed)? {
        Some(fault) => Ok(Some(fault)),
        None => placed_together(alloc, placed),
    }
}

/// The process that a document represents, before the processes that its steps name are put in their
/// place.
#[tactic(auto, using(crate::proofs::Forms::document_is_process))]
pub fn read_unlinked(alloc: Global, bytes: &[u8]) -> Result<Process, DocumentError>
    ensures ok { IfOk result (λ process. IsUnlinked bytes.now process) }
    ensures err { IfErr result (λ e. IsRefused e bytes.now) }
{
    let document = read_sound(alloc, bytes)?;
    let root = root_of(&document);
    Ok(read_process(alloc, MOST_NESTING, &nothing_asked(), root.process)?)
}

//! Whole documents: from bytes to the JSON of a document that keeps to the table.
ghost use Rattle.std.specs.Prelude.{◌≡◌, None, IfOk, IfErr};
ghost use Rattle.serde_json.specs.View.{view};
ghost use Rattle.document_table.specs.Documents.{IsDocument, IsJson, IsRefused, first_fault, table_fault};

use crate::depth::nests_within;
use crate::fault::{Cause, DocumentError, DocumentFault, here};
use crate::form::Form;
use crate::packed::{is_packed, packed_fault};
use crate::walk::fault_in;
use serde_json::{Category, Value};
use std::alloc::{AllocError, Global};

/// How deep a document's JSON may nest.
pub const MOST_NESTING: usize = 100;

/// The JSON of a document that keeps to the table of fields.
pub fn read_document(alloc: Global, bytes: &[u8]) -> Result<Value, DocumentError>
    ensures ok { IfOk result (λ document. IsDocument bytes.now (view document)) }
    ensures err { IfErr result (λ e. IsRefused e bytes.now) }
{
    let document = parse(alloc, bytes)?;
    match first_fault(alloc, &document)? {
        None => Ok(document),
        Some(fault) => Err(DocumentError::Refused(fault)),
    }
}

/// What is wrong with a document first, where something is.
pub fn first_fault(alloc: Global, document: &Value) -> Result<Option<DocumentFault>, AllocError>
    ensures { IfOk result (λ found. found ≡ first_fault (view document.now)) }
{
    if !nests_within(document, MOST_NESTING) {
        return Ok(Some(here(alloc, Cause::TooDeep)));
    }
    table_fault(alloc, document)
}

/// What the table says of a document, packed or not.
fn table_fault(alloc: Global, document: &Value) -> Result<Option<DocumentFault>, AllocError>
    ensures { IfOk result (λ found. found ≡ table_fault (view document.now)) }
{
    if is_packed(document) {
        return packed_fault(alloc, document);
    }
    fault_in(alloc, Form::Document, document)
}

fn parse(alloc: Global, bytes: &[u8]) -> Result<Value, DocumentError>
    ensures ok { IfOk result (λ document. IsJson bytes.now (view document)) }
    ensures err { IfErr result (λ e. IsRefused e bytes.now) }
{
    match Value::from_slice(alloc, bytes) {
        Ok(document) => Ok(document),
        Err(error) => match error.classify() {
            Category::Memory => Err(DocumentError::OutOfMemory),
            _ => Err(DocumentError::Refused(here(alloc, Cause::NotJson))),
        },
    }
}

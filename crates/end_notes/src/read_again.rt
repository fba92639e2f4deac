//! What is said of a document that is refused for its links or its locations, which is read again.

use crate::link_notes::link_lines;
use crate::location_notes::step_document_lines;
use document_links::{Document, Process, read_process};
use plain_data::Items;
use process_machine::World;
use run_given::{Call, base_of, bytes_of_file, reached_from};
use std::alloc::AllocError;
use std::mem;
use url::Url;
use workflow_check::LinkCheckFault;

/// Returns lines on a fault of the links of the process that was called for, whose document is read again; none if that can't be read now.
pub fn links_again<R: World>(
    rt: &R,
    call: &Call<'_>,
    fault: &LinkCheckFault,
) -> Result<Vec<String>, AllocError> {
    match process_again(rt, call) {
        Some(process) => {
            let lines = link_lines(rt.alloc(), &process, fault);
            mem::drop(process);
            lines
        }
        None => Ok(Vec::new(rt.alloc())),
    }
}

/// Returns a line on a step's document whose URL is no file's; none if the document can't be read now.
pub fn locations_again<R: World>(rt: &R, call: &Call<'_>) -> Result<Vec<String>, AllocError> {
    let Some(base) = base_of(rt.alloc(), call.here, call.words.document).ok() else {
        return Ok(Vec::new(rt.alloc()));
    };
    match document_again(rt, call) {
        Some(document) => {
            let lines = step_document_lines(rt.alloc(), &document, &base);
            mem::drop(document);
            mem::drop(base);
            lines
        }
        None => Ok(Vec::new(rt.alloc())),
    }
}

fn document_again<R: World>(rt: &R, call: &Call<'_>) -> Option<Document> {
    let bytes = bytes_of_file(rt, call.words.document).ok()?;
    Document::read(rt.alloc(), Items::from_vec(bytes)).ok()
}

fn process_again<R: World>(rt: &R, call: &Call<'_>) -> Option<Process> {
    let base = base_of(rt.alloc(), call.here, call.words.document).ok()?;
    match document_again(rt, call) {
        Some(document) => {
            let process = linked_again(rt, &document, &base);
            mem::drop(document);
            mem::drop(base);
            process
        }
        None => None,
    }
}

fn linked_again<R: World>(rt: &R, document: &Document, base: &Url) -> Option<Process> {
    let reached = reached_from(rt, document, base).ok()?;
    let read = read_process(rt.alloc(), document, base, &reached.docs);
    mem::drop(reached);
    read.ok()
}

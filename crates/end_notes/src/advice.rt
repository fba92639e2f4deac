//! What would do when a document or an input object is refused.

use crate::location_notes::input_lines;
use crate::near_names::near_lines;
use crate::read_again::{links_again, locations_again};
use crate::refused_inputs::refused_line;
use crate::wrong_form::form_lines;
use cwl_value::{FileField, ValueRefusal};
use document_links::LinkFault;
use document_table::{Cause, DocumentFault};
use end_words::{Exit, Refusal};
use process_machine::World;
use run_facts::words_for;
use run_given::{Call, bytes_of_file, file_of, path_at};
use std::alloc::{AllocError, Global};

const NOT_MET: &str =
    "what is not met can't be required: in `hints` in place of `requirements` it is ignored";

const LITERAL: &str =
    "a File or Directory is given by its `location` or `path`; one of `contents` or `listing` alone is not taken";

/// Returns lines on the refusal of what a call names: where a text stops being JSON and what it looks like, and what would do. If memory runs
/// out there are none.
pub fn advice_on<R: World>(rt: &R, exit: &Exit, call: &Call<'_>) -> Vec<String> {
    match lines_on(rt, exit, call) {
        Ok(lines) => lines,
        Err(AllocError) => Vec::new(rt.alloc()),
    }
}

fn lines_on<R: World>(rt: &R, exit: &Exit, call: &Call<'_>) -> Result<Vec<String>, AllocError> {
    match exit {
        Exit::Refused(Refusal::Document(LinkFault::Document(url, fault))) => {
            match path_at(rt.alloc(), url)? {
                Some(path) => fault_lines(rt, path.as_str(), fault),
                None => Ok(Vec::new(rt.alloc())),
            }
        }
        Exit::Refused(Refusal::Links(fault)) => links_again(rt, call, fault),
        Exit::Refused(Refusal::Inputs(refusal)) => {
            inputs_lines(rt, *refusal, file_of(call.words.inputs))
        }
        Exit::Refused(Refusal::Location(_)) => location_lines(rt, call),
        _ => Ok(Vec::new(rt.alloc())),
    }
}

fn fault_lines<R: World>(
    rt: &R,
    path: &str,
    fault: &DocumentFault,
) -> Result<Vec<String>, AllocError> {
    match fault.cause {
        Cause::NotJson => text_lines(rt, path),
        Cause::WrongForm => match bytes_of_file(rt, path) {
            Ok(bytes) => form_lines(rt.alloc(), bytes.as_slice(), fault.outward.as_slice()),
            Err(_) => Ok(Vec::new(rt.alloc())),
        },
        Cause::UnknownField => match bytes_of_file(rt, path) {
            Ok(bytes) => near_lines(rt.alloc(), bytes.as_slice(), fault.outward.as_slice()),
            Err(_) => Ok(Vec::new(rt.alloc())),
        },
        Cause::UnknownRequirement => line(rt.alloc(), NOT_MET),
        _ => Ok(Vec::new(rt.alloc())),
    }
}

// The first line says why the input object is refused and where, so that it stands in place of the words.
fn inputs_lines<R: World>(
    rt: &R,
    refusal: ValueRefusal,
    inputs: Option<&str>,
) -> Result<Vec<String>, AllocError> {
    let Some(file) = inputs else {
        return Ok(Vec::new(rt.alloc()));
    };
    match bytes_of_file(rt, file) {
        Ok(bytes) => refused_lines(rt.alloc(), refusal, bytes.as_slice(), file),
        Err(_) => Ok(Vec::new(rt.alloc())),
    }
}

// The location is the document's, of one of its steps, or else one of the inputs.
fn location_lines<R: World>(rt: &R, call: &Call<'_>) -> Result<Vec<String>, AllocError> {
    let lines = locations_again(rt, call)?;
    match file_of(call.words.inputs) {
        Some(file) if lines.is_empty() => match bytes_of_file(rt, file) {
            Ok(bytes) => input_lines(rt.alloc(), bytes.as_slice()),
            Err(_) => Ok(Vec::new(rt.alloc())),
        },
        _ => Ok(lines),
    }
}

fn refused_lines(
    alloc: Global,
    refusal: ValueRefusal,
    bytes: &[u8],
    file: &str,
) -> Result<Vec<String>, AllocError> {
    let mut lines = line(alloc, refused_line(alloc, refusal, bytes, file)?.as_str())?;
    match refusal {
        ValueRefusal::NotJson => lines.push(words_for(alloc, bytes)?)?,
        ValueRefusal::BadFile(FileField::Location) => {
            lines.push(String::from_str(alloc, LITERAL)?)?
        }
        _ => {}
    }
    Ok(lines)
}

// What the text of a file looks like that is no JSON.
fn text_lines<R: World>(rt: &R, path: &str) -> Result<Vec<String>, AllocError> {
    match bytes_of_file(rt, path) {
        Ok(bytes) => line(
            rt.alloc(),
            words_for(rt.alloc(), bytes.as_slice())?.as_str(),
        ),
        Err(_) => Ok(Vec::new(rt.alloc())),
    }
}

/// One line.
pub fn line(alloc: Global, words: &str) -> Result<Vec<String>, AllocError> {
    let mut lines = Vec::new(alloc);
    lines.push(String::from_str(alloc, words)?)?;
    Ok(lines)
}

//! What is said of a location that is no file's of this machine.

use crate::advice::line;
use cwl_value::{Place, Value, read_value};
use document_links::{Document, LinkError, needed_docs};
use file_values::{FileError, location_to_path};
use plain_data::Text;
use std::alloc::{AllocError, Global};
use std::mem;
use url::Url;

/// Stands for the file of the inputs: what is told is the same of each.
const ANY_FILE: &str = "file:///folder/inputs.json";

/// Returns a line on the first location of an input object that names no file.
pub fn input_lines(alloc: Global, inputs: &[u8]) -> Result<Vec<String>, AllocError> {
    match (read_value(alloc, inputs), Url::parse(alloc, ANY_FILE)) {
        (Ok(inputs), Ok(base)) => {
            let lines = lines_in(alloc, &inputs, &base);
            mem::drop(inputs);
            lines
        }
        _ => Ok(Vec::new(alloc)),
    }
}

fn lines_in(alloc: Global, inputs: &Value, base: &Url) -> Result<Vec<String>, AllocError> {
    let Value::Fields(fields) = inputs else {
        return Ok(Vec::new(alloc));
    };
    for (name, value) in fields.as_slice() {
        if let Some(location) = bad_location(alloc, value, base)? {
            let why = why_not(location);
            return line(
                alloc,
                format!(in alloc; "`{name}` has the location {location}{why}")?.as_str(),
            );
        }
    }
    Ok(Vec::new(alloc))
}

// The first location in a value that names no file.
#[cycle(locations)]
fn bad_location<'a>(
    alloc: Global,
    value: &'a Value,
    base: &Url,
) -> Result<Option<&'a Text>, AllocError> {
    match value {
        Value::FileVal(file) => bad_place(alloc, &file.place, base),
        Value::DirVal(folder) => bad_place(alloc, &folder.place, base),
        Value::List(items) => bad_in_items(alloc, items.as_slice(), base),
        _ => Ok(None),
    }
}

#[cycle(locations)]
fn bad_in_items<'a>(
    alloc: Global,
    items: &'a [Value],
    base: &Url,
) -> Result<Option<&'a Text>, AllocError> {
    for item in items {
        if let Some(location) = bad_location(alloc, item, base)? {
            return Ok(Some(location));
        }
    }
    Ok(None)
}

fn bad_place<'a>(
    alloc: Global,
    place: &'a Place,
    base: &Url,
) -> Result<Option<&'a Text>, AllocError> {
    match place {
        Place::Url(location) if !names_file(alloc, location.as_str(), base)? => Ok(Some(location)),
        _ => Ok(None),
    }
}

fn names_file(alloc: Global, location: &str, base: &Url) -> Result<bool, AllocError> {
    match location_to_path(alloc, location, base) {
        Ok(_) => Ok(true),
        Err(FileError::Refused(_)) => Ok(false),
        Err(FileError::OutOfMemory) => Err(AllocError),
    }
}

// What would do in place of a location.
fn why_not(location: &Text) -> &'static str {
    match location.as_str().split_once(':') {
        Some((scheme, _)) if is_foreign(scheme) => {
            ": only files of this machine are taken, so that others have to be fetched first"
        }
        _ => {
            ": `path` has a name as it is, and a location `%23` for `#`, `%3F` for `?` and `%25` for `%`"
        }
    }
}

fn is_foreign(scheme: &str) -> bool {
    scheme != "file"
        && !scheme.is_empty()
        && scheme
            .as_bytes()
            .iter()
            .all(|byte| byte.is_ascii_alphanumeric())
}

/// Returns a line on the first document that a step of a document names, and whose URL is no file's.
pub fn step_document_lines(
    alloc: Global,
    document: &Document,
    base: &Url,
) -> Result<Vec<String>, AllocError> {
    match needed_docs(alloc, document, base) {
        Ok(urls) => first_foreign(alloc, urls.as_slice(), base),
        Err(LinkError::Refused(_)) => Ok(Vec::new(alloc)),
        Err(LinkError::OutOfMemory) => Err(AllocError),
    }
}

fn first_foreign(alloc: Global, urls: &[Text], base: &Url) -> Result<Vec<String>, AllocError> {
    for url in urls {
        if !names_file(alloc, url.as_str(), base)? {
            let why = why_not(url);
            return line(
                alloc,
                format!(in alloc; "a step names the document {url}{why}")?.as_str(),
            );
        }
    }
    Ok(Vec::new(alloc))
}

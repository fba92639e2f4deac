//! Reads the documents of rows, and answers `ok` or what is wrong with them first.
use document_table::{DocumentError, DocumentFault, read_document};
use std::alloc::{AllocError, Global};
use test_rows::{Row, RowFault, json_text};

/// What is read of the row's `document`, which is JSON, or of its `text`, which has any bytes.
pub(crate) fn read(alloc: Global, row: &Row) -> Result<String, RowFault> {
    let text = match row.find("document") {
        Some(json) => json_text(alloc, json)?,
        None => String::from_str(alloc, row.text("text")?)?,
    };
    answer(alloc, text.as_str())
}

/// What is read of `levels` lists inside one another.
pub(crate) fn read_nested_list(alloc: Global, row: &Row) -> Result<String, RowFault> {
    let text = nested_list(alloc, row.natural("levels")?)?;
    answer(alloc, text.as_str())
}

fn nested_list(alloc: Global, levels: u64) -> Result<String, AllocError> {
    let mut text = String::new(alloc);
    for _ in 0..levels {
        text.push('[')?;
    }
    for _ in 0..levels {
        text.push(']')?;
    }
    Ok(text)
}

/// How many bytes the row's `text` has, and how many of its strict prefixes are refused otherwise than as no JSON, or not at all.
pub(crate) fn read_prefixes(alloc: Global, row: &Row) -> Result<String, RowFault> {
    let text = row.text("text")?.as_bytes();
    let mut others: u64 = 0;
    for end in 0..text.len() {
        if !is_no_json(alloc, &text[..end])? {
            others = others.saturating_add(1);
        }
    }
    Ok(format!(in alloc; "[{},{others}]", text.len())?)
}

fn is_no_json(alloc: Global, text: &[u8]) -> Result<bool, RowFault> {
    match read_document(alloc, text) {
        Err(DocumentError::Refused(fault)) => Ok(fault.code() == "C1"),
        Err(DocumentError::OutOfMemory) => Err(RowFault::OutOfMemory),
        Ok(_) => Ok(false),
    }
}

fn answer(alloc: Global, text: &str) -> Result<String, RowFault> {
    let found = read_document(alloc, text.as_bytes());
    match &found {
        Ok(_) => Ok(String::from_str(alloc, "ok")?),
        Err(DocumentError::Refused(fault)) => Ok(told(alloc, fault)?),
        Err(DocumentError::OutOfMemory) => Err(RowFault::OutOfMemory),
    }
}

/// The code of a fault, and its place and cause in words.
pub(crate) fn told(alloc: Global, fault: &DocumentFault) -> Result<String, AllocError> {
    format!(in alloc; "{} {fault}", fault.code())
}

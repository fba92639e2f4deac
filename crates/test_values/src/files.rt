use crate::names::pair;
use crate::values::{coded, value_of};
use cwl_value::{FileVal, Place, Value};
use file_values::{FileError, location_to_path, path_to_location, resolve, there_and_back};
use plain_data::Text;
use std::alloc::Global;
use test_rows::{Row, RowFault, quoted};
use url::Url;

// What locations are joined to.
const BASE: &str = "file:///d/in.json";

pub(crate) fn answer(alloc: Global, row: &Row) -> Result<String, RowFault> {
    match row.call() {
        "location_to_path" => path(alloc, row),
        "path_to_location" => location(alloc, row),
        "there_and_back" => back(alloc, row),
        "resolve" => resolved(alloc, row),
        _ => Err(RowFault::UnknownCall),
    }
}

fn base(alloc: Global) -> Result<Url, RowFault> {
    Url::parse(alloc, BASE).map_err(|_refusal| RowFault::OutOfMemory)
}

fn path(alloc: Global, row: &Row) -> Result<String, RowFault> {
    let location = row.text("location")?;
    let base = base(alloc)?;
    found(alloc, &location_to_path(alloc, location, &base))
}

fn back(alloc: Global, row: &Row) -> Result<String, RowFault> {
    let path = row.text("path")?;
    let base = base(alloc)?;
    found(alloc, &there_and_back(alloc, path, &base))
}

fn found(alloc: Global, path: &Result<String, FileError>) -> Result<String, RowFault> {
    match path {
        Ok(path) => quoted(alloc, path.as_str()),
        Err(error) => coded(alloc, code_of(error)),
    }
}

fn location(alloc: Global, row: &Row) -> Result<String, RowFault> {
    let location = path_to_location(alloc, row.text("path")?)?;
    quoted(alloc, location.as_str())
}

fn resolved(alloc: Global, row: &Row) -> Result<String, RowFault> {
    let base = base(alloc)?;
    let value = value_of(alloc, row, "value")?;
    let found = resolve(alloc, value, &base);
    match &found {
        Ok(value) => listed(alloc, value),
        Err(error) => coded(alloc, code_of(error)),
    }
}

pub(crate) fn code_of(error: &FileError) -> &'static str {
    match error {
        FileError::Refused(fault) => fault.code(),
        FileError::OutOfMemory => "memory",
    }
}

// The path and the name of each File of a list.
fn listed(alloc: Global, value: &Value) -> Result<String, RowFault> {
    let Value::List(items) = value else {
        return Err(RowFault::BadArgument);
    };
    let mut text = String::new(alloc);
    for file in items.as_slice() {
        push_file(alloc, &mut text, file)?;
    }
    Ok(format!(in alloc; "[{text}]")?)
}

fn push_file(alloc: Global, text: &mut String, value: &Value) -> Result<(), RowFault> {
    let Value::FileVal(file) = value else {
        return Err(RowFault::BadArgument);
    };
    if !text.is_empty() {
        text.push(',')?;
    }
    let shown = pair(alloc, path_of(file), name_of(&file.basename))?;
    text.push_str(shown.as_str())?;
    Ok(())
}

fn path_of(file: &FileVal) -> &str {
    match &file.place {
        Place::Path(path) => path.as_str(),
        _ => "",
    }
}

fn name_of(name: &Option<Text>) -> &str {
    match name {
        Some(name) => name.as_str(),
        None => "",
    }
}

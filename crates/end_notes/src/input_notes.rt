//! What is said of an input of the process itself that does not fit, or whose file, or a file beside that, is not there.

use crate::advice::line;
use cwl_process::SecondaryFile;
use cwl_value::{FileVal, Place, Value};
use document_links::Process;
use file_values::secondary_name;
use plain_data::Text;
use proc_host::Entry;
use run_facts::{find_in, input_type, kind_of, measure_of};
use run_given::Given;
use staging::Measure;
use std::alloc::{AllocError, Global};

/// Returns a line on an input that is not of its type: what it is, and what it has to be.
pub fn misfit_lines(alloc: Global, given: &Given, input: &Text) -> Result<Vec<String>, AllocError> {
    let Some(kind) = input_type(alloc, &given.process, input.as_str())? else {
        return Ok(Vec::new(alloc));
    };
    let words = match value_of(given, input.as_str()) {
        None | Some(Value::Null) => {
            format!(in alloc; "the input object has no `{input}`, which has to be {kind}")?
        }
        Some(value) => {
            let what = kind_of(value);
            format!(in alloc; "`{input}` is {what}, and has to be {kind}")?
        }
    };
    line(alloc, words.as_str())
}

// The value of an input, or the default in place of null.
fn value_of<'a>(given: &'a Given, input: &str) -> Option<&'a Value> {
    match given.inputs.get(input) {
        None | Some(Value::Null) => match &given.process {
            Process::Tool(tool) => find_in(tool.inputs.as_slice(), input)?.default.as_ref(),
            Process::Workflow(workflow) => {
                find_in(workflow.inputs.as_slice(), input)?.default.as_ref()
            }
        },
        value => value,
    }
}

/// Returns a line on the first file of an input that is not there.
pub fn missing_lines(
    alloc: Global,
    log: &[Entry],
    given: &Given,
    input: &Text,
) -> Result<Vec<String>, AllocError> {
    match value_of(given, input.as_str()) {
        Some(Value::List(values)) => first_lines(alloc, log, values.as_slice()),
        Some(value) => lines_of(alloc, log, value),
        None => Ok(Vec::new(alloc)),
    }
}

/// Returns a line on the first file that has to be beside one of an input, and is not there.
pub fn secondary_lines(
    alloc: Global,
    log: &[Entry],
    given: &Given,
    input: &Text,
) -> Result<Vec<String>, AllocError> {
    let Some(declared) = declared_for(&given.process, input.as_str()) else {
        return Ok(Vec::new(alloc));
    };
    match value_of(given, input.as_str()) {
        Some(Value::List(values)) => first_beside(alloc, log, declared, values.as_slice()),
        Some(value) => beside_lines(alloc, log, declared, value),
        None => Ok(Vec::new(alloc)),
    }
}

// The files that an input of the process declares beside its own.
fn declared_for<'a>(process: &'a Process, input: &str) -> Option<&'a [SecondaryFile]> {
    match process {
        Process::Tool(tool) => match find_in(tool.inputs.as_slice(), input) {
            Some(found) => Some(found.secondary_files.as_slice()),
            None => None,
        },
        Process::Workflow(workflow) => match find_in(workflow.inputs.as_slice(), input) {
            Some(found) => Some(found.secondary_files.as_slice()),
            None => None,
        },
    }
}

fn first_beside(
    alloc: Global,
    log: &[Entry],
    declared: &[SecondaryFile],
    values: &[Value],
) -> Result<Vec<String>, AllocError> {
    for value in values {
        let lines = beside_lines(alloc, log, declared, value)?;
        if !lines.is_empty() {
            return Ok(lines);
        }
    }
    Ok(Vec::new(alloc))
}

fn beside_lines(
    alloc: Global,
    log: &[Entry],
    declared: &[SecondaryFile],
    value: &Value,
) -> Result<Vec<String>, AllocError> {
    let Value::FileVal(file) = value else {
        return Ok(Vec::new(alloc));
    };
    for one in declared {
        let lines = one_beside_lines(alloc, log, one, file)?;
        if !lines.is_empty() {
            return Ok(lines);
        }
    }
    Ok(Vec::new(alloc))
}

fn one_beside_lines(
    alloc: Global,
    log: &[Entry],
    declared: &SecondaryFile,
    file: &FileVal,
) -> Result<Vec<String>, AllocError> {
    let (Place::Path(path), Some(basename)) = (&file.place, &file.basename) else {
        return Ok(Vec::new(alloc));
    };
    let name = secondary_name(alloc, declared.pattern.as_str(), basename.as_str())?;
    let beside = path_beside(alloc, path.as_str(), name.as_str())?;
    if declared.required && matches!(measure_of(log, beside.as_str()), Some(Measure::Absent)) {
        let line_of_it = format!(in alloc; "there is no file {beside} beside {path}")?;
        return line(alloc, line_of_it.as_str());
    }
    Ok(Vec::new(alloc))
}

// The path of a name in the folder of another path.
fn path_beside(alloc: Global, path: &str, name: &str) -> Result<String, AllocError> {
    match path.rfind('/') {
        Some(at) => {
            let folder = &path[..at];
            format!(in alloc; "{folder}/{name}")
        }
        None => String::from_str(alloc, name),
    }
}

fn first_lines(alloc: Global, log: &[Entry], values: &[Value]) -> Result<Vec<String>, AllocError> {
    for value in values {
        let lines = lines_of(alloc, log, value)?;
        if !lines.is_empty() {
            return Ok(lines);
        }
    }
    Ok(Vec::new(alloc))
}

fn lines_of(alloc: Global, log: &[Entry], value: &Value) -> Result<Vec<String>, AllocError> {
    match value {
        Value::FileVal(file) => file_lines(alloc, log, file),
        Value::DirVal(folder) => folder_lines(alloc, log, &folder.place),
        _ => Ok(Vec::new(alloc)),
    }
}

fn file_lines(alloc: Global, log: &[Entry], file: &FileVal) -> Result<Vec<String>, AllocError> {
    let Place::Path(path) = &file.place else {
        return Ok(Vec::new(alloc));
    };
    match measure_of(log, path.as_str()) {
        Some(Measure::Absent) => line(
            alloc,
            format!(in alloc; "there is no file {path}")?.as_str(),
        ),
        Some(Measure::Folder(_)) => line(alloc, format!(in alloc; "{path} is a folder")?.as_str()),
        _ => Ok(Vec::new(alloc)),
    }
}

fn folder_lines(alloc: Global, log: &[Entry], place: &Place) -> Result<Vec<String>, AllocError> {
    let Place::Path(path) = place else {
        return Ok(Vec::new(alloc));
    };
    match measure_of(log, path.as_str()) {
        Some(Measure::Absent) => {
            line(
                alloc,
                format!(in alloc; "there is no folder {path}")?.as_str(),
            )
        }
        Some(Measure::File { size: _, sum: _ }) => {
            line(alloc, format!(in alloc; "{path} is a file")?.as_str())
        }
        _ => Ok(Vec::new(alloc)),
    }
}

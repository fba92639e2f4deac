//! The files beside an input's Files.
ghost use Rattle.std.specs.Prelude.{◌≡◌, ◌++◌, IfOk, OnOk, map, not};
ghost use Rattle.std.specs.List.{flat_map, list_any};
ghost use Rattle.input_files.specs.Given.{with_file};
ghost use Rattle.input_files.specs.Beside as spec;

use crate::files::items_of;
use crate::listing::{measured_dir, measured_file, values_below};
use crate::names::{beside, is_name, last_of};
use cwl_process::SecondaryFile;
use cwl_value::{FileVal, Place, Value, is_taken, items_by_value};
use file_values::secondary_name;
use plain_data::{Items, Keyed, Text};
use staging::Measure;
use std::alloc::{AllocError, Global};

/// Adds the paths at which the files are looked for that the Files of a value lack.
pub(crate) fn push_looked_for(
    alloc: Global,
    declared: &[SecondaryFile],
    value: &Value,
    paths: &mut Items<Text>,
) -> Result<(), AllocError>
    ensures { OnOk result (paths.new ≡ paths.old ++ spec.looked_for declared.now value.now) }
{
    for item in items_of(value) {
        if let Value::FileVal(file) = item {
            push_lacked(alloc, declared, file, paths)?;
        }
    }
    Ok(())
}

fn push_lacked(
    alloc: Global,
    declared: &[SecondaryFile],
    file: &FileVal,
    paths: &mut Items<Text>,
) -> Result<(), AllocError>
    ensures { OnOk result (paths.new ≡ paths.old
        ++ flat_map (λ one. spec.looked_for_at (spec.lacked file.now one)) declared.now) }
{
    for one in declared {
        push_if_named(lacked(alloc, file, one)?, paths)?;
    }
    Ok(())
}

fn push_if_named(names: Option<(Text, Text)>, paths: &mut Items<Text>) -> Result<(), AllocError>
    ensures { OnOk result (paths.new ≡ paths.old ++ spec.looked_for_at names) }
{
    match names {
        Some((name, path)) => {
            if is_name(name.as_str()) {
                paths.push(path)?;
            }
            Ok(())
        }
        None => Ok(()),
    }
}

/// Whether a File of the value lacks a file that has to be there, and that is absent.
pub(crate) fn lacks_required(
    alloc: Global,
    measures: &Keyed<Measure>,
    declared: &[SecondaryFile],
    value: &Value,
) -> Result<bool, AllocError>
    ensures { IfOk result (λ lacks. lacks
        ≡ spec.lacks_required measures.now declared.now value.now) }
{
    for item in items_of(value) {
        if let Value::FileVal(file) = item {
            if file_lacks(alloc, measures, declared, file)? {
                return Ok(true);
            }
        }
    }
    Ok(false)
}

fn file_lacks(
    alloc: Global,
    measures: &Keyed<Measure>,
    declared: &[SecondaryFile],
    file: &FileVal,
) -> Result<bool, AllocError>
    ensures { IfOk result (λ lacks. lacks
        ≡ list_any (spec.is_absent measures.now file.now) declared.now) }
{
    for one in declared {
        if is_absent(alloc, measures, file, one)? {
            return Ok(true);
        }
    }
    Ok(false)
}

fn is_absent(
    alloc: Global,
    measures: &Keyed<Measure>,
    file: &FileVal,
    declared: &SecondaryFile,
) -> Result<bool, AllocError>
    ensures { IfOk result (λ absent. absent ≡ spec.is_absent measures.now file.now declared.now) }
{
    if !declared.required {
        return Ok(false);
    }
    match lacked(alloc, file, declared)? {
        None => Ok(false),
        Some(names) => Ok(!is_found(measures, &names)),
    }
}

fn is_found(measures: &Keyed<Measure>, names: &(Text, Text)) -> bool
    ensures { result ≡ not (spec.has_none (spec.found_at measures.now names.now)) }
{
    is_name(names.0.as_str())
        && matches!(
            measures.get(names.1.as_str()),
            Some(Measure::File { .. } | Measure::Folder(_))
        )
}

/// The value, each File with the files beside it that were found.
pub(crate) fn all_beside(
    alloc: Global,
    measures: &Keyed<Measure>,
    declared: &[SecondaryFile],
    value: Value,
) -> Result<Value, AllocError>
    ensures { IfOk result (λ v. v ≡ spec.all_beside measures.now declared.now value) }
{
    match value {
        Value::List(items) => {
            let items = items_by_value(alloc, items)?;
            Ok(Value::of_items(items_beside(alloc, measures, declared, items)?))
        }
        other => one_beside(alloc, measures, declared, other),
    }
}

fn items_beside(
    alloc: Global,
    measures: &Keyed<Measure>,
    declared: &[SecondaryFile],
    values: Items<Value>,
) -> Result<Items<Value>, AllocError>
    ensures { IfOk result (λ vs. vs ≡ map (with_file (spec.file_beside measures.now declared.now))
        values) }
{
    let mut found = Items::from_vec(Vec::with_capacity(alloc, values.len())?);
    for value in values.into_vec() {
        found.push(one_beside(alloc, measures, declared, value)?)?;
    }
    Ok(found)
}

fn one_beside(
    alloc: Global,
    measures: &Keyed<Measure>,
    declared: &[SecondaryFile],
    value: Value,
) -> Result<Value, AllocError>
    ensures { IfOk result (λ v. v ≡ with_file (spec.file_beside measures.now declared.now) value) }
{
    match value {
        Value::FileVal(file) => Ok(Value::FileVal(file_beside(alloc, measures, declared, file)?)),
        other => Ok(other),
    }
}

fn file_beside(
    alloc: Global,
    measures: &Keyed<Measure>,
    declared: &[SecondaryFile],
    file: FileVal,
) -> Result<FileVal, AllocError>
    ensures { IfOk result (λ f. f ≡ spec.file_beside measures.now declared.now file) }
{
    let mut file = file;
    for one in declared {
        add_one(alloc, measures, &mut file, one)?;
    }
    Ok(file)
}

// Adds the file that the File lacks, where that was found.
fn add_one(
    alloc: Global,
    measures: &Keyed<Measure>,
    file: &mut FileVal,
    declared: &SecondaryFile,
) -> Result<(), AllocError>
    ensures { OnOk result (file.new ≡ spec.with_one measures.now file.old declared.now) }
{
    match lacked(alloc, file, declared)? {
        None => Ok(()),
        Some(names) => push_found(alloc, measures, &names, &mut file.secondary),
    }
}

fn push_found(
    alloc: Global,
    measures: &Keyed<Measure>,
    names: &(Text, Text),
    values: &mut Items<Value>,
) -> Result<(), AllocError>
    ensures { OnOk result (values.new ≡ values.old ++ spec.found_at measures.now names.now) }
{
    let (name, path) = (names.0.as_str(), names.1.as_str());
    if !is_name(name) {
        return Ok(());
    }
    match measures.get(path) {
        Some(Measure::File { size, sum }) => {
            values.push(measured_file(alloc, path, name, *size, sum)?)
        }
        Some(Measure::Folder(listing)) => {
            let inside = values_below(alloc, path, listing)?;
            values.push(measured_dir(alloc, path, name, inside)?)
        }
        _ => Ok(()),
    }
}

// The name that the File lacks, and its path; none where it carries a file of that name.
fn lacked(
    alloc: Global,
    file: &FileVal,
    declared: &SecondaryFile,
) -> Result<Option<(Text, Text)>, AllocError>
    ensures { IfOk result (λ names. names ≡ spec.lacked file.now declared.now) }
{
    let Place::Path(path) = &file.place else {
        return Ok(None);
    };
    let name = name_beside(alloc, file, path.as_str(), declared)?;
    if carries(file, &name) {
        return Ok(None);
    }
    let beside = beside(alloc, path.as_str(), name.as_str())?;
    Ok(Some((name, beside)))
}

/// The name that the pattern gives.
pub(crate) fn name_beside(
    alloc: Global,
    file: &FileVal,
    path: &str,
    declared: &SecondaryFile,
) -> Result<Text, AllocError>
    ensures { IfOk result (λ name. name ≡ spec.name_beside file.now path.now declared.now) }
{
    let primary = match &file.basename {
        None => last_of(path),
        Some(name) => name.as_str(),
    };
    Ok(Text::from_string(secondary_name(alloc, declared.pattern.as_str(), primary)?))
}

/// Whether the File, or one that it carries, has this name.
pub(crate) fn carries(file: &FileVal, name: &Text) -> bool
    ensures { result ≡ spec.carries file.now name.now }
{
    let is_primary = match &file.basename {
        None => false,
        Some(own) => own.equals(name),
    };
    is_primary || is_taken(name, file.secondary.as_slice())
}

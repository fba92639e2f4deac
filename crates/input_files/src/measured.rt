//! Values whose Files and Directories are as they were measured.
ghost use Rattle.std.specs.Prelude.{◌≡◌, IfOk, map};
ghost use Rattle.plain_data.specs.ByName.{map_values};
ghost use Rattle.cwl_value.specs.declared.value.FileVal.{out-FileVal};
ghost use Rattle.input_files.specs.Measured as spec;

use crate::listing::{checksum_of, values_below};
use crate::present::are_present;
use crate::there::measure_at;
use cwl_value::{DirVal, FileVal, Place, Value};
use plain_data::{Items, Keyed, Text, copied_if_any};
use staging::Measure;
use std::alloc::{AllocError, Global};

/// A copy of the value, as the input object or a default has it, in which each File and Directory is as it was measured.
/// What is absent has no sum and no listing.
#[cycle(measured)]
pub fn as_measured(
    alloc: Global,
    measures: &Keyed<Measure>,
    value: &Value,
) -> Result<Value, AllocError>
    ensures { IfOk result (λ v. v ≡ spec.as_measured measures.now value.now) }
{
    match value {
        Value::Null => Ok(Value::Null),
        Value::Bool(flag) => Ok(Value::Bool(*flag)),
        Value::Whole(number) => Ok(Value::Whole(*number)),
        Value::Text(text) => Ok(Value::Text(text.copied(alloc)?)),
        Value::FileVal(file) => Ok(Value::FileVal(measured_file(alloc, measures, file)?)),
        Value::DirVal(dir) => Ok(Value::DirVal(measured_dir(alloc, measures, dir)?)),
        Value::List(items) => Ok(Value::of_items(measured_items(
            alloc,
            measures,
            items.as_items(),
        )?)),
        Value::Fields(fields) => Ok(Value::Fields(measured_fields(alloc, measures, fields)?)),
    }
}

#[cycle(measured)]
fn measured_file(
    alloc: Global,
    measures: &Keyed<Measure>,
    file: &FileVal,
) -> Result<FileVal, AllocError>
    ensures { IfOk result (λ f. f ≡ spec.file_as_measured measures.now file.now) }
{
    let secondary = measured_items(alloc, measures, &file.secondary)?;
    let (checksum, size) = sum_of(alloc, measures, file)?;
    let (basename, contents) = texts_of(alloc, file)?;
    Ok(FileVal {
        place: file.place.clone_in(alloc)?,
        basename,
        checksum,
        size,
        contents,
        secondary,
    })
}

#[cycle(measured)]
fn measured_dir(
    alloc: Global,
    measures: &Keyed<Measure>,
    dir: &DirVal,
) -> Result<DirVal, AllocError>
    ensures { IfOk result (λ d. d ≡ spec.dir_as_measured measures.now dir.now) }
{
    let are_listed_there = match &dir.listing {
        None => true,
        Some(items) => are_present(&measured_items(alloc, measures, items)?),
    };
    let listing = if are_listed_there {
        found_listing(alloc, measures, &dir.place)?
    } else {
        None
    };
    let basename = copied_if_any(alloc, &dir.basename)?;
    Ok(DirVal {
        place: dir.place.clone_in(alloc)?,
        basename,
        listing,
    })
}

#[cycle(measured)]
fn measured_items(
    alloc: Global,
    measures: &Keyed<Measure>,
    items: &Items<Value>,
) -> Result<Items<Value>, AllocError>
    ensures { IfOk result (λ vs. vs ≡ map (spec.as_measured measures.now) items.now) }
{
    let mut found = Items::from_vec(Vec::with_capacity(alloc, items.len())?);
    for item in items.as_slice() {
        found.push(as_measured(alloc, measures, item)?)?;
    }
    Ok(found)
}

#[cycle(measured)]
fn measured_fields(
    alloc: Global,
    measures: &Keyed<Measure>,
    fields: &Keyed<Value>,
) -> Result<Keyed<Value>, AllocError>
    ensures { IfOk result (λ es. es ≡ map_values (spec.as_measured measures.now) fields.now) }
{
    let mut found = Vec::with_capacity(alloc, fields.len())?;
    for field in fields.as_slice() {
        let name = field.0.copied(alloc)?;
        found.push((name, as_measured(alloc, measures, &field.1)?))?;
    }
    Ok(Keyed::from_sorted(found))
}

// The checksum and the size of what was measured; none where there is no file.
fn sum_of(
    alloc: Global,
    measures: &Keyed<Measure>,
    file: &FileVal,
) -> Result<(Option<Text>, Option<u64>), AllocError>
    ensures { IfOk result (λ sum. sum
        ≡ spec.sum_found (spec.measure_at measures.now (out-FileVal file.now).place)) }
{
    match measure_at(measures, &file.place) {
        Some(Measure::File { size, sum }) => Ok((Some(checksum_of(alloc, sum)?), Some(*size))),
        _ => Ok((None, None)),
    }
}

// What stands in a measured folder; none where there is no folder.
fn found_listing(
    alloc: Global,
    measures: &Keyed<Measure>,
    place: &Place,
) -> Result<Option<Items<Value>>, AllocError>
    ensures { IfOk result (λ vs. vs ≡ spec.found_listing measures.now place.now) }
{
    let Place::Path(path) = place else {
        return Ok(None);
    };
    match measures.get(path.as_str()) {
        Some(Measure::Folder(listing)) => Ok(Some(values_below(alloc, path.as_str(), listing)?)),
        _ => Ok(None),
    }
}

// The basename and the contents.
fn texts_of(alloc: Global, file: &FileVal) -> Result<(Option<Text>, Option<Text>), AllocError>
    ensures { IfOk result (λ texts. texts
        ≡ ((out-FileVal file.now).basename, (out-FileVal file.now).contents)) }
{
    let basename = copied_if_any(alloc, &file.basename)?;
    Ok((basename, copied_if_any(alloc, &file.contents)?))
}

//! The files beside an output's files.
ghost use Rattle.std.specs.Prelude.{◌≡◌, ◌++◌, Ok, IfOk, IfErr, OnOk, string_bytes, map};
ghost use Rattle.std.specs.Option.{option_copied, option_to_list};
ghost use Rattle.cwl_value.specs.declared.value.FileVal.{out-FileVal};
ghost use Rattle.collected_outputs.specs.Beside as spec;
ghost use Rattle.collected_outputs.specs.Values.{value_under};
ghost use Rattle.collected_outputs.specs.inner.Names.{name_at, names_at, wanted_at, is_absent};
ghost use Rattle.collected_outputs.specs.Gives.{Refuses, all_given};

use crate::fault::{CollectFault, Stop};
use crate::listing::Entry;
use crate::paths::may_name;
use crate::values::{basename_of, push_value};
use cwl_process::SecondaryFile;
use cwl_value::{FileVal, Place, Value, is_taken, items_by_value};
use file_values::secondary_name;
use plain_data::{Items, Keyed, Text};
use std::alloc::{AllocError, Global};

/// Puts the files beside a File, and beside each File of a list (CWL v1.2, `secondaryFiles`).
pub(crate) fn with_secondary(
    alloc: Global,
    listing: &Keyed<Entry>,
    declared: &[SecondaryFile],
    value: Value,
) -> Result<Value, Stop>
    ensures ok { IfOk result (λ v. spec.all_beside listing.now declared.now value ≡ Ok v) }
    ensures err { IfErr result (Refuses (spec.all_beside listing.now declared.now value)) }
{
    match value {
        Value::List(items) => {
            let items = items_by_value(alloc, items)?;
            Ok(Value::of_items(all_with_secondary(alloc, listing, declared, items)?))
        }
        other => one_with_secondary(alloc, listing, declared, other),
    }
}

fn all_with_secondary(
    alloc: Global,
    listing: &Keyed<Entry>,
    declared: &[SecondaryFile],
    values: Items<Value>,
) -> Result<Items<Value>, Stop>
    ensures ok { IfOk result
        (λ vs. all_given (map (spec.one_beside listing.now declared.now) values) ≡ Ok vs) }
    ensures err { IfErr result
        (Refuses (all_given (map (spec.one_beside listing.now declared.now) values))) }
{
    let mut found = Items::new(alloc);
    for value in values.into_vec() {
        found.push(one_with_secondary(alloc, listing, declared, value)?)?;
    }
    Ok(found)
}

fn one_with_secondary(
    alloc: Global,
    listing: &Keyed<Entry>,
    declared: &[SecondaryFile],
    value: Value,
) -> Result<Value, Stop>
    ensures ok { IfOk result (λ v. spec.one_beside listing.now declared.now value ≡ Ok v) }
    ensures err { IfErr result (Refuses (spec.one_beside listing.now declared.now value)) }
{
    match value {
        Value::FileVal(file) => Ok(Value::FileVal(file_with_secondary(
            alloc, listing, declared, file,
        )?)),
        other => Ok(other),
    }
}

fn file_with_secondary(
    alloc: Global,
    listing: &Keyed<Entry>,
    declared: &[SecondaryFile],
    file: FileVal,
) -> Result<FileVal, Stop>
    ensures ok { IfOk result (λ f. spec.file_beside listing.now declared.now file ≡ Ok f) }
    ensures err { IfErr result (Refuses (spec.file_beside listing.now declared.now file)) }
{
    let mut file = file;
    for one in declared {
        file = add_secondary(alloc, listing, one, file)?;
    }
    Ok(file)
}

// Adds the file that the pattern names beside the File, unless one of that name stands there already.
fn add_secondary(
    alloc: Global,
    listing: &Keyed<Entry>,
    declared: &SecondaryFile,
    file: FileVal,
) -> Result<FileVal, Stop>
    ensures ok { IfOk result (λ f. spec.added_at listing.now file declared.now
        (out-FileVal file).place ≡ Ok f) }
    ensures err { IfErr result
        (Refuses (spec.added_at listing.now file declared.now (out-FileVal file).place)) }
{
    match wanted_beside(alloc, listing, declared, &file) {
        Ok(None) => Ok(file),
        Ok(Some(path)) => Ok(with_beside(alloc, listing, path.as_str(), file)?),
        Err(stop) => {
            drop(file);
            Err(stop)
        }
    }
}

// Where the file stands that is to be added; none where none is.
fn wanted_beside(
    alloc: Global,
    listing: &Keyed<Entry>,
    declared: &SecondaryFile,
    file: &FileVal,
) -> Result<Option<Text>, Stop>
    ensures ok { IfOk result (λ path. wanted_at listing.now file.now declared.now
        (out-FileVal file.now).place ≡ Ok path) }
    ensures err { IfErr result
        (Refuses (wanted_at listing.now file.now declared.now (out-FileVal file.now).place)) }
{
    let Some((name, path)) = names_beside(alloc, declared, &file.place)? else {
        return Ok(None);
    };
    if !may_name(name.as_str()) || !listing.contains(path.as_str()) {
        return absent(declared.required);
    }
    if stands(&name, file) {
        return Ok(None);
    }
    Ok(Some(path))
}

fn absent(required: bool) -> Result<Option<Text>, Stop>
    ensures { result ≡ is_absent required }
{
    if required {
        Err(Stop::Refused(CollectFault::SecondaryAbsent))
    } else {
        Ok(None)
    }
}

fn with_beside(
    alloc: Global,
    listing: &Keyed<Entry>,
    path: &str,
    file: FileVal,
) -> Result<FileVal, AllocError>
    ensures { IfOk result (λ f. f
        ≡ spec.with_beside file (option_to_list (value_under listing.now path.now))) }
{
    let mut file = file;
    push_value(alloc, listing, path, &mut file.secondary)?;
    Ok(file)
}

// The name that the pattern gives, and where it would stand; none where the place is no name.
fn names_beside(
    alloc: Global,
    declared: &SecondaryFile,
    place: &Place,
) -> Result<Option<(Text, Text)>, AllocError>
    ensures { IfOk result (λ names. names ≡ names_at declared.now place.now) }
{
    let Some(primary) = name_of(place) else {
        return Ok(None);
    };
    let name = secondary_name(alloc, declared.pattern.as_str(), basename_of(primary))?;
    let path = beside(alloc, primary, name.as_str())?;
    Ok(Some((Text::from_string(name), Text::from_string(path))))
}

fn stands(name: &Text, file: &FileVal) -> bool
    ensures { result ≡ spec.stands name.now file.now }
{
    let is_primary = match &file.basename {
        None => false,
        Some(own) => own.equals(name),
    };
    is_primary || is_taken(name, file.secondary.as_slice())
}

fn name_of(place: &Place) -> Option<&str>
    ensures { option_copied result ≡ name_at place.now }
{
    match place {
        Place::Url(name) => Some(name.as_str()),
        _ => None,
    }
}

fn beside(alloc: Global, primary: &str, name: &str) -> Result<String, AllocError>
    ensures { IfOk result (λ path. string_bytes path ≡ spec.beside primary.now name.now) }
{
    match primary.rfind('/') {
        Some(at) => {
            let folder = &primary[..at];
            format!(in alloc; "{folder}/{name}")
        }
        None => String::from_str(alloc, name),
    }
}

//! Reads bindings and secondary files.
ghost use Rattle.std.specs.Prelude.{◌≡◌, IfOk, map, option_and_then, option_map, codes};
ghost use Rattle.std.specs.Option.{option_map_or};
ghost use Rattle.serde_json.specs.Find.{as_str};
ghost use Rattle.serde_json.specs.View.{view};
ghost use Rattle.document_table.specs.Entries.{main_field};
ghost use Rattle.cwl_process.specs.Bindings.{binding_in, bindings_at, secondaries_at, secondary_in};
ghost use Rattle.cwl_process.specs.Simple.{text_in, value_seen};
ghost use Rattle.cwl_process.specs.Templates.{template_of};

use crate::simple::{flag_at, int_at, list_at, read_any_text, text_at};
use crate::templates::template_of;
use crate::tool::{Binding, SecondaryFile};
use document_table::main_field;
use param_refs::Template;
use plain_data::{Items, Text};
use serde_json::Value;
use std::alloc::{AllocError, Global};

/// How a value becomes words.
pub(crate) fn read_binding(alloc: Global, value: &Value) -> Result<Binding, AllocError>
    ensures { IfOk result (λ binding. binding ≡ binding_in (view value.now)) }
{
    let prefix = text_at(alloc, "prefix", value)?;
    let item_separator = text_at(alloc, "itemSeparator", value)?;
    let value_from = read_value_from(alloc, value)?;
    Ok(Binding {
        position: int_at("position", value),
        prefix,
        separate: flag_at("separate", true, value),
        item_separator,
        value_from,
    })
}

fn read_value_from(alloc: Global, value: &Value) -> Result<Option<Template>, AllocError>
    ensures { IfOk result (λ template. template ≡ option_map template_of (option_and_then as_str
        (main_field (codes "valueFrom") (view value.now)))) }
{
    match main_field("valueFrom", value) {
        None => Ok(None),
        Some(found) => match found.as_str() {
            None => Ok(None),
            Some(text) => Ok(Some(template_of(alloc, text)?)),
        },
    }
}

/// The bindings of a field's list.
pub(crate) fn bindings_at(
    alloc: Global,
    name: &str,
    value: &Value,
) -> Result<Items<Binding>, AllocError>
    ensures { IfOk result (λ bindings. bindings ≡ bindings_at name.now (view value.now)) }
{
    let found = list_at(alloc, name, value)?;
    read_bindings(alloc, found.as_slice())
}

fn read_bindings(alloc: Global, found: &[&Value]) -> Result<Items<Binding>, AllocError>
    ensures { IfOk result (λ bindings. bindings ≡ map binding_in (map value_seen found.now)) }
{
    let mut bindings = Items::new(alloc);
    for value in found {
        bindings.push(read_binding(alloc, value)?)?;
    }
    Ok(bindings)
}

/// The files that come with the File of a parameter. Where the parameter doesn't say so, they have to
/// be there or not as `absent` says.
pub(crate) fn secondaries_at(
    alloc: Global,
    absent: bool,
    value: &Value,
) -> Result<Items<SecondaryFile>, AllocError>
    ensures { IfOk result (λ files. files ≡ secondaries_at absent (view value.now)) }
{
    let found = list_at(alloc, "secondaryFiles", value)?;
    read_secondaries(alloc, absent, found.as_slice())
}

fn read_secondaries(
    alloc: Global,
    absent: bool,
    found: &[&Value],
) -> Result<Items<SecondaryFile>, AllocError>
    ensures { IfOk result (λ files. files ≡ map (secondary_in absent) (map value_seen found.now)) }
{
    let mut files = Items::new(alloc);
    for value in found {
        files.push(read_secondary(alloc, absent, value)?)?;
    }
    Ok(files)
}

fn read_secondary(alloc: Global, absent: bool, value: &Value) -> Result<SecondaryFile, AllocError>
    ensures { IfOk result (λ file. file ≡ secondary_in absent (view value.now)) }
{
    let pattern = read_pattern(alloc, value)?;
    let required = !pattern.as_str().as_bytes().ends_with(b"?")
        && flag_at("required", absent, value);
    Ok(SecondaryFile { pattern, required })
}

fn read_pattern(alloc: Global, value: &Value) -> Result<Text, AllocError>
    ensures { IfOk result (λ pattern. pattern ≡ option_map_or text_in
        (main_field (codes "pattern") (view value.now)) (codes "")) }
{
    match main_field("pattern", value) {
        None => Text::from_text(alloc, ""),
        Some(found) => read_any_text(alloc, found),
    }
}

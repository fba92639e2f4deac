//! Reads texts with references.
ghost use Rattle.std.specs.Prelude.{◌≡◌, ◌==◌, [], Ok, Err, IfOk, map};
ghost use Rattle.std.specs.List.{list_any};
ghost use Rattle.serde_json.specs.View.{view};
ghost use Rattle.cwl_process.specs.Simple.{value_seen};
ghost use Rattle.cwl_process.specs.Templates.{template_at, template_in, template_of, templates_at, text_fault};

use crate::simple::list_at;
use document_table::{Cause, DocumentFault, here};
use param_refs::{RefError, Template};
use plain_data::Items;
use serde_json::Value;
use std::alloc::{AllocError, Global};

/// The template of a text, and one without parts where the text has none.
pub(crate) fn template_of(alloc: Global, text: &str) -> Result<Template, AllocError>
    ensures { IfOk result (λ template. template ≡ template_of text.now) }
{
    match Template::read(alloc, text) {
        Ok(template) => Ok(template),
        Err(RefError::Refused(_)) => no_template(alloc),
        Err(RefError::OutOfMemory) => Err(AllocError),
    }
}

#[tactic(auto, using(crate::proofs::EmptyText::empty_is_read))]
fn no_template(alloc: Global) -> Result<Template, AllocError>
    ensures { IfOk result (λ template. template ≡ []) }
{
    match Template::read(alloc, "") {
        Ok(template) => Ok(template),
        Err(RefError::Refused(_)) => unreachable!(),
        Err(RefError::OutOfMemory) => Err(AllocError),
    }
}

/// The template of a field.
pub(crate) fn template_at(
    alloc: Global,
    name: &str,
    value: &Value,
) -> Result<Option<Template>, AllocError>
    ensures { IfOk result (λ template. template ≡ template_at name.now (view value.now)) }
{
    match value.get(name) {
        None => Ok(None),
        Some(found) => match found.as_str() {
            None => Ok(None),
            Some(text) => Ok(Some(template_of(alloc, text)?)),
        },
    }
}

/// The templates of a field.
pub(crate) fn templates_at(
    alloc: Global,
    name: &str,
    value: &Value,
) -> Result<Items<Template>, AllocError>
    ensures { IfOk result (λ templates. templates ≡ templates_at name.now (view value.now)) }
{
    let found = list_at(alloc, name, value)?;
    read_templates(alloc, found.as_slice())
}

fn read_templates(alloc: Global, found: &[&Value]) -> Result<Items<Template>, AllocError>
    ensures { IfOk result (λ templates. templates ≡ map template_in (map value_seen found.now)) }
{
    let mut templates = Items::new(alloc);
    for value in found {
        templates.push(template_of(alloc, value.as_str().unwrap_or(""))?)?;
    }
    Ok(templates)
}

/// What is wrong with a text as a template. One without `$` has no reference, so it need not be read.
#[tactic(auto, using(crate::proofs::Dollars::no_fault))]
pub(crate) fn text_fault(alloc: Global, value: &Value) -> Result<Option<DocumentFault>, AllocError>
    ensures { IfOk result (λ fault. fault ≡ text_fault (view value.now)) }
{
    let text = value.as_str().unwrap_or("");
    if !has_dollar(text) {
        return Ok(None);
    }
    match Template::read(alloc, text) {
        Ok(_) => Ok(None),
        Err(RefError::Refused(_)) => Ok(Some(here(alloc, Cause::WrongForm))),
        Err(RefError::OutOfMemory) => Err(AllocError),
    }
}

fn has_dollar(text: &str) -> bool
    ensures { result ≡ list_any (λ b. b == 36) text.now }
{
    text.as_bytes().iter().any(|byte| *byte == b'$')
}

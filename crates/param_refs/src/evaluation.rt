//! From a template to its value.
ghost use Rattle.std.specs.Prelude.{◌≡◌, Ok, IfOk, IfErr};
ghost use Rattle.std.specs.Option.{option_copied};
ghost use Rattle.std.specs.List.{list_all};
ghost use Rattle.std.specs.Char.{is_ascii_whitespace};
ghost use Rattle.serde_json.specs.Written.{compact_text};
ghost use Rattle.cwl_value.specs.Erased.{erased};
ghost use Rattle.cwl_value.specs.Json.{json_of};
ghost use Rattle.param_refs.specs.Descent.{root};
ghost use Rattle.param_refs.specs.inner.Origins.{origin_value};
ghost use Rattle.param_refs.specs.Evaluation.{template_value, reference_value, part_text, joined, alone, is_blank, is_all_blank, text_of_value};
ghost use Rattle.param_refs.specs.Refused.{IsError};

use crate::context::Context;
use crate::descent::{descend, descend_fields, has_outdir};
use crate::fault::{RefError, RefFault};
use crate::template::{Part, Reference, Template};
use cwl_value::{Value, canonical_text, erased};
use plain_data::Text;
use std::alloc::{AllocError, Global};

impl Template {
    /// The value in a context (CWL v1.2, "Parameter references").
    ///
    /// A text that is one reference, with at most ASCII white space around it, has the reference's value. Of any other
    /// the parts are joined to a text, each value that is no text as its JSON without places.
    pub fn value(&self, context: &Context<'_>) -> Result<Value, RefError>
        ensures ok { IfOk result (λ value. template_value context.now.inputs.now
            (option_copied context.now.runtime) context.now.own.now self.now ≡ Ok value) }
        ensures err { IfErr result
            (IsError (template_value context.now.inputs.now (option_copied context.now.runtime)
            context.now.own.now self.now)) }
    {
        let parts = self.parts.as_slice();
        match alone(parts) {
            Some(reference) => reference_value(self.alloc, context, reference),
            None => Ok(Value::Text(joined(self.alloc, context, parts)?)),
        }
    }
}

fn alone(parts: &[Part]) -> Option<&Reference>
    ensures { option_copied result ≡ alone parts.now }
{
    for at in 0..parts.len() {
        if let Part::Referred(reference) = &parts[at] {
            if is_all_blank(&parts[at + 1..]) {
                return Some(reference);
            }
            return None;
        }
        if !is_blank(&parts[at]) {
            return None;
        }
    }
    None
}

fn is_all_blank(parts: &[Part]) -> bool
    ensures { result ≡ is_all_blank parts.now }
{
    parts.iter().all(|part| is_blank(part))
}

fn is_blank(part: &Part) -> bool
    ensures { result ≡ is_blank part.now }
{
    match part {
        Part::Plain(text) => is_white(text.as_str()),
        Part::Referred(_) => false,
    }
}

fn is_white(text: &str) -> bool
    ensures { result ≡ list_all is_ascii_whitespace text.now }
{
    text.as_bytes()
        .iter()
        .all(|byte| byte.is_ascii_whitespace())
}

fn joined(alloc: Global, context: &Context<'_>, parts: &[Part]) -> Result<Text, RefError>
    ensures ok { IfOk result
        (λ text. joined context.now.inputs.now (option_copied context.now.runtime)
        context.now.own.now parts.now ≡ Ok text) }
    ensures err { IfErr result
        (IsError (joined context.now.inputs.now (option_copied context.now.runtime)
        context.now.own.now parts.now)) }
{
    let mut text = String::new(alloc);
    for part in parts {
        let found = part_text(alloc, context, part)?;
        text.push_str(found.as_str())?;
    }
    Ok(Text::from_string(text))
}

fn part_text(alloc: Global, context: &Context<'_>, part: &Part) -> Result<Text, RefError>
    ensures ok { IfOk result
        (λ text. part_text context.now.inputs.now (option_copied context.now.runtime)
        context.now.own.now part.now ≡ Ok text) }
    ensures err { IfErr result
        (IsError (part_text context.now.inputs.now (option_copied context.now.runtime)
        context.now.own.now part.now)) }
{
    match part {
        Part::Plain(plain) => Ok(plain.copied(alloc)?),
        Part::Referred(reference) => {
            let value = reference_value(alloc, context, reference)?;
            let text = text_of_value(alloc, &value);
            drop(value);
            Ok(text?)
        }
    }
}

fn text_of_value(alloc: Global, value: &Value) -> Result<Text, AllocError>
    ensures { IfOk result (λ text. text ≡ text_of_value value.now) }
{
    match value {
        Value::Text(text) => text.copied(alloc),
        _ => bare_text(alloc, value),
    }
}

// The JSON of a value, without places.
fn bare_text(alloc: Global, value: &Value) -> Result<Text, AllocError>
    ensures { IfOk result (λ text. text ≡ compact_text (json_of (erased value.now))) }
{
    let bare = erased(alloc, value)?;
    let text = canonical_text(alloc, &bare);
    drop(bare);
    text
}

fn reference_value(
    alloc: Global,
    context: &Context<'_>,
    reference: &Reference,
) -> Result<Value, RefError>
    ensures ok { IfOk result (λ value. reference_value context.now.inputs.now
        (option_copied context.now.runtime) context.now.own.now reference.now ≡ Ok value) }
    ensures err { IfErr result
        (IsError (reference_value context.now.inputs.now (option_copied context.now.runtime)
        context.now.own.now reference.now)) }
{
    let segments = reference.segments.as_slice();
    let with_places = has_outdir(context.runtime);
    match root(context, reference.symbol.as_str())? {
        Origin::Inputs => descend_fields(alloc, context.inputs, segments, with_places),
        Origin::Lent(value) => descend(alloc, value, segments, with_places),
        Origin::Null => descend(alloc, &Value::Null, segments, with_places),
    }
}

/// What the first symbol of a reference stands for.
#[derive(Clone, Copy, Drop)]
pub(crate) enum Origin<'a> {
    /// The inputs, as an object.
    Inputs,
    Lent(&'a Value),
    Null,
}

fn root<'a>(context: &Context<'a>, symbol: &str) -> Result<Origin<'a>, RefError>
    ensures ok { IfOk result
        (λ found. root context.now.inputs.now (option_copied context.now.runtime)
        context.now.own.now symbol.now ≡ Ok (origin_value context.now.inputs.now found)) }
    ensures err { IfErr result
        (IsError (root context.now.inputs.now (option_copied context.now.runtime)
        context.now.own.now symbol.now)) }
{
    match symbol {
        "inputs" => Ok(Origin::Inputs),
        "runtime" => match context.runtime {
            None => Err(RefError::Refused(RefFault::NoName)),
            Some(runtime) => Ok(Origin::Lent(runtime)),
        },
        "self" => Ok(Origin::Lent(context.own)),
        "null" => Ok(Origin::Null),
        _ => Err(RefError::Refused(RefFault::NoName)),
    }
}

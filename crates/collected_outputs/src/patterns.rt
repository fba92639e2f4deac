//! The patterns of an output.
ghost use Rattle.std.specs.Prelude.{◌≡◌, ◌++◌, Ok, IfOk, IfErr, OnOk, map, ◌∷◌, []};
ghost use Rattle.collected_outputs.specs.Gives.{Refuses, all_given};
ghost use Rattle.collected_outputs.specs.Patterns as spec;
ghost use Rattle.collected_outputs.specs.inner.Readings.{IsRead, NotRead, NoneRead};

use crate::evaluation::{Speaks, value_in};
use crate::fault::{CollectFault, Stop};
use cwl_value::Value;
use param_refs::Template;
use plain_data::{Items, Text};
use staging::{GlobError, Pattern};
use std::alloc::{AllocError, Global};

/// Reads the patterns of texts.
pub(crate) fn read_patterns(alloc: Global, texts: &[Text]) -> Result<Vec<Pattern>, Stop>
    ensures ok { IfOk result (λ patterns. spec.AreRead texts.now (Ok patterns.items)) }
    ensures err { IfErr result (NoneRead texts.now) }
{
    let mut patterns = Vec::new(alloc);
    for text in texts {
        push_pattern(alloc, text.as_str(), &mut patterns)?;
    }
    Ok(patterns)
}

fn push_pattern(alloc: Global, text: &str, patterns: &mut Vec<Pattern>) -> Result<(), Stop>
    ensures ok { OnOk result (IsRead text.now patterns.old.items patterns.new.items) }
    ensures err { IfErr result (NotRead text.now) }
{
    match Pattern::read(alloc, text) {
        Ok(pattern) => Ok(push(pattern, patterns)?),
        Err(GlobError::Refused(fault)) => Err(Stop::Refused(CollectFault::Pattern(fault))),
        Err(GlobError::OutOfMemory) => Err(Stop::OutOfMemory),
    }
}

fn push(pattern: Pattern, patterns: &mut Vec<Pattern>) -> Result<(), AllocError>
    ensures { OnOk result (patterns.new.items ≡ patterns.old.items ++ pattern ∷ []) }
{
    patterns.push(pattern)?;
    Ok(())
}

/// The texts that a `glob` stands for.
pub(crate) fn texts_of(
    alloc: Global,
    templates: &[Template],
    speaks: Speaks<'_>,
) -> Result<Items<Text>, Stop>
    ensures ok { IfOk result (λ texts. spec.pattern_texts speaks.entry.inputs.now
        speaks.entry.runtime.now templates.now ≡ Ok texts) }
    ensures err { IfErr result
        (Refuses (spec.pattern_texts speaks.entry.inputs.now speaks.entry.runtime.now
        templates.now)) }
{
    let mut texts = Items::new(alloc);
    for template in templates {
        let more = texts_at(alloc, template, speaks)?;
        push_all(alloc, more.as_slice(), &mut texts)?;
    }
    Ok(texts)
}

fn push_all(alloc: Global, more: &[Text], texts: &mut Items<Text>) -> Result<(), AllocError>
    ensures { OnOk result (texts.new ≡ texts.old ++ more.now) }
{
    for text in more {
        texts.push(text.copied(alloc)?)?;
    }
    Ok(())
}

fn texts_at(alloc: Global, template: &Template, speaks: Speaks<'_>) -> Result<Items<Text>, Stop>
    ensures ok { IfOk result (λ texts. spec.texts_at speaks.entry.inputs.now
        speaks.entry.runtime.now template.now ≡ Ok texts) }
    ensures err { IfErr result
        (Refuses (spec.texts_at speaks.entry.inputs.now speaks.entry.runtime.now template.now)) }
{
    let value = value_in(template, speaks, &Value::Null)?;
    texts_in(alloc, &value)
}

// A text, or each text of a list.
fn texts_in(alloc: Global, value: &Value) -> Result<Items<Text>, Stop>
    ensures ok { IfOk result (λ texts. spec.texts_in value.now ≡ Ok texts) }
    ensures err { IfErr result (Refuses (spec.texts_in value.now)) }
{
    match value {
        Value::List(items) => list_texts(alloc, items.as_slice()),
        other => {
            let mut texts = Items::new(alloc);
            texts.push(text_in(alloc, other)?)?;
            Ok(texts)
        }
    }
}

fn list_texts(alloc: Global, values: &[Value]) -> Result<Items<Text>, Stop>
    ensures ok { IfOk result (λ texts. all_given (map spec.text_in values.now) ≡ Ok texts) }
    ensures err { IfErr result (Refuses (all_given (map spec.text_in values.now))) }
{
    let mut texts = Items::new(alloc);
    for value in values {
        texts.push(text_in(alloc, value)?)?;
    }
    Ok(texts)
}

fn text_in(alloc: Global, value: &Value) -> Result<Text, Stop>
    ensures ok { IfOk result (λ text. spec.text_in value.now ≡ Ok text) }
    ensures err { IfErr result (Refuses (spec.text_in value.now)) }
{
    match value {
        Value::Text(text) => Ok(text.copied(alloc)?),
        _ => Err(Stop::Refused(CollectFault::PatternNotText)),
    }
}

//! Texts of a launch: which an operating system takes, and those that templates give.
ghost use Rattle.std.specs.Prelude.{◌≡◌, Ok, IfOk, IfErr};
ghost use Rattle.std.specs.List.{list_all};
ghost use Rattle.command_line.specs.Texts.{is_plain, name_of, runtime_value, value_in};
ghost use Rattle.command_line.specs.inner.Steps.{FaultOf, text_or_none};

use crate::{BuildError, Runtime};
use cwl_value::Value;
use param_refs::{Context, Template};
use plain_data::{Keyed, Text};
use std::alloc::{AllocError, Global};

/// What references may speak of, beside `self`.
#[derive(Clone, Copy)]
pub(crate) struct Scope<'a> {
    pub inputs: &'a Keyed<Value>,
    pub runtime: &'a Value,
}

/// Checks that an operating system takes the text: that it has no zero character.
pub(crate) fn is_plain(text: &str) -> bool
    ensures { result ≡ is_plain text.now }
{
    !text.as_bytes().contains(&0)
}

pub(crate) fn all_plain(words: &[Text]) -> bool
    ensures { result ≡ list_all is_plain words.now }
{
    words.iter().all(|word| is_plain(word.as_str()))
}

/// What references see as `runtime`.
pub(crate) fn runtime_value(alloc: Global, runtime: &Runtime) -> Result<Value, AllocError>
    ensures { IfOk result (λ value. value ≡ runtime_value runtime.now) }
{
    let outdir = runtime.outdir.copied(alloc)?;
    let tmpdir = runtime.tmpdir.copied(alloc)?;
    let mut fields = Vec::with_capacity(alloc, 3)?;
    let cores = Text::from_text(alloc, "cores")?;
    fields.push((cores, Value::Whole(1)))?;
    let name = Text::from_text(alloc, "outdir")?;
    fields.push((name, Value::Text(outdir)))?;
    let name = Text::from_text(alloc, "tmpdir")?;
    fields.push((name, Value::Text(tmpdir)))?;
    Ok(Value::Fields(Keyed::from_sorted(fields)))
}

/// The value of a template, where `self` stands for `own`.
pub(crate) fn value_in(
    scope: Scope<'_>,
    own: &Value,
    template: &Template,
) -> Result<Value, BuildError>
    ensures ok { IfOk result (λ value. value_in scope.entry.inputs.now scope.entry.runtime.now
        own.now template.now ≡ Ok value) }
    ensures err { IfErr result
        (FaultOf (value_in scope.entry.inputs.now scope.entry.runtime.now own.now template.now)) }
{
    let context = Context {
        inputs: scope.inputs,
        runtime: Some(scope.runtime),
        own,
    };
    Ok(template.value(&context)?)
}

/// The text that a template gives where a stream is named or a variable has its text, or none where it gives no text.
pub(crate) fn text_in(
    alloc: Global,
    scope: Scope<'_>,
    template: &Template,
) -> Result<Option<Text>, BuildError>
    ensures ok { IfOk result (λ text. text_or_none scope.entry.inputs.now scope.entry.runtime.now
        template.now ≡ Ok text) }
    ensures err { IfErr result
        (FaultOf (text_or_none scope.entry.inputs.now scope.entry.runtime.now template.now)) }
{
    let value = value_in(scope, &Value::Null, template)?;
    let name = name_of(alloc, &value);
    drop(value);
    Ok(name?)
}

/// The text of a text, a number or a boolean.
fn name_of(alloc: Global, value: &Value) -> Result<Option<Text>, AllocError>
    ensures { IfOk result (λ text. text ≡ name_of value.now) }
{
    match value {
        Value::Text(text) => Ok(Some(text.copied(alloc)?)),
        Value::Whole(number) => Ok(Some(Text::from_string(number.to_string(alloc)?))),
        Value::Bool(true) => Ok(Some(Text::from_text(alloc, "true")?)),
        Value::Bool(false) => Ok(Some(Text::from_text(alloc, "false")?)),
        Value::Null | Value::FileVal(_) | Value::DirVal(_) | Value::List(_) | Value::Fields(_) =>
            Ok(None),
    }
}

//! The words of a command (CWL v1.2, Command Line Tool, "Input binding").
ghost use Rattle.std.specs.Prelude.{◌≡◌, ◌++◌, Some, None, Ok, IsOk, unwrap_or, IfOk, IfErr, OnOk, All, map};
ghost use Rattle.std.specs.Option.{option_copied};
ghost use Rattle.std.specs.List.{AllPass, flat_map};
ghost use Rattle.command_line.specs.Added.{adds};
ghost use Rattle.command_line.specs.Launch.{IsError};
ghost use Rattle.command_line.specs.Texts.{is_plain, runtime_value};
ghost use Rattle.command_line.specs.Words.{AreWords, place_of, plain_words, words_at, words_of};
ghost use Rattle.command_line.specs.inner.Steps.{BaseError, BindingError, FaultOf, is_input, own_words_of, referred_words_of};
ghost use Rattle.command_line.specs.inner.View.{bound_of, origin_of, style_of};
ghost use Rattle.command_line.specs.Order.{empty_binding, style_in};
ghost use Rattle.command_line.specs.declared.runtime.Runtime.{Runtime};

use crate::added::{StyleRef, added, bare};
use crate::order::{BoundRow, Origin, in_order};
use crate::texts::{Scope, all_plain, value_in};
use crate::{BuildError, BuildFault, LaunchText};
use cwl_process::{Binding, Tool};
use cwl_types::MemberType;
use cwl_value::Value;
use param_refs::Template;
use plain_data::{Items, Text};
use std::alloc::{AllocError, Global};

/// The words of the command: those of the tool, and then those of its bindings in the order of their keys.
pub(crate) fn words(alloc: Global, tool: &Tool, scope: Scope<'_>) -> Result<Items<Text>, BuildError>
    ensures words { IfOk result (AreWords tool.now scope.entry.inputs.now scope.entry.runtime.now) }
    ensures base { OnOk result (AllPass is_plain tool.now.base_command) }
    ensures refused { IfErr result (λ e. (runtime : Runtime) → scope.entry.runtime.now
        ≡ runtime_value runtime
        → IsError tool.now scope.entry.inputs.now runtime e) }
{
    let rows = in_order(alloc, tool, scope.inputs)?;
    let base = base_words(alloc, tool.base_command.as_slice())?;
    let words = append_all(alloc, base, rows.as_slice(), scope)?;
    Ok(Items::from_vec(words))
}

fn base_words(alloc: Global, base: &[Text]) -> Result<Vec<Text>, BuildError>
    ensures words { IfOk result (λ words. words.items ≡ base.now) }
    ensures plain { OnOk result (AllPass is_plain base.now) }
    ensures refused { IfErr result (BaseError base.now) }
{
    if !all_plain(base) {
        return Err(BuildError::Refused(BuildFault::NotText(LaunchText::BaseCommand)));
    }
    let mut words = Vec::new(alloc);
    for word in base {
        words.push(word.copied(alloc)?)?;
    }
    Ok(words)
}

/// Puts the words of each row after `words`, in the order of the rows.
fn append_all(
    alloc: Global,
    mut words: Vec<Text>,
    rows: &[BoundRow<'_>],
    scope: Scope<'_>,
) -> Result<Vec<Text>, BuildError>
    ensures words { IfOk result (λ all. all.items ≡ words.items
        ++ flat_map (λ row. words_at scope.entry.inputs.now scope.entry.runtime.now (bound_of row))
        rows.now) }
    ensures all_there { OnOk result
        (All (λ row. IsOk (words_of scope.entry.inputs.now scope.entry.runtime.now (bound_of row)))
        rows.now) }
    ensures refused { IfErr result (BindingError scope.entry.inputs.now scope.entry.runtime.now
        (map bound_of rows.now)) }
{
    for row in rows {
        let mut added = words_of_row(alloc, row, scope)?;
        words.append(&mut added)?;
    }
    Ok(words)
}

/// The words that a binding adds, if an operating system takes them all.
fn words_of_row(
    alloc: Global,
    row: &BoundRow<'_>,
    scope: Scope<'_>,
) -> Result<Vec<Text>, BuildError>
    ensures ok { IfOk result (λ words. words_of scope.entry.inputs.now scope.entry.runtime.now
        (bound_of row.now) ≡ Ok words.items) }
    ensures err { IfErr result
        (FaultOf (words_of scope.entry.inputs.now scope.entry.runtime.now (bound_of row.now))) }
{
    match row.value {
        Some(value) => words_for(alloc, row, value, scope),
        None => words_for(alloc, row, &Value::Null, scope),
    }
}

fn words_for(
    alloc: Global,
    row: &BoundRow<'_>,
    own: &Value,
    scope: Scope<'_>,
) -> Result<Vec<Text>, BuildError>
    requires { own.now ≡ (bound_of row.now).value }
    ensures ok { IfOk result (λ words. words_of scope.entry.inputs.now scope.entry.runtime.now
        (bound_of row.now) ≡ Ok words.items) }
    ensures err { IfErr result
        (FaultOf (words_of scope.entry.inputs.now scope.entry.runtime.now (bound_of row.now))) }
{
    match value_from(row) {
        None => own_words(alloc, row, own),
        Some(template) => referred_words(alloc, row, own, scope, template),
    }
}

fn value_from<'t>(row: &BoundRow<'t>) -> Option<&'t Template>
    ensures { option_copied result ≡ (bound_of row.now).value_from }
{
    match row.binding {
        None => None,
        Some(binding) => binding.value_from.as_ref(),
    }
}

/// The words of an input's own value.
fn own_words(alloc: Global, row: &BoundRow<'_>, own: &Value) -> Result<Vec<Text>, BuildError>
    ensures ok { IfOk result (λ words. own_words_of (bound_of row.now) own.now ≡ Ok words.items) }
    ensures err { IfErr result (FaultOf (own_words_of (bound_of row.now) own.now)) }
{
    match row.key.origin {
        Origin::Argument(_) => Err(BuildError::Refused(BuildFault::NoValueFrom)),
        Origin::Input(_) => plain_words(alloc, row, own, row.types),
    }
}

/// The words of the value that a template gives, where the input's own isn't null.
fn referred_words(
    alloc: Global,
    row: &BoundRow<'_>,
    own: &Value,
    scope: Scope<'_>,
    template: &Template,
) -> Result<Vec<Text>, BuildError>
    ensures ok { IfOk result (λ words. referred_words_of scope.entry.inputs.now
        scope.entry.runtime.now (bound_of row.now) own.now template.now ≡ Ok words.items) }
    ensures err { IfErr result
        (FaultOf (referred_words_of scope.entry.inputs.now scope.entry.runtime.now
        (bound_of row.now) own.now template.now)) }
{
    if is_input(row.key.origin) && matches!(own, Value::Null) {
        return plain_words(alloc, row, own, &[]);
    }
    let value = value_in(scope, own, template)?;
    let words = plain_words(alloc, row, &value, &[]);
    drop(value);
    words
}

fn is_input(origin: Origin<'_>) -> bool
    ensures { result ≡ is_input (origin_of origin.entry) }
{
    matches!(origin, Origin::Input(_))
}

/// The words of a value in the row's style, if an operating system takes them all.
fn plain_words(
    alloc: Global,
    row: &BoundRow<'_>,
    value: &Value,
    types: &[MemberType],
) -> Result<Vec<Text>, BuildError>
    ensures ok { IfOk result (λ words. plain_words (place_of (bound_of row.now).origin)
        (adds value.now types.now (bound_of row.now).style) ≡ Ok words.items) }
    ensures err { IfErr result
        (FaultOf (plain_words (place_of (bound_of row.now).origin)
        (adds value.now types.now (bound_of row.now).style))) }
{
    let place = place_of(alloc, row.key.origin)?;
    match added(alloc, value, types, style_of(row.binding))? {
        Some(words) if all_plain(words.as_slice()) => Ok(words),
        _ => Err(BuildError::Refused(BuildFault::NotText(place))),
    }
}

fn style_of<'t>(binding: Option<&'t Binding>) -> StyleRef<'t>
    ensures { style_of result ≡ style_in (unwrap_or (option_copied binding.entry) empty_binding) }
{
    match binding {
        None => bare(),
        Some(binding) => StyleRef {
            prefix: binding.prefix.as_ref(),
            separate: binding.separate,
            separator: binding.item_separator.as_ref(),
        },
    }
}

fn place_of(alloc: Global, origin: Origin<'_>) -> Result<LaunchText, AllocError>
    ensures { IfOk result (λ place. place ≡ place_of (origin_of origin.entry)) }
{
    match origin {
        Origin::Argument(index) => Ok(LaunchText::Argument(index)),
        Origin::Input(id) => Ok(LaunchText::Input(Text::from_text(alloc, id)?)),
    }
}

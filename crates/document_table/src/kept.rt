//! What a value of a document says, as text.
ghost use Rattle.std.specs.Prelude.{◌≡◌, [], ◌∷◌, ◌++◌, true, false, MatchBool, IfOk};
ghost use Rattle.json.specs.Print.{print};
ghost use Rattle.json.specs.Token as token;
ghost use Rattle.json.specs.Tree.{json_tokens, items_tokens, members_tokens};
ghost use Rattle.serde_json.specs.Find.{is_float};
ghost use Rattle.serde_json.specs.View.{view, number_view, items_view, members_view};
ghost use Rattle.serde_json.specs.Written.{compact_text, has_float, items_have_float, items_outline, members_have_float, members_outline, number_text, outline};
ghost use Rattle.document_table.specs.Kept.{each_form, is_kept, kept, kept_form, kept_items, kept_members};

use crate::fault::Cause;
use crate::form::Form;
use crate::layout::{Layout, layout_of, member_form};
use crate::leaf::{item_form, short_form};
use json::{Token, Writer};
use plain_data::Text;
use serde_json::{Map, Number, Value};
use std::alloc::{AllocError, Global};

/// What a value says of which this form is asked, as compact JSON text: without hints, and without what is read over.
#[tactic(auto, using(crate::proofs::Printed::printed_compactly))]
pub fn kept_text(alloc: Global, form: Form, value: &Value) -> Result<Text, AllocError>
    requires { has_float (kept form (view value.now)) ≡ false }
    ensures { IfOk result (λ text. text ≡ compact_text (kept form (view value.now))) }
{
    let mut out = Writer::new(Vec::new(alloc));
    if write_value(form, value, &mut out)? {
        return Ok(text_of(out));
    }
    unreachable!()
}

/// The text of what was written, where nothing stood before it.
fn text_of(out: Writer) -> Text
    requires { out.before ≡ [] }
    ensures { result ≡ print out.tokens }
{
    match String::from_utf8(out.into_inner()) {
        Ok(text) => Text::from_string(text),
        Err(_) => unreachable!(),
    }
}

fn kept_form(form: Result<Form, Cause>) -> Option<Form>
    ensures { result ≡ kept_form form }
{
    match form {
        Ok(form) => { if is_kept(form) { Some(form) } else { None } }
        Err(_) => None,
    }
}

fn is_kept(form: Form) -> bool
    ensures { result ≡ is_kept form }
{
    match form {
        Form::Anything => false,
        Form::Hints => false,
        _ => true,
    }
}

fn each_form(form: Form) -> Form
    ensures { result ≡ each_form form }
{
    match item_form(short_form(form)) {
        None => Form::Anything,
        Some(each) => each,
    }
}

/// What a value says; false where some number in it isn't whole.
#[cycle(writing)]
fn write_value(form: Form, value: &Value, out: &mut Writer) -> Result<bool, AllocError>
    ensures text { IfOk result (λ whole. MatchBool whole
        ((has_float (kept form (view value.now)) ≡ false)
        × (out.new.tokens ≡ out.old.tokens ++ json_tokens (outline (kept form (view value.now)))))
        (has_float (kept form (view value.now)) ≡ true)) }
    ensures before { out.new.before ≡ out.old.before }
{
    match value {
        Value::Null => {
            out.token(Token::Null)?;
            Ok(true)
        }
        Value::Bool(truth) => {
            out.token(Token::Bool(*truth))?;
            Ok(true)
        }
        Value::Number(number) => write_number(number, out),
        Value::String(text) => {
            out.string(text.as_str())?;
            Ok(true)
        }
        Value::Array(items) => {
            out.begin_array()?;
            write_items(each_form(form), items, out)
        }
        Value::Object(members) => {
            out.begin_object()?;
            write_members(layout_of(form, value), members, out)
        }
    }
}

/// A whole number; false, and nothing is written, for another.
#[tactic(auto, using(crate::proofs::Printed::from_zero, crate::proofs::Printed::with_sign, crate::proofs::Printed::not_whole))]
fn write_number(number: &Number, out: &mut Writer) -> Result<bool, AllocError>
    ensures text { IfOk result (λ whole. MatchBool whole
        ((is_float (number_view number.now) ≡ false)
        × (out.new.tokens
        ≡ out.old.tokens ++ token.number (number_text (number_view number.now)) ∷ []))
        (is_float (number_view number.now) ≡ true)) }
    ensures before { out.new.before ≡ out.old.before }
{
    if let Some(whole) = number.as_u64() {
        out.u64(whole)?;
        return Ok(true);
    }
    match number.as_i64() {
        None => Ok(false),
        Some(whole) => {
            out.i64(whole)?;
            Ok(true)
        }
    }
}

/// The items of a list and its closing bracket.
#[cycle(writing)]
fn write_items(form: Form, items: &Vec<Value>, out: &mut Writer) -> Result<bool, AllocError>
    ensures text { IfOk result (λ whole. MatchBool whole
        ((items_have_float (kept_items form (items_view items.now.items)) ≡ false)
        × (out.new.tokens ≡ out.old.tokens
        ++ items_tokens (items_outline (kept_items form (items_view items.now.items)))))
        (items_have_float (kept_items form (items_view items.now.items)) ≡ true)) }
    ensures before { out.new.before ≡ out.old.before }
{
    for item in items {
        if !write_value(form, item, out)? {
            return Ok(false);
        }
    }
    out.end_array()?;
    Ok(true)
}

/// The members of an object that are kept, and its closing bracket.
#[cycle(writing)]
fn write_members(
    layout: Layout,
    members: &Map<String, Value>,
    out: &mut Writer,
) -> Result<bool, AllocError>
    ensures text { IfOk result (λ whole. MatchBool whole
        ((members_have_float (kept_members layout (members_view members.now.entries)) ≡ false)
        × (out.new.tokens ≡ out.old.tokens ++ members_tokens
        (members_outline (kept_members layout (members_view members.now.entries)))))
        (members_have_float (kept_members layout (members_view members.now.entries)) ≡ true)) }
    ensures before { out.new.before ≡ out.old.before }
{
    for (name, value) in members.iter() {
        let Some(form) = kept_form(member_form(layout, name.as_str())) else {
            continue;
        };
        out.key(name.as_str())?;
        if !write_value(form, value, out)? {
            return Ok(false);
        }
    }
    out.end_object()?;
    Ok(true)
}

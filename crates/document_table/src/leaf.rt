//! What a value that is no object has to be, by the form that is asked of it.
ghost use Rattle.std.specs.Prelude.{◌≡◌};
ghost use Rattle.serde_json.specs.View.{view};
ghost use Rattle.document_table.specs.Leaves.{is_int, item_form, short_form, short_kind, takes_bool, takes_leaf, takes_null, takes_number, takes_text, takes_word, wrong, wrong_leaf};

use crate::fault::Cause;
use crate::form::{Form, Kind};
use crate::texts::{
    has_byte, has_hash, is_id, is_link_merge, is_listed, is_pick_value, is_scatter_method,
    is_source, is_step_id, is_type_text, plain_id,
};
use serde_json::Value;

/// The form that a value is held to where it is no object: under a key of a map it may stand for
/// one field of the object.
pub(crate) fn short_form(form: Form) -> Form
    ensures { result ≡ short_form form }
{
    match form {
        Form::Keyed(kind) => short_kind(kind),
        _ => form,
    }
}

fn short_kind(kind: Kind) -> Form
    ensures { result ≡ short_kind kind }
{
    match kind {
        Kind::ToolInput => Form::InputType,
        Kind::ToolOutput => Form::OutputType,
        Kind::WorkflowInput => Form::Type,
        Kind::WorkflowOutput => Form::Type,
        Kind::StepInput => Form::Sources,
        Kind::Variable => Form::Text,
        _ => Form::Object(kind),
    }
}

/// Why a value of another form is refused.
pub(crate) fn wrong(form: Form) -> Cause
    ensures { result ≡ wrong form }
{
    match form {
        Form::Version => Cause::WrongVersion,
        _ => Cause::WrongForm,
    }
}

/// Why null, a boolean, a number or a text is refused.
pub(crate) fn wrong_leaf(form: Form, value: &Value) -> Cause
    ensures { result ≡ wrong_leaf form (view value.now) }
{
    match (form, value) {
        (Form::Run, Value::String(_)) => Cause::ItemElsewhere,
        _ => wrong(form),
    }
}

/// The form of the items, where a list is taken.
pub(crate) fn item_form(form: Form) -> Option<Form>
    ensures { result ≡ item_form form }
{
    match form {
        Form::Anything => Some(Form::Anything),
        Form::Value => Some(Form::Value),
        Form::Words => Some(Form::Text),
        Form::Names => Some(Form::Name),
        Form::Symbols => Some(Form::Name),
        Form::Ints => Some(Form::Int),
        Form::Sources => Some(Form::Source),
        Form::Type => Some(Form::Type),
        Form::InputType => Some(Form::Type),
        Form::OutputType => Some(Form::Type),
        Form::Arguments => Some(Form::Argument),
        Form::SecondaryFiles => Some(Form::SecondaryFile),
        Form::StepOutputs => Some(Form::StepOutput),
        Form::Objects(kind) => Some(Form::Object(kind)),
        Form::Requirements => Some(Form::Requirement),
        Form::Hints => Some(Form::Hint),
        _ => None,
    }
}

/// Whether null, a boolean, a number or a text is taken.
pub(crate) fn takes_leaf(form: Form, value: &Value) -> bool
    ensures { result ≡ takes_leaf form (view value.now) }
{
    match value {
        Value::Null => takes_null(form),
        Value::Bool(truth) => takes_bool(form, *truth),
        Value::Number(_) => takes_number(form, value),
        Value::String(text) => takes_text(form, text.as_str()),
        _ => false,
    }
}

fn takes_null(form: Form) -> bool
    ensures { result ≡ takes_null form }
{
    matches!(form, Form::Anything | Form::Value | Form::MaybeBool)
}

fn takes_bool(form: Form, truth: bool) -> bool
    ensures { result ≡ takes_bool form truth }
{
    match form {
        Form::Anything => true,
        Form::Value => true,
        Form::Bool => true,
        Form::MaybeBool => true,
        Form::OnlyFalse => !truth,
        _ => false,
    }
}

fn takes_number(form: Form, value: &Value) -> bool
    ensures { result ≡ takes_number form (view value.now) }
{
    match form {
        Form::Anything => true,
        Form::Value => value.as_i64().is_some(),
        Form::Int => is_int(value),
        _ => false,
    }
}

/// Whether a value is a whole number of 32 bits.
fn is_int(value: &Value) -> bool
    ensures { result ≡ is_int (view value.now) }
{
    match value.as_i64() {
        None => false,
        Some(number) => -2147483648 <= number && number <= 2147483647,
    }
}

fn takes_text(form: Form, text: &str) -> bool
    ensures { result ≡ takes_text form text.now }
{
    match form {
        Form::Anything => true,
        Form::Value => true,
        Form::Text => true,
        Form::Words => true,
        Form::Name => is_listed(text),
        Form::Names => is_listed(text),
        Form::Argument => true,
        Form::Version => text == "v1.2",
        Form::Run => has_hash(text) || !has_byte(text, b'#'),
        Form::SecondaryFile => !has_byte(text, b'/'),
        Form::SecondaryFiles => !has_byte(text, b'/'),
        Form::Pattern => !has_byte(text, b'/'),
        _ => takes_word(form, text),
    }
}

fn takes_word(form: Form, text: &str) -> bool
    ensures { result ≡ takes_word form text.now }
{
    match form {
        Form::Id => is_id(plain_id(text)),
        Form::StepId => is_step_id(plain_id(text)),
        Form::StepOutput => is_id(plain_id(text)),
        Form::ScatterMethod => is_scatter_method(text),
        Form::LinkMerge => is_link_merge(text),
        Form::PickValue => is_pick_value(text),
        Form::Source => has_hash(text) || is_source(text),
        Form::Sources => has_hash(text) || is_source(text),
        Form::Type => is_type_text(text),
        Form::InputType => is_type_text(text) || text == "stdin",
        Form::OutputType => is_type_text(text) || text == "stdout" || text == "stderr",
        _ => false,
    }
}

//! What the members of an object have to be, by the form that is asked of it.
ghost use Rattle.std.specs.Prelude.{◌≡◌, option_map};
ghost use Rattle.serde_json.specs.View.{view};
ghost use Rattle.document_table.specs.Layouts.{acting_requirement, document_layout, field_form, hint_layout, is_read_over, key_fits, known_requirement, layout_of, member_form, missing, missing_field, plain_requirements, process_kind, process_layout, requirement_layout, subject_of, type_layout};
ghost use Rattle.document_table.specs.Table.{row_seen};
ghost use Rattle.document_table.specs.Texts.{is_one_of};
ghost use Rattle.std.specs.Prelude.{map};

use crate::fault::Cause;
use crate::form::{FieldRow, Form, Kind};
use crate::table::{form_of, rows_of};
use crate::texts::{has_byte, is_id, is_step_id, plain_id};
use serde_json::Value;

/// What the members of an object have to be.
#[derive(Clone, Copy, Drop)]
pub enum Layout {
    /// Anything.
    Free,
    /// The object itself is refused.
    Refused(Cause),
    /// The object has to say its class, and doesn't.
    Unclassed,
    /// The document has to say its version, and doesn't.
    Unversioned,
    /// The fields of such an object.
    Fields(Kind),
    /// The same, where the object's key stands for its subject.
    KeyedFields(Kind),
    /// Such objects by their subjects.
    ByKey(Kind),
    /// Requirements by their classes.
    Requirements,
    /// Hints by their classes.
    Hints,
    /// Values of any name.
    Values,
}

/// What the members of an object have to be, where this form is asked of it.
pub(crate) fn layout_of(form: Form, object: &Value) -> Layout
    ensures { result ≡ layout_of form (view object.now) }
{
    match form {
        Form::Anything => Layout::Free,
        Form::Value => Layout::Values,
        Form::Document => document_layout(object),
        Form::Run => process_layout(object),
        Form::Process => process_layout(object),
        Form::Packed => Layout::Fields(Kind::Packed),
        Form::Version => Layout::Refused(Cause::WrongVersion),
        Form::Type => type_layout(object),
        Form::InputType => type_layout(object),
        Form::OutputType => type_layout(object),
        Form::Argument => Layout::Fields(Kind::Argument),
        Form::SecondaryFile => Layout::Fields(Kind::SecondaryFile),
        Form::SecondaryFiles => Layout::Fields(Kind::SecondaryFile),
        Form::StepOutput => Layout::Fields(Kind::StepOutput),
        Form::Object(kind) => Layout::Fields(kind),
        Form::Objects(kind) => Layout::ByKey(kind),
        Form::Keyed(kind) => Layout::KeyedFields(kind),
        Form::Requirement => requirement_layout(object),
        Form::Requirements => Layout::Requirements,
        Form::Hint => hint_layout(object),
        Form::Hints => Layout::Hints,
        _ => Layout::Refused(Cause::WrongForm),
    }
}

fn document_layout(object: &Value) -> Layout
    ensures { result ≡ document_layout (view object.now) }
{
    match object.get("cwlVersion") {
        None => Layout::Unversioned,
        Some(_) => process_layout(object),
    }
}

fn process_layout(object: &Value) -> Layout
    ensures { result ≡ process_layout (view object.now) }
{
    match object.get("class") {
        None => Layout::Unclassed,
        Some(class) => match class.as_str() {
            None => Layout::Refused(Cause::WrongClass),
            Some(name) => match process_kind(name) {
                None => Layout::Refused(Cause::WrongClass),
                Some(kind) => Layout::Fields(kind),
            },
        },
    }
}

fn process_kind(class: &str) -> Option<Kind>
    ensures { result ≡ process_kind class.now }
{
    if class == "CommandLineTool" {
        Some(Kind::Tool)
    } else if class == "Workflow" {
        Some(Kind::Workflow)
    } else {
        None
    }
}

fn type_layout(object: &Value) -> Layout
    ensures { result ≡ type_layout (view object.now) }
{
    match object.get("type") {
        None => Layout::Refused(Cause::WrongForm),
        Some(class) => match class.as_str() {
            None => Layout::Refused(Cause::WrongForm),
            Some(name) => {
                if name == "array" {
                    Layout::Fields(Kind::ArrayType)
                } else if name == "enum" {
                    Layout::Fields(Kind::EnumType)
                } else {
                    Layout::Refused(Cause::WrongForm)
                }
            }
        },
    }
}

fn requirement_layout(object: &Value) -> Layout
    ensures { result ≡ requirement_layout (view object.now) }
{
    match object.get("class") {
        None => Layout::Unclassed,
        Some(class) => match class.as_str() {
            None => Layout::Refused(Cause::WrongForm),
            Some(name) => match known_requirement(name) {
                None => Layout::Refused(Cause::UnknownRequirement),
                Some(kind) => Layout::Fields(kind),
            },
        },
    }
}

fn hint_layout(object: &Value) -> Layout
    ensures { result ≡ hint_layout (view object.now) }
{
    match object.get("class") {
        None => Layout::Unclassed,
        Some(class) => match class.as_str() {
            None => Layout::Refused(Cause::WrongForm),
            Some(name) => match acting_requirement(name) {
                None => Layout::Free,
                Some(kind) => Layout::Fields(kind),
            },
        },
    }
}

/// The requirements that change what a job does.
fn acting_requirement(class: &str) -> Option<Kind>
    ensures { result ≡ acting_requirement class.now }
{
    if class == "EnvVarRequirement" {
        Some(Kind::EnvVarRequirement)
    } else if class == "WorkReuse" {
        Some(Kind::WorkReuse)
    } else {
        None
    }
}

/// The requirements that this runner meets.
fn known_requirement(class: &str) -> Option<Kind>
    ensures { result ≡ known_requirement class.now }
{
    if is_plain_requirement(class) {
        return Some(Kind::PlainRequirement);
    }
    acting_requirement(class)
}

fn is_plain_requirement(class: &str) -> bool
    ensures { result ≡ is_one_of plain_requirements class.now }
{
    matches!(
        class,
        "InlineJavascriptRequirement"
            | "ScatterFeatureRequirement"
            | "SubworkflowFeatureRequirement"
            | "MultipleInputFeatureRequirement"
            | "StepInputExpressionRequirement"
    )
}

/// Whether a name is ignored at every object: those that describe, and every extension's.
fn is_read_over(name: &str) -> bool
    ensures { result ≡ is_read_over name.now }
{
    matches!(
        name,
        "doc" | "label" | "intent" | "format" | "streamable" | "$namespaces" | "$schemas"
    ) || has_byte(name, b':')
}

/// The field that the key of a map stands for.
pub(crate) fn subject_of(kind: Kind) -> &'static str
    ensures { result.now ≡ subject_of kind }
{
    match kind {
        Kind::Variable => "envName",
        Kind::PlainRequirement => "class",
        Kind::EnvVarRequirement => "class",
        Kind::WorkReuse => "class",
        _ => "id",
    }
}

/// Whether a text may be the subject of such an object.
fn key_fits(kind: Kind, key: &str) -> bool
    ensures { result ≡ key_fits kind key.now }
{
    match kind {
        Kind::Variable => true,
        Kind::Step => is_step_id(plain_id(key)),
        _ => is_id(plain_id(key)),
    }
}

/// The form of a member of this name, or why there may be none.
pub(crate) fn member_form(layout: Layout, name: &str) -> Result<Form, Cause>
    ensures { result ≡ member_form layout name.now }
{
    match layout {
        Layout::Fields(kind) => field_form(kind, name),
        Layout::KeyedFields(kind) => field_form(kind, name),
        Layout::ByKey(kind) => {
            if key_fits(kind, name) {
                Ok(Form::Keyed(kind))
            } else {
                Err(Cause::WrongForm)
            }
        }
        Layout::Requirements => match known_requirement(name) {
            None => Err(Cause::UnknownRequirement),
            Some(kind) => Ok(Form::Keyed(kind)),
        },
        Layout::Hints => match acting_requirement(name) {
            None => Ok(Form::Anything),
            Some(kind) => Ok(Form::Keyed(kind)),
        },
        Layout::Values => Ok(Form::Value),
        _ => Ok(Form::Anything),
    }
}

fn field_form(kind: Kind, name: &str) -> Result<Form, Cause>
    ensures { result ≡ field_form kind name.now }
{
    match form_of(kind, name) {
        Some(form) => Ok(form),
        None => {
            if is_read_over(name) {
                Ok(Form::Anything)
            } else {
                Err(Cause::UnknownField)
            }
        }
    }
}

/// The first field that has to be there and isn't.
pub(crate) fn missing_field(layout: Layout, object: &Value) -> Option<&'static str>
    ensures { option_map (λ name. name.now) result ≡ missing_field layout (view object.now) }
{
    match layout {
        Layout::Unclassed => Some("class"),
        Layout::Unversioned => Some("cwlVersion"),
        Layout::Fields(kind) => missing(rows_of(kind), "", object),
        Layout::KeyedFields(kind) => missing(rows_of(kind), subject_of(kind), object),
        _ => None,
    }
}

/// The first of the rows that the object has to have and lacks, but for the one that is given.
fn missing(rows: &'static [FieldRow], given: &str, object: &Value) -> Option<&'static str>
    ensures { option_map (λ name. name.now) result
        ≡ missing given.now (view object.now) (map row_seen rows.now) }
{
    for row in rows {
        if let FieldRow::Must(field, _) = *row {
            if field != given && object.get(field).is_none() {
                return Some(field);
            }
        }
    }
    None
}

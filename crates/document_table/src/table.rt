//! The one table of fields: each object of a document with its fields, as the standard has them
//! (CWL v1.2, Command Line Tool and Workflow Description).
ghost use Rattle.std.specs.Prelude.{◌≡◌, map, Option};
ghost use Rattle.document_table.specs.Table.{rows_of, row_seen, form_named, form_of};

use crate::form::FieldRow::{May, Must};
use crate::form::{FieldRow, Form, Kind};

static PACKED: [FieldRow; 2] = [
    Must("cwlVersion", Form::Version),
    Must("$graph", Form::Anything),
];

static TOOL: [FieldRow; 15] = [
    May("cwlVersion", Form::Version),
    Must("class", Form::Text),
    May("id", Form::Text),
    Must("inputs", Form::Objects(Kind::ToolInput)),
    Must("outputs", Form::Objects(Kind::ToolOutput)),
    May("baseCommand", Form::Words),
    May("arguments", Form::Arguments),
    May("stdin", Form::Text),
    May("stdout", Form::Text),
    May("stderr", Form::Text),
    May("requirements", Form::Requirements),
    May("hints", Form::Hints),
    May("successCodes", Form::Ints),
    May("temporaryFailCodes", Form::Ints),
    May("permanentFailCodes", Form::Ints),
];

static WORKFLOW: [FieldRow; 8] = [
    May("cwlVersion", Form::Version),
    Must("class", Form::Text),
    May("id", Form::Text),
    Must("inputs", Form::Objects(Kind::WorkflowInput)),
    Must("outputs", Form::Objects(Kind::WorkflowOutput)),
    Must("steps", Form::Objects(Kind::Step)),
    May("requirements", Form::Requirements),
    May("hints", Form::Hints),
];

static TOOL_INPUT: [FieldRow; 6] = [
    Must("id", Form::Id),
    Must("type", Form::InputType),
    May("default", Form::Value),
    May("inputBinding", Form::Object(Kind::InputBinding)),
    May("loadContents", Form::Bool),
    May("secondaryFiles", Form::SecondaryFiles),
];

static TOOL_OUTPUT: [FieldRow; 4] = [
    Must("id", Form::Id),
    Must("type", Form::OutputType),
    May("outputBinding", Form::Object(Kind::OutputBinding)),
    May("secondaryFiles", Form::SecondaryFiles),
];

static WORKFLOW_INPUT: [FieldRow; 6] = [
    Must("id", Form::Id),
    Must("type", Form::Type),
    May("default", Form::Value),
    May("secondaryFiles", Form::SecondaryFiles),
    May("inputBinding", Form::Anything),
    May("loadContents", Form::OnlyFalse),
];

static WORKFLOW_OUTPUT: [FieldRow; 6] = [
    Must("id", Form::Id),
    Must("type", Form::Type),
    May("outputSource", Form::Sources),
    May("linkMerge", Form::LinkMerge),
    May("pickValue", Form::PickValue),
    May("secondaryFiles", Form::Anything),
];

static STEP: [FieldRow; 9] = [
    Must("id", Form::StepId),
    Must("in", Form::Objects(Kind::StepInput)),
    Must("out", Form::StepOutputs),
    Must("run", Form::Run),
    May("scatter", Form::Names),
    May("scatterMethod", Form::ScatterMethod),
    May("when", Form::Text),
    May("requirements", Form::Requirements),
    May("hints", Form::Hints),
];

static STEP_INPUT: [FieldRow; 7] = [
    Must("id", Form::Id),
    May("source", Form::Sources),
    May("linkMerge", Form::LinkMerge),
    May("pickValue", Form::PickValue),
    May("default", Form::Value),
    May("valueFrom", Form::Text),
    May("loadContents", Form::OnlyFalse),
];

static STEP_OUTPUT: [FieldRow; 1] = [Must("id", Form::Id)];

static INPUT_BINDING: [FieldRow; 7] = [
    May("position", Form::Int),
    May("prefix", Form::Text),
    May("separate", Form::Bool),
    May("itemSeparator", Form::Text),
    May("valueFrom", Form::Text),
    May("shellQuote", Form::Anything),
    May("loadContents", Form::Bool),
];

static ARGUMENT: [FieldRow; 6] = [
    May("position", Form::Int),
    May("prefix", Form::Text),
    May("separate", Form::Bool),
    May("itemSeparator", Form::Text),
    May("valueFrom", Form::Text),
    May("shellQuote", Form::Anything),
];

static OUTPUT_BINDING: [FieldRow; 3] = [
    May("glob", Form::Words),
    May("loadContents", Form::Bool),
    May("outputEval", Form::Text),
];

static ITEM_BINDING: [FieldRow; 2] = [May("prefix", Form::Text), May("separate", Form::Bool)];

static ARRAY_TYPE: [FieldRow; 3] = [
    Must("type", Form::Text),
    Must("items", Form::Type),
    May("inputBinding", Form::Object(Kind::ItemBinding)),
];

static ENUM_TYPE: [FieldRow; 3] = [
    Must("type", Form::Text),
    Must("symbols", Form::Symbols),
    May("name", Form::Text),
];

static SECONDARY_FILE: [FieldRow; 2] = [
    Must("pattern", Form::Pattern),
    May("required", Form::MaybeBool),
];

static PLAIN_REQUIREMENT: [FieldRow; 1] = [Must("class", Form::Text)];

static ENV_VAR_REQUIREMENT: [FieldRow; 2] = [
    Must("class", Form::Text),
    Must("envDef", Form::Objects(Kind::Variable)),
];

static WORK_REUSE: [FieldRow; 2] = [Must("class", Form::Text), May("enableReuse", Form::Bool)];

static VARIABLE: [FieldRow; 2] = [Must("envName", Form::Text), Must("envValue", Form::Text)];

/// The rows of an object's fields.
pub(crate) fn rows_of(kind: Kind) -> &'static [FieldRow]
    ensures { map row_seen result.now ≡ rows_of kind }
{
    match kind {
        Kind::Packed => &PACKED,
        Kind::Tool => &TOOL,
        Kind::Workflow => &WORKFLOW,
        Kind::ToolInput => &TOOL_INPUT,
        Kind::ToolOutput => &TOOL_OUTPUT,
        Kind::WorkflowInput => &WORKFLOW_INPUT,
        Kind::WorkflowOutput => &WORKFLOW_OUTPUT,
        Kind::Step => &STEP,
        Kind::StepInput => &STEP_INPUT,
        Kind::StepOutput => &STEP_OUTPUT,
        Kind::InputBinding => &INPUT_BINDING,
        Kind::Argument => &ARGUMENT,
        Kind::OutputBinding => &OUTPUT_BINDING,
        Kind::ItemBinding => &ITEM_BINDING,
        Kind::ArrayType => &ARRAY_TYPE,
        Kind::EnumType => &ENUM_TYPE,
        Kind::SecondaryFile => &SECONDARY_FILE,
        Kind::PlainRequirement => &PLAIN_REQUIREMENT,
        Kind::EnvVarRequirement => &ENV_VAR_REQUIREMENT,
        Kind::WorkReuse => &WORK_REUSE,
        Kind::Variable => &VARIABLE,
    }
}

/// The form of a field of such an object.
pub(crate) fn form_of(kind: Kind, name: &str) -> Option<Form>
    ensures { result ≡ form_of kind name.now }
{
    form_named(rows_of(kind), name)
}

fn form_named(rows: &[FieldRow], name: &str) -> Option<Form>
    ensures { result ≡ form_named name.now (map row_seen rows.now) }
{
    for row in rows {
        let (field, form) = match *row {
            Must(field, form) => (field, form),
            May(field, form) => (field, form),
        };
        if field == name {
            return Some(form);
        }
    }
    None
}

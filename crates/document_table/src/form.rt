//! The objects of a document, and the forms that a value in it may have to have.

/// The objects of a document, each with fields of its own.
#[derive(Clone, Copy, Drop)]
pub enum Kind {
    /// A document that is a list of processes.
    Packed,
    Tool,
    Workflow,
    ToolInput,
    ToolOutput,
    WorkflowInput,
    WorkflowOutput,
    Step,
    StepInput,
    StepOutput,
    InputBinding,
    Argument,
    OutputBinding,
    ItemBinding,
    ArrayType,
    EnumType,
    SecondaryFile,
    /// A requirement with no field but its class.
    PlainRequirement,
    EnvVarRequirement,
    WorkReuse,
    /// An entry of `envDef`.
    Variable,
}

/// What a value of a document has to be.
#[derive(Clone, Copy, Drop)]
pub enum Form {
    /// Any JSON: a field that is ignored.
    Anything,
    /// A value of the input object: JSON whose numbers are whole and have at most 64 bits.
    Value,
    /// A whole document: a process that says its version.
    Document,
    /// A whole document that is a list of processes.
    Packed,
    /// An item of such a document.
    Process,
    /// A process in a step, or its name: that of a document, without `#`, or one that begins with `#`.
    Run,
    /// The text `v1.2`.
    Version,
    /// A text that stands for one that isn't empty and has neither `/` nor `#`.
    Id,
    /// An id without `[`.
    StepId,
    Text,
    /// A text, or a list of texts.
    Words,
    /// A text that may stand for an id that begins with `#`.
    Name,
    /// A name, or a list of names, of which no two stand for the same.
    Names,
    /// The symbols of an enum.
    Symbols,
    Bool,
    /// A boolean, or null in its place.
    MaybeBool,
    /// The value `false` alone.
    OnlyFalse,
    /// A whole number of 32 bits.
    Int,
    Ints,
    ScatterMethod,
    LinkMerge,
    PickValue,
    /// `name`, or `step/name`.
    Source,
    /// A source, or a list of sources.
    Sources,
    /// A type of values.
    Type,
    /// A type, or `stdin`.
    InputType,
    /// A type, or `stdout`, or `stderr`.
    OutputType,
    /// A text, or the object of an argument.
    Argument,
    Arguments,
    /// A text without `/`, or the object of a secondary file.
    SecondaryFile,
    /// A secondary file, or a list of them.
    SecondaryFiles,
    /// A text without `/`.
    Pattern,
    /// An id, or the object of a step's output.
    StepOutput,
    StepOutputs,
    Object(Kind),
    /// A list of such objects, or a map of them by their subject.
    Objects(Kind),
    /// What is under a key of such a map: the object, or the one field that may stand for it.
    Keyed(Kind),
    /// An object with a class that this runner knows.
    Requirement,
    /// A list of requirements, or a map of them by their class.
    Requirements,
    /// An object with a class.
    Hint,
    /// A list of hints, or a map of them by their class.
    Hints,
}

/// A row of the table: a field that has to be there or may be, with its form.
#[derive(Clone, Copy, Drop)]
pub enum FieldRow {
    Must(&'static str, Form),
    May(&'static str, Form),
}

//! Tools: a command, its parameters, and what it asks of the one who runs it.
use crate::entries::Entries;
use cwl_types::MemberType;
use cwl_value::Value;
use param_refs::Template;
use plain_data::{Items, Shared, Text};

/// A command and the values around it (CWL v1.2, `CommandLineTool`).
#[derive(Drop)]
pub struct Tool {
    /// The words that every command line begins with.
    pub base_command: Items<Text>,
    /// Further words. A text stands for a binding with it as `value_from`.
    pub arguments: Items<Binding>,
    pub inputs: Entries<ToolInput>,
    pub outputs: Entries<ToolOutput>,
    pub streams: Streams,
    pub exit_codes: ExitCodes,
    pub asked: Asked,
    /// What tells this tool from another, beside its environment: its object as it is written, without hints and what is read
    /// over, as compact JSON text.
    pub written: Text,
}

/// The names of the files at the command's streams, where the tool names them.
#[derive(Drop)]
pub struct Streams {
    /// The path of the file that is the standard input.
    pub stdin: Option<Template>,
    pub stdout: Option<Template>,
    pub stderr: Option<Template>,
}

/// A value that a tool takes (CWL v1.2, `CommandInputParameter`).
#[derive(Drop)]
pub struct ToolInput {
    pub kind: InputType,
    /// Stands in for an absent value.
    pub default: Option<Value>,
    /// How the value becomes words; none where the input says nothing.
    pub binding: Option<Binding>,
    /// Whether the contents of a File are read before the command starts, as the input or its binding asks.
    pub load_contents: bool,
    pub secondary_files: Items<SecondaryFile>,
}

/// What a value for an input of a tool has to be.
#[derive(Drop)]
pub enum InputType {
    /// `stdin`: a File, which is the standard input.
    Stdin,
    /// One of these types.
    Members(Items<MemberType>),
}

/// How a value becomes words of the command line (CWL v1.2, `CommandLineBinding`).
#[derive(Drop)]
pub struct Binding {
    /// The sorting key: lower positions come first. 0 where the field is absent.
    pub position: i32,
    /// Stands before the value.
    pub prefix: Option<Text>,
    /// Whether the prefix is a word of its own. True where the field is absent.
    pub separate: bool,
    /// Joins the items of a list to one word.
    pub item_separator: Option<Text>,
    /// The value in place of the input's.
    pub value_from: Option<Template>,
}

/// A file that comes with another (CWL v1.2, `SecondaryFileSchema`).
#[derive(Drop)]
pub struct SecondaryFile {
    /// As it is written.
    pub pattern: Text,
    /// Whether it has to be there. A pattern that ends with `?` says that it need not.
    pub required: bool,
}

/// A value that a tool gives (CWL v1.2, `CommandOutputParameter`).
#[derive(Drop)]
pub struct ToolOutput {
    pub kind: OutputType,
    pub binding: Option<OutputBinding>,
    pub secondary_files: Items<SecondaryFile>,
}

/// What the value of an output of a tool is.
#[derive(Drop)]
pub enum OutputType {
    /// `stdout`: the file that took the standard output.
    Stdout,
    /// `stderr`: the file that took the standard error.
    Stderr,
    /// One of these types.
    Members(Items<MemberType>),
}

/// Where the value of an output comes from (CWL v1.2, `CommandOutputBinding`).
#[derive(Drop)]
pub struct OutputBinding {
    /// The patterns of its files; none where the field is absent, which differs from an empty list.
    pub glob: Option<Items<Template>>,
    /// Whether the contents of the files are read.
    pub load_contents: bool,
    /// The value in place of the files.
    pub output_eval: Option<Template>,
}

/// The exit codes that a tool gives a meaning to. Other codes mean what they do everywhere.
#[derive(Drop)]
pub struct ExitCodes {
    pub success: Items<i32>,
    pub temporary: Items<i32>,
    pub permanent: Items<i32>,
}

/// What acts on a job, as the process asks or what is around it: what is nearest counts.
#[derive(Drop)]
pub struct Asked {
    pub requirements: Acting,
    /// Count where no requirement says anything.
    pub hints: Acting,
}

/// The requirements that change what a job does.
#[derive(Drop)]
pub struct Acting {
    /// Variables of the environment by their names (CWL v1.2, `EnvVarRequirement`).
    pub environment: Option<Shared<Entries<Variable>>>,
    /// Whether an earlier result may be used (CWL v1.2, `WorkReuse`).
    pub reuse: Option<bool>,
}

/// The value of a variable of the environment (CWL v1.2, `EnvironmentDef`).
#[derive(Drop)]
pub struct Variable {
    /// As the document has it, before references have their values.
    pub written: Text,
    pub value: Template,
}

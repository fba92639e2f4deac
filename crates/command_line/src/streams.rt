//! The files of a command's streams.
ghost use Rattle.std.specs.Prelude.{◌≡◌, ◌==◌, Ok, IfOk, IfErr};
ghost use Rattle.std.specs.Option.{option_copied};
ghost use Rattle.std.specs.List.{find, list_any};
ghost use Rattle.command_line.specs.Results.{and_then};
ghost use Rattle.command_line.specs.Streams.{file_named, file_of_input, file_path, is_file_name, is_stderr, is_stdin, is_stdout, some_plain, stderr_of, stdin_of, stdout_of, unnamed};
ghost use Rattle.command_line.specs.Texts.{text_in};
ghost use Rattle.command_line.specs.declared.fault.LaunchText.TheVariants.{Stdin};
ghost use Rattle.command_line.specs.inner.Steps.{FaultOf};
ghost use Rattle.command_line.specs.inner.View.{value_or_null};

use crate::added::path_in;
use crate::texts::{Scope, is_plain, text_in};
use crate::{BuildError, BuildFault, LaunchText};
use cwl_process::{InputType, OutputType, Tool, ToolInput, ToolOutput};
use cwl_value::Value;
use param_refs::Template;
use plain_data::Text;
use std::alloc::{AllocError, Global};

/// The file that takes the child's output, or none where the tool neither names nor collects one.
pub(crate) fn stdout_file(
    alloc: Global,
    tool: &Tool,
    scope: Scope<'_>,
) -> Result<Option<Text>, BuildError>
    ensures ok { IfOk result (λ file. stdout_of scope.entry.inputs.now scope.entry.runtime.now
        tool.now ≡ Ok file) }
    ensures err { IfErr result
        (FaultOf (stdout_of scope.entry.inputs.now scope.entry.runtime.now tool.now)) }
{
    match &tool.streams.stdout {
        Some(name) => file_named(alloc, scope, name, LaunchText::Stdout),
        None => Ok(unnamed(
            alloc,
            collects_stdout(tool.outputs.as_slice()),
            "cwl.stdout",
        )?),
    }
}

/// The file that takes the child's messages, or none where the tool neither names nor collects one.
pub(crate) fn stderr_file(
    alloc: Global,
    tool: &Tool,
    scope: Scope<'_>,
) -> Result<Option<Text>, BuildError>
    ensures ok { IfOk result (λ file. stderr_of scope.entry.inputs.now scope.entry.runtime.now
        tool.now ≡ Ok file) }
    ensures err { IfErr result
        (FaultOf (stderr_of scope.entry.inputs.now scope.entry.runtime.now tool.now)) }
{
    match &tool.streams.stderr {
        Some(name) => file_named(alloc, scope, name, LaunchText::Stderr),
        None => Ok(unnamed(
            alloc,
            collects_stderr(tool.outputs.as_slice()),
            "cwl.stderr",
        )?),
    }
}

/// The file that a template names, right in a folder.
fn file_named(
    alloc: Global,
    scope: Scope<'_>,
    name: &Template,
    place: LaunchText,
) -> Result<Option<Text>, BuildError>
    ensures ok { IfOk result
        (λ file. and_then (text_in scope.entry.inputs.now scope.entry.runtime.now place name.now)
        (file_named place) ≡ Ok file) }
    ensures err { IfErr result
        (FaultOf (and_then (text_in scope.entry.inputs.now scope.entry.runtime.now place name.now)
        (file_named place))) }
{
    match text_in(alloc, scope, name)? {
        Some(text) if is_file_name(text.as_str()) => Ok(Some(text)),
        _ => Err(BuildError::Refused(BuildFault::NotText(place))),
    }
}

/// A file of our choice for a stream that is collected.
fn unnamed(alloc: Global, is_collected: bool, name: &str) -> Result<Option<Text>, AllocError>
    ensures { IfOk result (λ file. file ≡ unnamed is_collected name.now) }
{
    if is_collected {
        Ok(Some(Text::from_text(alloc, name)?))
    } else {
        Ok(None)
    }
}

/// Whether an output collects the child's output.
fn collects_stdout(outputs: &[(Text, ToolOutput)]) -> bool
    ensures { result ≡ list_any (λ output. is_stdout output.1.kind) outputs.now }
{
    outputs
        .iter()
        .any(|output| matches!(output.1.kind, OutputType::Stdout))
}

/// Whether an output collects the child's messages.
fn collects_stderr(outputs: &[(Text, ToolOutput)]) -> bool
    ensures { result ≡ list_any (λ output. is_stderr output.1.kind) outputs.now }
{
    outputs
        .iter()
        .any(|output| matches!(output.1.kind, OutputType::Stderr))
}

/// Whether the text names a file right in a folder.
fn is_file_name(name: &str) -> bool
    ensures { result ≡ is_file_name name.now }
{
    !(name.is_empty() || name == "." || name == ".." || has_slash(name)) && is_plain(name)
}

fn has_slash(name: &str) -> bool
    ensures { result ≡ list_any (λ byte. byte == 47) name.now }
{
    name.as_bytes().iter().any(|byte| *byte == b'/')
}

/// The file that the child reads: the one that the tool names, or that of its input of type `stdin`, or none.
pub(crate) fn stdin_file(
    alloc: Global,
    tool: &Tool,
    scope: Scope<'_>,
) -> Result<Option<Text>, BuildError>
    ensures ok { IfOk result (λ file. stdin_of scope.entry.inputs.now scope.entry.runtime.now
        tool.now ≡ Ok file) }
    ensures err { IfErr result
        (FaultOf (stdin_of scope.entry.inputs.now scope.entry.runtime.now tool.now)) }
{
    match &tool.streams.stdin {
        Some(path) => plain_path(text_in(alloc, scope, path)?),
        None => input_file(alloc, tool.inputs.as_slice(), scope),
    }
}

/// The file of the input of type `stdin`.
fn input_file(
    alloc: Global,
    entries: &[(Text, ToolInput)],
    scope: Scope<'_>,
) -> Result<Option<Text>, BuildError>
    ensures ok { IfOk result (λ file. file_of_input scope.entry.inputs.now scope.entry.runtime.now
        (find (λ e. is_stdin e.1.kind) entries.now) ≡ Ok file) }
    ensures err { IfErr result
        (FaultOf (file_of_input scope.entry.inputs.now scope.entry.runtime.now
        (find (λ e. is_stdin e.1.kind) entries.now))) }
{
    match stdin_input(entries) {
        Some(entry) => plain_path(file_path(alloc, scope.inputs.get(entry.0.as_str()))?),
        None => Ok(None),
    }
}

fn plain_path(path: Option<Text>) -> Result<Option<Text>, BuildError>
    ensures ok { IfOk result (λ file. some_plain Stdin path ≡ Ok file) }
    ensures err { IfErr result (FaultOf (some_plain Stdin path)) }
{
    match path {
        Some(text) if is_plain(text.as_str()) => Ok(Some(text)),
        _ => Err(BuildError::Refused(BuildFault::NotText(LaunchText::Stdin))),
    }
}

/// The input of type `stdin`.
fn stdin_input(inputs: &[(Text, ToolInput)]) -> Option<&(Text, ToolInput)>
    ensures { option_copied result ≡ find (λ e. is_stdin e.1.kind) inputs.now }
{
    inputs
        .iter()
        .find(|entry| matches!(entry.1.kind, InputType::Stdin))
}

/// The path of a File.
fn file_path(alloc: Global, value: Option<&Value>) -> Result<Option<Text>, AllocError>
    ensures { IfOk result (λ path. path ≡ file_path (value_or_null (option_copied value.entry))) }
{
    match value {
        Some(Value::FileVal(file)) => path_in(alloc, &file.place),
        _ => Ok(None),
    }
}

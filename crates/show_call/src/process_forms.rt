//! A process in lines, and an input object for it that is to be filled in.
ghost use Rattle.std.specs.Prelude.{◌≡◌, IfOk, map, string_bytes};
ghost use Rattle.document_links.specs.declared.process.Process.{out-Process};
ghost use Rattle.show_call.specs.Showings as spec;

use document_links::Process;
use input_forms::{tool_lines, tool_template, workflow_lines, workflow_template};
use plain_data::Text;
use program_words::visible;
use std::alloc::{AllocError, Global};

/// Returns a process in lines: its class, and each of its inputs.
pub fn lines_of(alloc: Global, process: &Process) -> Result<Text, AllocError>
    ensures { IfOk result (λ text. text ≡ spec.lines_of process.now) }
{
    let mut text = String::from_str(alloc, class_of(process))?;
    let lines = input_lines(alloc, process)?;
    for line in lines.as_slice() {
        let line = visible(alloc, line.as_str())?;
        text.push('\n')?;
        text.push_str(line.as_str())?;
    }
    Ok(Text::from_string(text))
}

fn class_of(process: &Process) -> &'static str
    ensures { result.now ≡ spec.class_line (out-Process process.now) }
{
    match process {
        Process::Tool(_) => "valid: CommandLineTool",
        Process::Workflow(_) => "valid: Workflow",
    }
}

fn input_lines(alloc: Global, process: &Process) -> Result<Vec<String>, AllocError>
    ensures { IfOk result (λ lines. map string_bytes lines.items
        ≡ spec.input_lines (out-Process process.now)) }
{
    match process {
        Process::Tool(tool) => tool_lines(alloc, tool.inputs.as_slice()),
        Process::Workflow(workflow) => workflow_lines(alloc, workflow.inputs.as_slice()),
    }
}

/// Returns JSON text of an input object for a process.
pub fn template_of(alloc: Global, process: &Process) -> Result<Text, AllocError>
    ensures { IfOk result (λ text. text ≡ spec.template_of (out-Process process.now)) }
{
    match process {
        Process::Tool(tool) => tool_template(alloc, tool.inputs.as_slice()),
        Process::Workflow(workflow) => workflow_template(alloc, workflow.inputs.as_slice()),
    }
}

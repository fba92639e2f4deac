//! The texts of tools and steps that have patterns and references, and what is said of them.

use crate::references::{Runtime, Scope, Spoken, add_references, written};
use collected_outputs::{CollectFault, OutputFault};
use cwl_process::{InputType, OutputType, Tool, ToolInput, ToolOutput};
use document_links::{Process, Step};
use param_refs::Template;
use run_facts::{Known, find_in, type_words};
use std::alloc::{AllocError, Global};

// ---- places

/// The tool of the job at a place, which is JSON text; none if a name in it is escaped.
pub fn tool_of<'a>(process: &'a Process, place: &str) -> Option<&'a Tool> {
    let mut inside = process;
    for part in place.split('/').skip(1) {
        inside = &inner(inside, step_name(part))?.process;
    }
    match inside {
        Process::Tool(tool) => Some(tool),
        Process::Workflow(_) => None,
    }
}

// The step at a place.
fn step_of<'a>(process: &'a Process, place: &str) -> Option<&'a Step> {
    let mut inside = process;
    let mut found = None;
    for part in place.split('/').skip(1) {
        let step = inner(inside, step_name(part))?;
        inside = &step.process;
        found = Some(step);
    }
    found
}

/// The step of this id, if the process has it.
pub(crate) fn inner<'a>(process: &'a Process, step: &str) -> Option<&'a Step> {
    match process {
        Process::Tool(_) => None,
        Process::Workflow(workflow) => find_in(workflow.steps.as_slice(), step),
    }
}

// The name in a part of a place, without an index behind it and without the quote at the end.
fn step_name(part: &str) -> &str {
    match part.split_once('[') {
        Some((name, _)) => name,
        None => part.strip_suffix('"').unwrap_or(part),
    }
}

// ---- references

/// Adds lines on the references of what makes a tool's command: on the first that begins with a name that is not known, speaks of an
/// input that the tool has not, or of what no value of its type has; if there is none, on those that need not have a value.
pub fn add_tool(
    alloc: Global,
    process: &Process,
    place: &str,
    lines: &mut Vec<String>,
) -> Result<(), AllocError> {
    let Some(tool) = tool_of(process, place) else {
        return Ok(());
    };
    let scope = scope_of_command(alloc, tool)?;
    let texts = command_texts(alloc, tool)?;
    add_references(alloc, &scope, texts.as_slice(), lines)
}

/// Adds such lines on a step's `valueFrom` and `when`.
pub fn add_step(
    alloc: Global,
    process: &Process,
    place: &str,
    lines: &mut Vec<String>,
) -> Result<(), AllocError> {
    let Some(step) = step_of(process, place) else {
        return Ok(());
    };
    let scope = scope_of_step(alloc, step)?;
    let texts = step_texts(alloc, step)?;
    add_references(alloc, &scope, texts.as_slice(), lines)
}

/// What the texts speak of that make the command of a tool.
pub(crate) fn scope_of_command(alloc: Global, tool: &Tool) -> Result<Scope<'_>, AllocError> {
    scope_of_tool(alloc, tool, Runtime::CoresAndFolders)
}

/// What the texts of a tool's outputs speak of.
pub(crate) fn scope_of_outputs(alloc: Global, tool: &Tool) -> Result<Scope<'_>, AllocError> {
    scope_of_tool(alloc, tool, Runtime::Cores)
}

fn scope_of_tool(alloc: Global, tool: &Tool, runtime: Runtime) -> Result<Scope<'_>, AllocError> {
    let mut inputs = Vec::new(alloc);
    for (name, input) in tool.inputs.as_slice() {
        inputs.push((name, known_of(input)))?;
    }
    Ok(Scope { inputs, runtime })
}

/// What the texts of a step speak of: its inputs, of which nothing is known.
pub(crate) fn scope_of_step(alloc: Global, step: &Step) -> Result<Scope<'_>, AllocError> {
    let mut inputs = Vec::new(alloc);
    for (name, _) in step.inputs.as_slice() {
        inputs.push((name, Known::Nothing))?;
    }
    Ok(Scope {
        inputs,
        runtime: Runtime::None,
    })
}

fn known_of(input: &ToolInput) -> Known<'_> {
    match &input.kind {
        InputType::Stdin => Known::File,
        InputType::Members(types) => Known::Types(types),
    }
}

/// The texts that make the command of a tool.
pub(crate) fn command_texts(alloc: Global, tool: &Tool) -> Result<Vec<Spoken<'_>>, AllocError> {
    let mut texts = Vec::new(alloc);
    for argument in tool.arguments.as_slice() {
        add_text(argument.value_from.as_ref(), Known::Null, &mut texts)?;
    }
    add_bindings(tool, &mut texts)?;
    add_variables(tool, &mut texts)?;
    add_text(tool.streams.stdin.as_ref(), Known::Null, &mut texts)?;
    add_text(tool.streams.stdout.as_ref(), Known::Null, &mut texts)?;
    add_text(tool.streams.stderr.as_ref(), Known::Null, &mut texts)?;
    Ok(texts)
}

fn add_bindings<'a>(tool: &'a Tool, texts: &mut Vec<Spoken<'a>>) -> Result<(), AllocError> {
    for (_, input) in tool.inputs.as_slice() {
        if let Some(binding) = &input.binding {
            add_text(binding.value_from.as_ref(), known_of(input), texts)?;
        }
    }
    Ok(())
}

fn add_variables<'a>(tool: &'a Tool, texts: &mut Vec<Spoken<'a>>) -> Result<(), AllocError> {
    let Some(variables) = tool.asked.environment() else {
        return Ok(());
    };
    for (_, variable) in variables.as_slice() {
        add_text(Some(&variable.value), Known::Null, texts)?;
    }
    Ok(())
}

/// The texts `valueFrom` and `when` of a step.
pub(crate) fn step_texts(alloc: Global, step: &Step) -> Result<Vec<Spoken<'_>>, AllocError> {
    let mut texts = Vec::new(alloc);
    for (_, input) in step.inputs.as_slice() {
        add_text(input.value_from.as_ref(), Known::Nothing, &mut texts)?;
    }
    add_text(step.when.as_ref(), Known::Nothing, &mut texts)?;
    Ok(texts)
}

fn add_text<'a>(
    template: Option<&'a Template>,
    own: Known<'a>,
    texts: &mut Vec<Spoken<'a>>,
) -> Result<(), AllocError> {
    match template {
        Some(template) => {
            texts.push(Spoken { template, own })?;
            Ok(())
        }
        None => Ok(()),
    }
}

// ---- outputs

/// Adds lines on the output that is at fault: its pattern, its type, its secondary files, or its references that have no value.
pub fn add_output(
    alloc: Global,
    tool: &Tool,
    fault: &OutputFault,
    lines: &mut Vec<String>,
) -> Result<(), AllocError> {
    let Some(name) = &fault.output else {
        return Ok(());
    };
    let Some(output) = find_in(tool.outputs.as_slice(), name.as_str()) else {
        return Ok(());
    };
    match fault.fault {
        CollectFault::Reference(_) => add_output_references(alloc, tool, output, lines),
        CollectFault::NoMatch
        | CollectFault::TooMany
        | CollectFault::Pattern(_)
        | CollectFault::PatternNotText => add_patterns(alloc, output, lines),
        CollectFault::SecondaryAbsent => add_secondary_files(alloc, output, lines),
        CollectFault::NotTyped => add_type(alloc, output, lines),
        _ => Ok(()),
    }
}

fn add_patterns(
    alloc: Global,
    output: &ToolOutput,
    lines: &mut Vec<String>,
) -> Result<(), AllocError> {
    for template in patterns_of(output) {
        let text = written(alloc, template)?;
        lines.push(format!(in alloc; "its pattern: {text}")?)?;
    }
    Ok(())
}

fn patterns_of(output: &ToolOutput) -> &[Template] {
    match &output.binding {
        Some(binding) => match &binding.glob {
            Some(patterns) => patterns.as_slice(),
            None => &[],
        },
        None => &[],
    }
}

// The patterns of the files that have to be beside each of its own.
fn add_secondary_files(
    alloc: Global,
    output: &ToolOutput,
    lines: &mut Vec<String>,
) -> Result<(), AllocError> {
    for file in output.secondary_files.as_slice() {
        if file.required {
            let pattern = &file.pattern;
            lines.push(format!(in alloc; "a secondary file of it: {pattern}")?)?;
        }
    }
    Ok(())
}

fn add_type(alloc: Global, output: &ToolOutput, lines: &mut Vec<String>) -> Result<(), AllocError> {
    let OutputType::Members(types) = &output.kind else {
        return Ok(());
    };
    let kind = type_words(alloc, types)?;
    lines.push(format!(in alloc; "its type: {kind}")?)?;
    Ok(())
}

fn add_output_references(
    alloc: Global,
    tool: &Tool,
    output: &ToolOutput,
    lines: &mut Vec<String>,
) -> Result<(), AllocError> {
    let scope = scope_of_outputs(alloc, tool)?;
    let texts = output_texts(alloc, output)?;
    add_references(alloc, &scope, texts.as_slice(), lines)
}

/// The patterns and `outputEval` of an output.
pub(crate) fn output_texts(
    alloc: Global,
    output: &ToolOutput,
) -> Result<Vec<Spoken<'_>>, AllocError> {
    let mut texts = Vec::new(alloc);
    for template in patterns_of(output) {
        add_text(Some(template), Known::Null, &mut texts)?;
    }
    if let Some(binding) = &output.binding {
        add_text(binding.output_eval.as_ref(), Known::Nothing, &mut texts)?;
    }
    Ok(texts)
}

//! Reads the processes of rows, and writes them as JSON: what is absent is left out.
use crate::documents::told;
use crate::short::put_canonical;
use crate::template::{put_parts, put_template};
use crate::tool::{put_members, put_secondaries, put_tool};
use cwl_process::{
    Asked, Links, Merge, Pick, Process, Run, RunName, Source, Step, StepInput, Variable, Workflow,
    WorkflowInput, WorkflowOutput, read_unlinked,
};
use cwl_value::Value;
use document_table::DocumentError;
use plain_data::Text;
use scatter_shape::Method;
use std::alloc::Global;
use std::mem;
use test_rows::{AnswerText, Row, RowFault, json_text};

pub(crate) type Found = Result<Process, DocumentError>;

/// The process of the row's document, or its fault.
pub(crate) fn read(alloc: Global, row: &Row) -> Result<String, RowFault> {
    let process = unlinked(alloc, row)?;
    let answer = answer(alloc, &process);
    mem::drop(process);
    answer
}

/// What the row's tool says.
pub(crate) fn read_written(alloc: Global, row: &Row) -> Result<String, RowFault> {
    let process = unlinked(alloc, row)?;
    let answer = written(alloc, &process);
    mem::drop(process);
    answer
}

/// What is read of the row's document.
pub(crate) fn unlinked(alloc: Global, row: &Row) -> Result<Found, RowFault> {
    let text = json_text(alloc, row.json("document")?)?;
    Ok(read_unlinked(alloc, text.as_bytes()))
}

fn answer(alloc: Global, found: &Found) -> Result<String, RowFault> {
    match found {
        Ok(process) => process_text(alloc, process),
        Err(DocumentError::Refused(fault)) => Ok(told(alloc, fault)?),
        Err(DocumentError::OutOfMemory) => Err(RowFault::OutOfMemory),
    }
}

fn process_text(alloc: Global, process: &Process) -> Result<String, RowFault> {
    let mut out = AnswerText::new(alloc);
    put_process(alloc, &mut out, process);
    out.finish()
}

fn written(alloc: Global, found: &Found) -> Result<String, RowFault> {
    match found {
        Ok(Process::Tool(tool)) => Ok(String::from_str(alloc, tool.written.as_str())?),
        Ok(Process::Workflow(_)) => Ok(String::from_str(alloc, "a workflow")?),
        Err(DocumentError::Refused(fault)) => Ok(told(alloc, fault)?),
        Err(DocumentError::OutOfMemory) => Err(RowFault::OutOfMemory),
    }
}

#[cycle(process)]
fn put_process(alloc: Global, out: &mut AnswerText, process: &Process) {
    match process {
        Process::Tool(tool) => put_tool(alloc, out, tool),
        Process::Workflow(workflow) => put_workflow(alloc, out, workflow),
    }
}

#[cycle(process)]
fn put_workflow(alloc: Global, out: &mut AnswerText, workflow: &Workflow) {
    out.put("{\"inputs\":{");
    put_workflow_inputs(alloc, out, workflow.inputs.as_slice());
    out.put("},\"outputs\":{");
    put_workflow_outputs(alloc, out, workflow.outputs.as_slice());
    out.put("},\"steps\":{");
    for entry in workflow.steps.as_slice() {
        put_key(out, entry.0.as_str());
        put_step(alloc, out, &entry.1);
    }
    out.put("}}");
}

fn put_workflow_inputs(alloc: Global, out: &mut AnswerText, inputs: &[(Text, WorkflowInput)]) {
    for (name, input) in inputs {
        put_key(out, name.as_str());
        out.put("{\"type\":");
        put_members(alloc, out, &input.kind);
        put_default(alloc, out, &input.default);
        put_secondaries(out, &input.secondary_files);
        out.put("}");
    }
}

fn put_workflow_outputs(alloc: Global, out: &mut AnswerText, outputs: &[(Text, WorkflowOutput)]) {
    for (name, output) in outputs {
        put_key(out, name.as_str());
        out.put("{\"type\":");
        put_members(alloc, out, &output.kind);
        put_links(out, &output.links);
        out.put("}");
    }
}

#[cycle(process)]
fn put_step(alloc: Global, out: &mut AnswerText, step: &Step) {
    put_step_parts(alloc, out, step);
    out.put(",\"run\":");
    match &step.run {
        Run::Inline(process) => put_process(alloc, out, process),
        Run::Named(named) => put_named(out, named),
    }
    out.put("}");
}

/// What the step says beside its process.
fn put_step_parts(alloc: Global, out: &mut AnswerText, step: &Step) {
    out.put("{\"in\":{");
    for entry in step.inputs.as_slice() {
        put_key(out, entry.0.as_str());
        put_step_input(alloc, out, &entry.1);
    }
    out.put("},\"out\":");
    put_texts(out, step.outputs.as_slice());
    put_scatter(out, step);
    put_template(out, "when", &step.when);
}

fn put_named(out: &mut AnswerText, named: &RunName) {
    out.put("{\"name\":");
    out.put_quoted(named.name.as_str());
    put_asked(out, &named.asked);
    out.put("}");
}

fn put_scatter(out: &mut AnswerText, step: &Step) {
    if !step.scatter.is_empty() {
        out.put(",\"scatter\":");
        put_texts(out, step.scatter.as_slice());
    }
    if let Some(method) = step.method {
        out.put(method_text(method));
    }
}

fn method_text(method: Method) -> &'static str {
    match method {
        Method::Dotproduct => ",\"method\":\"dot\"",
        Method::NestedCrossproduct => ",\"method\":\"nested\"",
        Method::FlatCrossproduct => ",\"method\":\"flat\"",
    }
}

fn put_step_input(alloc: Global, out: &mut AnswerText, input: &StepInput) {
    out.put("{\"step_input\":true");
    put_links(out, &input.links);
    put_default(alloc, out, &input.default);
    put_template(out, "valueFrom", &input.value_from);
    out.put("}");
}

fn put_links(out: &mut AnswerText, links: &Links) {
    if let Some(sources) = &links.sources {
        out.put(",\"sources\":[");
        for source in sources.as_slice() {
            out.put_comma();
            put_source(out, source);
        }
        out.put("]");
    }
    out.put(merge_text(links.merge));
    out.put(pick_text(links.pick));
}

fn merge_text(merge: Option<Merge>) -> &'static str {
    match merge {
        None => "",
        Some(Merge::Nested) => ",\"merge\":\"nested\"",
        Some(Merge::Flattened) => ",\"merge\":\"flattened\"",
    }
}

fn pick_text(pick: Option<Pick>) -> &'static str {
    match pick {
        None => "",
        Some(Pick::FirstNonNull) => ",\"pick\":\"first\"",
        Some(Pick::TheOnlyNonNull) => ",\"pick\":\"only\"",
        Some(Pick::AllNonNull) => ",\"pick\":\"all\"",
    }
}

fn put_source(out: &mut AnswerText, source: &Source) {
    out.put("[");
    if let Some(step) = &source.step {
        out.put_quoted(step.as_str());
        out.put(",");
    }
    out.put_quoted(source.name.as_str());
    out.put("]");
}

pub(crate) fn put_asked(out: &mut AnswerText, asked: &Asked) {
    if let Some(environment) = asked.environment() {
        out.put(",\"environment\":{");
        for entry in environment.as_slice() {
            put_key(out, entry.0.as_str());
            put_variable(out, &entry.1);
        }
        out.put("}");
    }
    if !asked.reuse() {
        out.put(",\"reuse\":false");
    }
}

fn put_variable(out: &mut AnswerText, variable: &Variable) {
    out.put("[");
    out.put_quoted(variable.written.as_str());
    out.put(",");
    put_parts(out, &variable.value);
    out.put("]");
}

pub(crate) fn put_default(alloc: Global, out: &mut AnswerText, default: &Option<Value>) {
    if let Some(value) = default {
        out.put(",\"default\":");
        put_canonical(alloc, out, value);
    }
}

pub(crate) fn put_text(out: &mut AnswerText, name: &str, text: &Option<Text>) {
    if let Some(text) = text {
        put_key(out, name);
        out.put_quoted(text.as_str());
    }
}

/// A list of texts.
pub(crate) fn put_texts(out: &mut AnswerText, texts: &[Text]) {
    out.put("[");
    for text in texts {
        out.put_comma();
        out.put_quoted(text.as_str());
    }
    out.put("]");
}

/// The key and a colon, after a comma unless it is the first.
pub(crate) fn put_key(out: &mut AnswerText, key: &str) {
    out.put_comma();
    out.put_quoted(key);
    out.put(":");
}

//! Reads processes with the documents that they name, and writes their tools by their places.
use crate::documents::told;
use crate::process::{put_asked, put_key, put_texts};
use crate::values::put_default;
use cwl_process::{Tool, WorkflowInput};
use document_links::{
    Docs, Document, LinkError, LinkFault, Process, Step, Workflow, needed_docs, read_process,
};
use plain_data::{Items, Keyed, Text};
use serde_json::Value;
use std::alloc::Global;
use std::mem;
use test_rows::{AnswerText, Row, RowFault, json_text};
use url::Url;

/// The process of the row's document at its base, with the documents under `docs`, or its fault.
pub(crate) fn read(alloc: Global, row: &Row) -> Result<String, RowFault> {
    let base = row.text("base")?;
    let docs = docs(alloc, row)?;
    let found = found(alloc, row, base, &docs);
    mem::drop(docs);
    let process = found?;
    let answer = answer(alloc, &process);
    mem::drop(process);
    answer
}

/// The process of the row's document, which names no other: a row whose document is refused has no answer.
pub(crate) fn process_of(alloc: Global, row: &Row) -> Result<Process, RowFault> {
    let docs = Docs::of(alloc, Keyed::new(alloc))?;
    let found = found(alloc, row, "file:///d/w.json", &docs);
    mem::drop(docs);
    match found? {
        Ok(process) => Ok(process),
        Err(LinkError::Refused(_)) => Err(RowFault::BadArgument),
        Err(LinkError::OutOfMemory) => Err(RowFault::OutOfMemory),
    }
}

/// The URLs that the row's document names at its base, or its fault.
pub(crate) fn needed(alloc: Global, row: &Row) -> Result<String, RowFault> {
    let urls = urls(alloc, row)?;
    let answer = match &urls {
        Ok(urls) => urls_text(alloc, urls.as_slice()),
        Err(LinkError::Refused(fault)) => fault_told(alloc, fault),
        Err(LinkError::OutOfMemory) => Err(RowFault::OutOfMemory),
    };
    mem::drop(urls);
    answer
}

fn urls(alloc: Global, row: &Row) -> Result<Result<Items<Text>, LinkError>, RowFault> {
    let base = base_url(alloc, row.text("base")?)?;
    let document = document(alloc, row.json("document")?)?;
    Ok(needed_docs(alloc, &document, &base))
}

fn urls_text(alloc: Global, urls: &[Text]) -> Result<String, RowFault> {
    let mut out = AnswerText::new(alloc);
    put_texts(&mut out, urls);
    out.finish()
}

type Found = Result<Process, LinkError>;

fn found(alloc: Global, row: &Row, base: &str, docs: &Docs) -> Result<Found, RowFault> {
    let base = base_url(alloc, base)?;
    let document = document(alloc, row.json("document")?)?;
    Ok(read_process(alloc, &document, &base, docs))
}

fn answer(alloc: Global, found: &Found) -> Result<String, RowFault> {
    match found {
        Ok(process) => process_text(alloc, process),
        Err(LinkError::Refused(fault)) => fault_told(alloc, fault),
        Err(LinkError::OutOfMemory) => Err(RowFault::OutOfMemory),
    }
}

fn process_text(alloc: Global, process: &Process) -> Result<String, RowFault> {
    let mut out = AnswerText::new(alloc);
    put_process(alloc, &mut out, process);
    out.finish()
}

pub(crate) fn base_url(alloc: Global, text: &str) -> Result<Url, RowFault> {
    Url::parse(alloc, text).map_err(|_refusal| RowFault::OutOfMemory)
}

fn fault_told(alloc: Global, fault: &LinkFault) -> Result<String, RowFault> {
    match fault {
        LinkFault::Document(url, fault) => {
            let mut text = told(alloc, fault)?;
            text.push_str(" in ")?;
            text.push_str(url.as_str())?;
            Ok(text)
        }
        _ => Ok(format!(in alloc; "{} {fault}", fault.code())?),
    }
}

/// The documents of the row, by their URLs.
pub(crate) fn docs(alloc: Global, row: &Row) -> Result<Docs, RowFault> {
    let mut docs = Keyed::new(alloc);
    put_docs(alloc, &mut docs, row)?;
    Ok(Docs::of(alloc, docs)?)
}

fn put_docs(alloc: Global, docs: &mut Keyed<Document>, row: &Row) -> Result<(), RowFault> {
    if let Some(Value::Object(members)) = row.find("docs") {
        for (url, json) in members.iter() {
            let name = Text::from_text(alloc, url.as_str())?;
            let document = document(alloc, json)?;
            drop(docs.insert(name, document)?);
        }
    }
    Ok(())
}

pub(crate) fn document(alloc: Global, json: &Value) -> Result<Document, RowFault> {
    let bytes = bytes(alloc, json)?;
    Ok(Document::read(alloc, Items::from_vec(bytes))?)
}

fn bytes(alloc: Global, json: &Value) -> Result<Vec<u8>, RowFault> {
    let text = json_text(alloc, json)?;
    Ok(text.as_bytes().to_vec(alloc)?)
}

#[cycle(linked)]
fn put_process(alloc: Global, out: &mut AnswerText, process: &Process) {
    match process {
        Process::Tool(tool) => put_tool(alloc, out, tool),
        Process::Workflow(workflow) => put_workflow(alloc, out, workflow),
    }
}

fn put_tool(alloc: Global, out: &mut AnswerText, tool: &Tool) {
    out.put("{\"baseCommand\":");
    put_texts(out, tool.base_command.as_slice());
    put_asked(out, &tool.asked);
    if !tool.inputs.is_empty() {
        out.put(",\"defaults\":{");
        for entry in tool.inputs.as_slice() {
            put_default(alloc, out, &entry.0, &entry.1.default);
        }
        out.put("}");
    }
    out.put("}");
}

/// The steps, and before them the inputs, if there are any.
#[cycle(linked)]
fn put_workflow(alloc: Global, out: &mut AnswerText, workflow: &Workflow) {
    out.put("{");
    put_workflow_defaults(alloc, out, workflow.inputs.as_slice());
    for entry in workflow.steps.as_slice() {
        put_key(out, entry.0.as_str());
        put_step(alloc, out, &entry.1);
    }
    out.put("}");
}

fn put_workflow_defaults(alloc: Global, out: &mut AnswerText, inputs: &[(Text, WorkflowInput)]) {
    if inputs.is_empty() {
        return;
    }
    out.put("\"/defaults\":{");
    for entry in inputs {
        put_default(alloc, out, &entry.0, &entry.1.default);
    }
    out.put("}");
}

/// The process of the step, in a list after the step's inputs, if there are any.
#[cycle(linked)]
fn put_step(alloc: Global, out: &mut AnswerText, step: &Step) {
    if step.inputs.is_empty() {
        put_process(alloc, out, &step.process);
    } else {
        out.put("[{");
        for entry in step.inputs.as_slice() {
            put_default(alloc, out, &entry.0, &entry.1.default);
        }
        out.put("},");
        put_process(alloc, out, &step.process);
        out.put("]");
    }
}

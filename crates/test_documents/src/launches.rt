//! Builds the commands of rows, and writes their launches as JSON.
use crate::arguments::fields_of;
use crate::process::{put_texts, unlinked};
use crate::values::put_text_or_null;
use command_line::{BuildError, BuildFault, Launch, Runtime, Variable, build};
use cwl_process::{Process, Tool};
use document_table::DocumentError;
use plain_data::Text;
use std::alloc::{AllocError, Global};
use std::mem;
use test_rows::{AnswerText, Row, RowFault};

/// The launch of the tool that the row's document describes, with the row's `inputs`, or a copy of it.
pub(crate) fn answer(alloc: Global, row: &Row, copy: bool) -> Result<String, RowFault> {
    let process = unlinked(alloc, row)?;
    let answer = match &process {
        Ok(Process::Tool(tool)) => launch_of(alloc, tool, row, copy),
        Ok(Process::Workflow(_)) => Err(RowFault::BadArgument),
        Err(DocumentError::Refused(fault)) => code(alloc, fault.code()),
        Err(DocumentError::OutOfMemory) => Err(RowFault::OutOfMemory),
    };
    mem::drop(process);
    answer
}

fn launch_of(alloc: Global, tool: &Tool, row: &Row, copy: bool) -> Result<String, RowFault> {
    let runtime = runtime(alloc, row.text("outdir").unwrap_or("/w/j1/out"))?;
    let inputs = fields_of(alloc, row.json("inputs")?)?;
    let outcome = build(alloc, tool, &inputs, &runtime);
    mem::drop(inputs);
    match &outcome {
        Ok(launch) if copy => copy_text(alloc, launch),
        Ok(launch) => launch_text(alloc, launch),
        Err(BuildError::Refused(fault)) => refused(alloc, fault),
        Err(BuildError::OutOfMemory) => Err(RowFault::OutOfMemory),
    }
}

fn runtime(alloc: Global, outdir: &str) -> Result<Runtime, AllocError> {
    Ok(Runtime {
        outdir: Text::from_text(alloc, outdir)?,
        tmpdir: Text::from_text(alloc, "/w/j1/tmp")?,
        path_env: Text::from_text(alloc, "/bin")?,
    })
}

fn refused(alloc: Global, fault: &BuildFault) -> Result<String, RowFault> {
    match fault {
        BuildFault::Reference(reference) => coded(alloc, fault.code(), reference.code()),
        BuildFault::NotText(place) => Ok(format!(in alloc; "{}({place})", fault.code())?),
        BuildFault::NoValueFrom | BuildFault::EmptyCommand => code(alloc, fault.code()),
    }
}

fn copy_text(alloc: Global, launch: &Launch) -> Result<String, RowFault> {
    let copy = launch.clone_in(alloc)?;
    launch_text(alloc, &copy)
}

fn launch_text(alloc: Global, launch: &Launch) -> Result<String, RowFault> {
    let mut out = AnswerText::new(alloc);
    out.put("{\"words\":");
    put_texts(&mut out, launch.words.as_slice());
    out.put(",\"env\":");
    put_variables(&mut out, launch.env.as_slice());
    out.put(",\"stdin\":");
    put_text_or_null(&mut out, &launch.stdin);
    out.put(",\"stdout\":");
    put_text_or_null(&mut out, &launch.stdout);
    out.put(",\"stderr\":");
    put_text_or_null(&mut out, &launch.stderr);
    out.put(",\"dir\":");
    out.put_quoted(launch.dir.as_str());
    out.put("}");
    out.finish()
}

fn put_variables(out: &mut AnswerText, env: &[Variable]) {
    out.put("[");
    for variable in env {
        out.put_comma();
        out.put("[");
        out.put_quoted(variable.name.as_str());
        out.put(",");
        out.put_quoted(variable.text.as_str());
        out.put("]");
    }
    out.put("]");
}

/// A code with what it names in brackets.
fn coded(alloc: Global, code: &str, named: &str) -> Result<String, RowFault> {
    Ok(format!(in alloc; "{code}({named})")?)
}

/// A code alone.
fn code(alloc: Global, code: &str) -> Result<String, RowFault> {
    Ok(String::from_str(alloc, code)?)
}

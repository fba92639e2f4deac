//! What the hints of documents ask for, and what a launcher is told of their jobs.
use crate::linked::{base_url, docs, document};
use crate::process::put_key;
use command_line::Variable;
use cwl_value::{JobPlace, Segment};
use document_links::Docs;
use plain_data::{Items, Keyed, Text};
use resource_hints::{Resources, resources_of, variables_for};
use serde_json::Value as Json;
use std::alloc::Global;
use std::mem;
use test_rows::{AnswerText, Row, RowFault};

/// What is asked for at each tool of the row's document, with the documents under `docs`: cores, memory, and room for temporary files.
pub(crate) fn asked(alloc: Global, row: &Row) -> Result<String, RowFault> {
    let asked = asked_of(alloc, row)?;
    let mut out = AnswerText::new(alloc);
    out.put("{");
    for entry in asked.as_slice() {
        put_key(&mut out, entry.0.as_str());
        out.put("[");
        put_amount(&mut out, entry.1.cores);
        put_amount(&mut out, entry.1.ram);
        put_amount(&mut out, entry.1.tmpdir);
        out.put("]");
    }
    out.put("}");
    mem::drop(asked);
    out.finish()
}

/// The variables that a launcher is given for the job at the row's `place`: a list of steps, each its id followed by its indexes.
pub(crate) fn told(alloc: Global, row: &Row) -> Result<String, RowFault> {
    let asked = asked_of(alloc, row)?;
    let variables = variables_of(alloc, row, &asked);
    mem::drop(asked);
    let variables = variables?;
    let mut out = AnswerText::new(alloc);
    out.put("{");
    for variable in variables.as_slice() {
        put_key(&mut out, variable.name.as_str());
        out.put_quoted(variable.text.as_str());
    }
    out.put("}");
    mem::drop(variables);
    out.finish()
}

fn asked_of(alloc: Global, row: &Row) -> Result<Keyed<Resources>, RowFault> {
    let docs = docs(alloc, row)?;
    let asked = asked_among(alloc, row, &docs);
    mem::drop(docs);
    asked
}

fn asked_among(alloc: Global, row: &Row, docs: &Docs) -> Result<Keyed<Resources>, RowFault> {
    let base = base_url(alloc, row.text("base")?)?;
    let document = document(alloc, row.json("document")?)?;
    Ok(resources_of(alloc, &document, &base, docs)?)
}

fn put_amount(out: &mut AnswerText, amount: Option<u64>) {
    out.put_comma();
    match amount {
        None => out.put("null"),
        Some(amount) => out.put_natural(amount),
    }
}

fn variables_of(
    alloc: Global,
    row: &Row,
    asked: &Keyed<Resources>,
) -> Result<Items<Variable>, RowFault> {
    let steps = row.list("place")?;
    let mut job: JobPlace = Items::new(alloc);
    for step in steps {
        job.push(segment_of(alloc, step)?)?;
    }
    Ok(variables_for(alloc, asked, &job)?)
}

fn segment_of(alloc: Global, step: &Json) -> Result<Segment, RowFault> {
    let parts = step.as_array().ok_or(RowFault::BadArgument)?;
    let Some((id, indexes)) = parts.as_slice().split_first() else {
        return Err(RowFault::BadArgument);
    };
    let id = id.as_str().ok_or(RowFault::BadArgument)?;
    let index = indexes_of(alloc, indexes)?;
    Ok(Segment {
        step: Text::from_text(alloc, id)?,
        index,
    })
}

fn indexes_of(alloc: Global, list: &[Json]) -> Result<Items<usize>, RowFault> {
    let mut indexes = Items::new(alloc);
    for json in list {
        let index = json.as_u64().ok_or(RowFault::BadArgument)?;
        indexes.push(index as usize)?;
    }
    Ok(indexes)
}

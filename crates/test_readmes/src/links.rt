//! Samples on documents that lead to others: their links.

use cwl_value::JobPlace;
use document_links::{Docs, Document, LinkError, Process, needed_docs, read_process};
use plain_data::{Items, Keyed};
use plan_waits::{PlannedJob, waiting_steps};
use resource_hints::{resources_of, variables_for};
use std::alloc::{AllocError, Global};
use url::Url;
use workflow_check::{AcceptError, accept};

/// A sample of `document_links`.
pub fn needed_by(alloc: Global, bytes: Items<u8>, base: &Url) -> Result<(), LinkError> {
    let document = Document::read(alloc, bytes)?; // read and checked here, and nowhere again
    let urls = needed_docs(alloc, &document, base)?; // file:///d/t.json, of a step that runs t.json, and a base of file:///d/w.json
    Ok(())
}

/// A sample of `document_links`.
pub fn linked_process(
    alloc: Global,
    document: &Document,
    base: &Url,
    others: Keyed<Document>,
) -> Result<(), LinkError> {
    let docs = Docs::of(alloc, others)?; // the documents that are needed, by their URLs
    let process = read_process(alloc, document, base, &docs)?; // each step has its process; or refused: C1 to C10
    Ok(())
}

/// The sample of `plan_waits`.
pub fn steps_that_wait(
    alloc: Global,
    process: &Process,
    jobs: &[PlannedJob],
) -> Result<(), AllocError> {
    let ids = waiting_steps(alloc, process, jobs)?; // `sort` and `merge`, in the order of the document; jobs: those that the plan knows
    Ok(())
}

/// The sample of `resource_hints`.
pub fn told_resources(
    alloc: Global,
    document: &Document,
    base: &Url,
    docs: &Docs,
    job: &JobPlace,
) -> Result<(), AllocError> {
    let asked = resources_of(alloc, document, base, docs)?; // `main/align`: 4 cores, of a step `align` whose tool has a hint with coresMin 4
    let told = variables_for(alloc, &asked, job)?; // DEPAROHI_PLACE=main/align[3] and DEPAROHI_CORES=4, of the job main/align[3]
    Ok(())
}

/// The sample of `workflow_check`.
pub fn accepted_process(alloc: Global, process: Process) -> Result<(), AcceptError> {
    let accepted = accept(alloc, process)?; // or K1 to K7, and the ids that lead there: s, x
    let process = accepted.as_process(); // what document_links::read_process gave
    Ok(())
}

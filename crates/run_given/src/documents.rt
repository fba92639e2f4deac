//! The process of a document, with all that it leads to, whose links are right.
ghost use Rattle.std.specs.Prelude.{◌≡◌, IfOk, IfErr};
ghost use Rattle.document_links.specs.Documents.{IsLinked, IsRefused};
ghost use Rattle.run_given.specs.Sources.{IsAbsent, IsAccepted, IsDocumentStop};
ghost use Rattle.run_given.specs.Stops.{IsCause, IsStop};

use crate::reading::sound;
use crate::stop::{Stop, unread_for};
use document_links::{Docs, Document, LinkError, LinkFault, MOST_PROCESSES, Process, read_process};
use end_words::{Exit, Refusal, Unreadable};
use file_values::{FileError, location_to_path};
use plain_data::{Keyed, Text};
use std::alloc::Global;
use std::mem;
use url::Url;
use workflow_check::{AcceptError, accept};

/// The process of a document at a URL, with those that its steps name, if its links are right. Of those that are lacking `missed` says
/// why, under their paths.
pub fn accepted_of(
    alloc: Global,
    document: &Document,
    base: &Url,
    docs: &Docs,
    missed: &Keyed<Unreadable>,
) -> Result<Process, Stop>
    ensures ok { IfOk result (IsAccepted document.now base.now docs.now) }
    ensures err { IfErr result (IsStop (IsDocumentStop document.now base.now docs.now)) }
{
    let process = linked(alloc, document, base, docs, missed)?;
    accepted(alloc, document, base, docs, process)
}

/// Puts a document and those that it leads to together.
fn linked(
    alloc: Global,
    document: &Document,
    base: &Url,
    docs: &Docs,
    missed: &Keyed<Unreadable>,
) -> Result<Process, Stop>
    ensures ok { IfOk result (IsLinked document.now base.now docs.now) }
    ensures err { IfErr result (IsStop (IsDocumentStop document.now base.now docs.now)) }
{
    match read_process(alloc, document, base, docs) {
        Ok(process) => Ok(process),
        Err(LinkError::OutOfMemory) => Err(Stop::OutOfMemory),
        Err(LinkError::Refused(fault)) => Err(faulty(alloc, document, base, docs, missed, fault)),
    }
}

/// Says what is wrong with a document, or with those that it leads to.
fn faulty(
    alloc: Global,
    _document: &Document,
    base: &Url,
    docs: &Docs,
    missed: &Keyed<Unreadable>,
    fault: LinkFault,
) -> Stop
    requires { IsRefused (LinkError.Refused fault) _document.now base.now docs.now }
    ensures { IsStop (IsDocumentStop _document.now base.now docs.now) result }
{
    match fault {
        LinkFault::NotLoaded(url) => {
            let stop = not_loaded(alloc, _document, base, docs, missed, &url);
            mem::drop(url);
            stop
        }
        LinkFault::Document(url, fault) => wrong(LinkFault::Document(url, fault)),
        LinkFault::NoItem(id) => wrong(LinkFault::NoItem(id)),
        LinkFault::TooDeep => wrong(LinkFault::TooDeep),
        LinkFault::TooMany => wrong(LinkFault::TooMany),
    }
}

fn wrong(fault: LinkFault) -> Stop
    ensures { result ≡ Stop.Early (Exit.Refused (Refusal.Document fault)) }
{
    Stop::Early(Exit::Refused(Refusal::Document(fault)))
}

/// Says why a document is not there: there are too many of them, its URL is no file's, or its file can't be read.
fn not_loaded(
    alloc: Global,
    _document: &Document,
    base: &Url,
    docs: &Docs,
    missed: &Keyed<Unreadable>,
    url: &Text,
) -> Stop
    requires { IsAbsent _document.now base.now docs.now url.now }
    ensures { IsStop (IsDocumentStop _document.now base.now docs.now) result }
{
    if docs.len() >= MOST_PROCESSES {
        return wrong(LinkFault::TooMany);
    }
    match location_to_path(alloc, url.as_str(), base) {
        Ok(path) => {
            let stop = unread_for(alloc, path.as_str(), cause_in(missed, path.as_str()));
            mem::drop(path);
            stop
        }
        Err(FileError::Refused(fault)) => Stop::Early(Exit::Refused(Refusal::Location(fault))),
        Err(FileError::OutOfMemory) => Stop::OutOfMemory,
    }
}

// Why the file of this path was not read.
fn cause_in(missed: &Keyed<Unreadable>, path: &str) -> Unreadable
    ensures { IsCause result }
{
    match missed.get(path) {
        Some(why) => sound(*why),
        None => Unreadable::Other,
    }
}

/// Looks at the links of a process.
fn accepted(
    alloc: Global,
    _document: &Document,
    _base: &Url,
    _docs: &Docs,
    process: Process,
) -> Result<Process, Stop>
    requires { IsLinked _document.now _base.now _docs.now process }
    ensures ok { IfOk result (IsAccepted _document.now _base.now _docs.now) }
    ensures err { IfErr result (IsStop (IsDocumentStop _document.now _base.now _docs.now)) }
{
    match accept(alloc, process) {
        Ok(accepted) => Ok(accepted.into_process()),
        Err(AcceptError::Refused(fault)) => Err(Stop::Early(Exit::Refused(Refusal::Links(fault)))),
        Err(AcceptError::OutOfMemory) => Err(Stop::OutOfMemory),
    }
}

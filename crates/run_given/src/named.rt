//! What the words of a call name: the process of a document, the inputs, the folders; and why there may be none.
ghost use Rattle.std.specs.Prelude.{IfErr, IfOk, None, Ok, Some, option_map, ◌≡◌};
ghost use Rattle.document_links.specs.Library.{Documents};
ghost use Rattle.run_given.specs.Caches.{archive_of as folder_of_archive};
ghost use Rattle.run_given.specs.Paths.{from_root as path_from_root};
ghost use Rattle.program_words.specs.RunWords.{wish_of_run};
ghost use Rattle.run_given.specs.Named.{AreHinted, AreNamed, IsHinted, IsInputsText, IsNamedInputs, IsNamedProcess, IsNoInputs, IsNoProcess, IsRead};
ghost use Rattle.run_given.specs.Sources.{IsAccepted, IsDocumentStop};
ghost use Rattle.run_given.specs.Stops.{IsStop, IsUnread};

use crate::caches::{archive_of, times_of};
use crate::documents::accepted_of;
use crate::given::{Beside, Call, Places};
use crate::inputs::inputs_at;
use crate::paths::{base_of, from_root};
use crate::reading::bytes_of_file;
use crate::search::{Reached, reached_from};
use crate::standard_input::bytes_of;
use crate::stop::{Stop, unread};
use cwl_value::Value;
use document_links::{Docs, Document, Process};
use end_words::{Exit, Fault, RunEnd};
use job_record::RecordFault;
use plain_data::{Items, Keyed, Text};
use process_machine::World;
use resource_hints::{Resources, resources_of};
use std::alloc::{AllocError, Global};
use std::rt::Env;
use std::{env, io, mem};
use url::Url;

/// The input object if no file is given.
const NO_INPUTS: &[u8] = b"{}";

/// The folder that the program is called in.
pub fn here_of<R: World + Env>(rt: &R) -> io::Result<String> {
    let here = env::current_dir(rt)?;
    Ok(String::from_str(rt.alloc(), here.as_path().as_str())?)
}

/// The end of a program that can't find the name of the current folder.
pub fn without_folder(alloc: Global, error: &io::Error) -> Result<RunEnd, AllocError>
    ensures exit { IfOk result (λ end. end.exit ≡ Exit.Fault Fault.Folder) }
    ensures left { IfOk result (λ end. end.left ≡ None) }
{
    match error.kind() {
        io::ErrorKind::OutOfMemory => Err(AllocError),
        _ => Ok(RunEnd::bare(alloc, Exit::Fault(Fault::Folder))),
    }
}

/// Reads the document with all that it leads to, and says what they say beside the process.
pub(crate) fn process_of<R: World>(
    rt: &R,
    call: &Call<'_>,
    beside: &mut Beside,
) -> Result<Process, Stop>
    ensures ok { IfOk result (IsNamedProcess call.now.here.now (wish_of_run call.now.words.now)) }
    ensures hints { IfOk result (λ process. AreHinted call.now.here.now
        (wish_of_run call.now.words.now) process beside.new.hints) }
    ensures err { IfErr result
        (IsStop (IsNoProcess call.now.here.now (wish_of_run call.now.words.now))) }
{
    let document = document_of(rt, call)?;
    let base = base_of(rt.alloc(), call.here, call.words.document)?;
    process_at(rt, &document, &base, call.words.launcher, beside)
}

fn process_at<R: World>(
    rt: &R,
    document: &Document,
    base: &Url,
    launcher: Option<&str>,
    beside: &mut Beside,
) -> Result<Process, Stop>
    ensures ok { IfOk result (λ process. (docs : Documents)
        × IsAccepted document.now base.now docs process
        × IsHinted (option_map (λ s. s.now) launcher.entry) document.now base.now docs
        beside.new.hints) }
    ensures err { IfErr result (IsStop (λ exit. (docs : Documents)
        × IsDocumentStop document.now base.now docs exit)) }
{
    let Reached {
        docs,
        files,
        missed,
    } = reached_from(rt, document, base)?;
    beside.files = files;
    let process = accepted_of(rt.alloc(), document, base, &docs, &missed);
    mem::drop(missed);
    let hints = hints_for(rt.alloc(), launcher, document, base, &docs);
    mem::drop(docs);
    match (process, hints) {
        (Ok(process), Ok(hints)) => {
            beside.hints = hints;
            Ok(process)
        }
        (Ok(process), Err(error)) => {
            mem::drop(process);
            Err(error.into())
        }
        (Err(stop), _) => Err(stop),
    }
}

// What the hints ask of launchers, if there is one.
fn hints_for(
    alloc: Global,
    launcher: Option<&str>,
    document: &Document,
    base: &Url,
    docs: &Docs,
) -> Result<Keyed<Resources>, AllocError>
    ensures { IfOk result (IsHinted (option_map (λ s. s.now) launcher.entry) document.now base.now
        docs.now) }
{
    match launcher {
        None => Ok(Keyed::new(alloc)),
        Some(_) => resources_of(alloc, document, base, docs),
    }
}

fn document_of<R: World>(rt: &R, call: &Call<'_>) -> Result<Document, Stop>
    ensures ok { IfOk result IsRead }
    ensures err { IfErr result
        (IsStop (IsNoProcess call.now.here.now (wish_of_run call.now.words.now))) }
{
    let bytes = document_bytes(rt, call)?;
    Ok(Document::read(rt.alloc(), Items::from_vec(bytes))?)
}

fn document_bytes<R: World>(rt: &R, call: &Call<'_>) -> Result<Vec<u8>, Stop>
    ensures ok { IfOk result (λ bytes. IsRead bytes.items) }
    ensures err { IfErr result
        (IsStop (IsNoProcess call.now.here.now (wish_of_run call.now.words.now))) }
{
    file_bytes(rt, call.words.document)
}

fn file_bytes<R: World>(rt: &R, file: &str) -> Result<Vec<u8>, Stop>
    ensures ok { IfOk result (λ bytes. IsRead bytes.items) }
    ensures err { IfErr result (IsStop (IsUnread file.now)) }
{
    match bytes_of_file(rt, file) {
        Ok(bytes) => Ok(bytes),
        Err(trouble) => Err(unread(rt.alloc(), trouble, file)),
    }
}

/// Reads the input object. Its locations are on the URL of its own file; of standard input they are in the folder that the program is called in.
pub fn inputs_of<R: World + Input>(rt: &R, call: &Call<'_>) -> Result<Keyed<Value>, Stop>
    ensures ok { IfOk result (IsNamedInputs call.now.here.now (wish_of_run call.now.words.now)) }
    ensures err { IfErr result
        (IsStop (IsNoInputs call.now.here.now (wish_of_run call.now.words.now))) }
{
    let name = call.words.inputs.unwrap_or(call.words.document);
    let base = base_of(rt.alloc(), call.here, name)?;
    let bytes = inputs_bytes(rt, call)?;
    inputs_at(rt.alloc(), bytes.as_slice(), &base)
}

fn inputs_bytes<R: World + Input>(rt: &R, call: &Call<'_>) -> Result<Vec<u8>, Stop>
    ensures ok { IfOk result (λ bytes. IsInputsText (wish_of_run call.now.words.now).inputs
        bytes.items) }
    ensures err { IfErr result
        (IsStop (IsNoInputs call.now.here.now (wish_of_run call.now.words.now))) }
{
    match call.words.inputs {
        Some(name) => named_bytes(rt, name),
        None => Ok(NO_INPUTS.to_vec(rt.alloc())?),
    }
}

fn named_bytes<R: World + Input>(rt: &R, name: &str) -> Result<Vec<u8>, Stop>
    ensures ok { IfOk result (λ bytes. IsRead bytes.items) }
    ensures err { IfErr result (IsStop (IsUnread name.now)) }
{
    match bytes_of(rt, name) {
        Ok(bytes) => Ok(bytes),
        Err(trouble) => Err(unread(rt.alloc(), trouble, name)),
    }
}

/// The folders as paths from the root, that of the archive too if one is named.
pub fn places_of(alloc: Global, call: &Call<'_>) -> Result<Places, AllocError>
    ensures { IfOk result (AreNamed call.now.here.now (wish_of_run call.now.words.now)) }
{
    let work = from_root(alloc, call.here, call.words.work)?;
    let outdir = from_root(alloc, call.here, call.words.outdir)?;
    let archive = archive_at(alloc, call)?;
    let times = times_of(alloc, call.words)?;
    Ok(Places {
        work,
        outdir,
        archive,
        times,
    })
}

fn archive_at(alloc: Global, call: &Call<'_>) -> Result<Option<Text>, AllocError>
    ensures { IfOk result (λ archive. archive ≡ option_map (path_from_root call.now.here.now)
        (folder_of_archive (wish_of_run call.now.words.now))) }
{
    let named = archive_of(alloc, call.words)?;
    let path = path_of(alloc, call.here, &named);
    mem::drop(named);
    path
}

fn path_of(alloc: Global, here: &str, named: &Option<Text>) -> Result<Option<Text>, AllocError>
    ensures { IfOk result (λ path. path ≡ option_map (path_from_root here.now) named.now) }
{
    match named {
        None => Ok(None),
        Some(name) => Ok(Some(from_root(alloc, here, name.as_str())?)),
    }
}

/// The end of a program that can't open the record of this file.
pub fn without_record(alloc: Global, fault: RecordFault, file: &str) -> Result<RunEnd, AllocError>
    ensures exit { IfOk result (λ end. end.exit ≡ Exit.Fault (Fault.Unopened file.now fault)) }
    ensures left { IfOk result (λ end. end.left ≡ None) }
{
    match fault {
        RecordFault::OutOfMemory => Err(AllocError),
        fault => {
            let fault = Fault::Unopened(Text::from_text(alloc, file)?, fault);
            Ok(RunEnd::bare(alloc, Exit::Fault(fault)))
        }
    }
}

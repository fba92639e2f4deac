//! The files that a run reads or holds, which no result replaces.
ghost use Rattle.std.specs.Prelude.{◌≡◌, ◌++◌, ◌∷◌, [], Some, IfOk, OnOk, Contains};
ghost use Rattle.program_words.specs.RunWords.{wish_of_run};
ghost use Rattle.run_given.specs.Held as spec;
ghost use Rattle.run_given.specs.Caches.{new_times_of, record_of as file_of_record, times_of as file_of_times};

use crate::caches::{record_of, times_of};
use crate::given::Given;
use crate::standard_input::file_of;
use plain_data::{Items, Text};
use process_machine::World;
use program_words::RunWords;
use std::alloc::{AllocError, Global};
use std::{fs, io, mem};

/// The documents, the file of the inputs, the record, what SQLite puts beside it (where the file is a link, beside what it leads to), the
/// file of times that are trusted, and the one by which it is written.
pub fn held_by<R: World>(rt: &R, given: &Given, words: &RunWords) -> Result<Items<Text>, AllocError>
    ensures { IfOk result (spec.IsHeld (wish_of_run words.now) given.now.files) }
{
    let mut held = given.files.copied(rt.alloc())?;
    add_read(rt.alloc(), words, &mut held)?;
    add_kept(rt, words, &mut held)?;
    Ok(held)
}

fn add_read(alloc: Global, words: &RunWords, held: &mut Items<Text>) -> Result<(), AllocError>
    ensures keeps { OnOk result (spec.Keeps held.old held.new) }
    ensures document { OnOk result (Contains held.new words.now.document.now) }
    ensures inputs { OnOk result (spec.Has (spec.file_of (wish_of_run words.now).inputs)
        held.new) }
{
    add(alloc, words.document, held)?;
    match file_of(words.inputs) {
        Some(file) => add(alloc, file, held),
        None => Ok(()),
    }
}

fn add_kept<R: World>(rt: &R, words: &RunWords, held: &mut Items<Text>) -> Result<(), AllocError>
    ensures keeps { OnOk result (spec.Keeps held.old held.new) }
    ensures record { OnOk result (spec.Has (file_of_record (wish_of_run words.now)) held.new) }
    ensures times { OnOk result (spec.Has (file_of_times (wish_of_run words.now)) held.new) }
    ensures new { OnOk result (spec.Has (new_times_of (wish_of_run words.now)) held.new) }
{
    add_record(rt, words, held)?;
    add_times(rt.alloc(), words, held)
}

fn add_record<R: World>(rt: &R, words: &RunWords, held: &mut Items<Text>) -> Result<(), AllocError>
    ensures keeps { OnOk result (spec.Keeps held.old held.new) }
    ensures record { OnOk result (spec.Has (file_of_record (wish_of_run words.now)) held.new) }
{
    match record_of(rt.alloc(), words)? {
        Some(file) => {
            let added = add_database(rt, file.as_str(), held);
            mem::drop(file);
            added
        }
        None => Ok(()),
    }
}

fn add_times(alloc: Global, words: &RunWords, held: &mut Items<Text>) -> Result<(), AllocError>
    ensures keeps { OnOk result (spec.Keeps held.old held.new) }
    ensures times { OnOk result (spec.Has (file_of_times (wish_of_run words.now)) held.new) }
    ensures new { OnOk result (spec.Has (new_times_of (wish_of_run words.now)) held.new) }
{
    match times_of(alloc, words)? {
        Some(file) => {
            add_ending(alloc, file.as_str(), ".new", held)?;
            held.push(file)
        }
        None => Ok(()),
    }
}

fn add_database<R: World>(rt: &R, file: &str, held: &mut Items<Text>) -> Result<(), AllocError>
    ensures keeps { OnOk result (spec.Keeps held.old held.new) }
    ensures file { OnOk result (Contains held.new file.now) }
{
    add(rt.alloc(), file, held)?;
    match fs::canonicalize(rt, file) {
        Ok(path) => add_beside(rt.alloc(), path.as_path().as_str(), held),
        Err(error) if error.kind() == io::ErrorKind::OutOfMemory => Err(AllocError),
        Err(_) => Ok(()),
    }
}

// The log of a database, the journal that may be rolled back into it, and the memory that its readers share.
fn add_beside(alloc: Global, path: &str, held: &mut Items<Text>) -> Result<(), AllocError>
    ensures { OnOk result (spec.Keeps held.old held.new) }
{
    add_ending(alloc, path, "-wal", held)?;
    add_ending(alloc, path, "-journal", held)?;
    add_ending(alloc, path, "-shm", held)
}

fn add_ending(
    alloc: Global,
    path: &str,
    ending: &str,
    held: &mut Items<Text>,
) -> Result<(), AllocError>
    ensures { OnOk result (held.new ≡ held.old ++ (path.now ++ ending.now) ∷ []) }
{
    held.push(Text::from_string(format!(in alloc; "{path}{ending}")?))
}

fn add(alloc: Global, path: &str, held: &mut Items<Text>) -> Result<(), AllocError>
    ensures { OnOk result (held.new ≡ held.old ++ path.now ∷ []) }
{
    held.push(Text::from_text(alloc, path)?)
}

//! The record and the archive of a run: those that the words name, or those of a cache.
ghost use Rattle.std.specs.Prelude.{◌≡◌, IfOk, is_some, option_map};
ghost use Rattle.run_given.specs.Caches as spec;
ghost use Rattle.program_words.specs.RunWords.{wish_of_run};

use plain_data::Text;
use process_machine::World;
use program_words::RunWords;
use std::alloc::{AllocError, Global};
use std::{fs, mem};

/// The record's file in a cache.
pub const RECORD: &str = "jobs.db";

/// The archive's folder in a cache.
pub const FILES: &str = "files";

/// Whether a cache is named beside a record or an archive.
pub fn is_twofold(words: &RunWords) -> bool
    ensures { result ≡ spec.is_twofold (wish_of_run words.now) }
{
    is_named(words.cache) && (is_named(words.record_file) || is_named(words.archive))
}

/// Whether a record, an archive or a cache is named, so that a job could be loaded.
pub fn remembers(words: &RunWords) -> bool
    ensures { result ≡ spec.remembers (wish_of_run words.now) }
{
    is_named(words.cache) || is_named(words.record_file) || is_named(words.archive)
}

fn is_named(name: Option<&str>) -> bool
    ensures { result ≡ is_some (option_map (λ s. s.now) name.entry) }
{
    match name {
        None => false,
        Some(_) => true,
    }
}

/// The file of the record that a run asks, if it has one in a file.
pub fn record_of(alloc: Global, words: &RunWords) -> Result<Option<Text>, AllocError>
    ensures { IfOk result (λ file. file ≡ spec.record_of (wish_of_run words.now)) }
{
    kept_in(alloc, words.cache, RECORD, words.record_file)
}

/// The file of the times that are trusted, if they are: it stands beside the record.
pub fn times_of(alloc: Global, words: &RunWords) -> Result<Option<Text>, AllocError>
    ensures { IfOk result (λ file. file ≡ spec.times_of (wish_of_run words.now)) }
{
    if !words.trust_times {
        return Ok(None);
    }
    match record_of(alloc, words)? {
        None => Ok(None),
        Some(file) => {
            let times = format!(in alloc; "{file}.times");
            mem::drop(file);
            Ok(Some(Text::from_string(times?)))
        }
    }
}

/// The folder that keeps the files of jobs, if one does.
pub fn archive_of(alloc: Global, words: &RunWords) -> Result<Option<Text>, AllocError>
    ensures { IfOk result (λ folder. folder ≡ spec.archive_of (wish_of_run words.now)) }
{
    kept_in(alloc, words.cache, FILES, words.archive)
}

/// Whether the files of jobs are kept.
pub fn keeps_archive(words: &RunWords) -> bool
    ensures { result ≡ is_some (spec.archive_of (wish_of_run words.now)) }
{
    match words.cache {
        None => is_named(words.archive),
        Some(_) => true,
    }
}

fn kept_in(
    alloc: Global,
    cache: Option<&str>,
    name: &str,
    named: Option<&str>,
) -> Result<Option<Text>, AllocError>
    ensures { IfOk result (λ path. path ≡ spec.kept_in (option_map (λ s. s.now) cache.entry)
        name.now (option_map (λ s. s.now) named.entry)) }
{
    match cache {
        None => copied(alloc, named),
        Some(folder) => Ok(Some(within(alloc, folder, name)?)),
    }
}

fn copied(alloc: Global, named: Option<&str>) -> Result<Option<Text>, AllocError>
    ensures { IfOk result (λ copy. copy ≡ option_map (λ s. s.now) named.entry) }
{
    match named {
        None => Ok(None),
        Some(name) => Ok(Some(Text::from_text(alloc, name)?)),
    }
}

/// What is in a folder under a name.
pub fn within(alloc: Global, folder: &str, name: &str) -> Result<Text, AllocError>
    ensures { IfOk result (λ path. path ≡ spec.within folder.now name.now) }
{
    Ok(Text::from_string(format!(in alloc; "{folder}/{name}")?))
}

/// Makes the folder of a cache, if that can be done. If it can't its record is not opened either, which says why.
pub fn make_cache<R: World>(rt: &R, words: &RunWords) {
    if let Some(folder) = words.cache {
        let _made = fs::create_dir_all(rt, folder);
    }
}

//! What of earlier runs a run is asked to use.

use run_facts::KeyParts;

/// What of an earlier run is asked for, and which document is run on which inputs.
#[derive(Clone, Copy, Drop)]
pub struct Memory<'a> {
    /// The document's name.
    pub document: &'a str,
    /// The name of the input object's file, if it can be read again.
    pub inputs: Option<&'a str>,
    /// The name of the record's file, or of the cache that has it.
    pub record: Option<&'a str>,
    /// The name of the archive's folder, or of the cache that has it.
    pub archive: Option<&'a str>,
    /// Whether a record or an archive is named, so that a job could be loaded.
    pub remembers: bool,
    /// Whether an archive is kept.
    pub keeps: bool,
    /// The jobs that the record had before the run, if it is to be said how others differ from them.
    pub recorded: &'a [KeyParts],
    /// Whether a line is to say what became of the jobs.
    pub counts: bool,
}

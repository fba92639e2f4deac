//! How a run ends the program, and what it leaves.
ghost use Rattle.std.specs.Prelude.{◌≡◌, ◌++◌, [], ◌∷◌, None, Some, IfOk, OnOk, map, option_map, string_bytes};
ghost use Rattle.program_words.specs.RunWords.{wish_of_run};
ghost use Rattle.end_words.specs.Leaving as spec;
ghost use Rattle.end_words.specs.Unwritten as unwritten;
ghost use Rattle.end_words.specs.Told.{unkept_words};

use crate::exit::{Exit, Fault};
use crate::explaining::unkept_words;
use plain_data::Text;
use proc_host::HostFault;
use program_words::{RunWords, Savings};
use std::alloc::{AllocError, Global};
use std::mem;

/// How the program ends, and what is said beside that.
#[derive(Drop)]
pub struct RunEnd {
    pub exit: Exit,
    /// The work folder, if it stays.
    pub left: Option<Text>,
    /// Lines on what failed.
    pub notes: Vec<String>,
    /// What became of its jobs, if a run that succeeded says it.
    pub savings: Option<Savings>,
    /// What a run could not keep since there is no room or since the record may not be written. It is said in one line though no words are asked for.
    pub unkept: Option<Text>,
}

impl RunEnd {
    /// An end of which nothing else is said.
    pub fn bare(alloc: Global, exit: Exit) -> RunEnd
        ensures exit { result.exit ≡ exit }
        ensures left { result.left ≡ None }
    {
        RunEnd::with_notes(exit, Vec::new(alloc))
    }

    /// An end with these lines on what failed.
    pub fn with_notes(exit: Exit, notes: Vec<String>) -> RunEnd
        ensures exit { result.exit ≡ exit }
        ensures left { result.left ≡ None }
    {
        RunEnd {
            exit,
            left: None,
            notes,
            savings: None,
            unkept: None,
        }
    }

    /// Adds the work folder, if it stays for this end.
    pub fn leaving(self, alloc: Global, words: &RunWords, work: &Text) -> Result<RunEnd, AllocError>
        ensures exit { IfOk result (λ end. end.exit ≡ self.exit) }
        ensures left { IfOk result (λ end. end.left
            ≡ spec.left_of (wish_of_run words.now) self.exit work.now) }
    {
        let RunEnd {
            exit,
            left: _,
            notes,
            savings,
            unkept,
        } = self;
        let left = left_of(alloc, words, &exit, work)?;
        Ok(RunEnd {
            exit,
            left,
            notes,
            savings,
            unkept,
        })
    }

    /// Adds that nothing of a run is kept, since the file of its record may not be written. It is said of a run that came to the end of its jobs.
    pub fn unwritten(mut self, alloc: Global, file: &str) -> Result<RunEnd, AllocError>
        ensures exit { IfOk result (λ end. end.exit ≡ self.exit) }
        ensures left { IfOk result (λ end. end.left ≡ self.left) }
        ensures unkept { IfOk result (λ end. end.unkept
            ≡ unwritten.unkept_of self.exit file.now self.unkept) }
        ensures notes { IfOk result (λ end. map string_bytes end.notes.items
            ≡ unwritten.notes_of self.exit file.now (map string_bytes self.notes.items)) }
        ensures savings { IfOk result (λ end. end.savings
            ≡ unwritten.savings_of self.exit self.savings) }
    {
        if !is_of_jobs(&self.exit) {
            return Ok(self);
        }
        match self.keep_no_jobs(alloc, file) {
            Ok(()) => Ok(self),
            Err(error) => {
                mem::drop(self);
                Err(error)
            }
        }
    }

    // Adds what of the jobs was not kept.
    fn keep_no_jobs(&mut self, alloc: Global, file: &str) -> Result<(), AllocError>
        ensures exit { OnOk result (self.new.exit ≡ self.old.exit) }
        ensures left { OnOk result (self.new.left ≡ self.old.left) }
        ensures unkept { OnOk result (self.new.unkept ≡ Some (unwritten.unwritten_words file.now)) }
        ensures notes { OnOk result (map string_bytes self.new.notes.items
            ≡ map string_bytes self.old.notes.items
            ++ (unkept_words (unwritten.unwritten_words file.now) ∷ [])) }
        ensures savings { OnOk result (self.new.savings
            ≡ option_map unwritten.none_kept self.old.savings) }
    {
        let what = unwritten_words(alloc, file)?;
        self.notes.push(unkept_words(alloc, what.as_str())?)?;
        keep_none(&mut self.savings);
        mem::drop(self.unkept.replace(Text::from_string(what)));
        Ok(())
    }
}

// Whether the jobs of a run led to an end.
fn is_of_jobs(exit: &Exit) -> bool
    ensures { result ≡ unwritten.is_of_jobs exit.now }
{
    matches!(
        exit,
        Exit::Output(_) | Exit::Permanent(..) | Exit::Temporary(_)
    )
}

fn unwritten_words(alloc: Global, file: &str) -> Result<String, AllocError>
    ensures { IfOk result (λ words. string_bytes words ≡ unwritten.unwritten_words file.now) }
{
    format!(in alloc; "the jobs of this run, since {file} may not be written")
}

// Counts no job as kept.
fn keep_none(savings: &mut Option<Savings>)
    ensures { savings.new ≡ option_map unwritten.none_kept savings.old }
{
    if let Some(savings) = savings {
        savings.kept = Some(0);
    }
}

fn left_of(
    alloc: Global,
    words: &RunWords,
    exit: &Exit,
    work: &Text,
) -> Result<Option<Text>, AllocError>
    ensures { IfOk result (λ left. left
        ≡ spec.left_of (wish_of_run words.now) exit.now work.now) }
{
    if stays(words, exit) {
        return Ok(Some(work.copied(alloc)?));
    }
    Ok(None)
}

// Whether the work folder stays: if that is asked for, and if a result lies there that could not be delivered.
fn stays(words: &RunWords, exit: &Exit) -> bool
    ensures { result ≡ spec.stays (wish_of_run words.now) exit.now }
{
    words.keep || (words.keep_failed && is_failure(exit)) || is_undelivered(exit)
}

fn is_failure(exit: &Exit) -> bool
    ensures { result ≡ spec.is_failure exit.now }
{
    !matches!(exit, Exit::Output(_))
}

fn is_undelivered(exit: &Exit) -> bool
    ensures { result ≡ spec.is_undelivered exit.now }
{
    matches!(exit, Exit::Fault(Fault::Host(HostFault::Deliver, _)))
}

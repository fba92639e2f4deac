//! What became of the jobs of a run that failed, in numbers.
ghost use Rattle.std.specs.Prelude.{◌≡◌, IfOk, string_bytes};
ghost use Rattle.end_words.specs.Tally as spec;

use std::alloc::{AllocError, Global};

const ONE_DONE: &str =
    "`--cache DIR` would have kept the job that was done: the next run would not do it again";

const KEPT: &str = "the next run with the same cache does not do again what is kept";

/// What is counted in a run that failed.
#[derive(Clone, Copy, Debug, PartialEq, Eq)]
pub struct Counted {
    /// The jobs that are known.
    pub known: u64,
    /// Those that earlier runs have kept, and that were not computed again.
    pub before: u64,
    /// Those of which a child was started. Each of them has ended.
    pub started: u64,
    /// How many of these are kept for later runs, if jobs are kept at all.
    pub kept: Option<u64>,
}

/// What the end of such a run names.
#[derive(Clone, Copy, Debug, PartialEq, Eq)]
pub enum Named {
    /// A job, whose last child has this ticket.
    Child(u64),
    /// A job of which no child was started.
    Job,
    /// A step, or the process itself.
    Step,
}

/// How many jobs of a run are known, and what became of them.
#[derive(Clone, Copy, Debug, PartialEq, Eq)]
pub struct Tally {
    pub known: u64,
    /// Those that earlier runs have kept, and that were not computed again.
    pub before: u64,
    /// Those whose command succeeded, but for the one that the end names.
    pub done: u64,
    /// How many of these are kept for later runs, if jobs are kept at all.
    pub kept: Option<u64>,
    pub failed: u64,
}

/// Says what became of the jobs of a run, if the children of these tickets are those that failed.
pub fn tally_of(counted: &Counted, failed: &[u64], named: Named) -> Tally
    ensures { result ≡ spec.tally_of counted.now failed.now named }
{
    let commands = failed.len() as u64;
    let (unsaid, undone) = (unsaid_of(failed, named), undone_of(failed, named));
    Tally {
        known: counted.known,
        before: counted.before,
        done: counted
            .started
            .saturating_sub(commands)
            .saturating_sub(undone),
        kept: counted.kept,
        failed: commands + unsaid,
    }
}

// One if the end names a job whose command did not fail.
fn unsaid_of(failed: &[u64], named: Named) -> u64
    ensures { result ≡ spec.unsaid_of failed.now named }
{
    match named {
        Named::Child(ticket) => undone_child(failed, ticket),
        Named::Job => 1,
        Named::Step => 0,
    }
}

// One if the end names a job whose command succeeded.
fn undone_of(failed: &[u64], named: Named) -> u64
    ensures { result ≡ spec.undone_of failed.now named }
{
    match named {
        Named::Child(ticket) => undone_child(failed, ticket),
        Named::Job | Named::Step => 0,
    }
}

fn undone_child(failed: &[u64], ticket: u64) -> u64
    ensures { result ≡ spec.undone_child failed.now ticket }
{
    if failed.contains(&ticket) { 0 } else { 1 }
}

/// Adds a line with these numbers, and one on what a later run does not do again, or would not with a cache; none if one job alone is
/// known.
pub fn add_tally(alloc: Global, tally: &Tally, lines: &mut Vec<String>) -> Result<(), AllocError> {
    if tally.known < 2 {
        return Ok(());
    }
    lines.push(tally_line(alloc, tally)?)?;
    match tally.kept {
        None if tally.done > 0 => lines.push(cache_line(alloc, tally.done)?)?,
        Some(kept) if kept > 0 || tally.before > 0 => {
            lines.push(String::from_str(alloc, KEPT)?)?;
        }
        _ => {}
    }
    Ok(())
}

fn tally_line(alloc: Global, tally: &Tally) -> Result<String, AllocError>
    ensures { IfOk result (λ line. string_bytes line ≡ spec.tally_line tally.now) }
{
    let line = with_jobs(alloc, tally)?;
    let line = with_part(alloc, line, "failed", tally.failed)?;
    with_part(alloc, line, "not started", left_of(tally))
}

fn with_jobs(alloc: Global, tally: &Tally) -> Result<String, AllocError>
    ensures { IfOk result (λ line. string_bytes line ≡ spec.with_jobs tally.now) }
{
    let known = tally.known;
    let line = format!(in alloc; "known jobs: {known}")?;
    let line = with_part(alloc, line, "kept before", tally.before)?;
    with_done(alloc, line, tally)
}

fn with_done(alloc: Global, line: String, tally: &Tally) -> Result<String, AllocError>
    ensures { IfOk result (λ longer. string_bytes longer
        ≡ spec.with_done (string_bytes line) tally.now.done tally.now.kept) }
{
    match tally.kept {
        None => with_part(alloc, line, "done", tally.done),
        Some(kept) => {
            let line = with_part(alloc, line, "done and kept", kept)?;
            with_part(
                alloc,
                line,
                "done and not kept",
                tally.done.saturating_sub(kept),
            )
        }
    }
}

// A line and one number more, if it is not 0.
fn with_part(alloc: Global, line: String, words: &str, number: u64) -> Result<String, AllocError>
    ensures { IfOk result (λ longer. string_bytes longer
        ≡ spec.with_part (string_bytes line) words.now number) }
{
    if number == 0 {
        return Ok(line);
    }
    longer(alloc, line, words, number)
}

fn longer(alloc: Global, line: String, words: &str, number: u64) -> Result<String, AllocError>
    ensures { IfOk result (λ longer. string_bytes longer
        ≡ spec.longer (string_bytes line) words.now number) }
{
    format!(in alloc; "{line}, {words}: {number}")
}

// Those of which no command was started.
fn left_of(tally: &Tally) -> u64
    ensures { result ≡ spec.left_of tally.now }
{
    tally
        .known
        .saturating_sub(tally.before)
        .saturating_sub(tally.done)
        .saturating_sub(tally.failed)
}

fn cache_line(alloc: Global, done: u64) -> Result<String, AllocError>
    ensures { IfOk result (λ line. string_bytes line ≡ spec.cache_line done) }
{
    if done == 1 {
        return String::from_str(alloc, ONE_DONE);
    }
    format!(in alloc;
        "`--cache DIR` would have kept the {done} jobs that were done: the next run would not do them again"
    )
}

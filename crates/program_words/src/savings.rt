//! What a run says at its end of its jobs, of its time and of its files.
ghost use Rattle.std.specs.Prelude.{◌≡◌, ◌<◌, IfOk, string_bytes};
ghost use Rattle.program_words.specs.Savings as spec;

use std::alloc::{AllocError, Global};

/// How many jobs a run had, what became of them, how long it took, what it saved, and how many files it delivered.
#[derive(Clone, Copy, Debug, PartialEq, Eq)]
pub struct Savings {
    pub jobs: u64,
    pub loaded: u64,
    pub computed: u64,
    /// The milliseconds that the run took.
    pub millis: u64,
    /// The milliseconds that it took to compute what was loaded or not needed, by the rows of the record.
    pub gained: u64,
    /// How many files it delivered, a folder as one.
    pub delivered: u64,
    /// Whether a job could have been loaded.
    pub could_load: bool,
    /// How many of the computed jobs were kept, if some that were to be kept couldn't be.
    pub kept: Option<u64>,
}

/// The line that says it. If no job could have been loaded nothing is said of loads, and of what they saved.
pub fn savings_line(alloc: Global, savings: &Savings) -> Result<String, AllocError>
    ensures { IfOk result (λ line. string_bytes line ≡ spec.savings_line savings.now) }
{
    if savings.could_load {
        return reuse_line(alloc, savings);
    }
    plain_line(alloc, savings)
}

fn reuse_line(alloc: Global, savings: &Savings) -> Result<String, AllocError>
    ensures { IfOk result (λ line. string_bytes line ≡ spec.reuse_line savings.now) }
{
    let jobs = jobs_words(alloc, savings.jobs)?;
    let loaded = grouped(alloc, savings.loaded)?;
    let computed = computed_words(alloc, savings)?;
    let rest = grouped(alloc, not_needed(savings))?;
    let effect = effect_words(alloc, savings)?;
    format!(in alloc; "{jobs}: {loaded} loaded, {computed}, {rest} not needed; {effect}")
}

fn effect_words(alloc: Global, savings: &Savings) -> Result<String, AllocError>
    ensures { IfOk result (λ words. string_bytes words ≡ spec.effect_words savings.now) }
{
    let time = time_words(alloc, savings.millis)?;
    let gain = gain_words(alloc, savings.gained)?;
    let files = files_words(alloc, savings.delivered)?;
    format!(in alloc; "{time}, {gain}; {files}")
}

fn plain_line(alloc: Global, savings: &Savings) -> Result<String, AllocError>
    ensures { IfOk result (λ line. string_bytes line ≡ spec.plain_line savings.now) }
{
    let jobs = jobs_words(alloc, savings.jobs)?;
    let computed = computed_words(alloc, savings)?;
    let time = time_words(alloc, savings.millis)?;
    let files = files_words(alloc, savings.delivered)?;
    format!(in alloc; "{jobs}: {computed}; {time}; {files}")
}

fn computed_words(alloc: Global, savings: &Savings) -> Result<String, AllocError>
    ensures { IfOk result (λ words. string_bytes words ≡ spec.computed_words savings.now) }
{
    match savings.kept {
        None => only_computed(alloc, savings.computed),
        Some(kept) => computed_and_kept(alloc, savings.computed, kept),
    }
}

fn only_computed(alloc: Global, computed: u64) -> Result<String, AllocError>
    ensures { IfOk result (λ words. string_bytes words ≡ spec.only_computed computed) }
{
    let number = grouped(alloc, computed)?;
    format!(in alloc; "{number} computed")
}

fn computed_and_kept(alloc: Global, computed: u64, kept: u64) -> Result<String, AllocError>
    ensures { IfOk result (λ words. string_bytes words ≡ spec.computed_and_kept computed kept) }
{
    let number = only_computed(alloc, computed)?;
    let rest = grouped(alloc, kept)?;
    format!(in alloc; "{number}, {rest} kept")
}

fn not_needed(savings: &Savings) -> u64
    ensures { result ≡ spec.not_needed savings.now }
{
    savings
        .jobs
        .saturating_sub(savings.loaded)
        .saturating_sub(savings.computed)
}

fn jobs_words(alloc: Global, jobs: u64) -> Result<String, AllocError>
    ensures { IfOk result (λ words. string_bytes words ≡ spec.jobs_words jobs) }
{
    if jobs == 1 {
        return String::from_str(alloc, "1 job");
    }
    let jobs = grouped(alloc, jobs)?;
    format!(in alloc; "{jobs} jobs")
}

fn files_words(alloc: Global, files: u64) -> Result<String, AllocError>
    ensures { IfOk result (λ words. string_bytes words ≡ spec.files_words files) }
{
    if files == 1 {
        return String::from_str(alloc, "1 file delivered");
    }
    many_files(alloc, files)
}

fn many_files(alloc: Global, files: u64) -> Result<String, AllocError>
    ensures { IfOk result (λ words. string_bytes words ≡ spec.many_files files) }
{
    let number = grouped(alloc, files)?;
    format!(in alloc; "{number} files delivered")
}

// A number with a comma before its last three digits.
fn grouped(alloc: Global, number: u64) -> Result<String, AllocError>
    ensures { IfOk result (λ text. string_bytes text ≡ spec.grouped number) }
{
    if number < 1000 {
        return format!(in alloc; "{number}");
    }
    with_comma(alloc, number)
}

fn with_comma(alloc: Global, number: u64) -> Result<String, AllocError>
    ensures { IfOk result (λ text. string_bytes text ≡ spec.with_comma number) }
{
    let (front, back) = (number / 1000, number % 1000);
    let zeros = zeros_before(back);
    format!(in alloc; "{front},{zeros}{back}")
}

fn zeros_before(number: u64) -> &'static str
    ensures { result.now ≡ spec.zeros_before number }
{
    if number < 10 {
        return "00";
    }
    if number < 100 {
        return "0";
    }
    ""
}

fn time_words(alloc: Global, millis: u64) -> Result<String, AllocError>
    ensures { IfOk result (λ words. string_bytes words ≡ spec.time_words millis) }
{
    if millis < 120_000 {
        return seconds_words(alloc, millis);
    }
    if millis < 7_200_000 {
        return minutes_words(alloc, millis);
    }
    hours_words(alloc, millis)
}

fn seconds_words(alloc: Global, millis: u64) -> Result<String, AllocError>
    ensures { IfOk result (λ words. string_bytes words ≡ spec.seconds_words millis) }
{
    let (seconds, tenths) = (millis / 1000, millis % 1000 / 100);
    format!(in alloc; "{seconds}.{tenths} s")
}

fn minutes_words(alloc: Global, millis: u64) -> Result<String, AllocError>
    ensures { IfOk result (λ words. string_bytes words ≡ spec.minutes_words millis) }
{
    let minutes = millis / 60_000;
    format!(in alloc; "{minutes} minutes")
}

fn hours_words(alloc: Global, millis: u64) -> Result<String, AllocError>
    ensures { IfOk result (λ words. string_bytes words ≡ spec.hours_words millis) }
{
    let hours = millis / 3_600_000;
    format!(in alloc; "{hours} hours")
}

fn gain_words(alloc: Global, millis: u64) -> Result<String, AllocError>
    ensures { IfOk result (λ words. string_bytes words ≡ spec.gain_words millis) }
{
    if millis == 0 {
        return String::from_str(alloc, "nothing saved");
    }
    let time = time_words(alloc, millis)?;
    format!(in alloc; "about {time} saved")
}

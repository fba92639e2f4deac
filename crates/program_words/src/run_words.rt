ghost use Rattle.std.specs.Prelude.{◌≡◌, ◌≤◌, ◌^◌, ◌++◌, IfOk, IfErr, Some, false, codes, option_map};
ghost use Rattle.std.specs.List.{fold};
ghost use Rattle.clap.specs.Words.{app_of, found_of, kind_of, new_app, rows_of, rule_of, with_rule};
ghost use Rattle.program_words.specs.Flags.{IsLocal};
ghost use Rattle.program_words.specs.RunWords.{IsBudget, IsChosen, cache_rules, folder_rules, input_rules, job_rules, keeping_rules, named_rule, numbered_rule, placed_rule, run_command, run_rules, run_wish, shared_rules, store_rules, telling_in, telling_rules, wish_of_run, number_rules};

use crate::flags::{RUN_END, is_given, is_wanted, with_flag, with_flags};
use crate::shows::{Shows, shows_of};
use crate::telling::Telling;
use clap::builder::ValueParser;
use clap::error::ErrorKind;
use clap::{Arg, ArgAction, ArgMatches, Command, Error};
use given_words::MOST_SLOTS;
use plan_checker::MOST_COST;
use std::alloc::Global;

const LEAST_SLOTS: u64 = 1;

const MOST_RETRIES: u64 = 10;

const USUAL_BASE: u64 = 1;

const LEAST_RATE: u64 = 1;

/// The most bytes of a budget: what a record counts to.
pub const MOST_BUDGET: u64 = 9_223_372_036_854_775_807;

const USUAL_RATE: u64 = 100_000;

const WORK_HELP: &str = "The folder for the jobs, made and removed by the run [cwl-work]";

const OUTDIR_HELP: &str = "The folder for the output files, made if it is absent [.]";

const SLOTS_HELP: &str =
    "How many jobs may run side by side, from 1 to 64 [1]; `all` are the processors of the machine, as by `--parallel`";

const RETRIES_HELP: &str =
    "How often a job that fails temporarily is started again, from 0 to 10 [0]";

const LAUNCHER_HELP: &str =
    "Words that stand before the command of each job, as 'srun -n1': they are parted at spaces, without quoting";

const RECORD_HELP: &str =
    "The file of a record, made if it is absent, which keeps what each job gives and ends a run that gives something else";

const ARCHIVE_HELP: &str =
    "The folder that keeps the files of each job, made if it is absent; they are fetched if that costs less than the job";

const CACHE_HELP: &str =
    "The folder of a record and an archive, made if it is absent: `--record DIR/jobs.db --archive DIR/files`";

const BUDGET_HELP: &str =
    "How many bytes of files the archive has at most, also as 50G: k, M, G and T are powers of 1,000; what was used longest ago goes first";

const TRUST_HELP: &str =
    "Don't read an input file again whose times and size are those of an earlier run with this record, or cache, and this option";

const BASE_HELP: &str =
    "What it costs to load the files of any job, from 0 to 10^12 [1]; by `--prefer-kept` this is 0 and the rate 10^12, so that what is kept is loaded";

const RATE_HELP: &str = "How many bytes are loaded for a cost of 1, from 1 to 10^12 [100000]";

const VERBOSE_HELP: &str =
    "Say when each job starts and ends, and show what the commands write to standard error";

const PROGRESS_HELP: &str =
    "Show in one line how many jobs are done, run and are left; on a terminal it is shown unasked";

const OBJECTS_HELP: &str =
    "Say when each job starts and ends, in lines of JSON, as by `--progress=json`";

const KEEP_HELP: &str = "Leave the work folder as it is at the end, and say where it is";

const KEEP_FAILED_HELP: &str = "Leave it after a failure";

const VALIDATE_HELP: &str =
    "Read and check the document, and INPUTS if it is given, say what the inputs are, and run nothing";

const TEMPLATE_HELP: &str =
    "Print an input object for the document, to be filled in, and run nothing";

const PRINT_HELP: &str =
    "Print the command of a tool for INPUTS, as a shell takes it, and run nothing";

const INPUTS_HELP: &str =
    "The input object's file, in JSON, or `-` for standard input; without it the object is empty";

const DOCUMENT_HELP: &str = "The document of the process, in JSON";

/// The files and folders that the words of a run name, and the texts of its numbers.
#[derive(Drop)]
pub struct RunWords<'a> {
    pub document: &'a str,
    pub inputs: Option<&'a str>,
    pub work: &'a str,
    pub outdir: &'a str,
    pub slots: Option<&'a str>,
    pub retries: Option<&'a str>,
    /// The text of the words that stand before the command of each job.
    pub launcher: Option<&'a str>,
    /// The file of the record that is asked for the jobs; without it the record ends with the run.
    pub record_file: Option<&'a str>,
    /// The folder that keeps the files of jobs; without it none are kept, and each job is computed.
    pub archive: Option<&'a str>,
    /// The folder that has both.
    pub cache: Option<&'a str>,
    /// How many bytes of files are kept; without it all are.
    pub budget: Option<&'a str>,
    /// Whether the sum of an input file is taken from an earlier run if its times and its size are as they were then.
    pub trust_times: bool,
    /// What a load costs, and how many bytes cost 1 more.
    pub base: Option<&'a str>,
    pub rate: Option<&'a str>,
    /// Whether the work folder is to stay, and whether it is to stay after a failure.
    pub keep: bool,
    pub keep_failed: bool,
    /// What to say of the jobs while they run.
    pub telling: Telling,
    /// What to show of the process: what comes of its run, or what can be said without one.
    pub shows: Shows,
    /// Whether to say in words what went wrong.
    pub explain: bool,
}

// An argument by its place.
fn placed<'a>(alloc: Global, id: &'a str, is_required: bool, help: &'a str) -> Arg<'a>
    ensures rule { rule_of result ≡ placed_rule id.now is_required }
    ensures local { result.global ≡ false }
{
    Arg::new(alloc, id)
        .required(is_required)
        .action(ArgAction::Set)
        .help(help)
}

// An argument by its name, as `--work DIR`. An empty one would name a folder or a file that nobody means.
fn named<'a>(alloc: Global, id: &'a str, value: &'a str, help: &'a str) -> Arg<'a>
    ensures rule { rule_of result ≡ named_rule id.now }
    ensures local { result.global ≡ false }
{
    Arg::new(alloc, id)
        .long(id)
        .value_name(value)
        .action(ArgAction::Set)
        .value_parser(ValueParser::NonEmptyString)
        .help(help)
}

// An option with a number within limits, as `--slots N`.
fn numbered<'a>(alloc: Global, id: &'a str, least: u64, most: u64, help: &'a str) -> Arg<'a>
    ensures rule { rule_of result ≡ numbered_rule id.now least most }
    ensures local { result.global ≡ false }
{
    Arg::new(alloc, id)
        .long(id)
        .value_name("N")
        .action(ArgAction::Set)
        .value_parser(ValueParser::Unsigned(least, most))
        .help(help)
}

/// A command with an argument by its place.
pub fn with_placed<'a>(
    alloc: Global,
    command: Command<'a>,
    id: &'a str,
    is_required: bool,
    help: &'a str,
) -> Result<Command<'a>, Error>
    requires { IsLocal command }
    ensures ok { IfOk result (λ whole. app_of whole
        ≡ with_rule (app_of command.entry) (placed_rule id.now is_required)) }
    ensures local { IfOk result IsLocal }
    ensures err { IfErr result (λ e. kind_of e ≡ ErrorKind.OutOfMemory) }
{
    let arg = placed(alloc, id, is_required, help);
    let command = command.arg(arg)?;
    Ok(command)
}

/// A command with an argument by its name.
pub fn with_named<'a>(
    alloc: Global,
    command: Command<'a>,
    id: &'a str,
    value: &'a str,
    help: &'a str,
) -> Result<Command<'a>, Error>
    requires { IsLocal command }
    ensures ok { IfOk result (λ whole. app_of whole
        ≡ with_rule (app_of command.entry) (named_rule id.now)) }
    ensures local { IfOk result IsLocal }
    ensures err { IfErr result (λ e. kind_of e ≡ ErrorKind.OutOfMemory) }
{
    let arg = named(alloc, id, value, help);
    let command = command.arg(arg)?;
    Ok(command)
}

/// A command with an option that has a number within limits.
pub fn with_numbered<'a>(
    alloc: Global,
    command: Command<'a>,
    id: &'a str,
    least: u64,
    most: u64,
    help: &'a str,
) -> Result<Command<'a>, Error>
    requires { IsLocal command }
    ensures ok { IfOk result (λ whole. app_of whole
        ≡ with_rule (app_of command.entry) (numbered_rule id.now least most)) }
    ensures local { IfOk result IsLocal }
    ensures err { IfErr result (λ e. kind_of e ≡ ErrorKind.OutOfMemory) }
{
    let arg = numbered(alloc, id, least, most, help);
    let command = command.arg(arg)?;
    Ok(command)
}

// A command with the two folders alone.
fn with_folders<'a>(alloc: Global, command: Command<'a>) -> Result<Command<'a>, Error>
    requires { IsLocal command }
    ensures ok { IfOk result (λ whole. app_of whole
        ≡ fold with_rule (app_of command.entry) folder_rules) }
    ensures local { IfOk result IsLocal }
    ensures err { IfErr result (λ e. kind_of e ≡ ErrorKind.OutOfMemory) }
{
    let command = with_named(alloc, command, "work", "DIR", WORK_HELP)?;
    with_named(alloc, command, "outdir", "DIR", OUTDIR_HELP)
}

// And with how many jobs may run side by side, and how often a job is started again.
fn with_numbers<'a>(alloc: Global, command: Command<'a>) -> Result<Command<'a>, Error>
    requires { IsLocal command }
    ensures ok { IfOk result (λ whole. app_of whole
        ≡ fold with_rule (app_of command.entry) (folder_rules ++ number_rules)) }
    ensures local { IfOk result IsLocal }
    ensures err { IfErr result (λ e. kind_of e ≡ ErrorKind.OutOfMemory) }
{
    let command = with_folders(alloc, command)?;
    let command = with_numbered(alloc, command, "slots", LEAST_SLOTS, MOST_SLOTS, SLOTS_HELP)?;
    with_numbered(alloc, command, "retries", 0, MOST_RETRIES, RETRIES_HELP)
}

// And with what starts a job.
fn with_jobs<'a>(alloc: Global, command: Command<'a>) -> Result<Command<'a>, Error>
    requires { IsLocal command }
    ensures ok { IfOk result (λ whole. app_of whole
        ≡ fold with_rule (app_of command.entry) (folder_rules ++ job_rules)) }
    ensures local { IfOk result IsLocal }
    ensures err { IfErr result (λ e. kind_of e ≡ ErrorKind.OutOfMemory) }
{
    let command = with_numbers(alloc, command)?;
    with_named(alloc, command, "launcher", "WORDS", LAUNCHER_HELP)
}

// And with the record, the archive, the cache, and how much is kept.
fn with_cache<'a>(alloc: Global, command: Command<'a>) -> Result<Command<'a>, Error>
    requires { IsLocal command }
    ensures ok { IfOk result (λ whole. app_of whole
        ≡ fold with_rule (app_of command.entry) (folder_rules ++ job_rules ++ cache_rules)) }
    ensures local { IfOk result IsLocal }
    ensures err { IfErr result (λ e. kind_of e ≡ ErrorKind.OutOfMemory) }
{
    let command = with_jobs(alloc, command)?;
    let command = with_named(alloc, command, "record", "FILE", RECORD_HELP)?;
    let command = with_named(alloc, command, "archive", "DIR", ARCHIVE_HELP)?;
    let command = with_named(alloc, command, "cache", "DIR", CACHE_HELP)?;
    with_numbered(alloc, command, "budget", 0, MOST_BUDGET, BUDGET_HELP)
}

// And with what is not read again.
fn with_store<'a>(alloc: Global, command: Command<'a>) -> Result<Command<'a>, Error>
    requires { IsLocal command }
    ensures ok { IfOk result (λ whole. app_of whole
        ≡ fold with_rule (app_of command.entry) (folder_rules ++ job_rules ++ store_rules)) }
    ensures local { IfOk result IsLocal }
    ensures err { IfErr result (λ e. kind_of e ≡ ErrorKind.OutOfMemory) }
{
    let command = with_cache(alloc, command)?;
    with_flag(alloc, command, "trust-times", TRUST_HELP)
}

/// A command with the options of each run, and of each plan of one.
pub fn with_costs<'a>(alloc: Global, command: Command<'a>) -> Result<Command<'a>, Error>
    requires { IsLocal command }
    ensures ok { IfOk result (λ whole. app_of whole
        ≡ fold with_rule (app_of command.entry) shared_rules) }
    ensures local { IfOk result IsLocal }
    ensures err { IfErr result (λ e. kind_of e ≡ ErrorKind.OutOfMemory) }
{
    let command = with_store(alloc, command)?;
    let command = with_numbered(alloc, command, "base", 0, MOST_COST, BASE_HELP)?;
    with_numbered(alloc, command, "rate", LEAST_RATE, MOST_COST, RATE_HELP)
}

/// A command with its document and its input object.
pub fn with_inputs<'a>(alloc: Global, command: Command<'a>) -> Result<Command<'a>, Error>
    requires { IsLocal command }
    ensures ok { IfOk result (λ whole. app_of whole
        ≡ fold with_rule (app_of command.entry) input_rules) }
    ensures local { IfOk result IsLocal }
    ensures err { IfErr result (λ e. kind_of e ≡ ErrorKind.OutOfMemory) }
{
    let command = with_placed(alloc, command, "DOCUMENT", true, DOCUMENT_HELP)?;
    let command = with_placed(alloc, command, "INPUTS", false, INPUTS_HELP)?;
    Ok(command)
}

// The subcommand `run` with these, and with what it says of its jobs.
fn objects_command<'a>(alloc: Global) -> Result<Command<'a>, Error>
    ensures ok { IfOk result (λ command. app_of command
        ≡ fold with_rule (new_app (codes "run")) (shared_rules ++ telling_rules)) }
    ensures local { IfOk result IsLocal }
    ensures err { IfErr result (λ e. kind_of e ≡ ErrorKind.OutOfMemory) }
{
    let command = Command::new(alloc, "run")
        .about("Runs a process and prints its output object")
        .after_help(RUN_END);
    let command = with_costs(alloc, command)?;
    let command = with_flag(alloc, command, "verbose", VERBOSE_HELP)?;
    let command = with_flag(alloc, command, "progress", PROGRESS_HELP)?;
    with_flag(alloc, command, "progress-json", OBJECTS_HELP)
}

// And with the options that leave the work folder.
fn keep_failed_command<'a>(alloc: Global) -> Result<Command<'a>, Error>
    ensures ok { IfOk result (λ command. app_of command
        ≡ fold with_rule (new_app (codes "run")) (shared_rules ++ telling_rules ++ keeping_rules)) }
    ensures local { IfOk result IsLocal }
    ensures err { IfErr result (λ e. kind_of e ≡ ErrorKind.OutOfMemory) }
{
    let command = objects_command(alloc)?;
    let command = with_flag(alloc, command, "keep", KEEP_HELP)?;
    with_flag(alloc, command, "keep-failed", KEEP_FAILED_HELP)
}

// And with those that run nothing.
fn print_command<'a>(alloc: Global) -> Result<Command<'a>, Error>
    ensures ok { IfOk result (λ command. app_of command
        ≡ fold with_rule (new_app (codes "run")) (shared_rules ++ run_rules)) }
    ensures local { IfOk result IsLocal }
    ensures err { IfErr result (λ e. kind_of e ≡ ErrorKind.OutOfMemory) }
{
    let command = keep_failed_command(alloc)?;
    let command = with_flag(alloc, command, "validate", VALIDATE_HELP)?;
    let command = with_flag(alloc, command, "template", TEMPLATE_HELP)?;
    with_flag(alloc, command, "print-command", PRINT_HELP)
}

/// The subcommand `run`.
pub fn run_command<'a>(alloc: Global) -> Result<Command<'a>, Error>
    ensures ok { IfOk result (λ command. app_of command ≡ run_command) }
    ensures local { IfOk result IsLocal }
    ensures err { IfErr result (λ e. kind_of e ≡ ErrorKind.OutOfMemory) }
{
    let command = print_command(alloc)?;
    let command = with_flags(alloc, command)?;
    with_inputs(alloc, command)
}

/// What the words of `run` name.
pub fn run_words<'a>(words: &ArgMatches<'a>) -> RunWords<'a>
    ensures { wish_of_run result ≡ run_wish (rows_of (found_of words.now)) }
{
    RunWords {
        document: words.get_str("DOCUMENT").unwrap_or(""),
        inputs: words.get_str("INPUTS"),
        work: words.get_str("work").unwrap_or("cwl-work"),
        outdir: words.get_str("outdir").unwrap_or("."),
        slots: words.get_str("slots"),
        retries: words.get_str("retries"),
        launcher: words.get_str("launcher"),
        record_file: words.get_str("record"),
        archive: words.get_str("archive"),
        cache: words.get_str("cache"),
        budget: words.get_str("budget"),
        trust_times: is_given(words, "trust-times"),
        base: words.get_str("base"),
        rate: words.get_str("rate"),
        keep: is_given(words, "keep"),
        keep_failed: is_given(words, "keep-failed"),
        telling: telling_of(words),
        shows: shows_of(words),
        explain: is_wanted(words, "explain"),
    }
}

// What the words want to be said of the jobs.
fn telling_of(words: &ArgMatches) -> Telling
    ensures { result ≡ telling_in (rows_of (found_of words.now)) }
{
    if is_wanted(words, "progress-json") {
        return Telling::Objects;
    }
    if is_wanted(words, "verbose") {
        return Telling::Lines;
    }
    if is_wanted(words, "progress") {
        return Telling::OneLine;
    }
    Telling::Nothing
}

/// How many children may run side by side: one if the words don't say.
pub fn slots_of(words: &RunWords) -> u64
    ensures chosen { IsChosen 1 64 1 (option_map (λ s. s.now) words.now.slots) result }
    ensures least { 1 ≤ result }
    ensures most { result ≤ 64 }
{
    match words.slots {
        None => LEAST_SLOTS,
        Some(text) => read_or(text, LEAST_SLOTS, MOST_SLOTS, LEAST_SLOTS),
    }
}

/// How often a job that fails temporarily is started again: never if the words don't say.
pub fn retries_of(words: &RunWords) -> u64
    ensures chosen { IsChosen 0 10 0 (option_map (λ s. s.now) words.now.retries) result }
    ensures most { result ≤ 10 }
{
    match words.retries {
        None => 0,
        Some(text) => read_or(text, 0, MOST_RETRIES, 0),
    }
}

/// How many bytes of files are kept at most: any number if the words don't say.
pub fn budget_of(words: &RunWords) -> Option<u64>
    ensures { IsBudget (option_map (λ s. s.now) words.now.budget) result }
{
    budget_in(words.budget)
}

/// The number of bytes that a budget's text gives.
pub fn budget_in(budget: Option<&str>) -> Option<u64>
    ensures { IsBudget (option_map (λ s. s.now) budget.entry) result }
{
    match budget {
        None => None,
        Some(text) => Some(read_or(text, 0, MOST_BUDGET, MOST_BUDGET)),
    }
}

/// What any load costs: 1 if the words don't say.
pub fn load_base_of(words: &RunWords) -> u64
    ensures chosen { IsChosen 0 1000000000000 1 (option_map (λ s. s.now) words.now.base) result }
    ensures most { result ≤ 10 ^ 12 }
{
    match words.base {
        None => USUAL_BASE,
        Some(text) => read_or(text, 0, MOST_COST, USUAL_BASE),
    }
}

/// How many bytes are loaded for a cost of 1: 100,000 if the words don't say.
pub fn load_rate_of(words: &RunWords) -> u64
    ensures chosen { IsChosen 1 1000000000000 100000 (option_map (λ s. s.now) words.now.rate)
        result }
    ensures least { 1 ≤ result }
    ensures most { result ≤ 10 ^ 12 }
{
    match words.rate {
        None => USUAL_RATE,
        Some(text) => read_or(text, LEAST_RATE, MOST_COST, USUAL_RATE),
    }
}

// The number of a text that `clap` has let through.
fn read_or(text: &str, least: u64, most: u64, other: u64) -> u64
    requires enough { least ≤ other }
    requires within { other ≤ most }
    ensures chosen { IsChosen least most other (Some text.now) result }
    ensures least { least ≤ result }
    ensures most { result ≤ most }
{
    match text.parse::<u64>() {
        Ok(number) => {
            if number < least || number > most {
                return other;
            }
            number
        }
        Err(_) => other,
    }
}

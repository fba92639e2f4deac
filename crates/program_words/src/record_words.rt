ghost use Rattle.std.specs.Prelude.{◌≡◌, IfOk, IfErr, codes, option_map};
ghost use Rattle.std.specs.List.{fold};
ghost use Rattle.clap.specs.Words.{app_of, found_of, kind_of, new_app, rows_of, with_rule};
ghost use Rattle.program_words.specs.RecordWords.{changing_rules, record_command, record_rules, record_wish, wish_of_record};
ghost use Rattle.program_words.specs.Flags.{IsLocal};
ghost use Rattle.program_words.specs.RunWords.{IsBudget};

use crate::flags::{RECORD_END, is_given, is_wanted, with_flag, with_flags};
use crate::run_words::{MOST_BUDGET, budget_in, with_named, with_numbered, with_placed};
use clap::error::ErrorKind;
use clap::{ArgMatches, Command, Error};
use std::alloc::Global;

const FORGET_HELP: &str = "Forget the rows whose key has this SHA-1 first";

const TRIM_HELP: &str =
    "Remove the files that were used longest ago first, until a cache has at most so many bytes of them, also as 50G; the rows stay";

const LONG_HELP: &str =
    "Show of each row also the number of its last use, the tool's first words, and the names of its inputs";

const CHECK_HELP: &str =
    "Name the folders of a cache's files that no row knows, and the rows whose folder is missing";

const REMOVE_HELP: &str = "With `--check`: remove the folders that no row knows";

const FILE_HELP: &str = "The record's file, or the folder of a cache";

/// The record's file, and what is to be done with it.
#[derive(Drop)]
pub struct RecordWords<'a> {
    pub file: &'a str,
    /// The sum of the keys whose rows are to be forgotten.
    pub forget: Option<&'a str>,
    /// How many bytes of files a cache keeps; what was used longest ago goes.
    pub budget: Option<&'a str>,
    /// Whether to show what the rows are of.
    pub long: bool,
    /// Whether to compare a cache's files with its record, and to remove the folders that no row knows.
    pub check: bool,
    pub remove: bool,
    /// Whether to say in words what went wrong.
    pub explain: bool,
}

// The subcommand `record` with the options that change a record.
fn changing_command<'a>(alloc: Global) -> Result<Command<'a>, Error>
    ensures ok { IfOk result (λ command. app_of command
        ≡ fold with_rule (new_app (codes "record")) changing_rules) }
    ensures local { IfOk result IsLocal }
    ensures err { IfErr result (λ e. kind_of e ≡ ErrorKind.OutOfMemory) }
{
    let command = Command::new(alloc, "record")
        .about("Shows the rows of a record of jobs")
        .after_help(RECORD_END);
    let command = with_named(alloc, command, "forget", "HEX", FORGET_HELP)?;
    with_numbered(alloc, command, "budget", 0, MOST_BUDGET, TRIM_HELP)
}

// And with those that look at it.
fn looking_command<'a>(alloc: Global) -> Result<Command<'a>, Error>
    ensures ok { IfOk result (λ command. app_of command
        ≡ fold with_rule (new_app (codes "record")) record_rules) }
    ensures local { IfOk result IsLocal }
    ensures err { IfErr result (λ e. kind_of e ≡ ErrorKind.OutOfMemory) }
{
    let command = changing_command(alloc)?;
    let command = with_flag(alloc, command, "long", LONG_HELP)?;
    let command = with_flag(alloc, command, "check", CHECK_HELP)?;
    with_flag(alloc, command, "remove", REMOVE_HELP)
}

/// The subcommand `record`.
pub fn record_command<'a>(alloc: Global) -> Result<Command<'a>, Error>
    ensures ok { IfOk result (λ command. app_of command ≡ record_command) }
    ensures local { IfOk result IsLocal }
    ensures err { IfErr result (λ e. kind_of e ≡ ErrorKind.OutOfMemory) }
{
    let command = looking_command(alloc)?;
    let command = with_flags(alloc, command)?;
    with_placed(alloc, command, "FILE", true, FILE_HELP)
}

/// What the words of `record` name.
pub fn record_words<'a>(words: &ArgMatches<'a>) -> RecordWords<'a>
    ensures { wish_of_record result ≡ record_wish (rows_of (found_of words.now)) }
{
    RecordWords {
        file: words.get_str("FILE").unwrap_or(""),
        forget: words.get_str("forget"),
        budget: words.get_str("budget"),
        long: is_given(words, "long"),
        check: is_given(words, "check"),
        remove: is_given(words, "remove"),
        explain: is_wanted(words, "explain"),
    }
}

/// How many bytes of files a cache is to keep, if the words say so.
pub fn trim_of(words: &RecordWords) -> Option<u64>
    ensures { IsBudget (option_map (λ s. s.now) words.now.budget) result }
{
    budget_in(words.budget)
}

//! The options without a value, and those that each command takes.
ghost use Rattle.std.specs.Prelude.{◌≡◌, IfOk, IfErr, false};
ghost use Rattle.clap.specs.Words.{app_of, found_of, kind_of, rows_of, rule_of, with_rule};
ghost use Rattle.program_words.specs.Flags.{IsLocal, flag_rule, is_given, is_wanted, with_flags};

use clap::error::ErrorKind;
use clap::{Arg, ArgAction, ArgMatches, Command, Error};
use std::alloc::Global;

const EXPLAIN_HELP: &str =
    "Say in words what went wrong, and where; on a terminal, and if DEPAROHI_EXPLAIN is 1, it is said unasked";

const QUIET_HELP: &str = "Say no more than what came of it";

/// What stands below the help of each command: an example, and its statuses.
pub const RUN_END: &str =
    "Example: deparohi run --outdir results document.json inputs.json\n\nStatus: 0 success, 1 a job failed, 2 a job failed temporarily, 3 anything else went wrong, 33 the document or the inputs are refused";

pub const PLAN_END: &str =
    "Example: deparohi plan --cache cache document.json inputs.json >plan.txt\n\nStatus: 0 there is a plan, 1 a job can't have its inputs, 3 anything else went wrong, 33 the document or the inputs are refused";

pub const CHECK_END: &str =
    "Example: deparohi plan document.json inputs.json | deparohi check -\n\nStatus: 0 no plan costs less, 1 a rule of certificates is broken, 3 the file can't be read, 33 its text is no certificate";

pub const RECORD_END: &str =
    "Example: deparohi record cache\n\nStatus: 0 the rows are shown, 3 the file can't be read, or is no record";

pub const DEMO_END: &str =
    "Example: deparohi demo\n\nStatus: 0 success, 3 out of memory, or standard output can't be written";

// An option without a value, as `--explain`.
fn flag<'a>(alloc: Global, id: &'a str, help: &'a str) -> Arg<'a>
    ensures rule { rule_of result ≡ flag_rule id.now }
    ensures local { result.global ≡ false }
{
    Arg::new(alloc, id)
        .long(id)
        .action(ArgAction::SetTrue)
        .help(help)
}

/// A command with an option without a value.
pub fn with_flag<'a>(
    alloc: Global,
    command: Command<'a>,
    id: &'a str,
    help: &'a str,
) -> Result<Command<'a>, Error>
    requires { IsLocal command }
    ensures ok { IfOk result (λ whole. app_of whole
        ≡ with_rule (app_of command.entry) (flag_rule id.now)) }
    ensures local { IfOk result IsLocal }
    ensures err { IfErr result (λ e. kind_of e ≡ ErrorKind.OutOfMemory) }
{
    let arg = flag(alloc, id, help);
    let command = command.arg(arg)?;
    Ok(command)
}

/// A command with `--explain` and `--quiet`.
pub fn with_flags<'a>(alloc: Global, command: Command<'a>) -> Result<Command<'a>, Error>
    requires { IsLocal command }
    ensures ok { IfOk result (λ whole. app_of whole ≡ with_flags (app_of command.entry)) }
    ensures local { IfOk result IsLocal }
    ensures err { IfErr result (λ e. kind_of e ≡ ErrorKind.OutOfMemory) }
{
    let command = with_flag(alloc, command, "explain", EXPLAIN_HELP)?;
    with_flag(alloc, command, "quiet", QUIET_HELP)
}

/// Whether an option is there that `--quiet` does not take back.
pub fn is_wanted(words: &ArgMatches, id: &str) -> bool
    ensures { result ≡ is_wanted id.now (rows_of (found_of words.now)) }
{
    if is_given(words, "quiet") {
        return false;
    }
    is_given(words, id)
}

/// Whether an option is there.
pub fn is_given(words: &ArgMatches, id: &str) -> bool
    ensures { result ≡ is_given id.now (rows_of (found_of words.now)) }
{
    words.get_str(id).unwrap_or("") == "true"
}

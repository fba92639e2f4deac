//! The words of `plan`.
ghost use Rattle.std.specs.Prelude.{◌≡◌, IfOk, IfErr};
ghost use Rattle.clap.specs.Words.{app_of, found_of, kind_of, rows_of};
ghost use Rattle.program_words.specs.Flags.{IsLocal};
ghost use Rattle.program_words.specs.PlanWords.{plan_command, plan_wish, wish_of_plan};

use crate::flags::{PLAN_END, is_given, with_flag, with_flags};
use crate::run_words::{RunWords, run_words, with_costs, with_inputs};
use clap::error::ErrorKind;
use clap::{ArgMatches, Command, Error};
use std::alloc::Global;

const DOT_HELP: &str =
    "Print a picture of the plan in the language of Graphviz in place of its certificate";

/// What the words of a plan name: what those of the run do, and whether a picture of the plan is wanted.
#[derive(Drop)]
pub struct PlanWords<'a> {
    pub run: RunWords<'a>,
    pub dot: bool,
}

/// The subcommand `plan`.
pub fn plan_command<'a>(alloc: Global) -> Result<Command<'a>, Error>
    ensures ok { IfOk result (λ command. app_of command ≡ plan_command) }
    ensures local { IfOk result IsLocal }
    ensures err { IfErr result (λ e. kind_of e ≡ ErrorKind.OutOfMemory) }
{
    let command = Command::new(alloc, "plan")
        .about(
            "Says what a run would load, compute and not need, with a certificate that nothing costs less",
        )
        .after_help(PLAN_END);
    let command = with_costs(alloc, command)?;
    let command = with_flag(alloc, command, "dot", DOT_HELP)?;
    let command = with_flags(alloc, command)?;
    with_inputs(alloc, command)
}

/// What the words of `plan` name.
pub fn plan_words<'a>(words: &ArgMatches<'a>) -> PlanWords<'a>
    ensures { wish_of_plan result ≡ plan_wish (rows_of (found_of words.now)) }
{
    PlanWords {
        run: run_words(words),
        dot: is_given(words, "dot"),
    }
}

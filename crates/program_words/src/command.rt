ghost use Rattle.std.specs.Prelude.{◌≡◌, IfOk, IfErr, map};
ghost use Rattle.clap.specs.Words.{HasKind, app_of, fault_of, found_of, kind_of, rows_of, subcommand_rows_of};
ghost use Rattle.program_words.specs.CommandLine.{Asks, check_command as checking, check_wish, command_line, demo_command as demonstrating, with_check, with_demo, with_plan, with_run, wish_of, wished};
ghost use Rattle.program_words.specs.Flags.{IsLocal};
ghost use Rattle.std.specs.Prelude.{string_bytes};

use crate::flags::{CHECK_END, DEMO_END, is_wanted, with_flags};
use crate::planning::{PlanWords, plan_command, plan_words};
use crate::record_words::{RecordWords, record_command, record_words};
use crate::run_words::{RunWords, run_command, run_words, with_placed};
use crate::version::VERSION;
use clap::error::ErrorKind;
use clap::{ArgMatches, Command, Error};
use std::alloc::Global;

const CERTIFICATE_HELP: &str = "The certificate's file, or `-` for standard input";

/// What the words ask for.
#[derive(Drop)]
pub enum Choice<'a> {
    /// Run the worked example over a scripted host, and say in words what went wrong, or not.
    Demo(bool),
    /// Check the certificate in this file, and say in words what is wrong with it, or not.
    Check(&'a str, bool),
    /// Run a tool or a workflow.
    Run(RunWords<'a>),
    /// Say what a run would load, compute and not need.
    Plan(PlanWords<'a>),
    /// Show a record.
    Record(RecordWords<'a>),
}

// The subcommand `check`.
fn check_command<'a>(alloc: Global) -> Result<Command<'a>, Error>
    ensures ok { IfOk result (λ command. app_of command ≡ checking) }
    ensures local { IfOk result IsLocal }
    ensures err { IfErr result (λ e. kind_of e ≡ ErrorKind.OutOfMemory) }
{
    let check = Command::new(alloc, "check")
        .about("Says whether a certificate shows its plan to be a cheapest one")
        .after_help(CHECK_END);
    let check = with_placed(alloc, check, "CERTIFICATE", true, CERTIFICATE_HELP)?;
    with_flags(alloc, check)
}

// The subcommand `demo`.
fn demo_command<'a>(alloc: Global) -> Result<Command<'a>, Error>
    ensures ok { IfOk result (λ command. app_of command ≡ demonstrating) }
    ensures local { IfOk result IsLocal }
    ensures err { IfErr result (λ e. kind_of e ≡ ErrorKind.OutOfMemory) }
{
    let demo = Command::new(alloc, "demo")
        .about("Runs a small tool over a scripted host")
        .after_help(DEMO_END);
    with_flags(alloc, demo)
}

// The program's command with the subcommand `demo` alone.
fn with_demo<'a>(alloc: Global) -> Result<Command<'a>, Error>
    ensures ok { IfOk result (λ command. app_of command ≡ with_demo) }
    ensures err { IfErr result (λ e. kind_of e ≡ ErrorKind.OutOfMemory) }
{
    let demo = demo_command(alloc)?;
    let whole = Command::new(alloc, "deparohi")
        .about("Runs documents of the Common Workflow Language")
        .version(VERSION)
        .subcommand_required(true)
        .subcommand(demo)?;
    Ok(whole)
}

// And with `check`.
fn with_check<'a>(alloc: Global) -> Result<Command<'a>, Error>
    ensures ok { IfOk result (λ command. app_of command ≡ with_check) }
    ensures err { IfErr result (λ e. kind_of e ≡ ErrorKind.OutOfMemory) }
{
    let check = check_command(alloc)?;
    let whole = with_demo(alloc)?.subcommand(check)?;
    Ok(whole)
}

// And with `run`.
fn with_run<'a>(alloc: Global) -> Result<Command<'a>, Error>
    ensures ok { IfOk result (λ command. app_of command ≡ with_run) }
    ensures err { IfErr result (λ e. kind_of e ≡ ErrorKind.OutOfMemory) }
{
    let run = run_command(alloc)?;
    let whole = with_check(alloc)?.subcommand(run)?;
    Ok(whole)
}

// And with `plan`.
fn with_plan<'a>(alloc: Global) -> Result<Command<'a>, Error>
    ensures ok { IfOk result (λ command. app_of command ≡ with_plan) }
    ensures err { IfErr result (λ e. kind_of e ≡ ErrorKind.OutOfMemory) }
{
    let plan = plan_command(alloc)?;
    let whole = with_run(alloc)?.subcommand(plan)?;
    Ok(whole)
}

// The program's command.
fn command<'a>(alloc: Global) -> Result<Command<'a>, Error>
    ensures ok { IfOk result (λ command. app_of command ≡ command_line) }
    ensures err { IfErr result (λ e. kind_of e ≡ ErrorKind.OutOfMemory) }
{
    let record = record_command(alloc)?;
    let whole = with_plan(alloc)?.subcommand(record)?;
    Ok(whole)
}

/// Reads the command line. An `Err` has the text for the user: help, or what is wrong.
pub fn choice_of<'a>(alloc: Global, words: &'a [String]) -> Result<Choice<'a>, Error>
    ensures ok { IfOk result (λ choice. Asks (map (λ word. string_bytes word) words.entry.now)
        (wish_of choice)) }
    ensures err { IfErr result
        (HasKind (fault_of command_line (map (λ word. string_bytes word) words.entry.now))) }
{
    let matches = command(alloc)?.try_get_matches_from(words)?;
    Ok(chosen(&matches))
}

fn chosen<'a>(matches: &ArgMatches<'a>) -> Choice<'a>
    ensures { wish_of result ≡ wished (subcommand_rows_of matches.now) }
{
    match matches.subcommand() {
        Some(("check", words)) => check_choice(words),
        Some(("run", words)) => Choice::Run(run_words(words)),
        Some(("plan", words)) => Choice::Plan(plan_words(words)),
        Some(("record", words)) => Choice::Record(record_words(words)),
        Some((_, words)) => Choice::Demo(is_wanted(words, "explain")),
        None => Choice::Demo(false),
    }
}

// What the words of `check` ask for.
fn check_choice<'a>(words: &ArgMatches<'a>) -> Choice<'a>
    ensures { wish_of result ≡ check_wish (rows_of (found_of words.now)) }
{
    let file = words.get_str("CERTIFICATE").unwrap_or("");
    Choice::Check(file, is_wanted(words, "explain"))
}

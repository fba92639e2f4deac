//! What is asked of a process: its run, or what can be said of it without one.
ghost use Rattle.std.specs.Prelude.{◌≡◌};
ghost use Rattle.clap.specs.Words.{found_of, rows_of};
ghost use Rattle.program_words.specs.Shows.{shows_in};

use crate::flags::is_given;
use clap::ArgMatches;

/// What a run of a process is to show.
#[derive(Clone, Copy, Debug, PartialEq, Eq)]
pub enum Shows {
    /// The outputs of the run.
    Outputs,
    /// That the document is right, and its inputs in lines.
    Lines,
    /// An input object to be filled in.
    Template,
    /// The command of a tool.
    Command,
}

/// What the words ask to be shown.
pub fn shows_of(words: &ArgMatches) -> Shows
    ensures { result ≡ shows_in (rows_of (found_of words.now)) }
{
    if is_given(words, "print-command") {
        return Shows::Command;
    }
    if is_given(words, "template") {
        return Shows::Template;
    }
    if is_given(words, "validate") {
        return Shows::Lines;
    }
    Shows::Outputs
}

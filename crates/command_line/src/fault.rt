ghost use Rattle.std.specs.Prelude.{◌≡◌};
ghost use Rattle.command_line.specs.Fault.{code_of, error_of};
ghost use Rattle.command_line.specs.declared.fault.BuildError.TheVariants.{OutOfMemory};

use param_refs::{RefError, RefFault};
use plain_data::Text;
use std::alloc::{AllocError, AllocFailed};
use std::error::Error;
use std::fmt;

/// A part of a launch, where it is no text that an operating system takes.
#[derive(Debug, Drop)]
pub enum LaunchText {
    /// A word of `baseCommand`.
    BaseCommand,
    /// A word of the argument with this index.
    Argument(usize),
    /// A word of the input with this id.
    Input(Text),
    /// The path of the file that is the standard input.
    Stdin,
    /// The name of the file that takes standard output.
    Stdout,
    /// The name of the file that takes standard error.
    Stderr,
    /// The variable of the environment with this name.
    EnvVariable(Text),
    /// The path of the output folder.
    Folder,
}

impl fmt::Display for LaunchText {
    fn fmt<W: fmt::Write>(&self, f: &mut fmt::Formatter<W>) -> fmt::Result {
        match self {
            LaunchText::BaseCommand => f.write_str("the base command"),
            LaunchText::Argument(index) => write!(f, "argument {index}"),
            LaunchText::Input(id) => write!(f, "input {id:?}"),
            LaunchText::Stdin => f.write_str("the file of standard input"),
            LaunchText::Stdout => f.write_str("the file name of standard output"),
            LaunchText::Stderr => f.write_str("the file name of standard error"),
            LaunchText::EnvVariable(name) => write!(f, "environment variable {name:?}"),
            LaunchText::Folder => f.write_str("the output folder"),
        }
    }
}

/// Why a tool and its inputs give no launch.
#[derive(Debug, Drop)]
pub enum BuildFault {
    /// A reference has no value.
    Reference(RefFault),
    /// A binding of an argument says no value.
    NoValueFrom,
    /// What stands at this place is no text, or none that an operating system takes.
    NotText(LaunchText),
    /// There is no word at all, so no program to start.
    EmptyCommand,
}

impl fmt::Display for BuildFault {
    fn fmt<W: fmt::Write>(&self, f: &mut fmt::Formatter<W>) -> fmt::Result {
        match self {
            BuildFault::Reference(fault) => fault.fmt(f),
            BuildFault::NoValueFrom => f.write_str("a binding of an argument has no `valueFrom`"),
            BuildFault::NotText(place) => {
                write!(f, "{place} is not a text that an operating system takes")
            }
            BuildFault::EmptyCommand => f.write_str("the command has no word"),
        }
    }
}

impl Error for BuildFault {}

impl BuildFault {
    /// The refusal's short name, which no other refusal has.
    pub fn code(&self) -> &'static str
        ensures { result.now ≡ code_of self.now }
    {
        match self {
            BuildFault::Reference(_) => "B1",
            BuildFault::NoValueFrom => "B2",
            BuildFault::NotText(_) => "B3",
            BuildFault::EmptyCommand => "B4",
        }
    }
}

/// What `build` answers in place of a launch.
#[derive(Debug, Drop)]
pub enum BuildError {
    /// No launch is right for this tool and these inputs.
    Refused(BuildFault),
    /// Nothing is said of the tool.
    OutOfMemory,
}

impl fmt::Display for BuildError {
    fn fmt<W: fmt::Write>(&self, f: &mut fmt::Formatter<W>) -> fmt::Result {
        match self {
            BuildError::Refused(fault) => fault.fmt(f),
            BuildError::OutOfMemory => f.write_str("out of memory"),
        }
    }
}

impl Error for BuildError {}

impl From<AllocError> for BuildError {
    ghost from_gives = { λ _ e. e ≡ OutOfMemory };

    fn from(_error: AllocError) -> BuildError {
        BuildError::OutOfMemory
    }
}

impl<T: Drop> From<AllocFailed<T>> for BuildError {
    ghost from_gives = { λ _ e. e ≡ OutOfMemory };

    fn from(_error: AllocFailed<T>) -> BuildError {
        BuildError::OutOfMemory
    }
}

impl From<RefError> for BuildError {
    ghost from_gives = { λ error e. e ≡ error_of error };

    fn from(error: RefError) -> BuildError {
        match error {
            RefError::Refused(fault) => BuildError::Refused(BuildFault::Reference(fault)),
            RefError::OutOfMemory => BuildError::OutOfMemory,
        }
    }
}

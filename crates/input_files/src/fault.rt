use plain_data::Text;
use std::alloc::AllocError;
use std::error::Error;
use std::fmt;

/// What is wrong with a job's inputs; each has the id of the input.
#[derive(Debug, Drop)]
pub enum InputFault {
    /// The value does not fit the input's type, or its JSON nests over 100 deep.
    Kind(Text),
    /// A File or Directory of the value is absent, or of the other kind.
    Missing(Text),
    /// A file that has to be beside a File is absent.
    Secondary(Text),
}

impl fmt::Display for InputFault {
    fn fmt<W: fmt::Write>(&self, f: &mut fmt::Formatter<W>) -> fmt::Result {
        match self {
            InputFault::Kind(input) => write!(
                f,
                "the value of {input} does not fit its type, or nests over 100 deep"
            ),
            InputFault::Missing(input) => write!(
                f,
                "a file of {input} is absent, or of the other kind"
            ),
            InputFault::Secondary(input) => write!(f, "a file beside a file of {input} is absent"),
        }
    }
}

impl Error for InputFault {}

/// Why there are no inputs.
#[derive(Debug, Drop)]
pub enum InputError {
    Refused(InputFault),
    /// Nothing is said of the inputs.
    OutOfMemory,
}

impl fmt::Display for InputError {
    fn fmt<W: fmt::Write>(&self, f: &mut fmt::Formatter<W>) -> fmt::Result {
        match self {
            InputError::Refused(fault) => fault.fmt(f),
            InputError::OutOfMemory => f.write_str("out of memory"),
        }
    }
}

impl Error for InputError {}

impl From<AllocError> for InputError {
    ghost use Rattle.std.specs.Prelude.{◌≡◌};
    ghost use Rattle.input_files.specs.declared.fault.InputError.TheVariants.{OutOfMemory};

    ghost from_gives = { λ _ e. e ≡ OutOfMemory };

    fn from(_error: AllocError) -> InputError {
        InputError::OutOfMemory
    }
}

/// What is wrong with the contents of a File; each has the id of the input.
#[derive(Debug, Drop)]
pub enum ContentsFault {
    /// It has more bytes than are read.
    TooLong(Text),
    /// Its bytes are no text.
    NotUtf8(Text),
}

impl fmt::Display for ContentsFault {
    fn fmt<W: fmt::Write>(&self, f: &mut fmt::Formatter<W>) -> fmt::Result {
        match self {
            ContentsFault::TooLong(input) => write!(
                f,
                "a file of {input} is too long for its contents"
            ),
            ContentsFault::NotUtf8(input) => write!(
                f,
                "the contents of a file of {input} are not UTF-8"
            ),
        }
    }
}

impl Error for ContentsFault {}

/// Why there are no inputs with contents.
#[derive(Debug, Drop)]
pub enum ContentsError {
    Refused(ContentsFault),
    /// Nothing is said of the contents.
    OutOfMemory,
}

impl fmt::Display for ContentsError {
    fn fmt<W: fmt::Write>(&self, f: &mut fmt::Formatter<W>) -> fmt::Result {
        match self {
            ContentsError::Refused(fault) => fault.fmt(f),
            ContentsError::OutOfMemory => f.write_str("out of memory"),
        }
    }
}

impl Error for ContentsError {}

impl From<AllocError> for ContentsError {
    ghost use Rattle.std.specs.Prelude.{◌≡◌};
    ghost use Rattle.input_files.specs.declared.fault.ContentsError.TheVariants.{OutOfMemory};

    ghost from_gives = { λ _ e. e ≡ OutOfMemory };

    fn from(_error: AllocError) -> ContentsError {
        ContentsError::OutOfMemory
    }
}

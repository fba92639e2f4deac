use std::alloc::{AllocError, AllocFailed};
use std::io;

/// Why the world gave no answer.
#[derive(Clone, Copy, Debug, PartialEq, Eq)]
pub(crate) enum Trouble {
    Failed,
    /// The system says why.
    Hindered(Hindrance),
    OutOfMemory,
}

/// Why a file could not be copied to its target, or a command not be started.
#[derive(Clone, Copy, Debug, PartialEq, Eq)]
pub enum Hindrance {
    /// A file that the run was given is there.
    Given,
    /// A guarded file is there, or would be.
    Guarded,
    /// A folder is in the way, or a file or a link where a folder is needed.
    Taken,
    /// The system does not allow it.
    Forbidden,
    /// There is no room.
    Full,
    /// What was to be copied is not as it was told.
    Changed,
    /// The command, or one of its words, is longer than the system takes.
    TooLong,
    Other,
}

impl From<AllocError> for Trouble {
    fn from(_: AllocError) -> Trouble {
        Trouble::OutOfMemory
    }
}

impl<T: Drop> From<AllocFailed<T>> for Trouble {
    fn from(_: AllocFailed<T>) -> Trouble {
        Trouble::OutOfMemory
    }
}

/// What came of a call of the system, with trouble in place of its error.
pub(crate) fn or_trouble<T>(outcome: io::Result<T>) -> Result<T, Trouble> {
    match outcome {
        Ok(value) => Ok(value),
        Err(error) => Err(Trouble::of(&error)),
    }
}

/// What came of a removal or a move, which is done where nothing was there.
pub(crate) fn where_present(outcome: io::Result<()>) -> Result<(), Trouble> {
    match outcome {
        Ok(()) => Ok(()),
        Err(error) if error.kind() == io::ErrorKind::NotFound => Ok(()),
        Err(error) => Err(Trouble::from(error)),
    }
}

impl From<io::Error> for Trouble {
    fn from(error: io::Error) -> Trouble {
        Trouble::of(&error)
    }
}

fn hindrance_of(kind: io::ErrorKind) -> Hindrance {
    match kind {
        io::ErrorKind::AlreadyExists | io::ErrorKind::IsADirectory | io::ErrorKind::NotADirectory =>
            Hindrance::Taken,
        io::ErrorKind::PermissionDenied | io::ErrorKind::ReadOnlyFilesystem => {
            Hindrance::Forbidden
        }
        io::ErrorKind::StorageFull | io::ErrorKind::QuotaExceeded => Hindrance::Full,
        io::ErrorKind::ArgumentListTooLong => Hindrance::TooLong,
        _ => Hindrance::Other,
    }
}

impl Trouble {
    /// What the system says.
    pub(crate) fn of(error: &io::Error) -> Trouble {
        match error.kind() {
            io::ErrorKind::OutOfMemory => Trouble::OutOfMemory,
            kind => Trouble::Hindered(hindrance_of(kind)),
        }
    }

    /// Why a copy was not made, or a command not started.
    pub(crate) fn hindrance(self) -> Hindrance {
        match self {
            Trouble::Hindered(why) => why,
            Trouble::Failed | Trouble::OutOfMemory => Hindrance::Other,
        }
    }
}

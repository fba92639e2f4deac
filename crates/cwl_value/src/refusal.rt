ghost use Rattle.std.specs.Prelude.{◌≡◌};
ghost use Rattle.cwl_value.specs.Codes.{code_of};
ghost use Rattle.cwl_value.specs.declared.refusal.ValueRefusal.TheVariants.{OutOfMemory};

use std::alloc::{AllocError, AllocFailed};
use std::fmt;
use thiserror::Error;

/// A field of a File or Directory in JSON.
#[derive(Clone, Copy, Debug, Drop, PartialEq, Eq)]
pub enum FileField {
    Location,
    Path,
    Basename,
    Checksum,
    Size,
    SecondaryFiles,
    Listing,
}

impl fmt::Display for FileField {
    fn fmt<W: fmt::Write>(&self, f: &mut fmt::Formatter<W>) -> fmt::Result {
        f.write_str(match self {
            FileField::Location => "location",
            FileField::Path => "path",
            FileField::Basename => "basename",
            FileField::Checksum => "checksum",
            FileField::Size => "size",
            FileField::SecondaryFiles => "secondaryFiles",
            FileField::Listing => "listing",
        })
    }
}

/// Why bytes, or JSON, are no value.
#[derive(Clone, Copy, Debug, Drop, PartialEq, Eq, Error)]
pub enum ValueRefusal {
    /// V1: a number with a fraction or an exponent, or too large for 64 bits.
    #[error("V1: a number is not whole")]
    NotWhole,
    /// V2: a whole number from 2^63 on.
    #[error("V2: a number is out of range")]
    OutOfRange,
    /// V3: a File or Directory that lacks the field, or has it in another form.
    #[error("V3: a File or Directory has a bad {0}")]
    BadFile(FileField),
    /// V4: bytes that are no UTF-8, or no JSON, or nest deeper than a JSON reader goes.
    #[error("V4: the text is not JSON")]
    NotJson,
    /// V5
    #[error("V5: out of memory")]
    OutOfMemory,
    /// V6: arrays and objects nest more than 100 deep.
    #[error("V6: the JSON nests too deep")]
    TooDeep,
}

impl ValueRefusal {
    /// The refusal's short name, from `V1` to `V6`.
    pub fn code(&self) -> &'static str
        ensures { result.now ≡ code_of self.now }
    {
        match self {
            ValueRefusal::NotWhole => "V1",
            ValueRefusal::OutOfRange => "V2",
            ValueRefusal::BadFile(_) => "V3",
            ValueRefusal::NotJson => "V4",
            ValueRefusal::OutOfMemory => "V5",
            ValueRefusal::TooDeep => "V6",
        }
    }
}

impl From<AllocError> for ValueRefusal {
    ghost from_gives = { λ _ e. e ≡ OutOfMemory };

    fn from(_refused: AllocError) -> ValueRefusal {
        ValueRefusal::OutOfMemory
    }
}

impl<T: Drop> From<AllocFailed<T>> for ValueRefusal {
    ghost from_gives = { λ _ e. e ≡ OutOfMemory };

    fn from(_refused: AllocFailed<T>) -> ValueRefusal {
        ValueRefusal::OutOfMemory
    }
}

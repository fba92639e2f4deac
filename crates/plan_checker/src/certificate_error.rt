//! Why a text is refused as a certificate.

ghost use Rattle.std.specs.Prelude.{◌≡◌};
ghost use Rattle.plan_checker.specs.declared.certificate_error.CertificateError.TheVariants.{OutOfMemory};

use std::alloc::AllocError;
use thiserror::Error;

/// Why no certificate was read.
#[derive(Debug, Drop, Clone, Copy, PartialEq, Eq, Error)]
pub enum CertificateError {
    /// The first bad line, counted from 1.
    #[error("line {0} is no line of a certificate")]
    NotACertificate(usize),
    #[error("out of memory")]
    OutOfMemory,
}

impl From<AllocError> for CertificateError {
    ghost from_gives = { λ _ error. error ≡ OutOfMemory };

    fn from(_error: AllocError) -> CertificateError {
        CertificateError::OutOfMemory
    }
}

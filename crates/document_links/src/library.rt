//! What other documents read as.
ghost use Rattle.std.specs.Prelude.{IfOk};
ghost use Rattle.document_links.specs.Library.{IsReadAs, seen};
ghost use Rattle.document_links.specs.inner.Sound.{IsSoundReading};

use cwl_process::read_sound;
use document_table::{DocumentError, DocumentFault, Indexed};
use plain_data::Keyed;
use std::alloc::{AllocError, Global};

/// What a document reads as.
#[derive(Drop)]
pub enum Reading {
    /// JSON that has no fault of its own.
    Sound(Indexed),
    Wrong(DocumentFault),
}

/// Documents by their URLs.
#[derive(Drop)]
pub enum Library {
    /// What each of them reads as.
    Read(Keyed<Reading>),
    /// This document is at every URL, and for `needed_docs` in the place of each item that isn't there.
    Any(Indexed),
}

/// Reads a document.
#[tactic(auto, using(cwl_process::proofs::Forms::document_is_process))]
pub(crate) fn read_as(alloc: Global, bytes: &[u8]) -> Result<Reading, AllocError>
    ensures read { IfOk result (λ reading. IsReadAs bytes.now (seen reading)) }
    ensures process { IfOk result IsSoundReading }
{
    match read_sound(alloc, bytes) {
        Ok(json) => Ok(Reading::Sound(Indexed::of(alloc, json)?)),
        Err(DocumentError::Refused(fault)) => Ok(Reading::Wrong(fault)),
        Err(DocumentError::OutOfMemory) => Err(AllocError),
    }
}

//! Documents, each of which is read once.
ghost use Rattle.std.specs.Prelude.{◌≡◌, IfOk, option_map};
ghost use Rattle.serde_json.specs.View.{view};
ghost use Rattle.document_links.specs.Library.{Found, IsReadAs, seen, sound_in};
ghost use Rattle.document_links.specs.inner.Sound.{IsSoundReading};

use crate::library::{Reading, read_as};
use document_table::Indexed;
use plain_data::Items;
use std::alloc::{AllocError, Global};
use std::marker::Model;
use std::mem;

/// A document with what it reads as, which contracts see as its bytes. These are kept since a contract has to name them.
#[derive(Drop)]
pub struct Document {
    bytes: Items<u8>,
    reading: Reading,
}

impl Model for Document {
    ghost use Rattle.std.specs.Prelude.{List, ℕ};
    ghost use Rattle.std.specs.Coded.{coded_list, coded_ℕ};

    ghost Value = { List ℕ };

    ghost coded = { coded_list coded_ℕ };

    ghost use Rattle.document_links.specs.Library.{IsReadAs, seen};
    ghost use Rattle.document_links.specs.inner.Sound.{IsSoundReading};

    ghost view = { λ fields. fields.bytes };

    ghost invariant = { λ fields. IsReadAs fields.bytes (seen fields.reading)
        × IsSoundReading fields.reading };
}

impl Document {
    /// Reads the bytes of a document. What is wrong with it is told where it is put together with others.
    pub fn read(alloc: Global, bytes: Items<u8>) -> Result<Document, AllocError>
        ensures { IfOk result (λ document. document ≡ bytes) }
    {
        match read_as(alloc, bytes.as_slice()) {
            Ok(reading) => Ok(Document { bytes, reading }),
            Err(error) => {
                mem::drop(bytes);
                Err(error)
            }
        }
    }

    /// Returns the JSON of the document, if it has no fault of its own.
    pub fn sound(&self) -> Option<&Indexed>
        ensures { (found : Found) × IsReadAs self.now found
            × (option_map (λ document. view document.now.json) result ≡ sound_in found) }
    {
        match &self.reading {
            Reading::Sound(document) => Some(document),
            Reading::Wrong(_) => None,
        }
    }

    /// Returns what the document reads as.
    pub(crate) fn reading(&self) -> &Reading
        ensures read { IsReadAs self.now (seen result.now) }
        ensures process { IsSoundReading result.now }
    {
        &self.reading
    }

    /// The bytes, and what they read as.
    pub(crate) fn into_parts(self) -> (Items<u8>, Reading)
        ensures bytes { result.0 ≡ self }
        ensures read { IsReadAs self (seen result.1) }
        ensures process { IsSoundReading result.1 }
    {
        let Document { bytes, reading } = self;
        (bytes, reading)
    }
}

//! Documents by their URLs.
ghost use Rattle.std.specs.Prelude.{◌≡◌, length, IfOk};
ghost use Rattle.document_links.specs.Library.{IsLookUp, finds_in};
ghost use Rattle.document_links.specs.Targets.{leads_in, target};
ghost use Rattle.document_links.specs.inner.Sound.{AllProcesses};

use crate::document::Document;
use crate::library::Library;
use plain_data::{Items, Keyed};
use std::alloc::{AllocError, Global};
use std::marker::Model;

/// Documents by their URLs, which contracts see as their bytes by their URLs.
#[derive(Drop)]
pub struct Docs {
    bytes: Keyed<Items<u8>>,
    library: Library,
}

impl Model for Docs {
    ghost use Rattle.std.specs.Prelude.{◌≡◌, List, ℕ};
    ghost use Rattle.std.specs.Coded.{coded_list, coded×, coded_ℕ};

    ghost Value = { List (List ℕ × List ℕ) };

    ghost coded = { coded_list (coded× (coded_list coded_ℕ) (coded_list coded_ℕ)) };

    ghost use Rattle.document_links.specs.Library.{IsLookUp, finds_in};
    ghost use Rattle.document_links.specs.Targets.{leads_in, target};
    ghost use Rattle.document_links.specs.inner.Sound.{AllProcesses};

    ghost view = { λ fields. fields.bytes };

    ghost invariant = { λ fields. IsLookUp fields.bytes (finds_in fields.library)
        × AllProcesses fields.library
        × (leads_in fields.library ≡ target (finds_in fields.library)) };
}

impl Docs {
    /// The documents under their URLs. None is read again.
    pub fn of(alloc: Global, documents: Keyed<Document>) -> Result<Docs, AllocError>
        ensures { IfOk result (λ docs. docs ≡ documents) }
    {
        let mut held = Vec::new(alloc);
        let mut readings = Vec::new(alloc);
        for (url, document) in documents.into_entries() {
            let name = url.copied(alloc)?;
            let (bytes, reading) = document.into_parts();
            readings.push((name, reading))?;
            held.push((url, bytes))?;
        }
        Ok(Docs {
            bytes: Keyed::from_sorted(held),
            library: Library::Read(Keyed::from_sorted(readings)),
        })
    }

    pub fn len(&self) -> usize
        ensures { result ≡ length self.now }
    {
        self.bytes.len()
    }

    /// Returns the documents as steps' names are looked up in them.
    pub fn look_up(&self) -> &Library
        ensures { IsLookUp self.now (finds_in result.now) }
    {
        self.library()
    }

    /// Returns what each of them reads as.
    pub(crate) fn library(&self) -> &Library
        ensures read { IsLookUp self.now (finds_in result.now) }
        ensures processes { AllProcesses result.now }
        ensures leads { leads_in result.now ≡ target (finds_in result.now) }
    {
        &self.library
    }
}

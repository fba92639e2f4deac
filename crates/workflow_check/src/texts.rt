//! Texts, found without going down their list.
ghost use Rattle.std.specs.Prelude.{◌≡◌, IfOk};
ghost use Rattle.workflow_check.specs.Scope.{lists};
ghost use Rattle.workflow_check.specs.inner.Indexed.{IsSetOf};

use plain_data::Text;
use std::alloc::{AllocError, Global};
use std::collections::BTreeSet;
use std::marker::Model;

/// Texts, which contracts see as the list of them.
#[derive(Drop)]
pub(crate) struct Texts<'p> {
    texts: &'p [Text],
    held: BTreeSet<&'p str>,
}

impl<'p> Model for Texts<'p> {
    ghost use Rattle.std.specs.Prelude.{List, ℕ};
    ghost use Rattle.std.specs.Coded.{coded_list, coded_ℕ};
    ghost use Rattle.workflow_check.specs.inner.Indexed.{IsSetOf};

    ghost Value = { List (List ℕ) };

    ghost coded = { coded_list (coded_list coded_ℕ) };

    ghost view = { λ fields. fields.texts.now };

    ghost invariant = { λ fields. IsSetOf fields.held fields.texts.now };
}

impl<'p> Texts<'p> {
    pub(crate) fn of(alloc: Global, texts: &'p [Text]) -> Result<Texts<'p>, AllocError>
        ensures { IfOk result (λ made. made ≡ texts.now) }
    {
        let held = held_of(alloc, texts)?;
        Ok(Texts { texts, held })
    }

    /// Whether the text is one of these.
    pub(crate) fn has(&self, text: &Text) -> bool
        ensures { result ≡ lists self.now text.now }
    {
        self.held.contains(text.as_str())
    }
}

fn held_of<'p>(alloc: Global, texts: &'p [Text]) -> Result<BTreeSet<&'p str>, AllocError>
    ensures { IfOk result (λ held. IsSetOf held texts.now) }
{
    let mut held = BTreeSet::new(alloc);
    for text in texts {
        held.insert(text.as_str())?;
    }
    Ok(held)
}

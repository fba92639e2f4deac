//! Values under ids, found without going down their list.
ghost use Rattle.std.specs.Prelude.{◌≡◌, ℕ, List, IfOk, OnOk, None, Some, cond, bytes_eq};
ghost use Rattle.std.specs.Option.{option_copied, option_or};
ghost use Rattle.plain_data.specs.ByName.{value_at};
ghost use Rattle.workflow_check.specs.Scope.{has};
ghost use Rattle.workflow_check.specs.inner.Indexed.{IsLentMapOf, under};

use plain_data::Text;
use std::alloc::{AllocError, Global};
use std::collections::BTreeMap;
use std::marker::Model;

/// Values under ids, which contracts see as the list of them.
#[derive(Drop)]
pub(crate) struct Index<'p, T> {
    entries: &'p [(Text, T)],
    values: BTreeMap<&'p str, &'p T>,
}

impl<'p, T> Model for Index<'p, T> {
    ghost use Rattle.std.specs.Prelude.{List, ℕ};
    ghost use Rattle.std.specs.Coded.{coded_list, coded×, coded_ℕ};
    ghost use Rattle.workflow_check.specs.inner.Indexed.{IsLentMapOf};

    ghost Value = { List (List ℕ × T) };

    ghost coded = { coded_list (coded× (coded_list coded_ℕ) T.code) };

    ghost view = { λ fields. fields.entries.now };

    ghost invariant = { λ fields. IsLentMapOf fields.values fields.entries.now };
}

impl<'p, T> Index<'p, T> {
    /// An index of these. Of an id that is there twice, the first value counts.
    pub(crate) fn of(alloc: Global, entries: &'p [(Text, T)]) -> Result<Index<'p, T>, AllocError>
        ensures { IfOk result (λ index. index ≡ entries.now) }
    {
        let values = values_of(alloc, entries)?;
        Ok(Index { entries, values })
    }

    /// The value under an id.
    pub(crate) fn find(&self, id: &Text) -> Option<&'p T>
        ensures { option_copied result ≡ value_at id.now self.now }
    {
        self.values.get(id.as_str()).copied()
    }

    /// Whether there is a value under an id.
    pub(crate) fn has(&self, id: &Text) -> bool
        ensures { result ≡ has id.now self.now }
    {
        self.find(id).is_some()
    }

    /// The values under their ids, in the list's order.
    pub(crate) fn as_slice(&self) -> &'p [(Text, T)]
        ensures { result.now ≡ self.now }
    {
        self.entries
    }
}

fn values_of<'p, T>(
    alloc: Global,
    entries: &'p [(Text, T)],
) -> Result<BTreeMap<&'p str, &'p T>, AllocError>
    ensures { IfOk result (λ values. IsLentMapOf values entries.now) }
{
    let mut values = BTreeMap::new(alloc);
    for entry in entries {
        put_new(&mut values, &entry.0, &entry.1)?;
    }
    Ok(values)
}

/// Puts a value under an id that has none.
pub(crate) fn put_new<'p, V: Drop>(
    values: &mut BTreeMap<&'p str, V>,
    id: &'p Text,
    value: V,
) -> Result<(), AllocError>
    ensures { OnOk result ((q : List ℕ) → under q values.new
        ≡ option_or (under q values.old) (cond (bytes_eq q id.now) (Some value) None)) }
{
    if values.contains_key(id.as_str()) {
        drop(value);
        return Ok(());
    }
    values.insert(id.as_str(), value)?;
    Ok(())
}

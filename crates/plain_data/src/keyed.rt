ghost use Rattle.std.specs.Prelude.{◌≡◌, [], length, ◌↔◌, IsTrue, IsSome, IsOk, IfOk, IfErr, OnOk, OnErr, MatchOption, ◌<◌, ◌≤◌, ◌&&◌, bytes_eq, insert, vec_len};
ghost use Rattle.std.specs.Option.{option_copied};
ghost use Rattle.std.specs.Cmp.{and_per, on_per, partial_equiv_from_equiv};
ghost use Rattle.std.specs.Cmp.Lexicographic.{pointwise, lists_per, nat_list_eq_equiv};
ghost use Rattle.std.specs.List.Sorted.{IsPermutation, IsSortedByKey};
ghost use Rattle.plain_data.specs.ByName.{IsByName, IsOnce, IsPlaceOf, IsRepeatAt, IsUnrepeatedBelow, by_name, name_cmp, times, value_at, with_value};

use crate::Text;
use std::alloc::{AllocError, Global};
use std::cmp::Ordering;
use std::error::Error;
use std::marker::Model;
use std::{fmt, mem};

/// Values under names, in the order of the names' bytes, each name once.
#[derive(Drop)]
pub struct Keyed<T> {
    entries: Vec<(Text, T)>,
}

impl<T> Model for Keyed<T> {
    ghost use Rattle.std.specs.Prelude.{List, ℕ};
    ghost use Rattle.std.specs.Coded.{coded_list, coded×, coded_ℕ};

    ghost Value = { List (List ℕ × T) };

    ghost coded = { coded_list (coded× (coded_list coded_ℕ) T.code) };

    ghost use Rattle.plain_data.specs.ByName.{IsByName};

    ghost view = { λ fields. fields.entries.items };

    ghost invariant = { λ fields. IsByName fields.entries.items };
}

impl<T> Keyed<T> {
    /// No entries, and no memory yet.
    pub fn new(alloc: Global) -> Keyed<T>
        ensures { result ≡ [] }
    {
        Keyed {
            entries: Vec::new(alloc),
        }
    }

    /// Takes over entries that are already in the order of their names, without memory.
    pub fn from_sorted(entries: Vec<(Text, T)>) -> Keyed<T>
        requires { IsByName entries.items }
        ensures { result ≡ entries.items }
    {
        Keyed { entries }
    }

    /// The entries by value, without memory.
    pub fn into_entries(self) -> Vec<(Text, T)>
        ensures entries { result.items ≡ self }
        ensures order { IsByName result.items }
    {
        let Keyed { entries } = self;
        entries
    }

    pub fn as_slice(&self) -> &[(Text, T)]
        ensures entries { result.now ≡ self.now }
        ensures order { IsByName result.now }
    {
        self.entries.as_slice()
    }

    /// The value under a name, found by halving.
    pub fn get(&self, name: &str) -> Option<&T>
        ensures { option_copied result ≡ value_at name.now self.now }
    {
        match self.place(name) {
            Ok(index) => Some(&self.entries[index].1),
            Err(_) => None,
        }
    }

    pub fn contains(&self, name: &str) -> bool
        ensures { IsTrue result ↔ IsSome (value_at name.now self.now) }
    {
        self.get(name).is_some()
    }

    // The index of the name, or the index where it would be inserted.
    fn place(&self, name: &str) -> Result<usize, usize>
        ensures { IsPlaceOf name.now self.now result }
    {
        self.entries.binary_search_by(
            |entry| -> Ordering
                ensures { result ≡ name_cmp entry.now.0 name.entry.now }
            { entry.0.as_str().cmp(name) },
        )
    }

    pub fn len(&self) -> usize
        ensures { result ≡ length self.now }
    {
        self.entries.len()
    }

    pub fn is_empty(&self) -> bool
        ensures { IsTrue result ↔ (self.now ≡ []) }
    {
        self.entries.is_empty()
    }
}

impl<T: Drop> Keyed<T> {
    /// Puts entries in the order of their names, without memory. Refuses a name that repeats.
    pub fn from_entries(entries: Vec<(Text, T)>) -> Result<Keyed<T>, RepeatedName>
        ensures ok { IfOk result (λ keyed. keyed ≡ by_name entries.items) }
        ensures once { IfOk result (λ _. IsOnce entries.items) }
        ensures err { IfErr result (λ refused. 1 < times refused.name entries.items) }
    {
        let mut entries = sorted(entries);
        match repeat(entries.as_slice()) {
            Some(index) => {
                let (name, _value) = entries.swap_remove(index);
                Err(RepeatedName { name })
            }
            None => Ok(Keyed { entries }),
        }
    }

    /// Puts a value under a name, and returns the one that was there. Only a new name needs memory;
    /// out of memory, nothing changes.
    pub fn insert(&mut self, name: Text, value: T) -> Result<Option<T>, AllocError>
        ensures old { IfOk result (λ old. old ≡ value_at name self.old) }
        ensures new { OnOk result (self.new ≡ with_value name value self.old) }
        ensures err { OnErr result (self.new ≡ self.old) }
        ensures replaces { IsSome (value_at name self.old) → IsOk result }
    {
        match self.place(name.as_str()) {
            Ok(index) => {
                let entry = &mut self.entries[index];
                Ok(Some(mem::replace(&mut entry.1, value)))
            }
            Err(index) => {
                put_entry(&mut self.entries, index, (name, value))?;
                Ok(None)
            }
        }
    }
}

impl<T: PartialEq> PartialEq for Keyed<T> {
    ghost eq = { pointwise (λ one other. bytes_eq one.0 other.0 && T.eq one.1 other.1) };

    ghost laws = { lists_per (and_per (on_per (λ e. e.0) (partial_equiv_from_equiv nat_list_eq_equiv)) (on_per (λ e. e.1) T.laws)) };

    fn eq(&self, other: &Keyed<T>) -> bool {
        self.as_slice() == other.as_slice()
    }
}

impl<T: fmt::Debug> fmt::Debug for Keyed<T> {
    fn fmt<W: fmt::Write>(&self, f: &mut fmt::Formatter<W>) -> fmt::Result {
        fmt::Debug::fmt(&self.as_slice(), f)
    }
}

// Puts an entry at an index. The first gets room for itself alone, since many lists have no other: `insert` would make
// room for four.
fn put_entry<T: Drop>(
    entries: &mut Vec<(Text, T)>,
    index: usize,
    entry: (Text, T),
) -> Result<(), AllocError>
    requires { index ≤ vec_len entries.old }
    ensures items { OnOk result (entries.new.items ≡ insert entries.old.items index entry) }
    ensures err { OnErr result (entries.new.items ≡ entries.old.items) }
{
    if entries.is_empty() {
        entries.reserve_exact(1)?;
    }
    entries.insert(index, entry)?;
    Ok(())
}

// The entries in the order of their names, those with one name side by side.
fn sorted<T>(mut entries: Vec<(Text, T)>) -> Vec<(Text, T)>
    ensures moved { IsPermutation entries.items result.items }
    ensures climbs { IsSortedByKey (λ e. e.0) name_cmp result.items }
{
    entries.sort_unstable_by(
        |one, other| -> Ordering
            ensures { result ≡ name_cmp one.now.0 other.now.0 }
        { one.0.cmp(&other.0) },
    );
    entries
}

// The index of an entry that has the name of the one before it.
fn repeat<T>(entries: &[(Text, T)]) -> Option<usize>
    ensures { MatchOption result (IsUnrepeatedBelow entries.now (length entries.now))
        (IsRepeatAt entries.now) }
{
    for index in 1..entries.len() {
        if entries[index - 1].0.equals(&entries[index].0) {
            return Some(index);
        }
    }
    None
}

/// A name that repeats where each may be there once.
#[derive(Debug, Drop)]
pub struct RepeatedName {
    pub name: Text,
}

impl fmt::Display for RepeatedName {
    fn fmt<W: fmt::Write>(&self, f: &mut fmt::Formatter<W>) -> fmt::Result {
        write!(f, "the name {:?} stands more than once", self.name)
    }
}

impl Error for RepeatedName {}

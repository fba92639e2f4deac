//! The members of one level of a type, by what overlaps them.
ghost use Rattle.std.specs.Prelude.{◌≡◌, ℕ, List, ◌||◌, IfOk, OnOk};
ghost use Rattle.std.specs.List.{list_any};
ghost use Rattle.cwl_types.specs.declared.types.MemberType.{out-MemberType};
ghost use Rattle.type_check.specs.Depths.{lists_at};
ghost use Rattle.type_check.specs.Overlaps.{plain_meets};
ghost use Rattle.type_check.specs.inner.Members.{AreInOrder, AreMembers, ArePlainsOf, AreSymbolsOf, all_lent, answer_for, has_symbol, is_held, is_in, texts_at};

use crate::overlapping::plain_meets;
use cwl_types::{MemberType, PlainType};
use plain_data::{Items, Text};
use std::alloc::{AllocError, Global};

/// For each type by its name, whether it overlaps one of the members.
#[derive(Clone, Copy, Drop)]
pub(crate) struct Plains {
    null: bool,
    boolean: bool,
    int: bool,
    long: bool,
    text: bool,
    file: bool,
    directory: bool,
    any: bool,
}

/// What overlaps the members of one level.
#[derive(Drop)]
pub(crate) struct Members<'t> {
    plains: Plains,
    /// Whether Any is one of them: arrays overlap it.
    lists: bool,
    /// Whether Any or string is one of them: enums overlap it.
    texts: bool,
    /// The symbols of all enums, in order.
    symbols: Vec<&'t str>,
}

impl<'t> Members<'t> {
    /// Notes what overlaps these.
    pub(crate) fn of(alloc: Global, members: &[&'t MemberType]) -> Result<Members<'t>, AllocError>
        ensures { IfOk result (λ made. AreMembers made (all_lent members.now)) }
    {
        let symbols = symbols_of(alloc, members)?;
        Ok(Members {
            plains: plains_of(members),
            lists: some_has_lists(members),
            texts: some_has_texts(members),
            symbols,
        })
    }

    /// Whether Any is one of the members.
    pub(crate) fn has_lists(&self) -> bool
        ensures { result ≡ self.now.lists }
    {
        self.lists
    }

    /// Whether a type by its name overlaps one of the members.
    pub(crate) fn meets_plain(&self, kind: PlainType) -> bool
        ensures { result ≡ answer_for self.now.plains kind }
    {
        match kind {
            PlainType::Null => self.plains.null,
            PlainType::Boolean => self.plains.boolean,
            PlainType::Int => self.plains.int,
            PlainType::Long => self.plains.long,
            PlainType::Text => self.plains.text,
            PlainType::File => self.plains.file,
            PlainType::Directory => self.plains.directory,
            PlainType::Any => self.plains.any,
        }
    }

    /// Whether an enum overlaps one of the members.
    pub(crate) fn meets_enum(&self, symbols: &Items<Text>) -> bool
        requires { AreInOrder self.now.symbols.items }
        ensures { result ≡ (self.now.texts
            || list_any (λ symbol. is_held symbol self.now.symbols.items) symbols.now) }
    {
        self.texts || self.has_some(symbols)
    }

    fn has_some(&self, symbols: &Items<Text>) -> bool
        requires { AreInOrder self.now.symbols.items }
        ensures { result ≡ list_any (λ symbol. is_held symbol self.now.symbols.items) symbols.now }
    {
        for symbol in symbols.as_slice() {
            if has(self.symbols.as_slice(), symbol.as_str()) {
                return true;
            }
        }
        false
    }
}

/// Whether a text is one of these, which are in order.
fn has(held: &[&str], text: &str) -> bool
    requires { AreInOrder held.now }
    ensures { result ≡ is_held text.now held.now }
{
    held.binary_search(&text).is_ok()
}

fn plains_of(members: &[&MemberType]) -> Plains
    ensures { ArePlainsOf result (all_lent members.now) }
{
    Plains {
        null: some_meets(PlainType::Null, members),
        boolean: some_meets(PlainType::Boolean, members),
        int: some_meets(PlainType::Int, members),
        long: some_meets(PlainType::Long, members),
        text: some_meets(PlainType::Text, members),
        file: some_meets(PlainType::File, members),
        directory: some_meets(PlainType::Directory, members),
        any: some_meets(PlainType::Any, members),
    }
}

fn some_meets(kind: PlainType, members: &[&MemberType]) -> bool
    ensures { result ≡ list_any (λ member. plain_meets kind member.now) members.now }
{
    members.iter().any(|member| plain_meets(kind, member))
}

fn some_has_lists(members: &[&MemberType]) -> bool
    ensures { result ≡ list_any (λ member. lists_at (out-MemberType member.now)) members.now }
{
    members.iter().any(|member| has_lists(member))
}

fn has_lists(member: &MemberType) -> bool
    ensures { result ≡ lists_at (out-MemberType member.now) }
{
    match member {
        MemberType::Plain(kind) => matches!(kind, PlainType::Any),
        MemberType::Array(_) => false,
        MemberType::Enum(_) => false,
    }
}

fn some_has_texts(members: &[&MemberType]) -> bool
    ensures { result ≡ list_any (λ member. texts_at (out-MemberType member.now)) members.now }
{
    members.iter().any(|member| has_texts(member))
}

fn has_texts(member: &MemberType) -> bool
    ensures { result ≡ texts_at (out-MemberType member.now) }
{
    match member {
        MemberType::Plain(kind) => matches!(kind, PlainType::Any | PlainType::Text),
        MemberType::Array(_) => false,
        MemberType::Enum(_) => false,
    }
}

fn symbols_of<'t>(alloc: Global, members: &[&'t MemberType]) -> Result<Vec<&'t str>, AllocError>
    ensures { IfOk result (λ held. AreInOrder held.items
        × AreSymbolsOf held.items (all_lent members.now)) }
{
    let mut held = Vec::new(alloc);
    for member in members {
        add_symbols(&mut held, *member)?;
    }
    held.sort_unstable();
    Ok(held)
}

fn add_symbols<'t>(held: &mut Vec<&'t str>, member: &'t MemberType) -> Result<(), AllocError>
    ensures { OnOk result ((text : List ℕ) → is_held text held.new.items
        ≡ (is_held text held.old.items || has_symbol text member.now)) }
{
    match member {
        MemberType::Plain(_) => Ok(()),
        MemberType::Array(_) => Ok(()),
        MemberType::Enum(symbols) => add_texts(held, symbols),
    }
}

fn add_texts<'t>(held: &mut Vec<&'t str>, symbols: &'t Items<Text>) -> Result<(), AllocError>
    ensures { OnOk result ((text : List ℕ) → is_held text held.new.items
        ≡ (is_held text held.old.items || is_in text symbols.now)) }
{
    for symbol in symbols.as_slice() {
        held.push(symbol.as_str())?;
    }
    Ok(())
}

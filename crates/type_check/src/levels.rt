//! A type in its levels, which says of many types whether they overlap it, each in time with its own size.
ghost use Rattle.std.specs.Prelude.{◌≡◌, [], ◌++◌, IfOk, OnOk, MatchOption};
ghost use Rattle.std.specs.List.{list_any};
ghost use Rattle.cwl_types.specs.declared.types.MemberType.{out-MemberType};
ghost use Rattle.type_check.specs.Depths.{at_depth, items_at, items_of, some_has_lists};
ghost use Rattle.type_check.specs.Levels.{members_at};
ghost use Rattle.type_check.specs.Overlaps.{members_overlap, overlaps};
ghost use Rattle.type_check.specs.inner.Members.{AreMembers, all_lent};
ghost use Rattle.type_check.specs.inner.Parted.{AreLevelsOf};

use crate::members::Members;
use cwl_types::MemberType;
use plain_data::Items;
use std::alloc::{AllocError, Global};
use std::marker::Model;

/// A type in its levels: its members, the items of all its arrays, the items of all arrays among those, and so on.
///
/// Types overlap where one of their members does, and arrays where their items do, so the items of all arrays can be compared as if
/// they were those of one. Contracts see the type.
#[derive(Drop)]
pub struct Levels<'t> {
    members: &'t Items<MemberType>,
    found: Vec<Members<'t>>,
}

impl<'t> Model for Levels<'t> {
    ghost use Rattle.std.specs.Prelude.{List};
    ghost use Rattle.std.specs.Coded.{coded_list};
    ghost use Rattle.cwl_types.specs.declared.types.MemberType.{MemberType};
    ghost use Rattle.cwl_types.specs.contracts.types.MemberType as member;

    ghost Value = { List MemberType };

    ghost coded = { coded_list member.the_row.coded };

    ghost use Rattle.type_check.specs.inner.Parted.{AreLevelsOf};

    ghost view = { λ fields. fields.members.now };

    ghost invariant = { λ fields. AreLevelsOf fields.found.items fields.members.now };
}

/// The members so many arrays deep in a type.
#[derive(Clone, Copy, Drop)]
pub struct Level<'l, 't> {
    levels: &'l Levels<'t>,
    depth: usize,
}

impl<'t> Levels<'t> {
    /// Parts a type into its levels.
    pub fn of(alloc: Global, members: &'t Items<MemberType>) -> Result<Levels<'t>, AllocError>
        ensures { IfOk result (λ levels. levels ≡ members.now) }
    {
        let found = found_in(alloc, members)?;
        Ok(Levels { members, found })
    }

    /// The members of the type itself.
    pub fn first<'l>(&'l self) -> Level<'l, 't>
        ensures { members_at result ≡ self.now }
    {
        Level {
            levels: self,
            depth: 0,
        }
    }

    fn found_at(&self, depth: usize) -> Option<&Members<'t>>
        ensures { MatchOption result (at_depth depth self.now ≡ [])
            (λ found. AreMembers found.now (at_depth depth self.now)) }
    {
        self.found.get(depth)
    }

    /// The depth of the next level. Past the last one there is nothing, at any depth.
    fn below(&self, depth: usize) -> usize
        ensures { at_depth result self.now ≡ items_of (at_depth depth self.now) }
    {
        if depth < self.found.len() {
            return depth + 1;
        }
        depth
    }
}

impl<'l, 't> Level<'l, 't> {
    /// The items of this level's arrays.
    pub fn items(self) -> Level<'l, 't>
        ensures { members_at result ≡ items_of (members_at self.entry) }
    {
        Level {
            levels: self.levels,
            depth: self.levels.below(self.depth),
        }
    }

    /// Says whether Any is one of the members, so that arrays overlap it. Takes no memory.
    pub fn has_lists(self) -> bool
        ensures { result ≡ some_has_lists (members_at self.entry) }
    {
        match self.levels.found_at(self.depth) {
            None => false,
            Some(found) => found.has_lists(),
        }
    }

    /// Says whether a member of another type overlaps one of these. Takes no memory.
    #[cycle(levels)]
    pub fn meets(self, member: &MemberType) -> bool
        ensures { result ≡ list_any (members_overlap member.now) (members_at self.entry) }
    {
        match self.levels.found_at(self.depth) {
            None => false,
            Some(found) => match member {
                MemberType::Plain(kind) => found.meets_plain(*kind),
                MemberType::Enum(symbols) => found.meets_enum(symbols),
                MemberType::Array(array) => {
                    if found.has_lists() {
                        return true;
                    }
                    self.items().overlaps(&array.items)
                }
            },
        }
    }

    /// Says whether another type and this one may have a value in common (CWL v1.2, Workflow Description, `Workflow Graph`).
    ///
    /// Types of one name do; so do int and long, string and an enum, enums that share a symbol, arrays whose items' types overlap, and
    /// `Any` and whatever is not null. Takes no memory.
    #[cycle(levels)]
    pub fn overlaps(self, members: &Items<MemberType>) -> bool
        ensures { result ≡ overlaps members.now (members_at self.entry) }
    {
        for member in members.as_slice() {
            if self.meets(member) {
                return true;
            }
        }
        false
    }
}

fn found_in<'t>(
    alloc: Global,
    members: &'t Items<MemberType>,
) -> Result<Vec<Members<'t>>, AllocError>
    ensures { IfOk result (λ found. AreLevelsOf found.items members.now) }
{
    let mut found = Vec::new(alloc);
    let mut level = Vec::new(alloc);
    add_all(&mut level, members)?;
    while !level.is_empty() {
        found.push(Members::of(alloc, level.as_slice())?)?;
        level = items_of(alloc, level.as_slice())?;
    }
    Ok(found)
}

/// The items of all arrays among these.
fn items_of<'t>(
    alloc: Global,
    members: &[&'t MemberType],
) -> Result<Vec<&'t MemberType>, AllocError>
    ensures { IfOk result (λ items. all_lent items.items ≡ items_of (all_lent members.now)) }
{
    let mut items = Vec::new(alloc);
    for member in members {
        add_items(&mut items, *member)?;
    }
    Ok(items)
}

fn add_items<'t>(items: &mut Vec<&'t MemberType>, member: &'t MemberType) -> Result<(), AllocError>
    ensures { OnOk result (all_lent items.new.items
        ≡ all_lent items.old.items ++ items_at (out-MemberType member.now)) }
{
    match member {
        MemberType::Plain(_) => Ok(()),
        MemberType::Array(array) => add_all(items, &array.items),
        MemberType::Enum(_) => Ok(()),
    }
}

fn add_all<'t>(
    all: &mut Vec<&'t MemberType>,
    members: &'t Items<MemberType>,
) -> Result<(), AllocError>
    ensures { OnOk result (all_lent all.new.items ≡ all_lent all.old.items ++ members.now) }
{
    for member in members.as_slice() {
        all.push(member)?;
    }
    Ok(())
}

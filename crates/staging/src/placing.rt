//! Which folder each group of files goes to.
ghost use Rattle.std.specs.Prelude.{◌≡◌, ◌+◌, ◌≤◌, ◌<◌, ◌++◌, ◌∷◌, ◌&&◌, [], ℕ, List, true, false, IfOk, length};
ghost use Rattle.std.specs.Char.{is_ascii_digit};
ghost use Rattle.std.specs.List.{list_all};
ghost use Rattle.staging.specs.Placing.{ArePlaced, IsFolder, is_taken, has_reserved, is_reserved, are_digits};
ghost use Rattle.staging.specs.inner.Indexed.{IsIndex};
ghost use Rattle.staging.specs.inner.Named.{IsNamed};
ghost use Rattle.staging.specs.inner.Folders.{IsLowest, IsAbove};
ghost use Rattle.staging.specs.declared.group.Placed.{Placed};

use crate::group::{Member, Placed};
use crate::index::FolderIndex;
use crate::spots::FolderNames;
use plain_data::Items;
use std::alloc::{AllocError, Global};

/// Puts each group into a folder. Where `holds_others` says so, folder 0 holds the numbered ones, and no file of their
/// names.
pub fn place_groups(
    alloc: Global,
    groups: Vec<Items<Member>>,
    holds_others: bool,
) -> Result<Items<Placed>, AllocError>
    ensures { IfOk result (ArePlaced holds_others groups.items) }
{
    let mut placed = Items::new(alloc);
    let mut index = FolderIndex::new(alloc);
    let mut names = FolderNames::new(alloc);
    for members in groups {
        let folder = next_folder(
            alloc,
            &mut index,
            &mut names,
            placed.as_slice(),
            members.as_slice(),
            holds_others,
        )?;
        placed.push(Placed { members, folder })?;
    }
    Ok(placed)
}

// The folder of the next group, which is then noted.
fn next_folder(
    alloc: Global,
    index: &mut FolderIndex,
    names: &mut FolderNames,
    placed: &[Placed],
    group: &[Member],
    holds_others: bool,
) -> Result<usize, AllocError>
    requires above { IsAbove placed.now (length placed.now + 1) }
    requires index { IsIndex index.old placed.now }
    requires names { IsNamed names.old placed.now }
    ensures folder { IfOk result (IsFolder holds_others placed.now group.now) }
    ensures near { IfOk result (λ k. k ≤ length placed.now + 1) }
    ensures noted { IfOk result (λ k. IsIndex index.new (placed.now
        ++ record { members = group.now; folder = k } ∷ [])) }
    ensures named { IfOk result (λ k. IsNamed names.new (placed.now
        ++ record { members = group.now; folder = k } ∷ [])) }
{
    let folder = folder_of(alloc, index, names, placed, group, holds_others)?;
    index.note(alloc, group, folder)?;
    names.note(alloc, group, folder)?;
    Ok(folder)
}

fn folder_of(
    alloc: Global,
    index: &FolderIndex,
    names: &FolderNames,
    placed: &[Placed],
    group: &[Member],
    holds_others: bool,
) -> Result<usize, AllocError>
    requires above { IsAbove placed.now (length placed.now + 1) }
    requires index { IsIndex index.now placed.now }
    requires names { IsNamed names.now placed.now }
    ensures folder { IfOk result (IsFolder holds_others placed.now group.now) }
    ensures near { IfOk result (λ k. k ≤ length placed.now + 1) }
{
    match index.folder_of(alloc, group)? {
        Some(folder) => Ok(folder),
        None => lowest_folder(alloc, names, placed, group, holds_others),
    }
}

fn lowest_folder(
    alloc: Global,
    names: &FolderNames,
    placed: &[Placed],
    group: &[Member],
    holds_others: bool,
) -> Result<usize, AllocError>
    requires above { IsAbove placed.now (length placed.now + 1) }
    requires names { IsNamed names.now placed.now }
    ensures lowest { IfOk result (IsLowest holds_others placed.now group.now) }
    ensures near { IfOk result (λ k. k ≤ length placed.now + 1) }
{
    let top = placed.len() + 1;
    let from = lowest_allowed(names, group, holds_others);
    names.lowest_from(alloc, group, from, top)
}

// A number below which each folder is taken: past folder 0, where that holds the others and the group has one of their
// names.
fn lowest_allowed(names: &FolderNames, group: &[Member], holds_others: bool) -> usize
    ensures early { (placed : List Placed) → IsNamed names.now placed → (j : ℕ) → j < result
        → is_taken holds_others placed group.now j ≡ true }
    ensures allowed { result ≡ 0 → (holds_others && has_reserved group.now) ≡ false }
{
    let floor = names.floor_of(group);
    if floor > 0 {
        return floor;
    }
    if is_kept_out(group, holds_others) {
        return 1;
    }
    0
}

fn is_kept_out(group: &[Member], holds_others: bool) -> bool
    ensures { result ≡ (holds_others && has_reserved group.now) }
{
    holds_others && has_reserved(group)
}

fn has_reserved(group: &[Member]) -> bool
    ensures { result ≡ has_reserved group.now }
{
    group
        .iter()
        .any(|member| is_reserved(member.name.as_str().as_bytes()))
}

// Checks for `_` and digits.
fn is_reserved(name: &[u8]) -> bool
    ensures { result ≡ is_reserved name.now }
{
    match name.split_first() {
        None => false,
        Some((first, digits)) => *first == b'_' && are_digits(digits),
    }
}

fn are_digits(bytes: &[u8]) -> bool
    ensures { result ≡ are_digits bytes.now }
{
    match bytes.split_first() {
        None => false,
        Some((first, rest)) => first.is_ascii_digit() && all_digits(rest),
    }
}

fn all_digits(bytes: &[u8]) -> bool
    ensures { result ≡ list_all is_ascii_digit bytes.now }
{
    bytes.iter().all(|byte| byte.is_ascii_digit())
}

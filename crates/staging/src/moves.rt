//! What is copied: each file of the placed groups, once.
ghost use Rattle.std.specs.Prelude.{◌≡◌, ◌++◌, [], map, IfOk, OnOk};
ghost use Rattle.staging.specs.inner.Indexed.{IsIndex};
ghost use Rattle.staging.specs.Plan.{AreMoves, folder_path as path_of, move_to as move_of};

use crate::group::{Member, Placed};
use crate::index::FolderIndex;
use crate::plan::Move;
use crate::targets::{Folders, folder_path, path_in};
use plain_data::Items;
use std::alloc::{AllocError, Global};

/// Each copy once: a group that shares its folder with an earlier one is copied with that. Notes the groups in an index
/// that has none.
pub(crate) fn moves_of(
    alloc: Global,
    placed: &[Placed],
    folders: Folders<'_>,
    index: &mut FolderIndex,
) -> Result<Items<Move>, AllocError>
    requires { IsIndex index.old [] }
    ensures moves { IfOk result (AreMoves (path_of folders.entry.holds_others folders.entry.dir.now)
        placed.now) }
    ensures noted { OnOk result (IsIndex index.new placed.now) }
{
    let mut moves = Items::new(alloc);
    for one in placed {
        if index.note(alloc, one.members.as_slice(), one.folder)? {
            push_moves(alloc, one, folders, &mut moves)?;
        }
    }
    Ok(moves)
}

fn push_moves(
    alloc: Global,
    placed: &Placed,
    folders: Folders<'_>,
    moves: &mut Items<Move>,
) -> Result<(), AllocError>
    ensures { OnOk result (moves.new ≡ moves.old
        ++ map
        (move_of (path_of folders.entry.holds_others folders.entry.dir.now placed.now.folder))
        placed.now.members) }
{
    let folder = folder_path(alloc, folders, placed.folder)?;
    for member in placed.members.as_slice() {
        moves.push(move_to(alloc, member, folder.as_str())?)?;
    }
    Ok(())
}

fn move_to(alloc: Global, member: &Member, folder: &str) -> Result<Move, AllocError>
    ensures { IfOk result (λ one. one ≡ move_of folder.now member.now) }
{
    let target = path_in(alloc, folder, member.name.as_str())?;
    Ok(Move {
        source: member.source.copied(alloc)?,
        target,
    })
}

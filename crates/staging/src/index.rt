//! The folders of groups, looked up by what the groups hold.
ghost use Rattle.std.specs.Prelude.{◌≡◌, ◌++◌, ◌∷◌, [], List, IfOk, OnOk, is_none};
ghost use Rattle.staging.specs.inner.Indexed.{IsIndex, number_at, number_of, texts_of as texts_in, own_texts};
ghost use Rattle.staging.specs.declared.group.Placed.{Placed};

use crate::group::Member;
use plain_data::Text;
use std::alloc::{AllocError, Global};
use std::collections::BTreeMap;

/// The folder of each group that was noted, under the group's names and places.
#[derive(Drop)]
pub(crate) struct FolderIndex {
    folders: BTreeMap<Vec<Text>, usize>,
}

impl FolderIndex {
    pub(crate) fn new(alloc: Global) -> FolderIndex
        ensures { IsIndex result [] }
    {
        FolderIndex {
            folders: BTreeMap::new(alloc),
        }
    }

    /// The folder that the group was noted with.
    pub(crate) fn folder_of(
        &self,
        alloc: Global,
        group: &[Member],
    ) -> Result<Option<usize>, AllocError>
        ensures { IfOk result (λ found. found ≡ number_of self.now group.now) }
    {
        let texts = texts_of(alloc, group)?;
        Ok(self.folder_at(texts.as_slice()))
    }

    fn folder_at(&self, texts: &[Text]) -> Option<usize>
        ensures { result ≡ number_at self.now texts.now }
    {
        self.folders.get(texts).copied()
    }

    /// Notes the folder of a group, where the group is new. Returns whether it is.
    pub(crate) fn note(
        &mut self,
        alloc: Global,
        group: &[Member],
        folder: usize,
    ) -> Result<bool, AllocError>
        ensures new { IfOk result (λ new. new ≡ is_none (number_of self.old group.now)) }
        ensures noted { OnOk result ((placed : List Placed) → IsIndex self.old placed
            → IsIndex self.new (placed ++ record { members = group.now; folder = folder } ∷ [])) }
    {
        let texts = texts_of(alloc, group)?;
        if self.folder_at(texts.as_slice()).is_some() {
            return Ok(false);
        }
        self.folders.insert(texts, folder)?;
        Ok(true)
    }
}

// The names and places of a group, one after another.
fn texts_of(alloc: Global, group: &[Member]) -> Result<Vec<Text>, AllocError>
    ensures { IfOk result (λ texts. texts.items ≡ texts_in group.now) }
{
    let mut texts = Vec::new(alloc);
    for member in group {
        push_texts(alloc, member, &mut texts)?;
    }
    Ok(texts)
}

fn push_texts(alloc: Global, member: &Member, texts: &mut Vec<Text>) -> Result<(), AllocError>
    ensures { OnOk result (texts.new.items ≡ texts.old.items ++ own_texts member.now) }
{
    texts.push(member.name.copied(alloc)?)?;
    texts.push(member.source.copied(alloc)?)?;
    Ok(())
}

//! Which folders hold which names.
ghost use Rattle.std.specs.Prelude.{◌≡◌, ◌≤◌, ◌<◌, ◌++◌, ◌∷◌, ◌||◌, ◌&&◌, ◌==◌, [], ℕ, List, true, IfOk, OnOk, bytes_eq, ◌⊎◌};
ghost use Rattle.staging.specs.inner.Named.{holds, floor as floor_in, any_holds, IsFloored, IsFound, IsNamed};
ghost use Rattle.staging.specs.declared.group.Placed.{Placed};

use crate::group::Member;
use plain_data::Text;
use std::alloc::{AllocError, Global};
use std::collections::{BTreeMap, BTreeSet};

/// The folders that hold each name, and for each name a number below which all folders do.
#[derive(Drop)]
pub(crate) struct FolderNames {
    held: BTreeSet<(usize, Text)>,
    floors: BTreeMap<Text, usize>,
}

impl FolderNames {
    pub(crate) fn new(alloc: Global) -> FolderNames
        ensures { IsNamed result [] }
    {
        FolderNames {
            held: BTreeSet::new(alloc),
            floors: BTreeMap::new(alloc),
        }
    }

    /// Finds the lowest folder from `from` on that holds no name of the group, or else `top`.
    pub(crate) fn lowest_from(
        &self,
        alloc: Global,
        group: &[Member],
        from: usize,
        top: usize,
    ) -> Result<usize, AllocError>
        ensures { IfOk result (IsFound self.now group.now from top) }
    {
        for folder in from..top {
            if !self.has_any(alloc, group, folder)? {
                return Ok(folder);
            }
        }
        Ok(top)
    }

    fn has_any(&self, alloc: Global, group: &[Member], folder: usize) -> Result<bool, AllocError>
        ensures { IfOk result (λ any. any ≡ any_holds self.now group.now folder) }
    {
        for member in group {
            if self.has(alloc, &member.name, folder)? {
                return Ok(true);
            }
        }
        Ok(false)
    }

    fn has(&self, alloc: Global, name: &Text, folder: usize) -> Result<bool, AllocError>
        ensures { IfOk result (λ has. has ≡ holds self.now name.now folder) }
    {
        let spot = (folder, name.copied(alloc)?);
        let has = self.held.contains(&spot);
        drop(spot);
        Ok(has)
    }

    /// Returns a number below which each folder holds a name of the group.
    pub(crate) fn floor_of(&self, group: &[Member]) -> usize
        ensures { IsFloored self.now → (j : ℕ) → j < result → any_holds self.now group.now j
            ≡ true }
    {
        let mut most = 0;
        for member in group {
            most = higher(most, self.floor(&member.name));
        }
        most
    }

    fn floor(&self, name: &Text) -> usize
        ensures { result ≡ floor_in self.now name.now }
    {
        self.floors.get(name).copied().unwrap_or(0)
    }

    /// Notes that the folder holds the files of a group.
    pub(crate) fn note(
        &mut self,
        alloc: Global,
        group: &[Member],
        folder: usize,
    ) -> Result<(), AllocError>
        ensures { OnOk result ((placed : List Placed) → IsNamed self.old placed
            → IsNamed self.new (placed ++ record { members = group.now; folder = folder } ∷ [])) }
    {
        for member in group {
            self.put(alloc, &member.name, folder)?;
            self.raise(alloc, &member.name, folder)?;
        }
        Ok(())
    }

    fn put(&mut self, alloc: Global, name: &Text, folder: usize) -> Result<(), AllocError>
        ensures held { OnOk result ((q : List ℕ) (k : ℕ) → holds self.new q k
            ≡ (holds self.old q k || (folder == k && bytes_eq q name.now))) }
        ensures floors { OnOk result (self.new.floors ≡ self.old.floors) }
    {
        let name = name.copied(alloc)?;
        self.held.insert((folder, name))?;
        Ok(())
    }

    // Takes the floor of a name past its folder.
    fn raise(&mut self, alloc: Global, name: &Text, folder: usize) -> Result<(), AllocError>
        ensures held { OnOk result (self.new.held ≡ self.old.held) }
        ensures floored { OnOk result (IsFloored self.old → IsFloored self.new) }
    {
        if self.floor(name) != folder {
            return Ok(());
        }
        let end = self.end_of_run(alloc, name, folder)?;
        let name = name.copied(alloc)?;
        self.floors.insert(name, end)?;
        Ok(())
    }

    // The first folder from here on that doesn't hold the name.
    fn end_of_run(&self, alloc: Global, name: &Text, from: usize) -> Result<usize, AllocError>
        ensures { IfOk result (λ end. (j : ℕ) → from ≤ j → j < end → holds self.now name.now j
            ≡ true) }
    {
        for folder in from..usize::MAX {
            if !self.has(alloc, name, folder)? {
                return Ok(folder);
            }
        }
        Ok(usize::MAX)
    }
}

fn higher(one: usize, other: usize) -> usize
    ensures { (j : ℕ) → j < result → (j < one) ⊎ (j < other) }
{
    if one < other { other } else { one }
}

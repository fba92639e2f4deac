//! The entries of a job's outputs, as they are put into an archive and taken from one, one by one.
ghost use Rattle.std.specs.Prelude.{◌≡◌, ◌∷◌, ◌++◌, [], List, IfOk, IfSome, OnOk, IsTrue};
ghost use Rattle.proc_host.specs.Answers.{are_among};
ghost use Rattle.process_machine.specs.inner.Taken.{AreTaken, IsTaken};
ghost use Rattle.staging.specs.declared.found.Found.{Found};

use crate::trouble::Trouble;
use plain_data::Items;
use staging::Found;
use std::alloc::Global;

/// Where entries are put.
pub(crate) trait Sink {
    ghost use Rattle.std.specs.Prelude.{List, Option};
    ghost use Rattle.staging.specs.declared.found.Found.{Found};

    /// What was put there, where a contract can tell.
    ghost holds: { Self → Option (List Found) };

    /// Puts an entry there as it was found.
    fn put(&mut self, file: &Found) -> Result<(), Trouble>
        ensures { OnOk result (IfSome (holds self.old) (λ held. holds self.new
            ≡ Some (held ++ file.now ∷ []))) };
}

/// Puts each of these entries there.
pub(crate) fn put_all<S: Sink>(sink: &mut S, files: &[Found]) -> Result<(), Trouble>
    ensures { OnOk result (IfSome (S.holds sink.old) (λ held. S.holds sink.new
        ≡ Some (held ++ files.now))) }
{
    for file in files {
        sink.put(file)?;
    }
    Ok(())
}

/// Where entries are taken from.
pub(crate) trait Source {
    ghost use Rattle.std.specs.Prelude.{ℕ, List, Option};
    ghost use Rattle.staging.specs.declared.found.Found.{Found};

    /// What there is under a name, where a contract can tell.
    ghost there: { Self → List ℕ → Option (Option Found) };

    /// Takes what there is under the name of an entry.
    fn take(&self, file: &Found) -> Result<Option<Found>, Trouble>
        ensures { IfOk result (IsTaken (there self.now) file.now.name) };
}

/// Takes what there is under the names of these entries, in their order.
pub(crate) fn take_all<S: Source>(
    alloc: Global,
    source: &S,
    files: &[Found],
) -> Result<Items<Found>, Trouble>
    ensures taken { IfOk result (AreTaken (S.there source.now) files.now) }
    ensures among { IfOk result (λ found. IsTrue (are_among files.now found)) }
{
    let mut found = Items::new(alloc);
    for file in files {
        take_next(source, file, &mut found)?;
    }
    Ok(found)
}

// Takes what there is under the name of one entry more.
fn take_next<S: Source>(source: &S, file: &Found, found: &mut Items<Found>) -> Result<(), Trouble>
    ensures { OnOk result ((files : List Found) → AreTaken (S.there source.now) files found.old
        → AreTaken (S.there source.now) (files ++ file.now ∷ []) found.new) }
{
    if let Some(entry) = source.take(file)? {
        found.push(entry)?;
    }
    Ok(())
}

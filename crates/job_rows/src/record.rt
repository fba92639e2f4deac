ghost use Rattle.std.specs.Prelude.{◌≡◌, ◌++◌, List, IfOk, IfSome};
ghost use Rattle.job_rows.specs.declared.log.Entry.{Entry};
ghost use Rattle.job_rows.specs.declared.log.Command.TheVariants as command;
ghost use Rattle.job_rows.specs.Log.{entries_of, told_of};
ghost use Rattle.job_rows.specs.Map.{RowMap, Finds, Puts, Touches, Drops};

use crate::{RecordError, Row};
use plain_data::{Items, Text};

/// Where a run looks jobs up and puts them: a finite map from key to row, with the archives that it keeps.
///
/// Each call makes room for its entry in the log, acts, and adds the entry. One that runs out of memory adds none. A
/// call that is refused changes no row. What the record is kept on is sound after a call only where it was before.
pub trait Record {
    /// What was asked so far, oldest first.
    ghost log: { Self → List Entry };

    /// What the record is kept on has returned what was written to it so far.
    ghost is_sound: { Self → Type 0 };

    /// These rows, and no others, are what the record holds.
    ghost holds: { Self → RowMap → Type 0 };

    /// Returns the row of a key, if there is one: it has this key, whatever state the record is in. R1 if it doesn't read.
    fn find(&mut self, key: &Text) -> Result<Option<Row>, RecordError>
        ensures logged { log self.new ≡ log self.old
            ++ entries_of command.Find key.now (told_of result) }
        ensures keyed { IfOk result (λ found. IfSome found (λ row. row.key ≡ key.now)) }
        ensures sound { is_sound self.new → is_sound self.old }
        ensures finds { is_sound self.new → (map : RowMap) → holds self.old map
            → Finds map key.now result × holds self.new map };

    /// Sets the row of its key, and returns the keys that are without their archive by it: those of the others that had to go
    /// for the budget, oldest use first, and last its own, where it lost one or was refused one. R5 where no number is left
    /// for its use.
    fn put(&mut self, row: &Row) -> Result<Items<Text>, RecordError>
        ensures logged { log self.new ≡ log self.old
            ++ entries_of command.Put row.now.key (told_of result) }
        ensures sound { is_sound self.new → is_sound self.old }
        ensures puts { is_sound self.new → (map : RowMap) → holds self.old map
            → Puts (holds self.new) map row.now result };

    /// Notes that the archive of a key was used. R3 where no archived row has the key, and R5 where no number is left.
    fn touch(&mut self, key: &Text) -> Result<(), RecordError>
        ensures logged { log self.new ≡ log self.old
            ++ entries_of command.Touch key.now (told_of result) }
        ensures sound { is_sound self.new → is_sound self.old }
        ensures touches { is_sound self.new → (map : RowMap) → holds self.old map
            → Touches (holds self.new) map key.now result };

    /// Notes that the archive of a key is gone. R3 where no row has the key.
    fn drop_archive(&mut self, key: &Text) -> Result<(), RecordError>
        ensures logged { log self.new ≡ log self.old
            ++ entries_of command.DropArchive key.now (told_of result) }
        ensures sound { is_sound self.new → is_sound self.old }
        ensures drops { is_sound self.new → (map : RowMap) → holds self.old map
            → Drops (holds self.new) map key.now result };
}

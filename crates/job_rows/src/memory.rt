ghost use Rattle.std.specs.Prelude.{◌≡◌, ◌++◌, [], option_map, IsTrue, IsSome, IfOk, IfSome, IfErr, OnOk, OnErr};
ghost use Rattle.plain_data.specs.ByName.{value_at, with_value};
ghost use Rattle.job_rows.specs.declared.log.Command.TheVariants as command;
ghost use Rattle.job_rows.specs.declared.refusal.RecordError.TheVariants.{OutOfMemory};
ghost use Rattle.job_rows.specs.Log.{entries_of, told_of};
ghost use Rattle.job_rows.specs.Map.{RowMap, Finds, Puts, Touches, Drops, AreUnspent, keeps_archive, left_for, lost_by, without_archive};
ghost use Rattle.job_rows.specs.Memory.{IsMapOf, Stays, SetsRow, TouchesArchive, DropsArchive, CannotPut, CannotTouch, CannotDrop, row_at, row_with};

use crate::archive::Archive;
use crate::archives::{self, Ready};
use crate::log::{note, room, told_of};
use crate::{Command, Entry, Record, RecordError, RecordRefusal, Row};
use plain_data::{Items, Keyed, Shared, Text};
use std::alloc::{AllocError, Global};
use std::marker::Model;

/// A record that is kept in memory alone, and ends with the run.
///
/// A row is archived where its key has an archive, whatever the flag says with which it stands here.
#[derive(Drop)]
pub struct MemoryRecord {
    alloc: Global,
    /// Behind a pointer each, so that a put moves little.
    rows: Keyed<Shared<Row>>,
    archives: Vec<Archive>,
    budget: Option<u64>,
    log: Vec<Entry>,
}

impl Model for MemoryRecord {
    ghost use Rattle.job_rows.specs.Memory.{MemoryState};
    ghost use Rattle.cwl_value.specs.contracts.value.Value as value;
    ghost use Rattle.std.specs.Coded.{codes};

    ghost Value = { MemoryState };

    ghost coded = { Prim.hlevel (codes, value.the_row.coded) };

    ghost use Rattle.job_rows.specs.Memory.{HaveTheirKeys};
    ghost use Rattle.job_rows.specs.InStep.{AreApart};

    ghost view = { λ fields. record {
      rows = fields.rows;
      archives = fields.archives.items;
      budget = fields.budget;
      log = fields.log.items;
    } };

    ghost invariant = { λ fields. HaveTheirKeys fields.rows × AreApart fields.archives.items };
}

impl MemoryRecord {
    /// A record with no row, of which nothing was asked. Its archives have together at most as many bytes as the budget, if
    /// there is one.
    pub fn new(alloc: Global, budget: Option<u64>) -> MemoryRecord
        ensures { result ≡ record { rows = []; archives = []; budget = budget; log = [] } }
    {
        MemoryRecord {
            alloc,
            rows: Keyed::new(alloc),
            archives: Vec::new(alloc),
            budget,
            log: Vec::new(alloc),
        }
    }

    /// What was asked so far, oldest first.
    pub fn log(&self) -> &[Entry]
        ensures { result.now ≡ self.now.log }
    {
        self.log.as_slice()
    }
}

impl Record for MemoryRecord {
    ghost log = { λ memory. memory.log };

    ghost is_sound = { λ memory. Unit {0} };

    ghost holds = { λ memory map. IsMapOf memory map };

    fn find(&mut self, key: &Text) -> Result<Option<Row>, RecordError>
        ensures logged { self.new.log ≡ self.old.log
            ++ entries_of command.Find key.now (told_of result) }
        ensures keyed { IfOk result (λ found. IfSome found (λ row. row.key ≡ key.now)) }
        ensures sound { Unit {0} → Unit {0} }
        ensures finds { Unit {0} → (map : RowMap) → IsMapOf self.old map
            → Finds map key.now result × IsMapOf self.new map }
        ensures found { IfOk result (λ found. found ≡ row_at key.now self.old) }
        ensures memory { IfErr result (λ e. e ≡ OutOfMemory) }
        ensures same { Stays self.old self.new }
    {
        let noted = room(self.alloc, &mut self.log, key)?;
        let answer = row_of(self.alloc, &self.rows, self.archives.as_slice(), key);
        note(&mut self.log, Command::Find, noted, told_of(&answer));
        answer
    }

    fn put(&mut self, row: &Row) -> Result<Items<Text>, RecordError>
        ensures logged { self.new.log ≡ self.old.log
            ++ entries_of command.Put row.now.key (told_of result) }
        ensures sound { Unit {0} → Unit {0} }
        ensures puts { Unit {0} → (map : RowMap) → IsMapOf self.old map
            → Puts (IsMapOf self.new) map row.now result }
        ensures set { OnOk result (SetsRow row.now self.old self.new) }
        ensures lost { IfOk result (λ keys. keys
            ≡ lost_by row.now self.old.budget self.old.archives) }
        ensures numbered { OnOk result (IsTrue (keeps_archive row.now self.old.budget)
            → AreUnspent self.old.archives) }
        ensures same { OnErr result (Stays self.old self.new) }
        ensures refused { IfErr result (CannotPut row.now self.old.budget self.old.archives) }
    {
        let noted = room(self.alloc, &mut self.log, &row.key)?;
        let answer = set(
            self.alloc,
            &mut self.rows,
            &mut self.archives,
            self.budget,
            row,
        );
        note(&mut self.log, Command::Put, noted, told_of(&answer));
        answer
    }

    fn touch(&mut self, key: &Text) -> Result<(), RecordError>
        ensures logged { self.new.log ≡ self.old.log
            ++ entries_of command.Touch key.now (told_of result) }
        ensures sound { Unit {0} → Unit {0} }
        ensures touches { Unit {0} → (map : RowMap) → IsMapOf self.old map
            → Touches (IsMapOf self.new) map key.now result }
        ensures done { OnOk result (TouchesArchive key.now self.old self.new) }
        ensures numbered { OnOk result (AreUnspent self.old.archives) }
        ensures same { OnErr result (Stays self.old self.new) }
        ensures refused { IfErr result (CannotTouch key.now self.old.archives) }
    {
        let noted = room(self.alloc, &mut self.log, key)?;
        let answer = archives::touch(self.alloc, &mut self.archives, key);
        note(&mut self.log, Command::Touch, noted, told_of(&answer));
        answer
    }

    fn drop_archive(&mut self, key: &Text) -> Result<(), RecordError>
        ensures logged { self.new.log ≡ self.old.log
            ++ entries_of command.DropArchive key.now (told_of result) }
        ensures sound { Unit {0} → Unit {0} }
        ensures drops { Unit {0} → (map : RowMap) → IsMapOf self.old map
            → Drops (IsMapOf self.new) map key.now result }
        ensures done { OnOk result (DropsArchive key.now self.old self.new) }
        ensures same { OnErr result (Stays self.old self.new) }
        ensures refused { IfErr result (CannotDrop key.now self.old.rows) }
    {
        let noted = room(self.alloc, &mut self.log, key)?;
        let answer = unarchive(&self.rows, &mut self.archives, key);
        note(&mut self.log, Command::DropArchive, noted, told_of(&answer));
        answer
    }
}

// A copy of the row of a key, if there is one.
fn row_of(
    alloc: Global,
    rows: &Keyed<Shared<Row>>,
    archives: &[Archive],
    key: &Text,
) -> Result<Option<Row>, RecordError>
    ensures found { IfOk result (λ found. found
        ≡ option_map (row_with key.now archives.now) (value_at key.now rows.now)) }
    ensures memory { IfErr result (λ e. e ≡ OutOfMemory) }
{
    match rows.get(key.as_str()) {
        Some(row) => Ok(Some(row_with(alloc, archives, key, row.as_ref())?)),
        None => Ok(None),
    }
}

// A copy of the row of a key: it is archived where the key has an archive.
fn row_with(alloc: Global, archives: &[Archive], key: &Text, row: &Row) -> Result<Row, AllocError>
    ensures { IfOk result (λ copy. copy ≡ row_with key.now archives.now row.now) }
{
    let copy = row.clone_in(alloc)?;
    Ok(Row {
        archived: archives::has_archive(archives, key),
        ..copy
    })
}

// Sets the row of its key, and returns the keys that are without their archive by it.
fn set(
    alloc: Global,
    rows: &mut Keyed<Shared<Row>>,
    archives: &mut Vec<Archive>,
    budget: Option<u64>,
    row: &Row,
) -> Result<Items<Text>, RecordError>
    ensures rows { OnOk result (rows.new ≡ with_value row.now.key row.now rows.old) }
    ensures archives { OnOk result (archives.new.items
        ≡ left_for row.now budget archives.old.items) }
    ensures lost { IfOk result (λ keys. keys ≡ lost_by row.now budget archives.old.items) }
    ensures can { OnOk result (IsTrue (keeps_archive row.now budget)
        → AreUnspent archives.old.items) }
    ensures same { OnErr result ((rows.new ≡ rows.old)
        × (archives.new.items ≡ archives.old.items)) }
    ensures err { IfErr result (CannotPut row.now budget archives.old.items) }
{
    let ready = Ready::new(alloc, archives, budget, row)?;
    let key = row.key.copied(alloc)?;
    rows.insert(key, Shared::new(alloc, row.clone_in(alloc)?)?)?;
    Ok(ready.put(archives, budget, row))
}

// Notes that the archive of a key's row is gone.
fn unarchive(
    rows: &Keyed<Shared<Row>>,
    archives: &mut Vec<Archive>,
    key: &Text,
) -> Result<(), RecordError>
    ensures there { OnOk result (IsSome (value_at key.now rows.now)) }
    ensures ok { OnOk result (archives.new.items
        ≡ without_archive key.now archives.old.items) }
    ensures same { OnErr result (archives.new.items ≡ archives.old.items) }
    ensures err { IfErr result (CannotDrop key.now rows.now) }
{
    if !rows.contains(key.as_str()) {
        return Err(RecordError::Refused(RecordRefusal::NoRow));
    }
    archives::remove(archives, key);
    Ok(())
}

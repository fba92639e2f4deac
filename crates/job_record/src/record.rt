ghost use Rattle.std.specs.Prelude.{◌≡◌, [], false, None, Ok, Err, IfOk, IfSome, IfErr, OnOk, OnErr};
ghost use Rattle.sqlite.specs.State.{HasCleanDisk, KeepsCommit, Survives, CommitsShowing};
ghost use Rattle.sqlite.specs.Held.{state};
ghost use Rattle.job_record.specs.Statements.{find_text, list_text, key_params};
ghost use Rattle.job_record.specs.Archives.{archives_text};
ghost use Rattle.job_record.specs.RecordMap.{Finds, Lists, ListsArchives, ListsKeys, AnswersOpen};
ghost use Rattle.job_record.specs.Map.{ArchivesIn, HoldsMap, IsRecord, IsRecordOf, FindsIn, PutsIn, TouchesIn, ChangesIn, ListsIn, KeysIn, sets, touches, unarchives, forgets, changed_by, kept_as};
ghost use Rattle.job_record.specs.Blame.{Blames, put_texts, touch_texts, drop_texts, forget_texts};
ghost use Rattle.job_record.specs.Log.{Logs};
ghost use Rattle.job_record.specs.Counted.{IsCount, FitsSpace};
ghost use Rattle.job_record.specs.Rows.{OpensWithRows};
ghost use Rattle.job_record.specs.Texts.{ReadsBack};
ghost use Rattle.job_rows.specs.Storable.{IsKept};
ghost use Rattle.job_record.specs.Opening.{Opens, begun};
ghost use Rattle.job_record.specs.OpenMap.{OpensAs, RefusesAs, CrashesAs};
ghost use Rattle.job_record.specs.Crash.{ChangesSafely, CrashesWhole, ReadsSafely, OpensSafely, RefusesSafely};
ghost use Rattle.job_record.specs.inner.Inside.{done_of, space_without, total_without};

use crate::changes::{self, Space};
use crate::commands::{all_keys, look_up, note, putting_of, read_all, room};
use crate::fault::{RecordFault, told_of};
use crate::making::open_tables;
use crate::showing::archives_of;
use job_rows::{Archive, Command, Entry, Row};
use plain_data::{Items, Text};
use sqlite::{Alter, Connection};
use std::alloc::Global;

/// A record over a store.
pub struct JobRecord<S: Alter> {
    alloc: Global,
    conn: Connection<S>,
    // How many bytes the archives may have, and have together as far as that was counted. After a refusal it is counted afresh.
    space: Space,
    log: Vec<Entry>,
    ghost idle: { conn.in_transaction ≡ false },
}

// It is written out, so that a caller does not prove again how each part is dropped.
impl<S: Alter + Drop> Drop for JobRecord<S> {
    fn drop(self) {
        let JobRecord {
            alloc: _,
            conn: _,
            space: _,
            log: _,
        } = self;
    }
}

impl<S: Alter + Drop> JobRecord<S> {
    /// Opens the record in a store, or makes one if the store has none of its tables. The archives may have together at most as
    /// many bytes as the budget, if there is one. Looks at the tables and the version, and at no row: `find` and `list` refuse the
    /// rows that do not read. A record of version 1 is made one of version 2: then the files of its archived rows are read. A
    /// refusal hands the connection back.
    ///
    /// # Errors
    ///
    /// R1 if the store lacks a table that its version has, or has one more, a table lacks a column, there is no version, or
    /// files of version 1 do not read; R2 if the version is another one; R4.
    pub fn open_record(
        alloc: Global,
        mut conn: Connection<S>,
        budget: Option<u64>,
    ) -> Result<JobRecord<S>, (RecordFault, Connection<S>)>
        requires { conn.in_transaction ≡ false }
        ensures opens { IfOk result (λ opened. HasCleanDisk (state S.Store opened.conn)
            → Opens S.Store conn opened.conn (Ok tt)) }
        ensures refused { IfErr result (λ left. HasCleanDisk (state S.Store left.1)
            → Opens S.Store conn left.1 (Err left.0)) }
        ensures map { IfOk result (λ opened. HasCleanDisk (state S.Store opened.conn)
            → OpensAs budget (state S.Store conn) (state S.Store opened.conn)) }
        ensures stays { IfErr result (λ left. HasCleanDisk (state S.Store left.1)
            → RefusesAs (state S.Store conn) (state S.Store left.1)) }
        ensures crash { IfOk result
            (λ opened. CrashesAs (state S.Store conn) (state S.Store opened.conn)) }
        ensures crash_refused { IfErr result
            (λ left. CrashesAs (state S.Store conn) (state S.Store left.1)) }
        ensures safe { IfOk result (λ opened. HasCleanDisk (state S.Store opened.conn)
            → OpensSafely budget (state S.Store conn) (state S.Store opened.conn)) }
        ensures safe_refused { IfErr result (λ left. HasCleanDisk (state S.Store left.1)
            → RefusesSafely (state S.Store conn) (state S.Store left.1)) }
        ensures rows { IfOk result (λ opened. HasCleanDisk (state S.Store opened.conn)
            → OpensWithRows budget (state S.Store conn) (state S.Store opened.conn)) }
        ensures space { IfOk result
            (λ opened. opened.space ≡ record { budget = budget; counted = None }) }
        ensures log { IfOk result (λ opened. opened.log.items ≡ []) }
    {
        match open_tables(alloc, &mut conn) {
            Ok(()) => Ok(JobRecord {
                alloc,
                conn,
                space: Space {
                    budget,
                    counted: None,
                },
                log: Vec::new(alloc),
            }),
            Err(fault) => Err((fault, conn)),
        }
    }

    /// Gives the connection back, unchanged.
    pub fn into_connection(self) -> Connection<S>
        ensures { result ≡ self.conn }
    {
        let JobRecord {
            alloc: _,
            conn,
            space: _,
            log: _,
        } = self;
        conn
    }
}

impl<S: Alter> JobRecord<S> {
    /// What was asked so far, oldest first.
    pub fn log(&self) -> &[Entry]
        ensures { result.now ≡ self.now.log.items }
    {
        self.log.as_slice()
    }

    /// The row of a key, if there is one.
    ///
    /// # Errors
    ///
    /// R1 if the row does not read, or has another key; R4; out of memory.
    #[tactic(auto, using(crate::proofs::MapSteps::find_is_map))]
    pub fn find(&mut self, key: &str) -> Result<Option<Row>, RecordFault>
        ensures finds { HasCleanDisk (state S.Store self.new.conn)
            → Finds S.Store self.old.conn self.new.conn key.now result }
        ensures keyed { IfOk result (λ found. IfSome found (λ row. row.key ≡ key.now)) }
        ensures map { HasCleanDisk (state S.Store self.new.conn)
            → IsRecord (state S.Store self.old.conn)
            → FindsIn (state S.Store self.old.conn) (state S.Store self.new.conn) key.now result }
        ensures survives { Survives (state S.Store self.old.conn) (state S.Store self.new.conn)
            (CommitsShowing find_text (key_params key.now) (state S.Store self.old.conn)) }
        ensures safe { HasCleanDisk (state S.Store self.new.conn)
            → ReadsSafely (state S.Store self.old.conn) (state S.Store self.new.conn) }
        ensures open { HasCleanDisk (state S.Store self.new.conn)
            → AnswersOpen (state S.Store self.old.conn) result }
        ensures space { self.new.space ≡ self.old.space }
        ensures log { Logs Command.Find key.now result self.old.log.items self.new.log.items }
    {
        let noted = room(self.alloc, &mut self.log, key)?;
        let answer = look_up(self.alloc, &mut self.conn, key);
        note(&mut self.log, Command::Find, noted, told_of(&answer));
        answer
    }

    /// Sets the row of its key, and answers the keys that are without their archive by it. A refusal commits nothing.
    ///
    /// # Errors
    ///
    /// R4, also if the cost is not from 1 to 10^12; R5 if no number is left for its archive; out of memory.
    #[tactic(auto, using(crate::proofs::Asked::idle_stands, crate::proofs::Asked::idle_keeps, crate::proofs::Asked::idle_whole, crate::proofs::Asked::idle_safe))]
    pub fn put(&mut self, row: &Row) -> Result<Items<Text>, RecordFault>
        ensures map { HasCleanDisk (state S.Store self.new.conn)
            → (map : _) → FitsSpace self.old.space map
            → IsRecordOf (state S.Store self.old.conn) map
            → PutsIn map (state S.Store self.old.conn)
            (state S.Store self.new.conn) row.now result }
        ensures counts { HasCleanDisk (state S.Store self.new.conn)
            → (map : _) → FitsSpace self.old.space map
            → IsRecordOf (state S.Store self.old.conn) map
            → OnOk result
            (IsCount self.new.space.counted (changed_by (sets row.now) map).archives) }
        ensures kept { HasCleanDisk (state S.Store self.new.conn)
            → OnErr result
            (KeepsCommit (state S.Store self.old.conn) (state S.Store self.new.conn)) }
        ensures crash { CrashesWhole (state S.Store self.old.conn) (state S.Store self.new.conn)
            self.old.space (sets row.now) }
        ensures safe { HasCleanDisk (state S.Store self.new.conn)
            → ChangesSafely self.old.space (state S.Store self.old.conn)
            (state S.Store self.new.conn) (sets row.now) result }
        ensures open { HasCleanDisk (state S.Store self.new.conn)
            → AnswersOpen (state S.Store self.old.conn) result }
        ensures budget { self.new.space.budget ≡ self.old.space.budget }
        ensures same { OnErr result (self.new.space ≡ self.old.space) }
        ensures reads_back { OnOk result (IsKept row.now.outputs
            → ReadsBack (kept_as self.old.space.budget row.now)) }
        ensures log { Logs Command.Put row.now.key result self.old.log.items self.new.log.items }
        ensures cause { HasCleanDisk (state S.Store self.new.conn)
            → IfErr result (Blames S.Store put_texts (begun S.Store self.old.conn)) }
    {
        let noted = room(self.alloc, &mut self.log, row.key.as_str())?;
        let answer = self.set(row);
        note(&mut self.log, Command::Put, noted, told_of(&answer));
        answer
    }

    #[tactic(auto, using(crate::proofs::Asked::idle_stands, crate::proofs::Asked::idle_keeps, crate::proofs::Asked::idle_whole, crate::proofs::Asked::idle_safe))]
    fn set(&mut self, row: &Row) -> Result<Items<Text>, RecordFault>
        ensures map { HasCleanDisk (state S.Store self.new.conn)
            → (map : _) → FitsSpace self.old.space map
            → IsRecordOf (state S.Store self.old.conn) map
            → PutsIn map (state S.Store self.old.conn)
            (state S.Store self.new.conn) row.now result }
        ensures counts { HasCleanDisk (state S.Store self.new.conn)
            → (map : _) → FitsSpace self.old.space map
            → IsRecordOf (state S.Store self.old.conn) map
            → OnOk result
            (IsCount self.new.space.counted (changed_by (sets row.now) map).archives) }
        ensures kept { HasCleanDisk (state S.Store self.new.conn)
            → OnErr result
            (KeepsCommit (state S.Store self.old.conn) (state S.Store self.new.conn)) }
        ensures crash { CrashesWhole (state S.Store self.old.conn) (state S.Store self.new.conn)
            self.old.space (sets row.now) }
        ensures safe { HasCleanDisk (state S.Store self.new.conn)
            → ChangesSafely self.old.space (state S.Store self.old.conn)
            (state S.Store self.new.conn) (sets row.now) result }
        ensures open { HasCleanDisk (state S.Store self.new.conn)
            → AnswersOpen (state S.Store self.old.conn) result }
        ensures budget { self.new.space.budget ≡ self.old.space.budget }
        ensures same { OnErr result (self.new.space ≡ self.old.space) }
        ensures reads_back { OnOk result (IsKept row.now.outputs
            → ReadsBack (kept_as self.old.space.budget row.now)) }
        ensures log { self.new.log ≡ self.old.log }
        ensures cause { HasCleanDisk (state S.Store self.new.conn)
            → IfErr result (Blames S.Store put_texts (begun S.Store self.old.conn)) }
    {
        let putting = putting_of(self.alloc, row, self.space.budget)?;
        match changes::put(self.alloc, &mut self.conn, self.space, &putting) {
            Ok((lost, counted)) => {
                self.space.counted = counted;
                Ok(lost)
            }
            Err(fault) => Err(fault),
        }
    }

    /// Notes that the archive of a key was used.
    ///
    /// # Errors
    ///
    /// R3 if no archived row has the key; R4; R5 if no number is left; out of memory.
    #[tactic(auto, using(crate::proofs::Asked::idle_stands, crate::proofs::Asked::idle_keeps, crate::proofs::Asked::idle_whole, crate::proofs::Asked::idle_safe))]
    pub fn touch(&mut self, key: &str) -> Result<(), RecordFault>
        ensures map { HasCleanDisk (state S.Store self.new.conn)
            → (map : _) → FitsSpace self.old.space map
            → IsRecordOf (state S.Store self.old.conn) map
            → TouchesIn map (state S.Store self.old.conn) (state S.Store self.new.conn) key.now
            result }
        ensures counts { HasCleanDisk (state S.Store self.new.conn)
            → (map : _) → FitsSpace self.old.space map
            → IsRecordOf (state S.Store self.old.conn) map
            → OnOk result
            (IsCount self.new.space.counted (changed_by (touches key.now) map).archives) }
        ensures kept { HasCleanDisk (state S.Store self.new.conn)
            → OnErr result
            (KeepsCommit (state S.Store self.old.conn) (state S.Store self.new.conn)) }
        ensures crash { CrashesWhole (state S.Store self.old.conn) (state S.Store self.new.conn)
            self.old.space (touches key.now) }
        ensures safe { HasCleanDisk (state S.Store self.new.conn)
            → ChangesSafely self.old.space (state S.Store self.old.conn)
            (state S.Store self.new.conn) (touches key.now) result }
        ensures open { HasCleanDisk (state S.Store self.new.conn)
            → AnswersOpen (state S.Store self.old.conn) result }
        ensures budget { self.new.space.budget ≡ self.old.space.budget }
        ensures same { OnErr result (self.new.space ≡ self.old.space) }
        ensures log { Logs Command.Touch key.now result self.old.log.items self.new.log.items }
        ensures cause { HasCleanDisk (state S.Store self.new.conn)
            → IfErr result (Blames S.Store touch_texts (begun S.Store self.old.conn)) }
    {
        let noted = room(self.alloc, &mut self.log, key)?;
        let answer = changes::touch(&mut self.conn, key);
        note(&mut self.log, Command::Touch, noted, told_of(&answer));
        answer
    }

    /// Notes that the archive of a key is gone.
    ///
    /// # Errors
    ///
    /// R3 if no row has the key; R4; out of memory.
    #[tactic(auto, using(crate::proofs::Asked::idle_stands, crate::proofs::Asked::idle_keeps, crate::proofs::Asked::idle_whole, crate::proofs::Asked::idle_safe))]
    pub fn drop_archive(&mut self, key: &str) -> Result<(), RecordFault>
        ensures map { HasCleanDisk (state S.Store self.new.conn)
            → (map : _) → FitsSpace self.old.space map
            → IsRecordOf (state S.Store self.old.conn) map
            → ChangesIn (unarchives key.now) key.now map (state S.Store self.old.conn)
            (state S.Store self.new.conn) result }
        ensures counts { HasCleanDisk (state S.Store self.new.conn)
            → (map : _) → FitsSpace self.old.space map
            → IsRecordOf (state S.Store self.old.conn) map
            → OnOk result
            (IsCount self.new.space.counted (changed_by (unarchives key.now) map).archives) }
        ensures kept { HasCleanDisk (state S.Store self.new.conn)
            → OnErr result
            (KeepsCommit (state S.Store self.old.conn) (state S.Store self.new.conn)) }
        ensures crash { CrashesWhole (state S.Store self.old.conn) (state S.Store self.new.conn)
            self.old.space (unarchives key.now) }
        ensures safe { HasCleanDisk (state S.Store self.new.conn)
            → ChangesSafely self.old.space (state S.Store self.old.conn)
            (state S.Store self.new.conn) (unarchives key.now) result }
        ensures open { HasCleanDisk (state S.Store self.new.conn)
            → AnswersOpen (state S.Store self.old.conn) result }
        ensures budget { self.new.space.budget ≡ self.old.space.budget }
        ensures same { OnErr result (self.new.space ≡ self.old.space) }
        ensures log { Logs Command.DropArchive key.now result self.old.log.items
            self.new.log.items }
        ensures cause { HasCleanDisk (state S.Store self.new.conn)
            → IfErr result (Blames S.Store drop_texts (begun S.Store self.old.conn)) }
    {
        let noted = room(self.alloc, &mut self.log, key)?;
        let gone = changes::drop_archive(&mut self.conn, key);
        let answer = without(&mut self.space, gone);
        note(&mut self.log, Command::DropArchive, noted, told_of(&answer));
        answer
    }

    /// Takes the row of a key out.
    ///
    /// # Errors
    ///
    /// R3 if no row has the key; R4; out of memory.
    #[tactic(auto, using(crate::proofs::Asked::idle_stands, crate::proofs::Asked::idle_keeps, crate::proofs::Asked::idle_whole, crate::proofs::Asked::idle_safe))]
    pub fn forget(&mut self, key: &str) -> Result<(), RecordFault>
        ensures map { HasCleanDisk (state S.Store self.new.conn)
            → (map : _) → FitsSpace self.old.space map
            → IsRecordOf (state S.Store self.old.conn) map
            → ChangesIn (forgets key.now) key.now map (state S.Store self.old.conn)
            (state S.Store self.new.conn) result }
        ensures counts { HasCleanDisk (state S.Store self.new.conn)
            → (map : _) → FitsSpace self.old.space map
            → IsRecordOf (state S.Store self.old.conn) map
            → OnOk result
            (IsCount self.new.space.counted (changed_by (forgets key.now) map).archives) }
        ensures kept { HasCleanDisk (state S.Store self.new.conn)
            → OnErr result
            (KeepsCommit (state S.Store self.old.conn) (state S.Store self.new.conn)) }
        ensures crash { CrashesWhole (state S.Store self.old.conn) (state S.Store self.new.conn)
            self.old.space (forgets key.now) }
        ensures safe { HasCleanDisk (state S.Store self.new.conn)
            → ChangesSafely self.old.space (state S.Store self.old.conn)
            (state S.Store self.new.conn) (forgets key.now) result }
        ensures open { HasCleanDisk (state S.Store self.new.conn)
            → AnswersOpen (state S.Store self.old.conn) result }
        ensures budget { self.new.space.budget ≡ self.old.space.budget }
        ensures same { OnErr result (self.new.space ≡ self.old.space) }
        ensures log { Logs Command.Forget key.now result self.old.log.items self.new.log.items }
        ensures cause { HasCleanDisk (state S.Store self.new.conn)
            → IfErr result (Blames S.Store forget_texts (begun S.Store self.old.conn)) }
    {
        let noted = room(self.alloc, &mut self.log, key)?;
        let gone = changes::forget(&mut self.conn, key);
        let answer = without(&mut self.space, gone);
        note(&mut self.log, Command::Forget, noted, told_of(&answer));
        answer
    }

    /// All rows, in the order of the bytes of their keys.
    ///
    /// # Errors
    ///
    /// R1 if a row does not read; R4; out of memory.
    #[tactic(auto, using(crate::proofs::MapSteps::list_is_map))]
    pub fn list(&mut self) -> Result<Items<Row>, RecordFault>
        ensures lists { HasCleanDisk (state S.Store self.new.conn)
            → Lists S.Store self.old.conn self.new.conn result }
        ensures map { HasCleanDisk (state S.Store self.new.conn)
            → IsRecord (state S.Store self.old.conn)
            → ListsIn (state S.Store self.old.conn) (state S.Store self.new.conn) result }
        ensures survives { Survives (state S.Store self.old.conn) (state S.Store self.new.conn)
            (CommitsShowing list_text [] (state S.Store self.old.conn)) }
        ensures safe { HasCleanDisk (state S.Store self.new.conn)
            → ReadsSafely (state S.Store self.old.conn) (state S.Store self.new.conn) }
        ensures space { self.new.space ≡ self.old.space }
        ensures log { self.new.log ≡ self.old.log }
    {
        read_all(self.alloc, &mut self.conn)
    }

    /// The keys of all rows, in the order of their bytes, also of rows that do not read.
    ///
    /// # Errors
    ///
    /// R1 if a key is no text in UTF-8; R4; out of memory.
    #[tactic(auto, using(crate::proofs::KeysHeld::keys_is_map))]
    pub fn keys(&mut self) -> Result<Items<Text>, RecordFault>
        ensures lists { HasCleanDisk (state S.Store self.new.conn)
            → ListsKeys S.Store self.old.conn self.new.conn result }
        ensures map { HasCleanDisk (state S.Store self.new.conn)
            → IsRecord (state S.Store self.old.conn)
            → KeysIn (state S.Store self.old.conn) (state S.Store self.new.conn) result }
        ensures survives { Survives (state S.Store self.old.conn) (state S.Store self.new.conn)
            (CommitsShowing list_text [] (state S.Store self.old.conn)) }
        ensures safe { HasCleanDisk (state S.Store self.new.conn)
            → ReadsSafely (state S.Store self.old.conn) (state S.Store self.new.conn) }
        ensures space { self.new.space ≡ self.old.space }
        ensures log { self.new.log ≡ self.old.log }
    {
        all_keys(self.alloc, &mut self.conn)
    }

    /// All archives, by their last use, the oldest first.
    ///
    /// # Errors
    ///
    /// R1 if an archive does not read; R4; out of memory.
    pub fn archives(&mut self) -> Result<Items<Archive>, RecordFault>
        ensures clean { HasCleanDisk (state S.Store self.new.conn)
            → HasCleanDisk (state S.Store self.old.conn) }
        ensures lists { HasCleanDisk (state S.Store self.new.conn)
            → ListsArchives S.Store self.old.conn self.new.conn result }
        ensures map { HasCleanDisk (state S.Store self.new.conn)
            → IsRecord (state S.Store self.old.conn)
            → (map : _) → HoldsMap (state S.Store self.old.conn).now map
            → ArchivesIn map (state S.Store self.old.conn) (state S.Store self.new.conn) result }
        ensures survives { Survives (state S.Store self.old.conn) (state S.Store self.new.conn)
            (CommitsShowing archives_text [] (state S.Store self.old.conn)) }
        ensures safe { HasCleanDisk (state S.Store self.new.conn)
            → ReadsSafely (state S.Store self.old.conn) (state S.Store self.new.conn) }
        ensures space { self.new.space ≡ self.old.space }
        ensures log { self.new.log ≡ self.old.log }
    {
        archives_of(self.alloc, &mut self.conn)
    }
}

// An archive of so many bytes is gone, if there was one.
fn without(space: &mut Space, gone: Result<Option<u64>, RecordFault>) -> Result<(), RecordFault>
    ensures answer { result ≡ done_of gone }
    ensures space { space.new ≡ space_without space.old gone }
{
    match gone {
        Ok(had) => {
            space.counted = total_without(space.counted, had);
            Ok(())
        }
        Err(fault) => Err(fault),
    }
}

// The bytes of all archives, without those of one that went.
fn total_without(counted: Option<u128>, had: Option<u64>) -> Option<u128>
    ensures { result ≡ total_without counted had }
{
    let total = counted?;
    Some(total.saturating_sub(u128::from(had.unwrap_or(0))))
}

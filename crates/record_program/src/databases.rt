//! Databases by the names of their files.
ghost use Rattle.std.specs.Prelude.{◌≡◌, ℕ, false, List, IfOk};
ghost use Rattle.sqlite_wal.specs.Files.{image_at};
ghost use Rattle.sqlite.specs.Files.{file_state};
ghost use Rattle.sqlite.specs.Start.{FindsIn};
ghost use Rattle.sqlite.specs.State.{HasCleanDisk, IsLive, Opens, State};

use crate::copying::{CopiedFiles, copied};
use crate::look::looked;
use job_record::RecordFault;
use sqlite::{Connection, Error, ErrorCode, File, FileStore, Leftover, Start, Unknown};
use sqlite_disk::Disk;

/// A runtime that opens databases by the names of their files.
pub trait Databases {
    /// What a database is kept on: two files, its own and its log.
    type Medium: Disk + Drop;

    /// A database was opened of the file of this name, and this is what it showed then.
    ghost opens: { Self → List ℕ → State → Type 0 };

    /// Opens the database of a file, or makes an empty one where the file is absent or has no byte.
    fn open_database(
        &self,
        file: &str,
    ) -> Result<Connection<FileStore<Self::Medium>>, (Error, Option<Leftover<Self::Medium>>)>
        ensures opened { IfOk result (λ conn. opens self.now file.now (file_state conn)) }
        ensures settled { IfOk result (λ conn. conn.in_transaction ≡ false) };

    /// Opens a copy of what the database of a file holds now. What is changed in it goes with it.
    fn open_copy(&self, file: &str) -> Result<Connection<FileStore<Self::Medium>>, RecordFault>
        ensures opened { IfOk result (λ conn. opens self.now file.now (file_state conn)) }
        ensures settled { IfOk result (λ conn. conn.in_transaction ≡ false) };
}

// This is the one place that opens a file, by the name that is given, or a copy of it. No clause of `open_from` has that name.
impl Databases for HostRuntime {
    type Medium = File;

    ghost opens = { λ _ _ s. HasCleanDisk s → (Opens s × IsLive s) × FindsIn (image_at ⟦<Unknown as Start>⟧) s };

    fn open_database(
        &self,
        file: &str,
    ) -> Result<Connection<FileStore<File>>, (Error, Option<Leftover<File>>)> {
        Connection::open_from(self, file, false, Unknown)
    }

    fn open_copy(&self, file: &str) -> Result<Connection<FileStore<File>>, RecordFault> {
        match copied(self, file) {
            Ok(copy) => {
                let opened = opened_copy(self, &copy);
                copy.remove(self);
                opened
            }
            Err(_) => Err(RecordFault::Store(Error::SqliteFailure(ErrorCode::CannotOpen))),
        }
    }
}

fn opened_copy(
    rt: &HostRuntime,
    copy: &CopiedFiles,
) -> Result<Connection<FileStore<File>>, RecordFault>
    ensures found { IfOk result (λ conn. HasCleanDisk (file_state conn) → (Opens (file_state conn)
        × IsLive (file_state conn)) × FindsIn (image_at ⟦<Unknown as Start>⟧) (file_state conn)) }
    ensures settled { IfOk result (λ conn. conn.in_transaction ≡ false) }
{
    let look = looked(rt, copy.file())?;
    if look.is_empty() {
        return Err(RecordFault::NotARecord);
    }
    match Connection::open_from(rt, copy.file(), false, Unknown) {
        Ok(conn) => Ok(conn),
        Err((error, _)) => Err(RecordFault::Store(error)),
    }
}

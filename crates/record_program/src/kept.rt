//! The record of a file of the real runtime, and what is left of it.
ghost use Rattle.std.specs.Prelude.{◌≡◌};
ghost use Rattle.sqlite.specs.Files.{file_state};
ghost use Rattle.sqlite.specs.State.{HasCleanDisk};
ghost use Rattle.job_record.specs.Rows.{HoldsWithin};

use job_record::JobRecord;
use job_rows::{Record, RecordError, Row};
use plain_data::{Items, Text};
use sqlite::{Connection, File, FileStore, Files};

/// The record of a file. It is a type with no parameter, so that a caller does not prove again what each of its parts is.
pub struct FileRecord {
    pub(crate) rows: JobRecord<FileStore<File>>,
}

impl FileRecord {
    /// The database that holds it.
    pub(crate) fn into_connection(self) -> Connection<FileStore<File>>
        ensures { result ≡ self.rows.conn }
    {
        let FileRecord { rows } = self;
        rows.into_connection()
    }
}

impl Drop for FileRecord {
    fn drop(self) {
        let FileRecord { rows: _ } = self;
    }
}

impl Record for FileRecord {
    ghost log = { λ kept. kept.rows.log.items };

    ghost is_sound = { λ kept. HasCleanDisk (file_state kept.rows.conn) };

    ghost holds = { λ kept map. HoldsWithin (file_state kept.rows.conn) kept.rows.space map };

    fn find(&mut self, key: &Text) -> Result<Option<Row>, RecordError> {
        Record::find(&mut self.rows, key)
    }

    fn put(&mut self, row: &Row) -> Result<Items<Text>, RecordError> {
        Record::put(&mut self.rows, row)
    }

    fn touch(&mut self, key: &Text) -> Result<(), RecordError> {
        Record::touch(&mut self.rows, key)
    }

    fn drop_archive(&mut self, key: &Text) -> Result<(), RecordError> {
        Record::drop_archive(&mut self.rows, key)
    }
}

/// What is left of the record of a file once it was closed: its two files, or the store if that could not be closed.
pub struct FileLeft {
    pub(crate) left: Result<Files<File>, FileStore<File>>,
}

impl Drop for FileLeft {
    fn drop(self) {
        let FileLeft { left: _ } = self;
    }
}

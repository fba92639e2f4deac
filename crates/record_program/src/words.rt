//! Why a record is refused, in words.

use job_record::RecordFault;
use sqlite::{Error, ErrorCode};
use std::alloc::{AllocError, Global};

/// Returns words on a fault: what a user has to know of it, and of the store's own causes their words.
pub fn fault_words(alloc: Global, fault: RecordFault) -> Result<String, AllocError> {
    match fault {
        RecordFault::NotARecord => String::from_str(
            alloc,
            "this is no record of jobs, or one of its rows can't be read: a record is a database with the tables meta, job and archive, pages of 4096 bytes, texts in UTF-8, no auto_vacuum and 64 GiB at most",
        ),
        RecordFault::WrongVersion => String::from_str(
            alloc,
            "this record has another version than 1 and 2, which are read here",
        ),
        RecordFault::NoRow => String::from_str(alloc, "no row has this key"),
        RecordFault::Store(error) => store_words(alloc, error),
        RecordFault::UsesSpent => {
            String::from_str(alloc, "no number is left for the next use of an archive")
        }
        RecordFault::OutOfMemory => String::from_str(alloc, "out of memory"),
    }
}

fn store_words(alloc: Global, error: Error) -> Result<String, AllocError> {
    match error {
        Error::SqliteFailure(ErrorCode::DatabaseBusy) => {
            String::from_str(alloc, "another run holds the record")
        }
        Error::SqliteFailure(ErrorCode::CannotOpen) => String::from_str(
            alloc,
            "the file can't be opened to be read and written, or can't be made",
        ),
        Error::SqliteFailure(ErrorCode::NotADatabase | ErrorCode::DatabaseCorrupt) => {
            String::from_str(
                alloc,
                "this is no database of SQLite, or one that is damaged or has virtual tables (as of FTS), and so no record",
            )
        }
        error => format!(in alloc; "{error}"),
    }
}

//! The record of jobs: for each key one row, with the outputs of the job, its files, its cost and whether an archive
//! of its files is kept. It lasts in a SQLite database.
//!
//! `JobRecord` is a finite map from key to row, with the archives that are kept, by their last use. `find` looks a key up,
//! `put` sets the whole row of a key, and lets the archives go that a budget has no room for, oldest use first. `touch` notes
//! a use, `drop_archive` says that an archive is gone, `forget` takes the row out, and `list` gives all rows by key. A query
//! is one SQL statement, and its contract is that statement's meaning with the command's arguments; a command that changes
//! the map is one transaction (`specs/Map.antt`). A refused command changes nothing, and one that was answered done outlives
//! a crash (`specs/Crash.antt`). The record keeps a log: each command adds one entry. A run asks it as a `Record` of `job_rows`
//! (`specs/Rows.antt`).
#![tactic(auto)]

mod archives;
mod changes;
mod commands;
mod fault;
mod inside;
mod laws;
mod making;
mod migrating;
mod record;
mod rows;
mod showing;
mod tables;
mod texts;

pub use fault::RecordFault;
pub use laws::{see_record, see_rows, see_statements, see_tables};
pub use record::JobRecord;
pub use showing::{archives_of, look, rows_of};

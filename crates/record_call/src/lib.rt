//! The command `record`, on the file of a record or on the folder of a cache: its rows, rows forgotten, archives trimmed, folders checked.
//!
//! `exit_of_record` is all of it, and `IsRecordExit` (`specs/RecordEnds.antt`) its contract.
#![tactic(auto)]

mod checked;
mod forgetting;
mod listed;
mod record_exit;

pub use record_exit::exit_of_record;

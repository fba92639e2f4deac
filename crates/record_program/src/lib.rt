//! Shows the record of jobs that a file holds, and forgets rows of it: all of `deparohi record` but its words. And opens
//! that record for a run.
//!
//! `Records` is what the program asks: how the command ends on a file, and the record of a file for a run. `main_run` is the command
//! over two writers. It opens the file, forgets the rows whose key has a given SHA-1, and prints a line for each row that is left.
//! `ended` says from the rows alone what is printed (`specs/Lines.antt`), and `keys_with` which keys have the sum. A file
//! that holds no record is refused and left as it is: the command makes nothing of it. For a run a record is made if there is none.
//! Before the store opens a file, `look` reads the first bytes of it and of its log, and `head_of` says what they are
//! (`specs/Head.antt`); before a row is read, `tables` looks whether both tables are tables.
#![tactic(auto)]

mod checking;
mod closing;
mod copying;
mod databases;
mod ending;
mod file;
mod head;
mod held;
mod kept;
mod keys;
mod laws;
mod lines;
mod listing;
mod look;
mod store;
mod tables;
mod trimming;
mod words;

pub use checking::{Difference, compared};
pub use closing::{forgotten_for_good, trimmed_for_good};
pub use copying::is_unwritable;
pub use databases::Databases;
pub use ending::{Ending, unclosed};
pub use file::{Records, main_run};
pub use head::{Head, LogHead, head_of, is_bare_log, is_too_long, log_of, refusal_of};
pub use kept::{FileLeft, FileRecord};
pub use keys::keys_with;
pub use laws::unknown_spares_archives;
pub use lines::{facts_of, rows_text, sum_of_key};
pub use listing::{Listing, listed};
pub use store::{ended, forgotten, shown};
pub use trimming::{lost_keys, trimmed};
pub use words::fault_words;

//! The rows of a record of jobs, and the commands on it, without the store that keeps them.
//!
//! A `Row` is what a record holds of one job. `Record` is what a run asks of one: a finite map from key to row, with the
//! archives that it keeps (`specs/Map.antt`), and a log of what was asked. `MemoryRecord` is one that is kept in memory alone.
//! Laws: `outputs_read_back`, outputs that a record keeps are read back as they were; `archives_stay_in_step`, a row is
//! archived where its key has an archive; `budget_is_kept`, the archives stay within the budget, and the oldest go first.
#![tactic(auto)]

mod archive;
mod archives;
mod laws;
mod log;
mod memory;
mod record;
mod refusal;
mod row;

pub use archive::Archive;
pub use archives::lost_count;
pub use laws::{archives_stay_in_step, budget_is_kept, outputs_read_back};
pub use log::{Command, Entry};
pub use memory::MemoryRecord;
pub use record::Record;
pub use refusal::{RecordError, RecordRefusal};
pub use row::Row;

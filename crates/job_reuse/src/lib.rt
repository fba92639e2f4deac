//! What a run decides by a record of earlier jobs: pure functions over rows, outputs and files.
//!
//! - `row_is_sound` tells exactly whether a row that was found is one of its tool, with files that its outputs name.
//! - `differs` tells exactly whether a job's outputs differ from its row's, names of files included.
//! - `files_agree` tells exactly whether files that were fetched are a row's, all and no others.
//! - `row_of` gives the row that is put of a job, and `file_bytes` how many bytes there are to load.
//! - The laws say that outputs that were collected are such as a record keeps and gives back, and that a row made of them is sound and
//!   does not differ from them.
#![tactic(auto)]

mod bytes;
mod fetched;
mod form;
mod index;
mod laws;
mod row;
mod same;
mod sound;
mod stands;

pub use bytes::file_bytes;
pub use fetched::files_agree;
pub use form::in_form;
pub use laws::{
    collected_outputs_are_kept, fetched_files_stand_in, files_are_the_same_or_not,
    outputs_are_the_same_or_not, outputs_differ_in_values_or_names, rows_are_sound_or_not,
    rows_of_jobs_are_sound,
};
pub use row::row_of;
pub use same::differs;
pub use sound::row_is_sound;

//! What a call of the program is given: the process of a document, its inputs, the folders, and the record's file; or why there is none.
//!
//! `given_of` reads what the words name, with all that the document leads to, and `ready_of` looks first whether they name one record
//! (`specs/Named.antt`); `Stop` is why there is nothing to run (`specs/Stops.antt`). `places_of` names the folders, and `record_of`,
//! `archive_of` and `is_twofold` say which record and archive a call has (`specs/Caches.antt`). `run`, `plan` and what is shown in place of a
//! run share them. `bytes_of_file` reads 64 MiB at most, or says why not.
//!
//! The rest sees to folders before anything is run: the work folder with its mark, the output folder, and the files that no result replaces.
#![tactic(auto)]

mod caches;
mod documents;
mod given;
mod held;
mod inputs;
mod named;
mod outdir;
mod paths;
mod reading;
mod search;
mod standard_input;
mod stop;
mod work_folder;

pub use caches::{
    FILES, RECORD, is_twofold, keeps_archive, make_cache, record_of, remembers, within,
};
pub use documents::accepted_of;
pub use given::{Call, Given, Places, given_of, ready_of};
pub use held::held_by;
pub use inputs::inputs_at;
pub use named::{here_of, places_of, without_folder, without_record};
pub use outdir::{outdir_for, without_outdir};
pub use paths::{base_of, from_root};
pub use reading::{NoBytes, bytes_of_file, bytes_of_input};
pub use search::{Reached, path_at, reached_from};
pub use standard_input::{bytes_of, file_of};
pub use stop::{Stop, stopped, unread};
pub use work_folder::{leave, make_work, without_work};

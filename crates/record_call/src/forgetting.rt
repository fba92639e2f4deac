//! The files of rows that are forgotten, and of archives that went.

use plain_data::Text;
use process_machine::{World, remove_folder};
use program_words::RecordWords;
use record_program::{Ending, sum_of_key};
use run_given::{FILES, within};
use std::alloc::AllocError;
use std::fs;

/// Removes the files that a cache keeps under the keys whose rows were forgotten, and what stores of them left. What can't be removed
/// stays: no row leads to it.
pub fn remove_forgotten<R: World>(
    rt: &R,
    words: &RecordWords,
    ending: &Ending,
) -> Result<(), AllocError> {
    // A sum that rows were forgotten by is 40 digits, so it names an entry of the folder.
    match (ending, words.forget) {
        (Ending::Rows(_), Some(sum)) if is_folder(rt, words.file) => {
            remove_kept(rt, words.file, sum)
        }
        _ => Ok(()),
    }
}

/// Removes the files that a cache keeps under these keys, whose archives went, and what stores of them left. What can't be removed stays.
pub fn remove_lost<R: World>(rt: &R, cache: &str, lost: &[Text]) -> Result<(), AllocError> {
    for key in lost {
        let sum = sum_of_key(rt.alloc(), key.as_str())?;
        remove_kept(rt, cache, sum.as_str())?;
    }
    Ok(())
}

fn is_folder<R: World>(rt: &R, name: &str) -> bool {
    match fs::metadata(rt, name) {
        Ok(metadata) => metadata.is_dir(),
        Err(_) => false,
    }
}

fn remove_kept<R: World>(rt: &R, cache: &str, sum: &str) -> Result<(), AllocError> {
    let files = within(rt.alloc(), cache, FILES)?;
    let kept = within(rt.alloc(), files.as_str(), sum)?;
    let _removed = remove_folder(rt, kept.as_str());
    let stores = format!(in rt.alloc(); "{files}/.{sum}")?;
    let _removed = remove_folder(rt, stores.as_str());
    Ok(())
}

//! The command `record`: on a file, or on the folder of a cache.
ghost use Rattle.std.specs.Prelude.{IfOk, IfSome};
ghost use Rattle.program_words.specs.RecordForm.{IsForm};
ghost use Rattle.program_words.specs.RecordWords.{wish_of_record};
ghost use Rattle.program_words.specs.declared.record_form.RecordForm.TheVariants as forms;
ghost use Rattle.record_call.specs.Listed.{IsLongOn};
ghost use Rattle.record_call.specs.RecordEnds.{IsCheckOf, IsNoCache, IsRecordExit, IsRecordFile, IsTrim};

use crate::checked::checked;
use crate::forgetting::{remove_forgotten, remove_lost};
use crate::listed::long_ending;
use end_words::{Exit, Fault};
use plain_data::Text;
use process_machine::World;
use program_words::{RecordForm, RecordWords, form_of};
use record_program::{Ending, Records};
use run_given::{RECORD, within};
use std::alloc::AllocError;
use std::{fs, io, mem};

/// Does with a record what the words ask for.
#[tactic(auto, using(crate::specs::RecordEnds::misused))]
pub fn exit_of_record<R: World + Records>(rt: &R, words: &RecordWords) -> Result<Exit, AllocError>
    ensures { IfOk result (IsRecordExit R.Records R.Kept.Record rt.now (wish_of_record words.now)) }
{
    match form_of(words) {
        RecordForm::Rows => exit_of_rows(rt, words),
        RecordForm::Long => exit_of_list(rt, words),
        RecordForm::Trim(budget) => exit_of_trim(rt, words.file, budget),
        RecordForm::Check(remove) => exit_of_check(rt, words.file, remove),
        RecordForm::Misused => Ok(Exit::Fault(Fault::RecordWords)),
    }
}

#[tactic(auto, using(crate::specs::RecordEnds::shows))]
fn exit_of_rows<R: World + Records>(rt: &R, words: &RecordWords) -> Result<Exit, AllocError>
    requires { IsForm (wish_of_record words.now) forms.Rows }
    ensures { IfOk result (IsRecordExit R.Records R.Kept.Record rt.now (wish_of_record words.now)) }
{
    let file = record_at(rt, words.file)?;
    let ending = rt.record_ending(file.as_str(), words.forget);
    mem::drop(file);
    let _removed = remove_forgotten(rt, words, &ending);
    Ok(Exit::Record(ending))
}

#[tactic(auto, using(crate::specs::RecordEnds::lists))]
fn exit_of_list<R: World + Records>(rt: &R, words: &RecordWords) -> Result<Exit, AllocError>
    requires { IsForm (wish_of_record words.now) forms.Long }
    ensures { IfOk result (IsRecordExit R.Records R.Kept.Record rt.now (wish_of_record words.now)) }
{
    let file = record_at(rt, words.file)?;
    Ok(Exit::Record(listed(rt, file.as_str())?))
}

#[tactic(auto, using(crate::specs::Listed::lists, crate::specs::Listed::unlisted))]
fn listed<R: World + Records>(rt: &R, file: &str) -> Result<Ending, AllocError>
    ensures { IfOk result (IsLongOn R.Records rt.now file.now) }
{
    match rt.see_rows(file) {
        Ok(listing) => long_ending(rt.alloc(), &listing),
        Err(ending) => Ok(ending),
    }
}

#[tactic(auto, using(crate::specs::RecordEnds::untrimmed))]
fn exit_of_trim<R: World + Records>(rt: &R, cache: &str, budget: u64) -> Result<Exit, AllocError>
    ensures { IfOk result (IsTrim R.Records R.Kept.Record rt.now cache.now budget) }
{
    match no_cache(rt, cache)? {
        Some(exit) => Ok(exit),
        None => trimmed(rt, cache, budget),
    }
}

#[tactic(auto, using(crate::specs::RecordEnds::trims))]
fn trimmed<R: World + Records>(rt: &R, cache: &str, budget: u64) -> Result<Exit, AllocError>
    ensures { IfOk result (IsTrim R.Records R.Kept.Record rt.now cache.now budget) }
{
    let file = within(rt.alloc(), cache, RECORD)?;
    let (ending, lost) = rt.trim_record(file.as_str(), budget);
    mem::drop(file);
    let _removed = remove_lost(rt, cache, lost.as_slice());
    mem::drop(lost);
    Ok(Exit::Record(ending))
}

#[tactic(auto, using(crate::specs::RecordEnds::unchecked, crate::specs::RecordEnds::checks))]
fn exit_of_check<R: World + Records>(rt: &R, cache: &str, remove: bool) -> Result<Exit, AllocError>
    ensures { IfOk result (IsCheckOf R.Records R.Kept.Record rt.now cache.now remove) }
{
    match no_cache(rt, cache)? {
        Some(exit) => Ok(exit),
        None => Ok(Exit::Record(checked(rt, cache, remove)?)),
    }
}

// Why a name is no cache's, if it is none. A file alone does not say which folder has the files.
#[tactic(auto, using(crate::specs::RecordEnds::absent, crate::specs::RecordEnds::no_folder))]
fn no_cache<R: World>(rt: &R, cache: &str) -> Result<Option<Exit>, AllocError>
    ensures { IfOk result (λ exit. IfSome exit IsNoCache) }
{
    match fs::metadata(rt, cache) {
        Ok(metadata) if metadata.is_dir() => Ok(None),
        Ok(_) => Ok(Some(Exit::Fault(Fault::RecordWords))),
        Err(error) if error.kind() == io::ErrorKind::OutOfMemory => Err(AllocError),
        Err(_) => Ok(Some(Exit::Record(Ending::Input))),
    }
}

/// The file of the record that is named: of a folder, that of the cache which it is.
fn record_at<R: World>(rt: &R, name: &str) -> Result<Text, AllocError>
    ensures { IfOk result (IsRecordFile name.now) }
{
    match fs::metadata(rt, name) {
        Ok(metadata) if metadata.is_dir() => within(rt.alloc(), name, RECORD),
        _ => Text::from_text(rt.alloc(), name),
    }
}

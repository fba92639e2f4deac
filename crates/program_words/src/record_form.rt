//! What `record` is asked to do.
ghost use Rattle.std.specs.Prelude.{◌≡◌, is_some, option_map};
ghost use Rattle.program_words.specs.RecordForm as spec;
ghost use Rattle.program_words.specs.RecordWords.{wish_of_record};

use crate::record_words::{RecordWords, trim_of};

/// What `record` is asked to do.
#[derive(Clone, Copy, Debug, PartialEq, Eq)]
pub enum RecordForm {
    /// To show the rows, of which some may be forgotten first.
    Rows,
    /// To show the rows with what they are of.
    Long,
    /// To let files of a cache go until it has at most so many bytes of them.
    Trim(u64),
    /// To say how a cache's files and its record differ, and whether to remove the folders that no row knows.
    Check(bool),
    /// Nothing: the words can't be used with one another.
    Misused,
}

/// What the words of `record` ask for.
pub fn form_of(words: &RecordWords) -> RecordForm
    ensures { spec.IsForm (wish_of_record words.now) result }
{
    chosen(
        is_named(words.forget),
        trim_of(words),
        words.long,
        words.check,
        words.remove,
    )
}

fn is_named(word: Option<&str>) -> bool
    ensures { result ≡ is_some (option_map (λ s. s.now) word.entry) }
{
    match word {
        None => false,
        Some(_) => true,
    }
}

fn chosen(forgets: bool, budget: Option<u64>, long: bool, check: bool, remove: bool) -> RecordForm
    ensures { result ≡ spec.form_of forgets budget long check remove }
{
    match (forgets, budget, long, check, remove) {
        (_, None, false, false, false) => RecordForm::Rows,
        (false, None, true, false, false) => RecordForm::Long,
        (false, Some(budget), false, false, false) => RecordForm::Trim(budget),
        (false, None, false, true, remove) => RecordForm::Check(remove),
        _ => RecordForm::Misused,
    }
}

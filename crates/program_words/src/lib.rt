//! The words that the program takes, and those in which it speaks of jobs and commands; nothing here knows a run.
//!
//! - `choice_of` gives what words ask for, exactly as `clap` reads them by the rules of `specs/CommandLine.antt`, or a kind by which they may
//!   be refused.
//! - `add_terminal_words` adds what a terminal asks for unasked, and `name_json_word` names the option that `--progress=json` stands for.
//! - `line_of` writes a command as a shell takes it, each word once and as that word alone (`text_is_one_word`, `line_is_one_command`).
//! - `Teller` writes the lines of `--verbose`, `--progress` and `--progress=json`, each only if it is asked for; `reason_for` says why a job
//!   is computed.
//! - `savings_line` says what became of the jobs of a run, how long it took, and what it saved.
//! - `near_words` says how a job differs from the nearest one that is recorded.
//! - `key_words` says what a row of a record is of, and `check_lines` in what a cache's files and its record differ.
//! - `visible` shows foreign text with a code for what a terminal would hide.
#![tactic(auto)]

mod check_told;
mod command;
mod flags;
mod json_word;
mod key_shown;
mod launcher;
mod laws;
mod near_told;
mod objects;
mod planning;
mod progress;
mod record_form;
mod record_words;
mod reuse;
mod run_words;
mod savings;
mod shell_words;
mod shown;
mod shows;
mod telling;
mod terminal;
mod version;

pub use check_told::{CheckNames, check_lines};
pub use command::{Choice, choice_of};
pub use json_word::name_json_word;
pub use key_shown::key_words;
pub use launcher::launcher_of;
pub use laws::{line_is_one_command, text_is_one_word};
pub use near_told::near_words;
pub use planning::PlanWords;
pub use progress::{Counts, Longest};
pub use record_form::{RecordForm, form_of};
pub use record_words::RecordWords;
pub use reuse::{Recalled, Why, reason_for};
pub use run_words::{RunWords, budget_of, load_base_of, load_rate_of, retries_of, slots_of};
pub use savings::{Savings, savings_line};
pub use shell_words::{add_word, line_of};
pub use shown::{cut, visible, visible_text};
pub use shows::Shows;
pub use telling::{Listen, Silent, Teller, Telling, ending};
pub use terminal::{add_explain_word, add_terminal_words};
pub use version::VERSION;

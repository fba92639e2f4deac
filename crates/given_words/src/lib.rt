//! What is made of the words of a command line before they are read.
//!
//! - `with_slots` puts the number of processors if words ask for all of them, and changes nothing else.
//! - `with_budget` puts a plain number in the place of one with a suffix behind `--budget`, and changes nothing else.
//! - `with_preference` puts the cheapest loads in the place of `--prefer-kept`, and changes nothing else.
//! - `processors_in` counts processors in what the kernel lists, from 1 to `MOST_SLOTS` (`specs/Processors.antt`).
//! - `answer_to` has what does the same here as an option of another runner (`specs/Others.antt`).
#![tactic(auto)]

mod budget;
mod other_words;
mod preference;
mod processors;
mod slots;

pub use budget::with_budget;
pub use other_words::{answer_to, option_in};
pub use preference::with_preference;
pub use processors::{MOST_SLOTS, processors_in};
pub use slots::with_slots;

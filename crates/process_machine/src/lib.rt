//! Real processes and real files, as a `Host`.
//!
//! A `Machine` measures files, lays out the folders of jobs, starts children, collects their ends, lists folders, reads
//! the first bytes of files, archives what jobs left, fetches what was archived, and delivers outputs.
//! It meets every clause of `Host`, as its contracts say. A child gets exactly the words of its launch, behind
//! those of a launcher, and its environment and its folder (`command_of`). What the calls do to files and processes no contract can say: the rows of
//! `test_hosts` show it.
#![tactic(auto)]

mod advising;
mod archive;
mod calls;
mod clearing;
mod collecting;
mod copying;
mod cut_off;
mod delivering;
mod discarding;
mod entries;
mod fetching;
mod heads;
mod heard;
mod hearing;
mod identity;
mod layout;
mod listing;
mod machine;
mod making;
mod measuring;
mod messages;
mod missed;
mod noting;
mod past;
mod removing;
mod spawning;
mod storing;
mod summing;
mod tree;
mod trouble;
mod trusting;
mod unlisted;
mod world;

pub use advising::{Advise, Unadvised};
pub use heard::Heard;
pub use hearing::{Deaf, Hear};
pub use machine::Machine;
pub use messages::{last_lines, messages_file, shown_line};
pub use missed::Undelivered;
pub use removing::remove_folder;
pub use trouble::Hindrance;
pub use unlisted::{Obstacle, Unlisted};
pub use world::World;

//! What a run or a plan is set up with by the words: the machine that it works on, its options, and what it asks of earlier runs.
//!
//! `machine_of` makes a machine in the places that are named, and `guarded_machine` one that replaces no file which the run reads or holds
//! (`specs/Held.antt` of `run_given`) and starts each command by the launcher. `options_of` is what the words let a run use (`IsAsked` there).
#![tactic(auto)]

mod machine;

pub use machine::{guarded_machine, machine_of, memory_of, options_of};

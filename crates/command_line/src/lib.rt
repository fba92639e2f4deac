//! From a tool and its inputs to what has to be started (CWL v1.2, Command Line Tool).
//!
//! `build` gives the launch of a tool: the words of its base command and then those of its bindings, of arguments and
//! inputs, whose keys strictly rise; the whole environment; the files of the three streams; the folder to run in. What these
//! are is said in `specs/`, from `Added.antt` to `Launch.antt`, without the sort that the code does. An `Ok` is the launch
//! that they say, and a tool has one at most; a refusal comes only where its cause holds, and then there is no launch
//! (`laws.rt`). Being out of memory is the one exception.
#![tactic(auto)]

mod added;
mod builder;
mod environment;
mod fault;
mod launch;
mod laws;
mod order;
mod runtime;
mod streams;
mod texts;
mod words;

pub use builder::build;
pub use fault::{BuildError, BuildFault, LaunchText};
pub use launch::{Launch, Variable};
pub use laws::{
    every_tool_has_a_launch_or_is_refused, launch_excludes_refusal, launch_is_settled,
    words_are_settled,
};
pub use runtime::Runtime;

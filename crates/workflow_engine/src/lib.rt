//! Runs a process on a host: the one loop between the machine that asks and the world that answers.
//!
//! `run` asks the host what a `RunCore` asks, until it asks nothing more. So what the host's log gained is a run
//! of the process, without the places of its jobs, and what is answered is what that run comes to
//! (`run_core`'s `GainsRun`): its end, and where the run is honest in a world, the value of the process there.
//! Where the answer is the host's fault, the host's failures rose by this very fault. For every answer, no child
//! runs on under a ticket of the run. A `Watch` is told of each question and answer, and decides nothing.
#![tactic(auto)]

mod ask;
mod ask_next;
mod ask_record;
mod drive;
mod laws;
mod looks;
mod plan;
mod planned;
mod tickets;
mod watch;

pub use drive::run;
pub use laws::runs_begin_with_the_first_plan;
pub use plan::plan_only;
pub use planned::{PlanFault, Planned};
pub use watch::{Unwatched, Watch};

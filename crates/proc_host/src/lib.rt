//! The world as a run meets it: which calls there are, and how each can be answered.
//!
//! A `Host` measures files, stages them, starts children, collects their ends, scans folders, reads the first bytes of
//! files, archives what jobs left, fetches and discards it, and delivers outputs. It keeps a log: each call adds exactly one entry, of what was asked and what was answered, or none where it ran out of
//! memory, and the log never shrinks. A call fails only by its own fault, and the log has the fault. It
//! also keeps the tickets of the children that run: a start adds a fresh one, numbered from 1 by the starts that
//! the log tells of, `close` alone takes one out, and a collect answers one of them. `classify` says what an exit
//! code means for a tool.
//!
//! `Scripted` is a host that answers from a list, and its contracts say what it answers.
#![tactic(auto)]

mod call;
mod child;
mod host;
mod laws;
mod noting;
mod reply;
mod scripted;

pub use call::{
    Entry, HostAnswer, HostError, HostFault, HostRequest, fetch_request, store_request,
};
pub use child::{ChildEnd, ExitClass, Ticket, classify};
pub use host::Host;
pub use laws::{closing_undoes_starting, failures_count_faults};
pub use reply::Reply;
pub use scripted::Scripted;

//! Level graphs and blocking flows in a network of arcs.
//!
//! A `Network` has nodes and arcs, each beside its reverse. `Levels` counts, for each node, the fewest open arcs that
//! lead there from the source. `Blocking` sends what flows down such levels, until no way down them is left. `send_all`
//! does both in turn, until no open arcs lead from the source to the sink at all.
#![tactic(auto)]

mod blocking;
mod fill;
mod levels;
mod network;
mod phases;

pub use blocking::Blocking;
pub use fill::send_all;
pub use levels::Levels;
pub use network::{Arc, Network, reverse};
pub use phases::Phases;

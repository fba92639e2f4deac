use crate::ChildEnd;
use plain_data::Items;
use staging::{Found, Measure};

/// What a script says next: the call that it answers, and its answer.
#[derive(Drop)]
pub enum Reply {
    Measure(Measure),
    Stage,
    Start,
    Collect(ChildEnd),
    Scan(Items<Found>),
    Head(Items<u8>),
    Fetch(Items<Found>),
    Store,
    Deliver,
    Discard,
}

//! What a launcher is told beside the command that it is to start.

use command_line::{Launch, Variable};
use plain_data::Items;
use std::alloc::{AllocError, Global};

/// Says what the launcher of a machine is told of each launch.
pub trait Advise {
    /// Returns variables that the launcher alone finds in its environment: the command behind it does not see them. One that the launch
    /// sets itself is left out, so the launch's own stands. A name is not empty and has no `=`. Without a launcher nobody is told.
    fn advice(&mut self, alloc: Global, launch: &Launch) -> Result<Items<Variable>, AllocError>;
}

/// Says nothing.
#[derive(Clone, Copy, Debug)]
pub struct Unadvised;

impl Advise for Unadvised {
    fn advice(&mut self, alloc: Global, _launch: &Launch) -> Result<Items<Variable>, AllocError> {
        Ok(Items::new(alloc))
    }
}

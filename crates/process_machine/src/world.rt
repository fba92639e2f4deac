use std::process::Processes;
use std::rt::{Clock, Files};

/// What a machine takes of its runtime: memory, files, children and the clock.
pub trait World: AllocGlobal + Files + Processes + Clock + Clone + Drop {}

impl<R: AllocGlobal + Files + Processes + Clock + Clone + Drop> World for R {}

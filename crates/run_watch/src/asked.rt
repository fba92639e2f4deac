//! What the launchers of jobs are told.

use command_line::{Launch, Variable};
use cwl_value::JobPlace;
use plain_data::{Items, Keyed};
use process_machine::Advise;
use resource_hints::{Resources, variables_for};
use std::alloc::{AllocError, Global};
use std::cell::RefCell;
use std::mem;

/// What is told of the command that is started next, between who hears of its job and who tells its launcher.
#[derive(Drop)]
pub struct Asked<'a> {
    alloc: Global,
    hints: &'a Keyed<Resources>,
    next: RefCell<Result<Items<Variable>, AllocError>>,
}

impl<'a> Asked<'a> {
    /// Nothing is told yet. The hints are those of the documents of a run.
    pub fn new(alloc: Global, hints: &'a Keyed<Resources>) -> Asked<'a> {
        Asked {
            alloc,
            hints,
            next: RefCell::new(Ok(Items::new(alloc))),
        }
    }

    fn put(&self, variables: Result<Items<Variable>, AllocError>) {
        if let Ok(mut next) = self.next.try_borrow_mut() {
            mem::drop(mem::replace(&mut *next, variables));
        }
    }

    fn take(&self) -> Result<Items<Variable>, AllocError> {
        match self.next.try_borrow_mut() {
            Ok(mut next) => mem::replace(&mut *next, Ok(Items::new(self.alloc))),
            Err(_) => Ok(Items::new(self.alloc)),
        }
    }
}

/// One of those who share what is asked: who hears of the jobs, and who tells their launchers.
#[derive(Clone, Copy, Drop)]
pub struct Adviser<'b, 'a> {
    asked: &'b Asked<'a>,
}

impl<'b, 'a> Adviser<'b, 'a> {
    pub fn new(asked: &'b Asked<'a>) -> Adviser<'b, 'a> {
        Adviser { asked }
    }

    /// Takes note of the job whose command is started next.
    pub fn note(&self, place: &JobPlace) {
        let asked = self.asked;
        asked.put(variables_for(asked.alloc, asked.hints, place));
    }
}

impl Advise for Adviser<'_, '_> {
    fn advice(&mut self, _alloc: Global, _launch: &Launch) -> Result<Items<Variable>, AllocError> {
        self.asked.take()
    }
}

//! A machine whose children are heard, and whose launcher is told of each launch.
ghost use Rattle.std.specs.Prelude.{◌≡◌};

use crate::advising::Advise;
use crate::hearing::Hear;
use crate::machine::Machine;
use crate::world::World;
use command_line::Launch;
use plain_data::{Items, Text};
use proc_host::{ChildEnd, Host, HostError, Ticket};
use staging::{Found, Measure, StagePlan};
use std::marker::Model;
use std::mem;
use std::process::Stdio;

/// A machine, who hears what its children write to standard error, and who says what its launcher is told.
///
/// After `show_messages` each whole line is handed on while the machine waits for a child, and what is left without a line feed at the
/// end of its child. A file that the launch names for standard error is not heard.
#[derive(Drop)]
pub struct Heard<R: World, H: Hear, A: Advise> {
    machine: Machine<R>,
    hearer: H,
    adviser: A,
}

impl<R: World, H: Hear, A: Advise> Model for Heard<R, H, A> {
    ghost use Rattle.process_machine.specs.Machine.{MachineState};
    ghost use Rattle.cwl_value.specs.contracts.value.Value as value;
    ghost use Rattle.std.specs.Coded.{codes};

    ghost Value = { MachineState };

    ghost coded = { Prim.hlevel (codes, value.the_row.coded) };

    ghost view = { λ fields. fields.machine };
}

impl<R: World, H: Hear, A: Advise> Heard<R, H, A> {
    pub fn new(machine: Machine<R>, hearer: H, adviser: A) -> Heard<R, H, A>
        ensures { result ≡ machine }
    {
        Heard {
            machine,
            hearer,
            adviser,
        }
    }

    pub fn machine(&self) -> &Machine<R>
        ensures { result.now ≡ self.now }
    {
        &self.machine
    }
}

impl<R: World, H: Hear, A: Advise> Host for Heard<R, H, A>
where
    R::File: Into<Stdio>,
{
    ghost log = { λ state. state.log };

    ghost running = { λ state. state.running };

    fn measure(&mut self, path: &Text) -> Result<Measure, HostError> {
        self.machine.measure(path)
    }

    fn stage(&mut self, plan: &StagePlan, number: u64) -> Result<(), HostError> {
        self.machine.stage(plan, number)
    }

    fn start(&mut self, launch: &Launch) -> Result<Ticket, HostError> {
        let advice = self.adviser.advice(self.machine.alloc(), launch)?;
        let started = self.machine.start_advised(advice.as_slice(), launch);
        mem::drop(advice);
        started
    }

    fn collect(&mut self) -> Result<ChildEnd, HostError> {
        self.machine.collect_heard(&mut self.hearer)
    }

    fn scan(&mut self, folder: &Text) -> Result<Items<Found>, HostError> {
        self.machine.scan(folder)
    }

    fn head(&mut self, path: &Text, limit: u64) -> Result<Items<u8>, HostError> {
        self.machine.head(path, limit)
    }

    fn fetch(
        &mut self,
        key: &Text,
        number: u64,
        files: &Items<Found>,
    ) -> Result<Items<Found>, HostError> {
        self.machine.fetch(key, number, files)
    }

    fn store(&mut self, key: &Text, folder: &Text, files: &Items<Found>) -> Result<(), HostError> {
        self.machine.store(key, folder, files)
    }

    fn deliver(&mut self, plan: &StagePlan) -> Result<(), HostError> {
        self.machine.deliver(plan)
    }

    fn discard(&mut self, key: &Text) -> Result<(), HostError> {
        self.machine.discard(key)
    }

    fn close(&mut self, ticket: Ticket) {
        self.machine.close(ticket);
    }
}

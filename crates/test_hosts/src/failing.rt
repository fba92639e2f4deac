//! A host over real children and real files that fails one call.
ghost use Rattle.std.specs.Prelude.{◌≡◌};

use crate::lost::{Loss, Lost, is_due, lose};
use command_line::Launch;
use plain_data::{Items, Text};
use proc_host::{
    ChildEnd, Entry, Host, HostError, HostFault, HostRequest, Ticket, fetch_request, store_request,
};
use process_machine::{Machine, World};
use staging::{Found, Measure, StagePlan};
use std::alloc::Global;
use std::marker::Model;
use std::process::Stdio;

/// A host that passes so many calls on to a machine, fails the next one, and passes the rest on. A call that fails does nothing.
#[derive(Drop)]
pub struct Failing<R: World> {
    alloc: Global,
    inner: Machine<R>,
    // how many calls are passed on before the one that fails, where one is still to fail
    left: Option<u64>,
    loss: Loss,
    lost: Option<Lost>,
}

impl<R: World> Model for Failing<R> {
    ghost use Rattle.test_hosts.specs.Told.{told, IsWithin};
    ghost use Rattle.process_machine.specs.Machine.{MachineState};
    ghost use Rattle.cwl_value.specs.contracts.value.Value as value;
    ghost use Rattle.std.specs.Coded.{codes};

    ghost Value = { MachineState };

    ghost coded = { Prim.hlevel (codes, value.the_row.coded) };

    ghost view = { λ fields. record {
      log = told fields.lost fields.inner.log;
      running = fields.inner.running;
      guarded = fields.inner.guarded;
      launcher = fields.inner.launcher;
    } };

    ghost invariant = { λ fields. IsWithin fields.lost fields.inner.log };
}

impl<R: World> Failing<R> {
    /// A host that passes on to this machine, and fails the call after so many, or none.
    pub fn new(alloc: Global, inner: Machine<R>, left: Option<u64>, loss: Loss) -> Failing<R>
        ensures { result ≡ inner }
    {
        Failing {
            alloc,
            inner,
            left,
            loss,
            lost: None,
        }
    }

    /// What was passed on, and answered, oldest first.
    pub fn passed(&self) -> &[Entry] {
        self.inner.log()
    }
}

impl<R: World> Host for Failing<R>
where
    R::File: Into<Stdio>,
{
    ghost log = { λ state. state.log };

    ghost running = { λ state. state.running };

    fn measure(&mut self, path: &Text) -> Result<Measure, HostError> {
        if !is_due(&mut self.left) {
            return self.inner.measure(path);
        }
        let request = HostRequest::Measure(path.copied(self.alloc)?);
        let at = self.inner.log().len();
        Err(lose(&mut self.lost, self.loss, at, request, HostFault::Measure))
    }

    fn stage(&mut self, plan: &StagePlan, number: u64) -> Result<(), HostError> {
        if !is_due(&mut self.left) {
            return self.inner.stage(plan, number);
        }
        let request = HostRequest::Stage(plan.clone_in(self.alloc)?, number);
        let at = self.inner.log().len();
        Err(lose(&mut self.lost, self.loss, at, request, HostFault::Stage))
    }

    fn start(&mut self, launch: &Launch) -> Result<Ticket, HostError> {
        if !is_due(&mut self.left) {
            return self.inner.start(launch);
        }
        let request = HostRequest::Start(launch.clone_in(self.alloc)?);
        let at = self.inner.log().len();
        Err(lose(&mut self.lost, self.loss, at, request, HostFault::Start))
    }

    fn collect(&mut self) -> Result<ChildEnd, HostError> {
        if !is_due(&mut self.left) {
            return self.inner.collect();
        }
        let at = self.inner.log().len();
        let request = HostRequest::Collect;
        Err(lose(&mut self.lost, self.loss, at, request, HostFault::Collect))
    }

    fn scan(&mut self, folder: &Text) -> Result<Items<Found>, HostError> {
        if !is_due(&mut self.left) {
            return self.inner.scan(folder);
        }
        let request = HostRequest::Scan(folder.copied(self.alloc)?);
        let at = self.inner.log().len();
        Err(lose(&mut self.lost, self.loss, at, request, HostFault::Scan))
    }

    fn head(&mut self, path: &Text, limit: u64) -> Result<Items<u8>, HostError> {
        if !is_due(&mut self.left) {
            return self.inner.head(path, limit);
        }
        let request = HostRequest::Head(path.copied(self.alloc)?, limit);
        let at = self.inner.log().len();
        Err(lose(&mut self.lost, self.loss, at, request, HostFault::Head))
    }

    fn fetch(
        &mut self,
        key: &Text,
        number: u64,
        files: &Items<Found>,
    ) -> Result<Items<Found>, HostError> {
        if !is_due(&mut self.left) {
            return self.inner.fetch(key, number, files);
        }
        let request = fetch_request(self.alloc, key, number, files)?;
        let at = self.inner.log().len();
        Err(lose(&mut self.lost, self.loss, at, request, HostFault::Fetch))
    }

    fn store(&mut self, key: &Text, folder: &Text, files: &Items<Found>) -> Result<(), HostError> {
        if !is_due(&mut self.left) {
            return self.inner.store(key, folder, files);
        }
        let request = store_request(self.alloc, key, folder, files)?;
        let at = self.inner.log().len();
        Err(lose(&mut self.lost, self.loss, at, request, HostFault::Store))
    }

    fn deliver(&mut self, plan: &StagePlan) -> Result<(), HostError> {
        if !is_due(&mut self.left) {
            return self.inner.deliver(plan);
        }
        let request = HostRequest::Deliver(plan.clone_in(self.alloc)?);
        let at = self.inner.log().len();
        Err(lose(&mut self.lost, self.loss, at, request, HostFault::Deliver))
    }

    fn discard(&mut self, key: &Text) -> Result<(), HostError> {
        if !is_due(&mut self.left) {
            return self.inner.discard(key);
        }
        let request = HostRequest::Discard(key.copied(self.alloc)?);
        let at = self.inner.log().len();
        Err(lose(&mut self.lost, self.loss, at, request, HostFault::Discard))
    }

    fn close(&mut self, ticket: Ticket) {
        self.inner.close(ticket)
    }
}

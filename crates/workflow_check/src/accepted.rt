//! Processes whose links are right.
ghost use Rattle.std.specs.Prelude.{◌≡◌, None, IfOk, IfErr, OnOk};
ghost use Rattle.workflow_check.specs.Checked.{fault_in};
ghost use Rattle.workflow_check.specs.Faults.{IsErrorOf};
ghost use Rattle.workflow_check.specs.Scope.{file_type};

use crate::fault::AcceptError;
use crate::levels::check_process;
use cwl_types::{MemberType, PlainType};
use document_links::Process;
use plain_data::Items;
use std::alloc::{AllocError, Global};
use std::marker::Model;

/// A process whose links are right.
#[derive(Drop)]
pub struct Accepted {
    process: Process,
}

impl Model for Accepted {
    ghost use Rattle.std.specs.Prelude.{◌≡◌, None};
    ghost use Rattle.document_links.specs.declared.process.Process.{Process};
    ghost use Rattle.document_links.specs.contracts.process.Process as contract;
    ghost use Rattle.std.specs.Coded.{codes};

    ghost Value = { Process };

    ghost coded = { Prim.hlevel (codes, contract.the_row.coded) };

    ghost use Rattle.workflow_check.specs.Checked.{fault_in};

    ghost view = { λ fields. fields.process };

    ghost invariant = { λ fields. fault_in fields.process ≡ None };
}

/// Accepts a process whose links are right (CWL v1.2, Workflow Description, `Workflow Graph`).
///
/// Of several faults the first is answered. Inner workflows come before the outer one. Of one workflow come, step by step, K5, K6 and
/// K7; then, step by step for its entries and for what its process takes without an entry, and last for each output of the
/// workflow, K1, K3 and K2; last K4.
pub fn accept(alloc: Global, process: Process) -> Result<Accepted, AcceptError>
    ensures ok { IfOk result (λ accepted. accepted ≡ process) }
    ensures sound { OnOk result (fault_in process ≡ None) }
    ensures err { IfErr result (IsErrorOf (fault_in process)) }
{
    match check(alloc, &process) {
        Ok(()) => Ok(Accepted { process }),
        Err(error) => {
            drop(process);
            Err(error)
        }
    }
}

fn check(alloc: Global, process: &Process) -> Result<(), AcceptError>
    ensures ok { OnOk result (fault_in process.now ≡ None) }
    ensures err { IfErr result (IsErrorOf (fault_in process.now)) }
{
    let file = file_type(alloc)?;
    let checked = check_process(alloc, process, &file);
    drop(file);
    checked
}

/// The type File.
fn file_type(alloc: Global) -> Result<Items<MemberType>, AllocError>
    ensures { IfOk result (λ file. file ≡ file_type) }
{
    let mut members = Items::new(alloc);
    members.push(MemberType::Plain(PlainType::File))?;
    Ok(members)
}

impl Accepted {
    /// The process itself.
    pub fn as_process(&self) -> &Process
        ensures process { result.now ≡ self.now }
        ensures sound { fault_in self.now ≡ None }
    {
        &self.process
    }

    /// The process by value, without memory.
    pub fn into_process(self) -> Process
        ensures process { result ≡ self }
        ensures sound { fault_in self ≡ None }
    {
        let Accepted { process } = self;
        process
    }
}

ghost use Rattle.std.specs.Prelude.{◌≡◌, IfOk};
ghost use Rattle.job_graph.specs.Links.{cause_of};
ghost use Rattle.job_graph.specs.Inputs.{input_cause};
ghost use Rattle.job_graph.specs.inner.Told.{IsOfInput, IsOfLink};

use cwl_value::JobPlace;
use input_files::{InputError, InputFault};
use link_values::{LinkError, LinkFault};
use param_refs::RefFault;
use plain_data::Text;
use scatter_shape::ScatterFault;
use std::alloc::{AllocError, Global};

/// Why an equation of a process has no value.
#[derive(Drop)]
pub enum Cause {
    /// A file of this input is absent, or of another kind.
    Missing(Text),
    /// The value of this input does not fit its type.
    Kind(Text),
    /// A file of this input lacks a secondary file.
    Secondary(Text),
    /// The values of links give none.
    Link(LinkFault),
    /// A reference of `valueFrom` or `when` has no value.
    Reference(RefFault),
    /// A step can't be scattered.
    Scatter(ScatterFault),
}

impl Cause {
    /// The same cause in memory of its own.
    pub fn clone_in(&self, alloc: Global) -> Result<Cause, AllocError>
        ensures { IfOk result (λ copy. copy ≡ self.now) }
    {
        match self {
            Cause::Missing(name) => Ok(Cause::Missing(name.copied(alloc)?)),
            Cause::Kind(name) => Ok(Cause::Kind(name.copied(alloc)?)),
            Cause::Secondary(name) => Ok(Cause::Secondary(name.copied(alloc)?)),
            Cause::Link(fault) => Ok(Cause::Link(*fault)),
            Cause::Reference(fault) => Ok(Cause::Reference(*fault)),
            Cause::Scatter(fault) => Ok(Cause::Scatter(*fault)),
        }
    }
}

/// The cause of a link's fault.
fn cause_of(fault: LinkFault) -> Cause
    ensures { result ≡ cause_of fault }
{
    match fault {
        LinkFault::Reference(fault) => Cause::Reference(fault),
        _ => Cause::Link(fault),
    }
}

/// A value or the cause why there is none, where a link's value was found or not.
pub(crate) fn of_link<T>(found: Result<T, LinkError>) -> Result<Result<T, Cause>, AllocError>
    ensures { IsOfLink found result }
{
    match found {
        Ok(value) => Ok(Ok(value)),
        Err(LinkError::Refused(fault)) => Ok(Err(cause_of(fault))),
        Err(LinkError::OutOfMemory) => Err(AllocError),
    }
}

/// The cause of an input's fault.
fn input_cause(fault: InputFault) -> Cause
    ensures { result ≡ input_cause fault }
{
    match fault {
        InputFault::Kind(param) => Cause::Kind(param),
        InputFault::Missing(param) => Cause::Missing(param),
        InputFault::Secondary(param) => Cause::Secondary(param),
    }
}

/// The inputs of a process or the cause why there are none.
pub(crate) fn of_input<T>(found: Result<T, InputError>) -> Result<Result<T, Cause>, AllocError>
    ensures { IsOfInput found result }
{
    match found {
        Ok(inputs) => Ok(Ok(inputs)),
        Err(InputError::Refused(fault)) => Ok(Err(input_cause(fault))),
        Err(InputError::OutOfMemory) => Err(AllocError),
    }
}
